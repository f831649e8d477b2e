//! Media types.

ghost use Rattle.std.specs.Prelude.{◌≡◌, ◌↔◌, IsTrue};
ghost use Rattle.lb_doh_message.specs.Media.{IsDnsMedia, before_semicolon, past_blanks, is_blank as is_blank_octet};

/// A message in the wire format (RFC 8484 section 6).
pub(crate) const DNS_MESSAGE: &[u8] = b"application/dns-message";

/// How many octets that has.
const KIND_LEN: usize = 23;

/// Whether a media type, its parameters aside, is that of DNS messages.
pub(crate) fn is_dns_media(media: &[u8]) -> bool
    ensures { IsTrue result ↔ IsDnsMedia media.now }
{
    let essence = without_leading(without_parameters(media));
    if essence.len() < KIND_LEN {
        return false;
    }
    let (kind, behind) = essence.split_at(KIND_LEN);
    kind.eq_ignore_ascii_case(DNS_MESSAGE) && behind.iter().all(|&b| is_blank(b))
}

fn is_blank(octet: u8) -> bool
    ensures { result ≡ is_blank_octet octet }
{
    octet == b' ' || octet == b'\t'
}

/// What stands before the first `;`.
fn without_parameters(media: &[u8]) -> &[u8]
    ensures { result.now ≡ before_semicolon media.now }
{
    match media.iter().position(|&b| b == b';') {
        Some(at) => &media[..at],
        None => media,
    }
}

/// The octets from the first on that is no blank.
fn without_leading(octets: &[u8]) -> &[u8]
    ensures { result.now ≡ past_blanks octets.now }
{
    match octets.iter().position(|&b| !is_blank(b)) {
        Some(at) => &octets[at..],
        None => &[],
    }
}
