//! Names and values of forms, decoded where no memory is taken.

ghost use Rattle.std.specs.Prelude.{[], IfNone, IfSome, IsTrue, length, map, take, ◌<◌, ◌≡◌, ◌≤◌, ◌∷◌};
ghost use Rattle.form_urlencoded.specs.Form.{decode, plus_to_space};
ghost use Rattle.percent_encoding.specs.Percent.{KeepsFirst};
ghost use Rattle.lb_doh_message.specs.Form.{IsDecoded};

/// The octets that a name or a value of a form stands for: they stand in `room`, or in `raw` itself where it has nothing to decode. None
/// where they are more than `room` has place for.
pub(crate) fn decoded<'a>(raw: &'a [u8], room: &'a mut [u8]) -> Option<&'a [u8]>
    ensures { IsDecoded raw.now (length room.old) result }
{
    if is_plain(raw) {
        if raw.len() > room.len() {
            return None;
        }
        return Some(raw);
    }
    let len = decode_into(raw, room)?;
    Some(&room[..len])
}

/// Whether a text stands for itself.
fn is_plain(raw: &[u8]) -> bool
    ensures { IsTrue result → decode raw.now ≡ raw.now }
{
    raw.iter().all(|&b| b != b'%' && b != b'+')
}

/// Writes the octets that a name or a value stands for to the front of `room`, and tells how many; None where they are more than it has
/// place for.
fn decode_into(raw: &[u8], room: &mut [u8]) -> Option<usize>
    ensures some { IfSome result (λ len. (len ≤ length room.new) × (take len room.new ≡ decode raw.now)) }
    ensures none { IfNone result (length room.old < length (decode raw.now)) }
{
    let mut left = raw;
    let mut at = 0usize;
    while let Some((octet, rest)) = first_octet(left) {
        if at == room.len() {
            return None;
        }
        room[at] = octet;
        at += 1;
        left = rest;
    }
    Some(at)
}

/// The first octet that a name or a value stands for, and the rest of it.
fn first_octet(raw: &[u8]) -> Option<(u8, &[u8])>
    ensures first { IfSome result (λ split. decode raw.now ≡ split.0 ∷ decode split.1.now) }
    ensures shorter { IfSome result (λ split. length split.1.now < length raw.now) }
    ensures none { IfNone result (decode raw.now ≡ []) }
{
    if let Some(split) = first_escape(raw) {
        return Some(split);
    }
    let (&first, rest) = raw.split_first()?;
    Some((if first == b'+' { b' ' } else { first }, rest))
}

/// The octet that an escape at the front stands for, and what follows the escape.
fn first_escape(raw: &[u8]) -> Option<(u8, &[u8])>
    ensures first { IfSome result (λ split. decode raw.now ≡ split.0 ∷ decode split.1.now) }
    ensures shorter { IfSome result (λ split. length split.1.now < length raw.now) }
    ensures none { IfNone result (KeepsFirst (map plus_to_space raw.now)) }
{
    let [b'%', high, low, rest @ ..] = raw else {
        return None;
    };
    let high = char::from(*high).to_digit(16)?;
    let low = char::from(*low).to_digit(16)?;
    Some((high as u8 * 0x10 + low as u8, rest))
}
