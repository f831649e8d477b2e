//! The first bits of octets, the high bit of each octet first.

ghost use Rattle.std.specs.Prelude.{◌≡◌, ◌*◌, ◌≤◌, ◌<◌, ◌↔◌, IsTrue, length, replicate};
ghost use Rattle.lb_masks.specs.Bits.{SameBits, KeepsBits, kept_octet, kept_octets};

/// How many bits an octet has.
pub(crate) const OCTET_BITS: usize = 8;

/// The octet with its bits past the first so many cleared.
pub(crate) fn kept_octet(octet: u8, count: usize) -> u8
    requires { count ≤ 8 }
    ensures { result ≡ kept_octet count octet }
{
    let past = OCTET_BITS - count;
    (u16::from(octet) >> past << past) as u8
}

/// Whether the first so many bits are equal.
pub(crate) fn same_bits(a: &[u8], b: &[u8], count: usize) -> bool
    requires a { count ≤ 8 * length a.now }
    requires b { count ≤ 8 * length b.now }
    ensures { IsTrue result ↔ SameBits count a.now b.now }
{
    let whole = count / OCTET_BITS;
    let rest = count % OCTET_BITS;
    if a[..whole] != b[..whole] {
        return false;
    }
    rest == 0 || kept_octet(a[whole], rest) == kept_octet(b[whole], rest)
}

/// Puts the octets, with their bits past the first so many cleared, in place of as many zeros.
pub(crate) fn keep_bits(octets: &[u8], count: usize, kept: &mut [u8])
    requires { kept.old ≡ replicate (length octets.now) 0 }
    ensures octets { kept.new ≡ kept_octets count octets.now }
    ensures bits { KeepsBits count octets.now kept.new }
{
    let whole = count / OCTET_BITS;
    if whole >= octets.len() {
        kept.copy_from_slice(octets);
        return;
    }
    kept[..whole].copy_from_slice(&octets[..whole]);
    kept[whole] = kept_octet(octets[whole], count % OCTET_BITS);
}
