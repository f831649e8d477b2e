//! Numbers of two and four octets, the high one first (RFC 1035 section 2.3.2).

ghost use Rattle.std.specs.Prelude.{◌≡◌, ◌+◌, ◌≤◌, ◌++◌, length, drop};
ghost use Rattle.lb_wire.specs.BigEndian.{two_octets, four_octets};

/// The number in the two octets at a place.
pub(crate) fn read_u16(bytes: &[u8], at: usize) -> u16
    requires { at + 2 ≤ length bytes.now }
    ensures { drop at bytes.now ≡ two_octets result ++ drop (at + 2) bytes.now }
{
    u16::from_be_bytes([bytes[at], bytes[at + 1]])
}

/// The number in the four octets at a place.
pub(crate) fn read_u32(bytes: &[u8], at: usize) -> u32
    requires { at + 4 ≤ length bytes.now }
    ensures { drop at bytes.now ≡ four_octets result ++ drop (at + 4) bytes.now }
{
    u32::from_be_bytes([bytes[at], bytes[at + 1], bytes[at + 2], bytes[at + 3]])
}
