//! The flags of a message.

ghost use Rattle.std.specs.Prelude.{◌≡◌, ◌≤◌, ◌==◌, ◌^◌, ◌↔◌, IsTrue, if◌then◌else◌, length};
ghost use Rattle.lb_wire.specs.Numbers.{rcode_number, opcode_number};
ghost use Rattle.lb_wire.specs.Flags.{opcode_of, rcode_of, tc_of, answer_flags, without_rd};
ghost use Rattle.lb_wire.specs.Query.{without_recursion};

use crate::big_endian::read_u16;
use crate::octets::overwrite;
use crate::opcode::Opcode;
use crate::rcode::Rcode;

/// The flags of a message (RFC 1035 section 4.1.1; AD and CD by RFC 4035 section 3.2):
///
/// ```text
///   0  1  2  3  4  5  6  7  8  9 10 11 12 13 14 15
/// +--+--+--+--+--+--+--+--+--+--+--+--+--+--+--+--+
/// |QR|   Opcode  |AA|TC|RD|RA| Z|AD|CD|   RCODE   |
/// +--+--+--+--+--+--+--+--+--+--+--+--+--+--+--+--+
/// ```
#[derive(Clone, Copy, Debug, PartialEq, Eq)]
pub struct Flags(pub u16);

// What each field counts for: the value of its last bit. Fields are read by division and put together by sums.

/// The message is a response.
const QR: u16 = 0x8000;
/// The kind of query, four bits.
const OPCODE: u16 = 0x800;
/// The message is truncated.
const TC: u16 = 0x200;
/// Recursion is desired.
const RD: u16 = 0x100;
/// Recursion is available.
const RA: u16 = 0x80;
/// Checking is disabled.
const CD: u16 = 0x10;

impl Flags {
    /// Whether QR is 1: the message is a response.
    pub fn is_response(self) -> bool
        ensures { IsTrue result ↔ (2 ^ 15 ≤ self.0) }
    {
        self.0 >= QR
    }

    /// The kind of query.
    pub fn opcode(self) -> Opcode
        ensures { opcode_number result ≡ opcode_of self.0 }
    {
        Opcode::from_low_bits(self.0 / OPCODE)
    }

    /// Whether TC is 1: the message is truncated.
    pub fn is_truncated(self) -> bool
        ensures { result ≡ (tc_of self.0 == 1) }
    {
        self.0 / TC % 2 == 1
    }

    /// The response code, without the bits that an OPT adds.
    pub fn rcode(self) -> Rcode
        ensures { rcode_number result ≡ rcode_of self.0 }
    {
        Rcode::from_low_bits(self.0)
    }

    /// The flags of a made answer to a query with these flags: QR 1, Opcode kept, AA 0, TC as stated, RD kept, RA
    /// equal to RD, Z 0, AD 0, CD kept, the stated RCODE.
    pub(crate) fn answer(self, truncated: bool, rcode: Rcode) -> Flags
        ensures { result.0 ≡ answer_flags self.0 (if truncated then 1 else 0) (rcode_number rcode) }
    {
        let opcode = self.0 / OPCODE % 16;
        let recursion = self.0 / RD % 2;
        let checking = self.0 / CD % 2;
        let cut = if truncated { TC } else { 0 };
        let rcode = u16::from(rcode.number());
        Flags(QR + opcode * OPCODE + cut + recursion * (RD + RA) + checking * CD + rcode)
    }

    /// The flags with RD 0, and every other bit as it is.
    fn without_recursion(self) -> Flags
        ensures { result.0 ≡ without_rd self.0 }
    {
        Flags(self.0 - self.0 / RD % 2 * RD)
    }
}

/// Where the flags of a message stand.
const FLAGS_AT: usize = 2;

/// Clears RD in a message, and changes nothing else (RFC 1035 section 4.1.1).
pub fn clear_rd(bytes: &mut [u8])
    requires long { 4 ≤ length bytes.old }
    ensures { bytes.new ≡ without_recursion bytes.old }
{
    let flags = Flags(read_u16(bytes, FLAGS_AT)).without_recursion();
    overwrite(bytes, FLAGS_AT, &flags.0.to_be_bytes());
}
