//! Kinds of query.

ghost use Rattle.std.specs.Prelude.{◌≡◌, ◌%◌, ◌^◌, ◌<◌};
ghost use Rattle.lb_wire.specs.Numbers.{opcode_number};

/// A kind of query (RFC 1035 section 4.1.1; the names are IANA's): four bits of the flags. Each number has exactly
/// one value.
#[derive(Clone, Copy, Debug, PartialEq, Eq)]
pub enum Opcode {
    Query,
    IQuery,
    Status,
    Unassigned3,
    Notify,
    Update,
    Dso,
    Unassigned7,
    Unassigned8,
    Unassigned9,
    Unassigned10,
    Unassigned11,
    Unassigned12,
    Unassigned13,
    Unassigned14,
    Unassigned15,
}

impl Opcode {
    /// The number on the wire, 0 to 15.
    pub fn number(self) -> u8
        ensures number { result ≡ opcode_number self }
        ensures fits { result < 16 }
    {
        match self {
            Opcode::Query => 0,
            Opcode::IQuery => 1,
            Opcode::Status => 2,
            Opcode::Unassigned3 => 3,
            Opcode::Notify => 4,
            Opcode::Update => 5,
            Opcode::Dso => 6,
            Opcode::Unassigned7 => 7,
            Opcode::Unassigned8 => 8,
            Opcode::Unassigned9 => 9,
            Opcode::Unassigned10 => 10,
            Opcode::Unassigned11 => 11,
            Opcode::Unassigned12 => 12,
            Opcode::Unassigned13 => 13,
            Opcode::Unassigned14 => 14,
            Opcode::Unassigned15 => 15,
        }
    }

    /// The kind of query with the number that the low four bits give.
    pub fn from_low_bits(bits: u16) -> Opcode
        ensures { opcode_number result ≡ bits % 2 ^ 4 }
    {
        match bits % 16 {
            0 => Opcode::Query,
            1 => Opcode::IQuery,
            2 => Opcode::Status,
            3 => Opcode::Unassigned3,
            4 => Opcode::Notify,
            5 => Opcode::Update,
            6 => Opcode::Dso,
            7 => Opcode::Unassigned7,
            8 => Opcode::Unassigned8,
            9 => Opcode::Unassigned9,
            10 => Opcode::Unassigned10,
            11 => Opcode::Unassigned11,
            12 => Opcode::Unassigned12,
            13 => Opcode::Unassigned13,
            14 => Opcode::Unassigned14,
            _ => Opcode::Unassigned15,
        }
    }
}
