//! Response codes.

ghost use Rattle.std.specs.Prelude.{◌≡◌, ◌%◌, ◌^◌, ◌<◌};
ghost use Rattle.lb_wire.specs.Numbers.{rcode_number};
ghost use Rattle.lb_wire.specs.Rcode.{rcode_of_name};

use std::fmt;

/// A response code (RFC 1035 section 4.1.1; the names are IANA's): the low four bits of the flags. Each number has
/// exactly one value.
#[derive(Clone, Copy, Debug, PartialEq, Eq)]
pub enum Rcode {
    NoError,
    FormErr,
    ServFail,
    NXDomain,
    NotImp,
    Refused,
    YXDomain,
    YXRRSet,
    NXRRSet,
    NotAuth,
    NotZone,
    DsoTypeNI,
    Unassigned12,
    Unassigned13,
    Unassigned14,
    Unassigned15,
}

/// The response codes that a text names, with their names.
const NAMES: [(Rcode, &str); 6] = [
    (Rcode::NoError, "NOERROR"),
    (Rcode::FormErr, "FORMERR"),
    (Rcode::ServFail, "SERVFAIL"),
    (Rcode::NXDomain, "NXDOMAIN"),
    (Rcode::NotImp, "NOTIMP"),
    (Rcode::Refused, "REFUSED"),
];

/// The response codes whose names are written and not read.
const WRITTEN_NAMES: [(Rcode, &str); 10] = [
    (Rcode::YXDomain, "YXDOMAIN"),
    (Rcode::YXRRSet, "YXRRSET"),
    (Rcode::NXRRSet, "NXRRSET"),
    (Rcode::NotAuth, "NOTAUTH"),
    (Rcode::NotZone, "NOTZONE"),
    (Rcode::DsoTypeNI, "DSOTYPENI"),
    (Rcode::Unassigned12, "RESERVED12"),
    (Rcode::Unassigned13, "RESERVED13"),
    (Rcode::Unassigned14, "RESERVED14"),
    (Rcode::Unassigned15, "RESERVED15"),
];

impl Rcode {
    /// The response code that a text names: NOERROR, FORMERR, SERVFAIL, NXDOMAIN, NOTIMP or REFUSED, in these letters.
    pub fn from_name(name: &[u8]) -> Option<Rcode>
        ensures { result ≡ rcode_of_name name.now }
    {
        for (rcode, word) in NAMES {
            if word.as_bytes() == name {
                return Some(rcode);
            }
        }
        None
    }

    /// The number on the wire, 0 to 15.
    pub fn number(self) -> u8
        ensures number { result ≡ rcode_number self }
        ensures fits { result < 16 }
    {
        match self {
            Rcode::NoError => 0,
            Rcode::FormErr => 1,
            Rcode::ServFail => 2,
            Rcode::NXDomain => 3,
            Rcode::NotImp => 4,
            Rcode::Refused => 5,
            Rcode::YXDomain => 6,
            Rcode::YXRRSet => 7,
            Rcode::NXRRSet => 8,
            Rcode::NotAuth => 9,
            Rcode::NotZone => 10,
            Rcode::DsoTypeNI => 11,
            Rcode::Unassigned12 => 12,
            Rcode::Unassigned13 => 13,
            Rcode::Unassigned14 => 14,
            Rcode::Unassigned15 => 15,
        }
    }

    /// The response code with the number that the low four bits give.
    pub fn from_low_bits(bits: u16) -> Rcode
        ensures { rcode_number result ≡ bits % 2 ^ 4 }
    {
        match bits % 16 {
            0 => Rcode::NoError,
            1 => Rcode::FormErr,
            2 => Rcode::ServFail,
            3 => Rcode::NXDomain,
            4 => Rcode::NotImp,
            5 => Rcode::Refused,
            6 => Rcode::YXDomain,
            7 => Rcode::YXRRSet,
            8 => Rcode::NXRRSet,
            9 => Rcode::NotAuth,
            10 => Rcode::NotZone,
            11 => Rcode::DsoTypeNI,
            12 => Rcode::Unassigned12,
            13 => Rcode::Unassigned13,
            14 => Rcode::Unassigned14,
            _ => Rcode::Unassigned15,
        }
    }
}

/// The name, as dig writes it.
impl fmt::Display for Rcode {
    fn fmt<W: fmt::Write>(&self, f: &mut fmt::Formatter<W>) -> fmt::Result {
        for (rcode, word) in NAMES.iter().chain(&WRITTEN_NAMES) {
            if rcode.number() == self.number() {
                return f.write_str(word);
            }
        }
        Ok(())
    }
}
