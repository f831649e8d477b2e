//! Record types and classes.

ghost use Rattle.std.specs.Prelude.{◌≡◌};
ghost use Rattle.lb_wire.specs.RecordType.{type_of_name};

use std::fmt;

/// The type of a record or of a question (RFC 1035 sections 3.2.2 and 3.2.3; the names are IANA's). Each number has
/// exactly one value.
#[derive(Clone, Copy, Debug, PartialEq, Eq)]
pub struct RecordType(pub u16);

impl RecordType {
    /// An IPv4 address.
    pub const A: RecordType = RecordType(1);
    /// An authoritative name server.
    pub const NS: RecordType = RecordType(2);
    /// The canonical name of an alias.
    pub const CNAME: RecordType = RecordType(5);
    /// The start of a zone of authority.
    pub const SOA: RecordType = RecordType(6);
    /// A pointer to another name.
    pub const PTR: RecordType = RecordType(12);
    /// A mail exchange.
    pub const MX: RecordType = RecordType(15);
    /// Text strings.
    pub const TXT: RecordType = RecordType(16);
    /// An IPv6 address (RFC 3596).
    pub const AAAA: RecordType = RecordType(28);
    /// The place of a service (RFC 2782).
    pub const SRV: RecordType = RecordType(33);
    /// The pseudo-record of EDNS (RFC 6891).
    pub const OPT: RecordType = RecordType(41);
    /// An incremental zone transfer (RFC 1995).
    pub const IXFR: RecordType = RecordType(251);
    /// A zone transfer (RFC 5936).
    pub const AXFR: RecordType = RecordType(252);
    /// Of a question alone: all records (QTYPE `*`).
    pub const ANY: RecordType = RecordType(255);
}

/// The types that a text names, with their names.
const NAMES: [(RecordType, &str); 10] = [
    (RecordType::A, "A"),
    (RecordType::NS, "NS"),
    (RecordType::CNAME, "CNAME"),
    (RecordType::SOA, "SOA"),
    (RecordType::PTR, "PTR"),
    (RecordType::MX, "MX"),
    (RecordType::TXT, "TXT"),
    (RecordType::AAAA, "AAAA"),
    (RecordType::SRV, "SRV"),
    (RecordType::ANY, "ANY"),
];

/// The types whose names are written and not read: a text that means them gives their number.
const WRITTEN_NAMES: [(RecordType, &str); 3] = [
    (RecordType::OPT, "OPT"),
    (RecordType::IXFR, "IXFR"),
    (RecordType::AXFR, "AXFR"),
];

impl RecordType {
    /// The type that a text names: A, NS, CNAME, SOA, PTR, MX, TXT, AAAA, SRV or ANY, in these letters.
    pub fn from_name(name: &[u8]) -> Option<RecordType>
        ensures { result ≡ type_of_name name.now }
    {
        for (rtype, word) in NAMES {
            if word.as_bytes() == name {
                return Some(rtype);
            }
        }
        None
    }
}

/// The name, or `TYPE` and the number (RFC 3597 section 5).
impl fmt::Display for RecordType {
    fn fmt<W: fmt::Write>(&self, f: &mut fmt::Formatter<W>) -> fmt::Result {
        for (rtype, word) in NAMES.iter().chain(&WRITTEN_NAMES) {
            if rtype.0 == self.0 {
                return f.write_str(word);
            }
        }
        let number = self.0;
        write!(f, "TYPE{number}")
    }
}

/// The class of a record or of a question (RFC 1035 sections 3.2.4 and 3.2.5). Each number has exactly one value.
#[derive(Clone, Copy, Debug, PartialEq, Eq)]
pub struct Class(pub u16);

impl Class {
    /// The Internet.
    pub const IN: Class = Class(1);
}
