//! Numbers with names: as they are printed, which no line of a replay does.

use crate::rows::held;
use lb_wire::{PoolId, QueryFault, Rcode, RecordType, ReplyFault};
use std::test::Fail;

/// RCODEs as they are printed (RFC 1035 section 4.1.1, RFC 6895 section 2.3).
const RCODES: &[(u16, &str)] = &[
    (0, "NOERROR"),
    (1, "FORMERR"),
    (2, "SERVFAIL"),
    (3, "NXDOMAIN"),
    (4, "NOTIMP"),
    (5, "REFUSED"),
    (6, "YXDOMAIN"),
    (7, "YXRRSET"),
    (8, "NXRRSET"),
    (9, "NOTAUTH"),
    (10, "NOTZONE"),
    (11, "DSOTYPENI"),
    (12, "RESERVED12"),
    (13, "RESERVED13"),
    (14, "RESERVED14"),
    (15, "RESERVED15"),
];

#[test]
fn printed_rcodes(rt: HostRuntime) -> Result<(), Fail> {
    let alloc = rt.alloc();
    for (row, (number, text)) in RCODES.iter().enumerate() {
        let rcode = Rcode::from_low_bits(*number);
        let printed = format!(in alloc; "{rcode}")?;
        held(row, printed.as_str() == *text)?;
    }
    Ok(())
}

/// Record types as they are printed.
const TYPES: &[(RecordType, &str)] = &[
    (RecordType::A, "A"),
    (RecordType::NS, "NS"),
    (RecordType::CNAME, "CNAME"),
    (RecordType::SOA, "SOA"),
    (RecordType::PTR, "PTR"),
    (RecordType::MX, "MX"),
    (RecordType::TXT, "TXT"),
    (RecordType::AAAA, "AAAA"),
    (RecordType::SRV, "SRV"),
    (RecordType::ANY, "ANY"),
    (RecordType::OPT, "OPT"),
    (RecordType::IXFR, "IXFR"),
    (RecordType::AXFR, "AXFR"),
    // RFC 3597 section 5
    (RecordType(65280), "TYPE65280"),
];

#[test]
fn printed_types(rt: HostRuntime) -> Result<(), Fail> {
    let alloc = rt.alloc();
    for (row, (number, text)) in TYPES.iter().enumerate() {
        let rtype = *number;
        let printed = format!(in alloc; "{rtype}")?;
        held(row, printed.as_str() == *text)?;
    }
    Ok(())
}

#[test]
fn numbers() -> Result<(), Fail> {
    let query = QueryFault::Short.number() == 1
        && QueryFault::NotQuery.number() == 2
        && QueryFault::Malformed.number() == 3;
    let reply = ReplyFault::Short.number() == 1 && ReplyFault::NotReply.number() == 2;
    held(0, query && reply && PoolId::default() == PoolId(0))
}
