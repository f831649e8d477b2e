//! Walking records.

ghost use Rattle.std.specs.Prelude.{◌≡◌, ℕ, ◌+◌, ◌<◌, ◌≤◌, ◌^◌, List, ◌++◌, length, drop, IfSome, IfNone};
ghost use Rattle.lb_wire.specs.Record.{Record, IsReadAt, IsRecord, record_octets, end_at, Holds};
ghost use Rattle.lb_wire.specs.Tally.{tally_of};

use crate::big_endian::{read_u16, read_u32};
use crate::owner::owner_len;
use crate::record_type::RecordType;
use crate::tally::Tally;
use lb_name::labels_go_on;

/// How many octets stand between a record's owner and its data: TYPE, CLASS, TTL and RDLENGTH (RFC 1035 section
/// 4.1.3).
const FIXED_LEN: usize = 10;

/// The places of TTL and RDLENGTH after the owner.
const TTL_AT: usize = 4;

const RDLENGTH_AT: usize = 8;

/// Where a record lies, and what is read of it (RFC 1035 section 4.1.3).
///
/// ```text
///   0  1  2  3  4  5  6  7  8  9 10 11 12 13 14 15
/// +--+--+--+--+--+--+--+--+--+--+--+--+--+--+--+--+
/// /                     NAME                      /
/// +--+--+--+--+--+--+--+--+--+--+--+--+--+--+--+--+
/// |                     TYPE                      |
/// +--+--+--+--+--+--+--+--+--+--+--+--+--+--+--+--+
/// |                     CLASS                     |
/// +--+--+--+--+--+--+--+--+--+--+--+--+--+--+--+--+
/// |                      TTL                      |
/// |                                               |
/// +--+--+--+--+--+--+--+--+--+--+--+--+--+--+--+--+
/// |                   RDLENGTH                    |
/// +--+--+--+--+--+--+--+--+--+--+--+--+--+--+--+--+
/// /                     RDATA                     /
/// +--+--+--+--+--+--+--+--+--+--+--+--+--+--+--+--+
/// ```
#[derive(Clone, Copy, Debug, PartialEq, Eq)]
pub struct Spot {
    pub(crate) rtype: RecordType,
    pub(crate) ttl: u32,
    pub(crate) ttl_at: usize,
    /// The place after the record.
    pub(crate) end: usize,
}

/// Reads the record that stands at a place.
pub(crate) fn read_record(bytes: &[u8], at: usize) -> Option<Spot>
    requires { at ≤ length bytes.now }
    ensures within { IfSome result (λ spot. (spot.end ≤ length bytes.now) × (spot.ttl_at + 4 ≤ spot.end) × (at ≤ spot.ttl_at) × (spot.ttl < 2 ^ 32)) }
    ensures found { IfSome result (λ spot. IsReadAt bytes.now at spot) }
    ensures none { IfNone result ((r : Record) (rest : List ℕ) → IsRecord r → drop at bytes.now ≡ record_octets r ++ rest → ⊥) }
    ensures sized { IfSome result (λ spot. spot.end ≡ end_at (spot.ttl_at + 4) bytes.now) }
{
    // a law: the call does nothing
    labels_go_on();
    let (_, there) = bytes.split_at(at);
    let fixed = at + owner_len(there)?;
    if bytes.len() - fixed < FIXED_LEN {
        return None;
    }
    let rtype = RecordType(read_u16(bytes, fixed));
    let ttl = read_u32(bytes, fixed + TTL_AT);
    let rdata = fixed + FIXED_LEN;
    let end = rdata + usize::from(read_u16(bytes, fixed + RDLENGTH_AT));
    if bytes.len() < end {
        return None;
    }
    Some(Spot {
        rtype,
        ttl,
        ttl_at: fixed + TTL_AT,
        end,
    })
}

/// Walks so many records from a place on: what they come to, and the place after them.
pub(crate) fn walk(bytes: &[u8], at: usize, count: u32) -> Option<(Tally, usize)>
    requires { at ≤ length bytes.now }
    ensures within { IfSome result (λ w. w.1 ≤ length bytes.now) }
    ensures found { IfSome result (λ w. (records : List Record) × Holds count (drop at bytes.now) records (drop w.1 bytes.now) × (w.0 ≡ tally_of records)) }
    ensures none { IfNone result ((records : List Record) (rest : List ℕ) → Holds count (drop at bytes.now) records rest → ⊥) }
{
    // a law: the call does nothing
    labels_go_on();
    let mut place = at;
    let mut tally = Tally::NONE;
    'records: for _ in 0..count {
        let spot = read_record(bytes, place)?;
        tally = tally.and(Tally::of_record(spot.rtype, spot.ttl));
        place = spot.end;
    }
    Some((tally, place))
}
