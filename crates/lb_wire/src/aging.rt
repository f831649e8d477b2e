//! Replies that were kept, some seconds later.

ghost use Rattle.std.specs.Prelude.{◌≡◌, ℕ, ◌+◌, ◌≤◌, List, ◌++◌, drop, length};
ghost use Rattle.std.specs.List.{AllByRecursion};
ghost use Rattle.lb_wire.specs.Record.{Record, IsRecord, record_octets, Holds};
ghost use Rattle.lb_wire.specs.Message.{Message, Lays, message_octets};
ghost use Rattle.lb_wire.specs.Aging.{IsAgedAt, Outlives, aged, Aged};

use crate::header::{HEADER_LEN, read_header};
use crate::octets::overwrite;
use crate::question::skip_question;
use crate::record::read_record;
use crate::record_type::RecordType;
use lb_name::labels_go_on;

/// Lowers each TTL by so many seconds, which every record outlives; the TTL field of an OPT is no time and stays
/// (RFC 6891 section 6.1.3). By 0 seconds no octet changes.
pub fn age(bytes: &mut [u8], secs: u32)
    requires { (m : Message) × Lays bytes.old m × AllByRecursion (Outlives secs) m.records }
    ensures { (m : Message) → Lays bytes.old m → bytes.new ≡ message_octets (aged secs m) }
{
    // a law: the call does nothing
    labels_go_on();
    let header = read_header(bytes);
    let Some(question_end) = skip_question(bytes, HEADER_LEN) else {
        unreachable!();
    };
    let count = u32::from(header.answers)
        + u32::from(header.authorities)
        + u32::from(header.additionals);
    age_records(bytes, question_end, count, secs);
}

/// Lowers each TTL of so many records from a place on.
fn age_records(bytes: &mut [u8], at: usize, count: u32, secs: u32)
    requires within { at ≤ length bytes.old }
    requires held { (records : List Record) × (rest : List ℕ) × Holds count (drop at bytes.old) records rest × AllByRecursion (Outlives secs) records }
    ensures { (records : List Record) (rest : List ℕ) → Holds count (drop at bytes.old) records rest → AllByRecursion (Outlives secs) records → Aged bytes.old at secs records rest bytes.new }
{
    let mut place = at;
    'records: for _ in 0..count {
        place = age_record(bytes, place, secs);
    }
}

/// Lowers the TTL of the record at a place, and gives the place after it.
fn age_record(bytes: &mut [u8], at: usize, secs: u32) -> usize
    requires within { at ≤ length bytes.old }
    requires held { (r : Record) × (rest : List ℕ) × IsRecord r × (drop at bytes.old ≡ record_octets r ++ rest) × Outlives secs r }
    ensures aged { IsAgedAt bytes.old at secs bytes.new result }
    ensures within { (result ≤ length bytes.old) × (length bytes.new ≡ length bytes.old) }
{
    // a law: the call does nothing
    labels_go_on();
    let Some(spot) = read_record(bytes, at) else {
        unreachable!();
    };
    if spot.rtype.0 != RecordType::OPT.0 {
        overwrite(bytes, spot.ttl_at, &(spot.ttl - secs).to_be_bytes());
    }
    spot.end
}
