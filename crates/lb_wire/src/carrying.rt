//! Whether a message's OPT records hold options of listed codes.

ghost use Rattle.std.specs.Prelude.{◌≡◌, ℕ, ◌≤◌, List, length, drop};
ghost use Rattle.std.specs.List.{list_any};
ghost use Rattle.lb_wire.specs.Message.{Message, Lays};
ghost use Rattle.lb_wire.specs.Options.{carries_of, holds_listed, is_carrier, options_of};
ghost use Rattle.lb_wire.specs.Record.{Record, Holds};

use crate::header::{HEADER_LEN, record_count};
use crate::laws::one_message;
use crate::opt_data::{data_after, data_of};
use crate::options::left_len;
use crate::question::skip_question;
use crate::record::read_record;
use crate::record_type::RecordType;
use lb_name::labels_go_on;

/// Whether one of a message's OPT records has data that is no list of options, or that holds an option
/// of a listed code. The packet cache does not keep such a reply. If no code is listed, the answer is
/// `false`, whatever an OPT holds. The message is one that `survey` has an answer for. It takes no memory.
pub fn carries(bytes: &[u8], skips: &[u16]) -> bool
    requires { (m : Message) × Lays bytes.now m }
    ensures { (m : Message) → Lays bytes.now m → result ≡ carries_of skips.now m }
{
    // laws: the calls do nothing
    one_message();
    labels_go_on();
    if skips.is_empty() {
        return false;
    }
    let Some(question_end) = skip_question(bytes, HEADER_LEN) else {
        unreachable!();
    };
    any_carrier(bytes, question_end, record_count(bytes), skips)
}

/// Whether one of so many records from a place on is such an OPT.
fn any_carrier(bytes: &[u8], at: usize, count: u32, skips: &[u16]) -> bool
    requires within { at ≤ length bytes.now }
    requires held { (records : List Record) × (rest : List ℕ) × Holds count (drop at bytes.now) records rest }
    ensures { (records : List Record) (rest : List ℕ) → Holds count (drop at bytes.now) records rest → result ≡ list_any (is_carrier skips.now) records }
{
    // a law: the call does nothing
    labels_go_on();
    let mut place = at;
    'records: for _ in 0..count {
        let Some(spot) = read_record(bytes, place) else {
            unreachable!();
        };
        if spot.rtype.0 == RecordType::OPT.0
            && holds_listed_code(data_of(bytes, data_after(spot)), skips)
        {
            return true;
        }
        place = spot.end;
    }
    false
}

/// Whether an OPT's data is no list of options or holds one of a listed code.
fn holds_listed_code(octets: &[u8], skips: &[u16]) -> bool
    ensures { result ≡ holds_listed skips.now (options_of octets.now) }
{
    match left_len(octets, skips) {
        Some(left) => left < octets.len(),
        None => true,
    }
}
