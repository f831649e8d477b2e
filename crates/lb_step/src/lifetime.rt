//! How long a reply lives in a cache.

ghost use Rattle.std.specs.Prelude.{◌≡◌, ◌+◌, ◌≤◌, length};
ghost use Rattle.lb_wire.specs.Message.{Message, Lays};
ghost use Rattle.lb_step.specs.Lifetime.{life_by as life_by_spec, least_of as least_of_spec, is_keepable as is_keepable_spec, is_negative as is_negative_spec, longest_by, LivesFor};

use lb_cache::MaxTtl;
use lb_wire::{Opcode, Rcode, ReplyView, carries, one_message, survey};

/// The longest that a failure lives, in seconds.
const MAX_FAILURE: u32 = 60;

/// The longest that a negative reply lives, in seconds (RFC 2308 section 5: one to three hours).
const MAX_NEGATIVE: u32 = 3_600;

/// The seconds that a reply of these octets, which read so, lives in a cache with this longest life that
/// lists these codes; 0 if it is not to be kept.
pub(crate) fn lifetime(bytes: &[u8], view: &ReplyView, max_ttl: MaxTtl, skips: &[u16]) -> u32
    ensures { LivesFor max_ttl skips.now bytes.now view.now result }
{
    // a law: the call does nothing
    one_message();
    let Some(survey) = survey(bytes) else {
        return 0;
    };
    if !is_keepable(view) || carries(bytes, skips) {
        return 0;
    }
    life_by(max_ttl, answer_count(bytes), view.rcode, survey.least_all)
}

/// Where ANCOUNT stands in a message (RFC 1035 section 4.1.1).
const ANSWERS_AT: usize = 6;

/// ANCOUNT of a message.
fn answer_count(bytes: &[u8]) -> u16
    requires { (m : Message) × Lays bytes.now m }
    ensures { (m : Message) → Lays bytes.now m → result ≡ m.header.answers }
{
    // a law: the call does nothing
    one_message();
    u16::from_be_bytes([bytes[ANSWERS_AT], bytes[ANSWERS_AT + 1]])
}

/// Whether the header of a reply lets it be kept.
fn is_keepable(view: &ReplyView) -> bool
    ensures { result ≡ is_keepable_spec view.now }
{
    view.opcode == Opcode::Query && !view.truncated
}

/// Whether a reply with this RCODE and so many answer records is negative: it says that a name or a type
/// is not there (RFC 2308 section 2).
fn is_negative(rcode: Rcode, answers: u16) -> bool
    ensures { result ≡ is_negative_spec rcode answers }
{
    match rcode {
        Rcode::NXDomain => true,
        Rcode::NoError => answers == 0,
        _ => false,
    }
}

/// The longest that a reply lives, negative or not, in a cache with this longest life.
fn longest(max_ttl: MaxTtl, negative: bool) -> u32
    ensures { result ≡ longest_by max_ttl negative }
{
    if negative {
        max_ttl.get().min(MAX_NEGATIVE)
    } else {
        max_ttl.get()
    }
}

/// The seconds that a reply with this RCODE and so many answer records lives, by the least TTL of its
/// records other than OPT.
fn life_by(max_ttl: MaxTtl, answers: u16, rcode: Rcode, least: Option<u32>) -> u32
    ensures { result ≡ life_by_spec max_ttl answers rcode least }
{
    match rcode {
        Rcode::NoError | Rcode::NXDomain => {
            least_of(longest(max_ttl, is_negative(rcode, answers)), 0, least)
        }
        Rcode::ServFail | Rcode::Refused => least_of(MAX_FAILURE, MAX_FAILURE, least),
        _ => 0,
    }
}

/// The lesser of a number and a time to live; another number where there is no time to live.
fn least_of(most: u32, missing: u32, least: Option<u32>) -> u32
    ensures { result ≡ least_of_spec most missing least }
{
    match least {
        Some(ttl) => ttl.min(most),
        None => missing,
    }
}
