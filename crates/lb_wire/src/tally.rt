//! What a walk over records gathers.

ghost use Rattle.std.specs.Prelude.{◌≡◌, ◌^◌, ◌<◌};
ghost use Rattle.lb_wire.specs.Tally.{both_of, tally_of_one};

use crate::opt::{DNSSEC_OK, Opt};
use crate::record_type::RecordType;

/// What the OPT records and the TTLs of some records come to.
#[derive(Clone, Copy, Debug, PartialEq, Eq)]
pub struct Tally {
    /// The first OPT.
    pub opt: Option<Opt>,
    /// Whether there are two OPT records or more.
    pub twice: bool,
    /// The least TTL, OPT left aside.
    pub least: Option<u32>,
}

/// The least times to live of a message, in seconds; OPT is left aside, and a TTL with the top bit set is 0.
#[derive(Clone, Copy, Debug, PartialEq, Eq)]
pub struct Survey {
    /// Of all records.
    pub least_all: Option<u32>,
    /// Of the answer section.
    pub least_answer: Option<u32>,
}

/// The TTLs from here on have the top bit set, and are read as 0 (RFC 2181 section 8).
const TTL_END: u32 = 0x8000_0000;

impl Tally {
    /// Of no record.
    pub(crate) const NONE: Tally = Tally {
        opt: None,
        twice: false,
        least: None,
    };

    /// Of one record.
    pub(crate) fn of_record(rtype: RecordType, ttl: u32) -> Tally
        ensures { result ≡ tally_of_one rtype.0 ttl }
    {
        if rtype.0 == RecordType::OPT.0 {
            let dnssec_ok = ttl / DNSSEC_OK % 2 == 1;
            Tally {
                opt: Some(Opt { dnssec_ok }),
                ..Tally::NONE
            }
        } else {
            let lives = if ttl < TTL_END { ttl } else { 0 };
            Tally {
                least: Some(lives),
                ..Tally::NONE
            }
        }
    }

    /// Of these records and the others after them.
    pub(crate) fn and(self, others: Tally) -> Tally
        ensures { result ≡ both_of self others }
    {
        let two = self.opt.is_some() && others.opt.is_some();
        Tally {
            opt: if self.opt.is_some() {
                self.opt
            } else {
                others.opt
            },
            twice: self.twice || others.twice || two,
            least: lesser(self.least, others.least),
        }
    }
}

ghost use Rattle.lb_wire.specs.Opt.{lesser as lesser_of};

/// The lesser of two numbers that may be missing.
fn lesser(a: Option<u32>, b: Option<u32>) -> Option<u32>
    ensures { result ≡ lesser_of a b }
{
    match (a, b) {
        (None, other) => other,
        (one, None) => one,
        (Some(n), Some(m)) => Some(n.min(m)),
    }
}
