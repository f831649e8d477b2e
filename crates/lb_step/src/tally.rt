//! All that is counted beside the plain state.

ghost use Rattle.std.specs.Prelude.{◌≡◌, false, ℕ};
ghost use Rattle.lb_step.specs.Counts.{count_at};
ghost use Rattle.lb_step.specs.CountsByNumber.{AreNone};

use crate::counts::Counts;
use crate::counts_by_number::CountsByNumber;
use std::alloc::Global;

/// The counts of a balancer: those of all its events and answers, and those of each rule, server and cache.
#[derive(Debug, Drop)]
pub struct Tally {
    pub counts: Counts,
    pub by_number: CountsByNumber,
}

impl Tally {
    /// Nothing was counted. It takes no memory.
    pub fn new(alloc: Global) -> Tally
        ensures counts { (place : ℕ) → count_at place result.counts.items ≡ 0 }
        ensures none { AreNone result.by_number }
        ensures lacked { result.by_number.lacked ≡ false }
    {
        Tally {
            counts: Counts::new(),
            by_number: CountsByNumber::new(alloc),
        }
    }
}
