//! What a walk gives.

ghost use Rattle.std.specs.Prelude.{◌≡◌, ◌≤◌, length, false, [], None};
ghost use Rattle.lb_chain.specs.declared.walked.Verdict.TheVariants.{Allow};

use crate::addrs::Addrs;
use arrayvec::ArrayVec;
use lb_terms::MAX_LIMITERS;
use lb_wire::{PoolId, Rcode, RuleId};
use std::marker::Model;

/// What is done with a query: by the rule that ended the walk, or Allow where none did.
#[derive(Clone, Copy, Debug)]
pub enum Verdict {
    /// It is sent on to the default pool.
    Allow,
    /// It is dropped.
    Drop,
    /// It is answered with this RCODE.
    Rcode(Rcode),
    /// It is sent on to this pool.
    Pool(PoolId),
    /// It is answered with TC.
    Tc,
    /// It is answered with those of these addresses that fit its type.
    Spoof(Addrs),
}

/// A limiter that counts the query.
#[derive(Clone, Copy, Debug, PartialEq, Eq)]
pub struct Passed {
    /// The rule that it belongs to.
    pub rule: RuleId,
    /// Its number in the rule, from 0 and from the left.
    pub limiter: u8,
}

impl Default for Passed {
    /// The first limiter of rule 0, which no chain has: it fills the places of a list that are not in use.
    fn default() -> Passed
        ensures { result ≡ record { rule = record { 0 = 0 }; limiter = 0 } }
    {
        Passed {
            rule: RuleId(0),
            limiter: 0,
        }
    }
}

/// The limiters that count a query, in the order of the rules and from the left; at most 16. A contract sees them as the
/// list.
#[derive(Debug, Drop)]
pub struct PassedList {
    pub(crate) items: ArrayVec<Passed, MAX_LIMITERS>,
}

impl Model for PassedList {
    ghost use Rattle.std.specs.Prelude.{List};
    ghost use Rattle.lb_chain.specs.declared.walked.Passed.{Passed};

    ghost Value = { List Passed };

    ghost view = { λ p. p.items.items };
}

impl PassedList {
    /// The limiters, in order.
    pub fn as_slice(&self) -> &[Passed]
        ensures { result.now ≡ self.now }
    {
        self.items.as_slice()
    }
}

/// A walk of the rules.
#[derive(Debug, Drop)]
pub struct Walked {
    /// The rule that ended it, if one did.
    pub rule: Option<RuleId>,
    pub verdict: Verdict,
    /// An earlier rule that holds says that the query is sent on with RD 0.
    pub no_recurse: bool,
    /// An earlier rule that holds says that the cache is passed by.
    pub skip_cache: bool,
    /// The limiters that were tested and did not match.
    pub passes: PassedList,
    /// How many rules were tested, up to the one that ended it or, where none did, of all: those that ask for no set of names or
    /// of masks first, and those whose first set has the query's name or address. No other can hold.
    pub tests: usize,
}

impl Walked {
    /// A walk that has met no rule yet.
    #[inline(always)]
    pub fn begun() -> Walked
        ensures { result ≡ record { rule = None; verdict = Allow; no_recurse = false; skip_cache = false; passes = []; tests = 0 } }
    {
        Walked {
            rule: None,
            verdict: Verdict::Allow,
            no_recurse: false,
            skip_cache: false,
            passes: PassedList {
                items: ArrayVec::new(),
            },
            tests: 0,
        }
    }
}
