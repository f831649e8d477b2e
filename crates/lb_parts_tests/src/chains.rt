//! Chains, by values worked out by hand: their lists, and copies of rules.

mod found;

use super::rows::held;
use Ending::Allow;
use lb_chain::{Action, Addrs, Chain, ChainFault, Listed, Passed, Rule, RulePass, Verdict, Walked};
use lb_limits::Pass;
use lb_name::Name;
use lb_terms::{Names, Term};
use lb_wire::{Addr, Kind, PoolId, QueryView, Rcode, RuleId, read_query};
use std::alloc::{AllocError, Global};
use std::marker::Model;
use std::test::Fail;

const ONE: Addr = Addr::V4([192, 0, 2, 1]);

/// A query for the address of example.com.
const EXAMPLE: &[u8] =
    b"\x12\x34\x01\x00\x00\x01\x00\x00\x00\x00\x00\x00\x07example\x03com\x00\x00\x01\x00\x01";

/// A chain and the latest moment that it was told; an earlier one counts as that.
#[derive(Drop)]
struct Clock {
    chain: Chain,
    now: u64,
}

impl Model for Clock {
    ghost use Rattle.std.specs.Prelude.{ℕ, ◌≤◌};

    ghost Value = { ℕ };

    ghost view = { λ c. c.now };

    ghost invariant = { λ c. c.chain.moment ≤ c.now };
}

impl Clock {
    /// A chain without rules.
    fn new(alloc: Global) -> Clock {
        Clock {
            chain: Chain::new(alloc),
            now: 0,
        }
    }

    /// Adds a rule at a place.
    fn add(&mut self, place: usize, rule: Rule) -> Result<RuleId, ChainFault> {
        self.chain.add(place, rule)
    }

    fn remove(&mut self, id: u64) -> Result<(), ChainFault> {
        self.chain.remove(RuleId(id))
    }

    fn shift(&mut self, id: u64, place: usize) -> Result<(), ChainFault> {
        self.chain.move_to(RuleId(id), place)
    }

    /// Walks the rules for a query that came from this address.
    fn walk_for(&self, view: &QueryView, addr: &Addr, kind: Kind, now: u64) -> Walked {
        let now = if now < self.now { self.now } else { now };
        self.chain.walk(view, addr, kind, now)
    }

    /// Walks them for the query `EXAMPLE` from 192.0.2.1, and counts it.
    fn comes(&mut self, now: u64) -> Result<Walked, Fail> {
        let now = if now < self.now { self.now } else { now };
        let view = read_query(EXAMPLE)?;
        let walked = self.chain.walk(&view, &ONE, Kind::Datagram, now);
        let reserved = self.chain.reserve(&walked, &ONE, now);
        self.now = now;
        reserved?;
        self.chain.pass(&walked, &ONE, now);
        Ok(walked)
    }
}

/// What a rule asks of a query.
#[derive(Clone, Copy)]
enum Asks {
    All,
    /// The names under this one.
    Suffix(&'static str),
    /// A rate of 1 query a second of an address.
    Rate,
}

/// What a rule does with a query.
#[derive(Clone, Copy)]
enum Does {
    Nothing,
    Drop,
    Allow,
    Refuse,
    Pool(PoolId),
    Tc,
    Spoof(&'static [Addr]),
}

/// What a walk comes to.
#[derive(Clone, Copy)]
enum Ending {
    Allow,
    Dropped,
    Refused,
    Forwarded(PoolId),
    Truncated,
}

/// What a walk gives: the rule that ends it, 0 where none does, and the limiters that count the
/// query.
#[derive(Clone, Copy)]
struct Walk {
    rule: u64,
    ending: Ending,
    no_recurse: bool,
    skip_cache: bool,
    passes: &'static [Passed],
}

/// What no rule ends, and no limiter counts.
const UNTOUCHED: Walk = Walk {
    rule: 0,
    ending: Allow,
    no_recurse: false,
    skip_cache: false,
    passes: &[],
};

/// Whether the verdict is this one.
fn is_ending(verdict: &Verdict, ending: Ending) -> bool {
    match (verdict, ending) {
        (Verdict::Allow, Ending::Allow) => true,
        (Verdict::Drop, Ending::Dropped) => true,
        (Verdict::Rcode(rcode), Ending::Refused) => *rcode == Rcode::Refused,
        (Verdict::Pool(pool), Ending::Forwarded(wanted)) => *pool == wanted,
        (Verdict::Tc, Ending::Truncated) => true,
        _ => false,
    }
}

/// The rule that ends a walk, 0 where none does.
fn rule_of(walked: &Walked) -> u64 {
    match walked.rule {
        Some(id) => id.0,
        None => 0,
    }
}

/// Whether a walk gives this.
fn gives(walked: &Walked, wanted: &Walk) -> bool {
    rule_of(walked) == wanted.rule
        && is_ending(&walked.verdict, wanted.ending)
        && walked.no_recurse == wanted.no_recurse
        && walked.skip_cache == wanted.skip_cache
        && walked.passes.as_slice() == wanted.passes
}

fn term(alloc: Global, asks: Asks) -> Result<Term, Fail> {
    match asks {
        Asks::All => Ok(Term::All),
        Asks::Rate => Ok(Term::MaxQps(1, 32, 128)),
        Asks::Suffix(text) => {
            let mut names = Names::new(alloc);
            names.push(&Name::parse_text(text)?)?;
            Ok(Term::Suffix(names))
        }
    }
}

fn action(does: Does) -> Result<Action<PoolId>, Fail> {
    Ok(match does {
        Does::Nothing => Action::None,
        Does::Drop => Action::Drop,
        Does::Allow => Action::Allow,
        Does::Refuse => Action::Rcode(Rcode::Refused),
        Does::Pool(pool) => Action::Pool(pool),
        Does::Tc => Action::Tc,
        Does::Spoof(addrs) => Action::Spoof(Addrs::from_slice(addrs).ok_or("too many")?),
    })
}

fn rule(alloc: Global, asks: Asks, does: Does) -> Result<Rule, Fail> {
    let action = action(does)?;
    let term = term(alloc, asks)?.checked()?;
    Ok(Rule { term, action })
}

/// Whether the copies of listed rules are these, with their passes.
fn are_listed(
    alloc: Global,
    list: &[Listed],
    wanted: &[(u64, &[RulePass])],
) -> Result<bool, AllocError> {
    for (listed, (id, passes)) in list.iter().zip(wanted) {
        let copy = listed.copy(alloc)?;
        if copy.id.0 != *id || copy.passes.as_slice() != *passes {
            return Ok(false);
        }
    }
    Ok(list.len() == wanted.len())
}

/// Whether these are the rules, with the passes that they hold, or those that count at a moment.
fn lists(
    alloc: Global,
    chain: &Chain,
    now: Option<u64>,
    wanted: &[(u64, &[RulePass])],
) -> Result<bool, AllocError> {
    let list = match now {
        Some(now) => chain.list_at(alloc, now)?,
        None => chain.list(alloc).or_else(|_refused| chain.list(alloc))?,
    };
    Ok(chain.len() == wanted.len() && are_listed(alloc, list.as_slice(), wanted)?)
}

/// Rules that do nothing: the places at which they are added, and what they ask.
const ADDED: &[(usize, Asks)] = &[
    (0, Asks::All),
    (1, Asks::All),
    (2, Asks::All),
    (0, Asks::Rate),
];

/// A chain of the rules 2, 4 and 1.
fn edited(alloc: Global) -> Result<Clock, Fail> {
    let mut clock = Clock::new(alloc);
    edit(alloc, &mut clock)?;
    Ok(clock)
}

/// Adds the rules of `ADDED`, and moves and removes some.
fn edit(alloc: Global, clock: &mut Clock) -> Result<(), Fail> {
    for (place, asks) in ADDED {
        let _id = clock.add(*place, rule(alloc, *asks, Does::Nothing)?)?;
    }
    // from 4, 1, 2, 3 to 4, 2, 3, 1, to 4, 2, 1 and to 2, 4, 1
    clock.shift(1, 3)?;
    clock.remove(3)?;
    Ok(clock.shift(4, 1)?)
}

/// The rules with their passes, once the limiter of rule 4 counted a query.
const COUNTED: &[(u64, &[RulePass])] = &[
    (2, &[]),
    (
        4,
        &[RulePass {
            limiter: 0,
            pass: Pass {
                source: ONE,
                moment: 1000,
            },
        }],
    ),
    (1, &[]),
];

/// The same once that pass is out.
const OUT: &[(u64, &[RulePass])] = &[(2, &[]), (4, &[]), (1, &[])];

#[test]
fn edits_and_their_faults(rt: HostRuntime) -> Result<(), Fail> {
    let mut clock = edited(rt.alloc())?;
    counts_and_forgets(rt.alloc(), &mut clock)?;
    held(
        2,
        ChainFault::NoMemory.number() == 5 && ChainFault::NoMoreIds.number() == 6,
    )?;
    let unused = Passed::default();
    held(3, unused.rule == RuleId(0) && unused.limiter == 0)
}

/// The limiter of rule 4 counts a query, which is out of its window a second later.
fn counts_and_forgets(alloc: Global, clock: &mut Clock) -> Result<(), Fail> {
    let _walked = clock.comes(1000)?;
    held(0, lists(alloc, &clock.chain, Some(2000), OUT)?)?;
    held(1, lists(alloc, &clock.chain, None, COUNTED)?)
}

/// An answer with an address.
const SPOOFS: Does = Does::Spoof(&[ONE]);

/// Whether a rule and its copy are equal.
fn is_copied(alloc: Global, rule: &Rule) -> Result<bool, AllocError> {
    let copy = rule.copy(alloc).or_else(|_refused| rule.copy(alloc))?;
    let text = format!(in alloc; "{rule:?}")?;
    let copied = format!(in alloc; "{copy:?}")?;
    Ok(text == copied && copy.term.equals(&rule.term))
}

#[test]
fn copies(rt: HostRuntime) -> Result<(), Fail> {
    let rule = rule(rt.alloc(), Asks::Suffix("example.com"), SPOOFS)?;
    held(0, is_copied(rt.alloc(), &rule)?)
}
