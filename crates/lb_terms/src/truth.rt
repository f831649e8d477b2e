//! The test of a term: its members from the left, and no further than the first that decides.

ghost use Rattle.std.specs.Prelude.{◌≡◌, ◌+◌, ◌++◌, ◌≤◌, length};
ghost use Rattle.std.specs.List.{All};
ghost use Rattle.lb_terms.specs.Selector.{selector_of, selectors_of};
ghost use Rattle.lb_terms.specs.Sets.{in_group};
ghost use Rattle.lb_terms.specs.Truth.{asked_of, asked_on, limiters_in, limiters_of, passes_all, passes_any, passes_at, tested_of, truth_all, truth_any, truth_at};

use crate::limiters::count_all;
use crate::term::{CheckedTerm, Term};
use crate::tested::{Passes, Tested};
use lb_limits::Limiter;
use lb_masks::Group;
use lb_wire::{Addr, QueryView};

/// What a term is tested on: a query, the address that it came from, one limiter for each rate of
/// the term, from the left, and the moment in milliseconds.
#[derive(Debug, Drop)]
pub(crate) struct Subject<'a> {
    view: &'a QueryView,
    addr: &'a Addr,
    limits: &'a [Limiter],
    moment: u64,
}

/// Whether one of the masks covers the address.
fn is_in_group(group: &Group, addr: &Addr) -> bool
    ensures { result ≡ in_group group.now addr.now }
{
    group.covers(addr)
}

/// Whether the term holds. `next` is the number of its first limiter, and moves on to the one after
/// its last. The numbers of those that are tested and do not match are added to the passes.
#[cycle(walk)]
fn test(term: &Term, subject: &Subject<'_>, next: &mut usize, passes: &mut Passes) -> bool
    requires limiters { next.old + limiters_of (selector_of term.now) ≤ length subject.now.limits.now }
    requires few { length subject.now.limits.now ≤ 16 }
    requires moments { All (λ limiter. limiter.moment ≤ subject.now.moment) subject.now.limits.now }
    requires room { length passes.old ≤ next.old }
    ensures truth { result ≡ truth_at (selector_of term.now) (asked_on subject.now) next.old }
    ensures passes { passes.new ≡ passes.old ++ passes_at (selector_of term.now) (asked_on subject.now) next.old }
    ensures next { next.new ≡ next.old + limiters_of (selector_of term.now) }
    ensures room { length passes.new ≤ next.new }
{
    match term {
        Term::All => true,
        Term::Suffix(names) => names.covers(&subject.view.name),
        Term::Masks(group) => is_in_group(group, subject.addr),
        Term::Qtype(qtype) => *qtype == subject.view.qtype,
        Term::And(terms) => test_all(terms.as_slice(), subject, next, passes),
        Term::Or(terms) => test_any(terms.as_slice(), subject, next, passes),
        Term::Not(term) => !test(term, subject, next, passes),
        Term::MaxQps(_, _, _) => {
            let at = *next;
            *next = at + 1;
            let matches = subject.limits[at].would_match(subject.addr, subject.moment);
            if !matches {
                passes.push(at as u8);
            }
            matches
        }
    }
}

/// Whether all of the terms hold; none is tested after the first that does not.
#[cycle(walk)]
fn test_all(terms: &[Term], subject: &Subject<'_>, next: &mut usize, passes: &mut Passes) -> bool
    requires limiters { next.old + limiters_in (selectors_of terms.now) ≤ length subject.now.limits.now }
    requires few { length subject.now.limits.now ≤ 16 }
    requires moments { All (λ limiter. limiter.moment ≤ subject.now.moment) subject.now.limits.now }
    requires room { length passes.old ≤ next.old }
    ensures truth { result ≡ truth_all (selectors_of terms.now) (asked_on subject.now) next.old }
    ensures passes { passes.new ≡ passes.old ++ passes_all (selectors_of terms.now) (asked_on subject.now) next.old }
    ensures next { next.new ≡ next.old + limiters_in (selectors_of terms.now) }
    ensures room { length passes.new ≤ next.new }
{
    for (at, term) in terms.iter().enumerate() {
        if !test(term, subject, next, passes) {
            let (_, rest) = terms.split_at(at + 1);
            skip(rest, subject.limits.len(), next);
            return false;
        }
    }
    true
}

/// Whether one of the terms holds; none is tested after the first that does.
#[cycle(walk)]
fn test_any(terms: &[Term], subject: &Subject<'_>, next: &mut usize, passes: &mut Passes) -> bool
    requires limiters { next.old + limiters_in (selectors_of terms.now) ≤ length subject.now.limits.now }
    requires few { length subject.now.limits.now ≤ 16 }
    requires moments { All (λ limiter. limiter.moment ≤ subject.now.moment) subject.now.limits.now }
    requires room { length passes.old ≤ next.old }
    ensures truth { result ≡ truth_any (selectors_of terms.now) (asked_on subject.now) next.old }
    ensures passes { passes.new ≡ passes.old ++ passes_any (selectors_of terms.now) (asked_on subject.now) next.old }
    ensures next { next.new ≡ next.old + limiters_in (selectors_of terms.now) }
    ensures room { length passes.new ≤ next.new }
{
    for (at, term) in terms.iter().enumerate() {
        if test(term, subject, next, passes) {
            let (_, rest) = terms.split_at(at + 1);
            skip(rest, subject.limits.len(), next);
            return true;
        }
    }
    false
}

/// Moves `next` on past the limiters of terms that are not tested. Where no limiter is left, as in a rule that has none,
/// the terms are not looked at.
fn skip(terms: &[Term], most: usize, next: &mut usize)
    requires within { next.old + limiters_in (selectors_of terms.now) ≤ most }
    requires few { most ≤ 16 }
    ensures { next.new ≡ next.old + limiters_in (selectors_of terms.now) }
{
    if *next < most {
        *next += count_all(terms);
    }
}

/// Tests a term of a query that came from the address now, in milliseconds. It is handed one limiter for each rate of
/// the term, from the left, at most 16. It takes no memory and counts nothing.
pub fn holds(
    term: &CheckedTerm,
    view: &QueryView,
    addr: &Addr,
    limits: &[Limiter],
    now: u64,
) -> Tested
    requires limiters { length limits.now ≡ limiters_of term.now }
    requires few { length limits.now ≤ 16 }
    requires moments { All (λ limiter. limiter.moment ≤ now) limits.now }
    ensures { result ≡ tested_of term.now (asked_of view.now addr.now limits.now now) }
{
    // The result is filled where it stands: to move it at each rule costs more than the test.
    let mut tested = Tested {
        truth: false,
        passes: Passes::new(),
    };
    let mut next = 0;
    let subject = Subject {
        view,
        addr,
        limits,
        moment: now,
    };
    tested.truth = test(term.as_term(), &subject, &mut next, &mut tested.passes);
    tested
}
