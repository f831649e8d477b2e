//! The limiters of a term.

ghost use Rattle.std.specs.Prelude.{◌≡◌, ◌+◌, ◌++◌, ◌≤◌, IfOk, OnOk, length, true};
ghost use Rattle.std.specs.List.{All};
ghost use Rattle.lb_terms.specs.Limiters.{new_limiters};
ghost use Rattle.lb_terms.specs.Selector.{selector_of, selectors_of};
ghost use Rattle.lb_terms.specs.Check.{has_rates};
ghost use Rattle.lb_terms.specs.Truth.{limiters_in, limiters_of};

use crate::term::{CheckedTerm, Term};
use lb_limits::Limiter;
use std::alloc::{AllocError, Global};

/// How many limiters terms have.
#[cycle(count)]
pub(crate) fn count_all(terms: &[Term]) -> usize
    requires { limiters_in (selectors_of terms.now) ≤ 64 }
    ensures { result ≡ limiters_in (selectors_of terms.now) }
{
    let mut sum = 0;
    for term in terms {
        sum += count(term);
    }
    sum
}

/// How many limiters a term has: one for each rate.
#[cycle(count)]
fn count(term: &Term) -> usize
    requires { limiters_of (selector_of term.now) ≤ 64 }
    ensures { result ≡ limiters_of (selector_of term.now) }
{
    match term {
        Term::And(terms) | Term::Or(terms) => count_all(terms.as_slice()),
        Term::Not(term) => count(term),
        Term::MaxQps(_, _, _) => 1,
        _ => 0,
    }
}

/// Adds a limiter that has counted nothing for each rate of the term, from the left.
fn add_limiters(alloc: Global, term: &Term, limiters: &mut Vec<Limiter>) -> Result<(), AllocError>
    requires { has_rates (selector_of term.now) ≡ true }
    ensures { OnOk result (limiters.new.items ≡ limiters.old.items ++ new_limiters (selector_of term.now)) }
{
    match term {
        Term::And(terms) | Term::Or(terms) => {
            for term in terms {
                add_limiters(alloc, term, limiters)?;
            }
        }
        Term::Not(term) => add_limiters(alloc, term, limiters)?,
        Term::MaxQps(qps, v4, v6) => limiters.push(Limiter::new(alloc, *qps, *v4, *v6)?)?,
        _ => {}
    }
    Ok(())
}

/// How many limiters a term has: one for each rate.
pub fn limiter_count(term: &CheckedTerm) -> usize
    ensures count { result ≡ limiters_of term.now }
    ensures few { result ≤ 64 }
{
    count(term.as_term())
}

/// A limiter that has counted nothing for each rate of the term, from the left. The one error is lack of memory.
pub fn new_limiters(alloc: Global, term: &CheckedTerm) -> Result<Vec<Limiter>, AllocError>
    ensures limiters { IfOk result (λ limiters. limiters.items ≡ new_limiters term.now) }
    ensures count { IfOk result (λ limiters. length limiters.items ≡ limiters_of term.now) }
    ensures moments { IfOk result (λ limiters. All (λ limiter. limiter.moment ≡ 0) limiters.items) }
{
    let mut limiters = Vec::new(alloc);
    add_limiters(alloc, term.as_term(), &mut limiters)?;
    Ok(limiters)
}
