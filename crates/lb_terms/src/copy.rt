//! Copies of terms.

ghost use Rattle.std.specs.Prelude.{◌≡◌, IfOk, map};
ghost use Rattle.lb_terms.specs.Selector.{selector_of};

use crate::term::Term;
use std::alloc::{AllocError, Global};

/// Equal terms, in order.
#[cycle(copied)]
fn copied_all(alloc: Global, terms: &[Term]) -> Result<Vec<Term>, AllocError>
    ensures { IfOk result (λ copies. map selector_of copies.items ≡ map selector_of terms.now) }
{
    let mut copies = Vec::with_capacity(alloc, terms.len())?;
    for term in terms {
        copies.push(copied(alloc, term)?)?;
    }
    Ok(copies)
}

/// An equal term. The one error is lack of memory.
#[cycle(copied)]
pub(crate) fn copied(alloc: Global, term: &Term) -> Result<Term, AllocError>
    ensures { IfOk result (λ copy. selector_of copy ≡ selector_of term.now) }
{
    let copy = match term {
        Term::All => Term::All,
        Term::Suffix(names) => Term::Suffix(names.copy(alloc)?),
        Term::Masks(group) => Term::Masks(group.copy(alloc)?),
        Term::Qtype(qtype) => Term::Qtype(*qtype),
        Term::And(terms) => Term::And(copied_all(alloc, terms.as_slice())?),
        Term::Or(terms) => Term::Or(copied_all(alloc, terms.as_slice())?),
        Term::Not(term) => Term::Not(Box::new(alloc, copied(alloc, term)?)?),
        Term::MaxQps(qps, v4, v6) => Term::MaxQps(*qps, *v4, *v6),
    };
    Ok(copy)
}
