//! Indexes of the sets of terms.

ghost use Rattle.std.specs.Prelude.{◌≡◌, map};
ghost use Rattle.lb_terms.specs.Selector.{selector_of};

use crate::term::Term;
use std::alloc::AllocError;

/// Has the sets of each of the terms found by an index.
#[cycle(index_sets)]
fn index_all(terms: &mut Vec<Term>) -> Result<(), AllocError>
    ensures { map selector_of terms.new.items ≡ map selector_of terms.old.items }
{
    for at in 0..terms.len() {
        index_sets(&mut terms[at])?;
    }
    Ok(())
}

/// Has each set of a term in a box found by an index.
#[cycle(index_sets)]
fn index_boxed(member: &mut Box<Term>) -> Result<(), AllocError>
    ensures { selector_of member.new.value ≡ selector_of member.old.value }
{
    index_sets(member)
}

/// Has each set of the term found by an index, where it is large enough. The one error is lack of memory; some sets have
/// an index then.
#[cycle(index_sets)]
pub(crate) fn index_sets(term: &mut Term) -> Result<(), AllocError>
    ensures { selector_of term.new ≡ selector_of term.old }
{
    match term {
        Term::Suffix(names) => names.index(),
        Term::Masks(group) => group.index(),
        Term::And(terms) => index_all(terms),
        Term::Or(terms) => index_all(terms),
        Term::Not(member) => index_boxed(member),
        _ => Ok(()),
    }
}
