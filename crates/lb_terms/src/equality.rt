//! Equal terms.

ghost use Rattle.std.specs.Prelude.{◌≡◌, IsTrue};
ghost use Rattle.lb_terms.specs.Selector.{selector_of, selectors_of};

use crate::term::Term;

/// Whether two lists have equal terms, in order.
#[cycle(is_equal)]
fn are_equal(terms: &[Term], others: &[Term]) -> bool
    ensures equal { IsTrue result → selectors_of terms.now ≡ selectors_of others.now }
    ensures found { selectors_of terms.now ≡ selectors_of others.now → IsTrue result }
{
    if terms.len() != others.len() {
        return false;
    }
    for (at, term) in terms.iter().enumerate() {
        if !is_equal(term, &others[at]) {
            return false;
        }
    }
    true
}

/// Whether two terms are equal: the same members in the same order.
#[cycle(is_equal)]
pub(crate) fn is_equal(term: &Term, other: &Term) -> bool
    ensures equal { IsTrue result → selector_of term.now ≡ selector_of other.now }
    ensures found { selector_of term.now ≡ selector_of other.now → IsTrue result }
{
    match (term, other) {
        (Term::All, Term::All) => true,
        (Term::Suffix(names), Term::Suffix(others)) => names.equals(others),
        (Term::Masks(group), Term::Masks(others)) => group.equals(others),
        (Term::Qtype(qtype), Term::Qtype(other)) => qtype == other,
        (Term::And(terms), Term::And(others)) => are_equal(terms.as_slice(), others.as_slice()),
        (Term::Or(terms), Term::Or(others)) => are_equal(terms.as_slice(), others.as_slice()),
        (Term::Not(term), Term::Not(other)) => is_equal(term, other),
        (Term::MaxQps(qps, v4, v6), Term::MaxQps(other_qps, other_v4, other_v6)) => {
            qps == other_qps && v4 == other_v4 && v6 == other_v6
        }
        _ => false,
    }
}
