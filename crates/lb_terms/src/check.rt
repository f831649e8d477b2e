//! Whether a term is within the limits.

ghost use Rattle.std.specs.Prelude.{◌≡◌, ◌+◌, ◌<◌, IfSome, IfNone, nat_le};
ghost use Rattle.lb_terms.specs.Selector.{selector_of};
ghost use Rattle.lb_terms.specs.Check.{depth_of, has_members, has_rates, has_small_sets, nodes_of};

use crate::term::Term;

/// The most names or masks of a set.
pub const MAX_SET: usize = 1024;

/// The most queries a second that a rate may have.
pub const MAX_QPS: u16 = 1000;

/// The bits of an IPv4 address.
const V4_BITS: u8 = 32;

/// The bits of an IPv6 address.
const V6_BITS: u8 = 128;

/// Whether the depth of the term is at most this. It goes no deeper than that.
pub(crate) fn is_within(term: &Term, depth: usize) -> bool
    ensures { result ≡ nat_le (depth_of (selector_of term.now)) depth }
{
    if depth == 0 {
        return false;
    }
    match term {
        Term::And(terms) | Term::Or(terms) => {
            for term in terms {
                if !is_within(term, depth - 1) {
                    return false;
                }
            }
            true
        }
        Term::Not(term) => is_within(term, depth - 1),
        _ => true,
    }
}

/// What is left of so many terms once this one and those in it are taken away; none where they are more.
pub(crate) fn nodes_left(term: &Term, most: usize) -> Option<usize>
    ensures left { IfSome result (λ left. left + nodes_of (selector_of term.now) ≡ most) }
    ensures none { IfNone result (most < nodes_of (selector_of term.now)) }
{
    if most == 0 {
        return None;
    }
    match term {
        Term::And(terms) | Term::Or(terms) => {
            let mut left = most - 1;
            for term in terms {
                left = nodes_left(term, left)?;
            }
            Some(left)
        }
        Term::Not(term) => nodes_left(term, most - 1),
        _ => Some(most - 1),
    }
}

/// Whether no set of the term has too many names or masks.
pub(crate) fn has_small_sets(term: &Term) -> bool
    ensures { result ≡ has_small_sets (selector_of term.now) }
{
    match term {
        Term::Suffix(names) => names.len() <= MAX_SET,
        Term::Masks(group) => group.len() <= MAX_SET,
        Term::And(terms) | Term::Or(terms) => {
            for term in terms {
                if !has_small_sets(term) {
                    return false;
                }
            }
            true
        }
        Term::Not(term) => has_small_sets(term),
        _ => true,
    }
}

/// Whether each And, Or and set of the term has a member.
pub(crate) fn has_members(term: &Term) -> bool
    ensures { result ≡ has_members (selector_of term.now) }
{
    match term {
        Term::Suffix(names) => names.len() > 0,
        Term::Masks(group) => group.len() > 0,
        Term::And(terms) | Term::Or(terms) => {
            for term in terms {
                if !has_members(term) {
                    return false;
                }
            }
            terms.len() > 0
        }
        Term::Not(term) => has_members(term),
        _ => true,
    }
}

/// Whether each rate of the term is within its range, and its lengths within the addresses.
pub(crate) fn has_rates(term: &Term) -> bool
    ensures { result ≡ has_rates (selector_of term.now) }
{
    match term {
        Term::And(terms) | Term::Or(terms) => {
            for term in terms {
                if !has_rates(term) {
                    return false;
                }
            }
            true
        }
        Term::Not(term) => has_rates(term),
        Term::MaxQps(qps, v4, v6) => {
            *qps >= 1 && *qps <= MAX_QPS && *v4 <= V4_BITS && *v6 <= V6_BITS
        }
        _ => true,
    }
}
