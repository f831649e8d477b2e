//! The places of the rules that have limiters.

ghost use Rattle.std.specs.Prelude.{◌≡◌, ◌≤◌, []};
ghost use Rattle.lb_chain.specs.Edits.{limiters_in};
ghost use Rattle.lb_chain.specs.Places.{places_of};

use crate::numbered::Numbered;
use arrayvec::ArrayVec;
use lb_terms::MAX_LIMITERS;
use std::marker::Model;

/// The places of the rules that have limiters, at most 16: so that a query is counted without a visit of all rules. A
/// contract sees them as the list.
#[derive(Debug, Drop)]
pub(crate) struct Places {
    items: ArrayVec<usize, MAX_LIMITERS>,
}

impl Model for Places {
    ghost use Rattle.std.specs.Prelude.{List, ℕ};

    ghost Value = { List ℕ };

    ghost view = { λ p. p.items.items };
}

impl Places {
    /// No place.
    pub(crate) fn new() -> Places
        ensures { result ≡ [] }
    {
        Places {
            items: ArrayVec::new(),
        }
    }

    /// The places of those of these rules that have limiters.
    pub(crate) fn of(rules: &[Numbered]) -> Places
        requires { limiters_in rules.now ≤ 16 }
        ensures { result ≡ places_of rules.now }
    {
        let mut items = ArrayVec::new();
        for (at, n) in rules.iter().enumerate() {
            if n.limits.len() != 0 {
                items.push(at);
            }
        }
        Places { items }
    }

    /// The places, in order.
    pub(crate) fn as_slice(&self) -> &[usize]
        ensures { result.now ≡ self.now }
    {
        self.items.as_slice()
    }
}
