//! What the test of a term gives.

ghost use Rattle.std.specs.Prelude.{◌≡◌, ◌<◌, ◌≤◌, [], ◌∷◌, ◌++◌, length};

use arrayvec::ArrayVec;
use std::marker::Model;

/// The most limiters of a term that is tested.
pub const MAX_LIMITERS: usize = 16;

/// The numbers of limiters of a term, counted from 0 and from the left; at most 16. A contract sees it as the list.
#[derive(Debug, Drop)]
pub struct Passes {
    items: ArrayVec<u8, MAX_LIMITERS>,
}

impl Model for Passes {
    ghost use Rattle.std.specs.Prelude.{List, ℕ};

    ghost Value = { List ℕ };

    ghost view = { λ p. p.items.items };
}

impl Passes {
    /// No number.
    pub(crate) fn new() -> Passes
        ensures { result ≡ [] }
    {
        Passes {
            items: ArrayVec::new(),
        }
    }

    /// Puts the number of a limiter after the others.
    pub(crate) fn push(&mut self, number: u8)
        requires { length self.old < 16 }
        ensures { self.new ≡ self.old ++ number ∷ [] }
    {
        self.items.push(number);
    }

    /// The numbers, in order.
    pub fn as_slice(&self) -> &[u8]
        ensures numbers { result.now ≡ self.now }
        ensures few { length self.now ≤ 16 }
    {
        self.items.as_slice()
    }
}

/// The test of a term of a query.
#[derive(Debug, Drop)]
pub struct Tested {
    /// Whether the term holds.
    pub truth: bool,
    /// The limiters that were tested and did not match: each of them counts the query.
    pub passes: Passes,
}
