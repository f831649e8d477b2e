//! The rate limiters of a rule.

ghost use Rattle.std.specs.Prelude.{◌≡◌, length};

use lb_limits::Limiter;
use std::marker::Model;

/// The rate limiters of a rule: one for each rate of its term, from the left. A contract sees them as the list.
#[derive(Debug, Drop)]
pub struct Limiters {
    pub(crate) items: Vec<Limiter>,
}

impl Model for Limiters {
    ghost use Rattle.std.specs.Prelude.{List};
    ghost use Rattle.lb_limits.specs.Window.{Limits};

    ghost Value = { List Limits };

    ghost view = { λ l. l.items.items };
}

impl Limiters {
    /// How many limiters there are.
    pub(crate) fn len(&self) -> usize
        ensures { result ≡ length self.now }
    {
        self.items.len()
    }

    /// The limiters, in order.
    pub(crate) fn as_slice(&self) -> &[Limiter]
        ensures { result.now ≡ self.now }
    {
        self.items.as_slice()
    }
}
