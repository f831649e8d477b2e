//! Rules.

ghost use Rattle.std.specs.Prelude.{◌≡◌, IfOk};

use crate::action::Action;
use lb_terms::CheckedTerm;
use lb_wire::PoolId;
use std::alloc::{AllocError, Global};

/// A rule: an action for the queries that a term holds of.
#[derive(Debug, Drop)]
pub struct Rule {
    pub term: CheckedTerm,
    pub action: Action<PoolId>,
}

impl Rule {
    /// An equal rule. The one error is lack of memory.
    pub fn copy(&self, alloc: Global) -> Result<Rule, AllocError>
        ensures { IfOk result (λ copy. copy ≡ self.now) }
    {
        Ok(Rule {
            term: self.term.copy(alloc)?,
            action: self.action,
        })
    }
}
