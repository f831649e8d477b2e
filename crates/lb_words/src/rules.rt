//! Rules, as an operator types them.

use crate::texts::pool_of;
use lb_chain::{Action, Rule};
use lb_servers::{Pool, PoolName};
use lb_typed::{action_text, term_text};
use lb_wire::PoolId;
use std::alloc::{AllocError, Global};

/// How many members of a set a short text has.
const SHOWN: usize = 3;

/// How much of a rule is written.
#[derive(Clone, Copy, Debug, PartialEq, Eq)]
pub(crate) enum Extent {
    Whole,
    /// Of each set the first three members, and how many more there are.
    Short,
}

impl Extent {
    /// The most members of a set that are written.
    fn most(self) -> usize {
        match self {
            Extent::Whole => usize::MAX,
            Extent::Short => SHOWN,
        }
    }
}

/// The term and the action of a rule, as they are typed after `rule add`.
pub(crate) fn rule_text(
    alloc: Global,
    rule: &Rule,
    pools: &[Pool],
    extent: Extent,
) -> Result<String, AllocError> {
    let term = term_text(alloc, rule.term.as_term(), extent.most())?;
    match stated(&rule.action, pools) {
        Some(action) => {
            let action = action_text(alloc, &action)?;
            format!(in alloc; "{term} {action}")
        }
        None => format!(in alloc; "{term} pool(?)"),
    }
}

/// An action as a command states it. None if its pool is newer than these pools.
pub(crate) fn stated(action: &Action<PoolId>, pools: &[Pool]) -> Option<Action<PoolName>> {
    let name = match action.pool() {
        Some(id) => Some(pool_of(pools, *id)?.copy()),
        None => None,
    };
    action.with_pool(name)
}
