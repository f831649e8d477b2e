//! Rules in their list.

use crate::limiters::Limiters;
use crate::rule::Rule;
use lb_wire::RuleId;

/// A rule of the list, with its number and its limiters.
#[derive(Debug, Drop)]
pub struct Numbered {
    pub id: RuleId,
    pub rule: Rule,
    pub limits: Limiters,
}
