//! The rule chain: the list of rules in their order, its edits, the walk of a query through it, and the rate limiters of
//! the rules.
#![tactic(auto)]

mod action;
mod addrs;
mod chain;
mod counting;
mod edits;
mod fault;
mod filing;
mod laws;
mod limiters;
mod listed;
mod loose;
mod numbered;
mod offers;
mod places;
mod rule;
mod walk;
mod walked;

pub use action::Action;
pub use addrs::{Addrs, MAX_ADDRS};
pub use chain::Chain;
pub use fault::ChainFault;
pub use laws::{
    chains_cross_threads, first_to_end_decides, listed_alike_seen_alike, seen_are_rules,
    seen_have_own_limiters, seen_twice, seen_walks,
};
pub use limiters::Limiters;
pub use listed::{Listed, RulePass, RulePasses};
pub use numbered::Numbered;
pub use rule::Rule;
pub use walked::{Passed, PassedList, Verdict, Walked};
