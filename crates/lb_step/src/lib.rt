//! The step of the balancer: each event is one step of one plain state, and each answer is the one
//! that the plain lists of rules, servers, pools, outstanding queries and kept replies give when
//! they are searched anew at that event. What is counted of a step stands beside the plain state.
#![tactic(auto)]

mod answer;
mod asked;
mod balancer;
mod boxed;
mod cache_spec;
mod check;
mod command;
mod count;
mod counts;
mod counts_by_number;
mod edit;
mod event;
mod expiry;
mod forward;
mod health;
mod lacking;
mod laws;
mod lifetime;
mod look;
mod noted;
mod plain;
mod query;
mod reply;
mod tally;
mod timeout;
mod upstream;

pub use answer::{Answer, DropReason, EditFault, IgnoreReason, LocalReason, Note, Totals};
pub use balancer::Balancer;
pub use boxed::BoxedCommand;
pub use check::{Check, CheckSpec};
pub use command::{Command, StatedRule};
pub use count::Count;
pub use counts::Counts;
pub use counts_by_number::{CacheCounts, CountsByNumber, ServerCounts};
pub use event::Event;
pub use laws::{
    balancers_cross_threads, equal_snapshots_are_of_equal_states, health_follows,
    pools_are_found_in_routes, refusals_change_nothing, routes_follow,
};
pub use noted::{Noted, Served};
pub use plain::Plain;
pub use tally::Tally;
pub use timeout::{MAX_TIMEOUT, Timeout};
pub use upstream::FIRST_TIMEOUT;
