//! Runs of the balancer: events are steps of one plain state, one after the other. Laws say what
//! holds of every run. The step is of lb_step, and all that lb_step exports is exported here too.
#![tactic(auto)]

mod laws;
mod runs;

pub use laws::{
    cached_answers_are_kept_replies, counts_are_numbers, equal_snapshots_have_equal_runs,
    hits_come_from_replies, marks_follow_results, one_run_per_marks, ticks_end_the_due,
};
pub use lb_step::{
    Answer, Balancer, BoxedCommand, CacheCounts, Check, CheckSpec, Command, Count, Counts,
    CountsByNumber, DropReason, EditFault, Event, FIRST_TIMEOUT, IgnoreReason, LocalReason,
    MAX_TIMEOUT, Note, Noted, Plain, Served, ServerCounts, StatedRule, Tally, Timeout, Totals,
    balancers_cross_threads, equal_snapshots_are_of_equal_states, health_follows,
    pools_are_found_in_routes, refusals_change_nothing, routes_follow,
};
pub use runs::{run, run_counted};
