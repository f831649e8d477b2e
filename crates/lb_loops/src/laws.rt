//! What holds of every event handler that calls a desk. The function is a law: its contract is the
//! statement, and a call does nothing but bring it to the caller's proof.

ghost use denote.Ref.{NamedLft};
ghost use Rattle.std.specs.Thread.{IsSend};
ghost use Rattle.lb_loops.specs.contracts.caller.Caller as caller;

use lb_desk::{Naming, desks_cross_threads};
use lb_recent::rings_cross_threads;
use std::sync::Wait;

/// A handler that calls a desk from a seat may go to another thread, where the handle by which it
/// waits may be shared by threads.
pub fn callers_cross_threads<J: Naming, R: Wait + Sync>()
    ensures { (a : NamedLft) → IsSend (caller.the_row a R.row J.row (record { seats = J.seats; limit = J.limit; opening = J.opening }) (record { name = J.name; parts = J.parts })) }
{
    desks_cross_threads::<J>();
    rings_cross_threads();
}
