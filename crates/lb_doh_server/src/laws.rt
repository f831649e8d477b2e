//! That what the front is made of may cross threads. The function is a law: its contract is the statement, and a call does nothing but bring it
//! to the caller's proof.

ghost use Rattle.std.specs.Thread.{IsSend};
ghost use Rattle.lb_doh_server.specs.contracts.serving.FrontParts as parts;

/// What the front is made of may go to another thread, where its handler, its source and its waker may.
pub fn fronts_cross_threads<T: Send, O: Send, W: Send>()
    ensures { IsSend (parts.the_row T.row O.row W.row) }
{}
