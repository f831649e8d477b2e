//! That rings may be shared by threads. The function is a law: its contract is the statement, and a call does nothing but bring it to
//! the caller's proof.

ghost use Rattle.std.specs.Thread.{IsSend, IsSync};
ghost use Rattle.lb_recent.specs.contracts.ring.Ring as ring;

/// A ring may be shared by threads, and it may go to one.
pub fn rings_cross_threads()
    ensures send { IsSend ring.the_row }
    ensures sync { IsSync ring.the_row }
{}
