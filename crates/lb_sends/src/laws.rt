//! That counts may be shared by threads. The function is a law: its contract is the statement, and
//! a call does nothing but bring it to the caller's proof.

ghost use Rattle.std.specs.Thread.{IsSend, IsSync};
ghost use Rattle.lb_sends.specs.contracts.sends.Sends as sends;

/// Counts may be shared by threads, and they may go to one.
pub fn sends_cross_threads()
    ensures send { IsSend sends.the_row }
    ensures sync { IsSync sends.the_row }
{}
