//! What holds of lines.

ghost use Rattle.lb_loops_io.specs.Ways.{OneConnection, OneMessage};

/// What came of an event, and each job, is sent once at most: a line puts one message on all ways together, whichever connection is
/// looked at, and none on two connections.
pub fn one_send_a_line()
    ensures message { OneMessage }
    ensures connection { OneConnection }
{}
