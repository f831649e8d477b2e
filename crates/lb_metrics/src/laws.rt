//! That what the service is made of may cross threads. The function is a law: its contract is the
//! statement, and a call does nothing but bring it to the caller's proof.

ghost use Rattle.std.specs.Thread.{IsSend};
ghost use Rattle.lb_metrics.specs.contracts.serving.MetricsParts as parts;

/// What the service is made of may go to another thread, if its page may.
pub fn metrics_cross_threads<P: Send>()
    ensures { IsSend (parts.the_row P.row) }
{}
