//! What holds of requests.

ghost use Rattle.lb_doh_message.specs.Laws.{OneOutcome};

/// A request has one outcome, but for lack of memory.
pub fn one_outcome()
    ensures { OneOutcome }
{}
