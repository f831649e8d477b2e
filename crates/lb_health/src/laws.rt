//! What holds of the health of servers.

ghost use Rattle.lb_health.specs.Health.{LastOfARow, LastOfARowFrom};

/// A server goes down exactly at the last of so many failures in a row since it last changed, and comes up exactly at the
/// last of so many successes in a row.
pub fn last_of_a_row()
    ensures { LastOfARow }
{}

/// So it is from any health on: the row that went against it goes on.
pub fn last_of_a_row_from()
    ensures { LastOfARowFrom }
{}
