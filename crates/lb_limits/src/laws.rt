//! What holds of limiters.

ghost use Rattle.lb_limits.specs.Laws.{PassedArePasses, PutIsThere, RecentArePasses, RecentTwice, ReservingKeepsMatches};

/// Passes given up earlier change nothing later.
pub fn recent_twice()
    ensures { RecentTwice }
{}

/// A masked address that was put among the reserved ones is one of them.
pub fn put_is_there()
    ensures { PutIsThere }
{}

/// A reservation changes no test at its moment or later.
pub fn reserving_keeps_matches()
    ensures { ReservingKeepsMatches }
{}

/// What the passes of a limiter keep true, those of them keep true that count at a moment.
pub fn recent_are_passes()
    ensures { RecentArePasses }
{}

/// What the passes of a limiter keep true, they keep true with a query counted that does not match.
pub fn passed_are_passes()
    ensures { PassedArePasses }
{}
