//! What holds of every desk. The function is a law: its contract is the statement, and a call does nothing but bring it to the
//! caller's proof.

ghost use Rattle.std.specs.Thread.{IsSend, IsSync};
ghost use Rattle.lb_desk.specs.contracts.desk.Desk as desk;
ghost use Rattle.lb_desk.specs.contracts.seat.Seat as seat;

use crate::naming::Naming;
use lb_core::balancers_cross_threads;

/// A desk may be shared by threads, and a seat may go to one.
pub fn desks_cross_threads<J: Naming>()
    ensures desk { IsSync (desk.the_row J.row (record { seats = J.seats; limit = J.limit; opening = J.opening }) (record { name = J.name; parts = J.parts })) }
    ensures seat { IsSend (seat.the_row J.row (record { seats = J.seats; limit = J.limit; opening = J.opening }) (record { name = J.name; parts = J.parts })) }
{
    balancers_cross_threads();
}
