//! Sends of an answer.

ghost use Rattle.std.specs.Prelude.{option_map, ◌≡◌};
ghost use Rattle.lb_loops_io.specs.Letter.{Excuses, outcome_letter};

use crate::head::Head;
use crate::report::Outcome;
use crate::reported::Reported;
use lb_core::{Answer, Event};
use lb_wire::{Lane, Octets, Origin, Rcode, ServerId, answer_in_place, read_query};

/// Whom a message goes to.
#[derive(Clone, Copy, Debug, PartialEq, Eq)]
pub enum End {
    /// The client of this origin.
    Client(Origin),
    /// A server, by this upstream socket.
    Server(ServerId, Lane),
}

/// What is sent for what came of an event, if anything is: whom it goes to, and its octets.
#[inline(always)]
pub fn letter_of<'a>(event: &Reported, outcome: &'a Outcome) -> Option<(End, &'a Octets)>
    ensures { option_map (λ l. (l.0, l.1.now)) result ≡ outcome_letter event.now outcome.now }
{
    match outcome {
        Outcome::Answered(Answer::Local(bytes, _) | Answer::NoMemory(bytes))
        | Outcome::Fault(_, Some(bytes)) => match event.head() {
            Head::Query(origin) => Some((End::Client(origin), bytes)),
            _ => None,
        },
        Outcome::Answered(Answer::Forward(server, lane, _, bytes)) => {
            Some((End::Server(*server, *lane), bytes))
        }
        Outcome::Answered(Answer::Deliver(origin, bytes, _) | Answer::Expired(origin, bytes)) => {
            Some((End::Client(*origin), bytes))
        }
        _ => None,
    }
}

/// What is answered to an event that the desk did not take: ServFail in the query's own octets, if
/// it is a query that reads.
pub fn excuse(event: Event) -> Option<Octets>
    ensures { Excuses event result }
{
    let Event::Query { bytes, .. } = event else {
        return None;
    };
    let mut bytes = bytes.into_vec();
    let Ok(view) = read_query(bytes.as_slice()) else {
        return None;
    };
    answer_in_place(&mut bytes, &view, Rcode::ServFail);
    Some(Octets::from_vec(bytes))
}
