//! What the loops report and stand on: sends of an answer, the lines of a report, where servers are, and the traits of sockets and of
//! what else is outside.
#![tactic(auto)]

mod answering;
mod endpoint;
mod head;
mod laws;
mod letter;
mod limits;
mod outcome;
mod report;
mod reported;
mod rooms;
mod roster;
mod traffic;
mod traits;

pub use answering::Answering;
pub use endpoint::Endpoint;
pub use head::Head;
pub use laws::one_send_a_line;
pub use letter::{End, excuse, letter_of};
pub use limits::{KEPT_AFTER_QUERY, MAX_CLIENTS, MAX_CONNECTIONS, MAX_EVENTS_OF_TURN, SECOND};
pub use outcome::{add_line, fault_in, first_fault, outcome_of};
pub use report::{DeviceFault, Line, Outcome, Report, Sending, Source, Way, Why};
pub use reported::Reported;
pub use rooms::Rooms;
pub use roster::{Place, Roster, RosterFull};
pub use traffic::{Accepted, Datagram, Peer, Read, Ready, Received, Service, Socket, WaitFailed};
pub use traits::{Datagrams, Gate, Outside, Posts, Streams, Taker, Waker};
