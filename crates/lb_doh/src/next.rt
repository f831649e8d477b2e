//! What a request asks the desk, and what comes of the answer.

ghost use Rattle.std.specs.Prelude.{◌≡◌};
ghost use Rattle.lb_doh.specs.Next.{Follows, asked};

use lb_core::{Answer, Event};
use lb_doh_message::{DohResponse, response_of, unavailable};
use lb_outbox::Job;
use lb_wire::{Kind, Octets, Origin};

/// What comes of the answer to a request's query.
#[derive(Debug, Drop)]
pub enum Next {
    /// The request is answered by this.
    Respond(DohResponse),
    /// The loop of streams sends this to a server, and the request waits.
    Send(Job),
}

/// The event of a request's message, with a moment and a random word. It came by a stream.
pub fn query_of(now: u64, word: u16, origin: Origin, bytes: Octets) -> Event
    ensures { result ≡ asked (now, word) origin bytes }
{
    Event::Query {
        now,
        origin,
        kind: Kind::Stream,
        word,
        bytes,
    }
}

/// What comes of an answer. An answer that no query has is as if there were none: 503.
pub fn next_of(answer: Answer) -> Next
    ensures { Follows answer result }
{
    match answer {
        Answer::Forward(server, lane, _, bytes) => Next::Send(Job::ToServer(server, lane, bytes)),
        Answer::Quiet | Answer::Ignored(_) | Answer::Edited(_) | Answer::Refused(_) => {
            Next::Respond(unavailable())
        }
        answer => Next::Respond(response_of(answer)),
    }
}
