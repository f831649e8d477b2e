//! Room for the copies of a call, taken before it.

ghost use Rattle.std.specs.Prelude.{IfOk, vec_capacity, vec_len, ◌≡◌, ◌≤◌};
ghost use Rattle.lb_wire.specs.Octets.{max_message};

use lb_core::{Answer, Event};
use lb_wire::MAX_MESSAGE;
use std::alloc::{AllocError, Global};

/// Room for the octets of any answer.
#[derive(Debug, Drop)]
pub(crate) struct AnswerRoom {
    octets: Vec<u8>,
    ghost empty: { vec_len octets ≡ 0 },
    ghost enough: { max_message ≤ vec_capacity octets },
}

impl AnswerRoom {
    /// Takes the room. The one error is lack of memory.
    pub(crate) fn take(alloc: Global) -> Result<AnswerRoom, AllocError> {
        Ok(AnswerRoom {
            octets: Vec::with_capacity(alloc, MAX_MESSAGE)?,
        })
    }

    /// A copy of the answer, with a block of its own size for its octets, and the room is given back; only where that block was
    /// refused it is in the room, of which the rest is given back.
    pub(crate) fn copied(self, alloc: Global, answer: &Answer) -> Answer
        ensures { result ≡ answer.now }
    {
        let AnswerRoom { octets } = self;
        match answer.copy(alloc) {
            Ok(copy) => copy,
            Err(refused) => answer.copy_into(octets, refused),
        }
    }
}

/// A copy of an event, and room for a copy of its answer.
#[derive(Debug, Drop)]
pub(crate) struct EntryRoom {
    pub(crate) event: Event,
    pub(crate) room: AnswerRoom,
}

impl EntryRoom {
    /// Takes the room of a call. The one error is lack of memory.
    pub(crate) fn take(alloc: Global, event: &Event) -> Result<EntryRoom, AllocError>
        ensures { IfOk result (λ spare. spare.event ≡ event.now) }
    {
        Ok(EntryRoom {
            event: event.copy(alloc)?,
            room: AnswerRoom::take(alloc)?,
        })
    }
}
