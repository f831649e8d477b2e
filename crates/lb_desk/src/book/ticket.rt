//! Tickets of logged calls, and the receipts that come of them. A ticket has neither `Clone` nor `Drop`: the book alone makes one, a
//! seat's receipts alone use it up, and whoever leaves one out is not compiled.

ghost use Rattle.std.specs.Prelude.{IfNone, IfOk, IfSome, IsSome, OnOk, length, option_map, vec_capacity, vec_len, ◌++◌, ◌+◌, ◌<◌, ◌∷◌, ◌≡◌, ◌≤◌, []};
ghost use Rattle.std.specs.Option.{ForSome};
ghost use Rattle.lb_desk.specs.Entry.{receipt};
ghost use Rattle.lb_desk.specs.Book.{ticket_of};

use crate::entry::Receipt;
use crate::spare::AnswerRoom;
use lb_core::{Answer, Event};
use std::alloc::{AllocError, Global};

/// A call that the log has, before its caller's seat has the receipt: its place in the log, and the event.
pub struct Ticket {
    place: u64,
    event: Event,
}

/// What came of a call under the lock: its answer, and a ticket where the log has the call. The answer can be had from
/// `Receipts::keep` alone, which takes the ticket too.
pub struct Answered {
    answer: Answer,
    ticket: Option<Ticket>,
}

impl Answered {
    /// The answer of a call at a place, with a ticket where there is a copy of its event for the receipt.
    #[inline(always)]
    pub(super) fn new(answer: Answer, place: u64, copy: Option<Event>) -> Answered
        ensures answer { result.answer ≡ answer }
        ensures ticket { result.ticket ≡ option_map (λ event. ticket_of place event) copy }
    {
        let ticket = match copy {
            Some(event) => Some(Ticket { place, event }),
            None => None,
        };
        Answered { answer, ticket }
    }

    /// The answer.
    pub(crate) fn answer(&self) -> &Answer
        ensures { result.now ≡ self.now.answer }
    {
        &self.answer
    }

    /// Whether the log has the call.
    #[inline(always)]
    pub(crate) fn is_logged(&self) -> bool {
        self.ticket.is_some()
    }
}

/// The receipts of a seat, and room for one more.
#[derive(Drop)]
pub struct Receipts {
    pub(crate) kept: Vec<Receipt>,
    pub(crate) room: Option<AnswerRoom>,
    ghost roomy: { ForSome room (λ _. vec_len kept < vec_capacity kept) },
}

impl Receipts {
    /// No receipts.
    pub(crate) fn new(alloc: Global) -> Receipts
        ensures { result.kept.items ≡ [] }
    {
        Receipts {
            kept: Vec::new(alloc),
            room: None,
        }
    }

    /// Whether there is room for one more receipt.
    #[inline(always)]
    pub(crate) fn has_room(&self) -> bool {
        self.room.is_some()
    }

    /// Takes room for one more receipt, where none is there. The one error is lack of memory.
    #[inline(always)]
    pub(crate) fn prepare(&mut self, alloc: Global) -> Result<(), AllocError>
        ensures room { OnOk result (IsSome self.new.room) }
        ensures same { self.new.kept.items ≡ self.old.kept.items }
        ensures len { vec_len self.new.kept ≡ vec_len self.old.kept }
    {
        if self.room.is_none() {
            self.kept.reserve(1)?;
            self.room = Some(AnswerRoom::take(alloc)?);
        }
        Ok(())
    }

    /// A copy of an event for its receipt, for which room is there then: it was taken before, or was refused, or is taken now.
    pub(super) fn noted(
        &mut self,
        alloc: Global,
        event: &Event,
        room: Result<(), AllocError>,
    ) -> Result<Event, AllocError>
        ensures copy { IfOk result (λ copy. copy ≡ event.now) }
        ensures room { OnOk result (IsSome self.new.room) }
        ensures same { self.new.kept.items ≡ self.old.kept.items }
        ensures len { vec_len self.new.kept ≡ vec_len self.old.kept }
    {
        room?;
        self.prepare(alloc)?;
        event.copy(alloc)
    }

    /// Keeps the receipt of a call that the log has, for which room was taken, and hands the answer on. A log that has the call not has
    /// all that it ever will: then the room is given back.
    #[inline(always)]
    pub(crate) fn keep(&mut self, alloc: Global, answered: Answered) -> Answer
        requires { IsSome answered.ticket → IsSome self.old.room }
        ensures answer { result ≡ answered.answer }
        ensures kept { IfSome answered.ticket (λ ticket. self.new.kept.items ≡ self.old.kept.items ++ receipt ticket.place ticket.event answered.answer ∷ []) }
        ensures len { IfSome answered.ticket (λ ticket. vec_len self.new.kept ≡ vec_len self.old.kept + 1) }
        ensures few { vec_len self.new.kept ≤ vec_len self.old.kept + 1 }
        ensures same { IfNone answered.ticket ((self.new.kept.items ≡ self.old.kept.items) × (vec_len self.new.kept ≡ vec_len self.old.kept)) }
    {
        let Answered { answer, ticket } = answered;
        match ticket {
            Some(Ticket { place, event }) => self.push(alloc, place, event, &answer),
            None => self.room = None,
        }
        answer
    }

    /// Keeps a receipt, for which room was taken.
    fn push(&mut self, alloc: Global, place: u64, event: Event, answer: &Answer)
        requires { IsSome self.old.room }
        ensures kept { self.new.kept.items ≡ self.old.kept.items ++ receipt place event answer.now ∷ [] }
        ensures len { vec_len self.new.kept ≡ vec_len self.old.kept + 1 }
    {
        let Some(room) = self.room.take() else {
            unreachable!()
        };
        self.kept.push_reserved(Receipt {
            place,
            event,
            answer: room.copied(alloc, answer),
        });
    }
}
