//! The event handler of a loop: a seat at a desk.

ghost use Rattle.std.specs.Prelude.{IfErr, IfOk, OnErr, OnOk, ◌+◌, ◌∷◌, ◌≡◌, []};
ghost use Rattle.lb_step.specs.Plain.{Plain};
ghost use Rattle.lb_step.specs.Step.{Answers};
ghost use Rattle.lb_desk.specs.Desk.{OnceReturnsAtBoth};
ghost use Rattle.lb_loops_io.specs.Counts.{Grows};
ghost use Rattle.lb_loops.specs.Caller.{MayKeepReceipt, pairs_of};

use lb_core::{Answer, Balancer, Event, Noted};
use lb_desk::{Desk, DeskFault, Naming, Seat};
use lb_loops_io::Taker;
use lb_recent::{Before, Ring};
use lb_sends::Sends;
use std::sync::{Arc, Wait};

/// Hands the events of a loop to a desk, by a seat of its own. It may wait for other callers.
#[derive(Drop)]
pub struct Caller<'a, R: Wait, J: Naming> {
    rt: &'a R,
    desk: &'a Desk<J>,
    seat: Seat<J>,
    /// Where queries are noted that end by its calls.
    ring: Option<Arc<Ring>>,
    /// Where it notes how long servers took to reply, and its number there.
    times: Option<(Arc<Sends>, usize)>,
}

impl<'a, R: Wait, J: Naming> Caller<'a, R, J> {
    /// The handler that calls this desk from this seat.
    pub fn new(rt: &'a R, desk: &'a Desk<J>, seat: Seat<J>) -> Caller<'a, R, J>
        ensures { result.seat ≡ seat }
    {
        Caller::noting(rt, desk, seat, None)
    }

    /// The same handler, which notes the queries that end by its calls in a ring, if it has one.
    pub fn noting(
        rt: &'a R,
        desk: &'a Desk<J>,
        seat: Seat<J>,
        ring: Option<Arc<Ring>>,
    ) -> Caller<'a, R, J>
        ensures { result.seat ≡ seat }
    {
        Caller {
            rt,
            desk,
            seat,
            ring,
            times: None,
        }
    }

    /// The same handler, which notes how long servers took for the replies that it hands in, under
    /// a number that no other handler has.
    pub fn timing(self, sends: Arc<Sends>, number: usize) -> Caller<'a, R, J>
        ensures { result.seat ≡ self.entry.seat }
    {
        Caller {
            times: Some((sends, number)),
            ..self
        }
    }

    /// What it waits and tells the time by.
    pub fn runtime(&self) -> &'a R {
        self.rt
    }

    /// The desk that it calls.
    pub fn desk(&self) -> &'a Desk<J> {
        self.desk
    }

    /// One call as `take` makes it, and what a reader makes of the balancer and of the answer right
    /// after its step, before any other call. It is for edits: no query that ends and no server's
    /// time is noted.
    pub fn take_then<T, F: FnOnce(&Balancer, &Answer) -> T>(
        &mut self,
        event: Event,
        reader: F,
    ) -> Result<(Answer, T), (DeskFault, Event)>
        requires { F.IsAlwaysCallable reader }
        ensures answered { IfOk result (λ r. (self.new.seat.calls ≡ self.old.seat.calls + 1) × Grows (pairs_of self.old.seat.receipts) (pairs_of self.new.seat.receipts) ((event, r.0) ∷ [])) }
        ensures read { IfOk result (λ r. (old new : Plain) × Answers old event r.0 new × OnceReturnsAtBoth F.FnOnce reader new r.0 r.1) }
        ensures fault { IfErr result (λ fault. (self.new.seat.calls ≡ self.old.seat.calls) × (pairs_of self.new.seat.receipts ≡ pairs_of self.old.seat.receipts) × (fault.1 ≡ event)) }
    {
        let mut noted = Noted::none();
        self.desk
            .call_then(self.rt, &mut self.seat, event, &mut noted, reader)
    }

    /// The seat, when the loop has ended.
    pub fn into_seat(self) -> Seat<J>
        ensures { result ≡ self.entry.seat }
    {
        let Caller { seat, .. } = self;
        seat
    }
}

impl<R: Wait, J: Naming> Taker for Caller<'_, R, J> {
    ghost use Rattle.std.specs.Prelude.{List, map};
    ghost use Rattle.lb_step.specs.declared.answer.Answer.{Answer};
    ghost use Rattle.lb_step.specs.declared.event.Event.{Event};
    ghost use Rattle.lb_loops.specs.Caller.{pairs_of};

    ghost answered = { λ c. c.seat.calls };

    ghost pairs = { λ c. pairs_of c.seat.receipts };

    fn take(&mut self, event: Event) -> Result<Answer, (DeskFault, Event)> {
        if let Some(ring) = &self.ring {
            let notes = (ring, &self.times);
            return take_noting(self.rt, self.desk, &mut self.seat, event, notes);
        }
        let now = event.now();
        let (mut noted, mut answer) = (Noted::none(), Answer::Quiet);
        let (rt, seat) = (self.rt, &mut self.seat);
        match self
            .desk
            .call_into(rt, seat, event, &mut noted, &mut answer)
        {
            Ok(()) => {
                note_time(&self.times, now, &answer, &noted);
                Ok(answer)
            }
            Err(back) => Err(back),
        }
    }
}

/// Notes how long a server took, if its reply is delivered.
#[inline(always)]
fn note_time(times: &Option<(Arc<Sends>, usize)>, now: u64, answer: &Answer, noted: &Noted) {
    if let Answer::Deliver(..) = answer
        && let Some((sends, number)) = times
        && let Some(served) = noted.served
    {
        let took = now.saturating_sub(served.began);
        sends.note_reply(*number, served.server, took);
    }
}

/// A call from a seat. If a query ends by it, it is noted in a ring, and how long the server took.
#[inline(never)]
fn take_noting<R: Wait, J: Naming>(
    rt: &R,
    desk: &Desk<J>,
    seat: &mut Seat<J>,
    event: Event,
    notes: (&Arc<Ring>, &Option<(Arc<Sends>, usize)>),
) -> Result<Answer, (DeskFault, Event)>
    ensures calls { OnOk result (seat.new.calls ≡ seat.old.calls + 1) }
    ensures receipts { IfOk result (λ answer. MayKeepReceipt J.limit event answer seat.old.receipts seat.new.receipts) }
    ensures back { IfErr result (λ fault. fault.1 ≡ event) }
    ensures same { OnErr result (seat.new ≡ seat.old) }
{
    let (ring, times) = notes;
    let now = event.now();
    let before = Before::of(&event);
    let mut noted = Noted::none();
    let answer = desk.call_noted(rt, seat, event, &mut noted)?;
    if let Some(record) = before.ended(&answer, &noted) {
        ring.write(rt, record);
    }
    note_time(times, now, &answer, &noted);
    Ok(answer)
}
