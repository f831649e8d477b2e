//! What lies under the lock of a desk: the balancer, and a log of which each moment shows that it
//! is true.

ghost use Rattle.std.specs.Prelude.{All, IfErr, IfOk, IsErrAnd, IsOk, IsSome, IsTrue, None, OnErr, OnOk, Some, min, vec_capacity, vec_len, ◌++◌, ◌+◌, ◌-◌, ◌<◌, ◌^◌, ◌↔◌, ◌∷◌, ◌≡◌, ◌≢◌, ◌≤◌, ℕ, []};
ghost use Rattle.std.specs.Option.{ForSome};
ghost use Rattle.lb_step.specs.Counts.{count_at};
ghost use Rattle.lb_step.specs.CountsByNumber.{AreNone};
ghost use Rattle.lb_step.specs.Noted.{IsNoted};
ghost use Rattle.lb_step.specs.Snapshot.{IsShown, snapshot_of};
ghost use Rattle.lb_step.specs.Step.{Answers};
ghost use Rattle.lb_desk.specs.Book.{Booked, Counted, Counts, IsReadyFor, Keeps, Logs};
ghost use Rattle.lb_desk.specs.Desk.{SameReceipts};
ghost use Rattle.lb_desk.specs.Entry.{entry};
ghost use Rattle.lb_desk.specs.declared.fault.DeskFault.TheVariants.{CountFull, NoMemory};

mod ticket;

use crate::audit::Audit;
use crate::entry::{LogEntry, SeatId};
use crate::fault::DeskFault;
use crate::naming::Naming;
use crate::seat::Account;
use crate::spare::{AnswerRoom, EntryRoom};
use lb_cache::Swept;
use lb_core::{Answer, Balancer, Event, Noted, Tally};
use std::alloc::{AllocError, Global};
use std::marker::Model;
use std::sync::ledger;
use std::sync::ledger::Share;
pub use ticket::{Answered, Receipts, Ticket};

/// What lies under the lock of a desk: its balancer, and the log of the first calls. A contract
/// sees how many calls were answered and how many the log has at most, what was counted, the log,
/// and for which event room is taken.
#[derive(Drop)]
pub struct Book<J: Naming> {
    alloc: Global,
    balancer: Balancer,
    tally: Tally,
    limit: u64,
    count: u64,
    log: Vec<LogEntry>,
    spare: Option<EntryRoom>,
    calls: ledger::Book<J>,
    ghost counted: { count ≡ calls.total },
    ghost limited: { limit ≡ J.limit },
    ghost filled: { vec_len log ≡ min count limit },
    ghost seated: { All (λ e. e.seat.0 < J.seats) log.items },
    ghost roomy: { ForSome spare (λ _. vec_len log < vec_capacity log) },
    ghost told: { ∥ Keeps J.opening limit count log.items balancer ∥₁ },
    ghost tallied: { ∥ Counted J.opening count balancer tally ∥₁ },
}

impl<J: Naming> Model for Book<J> {
    ghost use Rattle.std.specs.Prelude.{option_map};
    ghost use Rattle.lb_desk.specs.Book.{Booked};

    ghost Value = { Booked };

    ghost use Rattle.lb_terms.specs.contracts.term.CheckedTerm as contract;
    ghost use Rattle.std.specs.Coded.{codes};

    ghost coded = { Prim.hlevel (codes, contract.the_row.coded) };

    ghost view = { λ b. record { balancer = b.balancer; tally = b.tally; count = b.count; limit = b.limit; log = b.log.items; ready = option_map (λ s. s.event) b.spare } };
}

impl<J: Naming> Book<J> {
    /// A book without calls.
    pub(crate) fn new(
        alloc: Global,
        balancer: Balancer,
        limit: u64,
        calls: ledger::Book<J>,
    ) -> Book<J>
        requires new { calls.total ≡ 0 }
        requires limit { J.limit ≡ limit }
        requires opening { J.opening ≡ snapshot_of balancer }
        requires shown { IsShown balancer }
        ensures book { result ≡ record { balancer = balancer; tally = result.tally; count = 0; limit = limit; log = []; ready = None } }
        ensures counts { (place : ℕ) → count_at place result.tally.counts.items ≡ 0 }
        ensures none { AreNone result.tally.by_number }
    {
        let tally = Tally::new(alloc);
        let log = Vec::new(alloc);
        Book {
            alloc,
            balancer,
            tally,
            limit,
            count: 0,
            log,
            spare: None,
            calls,
        }
    }
}

impl<J: Naming> Book<J> {
    /// Answers an event: the whole of what a call does under the lock. One step of the balancer,
    /// which the book and the caller's share count. While the log has room for it by its limit, the
    /// log has it under the seat's number, and the answer comes with a ticket for its receipt. The
    /// caller's receipts take room for one more if they have none, and `room` says whether that was
    /// refused before. What the step leaves beside the plain state is noted. A refused event comes
    /// back, and nothing has changed.
    #[inline(always)]
    pub fn answer(
        &mut self,
        account: &mut Account<J>,
        event: Event,
        room: Result<(), AllocError>,
        noted: &mut Noted,
    ) -> Result<Answered, (DeskFault, Event)>
        requires part { 0 < account.old.share.parts }
        requires seat { account.old.number.0 < J.seats }
        ensures step { IfOk result (λ r. Answers self.old.balancer event r.answer self.new.balancer) }
        ensures noted { IfOk result (λ r. IsNoted self.old.balancer event r.answer noted.new) }
        ensures counts { IfOk result (λ r. Counts self.old.balancer event r.answer self.old.tally self.new.tally) }
        ensures logged { IfOk result (λ r. self.old.count < self.old.limit → Logs account.old.number event r self.old self.new) }
        ensures unlogged { IfOk result (λ r. self.old.limit ≤ self.old.count → (r.ticket ≡ None) × (self.new.log ≡ self.old.log) × (self.new.ready ≡ self.old.ready)) }
        ensures count { OnOk result (self.new.count ≡ self.old.count + 1) }
        ensures limit { self.new.limit ≡ self.old.limit }
        ensures share { OnOk result (account.new.share.amount ≡ account.old.share.amount + 1) }
        ensures parts { account.new.share.parts ≡ account.old.share.parts }
        ensures number { account.new.number ≡ account.old.number }
        ensures room { IfOk result (λ r. IsSome r.ticket → IsSome account.new.receipts.room) }
        ensures kept { SameReceipts account.old.receipts account.new.receipts }
        ensures full { IsErrAnd result (λ fault. fault.0 ≡ CountFull) ↔ (self.old.count ≡ 2 ^ 64 - 1) }
        ensures past { self.old.limit ≤ self.old.count → self.old.count < 2 ^ 64 - 1 → IsOk result }
        ensures refused { IfErr result (λ fault. (fault.1 ≡ event) × (self.new ≡ self.old)) }
        ensures lent { OnErr result (account.new.share ≡ account.old.share) }
    {
        let Account {
            number,
            share,
            receipts,
        } = account;
        let copy = match self.noted(receipts, &event, room) {
            Ok(copy) => copy,
            Err(refused) => return Err((DeskFault::from(refused), event)),
        };
        if let Err(fault) = self.ready(&event) {
            return Err((fault, event));
        }
        let (answer, place) = self.take(share, *number, event, noted);
        Ok(Answered::new(answer, place, copy))
    }

    /// Takes room for the entry of a call of this event, where the log has room for it by its
    /// limit. Nothing else changes.
    #[inline(always)]
    pub fn ready(&mut self, event: &Event) -> Result<(), DeskFault>
        ensures full { IsErrAnd result (λ fault. fault ≡ CountFull) ↔ (self.old.count ≡ 2 ^ 64 - 1) }
        ensures memory { IsErrAnd result (λ fault. fault ≡ NoMemory) → self.old.count < self.old.limit }
        ensures ready { OnOk result (IsReadyFor event.now self.new) }
        ensures same { self.new ≡ record self.old { ready = self.new.ready } }
        ensures past { self.old.limit ≤ self.old.count → self.new ≡ self.old }
        ensures refused { OnErr result (self.new ≡ self.old) }
    {
        if self.count == u64::MAX {
            return Err(DeskFault::CountFull);
        }
        if self.count >= self.limit {
            return Ok(());
        }
        let spare = room_for(self.alloc, &mut self.log, event)?;
        self.spare = Some(spare);
        Ok(())
    }

    /// Answers an event by one step of the balancer. The call is counted, in the book and in the
    /// caller's share, and the log has it, under the seat's number, where its limit allows; the
    /// room that was taken for it is spent. The place is how many calls there were before.
    #[inline(always)]
    pub fn take(
        &mut self,
        share: &mut Share<J>,
        seat: SeatId,
        event: Event,
        noted: &mut Noted,
    ) -> (Answer, u64)
        requires part { 0 < share.old.parts }
        requires seat { seat.0 < J.seats }
        requires ready { IsReadyFor event self.old }
        ensures step { Answers self.old.balancer event result.0 self.new.balancer }
        ensures noted { IsNoted self.old.balancer event result.0 noted.new }
        ensures counts { Counts self.old.balancer event result.0 self.old.tally self.new.tally }
        ensures place { result.1 ≡ self.old.count }
        ensures count { self.new.count ≡ self.old.count + 1 }
        ensures log { self.old.count < self.old.limit → self.new.log ≡ self.old.log ++ entry seat event result.0 ∷ [] }
        ensures spent { self.old.count < self.old.limit → self.new.ready ≡ None }
        ensures past { self.old.limit ≤ self.old.count → (self.new.log ≡ self.old.log) × (self.new.ready ≡ self.old.ready) }
        ensures limit { self.new.limit ≡ self.old.limit }
        ensures share { share.new.amount ≡ share.old.amount + 1 }
        ensures parts { share.new.parts ≡ share.old.parts }
    {
        let place = self.count;
        if place >= self.limit {
            let mut answer = Answer::Quiet;
            self.take_past(share, event, noted, &mut answer);
            return (answer, place);
        }
        (self.take_logged(share, seat, event, noted), place)
    }
}

impl<J: Naming> Book<J> {
    /// A copy of the event for its receipt, where the log has room for the call by its limit; then
    /// room for the receipt is there too.
    #[inline(always)]
    fn noted(
        &self,
        receipts: &mut Receipts,
        event: &Event,
        room: Result<(), AllocError>,
    ) -> Result<Option<Event>, AllocError>
        ensures logged { IfOk result (λ copy. self.now.count < self.now.limit → (copy ≡ Some event.now) × IsSome receipts.new.room) }
        ensures past { self.now.limit ≤ self.now.count → result ≡ Ok None }
        ensures refused { OnErr result (self.now.count ≢ 2 ^ 64 - 1) }
        ensures kept { SameReceipts receipts.old receipts.new }
    {
        if self.is_full() {
            return Ok(None);
        }
        Ok(Some(receipts.noted(self.alloc, event, room)?))
    }

    /// A call that the log has.
    fn take_logged(
        &mut self,
        share: &mut Share<J>,
        seat: SeatId,
        event: Event,
        noted: &mut Noted,
    ) -> Answer
        requires part { 0 < share.old.parts }
        requires seat { seat.0 < J.seats }
        requires logs { self.old.count < self.old.limit }
        requires ready { self.old.ready ≡ Some event }
        ensures step { Answers self.old.balancer event result self.new.balancer }
        ensures noted { IsNoted self.old.balancer event result noted.new }
        ensures counts { Counts self.old.balancer event result self.old.tally self.new.tally }
        ensures count { self.new.count ≡ self.old.count + 1 }
        ensures log { self.new.log ≡ self.old.log ++ entry seat event result ∷ [] }
        ensures spent { self.new.ready ≡ None }
        ensures limit { self.new.limit ≡ self.old.limit }
        ensures share { share.new.amount ≡ share.old.amount + 1 }
        ensures parts { share.new.parts ≡ share.old.parts }
    {
        let Book {
            alloc,
            balancer,
            tally,
            count,
            log,
            spare,
            calls,
            ..
        } = self;
        let Some(EntryRoom { event: copy, room }) = spare.take() else {
            unreachable!()
        };
        let answer = balancer.step_counted(event, tally, noted);
        count_call(count, calls, share);
        log.push_reserved(LogEntry {
            seat,
            event: copy,
            answer: room.copied(*alloc, &answer),
        });
        answer
    }

    /// Whether the book answers a next call of which the log has no entry.
    #[inline(always)]
    pub(crate) fn is_past(&self) -> bool
        ensures past { IsTrue result → self.now.limit ≤ self.now.count }
        ensures room { IsTrue result → self.now.count < 2 ^ 64 - 1 }
    {
        self.is_full() && self.count < u64::MAX
    }

    /// A call past the log's limit. The answer is written where it is to stand.
    #[inline(always)]
    pub(crate) fn take_past(
        &mut self,
        share: &mut Share<J>,
        event: Event,
        noted: &mut Noted,
        answer: &mut Answer,
    )
        requires part { 0 < share.old.parts }
        requires past { self.old.limit ≤ self.old.count }
        requires room { self.old.count < 2 ^ 64 - 1 }
        ensures step { Answers self.old.balancer event answer.new self.new.balancer }
        ensures noted { IsNoted self.old.balancer event answer.new noted.new }
        ensures counts { Counts self.old.balancer event answer.new self.old.tally self.new.tally }
        ensures count { self.new.count ≡ self.old.count + 1 }
        ensures log { self.new.log ≡ self.old.log }
        ensures ready { self.new.ready ≡ self.old.ready }
        ensures limit { self.new.limit ≡ self.old.limit }
        ensures share { share.new.amount ≡ share.old.amount + 1 }
        ensures parts { share.new.parts ≡ share.old.parts }
    {
        let Book {
            balancer,
            tally,
            count,
            calls,
            ..
        } = self;
        count_call(count, calls, share);
        balancer.step_into(event, tally, noted, answer);
    }
}

impl<J: Naming> Book<J> {
    /// The log.
    pub(crate) fn log(&self) -> &[LogEntry]
        ensures { result.now ≡ self.now.log }
    {
        self.log.as_slice()
    }

    /// The balancer.
    pub(crate) fn balancer(&self) -> &Balancer
        ensures { result.now ≡ self.now.balancer }
    {
        &self.balancer
    }

    /// Gives back the memory of up to so many replies that were expunged or went with their cache.
    /// It is no call, and nothing that a call sees changes.
    pub(crate) fn sweep(&mut self, most: usize) -> Swept
        ensures { self.new ≡ self.old }
    {
        self.balancer.sweep(most)
    }

    /// A law: the counts are those of a run from the opening to the balancer, of as many events as
    /// there were calls, those of rules, servers and caches too. It does nothing.
    pub fn law_of_counts(&self)
        ensures { ∥ Counted J.opening self.now.count self.now.balancer self.now.tally ∥₁ }
    {
        // Read, so that what the book keeps true is at hand.
        let _ = self.log.len();
    }

    /// What was counted of the calls.
    pub(crate) fn tally(&self) -> &Tally
        ensures { result.now ≡ self.now.tally }
    {
        &self.tally
    }

    /// Whether the log has all that its limit allows.
    #[inline(always)]
    pub(crate) fn is_full(&self) -> bool
        ensures full { IsTrue result ↔ (self.now.limit ≤ self.now.count) }
        ensures last { self.now.count ≡ 2 ^ 64 - 1 → IsTrue result }
        ensures named { self.now.limit ≡ J.limit }
    {
        self.count >= self.limit
    }

    /// What the book leaves, once all shares of its calls are in one.
    pub(crate) fn closed(self, mut all: Share<J>) -> Audit
        requires parts { all.parts ≡ J.parts }
        ensures count { result.count ≡ all.amount }
        ensures log { result.log.items ≡ self.log }
        ensures filled { vec_len result.log ≡ min result.count J.limit }
        ensures seated { All (λ e. e.seat.0 < J.seats) result.log.items }
        ensures told { ∥ Keeps J.opening J.limit result.count result.log.items result.balancer ∥₁ }
    {
        let Book {
            balancer,
            count,
            log,
            mut calls,
            ..
        } = self;
        calls.audit(&mut all);
        Audit {
            count,
            log,
            balancer,
        }
    }
}

/// Counts a call, in the book and in the share.
#[inline(always)]
fn count_call<J: Naming>(count: &mut u64, calls: &mut ledger::Book<J>, share: &mut Share<J>)
    requires part { 0 < share.old.parts }
    requires room { count.old < 2 ^ 64 - 1 }
    ensures count { count.new ≡ count.old + 1 }
    ensures total { calls.new.total ≡ calls.old.total + 1 }
    ensures share { share.new.amount ≡ share.old.amount + 1 }
    ensures parts { share.new.parts ≡ share.old.parts }
{
    calls.add(share, 1);
    *count += 1;
}

/// Room for one more entry of a log.
fn room_for(alloc: Global, log: &mut Vec<LogEntry>, event: &Event) -> Result<EntryRoom, AllocError>
    ensures spare { IfOk result (λ spare. spare.event ≡ event.now) }
    ensures room { OnOk result (vec_len log.new < vec_capacity log.new) }
    ensures items { log.new.items ≡ log.old.items }
    ensures len { vec_len log.new ≡ vec_len log.old }
    ensures capacity { vec_capacity log.old ≤ vec_capacity log.new }
{
    log.reserve(1)?;
    EntryRoom::take(alloc, event)
}
