//! The desk: one balancer that many threads call.

ghost use Rattle.std.specs.Prelude.{All, IfErr, IfOk, IfSome, IsErrAnd, IsSome, IsTrue, OnErr, OnOk, length, map, min, sum_by, vec_len, ◌+◌, ◌-◌, ◌<◌, ◌==◌, ◌^◌, ◌≡◌, ◌↔◌, ◌≤◌, []};
ghost use Rattle.std.specs.List.{list_any, range_with_len};
ghost use Rattle.lb_step.specs.Plain.{Plain as State};
ghost use Rattle.lb_step.specs.Snapshot.{IsShown, snapshot_of};
ghost use Rattle.lb_step.specs.Step.{Answers};
ghost use Rattle.lb_desk.specs.Book.{Booked, Counted, Keeps};
ghost use Rattle.lb_desk.specs.Entry.{TellsCaches, TellsHits, receipts_of};
ghost use Rattle.lb_desk.specs.Desk.{IsStep, OnceReturnsAtBoth, ReceiptsAfter, SameReceipts};
ghost use Rattle.lb_desk.specs.Seat.{AreAll};
ghost use Rattle.lb_desk.specs.declared.fault.CloseFault.TheVariants.{MissingSeat};
ghost use Rattle.lb_desk.specs.declared.fault.DeskFault.TheVariants.{CountFull};

use crate::agree::all_agree;
use crate::audit::Audit;
use crate::book::{Answered, Book, Receipts};
use crate::entry::SeatId;
use crate::fault::{CloseFault, DeskFault};
use crate::naming::{Naming, Parted};
use crate::seat::{Account, Seat};
use lb_cache::Swept;
use lb_core::{
    Answer, Balancer, Event, Noted, Plain, Tally, cached_answers_are_kept_replies,
    hits_come_from_replies,
};
use std::alloc::{AllocError, Global};
use std::hint::spin_loop;
use std::sync::atomic::{AtomicBool, Ordering};
use std::sync::ledger::{Blank, Share};
use std::sync::{Mutex, MutexGuard, Wait};

/// How often a caller tries to take the lock before it sleeps, and how many pauses it makes between
/// two tries.
const TRIES: u32 = 200;

const PAUSES: u32 = 4;

/// Of so many replies a sweep gives the memory back: it holds the lock for some 0.3 ms.
const MOST_SWEPT: usize = 64;

/// What a call knows before the lock.
#[derive(Drop)]
struct BeforeLock<'a, R> {
    /// What the caller's thread waits by.
    rt: &'a R,
    /// Whether the log is said to be full: a hint, on which no answer depends.
    is_full: bool,
}

/// A balancer that many threads call, each by a seat of its own. Each call is one step of the
/// balancer, one after the other.
#[derive(Drop)]
pub struct Desk<J: Naming> {
    alloc: Global,
    book: Mutex<Book<J>>,
    opening: Plain,
    seats: usize,
    /// Whether the log has all that its limit allows: a hint, so that no room is taken in vain. No
    /// answer depends on it.
    is_full: AtomicBool,
    parted: Parted<J>,
    ghost seated: { seats ≡ J.seats },
    ghost opened: { opening ≡ J.opening },
}

/// What a desk has besides its book: a snapshot of its balancer, and its seats.
fn beside<J: Naming>(
    alloc: Global,
    balancer: &Balancer,
    rest: Share<J>,
    seats: u8,
) -> Result<(Plain, Vec<Seat<J>>), AllocError>
    requires parts { (rest.parts ≡ seats) × (rest.amount ≡ 0) }
    requires seats { J.seats ≡ seats }
    ensures opening { IfOk result (λ r. (r.0 ≡ snapshot_of balancer.now) × IsShown balancer.now) }
    ensures numbers { IfOk result (λ r. map (λ s. s.number.0) r.1.items ≡ range_with_len 0 seats) }
    ensures idle { IfOk result (λ r. All (λ s. (s.calls ≡ 0) × (s.receipts ≡ [])) r.1.items) }
{
    Ok((balancer.snapshot(alloc)?, seats_by(alloc, rest, seats)?))
}

/// So many seats without calls, each with its part of this share.
fn seats_by<J: Naming>(
    alloc: Global,
    mut rest: Share<J>,
    seats: u8,
) -> Result<Vec<Seat<J>>, AllocError>
    requires parts { (rest.parts ≡ seats) × (rest.amount ≡ 0) }
    requires seats { J.seats ≡ seats }
    ensures numbers { IfOk result (λ all. map (λ s. s.number.0) all.items ≡ range_with_len 0 seats) }
    ensures idle { IfOk result (λ all. All (λ s. (s.calls ≡ 0) × (s.receipts ≡ [])) all.items) }
{
    let mut all = Vec::with_capacity(alloc, usize::from(seats))?;
    for number in 0..seats {
        let share = rest.split_off(1, 0);
        all.push(Seat::new(alloc, SeatId(number), share))?;
    }
    Ok(all)
}

impl<J: Naming> Desk<J> {
    /// A desk with its seats, whose log has at most so many calls. The one error is lack of memory.
    pub fn made(
        alloc: Global,
        blank: Blank,
        balancer: Balancer,
        limit: u64,
        seats: u8,
    ) -> Result<(Desk<J>, Vec<Seat<J>>), AllocError>
        requires name { blank.name ≡ J.name }
        requires parts { (blank.parts ≡ J.parts) × (J.parts ≡ J.seats) }
        requires seats { J.seats ≡ seats }
        requires some { (1 ≤ seats) × (seats ≤ 64) }
        requires limit { J.limit ≡ limit }
        requires opening { J.opening ≡ snapshot_of balancer }
        ensures numbers { IfOk result (λ r. map (λ s. s.number.0) r.1.items ≡ range_with_len 0 seats) }
        ensures idle { IfOk result (λ r. All (λ s. (s.calls ≡ 0) × (s.receipts ≡ [])) r.1.items) }
    {
        let (calls, rest) = blank.open::<J>();
        match beside(alloc, &balancer, rest, seats) {
            Ok((opening, all)) => {
                let book = Book::new(alloc, balancer, limit, calls);
                Ok((Desk::of(alloc, book, opening, seats, limit), all))
            }
            Err(refused) => Err(refused),
        }
    }

    /// A desk over this book, whose log has at most so many calls.
    fn of(alloc: Global, book: Book<J>, opening: Plain, seats: u8, limit: u64) -> Desk<J>
        requires seats { J.seats ≡ seats }
        requires parts { (J.parts ≡ J.seats) × (0 < J.seats) }
        requires opening { J.opening ≡ opening }
    {
        Desk {
            alloc,
            book: Mutex::new(book),
            opening,
            seats: usize::from(seats),
            is_full: AtomicBool::new(limit == 0),
            parted: Parted::new(),
        }
    }

    /// The snapshot of the balancer when the desk was made.
    pub fn opening(&self) -> &Plain
        ensures { result.now ≡ J.opening }
    {
        &self.opening
    }
}

impl<J: Naming> Desk<J> {
    /// One call, by any thread: one step of the balancer. The seat counts it, and has a receipt of
    /// it where the log has the call: what the book answers carries the ticket of a logged call,
    /// and only the seat's receipts can use that up, so that no receipt can be left out. A refused
    /// event comes back, and nothing was asked of the balancer. Lack of memory is met only while
    /// the log takes calls.
    #[inline(always)]
    pub fn call<R: Wait>(
        &self,
        rt: &R,
        seat: &mut Seat<J>,
        event: Event,
    ) -> Result<Answer, (DeskFault, Event)>
        ensures number { seat.new.number ≡ seat.old.number }
        ensures calls { OnOk result (seat.new.calls ≡ seat.old.calls + 1) }
        ensures receipts { IfOk result (λ answer. ReceiptsAfter J.limit event answer seat.old.receipts seat.new.receipts) }
        ensures full { seat.old.calls ≡ 2 ^ 64 - 1 → IsErrAnd result (λ fault. fault.0 ≡ CountFull) }
        ensures back { IfErr result (λ fault. fault.1 ≡ event) }
        ensures same { OnErr result (seat.new ≡ seat.old) }
    {
        self.call_hinted(rt, seat, event, self.is_full.load(Ordering::SeqCst))
    }

    /// The same call. It notes what its step leaves beside the plain state, as of a query that
    /// ended its server and when it was sent.
    #[inline(always)]
    pub fn call_noted<R: Wait>(
        &self,
        rt: &R,
        seat: &mut Seat<J>,
        event: Event,
        noted: &mut Noted,
    ) -> Result<Answer, (DeskFault, Event)>
        ensures number { seat.new.number ≡ seat.old.number }
        ensures calls { OnOk result (seat.new.calls ≡ seat.old.calls + 1) }
        ensures receipts { IfOk result (λ answer. ReceiptsAfter J.limit event answer seat.old.receipts seat.new.receipts) }
        ensures noted { IfOk result (λ answer. IsStep event answer noted.new) }
        ensures full { seat.old.calls ≡ 2 ^ 64 - 1 → IsErrAnd result (λ fault. fault.0 ≡ CountFull) }
        ensures back { IfErr result (λ fault. fault.1 ≡ event) }
        ensures same { OnErr result (seat.new ≡ seat.old) }
    {
        let mut answer = Answer::Quiet;
        match self.call_into(rt, seat, event, noted, &mut answer) {
            Ok(()) => Ok(answer),
            Err(back) => Err(back),
        }
    }

    /// The same call, which writes the answer where it is to stand: an answer is large, and each
    /// function that hands one on copies it. With a refusal nothing is said of what stands there.
    #[inline(always)]
    pub fn call_into<R: Wait>(
        &self,
        rt: &R,
        seat: &mut Seat<J>,
        event: Event,
        noted: &mut Noted,
        answer: &mut Answer,
    ) -> Result<(), (DeskFault, Event)>
        ensures number { seat.new.number ≡ seat.old.number }
        ensures calls { OnOk result (seat.new.calls ≡ seat.old.calls + 1) }
        ensures receipts { OnOk result (ReceiptsAfter J.limit event answer.new seat.old.receipts seat.new.receipts) }
        ensures noted { OnOk result (IsStep event answer.new noted.new) }
        ensures full { seat.old.calls ≡ 2 ^ 64 - 1 → IsErrAnd result (λ fault. fault.0 ≡ CountFull) }
        ensures back { IfErr result (λ fault. fault.1 ≡ event) }
        ensures same { OnErr result (seat.new ≡ seat.old) }
    {
        let is_full = self.is_full.load(Ordering::SeqCst);
        self.called(BeforeLock { rt, is_full }, seat, event, noted, answer)
    }

    /// The same call, and what a reader makes of the balancer and of the answer right after its own
    /// step, under the same lock. The reader has both by reference, so that nothing of them changes.
    pub fn call_then<R: Wait, T, F: FnOnce(&Balancer, &Answer) -> T>(
        &self,
        rt: &R,
        seat: &mut Seat<J>,
        event: Event,
        noted: &mut Noted,
        reader: F,
    ) -> Result<(Answer, T), (DeskFault, Event)>
        requires { F.IsAlwaysCallable reader }
        ensures number { seat.new.number ≡ seat.old.number }
        ensures calls { OnOk result (seat.new.calls ≡ seat.old.calls + 1) }
        ensures receipts { IfOk result (λ r. ReceiptsAfter J.limit event r.0 seat.old.receipts seat.new.receipts) }
        ensures noted { IfOk result (λ r. IsStep event r.0 noted.new) }
        ensures read { IfOk result (λ r. (old new : State) × Answers old event r.0 new × OnceReturnsAtBoth F.FnOnce reader new r.0 r.1) }
        ensures full { seat.old.calls ≡ 2 ^ 64 - 1 → IsErrAnd result (λ fault. fault.0 ≡ CountFull) }
        ensures back { IfErr result (λ fault. fault.1 ≡ event) }
        ensures same { OnErr result (seat.new ≡ seat.old) }
    {
        let is_full = self.is_full.load(Ordering::SeqCst);
        self.called_with_room(BeforeLock { rt, is_full }, seat, event, noted, reader)
    }

    /// The same call, by the caller's own hint whether the log is full. No answer depends on it: it
    /// says alone whether room for the receipt is taken before the lock, or under it where the log
    /// takes the call after all. `call` takes the desk's hint.
    #[inline(always)]
    pub fn call_hinted<R: Wait>(
        &self,
        rt: &R,
        seat: &mut Seat<J>,
        event: Event,
        is_full: bool,
    ) -> Result<Answer, (DeskFault, Event)>
        ensures number { seat.new.number ≡ seat.old.number }
        ensures calls { OnOk result (seat.new.calls ≡ seat.old.calls + 1) }
        ensures receipts { IfOk result (λ answer. ReceiptsAfter J.limit event answer seat.old.receipts seat.new.receipts) }
        ensures full { seat.old.calls ≡ 2 ^ 64 - 1 → IsErrAnd result (λ fault. fault.0 ≡ CountFull) }
        ensures back { IfErr result (λ fault. fault.1 ≡ event) }
        ensures same { OnErr result (seat.new ≡ seat.old) }
    {
        let (mut noted, mut answer) = (Noted::none(), Answer::Quiet);
        match self.called(
            BeforeLock { rt, is_full },
            seat,
            event,
            &mut noted,
            &mut answer,
        ) {
            Ok(()) => Ok(answer),
            Err(back) => Err(back),
        }
    }

    /// A call by a hint, with what its step leaves. Once the log is full and the seat has given back
    /// its room for a receipt, the answer alone is written, and nothing is made or cleared that only
    /// a logged call has.
    #[inline(always)]
    fn called<R: Wait>(
        &self,
        before: BeforeLock<'_, R>,
        seat: &mut Seat<J>,
        event: Event,
        noted: &mut Noted,
        answer: &mut Answer,
    ) -> Result<(), (DeskFault, Event)>
        ensures number { seat.new.number ≡ seat.old.number }
        ensures calls { OnOk result (seat.new.calls ≡ seat.old.calls + 1) }
        ensures receipts { OnOk result (ReceiptsAfter J.limit event answer.new seat.old.receipts seat.new.receipts) }
        ensures noted { OnOk result (IsStep event answer.new noted.new) }
        ensures full { seat.old.calls ≡ 2 ^ 64 - 1 → IsErrAnd result (λ fault. fault.0 ≡ CountFull) }
        ensures back { IfErr result (λ fault. fault.1 ≡ event) }
        ensures same { OnErr result (seat.new ≡ seat.old) }
    {
        if before.is_full && seat.calls < u64::MAX && !seat.account.receipts.has_room() {
            let mut guard = self.entered(before.rt);
            let book = &mut *guard;
            if book.is_past() {
                seat.calls += 1;
                book.take_past(&mut seat.account.share, event, noted, answer);
                return Ok(());
            }
        }
        match self.called_with_room(before, seat, event, noted, |_balancer, _answer| ()) {
            Ok((given, ())) => {
                *answer = given;
                Ok(())
            }
            Err(back) => Err(back),
        }
    }

    /// A call of which the log may have an entry: room for its receipt is taken. A reader has the
    /// balancer and the answer right after its step.
    #[inline(never)]
    fn called_with_room<R: Wait, T, F: FnOnce(&Balancer, &Answer) -> T>(
        &self,
        before: BeforeLock<'_, R>,
        seat: &mut Seat<J>,
        event: Event,
        noted: &mut Noted,
        reader: F,
    ) -> Result<(Answer, T), (DeskFault, Event)>
        requires { F.IsAlwaysCallable reader }
        ensures number { seat.new.number ≡ seat.old.number }
        ensures calls { OnOk result (seat.new.calls ≡ seat.old.calls + 1) }
        ensures receipts { IfOk result (λ r. ReceiptsAfter J.limit event r.0 seat.old.receipts seat.new.receipts) }
        ensures noted { IfOk result (λ r. IsStep event r.0 noted.new) }
        ensures read { IfOk result (λ r. (old new : State) × Answers old event r.0 new × OnceReturnsAtBoth F.FnOnce reader new r.0 r.1) }
        ensures full { seat.old.calls ≡ 2 ^ 64 - 1 → IsErrAnd result (λ fault. fault.0 ≡ CountFull) }
        ensures back { IfErr result (λ fault. fault.1 ≡ event) }
        ensures same { OnErr result (seat.new ≡ seat.old) }
    {
        let Seat { account, calls, .. } = seat;
        if *calls == u64::MAX {
            return Err((DeskFault::CountFull, event));
        }
        let (answered, made) = self.answered(before, account, event, noted, reader)?;
        *calls += 1;
        Ok((account.receipts.keep(self.alloc, answered), made))
    }

    /// What a call does at the book: room for its receipt is taken, and the rest is done under the
    /// lock. The call that fills the log says so to those that follow.
    #[inline(always)]
    fn answered<R: Wait, T, F: FnOnce(&Balancer, &Answer) -> T>(
        &self,
        before: BeforeLock<'_, R>,
        account: &mut Account<J>,
        event: Event,
        noted: &mut Noted,
        reader: F,
    ) -> Result<(Answered, T), (DeskFault, Event)>
        requires reader { F.IsAlwaysCallable reader }
        requires part { 0 < account.old.share.parts }
        requires seat { account.old.number.0 < J.seats }
        ensures noted { IfOk result (λ r. IsStep event r.0.answer noted.new) }
        ensures read { IfOk result (λ r. (old new : State) × Answers old event r.0.answer new × OnceReturnsAtBoth F.FnOnce reader new r.0.answer r.1) }
        ensures share { OnOk result (account.new.share.amount ≡ account.old.share.amount + 1) }
        ensures parts { account.new.share.parts ≡ account.old.share.parts }
        ensures number { account.new.number ≡ account.old.number }
        ensures ticket { IfOk result (λ r. IfSome r.0.ticket (λ ticket. (ticket.place < J.limit) × (ticket.event ≡ event))) }
        ensures room { IfOk result (λ r. IsSome r.0.ticket → IsSome account.new.receipts.room) }
        ensures kept { SameReceipts account.old.receipts account.new.receipts }
        ensures back { IfErr result (λ fault. fault.1 ≡ event) }
        ensures same { OnErr result (account.new.share ≡ account.old.share) }
    {
        let room = prepared(&mut account.receipts, self.alloc, before.is_full);
        let mut guard = self.entered(before.rt);
        let book = &mut *guard;
        let answered = book.answer(account, event, room, noted)?;
        if book.is_full() && answered.is_logged() {
            self.is_full.store(true, Ordering::SeqCst);
        }
        let made = reader(book.balancer(), answered.answer());
        Ok((answered, made))
    }
}

impl<J: Naming> Desk<J> {
    /// What a reader makes of the balancer and of what was counted, under the lock. It is no call
    /// and needs no seat. The reader has both by reference, so that nothing of them changes.
    pub fn read<R: Wait, T, F: FnOnce(&Balancer, &Tally) -> T>(&self, rt: &R, reader: F) -> T
        requires { F.IsAlwaysCallable reader }
        ensures { (book : Booked) × OnceReturnsAtBoth F.FnOnce reader book.balancer book.tally result × ∥ Counted J.opening book.count book.balancer book.tally ∥₁ }
    {
        let guard = self.entered(rt);
        let book = &*guard;
        book.law_of_counts();
        reader(book.balancer(), book.tally())
    }
}

impl<J: Naming> Desk<J> {
    /// Gives back the memory of some replies that were expunged or went with their cache. Whether
    /// more is to be given back. It is no call and needs no seat, and what a call sees stays as it
    /// is. A cache that was emptied is dropped after the lock.
    pub fn sweep<R: Wait>(&self, rt: &R) -> bool {
        self.swept(rt).more
    }

    /// What a sweep under the lock leaves.
    fn swept<R: Wait>(&self, rt: &R) -> Swept {
        let mut guard = self.entered(rt);
        let book = &mut *guard;
        book.sweep(MOST_SWEPT)
    }
}

impl<J: Naming> Desk<J> {
    /// Takes the lock.
    #[inline(always)]
    fn entered<R: Wait>(&self, rt: &R) -> MutexGuard<'_, Book<J>> {
        if let Some(guard) = self.book.try_lock() {
            return guard;
        }
        self.entered_late(rt)
    }

    /// Takes the lock that another thread has. A call holds it for about a microsecond, so it is
    /// tried for a while. A thread that has slept for a lock makes its release a call of the
    /// system, which wakes the next one: so each call of a row would sleep.
    #[inline(never)]
    fn entered_late<R: Wait>(&self, rt: &R) -> MutexGuard<'_, Book<J>> {
        for _ in 0..TRIES {
            for _ in 0..PAUSES {
                spin_loop();
            }
            if let Some(guard) = self.book.try_lock() {
                return guard;
            }
        }
        self.book.lock(rt)
    }
}

/// Takes room for a receipt before the lock, unless the log is said to be full.
#[inline(always)]
fn prepared(receipts: &mut Receipts, alloc: Global, is_full: bool) -> Result<(), AllocError>
    ensures { SameReceipts receipts.old receipts.new }
{
    if is_full {
        return Ok(());
    }
    receipts.prepare(alloc)
}

impl<J: Naming> Desk<J> {
    /// Ends the desk, once its callers have ended: its log, which is true, and in which each seat's
    /// receipts are its entries. The desk and its seats are spent either way. As none of a desk's
    /// seats can be made twice, a number that stands twice means that another seat is missing.
    pub fn close(self, seats: Vec<Seat<J>>) -> Result<Audit, CloseFault>
        ensures missing { IsErrAnd result (λ fault. fault ≡ MissingSeat) ↔ (AreAll J.seats seats.items → ⊥) }
        ensures count { IfOk result (λ audit. audit.count ≡ sum_by (λ s. s.calls) seats.items) }
        ensures filled { IfOk result (λ audit. vec_len audit.log ≡ min audit.count J.limit) }
        ensures seated { IfOk result (λ audit. All (λ e. e.seat.0 < J.seats) audit.log.items) }
        ensures told { IfOk result (λ audit. ∥ Keeps J.opening J.limit audit.count audit.log.items audit.balancer ∥₁) }
        ensures caches { IfOk result (λ audit. J.opening.outstanding ≡ [] → J.opening.kept ≡ [] → ∥ TellsCaches J.opening audit.log.items ∥₁) }
        ensures hits { IfOk result (λ audit. ∥ TellsHits J.opening audit.log.items ∥₁) }
        ensures receipts { IfOk result (λ audit. All (λ s. s.receipts ≡ receipts_of s.number audit.log.items) seats.items) }
        ensures whole { IfOk result (λ audit. audit.count ≤ J.limit → All (λ s. length s.receipts ≡ s.calls) seats.items) }
    {
        let Desk {
            book,
            seats: number,
            parted,
            ..
        } = self;
        // Laws, which do nothing.
        cached_answers_are_kept_replies();
        hits_come_from_replies();
        parted.law_of_parts();
        if !are_all(seats.as_slice(), number) {
            return Err(CloseFault::MissingSeat);
        }
        few_receipts(seats.as_slice());
        let book = book.into_inner();
        if !all_agree(book.log(), seats.as_slice()) {
            drop(book);
            return Err(CloseFault::Differs);
        }
        Ok(book.closed(gathered(seats)))
    }
}

/// Whether each number below a count is that of one of the seats.
fn are_all<J: Naming>(seats: &[Seat<J>], count: usize) -> bool
    ensures all { IsTrue result → AreAll count seats.now }
    ensures found { AreAll count seats.now → IsTrue result }
{
    for number in 0..count {
        if !has_number(seats, number) {
            return false;
        }
    }
    true
}

/// Whether a number is that of one of the seats.
fn has_number<J: Naming>(seats: &[Seat<J>], number: usize) -> bool
    ensures { result ≡ list_any (λ s. number == s.number.0) seats.now }
{
    seats
        .iter()
        .any(|seat| number == usize::from(seat.number().0))
}

/// A law: no seat has more receipts than calls.
fn few_receipts<J: Naming>(seats: &[Seat<J>])
    ensures { All (λ s. length s.receipts ≤ s.calls) seats.now }
{
    for seat in seats {
        seat.law_of_receipts();
    }
}

/// The shares of all seats in one. There are no more of them than the ledger has parts.
fn gathered<J: Naming>(mut seats: Vec<Seat<J>>) -> Share<J>
    requires some { 0 < vec_len seats }
    requires one { 0 < J.parts }
    ensures parts { result.parts ≡ vec_len seats }
    ensures apart { vec_len seats ≤ J.parts }
    ensures amount { result.amount ≡ sum_by (λ s. s.calls) seats.items }
{
    let Some(Seat { account, .. }) = seats.pop() else {
        unreachable!()
    };
    let Account { share: mut all, .. } = account;
    while let Some(Seat { account, .. }) = seats.pop() {
        let Account { share, .. } = account;
        all.merge(share);
    }
    all
}
