//! What the callers of a desk do, each by a seat of its own. None of it has a clause, and all but
//! `AtDesk` knows of a desk and its seat no more than `Calls` says: what a type is made of is
//! looked at in each function that names it.

use crate::events::{query, rule_for_all};
use lb_chain::{Action, ChainFault};
use lb_core::{Answer, EditFault, Event};
use lb_desk::{Desk, DeskFault, Naming, Seat};
use lb_servers::PoolName;
use std::alloc::Global;
use std::sync::Wait;
use std::sync::atomic::{AtomicBool, Ordering};
use std::thread;
use std::time::{Clock, Duration};

/// What one caller does.
#[derive(Clone, Copy)]
pub(crate) enum Caller {
    /// Nothing.
    Rests,
    /// It asks so often what time brings.
    Ticks(u64),
    /// It does so, and at each call is told the wrong thing of the log, which has room for so many:
    /// that it is full while it is not, and that it is not once it is.
    IsMisled(u64, u64),
    /// It asks so many queries, each of them once more if memory was lacking for it.
    Asks(u64),
    /// It asks three queries, each of them once more where it was refused. A refused call has to
    /// change nothing.
    AsksAgain,
    /// It adds so many rules that do nothing, likewise.
    Edits(u64),
    /// It adds a rule that drops every query.
    Drops,
    /// It makes two calls, the second one only once the caller of the other flag has had its first.
    /// Whether its own flag is the first one.
    Waits(bool),
}

/// Which of two callers had their first call.
#[derive(Drop)]
pub(crate) struct Flags {
    first: AtomicBool,
    second: AtomicBool,
}

impl Flags {
    /// Neither of them.
    pub(crate) fn new() -> Flags {
        Flags {
            first: AtomicBool::new(false),
            second: AtomicBool::new(false),
        }
    }
}

/// Makes calls.
pub(crate) trait Calls {
    /// A call. If it is refused, the event comes back.
    fn call(&mut self, event: Event) -> Result<Answer, (DeskFault, Event)>;

    /// A call that is told whether the log is full, rightly or not.
    fn call_hinted(&mut self, event: Event, is_full: bool) -> Result<Answer, (DeskFault, Event)>;

    /// How many calls were answered, and how many receipts there are of them.
    fn counts(&self) -> (u64, usize);
}

/// Makes calls of a desk from a seat.
#[derive(Drop)]
pub(crate) struct AtDesk<'a, R, J: Naming> {
    pub(crate) rt: &'a R,
    pub(crate) desk: &'a Desk<J>,
    pub(crate) seat: &'a mut Seat<J>,
}

impl<R: Wait, J: Naming> Calls for AtDesk<'_, R, J> {
    fn call(&mut self, event: Event) -> Result<Answer, (DeskFault, Event)> {
        self.desk.call(self.rt, self.seat, event)
    }

    fn call_hinted(&mut self, event: Event, is_full: bool) -> Result<Answer, (DeskFault, Event)> {
        self.desk.call_hinted(self.rt, self.seat, event, is_full)
    }

    fn counts(&self) -> (u64, usize) {
        (self.seat.calls(), self.seat.receipts().len())
    }
}

/// Whether a caller's calls were all answered.
pub(crate) fn is_done<C: Calls, R: Wait + Clock + Eprint>(
    rt: &R,
    alloc: Global,
    calls: &mut C,
    flags: &Flags,
    caller: Caller,
) -> bool {
    match caller {
        Caller::Rests => true,
        Caller::Ticks(count) => has_ticked(calls, count),
        Caller::IsMisled(count, limit) => has_been_misled(calls, count, limit),
        Caller::Asks(count) => has_asked(alloc, calls, count),
        Caller::AsksAgain => has_asked_again(rt, alloc, calls),
        Caller::Edits(count) => has_edited(alloc, calls, count),
        Caller::Drops => has_ruled(alloc, calls, 1, Action::Drop),
        Caller::Waits(true) => has_waited(rt, calls, &flags.first, &flags.second),
        Caller::Waits(false) => has_waited(rt, calls, &flags.second, &flags.first),
    }
}

/// Whether a tick was answered.
fn is_ticked<C: Calls>(calls: &mut C, now: u64) -> bool {
    calls.call(Event::Tick { now }).is_ok()
}

fn has_ticked<C: Calls>(calls: &mut C, count: u64) -> bool {
    for now in 0..count {
        if !is_ticked(calls, now) {
            return false;
        }
    }
    true
}

fn has_been_misled<C: Calls>(calls: &mut C, count: u64, limit: u64) -> bool {
    for now in 0..count {
        if !is_ticked_misled(calls, now, now < limit) {
            return false;
        }
    }
    true
}

/// Whether a tick was answered, by this hint whether the log is full.
fn is_ticked_misled<C: Calls>(calls: &mut C, now: u64, is_full: bool) -> bool {
    calls.call_hinted(Event::Tick { now }, is_full).is_ok()
}

fn has_asked<C: Calls>(alloc: Global, calls: &mut C, count: u64) -> bool {
    for now in 0..count {
        if !(is_asked(alloc, calls, now) || is_asked(alloc, calls, now)) {
            return false;
        }
    }
    true
}

/// Whether a query was answered, for which memory sufficed.
fn is_asked<C: Calls>(alloc: Global, calls: &mut C, now: u64) -> bool {
    match query(alloc, now) {
        Ok(event) => suffices(calls, event),
        Err(_) => false,
    }
}

/// Whether memory sufficed for a call, at once or when it was made once more, and for its answer.
fn suffices<C: Calls>(calls: &mut C, event: Event) -> bool {
    match calls.call(event) {
        Ok(answer) => !lacks_memory(&answer),
        Err((DeskFault::NoMemory, back)) => calls.call(back).is_ok(),
        Err(_) => false,
    }
}

/// Whether memory was lacking for a query or an edit.
pub(crate) fn lacks_memory(answer: &Answer) -> bool {
    matches!(
        answer,
        Answer::NoMemory(_) | Answer::Refused(EditFault::Rules(ChainFault::NoMemory))
    )
}

fn has_edited<C: Calls>(alloc: Global, calls: &mut C, count: u64) -> bool {
    for now in 0..count {
        if !(has_ruled(alloc, calls, now, Action::None)
            || has_ruled(alloc, calls, now, Action::None))
        {
            return false;
        }
    }
    true
}

pub(crate) fn has_ruled<C: Calls>(
    alloc: Global,
    calls: &mut C,
    now: u64,
    action: Action<PoolName>,
) -> bool {
    match rule_for_all(alloc, now, action) {
        Some(event) => suffices(calls, event),
        None => false,
    }
}

fn has_asked_again<C: Calls, R: Eprint>(rt: &R, alloc: Global, calls: &mut C) -> bool {
    for now in 0..3 {
        if !is_asked_again(rt, alloc, calls, now) {
            return false;
        }
    }
    true
}

/// Whether a query was answered, at once or when it was asked once more.
fn is_asked_again<C: Calls, R: Eprint>(rt: &R, alloc: Global, calls: &mut C, now: u64) -> bool {
    match query(alloc, now) {
        Ok(event) => is_answered_again(rt, calls, event),
        Err(_refused) => match query(alloc, now) {
            Ok(event) => is_answered_again(rt, calls, event),
            Err(_) => false,
        },
    }
}

/// Whether a call was answered, at once or when it was made once more. It tells which was refused.
fn is_answered_again<C: Calls, R: Eprint>(rt: &R, calls: &mut C, event: Event) -> bool {
    let now = event.now();
    let before = calls.counts();
    let Err((fault, back)) = calls.call(event) else {
        return true;
    };
    let is_same = before == calls.counts() && back.now() == now;
    let is_right = is_same && matches!(fault, DeskFault::NoMemory) && calls.call(back).is_ok();
    eprintln!(rt; "refused at {now}, and answered then: {is_right}").is_ok() && is_right
}

/// How often a caller waits a millisecond for the other one.
const WAITS: u32 = 1000;

/// Whether the flag is raised, looked at again and again.
pub(crate) fn is_raised<R: Wait + Clock>(rt: &R, flag: &AtomicBool) -> bool {
    for _ in 0..WAITS {
        if flag.load(Ordering::SeqCst) {
            return true;
        }
        thread::sleep(rt, Duration::from_millis(1));
    }
    false
}

fn has_waited<C: Calls, R: Wait + Clock>(
    rt: &R,
    calls: &mut C,
    mine: &AtomicBool,
    theirs: &AtomicBool,
) -> bool {
    let is_first = has_ticked(calls, 1);
    mine.store(true, Ordering::SeqCst);
    is_first && is_raised(rt, theirs) && has_ticked(calls, 1)
}
