//! Desks whose callers go their rounds, in this thread, in two or in four. There is one function
//! that has a desk, and one that picks its name (its folder in proofs/ says so): all tests go by
//! them.

ghost use Rattle.std.specs.Prelude.{◌≡◌, ◌≤◌};
ghost use Rattle.lb_step.specs.Snapshot.{snapshot_of};

use crate::callers::{AtDesk, Caller, Flags, is_done};
use crate::loops::are_loops_done;
use lb_core::Balancer;
use lb_desk::{Audit, CloseFault, Desk, Naming, Seat, desks_cross_threads};
use std::alloc::{AllocError, Global};
use std::marker::Brand;
use std::sync::Wait;
use std::sync::ledger::Blank;
use std::thread::{Threads, join};
use std::time::Clock;

/// What the callers of a desk do, before the next round begins.
#[derive(Clone, Copy)]
pub(crate) enum Round {
    /// The one seat's caller.
    One(Caller),
    /// Those of two seats, each in a thread.
    Two(Caller, Caller),
    /// Those of four seats, each in a thread, ask so often what time brings.
    Four(u64),
    /// Four loops, two of them of datagrams, run from four seats, and answer queries that wait for
    /// one another; or their gate holds everything.
    Loops(bool),
    /// A seat is lost.
    Lose,
}

/// What was seen of what a desk leaves, or why it was not closed; none if a caller's call was not
/// answered.
pub(crate) type Seen<T> = Option<Result<T, CloseFault>>;

/// A desk over a new balancer, with so many seats and a log of this limit, and what is seen of what
/// it leaves after these rounds. What it leaves stays here, as it is much to drop.
pub(crate) fn go_round<
    R: Threads + Wait + Clock + Eprint + Sync,
    T: Drop,
    F: FnOnce(Global, &Audit) -> T,
>(rt: &R, alloc: Global, size: (u8, u64), rounds: &[Round], look: F) -> Result<Seen<T>, AllocError>
    requires size { (1 ≤ size.0) × (size.0 ≤ 64) }
    requires look { F.IsAlwaysCallable look }
{
    let balancer = Balancer::new(alloc)?;
    let blank = Blank::new(u64::from(size.0));
    let left = gone_round::<Brand, R>((rt, alloc), blank, balancer, size, rounds)?;
    Ok(match left {
        Some(Ok(audit)) => Some(Ok(look(alloc, &audit))),
        Some(Err(fault)) => Some(Err(fault)),
        None => None,
    })
}

/// The same with a name. The size is how many seats there are, and the log's limit.
fn gone_round<J: Naming + Send + Sync, R: Threads + Wait + Clock + Eprint + Sync>(
    cx: (&R, Global),
    blank: Blank,
    balancer: Balancer,
    size: (u8, u64),
    rounds: &[Round],
) -> Result<Seen<Audit>, AllocError>
    requires name { blank.name ≡ J.name }
    requires parts { (blank.parts ≡ J.parts) × (J.parts ≡ J.seats) }
    requires seats { J.seats ≡ size.0 }
    requires some { (1 ≤ size.0) × (size.0 ≤ 64) }
    requires limit { J.limit ≡ size.1 }
    requires opening { J.opening ≡ snapshot_of balancer }
{
    let (rt, alloc) = cx;
    let (count, limit) = size;
    let (desk, mut seats) = Desk::<J>::made(alloc, blank, balancer, limit, count)?;
    let are_done = are_rounds_done(rt, alloc, &desk, &mut seats, rounds);
    Ok(are_done.then_some(desk.close(seats)))
}

/// Whether all calls of these rounds were answered.
fn are_rounds_done<J: Naming + Send + Sync, R: Threads + Wait + Clock + Eprint + Sync>(
    rt: &R,
    alloc: Global,
    desk: &Desk<J>,
    seats: &mut Vec<Seat<J>>,
    rounds: &[Round],
) -> bool {
    let flags = Flags::new();
    for round in rounds {
        if !is_round_done(rt, alloc, desk, seats, &flags, *round) {
            return false;
        }
    }
    true
}

fn is_round_done<J: Naming + Send + Sync, R: Threads + Wait + Clock + Eprint + Sync>(
    rt: &R,
    alloc: Global,
    desk: &Desk<J>,
    seats: &mut Vec<Seat<J>>,
    flags: &Flags,
    round: Round,
) -> bool {
    match round {
        Round::One(caller) => is_one_done(rt, alloc, desk, seats, flags, caller),
        Round::Two(first, second) => are_two_done(rt, alloc, desk, seats, flags, (first, second)),
        Round::Four(calls) => are_four_done(rt, alloc, desk, seats, calls),
        Round::Loops(is_open) => are_loops_done(rt, alloc, desk, seats, is_open) == Ok(true),
        Round::Lose => seats.pop().is_some(),
    }
}

fn is_one_done<J: Naming, R: Wait + Clock + Eprint>(
    rt: &R,
    alloc: Global,
    desk: &Desk<J>,
    seats: &mut Vec<Seat<J>>,
    flags: &Flags,
    caller: Caller,
) -> bool {
    match seats.first_mut() {
        Some(seat) => is_done(rt, alloc, &mut AtDesk { rt, desk, seat }, flags, caller),
        None => false,
    }
}

fn are_two_done<J: Naming + Send + Sync, R: Threads + Wait + Clock + Eprint + Sync>(
    rt: &R,
    alloc: Global,
    desk: &Desk<J>,
    seats: &mut Vec<Seat<J>>,
    flags: &Flags,
    callers: (Caller, Caller),
) -> bool {
    match pair(seats) {
        Some(pair) => are_back(seats, call_both(rt, alloc, desk, pair, flags, callers)),
        None => false,
    }
}

fn are_four_done<J: Naming + Send + Sync, R: Threads + Wait + Clock + Eprint + Sync>(
    rt: &R,
    alloc: Global,
    desk: &Desk<J>,
    seats: &mut Vec<Seat<J>>,
    calls: u64,
) -> bool {
    match pair(seats) {
        Some(others) => are_others_done(rt, alloc, desk, seats, others, calls),
        None => false,
    }
}

/// The callers of these two seats, and of two more.
fn are_others_done<J: Naming + Send + Sync, R: Threads + Wait + Clock + Eprint + Sync>(
    rt: &R,
    alloc: Global,
    desk: &Desk<J>,
    seats: &mut Vec<Seat<J>>,
    others: Pair<J>,
    calls: u64,
) -> bool {
    match pair(seats) {
        Some(some) => are_all_back(seats, call_all(rt, alloc, desk, some, others, calls)),
        None => false,
    }
}

fn are_all_back<J: Naming>(seats: &mut Vec<Seat<J>>, (some, others): (Back<J>, Back<J>)) -> bool {
    are_back(seats, some) && are_back(seats, others)
}

/// The seats of two threads.
type Pair<J> = (Seat<J>, Seat<J>);

/// The same, come back from calls that were answered.
type Back<J> = (Option<Seat<J>>, Option<Seat<J>>);

/// The last two seats.
fn pair<J: Naming>(seats: &mut Vec<Seat<J>>) -> Option<Pair<J>> {
    match (seats.pop(), seats.pop()) {
        (Some(second), Some(first)) => Some((first, second)),
        _ => None,
    }
}

/// Whether two seats came back, and lie with the others.
fn are_back<J: Naming>(seats: &mut Vec<Seat<J>>, (first, second): Back<J>) -> bool {
    is_back(seats, first) && is_back(seats, second)
}

fn is_back<J: Naming>(seats: &mut Vec<Seat<J>>, seat: Option<Seat<J>>) -> bool {
    match seat {
        Some(seat) => seats.push(seat).is_ok(),
        None => false,
    }
}

/// What a thread does.
fn call<J: Naming, R: Wait + Clock + Eprint>(
    rt: &R,
    alloc: Global,
    desk: &Desk<J>,
    mut seat: Seat<J>,
    flags: &Flags,
    caller: Caller,
) -> Option<Seat<J>> {
    let mut calls = AtDesk {
        rt,
        desk,
        seat: &mut seat,
    };
    if is_done(rt, alloc, &mut calls, flags, caller) {
        Some(seat)
    } else {
        None
    }
}

/// Two threads.
fn call_both<J: Naming + Send + Sync, R: Threads + Wait + Clock + Eprint + Sync>(
    rt: &R,
    alloc: Global,
    desk: &Desk<J>,
    (first, second): Pair<J>,
    flags: &Flags,
    (one, other): (Caller, Caller),
) -> Back<J> {
    // A law, which does nothing.
    desks_cross_threads::<J>();
    join(
        rt,
        move || call(rt, alloc, desk, first, flags, one),
        move || call(rt, alloc, desk, second, flags, other),
    )
}

/// Two threads that ask so often what time brings.
fn tick_both<J: Naming + Send + Sync, R: Threads + Wait + Clock + Eprint + Sync>(
    rt: &R,
    alloc: Global,
    desk: &Desk<J>,
    first: Seat<J>,
    second: Seat<J>,
    calls: u64,
) -> Back<J> {
    let flags = Flags::new();
    let caller = Caller::Ticks(calls);
    call_both(rt, alloc, desk, (first, second), &flags, (caller, caller))
}

/// Four threads. A closure takes six values and no more, so that the search for what lets it cross
/// ends.
fn call_all<J: Naming + Send + Sync, R: Threads + Wait + Clock + Eprint + Sync>(
    rt: &R,
    alloc: Global,
    desk: &Desk<J>,
    (first, second): Pair<J>,
    (third, fourth): Pair<J>,
    calls: u64,
) -> (Back<J>, Back<J>) {
    // A law, which does nothing.
    desks_cross_threads::<J>();
    join(
        rt,
        move || tick_both(rt, alloc, desk, first, second, calls),
        move || tick_both(rt, alloc, desk, third, fourth, calls),
    )
}
