//! Calls of desks, from one thread and from several.

use crate::callers::{Caller, lacks_memory};
use crate::rounds::{Round, go_round};
use lb_core::{Answer, DropReason, Event, Note};
use lb_desk::{Audit, CloseFault, LogEntry, SeatId};
use lb_wire::RuleId;
use std::alloc::{AllocError, Global};
use std::test::Fail;

/// How many calls a desk counted, and how many its log has.
fn counts(_: Global, audit: &Audit) -> (u64, usize) {
    (audit.count, audit.log.len())
}

/// A desk's limit, its one caller, and how many calls it counted and logged.
type Row = (u64, Caller, (u64, usize));

/// Two calls past small limits, none of them refused; as many at a desk whose hint says the wrong
/// thing at each call; and a seat with thousands of receipts.
const ROWS: &[Row] = &[
    (0, Caller::Ticks(2), (2, 0)),
    (1, Caller::Ticks(3), (3, 1)),
    (2, Caller::Ticks(4), (4, 2)),
    (3, Caller::Ticks(5), (5, 3)),
    (3, Caller::IsMisled(5, 3), (5, 3)),
    (5_000, Caller::Ticks(5_000), (5_000, 5_000)),
];

#[test]
fn a_log_ends_at_its_limit(rt: HostRuntime) -> Result<(), Fail> {
    for (limit, caller, wanted) in ROWS {
        let rounds = [Round::One(*caller)];
        let seen = go_round(&rt, rt.alloc(), (1, *limit), &rounds, counts)?;
        assert!(rt; seen == Some(Ok(*wanted)), "{seen:?} at a limit of {limit}");
    }
    Ok(())
}

/// With `rt try --test --fail-alloc N` no call is refused: past its log a desk takes no memory.
#[test]
fn a_log_without_room_stays_empty(rt: HostRuntime) -> Result<(), Fail> {
    let rounds = [Round::One(Caller::Ticks(5))];
    let seen = go_round(&rt, rt.alloc(), (1, 0), &rounds, counts)?;
    assert!(rt; seen == Some(Ok((5, 0))));
    Ok(())
}

#[test]
fn a_seat_that_is_missing_is_told(rt: HostRuntime) -> Result<(), Fail> {
    let seen = go_round(&rt, rt.alloc(), (2, 1000), &[Round::Lose], counts)?;
    assert!(rt; seen == Some(Err(CloseFault::MissingSeat)));
    assert!(rt; CloseFault::MissingSeat.number() == 1);
    Ok(())
}

/// With `rt try --test --fail-alloc N` it tells which calls were refused.
#[test]
fn a_refused_call_changes_nothing(rt: HostRuntime) -> Result<(), Fail> {
    let rounds = [Round::One(Caller::AsksAgain)];
    let seen = go_round(&rt, rt.alloc(), (1, 3), &rounds, counts)?;
    assert!(rt; seen == Some(Ok((3, 3))));
    Ok(())
}

/// One thread asks, and one edits.
#[test]
fn two_threads_share_a_desk(rt: HostRuntime) -> Result<(), Fail> {
    let rounds = [Round::Two(Caller::Asks(100), Caller::Edits(100))];
    match go_round(&rt, rt.alloc(), (2, 1000), &rounds, is_shared)? {
        Some(Ok(is_shared)) => {
            assert!(rt; is_shared?);
            Ok(())
        }
        _ => Err(Fail::from("a call was refused, or the desk not closed")),
    }
}

/// Whether each of two seats had 100 calls, and the log's events and answers are equal to their
/// copies.
fn is_shared(alloc: Global, audit: &Audit) -> Result<bool, AllocError> {
    // With `rt try --test --fail-alloc N` a call that lacked memory is counted and logged besides.
    let lacked = u64::from(audit.log.iter().any(|entry| lacks_memory(&entry.answer)));
    let counts = (audit.count, calls_of(audit, 0), calls_of(audit, 1));
    Ok(counts == (200 + lacked, 100, 100) && are_copied(alloc, audit.log.as_slice())?)
}

/// How many calls of a seat the log has for which memory sufficed.
fn calls_of(audit: &Audit, seat: u8) -> usize {
    audit
        .log
        .iter()
        .filter(|entry| entry.seat == SeatId(seat) && !lacks_memory(&entry.answer))
        .count()
}

/// Whether the events and answers of the log are equal to their copies.
fn are_copied(alloc: Global, log: &[LogEntry]) -> Result<bool, AllocError> {
    for entry in log {
        if !(is_event_copied(alloc, &entry.event)? && is_answer_copied(alloc, &entry.answer)?) {
            return Ok(false);
        }
    }
    Ok(true)
}

fn is_event_copied(alloc: Global, event: &Event) -> Result<bool, AllocError> {
    let copy = event.copy(alloc).or_else(|_refused| event.copy(alloc))?;
    Ok(copy.equals(event))
}

fn is_answer_copied(alloc: Global, answer: &Answer) -> Result<bool, AllocError> {
    let copy = answer.copy(alloc).or_else(|_refused| answer.copy(alloc))?;
    Ok(copy.equals(answer))
}

/// A rule that one thread adds before it ends is met by the next query of another.
#[test]
fn a_rule_is_met_by_another_thread(rt: HostRuntime) -> Result<(), Fail> {
    let rounds = [
        Round::Two(Caller::Drops, Caller::Rests),
        Round::Two(Caller::Rests, Caller::Asks(1)),
    ];
    let seen = go_round(&rt, rt.alloc(), (2, 1000), &rounds, is_met)?;
    assert!(rt; seen == Some(Ok(true)));
    Ok(())
}

/// Whether the log has the rule, added by seat 0, and then the query of seat 1 that it dropped.
fn is_met(_: Global, audit: &Audit) -> bool {
    match audit.log.as_slice() {
        [added, asked] => {
            added.seat == SeatId(0)
                && matches!(added.answer, Answer::Edited(Note::RuleAdded(RuleId(1))))
                && asked.seat == SeatId(1)
                && matches!(asked.answer, Answer::Dropped(DropReason::Rule(RuleId(1))))
        }
        _ => false,
    }
}

/// Each of two threads waits between its calls until the other one had an answer.
#[test]
fn both_answered(rt: HostRuntime) -> Result<(), Fail> {
    let rounds = [Round::Two(Caller::Waits(true), Caller::Waits(false))];
    let seen = go_round(&rt, rt.alloc(), (2, 1000), &rounds, counts)?;
    assert!(rt; seen == Some(Ok((4, 4))));
    Ok(())
}

/// Four threads, far past the limit of the log.
#[test]
fn four_threads_share_a_desk(rt: HostRuntime) -> Result<(), Fail> {
    let seen = go_round(&rt, rt.alloc(), (4, 100), &[Round::Four(10_000)], counts)?;
    assert!(rt; seen == Some(Ok((40_000, 100))));
    Ok(())
}

/// Queries of two loops of datagrams and of the loop of streams are at their gates at once.
#[test]
fn queries_of_loops_wait_for_one_another(rt: HostRuntime) -> Result<(), Fail> {
    let seen = go_round(&rt, rt.alloc(), (4, 10), &[Round::Loops(true)], counts)?;
    let is_done = matches!(seen, Some(Ok((count, _))) if count >= 5);
    assert!(rt; is_done, "{seen:?}");
    Ok(())
}

/// The gate holds the first event: the loops end, and their seats with them.
#[test]
fn a_gate_that_holds_ends_the_loops(rt: HostRuntime) -> Result<(), Fail> {
    let seen = go_round(&rt, rt.alloc(), (4, 10), &[Round::Loops(false)], counts)?;
    assert!(rt; seen == Some(Err(CloseFault::MissingSeat)));
    Ok(())
}
