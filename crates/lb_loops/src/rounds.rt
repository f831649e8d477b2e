//! A turn of each loop, after which it waits if it did nothing.

ghost use Rattle.lb_loops.specs.Running as running;

use crate::around::Around;
use crate::fault::LoopFault;
use lb_loops_clock::{ClockLoop, clock_turn};
use lb_loops_io::{
    Datagrams, Gate, Head, Line, MAX_EVENTS_OF_TURN, Outside, Posts, Roster, Sending, Streams,
    Taker, Waker, Way, Why,
};
use lb_loops_tcp::{StreamLoop, stream_turn};
use lb_loops_udp::{DatagramLoop, datagram_turn};
use std::sync::Wait;

/// How long a loop waits at most, in milliseconds. So often idle sockets of servers are looked at.
const LONG_WAIT: u64 = 1_000;

/// How long the loop of streams waits at most, in milliseconds, while the time of a connection may
/// become over; and how long a loop waits that found no memory for a turn.
const WAIT: u64 = 100;

/// How long the clock waits while the outbox has no room for it, in milliseconds.
const FULL_WAIT: u64 = 1;

/// A loop, turn after turn.
pub(crate) trait Rounds {
    // The second is what the first has become after turns.
    ghost goes_on: { Self → Self → Type 0 };

    /// A turn. If it did nothing, the loop waits.
    fn round<R: Wait, G: Gate, W: Waker>(
        &mut self,
        rt: &R,
        around: &Around<G, W>,
        roster: &Roster,
    ) -> Result<(), LoopFault>
        ensures { goes_on self.old self.new };

    ghost stays: { (a : Self) → goes_on a a };

    ghost follows: { (a b c : Self) → goes_on a b → goes_on b c → goes_on a c };
}

impl<S: Datagrams, T: Taker, O: Outside> Rounds for DatagramLoop<S, T, O> {
    ghost goes_on = { running.DatagramsGoOn };

    ghost stays = { running.datagrams_stay };

    ghost follows = { running.datagrams_follow };

    fn round<R: Wait, G: Gate, W: Waker>(
        &mut self,
        rt: &R,
        around: &Around<G, W>,
        roster: &Roster,
    ) -> Result<(), LoopFault> {
        let report = match datagram_turn(self, roster, &around.gate) {
            Ok(report) => report,
            // Nothing was done, and a later turn does it.
            Err(_refused) => return Ok(self.wait(WAIT)?),
        };
        around.behind(&report)?;
        let is_idle = report.lines.is_empty();
        self.take_back(report.lines);
        if is_idle {
            self.wait(LONG_WAIT)?;
        }
        Ok(())
    }
}

impl<S: Streams, T: Taker, O: Outside, P: Posts> Rounds for StreamLoop<S, T, O, P> {
    ghost goes_on = { running.StreamsGoOn };

    ghost stays = { running.streams_stay };

    ghost follows = { running.streams_follow };

    fn round<R: Wait, G: Gate, W: Waker>(
        &mut self,
        rt: &R,
        around: &Around<G, W>,
        roster: &Roster,
    ) -> Result<(), LoopFault> {
        let report = match stream_turn(rt, self, roster, &around.gate) {
            Ok(report) => report,
            // Nothing was done, and a later turn does it.
            Err(_refused) => return Ok(self.wait(WAIT)?),
        };
        around.behind(&report)?;
        let is_idle = report.lines.is_empty();
        self.take_back(report.lines);
        if is_idle {
            let most = if self.is_timed() { WAIT } else { LONG_WAIT };
            self.wait(most)?;
        }
        Ok(())
    }
}

impl<S: Datagrams, P: Posts, T: Taker, O: Outside> Rounds for ClockLoop<S, P, T, O> {
    ghost goes_on = { running.ClockGoesOn };

    ghost stays = { running.clock_stays };

    ghost follows = { running.clock_follows };

    /// If it made a job, the loop of streams is woken; after a full turn the next one follows at
    /// once. While the outbox has no room for what may expire in a turn, there is none. An answer
    /// that found no memory goes to the loop of streams after the turn.
    fn round<R: Wait, G: Gate, W: Waker>(
        &mut self,
        rt: &R,
        around: &Around<G, W>,
        roster: &Roster,
    ) -> Result<(), LoopFault> {
        if !self.has_room(rt) {
            around.streams.wake();
            return Ok(self.wait(FULL_WAIT)?);
        }
        let Some(mut lines) = tick(rt, around, self, roster)? else {
            return Ok(self.wait(WAIT)?);
        };
        let wakes = lines.iter().any(is_job);
        let is_full = lines.len() >= MAX_EVENTS_OF_TURN;
        let ticked = last_tick(&lines);
        send_again(rt, self, &mut lines);
        self.take_back(lines);
        if wakes {
            around.streams.wake();
        }
        if !is_full {
            self.wait(around.patience(self, roster, ticked))?;
        }
        Ok(())
    }
}

/// A turn of the clock: its lines, after which the loop goes on. None if there was no memory for
/// its report. Then nothing was done, and a later turn does it.
fn tick<R: Wait, S: Datagrams, P: Posts, T: Taker, O: Outside, G: Gate, W: Waker>(
    rt: &R,
    around: &Around<G, W>,
    part: &mut ClockLoop<S, P, T, O>,
    roster: &Roster,
) -> Result<Option<Vec<Line>>, LoopFault>
    ensures { running.ClockGoesOn part.old part.new }
{
    match clock_turn(rt, part, roster, &around.gate) {
        Ok(report) => {
            around.behind(&report)?;
            Ok(Some(report.lines))
        }
        Err(_refused) => Ok(None),
    }
}

/// Sends the answers themselves for whose copies there was no memory. After it `lines` is empty.
fn send_again<R: Wait, S: Datagrams, P: Posts, T: Taker, O: Outside>(
    rt: &R,
    part: &mut ClockLoop<S, P, T, O>,
    lines: &mut Vec<Line>,
)
    ensures { running.ClockGoesOn part.old part.new }
{
    for _ in 0..lines.len() {
        let Some(line) = lines.pop() else {
            return;
        };
        // An outbox that became full meanwhile has no room for this one either.
        let _ = part.send_again(rt, line);
    }
}

/// The moment of the tick that lines end with.
fn last_tick(lines: &[Line]) -> Option<u64> {
    let Some(Line::Event(_, event, _, _)) = lines.last() else {
        return None;
    };
    match event.head() {
        Head::Tick(now) => Some(now),
        _ => None,
    }
}

/// Whether a line's message went to the outbox, or may go there after the turn.
fn is_job(line: &Line) -> bool {
    matches!(
        line,
        Line::Event(
            _,
            _,
            _,
            Sending::Done(Way::Outbox) | Sending::Failed(Why::NoMemory)
        ) | Line::Job(_, Sending::Done(Way::Outbox))
    )
}
