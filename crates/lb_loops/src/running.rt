//! Each loop in a thread of its own.

ghost use Rattle.std.specs.Prelude.{IfOk, ◌≤◌};
ghost use Rattle.lb_loops.specs.Running.{ReceivesOn, SendsOn};

use crate::around::Around;
use crate::fault::LoopFault;
use crate::parts::{ClockParts, DatagramParts, StreamParts};
use crate::rounds::Rounds;
use lb_loops_clock::ClockLoop;
use lb_loops_io::{Answering, Datagrams, Gate, Outside, Posts, Roster, Streams, Taker, Waker};
use lb_loops_tcp::StreamLoop;
use lb_loops_udp::DatagramLoop;
use lb_outbox::{Receiver, Sender};
use std::alloc::Global;
use std::sync::Wait;

/// Turns of a loop until the flag is set. A fault ends the other loops.
fn run<R: Wait, L: Rounds, G: Gate, W: Waker>(
    rt: &R,
    around: &Around<G, W>,
    part: &mut L,
    roster: &mut Roster,
) -> Result<(), LoopFault>
    ensures { L.goes_on part.old part.new }
{
    let ended = all_rounds(rt, around, part, roster);
    if ended.is_err() {
        around.end();
    }
    ended
}

/// The same, but a fault ends this loop alone.
fn all_rounds<R: Wait, L: Rounds, G: Gate, W: Waker>(
    rt: &R,
    around: &Around<G, W>,
    part: &mut L,
    roster: &mut Roster,
) -> Result<(), LoopFault>
    ensures { L.goes_on part.old part.new }
{
    for _ in rt.forever() {
        if around.is_over() {
            return Ok(());
        }
        around.follow(rt, roster);
        part.round(rt, around, roster)?;
    }
    unreachable!()
}

/// Turns of datagrams until the flag is set, and then the event handler.
pub(crate) fn run_datagrams<R: Wait, S: Datagrams, T: Taker, O: Outside, G: Gate, W: Waker>(
    rt: &R,
    alloc: Global,
    around: &Around<G, W>,
    parts: DatagramParts<S, T, O>,
) -> Result<T, LoopFault>
    ensures { IfOk result (λ taker. T.answered parts.taker ≤ T.answered taker) }
{
    let DatagramParts {
        sockets,
        mut roster,
        taker,
        outside,
    } = parts;
    let mut part = DatagramLoop::made(alloc, sockets, taker, outside);
    run(rt, around, &mut part, &mut roster)?;
    Ok(part.into_taker())
}

/// Turns of streams until the flag is set, and then the event handler and the receiver.
pub(crate) fn run_streams<R: Wait, S: Streams, T: Taker, O: Outside, P: Posts, G: Gate, W: Waker>(
    rt: &R,
    alloc: Global,
    around: &Around<G, W>,
    parts: StreamParts<S, T, O, P>,
) -> Result<(T, Receiver), LoopFault>
    ensures answered { IfOk result (λ r. T.answered parts.taker ≤ T.answered r.0) }
    ensures received { IfOk result (λ r. ReceivesOn parts.receiver r.1) }
{
    let StreamParts {
        sockets,
        table,
        mut roster,
        receiver,
        fronts,
        posts,
        taker,
        outside,
        idle,
    } = parts;
    let answering = Answering {
        fronts,
        posts,
        taker,
        outside,
    };
    let mut part = StreamLoop::made(alloc, (sockets, table), receiver, answering);
    part.limit_idle(idle);
    run(rt, around, &mut part, &mut roster)?;
    Ok(part.into_parts())
}

/// Turns of the clock until the flag is set, and then the event handler and the sender.
pub(crate) fn run_clock<R: Wait, S: Datagrams, T: Taker, O: Outside, P: Posts, G: Gate, W: Waker>(
    rt: &R,
    alloc: Global,
    around: &Around<G, W>,
    parts: ClockParts<S, T, O, P>,
) -> Result<(T, Sender), LoopFault>
    ensures answered { IfOk result (λ r. T.answered parts.taker ≤ T.answered r.0) }
    ensures sent { IfOk result (λ r. SendsOn parts.sender r.1) }
{
    let ClockParts {
        sockets,
        probes,
        mut roster,
        sender,
        fronts,
        posts,
        taker,
        outside,
    } = parts;
    let answering = Answering {
        fronts,
        posts,
        taker,
        outside,
    };
    let mut part = ClockLoop::made(alloc, (sockets, probes), sender, answering);
    run(rt, around, &mut part, &mut roster)?;
    Ok(part.into_parts())
}
