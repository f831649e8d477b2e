//! The loops, in threads of their own.

ghost use Rattle.std.specs.Prelude.{IfOk, map, ◌≤◌};
ghost use Rattle.std.specs.Thread.{IsSend, IsSync};
ghost use Rattle.lb_loops.specs.Running.{HaveGoneOn, ReceivesOn, SendsOn};

use crate::around::Around;
use crate::fault::LoopFault;
use crate::last_sent::LastSent;
use crate::parts::{ClockParts, DatagramParts, Ended, Parts, StreamParts};
use crate::row::run_row;
use crate::running::{run_clock, run_streams};
use lb_loops_io::{Datagrams, Gate, Outside, Posts, Streams, Taker, Waker};
use lb_outbox::{Receiver, Sender};
use lb_sends::sends_cross_threads;
use std::alloc::Global;
use std::sync::Wait;
use std::thread::{Threads, join};

/// What the loop of streams leaves, and that of the clock.
type Others<U, V> = (
    Result<(U, Receiver), LoopFault>,
    Result<(V, Sender), LoopFault>,
);

/// Runs the loops of datagrams, the loop of streams and that of the clock, each in a thread of its
/// own, until the flag of `parts` is set. Each loop owns its part. No lock is held during a turn. A
/// loop that has a fault sets the flag and wakes the others; the fault that is given is the first
/// in the order datagrams, streams, clock, and then the parts are dropped.
pub fn run_loops<
    R: Threads + Wait + Sync,
    D: Datagrams + Send,
    T: Taker + Send,
    O: Outside + Send,
    S: Streams + Send,
    U: Taker + Send,
    N: Outside + Send,
    P: Posts + Send,
    C: Datagrams + Send,
    Q: Posts + Send,
    V: Taker + Send,
    M: Outside + Send,
    G: Gate + Sync + Send,
    W: Waker + Sync + Send,
>(
    rt: &R,
    alloc: Global,
    parts: Parts<DatagramParts<D, T, O>, T, StreamParts<S, U, N, P>, ClockParts<C, V, M, Q>, G, W>,
) -> Result<Ended<T, U, V>, LoopFault>
    // No handler's count of answered calls has fallen.
    ensures datagrams { IfOk result (λ e. HaveGoneOn T.answered (map (λ part. part.taker) parts.datagrams.items) e.datagrams.items) }
    ensures streams { IfOk result (λ e. U.answered parts.streams.taker ≤ U.answered e.streams) }
    ensures clock { IfOk result (λ e. V.answered parts.clock.taker ≤ V.answered e.clock) }
    // The sender and the receiver are those that they were, and have gone on.
    ensures sender { IfOk result (λ e. SendsOn parts.clock.sender e.sender) }
    ensures receiver { IfOk result (λ e. ReceivesOn parts.streams.receiver e.receiver) }
{
    // A law, which does nothing.
    sends_cross_threads();
    let Parts {
        datagrams,
        takers,
        streams,
        clock,
        roster,
        gate,
        sends,
        stop,
        datagrams_wakers,
        streams_waker,
        clock_waker,
    } = parts;
    let around = Around {
        roster,
        gate,
        stop,
        sent: LastSent::none(),
        sends,
        datagrams: datagrams_wakers,
        streams: streams_waker,
        clock: clock_waker,
    };
    let row = (datagrams, takers);
    let (datagrams, (streams, clock)) = run_all(rt, alloc, &around, row, streams, clock);
    let datagrams = datagrams?;
    let (streams, receiver) = streams?;
    let (clock, sender) = clock?;
    Ok(Ended {
        datagrams,
        streams,
        clock,
        sender,
        receiver,
    })
}

/// One thread for each loop of datagrams, and one for each of the others.
fn run_all<
    R: Threads + Wait + Sync,
    D: Datagrams + Send,
    T: Taker + Send,
    O: Outside + Send,
    S: Streams + Send,
    U: Taker + Send,
    N: Outside + Send,
    P: Posts + Send,
    C: Datagrams + Send,
    Q: Posts + Send,
    V: Taker + Send,
    M: Outside + Send,
    G: Gate + Sync + Send,
    W: Waker + Sync + Send,
>(
    rt: &R,
    alloc: Global,
    around: &Around<G, W>,
    row: (Vec<DatagramParts<D, T, O>>, Vec<T>),
    streams: StreamParts<S, U, N, P>,
    clock: ClockParts<C, V, M, Q>,
) -> (Result<Vec<T>, LoopFault>, Others<U, V>)
    ensures datagrams { IfOk result.0 (λ all. HaveGoneOn T.answered (map (λ part. part.taker) row.0.items) all.items) }
    ensures streams { IfOk result.1.0 (λ r. (U.answered streams.taker ≤ U.answered r.0) × ReceivesOn streams.receiver r.1) }
    ensures clock { IfOk result.1.1 (λ r. (V.answered clock.taker ≤ V.answered r.0) × SendsOn clock.sender r.1) }
{
    let (datagrams, takers) = row;
    join(
        rt,
        move || run_row(rt, alloc, around, datagrams, takers),
        move ||
            requires streams { IsSend S.row × IsSend U.row × IsSend N.row × IsSend P.row }
            requires clock { IsSend C.row × IsSend V.row × IsSend M.row × IsSend Q.row }
            requires around { IsSend G.row × IsSend W.row × IsSync G.row × IsSync W.row }
        { run_others(rt, alloc, around, streams, clock) },
    )
}

/// One thread for the loop of streams, and one for that of the clock.
fn run_others<
    R: Threads + Wait + Sync,
    S: Streams + Send,
    U: Taker + Send,
    N: Outside + Send,
    P: Posts + Send,
    C: Datagrams + Send,
    Q: Posts + Send,
    V: Taker + Send,
    M: Outside + Send,
    G: Gate + Sync + Send,
    W: Waker + Sync + Send,
>(
    rt: &R,
    alloc: Global,
    around: &Around<G, W>,
    streams: StreamParts<S, U, N, P>,
    clock: ClockParts<C, V, M, Q>,
) -> Others<U, V>
    ensures streams { IfOk result.0 (λ r. (U.answered streams.taker ≤ U.answered r.0) × ReceivesOn streams.receiver r.1) }
    ensures clock { IfOk result.1 (λ r. (V.answered clock.taker ≤ V.answered r.0) × SendsOn clock.sender r.1) }
{
    join(
        rt,
        move || run_streams(rt, alloc, around, streams),
        move || run_clock(rt, alloc, around, clock),
    )
}
