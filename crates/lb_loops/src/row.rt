//! The loops of datagrams, each in a thread of its own.

ghost use Rattle.std.specs.Prelude.{IfOk, [], map, vec_capacity, vec_len, ◌+◌, ◌≡◌, ◌≤◌};
ghost use Rattle.std.specs.Thread.{IsSend, IsSync};
ghost use Rattle.lb_loops.specs.Running.{HaveGoneOn};

use crate::around::Around;
use crate::fault::LoopFault;
use crate::parts::DatagramParts;
use crate::running::run_datagrams;
use lb_loops_io::{Datagrams, Gate, Outside, Taker, Waker};
use std::alloc::Global;
use std::sync::Wait;
use std::thread::{Threads, join};

/// Runs a loop of datagrams for each of these parts, each in a thread of its own, until the flag is
/// set. Gives their event handlers, in order, in the list that is handed in. A loop that has a fault
/// ends all others. If several have one, the fault of the first in the list is given.
pub(crate) fn run_row<
    R: Threads + Wait + Sync,
    S: Datagrams + Send,
    T: Taker + Send,
    O: Outside + Send,
    G: Gate + Sync + Send,
    W: Waker + Sync + Send,
>(
    rt: &R,
    alloc: Global,
    around: &Around<G, W>,
    parts: Vec<DatagramParts<S, T, O>>,
    mut takers: Vec<T>,
) -> Result<Vec<T>, LoopFault>
    ensures { IfOk result (λ all. HaveGoneOn T.answered (map (λ part. part.taker) parts.items) all.items) }
{
    takers.clear();
    // Room is there before the first turn, so that none is lacked after the last.
    match takers.reserve(parts.len()) {
        Ok(()) => run_some(rt, alloc, around, parts, takers),
        Err(refused) => {
            around.end();
            Err(LoopFault::from(refused))
        }
    }
}

/// The same, with an empty list that has room for the handlers; they are returned in it.
#[cycle(row)]
fn run_some<
    R: Threads + Wait + Sync,
    S: Datagrams + Send,
    T: Taker + Send,
    O: Outside + Send,
    G: Gate + Sync + Send,
    W: Waker + Sync + Send,
>(
    rt: &R,
    alloc: Global,
    around: &Around<G, W>,
    mut parts: Vec<DatagramParts<S, T, O>>,
    takers: Vec<T>,
) -> Result<Vec<T>, LoopFault>
    requires empty { takers.items ≡ [] }
    requires room { vec_len parts ≤ vec_capacity takers }
    ensures gone_on { IfOk result (λ all. HaveGoneOn T.answered (map (λ part. part.taker) parts.items) all.items) }
    ensures room { IfOk result (λ all. vec_capacity all ≡ vec_capacity takers) }
{
    let Some(last) = parts.pop() else {
        return Ok(takers);
    };
    let others = move || -> Result<Vec<T>, LoopFault>
        requires crossing { IsSync R.row × IsSend S.row × IsSend T.row × IsSend O.row × IsSend G.row × IsSend W.row × IsSync G.row × IsSync W.row }
        requires empty { takers.items ≡ [] }
        requires room { vec_len parts + 1 ≤ vec_capacity takers }
        ensures gone_on { IfOk result (λ all. HaveGoneOn T.answered (map (λ part. part.taker) parts.items) all.items) }
        ensures room { IfOk result (λ all. vec_capacity all ≡ vec_capacity takers) }
    { run_some(rt, alloc, around, parts, takers) };
    let last = move || -> Result<T, LoopFault>
        ensures { IfOk result (λ taker. T.answered last.taker ≤ T.answered taker) }
    { run_datagrams(rt, alloc, around, last) };
    let (others, last) = join(rt, others, last);
    let mut takers = others?;
    takers.push_reserved(last?);
    Ok(takers)
}
