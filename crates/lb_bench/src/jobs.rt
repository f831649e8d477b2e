//! How long a send and its receive take with one thread.

use lb_outbox::{Job, Outbox, Receiver, Sender};
use lb_wire::{Addr, Octets, Origin};
use std::alloc::{AllocError, Global};
use std::io;
use std::sync::Wait;
use std::time::Instant;

/// How many jobs are sent.
const ROUNDS: u32 = 2_000_000;

/// Where each job goes.
const ORIGIN: Origin = Origin {
    front: 0,
    slot: 7,
    source: Addr::V4([192, 0, 2, 1]),
    port: 53,
};

/// Times sends that are received at once, each of an empty message.
pub(crate) fn time_jobs<R: Wait>(rt: &HostRuntime, waits: &R) -> io::Result<()> {
    let start = Instant::now(rt)?;
    let done = done(waits, rt.alloc())?;
    let nanos = start.elapsed(rt)?.as_nanos() / u128::from(ROUNDS);
    eprintln!(rt; "a send and its receive: {nanos} ns ({done} done)")
}

/// How many jobs went through.
fn done<R: Wait>(rt: &R, alloc: Global) -> Result<u32, AllocError> {
    let (mut sender, _, mut receiver) = Outbox::made(alloc, 4096)?;
    let mut done = 0u32;
    for _ in 0..ROUNDS {
        if is_through(rt, alloc, &mut sender, &mut receiver) {
            done = done.wrapping_add(1);
        }
    }
    Ok(done)
}

fn is_through<R: Wait>(
    rt: &R,
    alloc: Global,
    sender: &mut Sender,
    receiver: &mut Receiver,
) -> bool {
    let job = Job::ToClient(ORIGIN, Octets::from_vec(Vec::new(alloc)));
    sender.send(rt, job).is_ok() && receiver.receive(rt).is_some()
}
