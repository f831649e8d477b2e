//! The loops of a scene. There is one function for each that has it, and lends it to the next: none is dropped, as each ends by giving
//! its handler back.

use crate::fault::Fault;
use crate::playing::play_all;
use crate::stage::{Sides, Stage};
use lb_loops::{
    Answering, ClockLoop, Connections, DatagramLoop, Outbox, Probes, Receiver, Sender, StreamLoop,
    Taker,
};
use lb_memory::{MemoryDatagrams, MemoryOutside, MemoryPosts, MemoryStreams};
use std::sync::Wait;

/// The loop of datagrams of a scene.
type Datagramming<'a, R, T> = DatagramLoop<MemoryDatagrams<'a, R>, T, MemoryOutside<'a, R>>;

/// The loop of streams of a scene.
type Streaming<'a, R, T> = StreamLoop<
    MemoryStreams<'a, R>,
    T,
    MemoryOutside<'a, R>,
    MemoryPosts<'a, R>,
>;

/// The loop of the clock of a scene.
type Clocking<'a, R, T> = ClockLoop<
    MemoryDatagrams<'a, R>,
    MemoryPosts<'a, R>,
    T,
    MemoryOutside<'a, R>,
>;

/// Plays the lines with a loop of datagrams at the next of these handlers.
pub(crate) fn with_datagrams<'a, R: Wait, T: Taker>(
    handlers: &mut Vec<T>,
    stage: &mut Stage<'a, R>,
    lines: &[String],
) -> Result<(), Fault> {
    let sockets = stage.datagrams()?;
    let outside = stage.outside()?;
    let handler = next(handlers)?;
    let mut datagrams = DatagramLoop::made(stage.alloc, sockets, handler, outside);
    let played = with_outbox(handlers, stage, &mut datagrams, lines);
    handlers.push(datagrams.into_taker())?;
    played
}

/// The next handler.
fn next<T: Taker>(handlers: &mut Vec<T>) -> Result<T, Fault> {
    match handlers.pop() {
        Some(handler) => Ok(handler),
        None => Err(Fault::Audit),
    }
}

/// Plays the lines with an outbox and a loop of streams beside it.
fn with_outbox<'a, R: Wait, T: Taker>(
    handlers: &mut Vec<T>,
    stage: &mut Stage<'a, R>,
    datagrams: &mut Datagramming<'a, R, T>,
    lines: &[String],
) -> Result<(), Fault> {
    let jobs = stage.setting.outbox.max(1).min(4_096);
    let (sender, second, receiver) = Outbox::made(stage.alloc, jobs)?;
    stage.sender = Some(sender);
    let mut streams = streaming(handlers, stage, receiver)?;
    let played = with_clock(handlers, stage, second, datagrams, &mut streams, lines);
    handlers.push(streams.into_parts().0)?;
    played
}

/// The loop of streams.
fn streaming<'a, R: Wait, T: Taker>(
    handlers: &mut Vec<T>,
    stage: &Stage<'a, R>,
    receiver: Receiver,
) -> Result<Streaming<'a, R, T>, Fault> {
    let net = (stage.streams()?, Connections::made(stage.alloc)?);
    let Sides {
        posts,
        fronts,
        outside,
    } = stage.sides()?;
    let taker = next(handlers)?;
    let answering = Answering {
        fronts,
        posts,
        taker,
        outside,
    };
    Ok(StreamLoop::made(stage.alloc, net, receiver, answering))
}

/// Plays the lines with a loop of the clock beside the others.
fn with_clock<'a, R: Wait, T: Taker>(
    handlers: &mut Vec<T>,
    stage: &mut Stage<'a, R>,
    second: Sender,
    datagrams: &mut Datagramming<'a, R, T>,
    streams: &mut Streaming<'a, R, T>,
    lines: &[String],
) -> Result<(), Fault> {
    let mut clock = clocking(handlers, stage, second)?;
    // The handler that is left is the console's.
    let played = match handlers.last_mut() {
        Some(console) => play_all(lines, stage, console, datagrams, streams, &mut clock),
        None => Err(Fault::Audit),
    };
    handlers.push(clock.into_parts().0)?;
    played
}

/// The loop of the clock.
fn clocking<'a, R: Wait, T: Taker>(
    handlers: &mut Vec<T>,
    stage: &Stage<'a, R>,
    second: Sender,
) -> Result<Clocking<'a, R, T>, Fault> {
    let probing = (stage.probes()?, Probes::made(stage.alloc)?);
    let Sides {
        posts,
        fronts,
        outside,
    } = stage.sides()?;
    let taker = next(handlers)?;
    let answering = Answering {
        fronts,
        posts,
        taker,
        outside,
    };
    Ok(ClockLoop::made(stage.alloc, probing, second, answering))
}
