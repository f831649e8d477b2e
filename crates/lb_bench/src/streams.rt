//! How long streams take to be fed and written, and what waiting ones hold.

use lb_loops_frames::{Framer, Outgoing};
use std::alloc::{AllocError, Global};
use std::io;
use std::time::Instant;

/// How many octets a read gives at most.
const PIECE: usize = 16_384;

/// How many octets are fed.
const FED: usize = 1 << 30;

/// How many streams wait, as many as a loop takes.
const STREAMS: usize = 1_024;

/// How many messages wait to be written: a megabyte.
const WAITING: usize = 1_046;

/// How many octets a write takes.
const SEGMENT: usize = 1_400;

/// Times a stream of messages of 1,000 octets in pieces, messages of 65,535 octets that come octet by octet, and writes.
pub(crate) fn time_streams(rt: &HostRuntime) -> io::Result<()> {
    time_pieces(rt)?;
    time_octets(rt)?;
    time_writes(rt)
}

fn time_pieces(rt: &HostRuntime) -> io::Result<()> {
    let start = Instant::now(rt)?;
    let fed = fed_pieces(rt.alloc())?;
    let nanos = start.elapsed(rt)?.as_nanos().max(1);
    let rate = FED as u128 * 1_000 / nanos;
    eprintln!(rt; "pieces of 16,384 octets: {rate} MB/s ({fed} messages)")
}

fn time_octets(rt: &HostRuntime) -> io::Result<()> {
    let start = Instant::now(rt)?;
    let fed = fed_octets(rt.alloc())?;
    let nanos = start.elapsed(rt)?.as_nanos() / 655_370;
    eprintln!(rt; "an octet of a message of 65,535: {nanos} ns ({fed} messages)")
}

fn time_writes(rt: &HostRuntime) -> io::Result<()> {
    let mut outgoing = Outgoing::new(rt.alloc());
    outgoing.push(stream(rt.alloc(), WAITING)?.as_slice())?;
    time_written(rt, &mut outgoing)
}

/// Times the writes of what waits.
fn time_written(rt: &HostRuntime, outgoing: &mut Outgoing) -> io::Result<()> {
    let start = Instant::now(rt)?;
    let writes = written(outgoing);
    let nanos = start.elapsed(rt)?.as_nanos() / u128::from(writes).max(1);
    eprintln!(rt; "a write of 1,400 octets: {nanos} ns ({writes} writes of a megabyte)")
}

/// So many messages of 1,000 octets after one another.
fn stream(alloc: Global, messages: usize) -> Result<Vec<u8>, AllocError> {
    let mut stream = Vec::new(alloc);
    for _ in 0..messages {
        stream.extend_from_slice(&[3, 232])?;
        stream.extend_from_slice(&[7; 1_000])?;
    }
    Ok(stream)
}

/// How many messages the pieces of a stream give that goes on and on. The stream ends with a whole one.
fn fed_pieces(alloc: Global) -> Result<usize, AllocError> {
    let stream = stream(alloc, PIECE)?;
    let mut framer = Framer::new(alloc);
    let mut messages = 0usize;
    for _ in 0..FED / stream.len().max(1) {
        for piece in stream.chunks(PIECE) {
            messages = messages.wrapping_add(framer.feed(piece)?.len());
        }
    }
    Ok(messages)
}

/// How many messages come of ten of 65,535 octets that come octet by octet.
fn fed_octets(alloc: Global) -> Result<usize, AllocError> {
    let mut framer = Framer::new(alloc);
    let mut messages = 0usize;
    for _ in 0..10 {
        messages = messages.wrapping_add(framer.feed(&[255, 255])?.len());
        for _ in 0..65_535 {
            messages = messages.wrapping_add(framer.feed(&[7])?.len());
        }
    }
    Ok(messages)
}

/// In how many writes a megabyte is gone.
fn written(outgoing: &mut Outgoing) -> u32 {
    let mut writes = 0u32;
    for _ in 0..=u32::MAX {
        let len = outgoing.len().min(SEGMENT);
        if len == 0 {
            return writes;
        }
        outgoing.advance(len);
        writes = writes.wrapping_add(1);
    }
    writes
}

/// Holds streams each of which announced 65,535 octets and sent one, and tells how many.
pub(crate) fn hold_framers(rt: &HostRuntime) -> io::Result<()> {
    let alloc = rt.alloc();
    let mut framers = Vec::new(alloc);
    for _ in 0..STREAMS {
        let mut framer = Framer::new(alloc);
        framer.feed(&[255, 255, 7])?;
        framers.push(framer)?;
    }
    let held: usize = framers.iter().map(Framer::len).fold(0, usize::wrapping_add);
    eprintln!(rt; "{} streams hold {held} octets", framers.len())
}
