//! The console and the HTTP front of a scene: events that the desk answers at once, and jobs for the loop of streams.

use crate::coming::origin_of;
use crate::fault::Fault;
use crate::stage::Stage;
use crate::words::Words;
use lb_command::read_event_line;
use lb_core::Event;
use lb_loops::{Job, Taker};
use lb_wire::{Kind, Lane, ServerId};
use std::sync::Wait;

/// Has the desk answer an event line.
pub(crate) fn tell<R: Wait, T: Taker>(
    console: &mut T,
    stage: &mut Stage<'_, R>,
    words: &Words<'_>,
) -> Result<(), Fault> {
    match read_event_line(stage.alloc, words.line()) {
        Ok(event) => hand(console, stage, words, event),
        Err(_) => Err(words.bad()),
    }
}

/// Has the desk answer a query of the HTTP front, `NOW FRONT SLOT ADDR PORT WORD OCTETS`.
pub(crate) fn ask<R: Wait, T: Taker>(
    console: &mut T,
    stage: &mut Stage<'_, R>,
    words: &mut Words<'_>,
) -> Result<(), Fault> {
    let event = asked(stage, words)?;
    hand(console, stage, words, event)
}

/// Has the desk answer an event, and tells its answer.
fn hand<R: Wait, T: Taker>(
    console: &mut T,
    stage: &mut Stage<'_, R>,
    words: &Words<'_>,
    event: Event,
) -> Result<(), Fault> {
    match console.take(event) {
        Ok(answer) => {
            stage.told.answer_line(&answer);
            stage.told.room()
        }
        Err(_) => Err(words.full()),
    }
}

/// The query of a line.
fn asked<R: Wait>(stage: &Stage<'_, R>, words: &mut Words<'_>) -> Result<Event, Fault> {
    let now = words.number()?;
    let origin = origin_of(words)?;
    let word = words.port()?;
    let bytes = stage.message_of(words)?;
    Ok(Event::Query {
        now,
        origin,
        kind: Kind::Stream,
        word,
        bytes,
    })
}

/// A job of the HTTP front: `server SERVER udp|tcp LANE OCTETS`, or `client FRONT SLOT ADDR PORT OCTETS`.
pub(crate) fn send<R: Wait>(stage: &mut Stage<'_, R>, words: &mut Words<'_>) -> Result<(), Fault> {
    let job = match words.word()? {
        "server" => job_to_server(stage, words)?,
        "client" => job_to_client(stage, words)?,
        _ => return Err(words.bad()),
    };
    let sent = match &mut stage.sender {
        Some(sender) => sender.send(stage.rt, job).is_ok(),
        None => false,
    };
    if sent { Ok(()) } else { Err(words.full()) }
}

fn job_to_server<R: Wait>(stage: &Stage<'_, R>, words: &mut Words<'_>) -> Result<Job, Fault> {
    let server = ServerId(words.number()?);
    let kind = match words.word()? {
        "udp" => Kind::Datagram,
        "tcp" => Kind::Stream,
        _ => return Err(words.bad()),
    };
    let number = words.place()?;
    let octets = stage.message_of(words)?;
    Ok(Job::ToServer(server, Lane { kind, number }, octets))
}

fn job_to_client<R: Wait>(stage: &Stage<'_, R>, words: &mut Words<'_>) -> Result<Job, Fault> {
    let origin = origin_of(words)?;
    let octets = stage.message_of(words)?;
    Ok(Job::ToClient(origin, octets))
}
