//! Reports as a scene tells them.

use crate::stage::Stage;
use crate::told::Told;
use lb_core::Event;
use lb_desk::DeskFault;
use lb_loops::{DeviceFault, Job, Line, Outcome, Report, Sending, Source, Way, Why};
use std::collections::VecDeque;
use std::sync::Wait;

/// Tells a report: a line with the turn's name, its device fault and whether a gate held, and after it one for each line of the report.
/// The lines, whose room the loop takes back.
pub(crate) fn tell_report<R: Wait>(
    stage: &mut Stage<'_, R>,
    name: &str,
    report: Report,
) -> Vec<Line> {
    let mut events = stage.take_events();
    let told = &mut stage.told;
    told.put(name);
    told.put(marks(report.device, report.is_held));
    told.put("\n");
    for line in &report.lines {
        tell_line(told, &mut events, line);
    }
    report.lines
}

/// One line. The octets of its event are those that the desk was handed.
fn tell_line(told: &mut Told, events: &mut VecDeque<Event>, line: &Line) {
    match line {
        Line::Event(source, _, outcome, sending) => {
            tell_source(told, *source);
            if let Some(event) = events.pop_front() {
                tell_event(told, &event);
            }
            tell_outcome(told, outcome);
            tell_sending(told, *sending);
        }
        Line::Job(job, sending) => {
            tell_job(told, job);
            tell_sending(told, *sending);
        }
        Line::Probe(server, word, sending) => {
            told.number("  probe ", server.0);
            told.number(" ", u64::from(*word));
            tell_sending(told, *sending);
        }
    }
}

/// What an event came from.
fn tell_source(told: &mut Told, source: Source) {
    match source {
        Source::Datagrams => told.put("  datagrams"),
        Source::Connection(number) => told.number("  connection ", number),
        Source::Clock => told.put("  clock"),
        Source::Probe(server, word) => {
            told.number("  probe ", server.0);
            told.number(" ", u64::from(word));
        }
    }
}

/// The event of a line.
fn tell_event(told: &mut Told, event: &Event) {
    match event {
        Event::Query {
            now,
            origin,
            word,
            bytes,
            ..
        } => {
            told.number(": query ", *now);
            told.origin(*origin);
            told.number(" ", u64::from(*word));
            told.octets(bytes.as_slice());
        }
        Event::Reply {
            now,
            server,
            lane,
            bytes,
        } => {
            told.number(": reply ", *now);
            told.number(" ", server.0);
            told.lane(*lane);
            told.octets(bytes.as_slice());
        }
        Event::Tick { now } => told.number(": tick ", *now),
        Event::HealthResult { now, server, ok } => {
            told.number(": health ", *now);
            told.number(" ", server.0);
            told.put(if *ok { " ok" } else { " fail" });
        }
        Event::Edit { now, .. } => told.number(": edit ", *now),
    }
}

/// What came of an event.
fn tell_outcome(told: &mut Told, outcome: &Outcome) {
    told.put(": ");
    match outcome {
        Outcome::Answered(answer) => told.answer(answer),
        Outcome::Fault(DeskFault::CountFull, _) => told.put("desk 1 CountFull"),
        Outcome::Fault(DeskFault::NoMemory, _) => told.put("desk 2 NoMemory"),
    }
}

/// A job of another loop.
fn tell_job(told: &mut Told, job: &Job) {
    match job {
        Job::ToServer(server, lane, bytes) => {
            told.number("  job: server ", server.0);
            told.lane(*lane);
            told.octets(bytes.as_slice());
        }
        Job::ToClient(origin, bytes) => {
            told.put("  job: client");
            told.origin(*origin);
            told.octets(bytes.as_slice());
        }
    }
}

/// What came of a send, and the end of its line.
fn tell_sending(told: &mut Told, sending: Sending) {
    match sending {
        Sending::Done(Way::Connection(number)) => told.number(": connection ", number),
        _ => told.put(sending_word(sending)),
    }
    told.put("\n");
}

fn sending_word(sending: Sending) -> &'static str {
    match sending {
        Sending::Nothing => ": nothing",
        Sending::Done(Way::Datagram) => ": datagram",
        Sending::Done(Way::Connection(_)) => ": connection",
        Sending::Done(Way::Outbox) => ": outbox",
        Sending::Done(Way::Post) => ": post",
        Sending::Failed(Why::NoServer) => ": failed noserver",
        Sending::Failed(Why::Gone) => ": failed gone",
        Sending::Failed(Why::Limit) => ": failed limit",
        Sending::Failed(Why::Full) => ": failed full",
        Sending::Failed(Why::Device) => ": failed device",
        Sending::Failed(Why::NoMemory) => ": failed nomemory",
    }
}

/// The device fault of a report, and whether a gate held, as words after its name.
fn marks(device: Option<DeviceFault>, is_held: bool) -> &'static str {
    match (device, is_held) {
        (None, false) => "",
        (None, true) => " held",
        (Some(DeviceFault::Sockets), false) => " fault-of-sockets",
        (Some(DeviceFault::Sockets), true) => " fault-of-sockets held",
        (Some(DeviceFault::Outside), _) => " fault-outside",
    }
}
