//! The turn of datagrams.

ghost use Rattle.std.specs.Prelude.{[], IfOk, IsTrue, List, None, OnErr, Some, false, is_some, length, map, option_to_list, vec_capacity, vec_len, ◌++◌, ◌+◌, ◌<◌, ◌∷◌, ◌≡◌, ◌≢◌, ◌≤◌, ℕ};
ghost use Rattle.lb_step.specs.declared.event.Event.TheVariants.{Query, Reply};
ghost use Rattle.lb_loops_udp.specs.Lines.{AreLines, hears};
ghost use Rattle.lb_loops_udp.specs.Turn.{Asks, Handles, Leads, Round, Stamps, Turns, asked_line};
ghost use Rattle.lb_loops_io.specs.Counts.{Grows, Rose};
ghost use Rattle.lb_loops_io.specs.Events.{asker, heard, is_strange, timeless};
ghost use Rattle.lb_loops_io.specs.Lines.{FirstFault, any_by_device, events_in, pairs};
ghost use Rattle.lb_loops_io.specs.Ways.{packets};
ghost use Rattle.lb_loops_io.specs.declared.report.DeviceFault.TheVariants as devices;
ghost use Rattle.lb_wire.specs.declared.transport.Kind.TheVariants as kinds;

use crate::datagrams::DatagramLoop;
use lb_core::Event;
use lb_loops_io::{
    Datagram, Datagrams, DeviceFault, Endpoint, Gate, Line, MAX_EVENTS_OF_TURN, Outcome, Outside,
    Received, Report, Reported, Roster, Sending, Socket, Source, Taker, excuse, first_fault,
};
use lb_wire::{Kind, Lane, Octets, Origin, ServerId};
use std::alloc::AllocError;

/// Reads at most 64 datagrams and hands the event of each to the desk; then sends what it answered,
/// in order. (Of several datagrams in a row their receiver is woken for the first alone, which
/// saves a fifth of what a query costs.) A stranger's datagram on a server's socket makes no event.
/// No more is read if no socket has a datagram, if the gate holds an event, if there is no moment
/// to be had, or if room for a datagram is refused before it is read; if a device fails, the turn
/// goes on to the next one. A send belongs to the round of its event: its fault comes before one of
/// what is outside, after which there is no round. The one error is lack of memory for the report:
/// then nothing was read or sent.
pub fn datagram_turn<S: Datagrams, T: Taker, O: Outside, G: Gate>(
    part: &mut DatagramLoop<S, T, O>,
    roster: &Roster,
    gate: &G,
) -> Result<Report, AllocError>
    // Each datagram that the sockets gave, strangers' left out, is the event of a line, in order, or the one that the gate held.
    ensures heard { IfOk result (λ r. heard part.new.given ≡ heard part.old.given ++ map timeless (events_in r.lines.items ++ option_to_list r.held)) }
    // The events have moments and words that were said in this turn, in order, each its own.
    ensures stamped { IfOk result (λ r. Stamps part.old.said part.new.said (events_in r.lines.items ++ option_to_list r.held) 64) }
    // What the sockets took grew by the sends that are listed as done, in order.
    ensures taken { IfOk result (λ r. part.new.taken ≡ part.old.taken ++ packets roster.now.listed r.lines.items) }
    // The send of each line is the letter of its event and answer or fault; it was done, or failed for its cause.
    ensures lines { IfOk result (λ r. AreLines roster.now.listed (hears part.old.there) r.lines.items) }
    // The answers are the event handler's.
    ensures answered { IfOk result (λ r. part.new.answered ≡ part.old.answered + length (pairs r.lines.items)) }
    ensures pairs { IfOk result (λ r. Grows part.old.pairs part.new.pairs (pairs r.lines.items)) }
    // A device failed only where the count of its failures rose, and the first that failed is reported.
    ensures failed { IfOk result (λ r. IsTrue (any_by_device r.lines.items) → Rose part.old.failures part.new.failures) }
    ensures device { IfOk result (λ r. FirstFault r.device part.old.failures part.new.failures part.old.outside part.new.outside) }
    ensures held { IfOk result (λ r. r.is_held ≡ is_some r.held) }
    ensures few { IfOk result (λ r. length r.lines.items + length (option_to_list r.held) ≤ 64) }
    // At most 64 datagrams were asked for, whatever came of it, and so at most 64 were read.
    ensures reads { IfOk result (λ _. part.new.reads ≤ part.old.reads + 64) }
    ensures given { IfOk result (λ _. length part.new.given ≤ length part.old.given + 64) }
    ensures there { IfOk result (λ _. part.new.there ≡ part.old.there) }
    ensures refused { OnErr result (part.new ≡ record part.old { room = part.new.room }) }
{
    let lines = part.room(MAX_EVENTS_OF_TURN)?;
    let Report {
        mut lines,
        device,
        is_held,
        held,
    } = part.all_rounds(lines, gate);
    let failed = part.send_all(roster, &mut lines);
    Ok(Report {
        lines,
        device: failed.or(device),
        is_held,
        held,
    })
}

impl<S: Datagrams, T: Taker, O: Outside> DatagramLoop<S, T, O> {
    /// At most 64 rounds, whose lines have room. Nothing is sent.
    fn all_rounds<G: Gate>(&mut self, mut lines: Vec<Line>, gate: &G) -> Report
        requires empty { (lines.items ≡ []) × (vec_len lines ≡ 0) }
        requires room { 64 ≤ vec_capacity lines }
        ensures turned { Turns 64 self.old self.new result.lines.items (option_to_list result.held) result.device }
        ensures held { result.is_held ≡ is_some result.held }
    {
        let mut device = None;
        for _ in 0..MAX_EVENTS_OF_TURN {
            let Step {
                device: found,
                held,
                is_last,
            } = match self.one_round(&mut lines, gate) {
                Ok(step) => step,
                Err(_refused) => return report(lines, device, None),
            };
            device = first_fault(device, found);
            if is_last {
                return report(lines, device, held);
            }
        }
        report(lines, device, None)
    }

    /// Asks for a moment, reads one datagram, and answers it. If room for it is refused, none was
    /// read.
    fn one_round<G: Gate>(&mut self, lines: &mut Vec<Line>, gate: &G) -> Result<Step, AllocError>
        requires place { vec_len lines.old < vec_capacity lines.old }
        ensures turned { IfOk result (λ s. Round self.old self.new lines.old.items lines.new.items (option_to_list s.held) s.device) }
        ensures refused { OnErr result (Round self.old self.new lines.old.items lines.new.items [] None) }
        ensures clear { IfOk result (λ s. s.is_last ≡ false → (s.held ≡ None) × (s.device ≢ Some devices.Outside)) }
        ensures len { vec_len lines.new ≤ vec_len lines.old + 1 }
        ensures room { vec_capacity lines.new ≡ vec_capacity lines.old }
    {
        let Some((now, word)) = self.outside.ask() else {
            return Ok(no_event(Some(DeviceFault::Outside), true));
        };
        match self.sockets.receive(&mut self.spare.rooms)? {
            Received::Packet(datagram) => {
                if is_stranger(datagram.socket, datagram.peer) {
                    return Ok(no_event(None, false));
                }
                Ok(packet(lines, &mut self.taker, gate, (now, word), datagram))
            }
            Received::Nothing => Ok(no_event(None, true)),
            Received::Failed => Ok(no_event(Some(DeviceFault::Sockets), false)),
        }
    }
}

/// A report of these lines.
fn report(lines: Vec<Line>, device: Option<DeviceFault>, held: Option<Event>) -> Report
    ensures { result ≡ record { lines = lines; device = device; is_held = is_some held; held = held } }
{
    Report {
        lines,
        device,
        is_held: held.is_some(),
        held,
    }
}

/// What one round led to, beside its line.
#[derive(Drop)]
struct Step {
    device: Option<DeviceFault>,
    held: Option<Event>,
    is_last: bool,
}

/// A round without an event.
fn no_event(device: Option<DeviceFault>, is_last: bool) -> Step
    ensures { result ≡ record { device = device; held = None; is_last = is_last } }
{
    Step {
        device,
        held: None,
        is_last,
    }
}

/// Has one datagram answered, which was read at this moment, with this word.
#[inline(always)]
fn packet<T: Taker, G: Gate>(
    lines: &mut Vec<Line>,
    taker: &mut T,
    gate: &G,
    stamp: (u64, u16),
    datagram: Datagram,
) -> Step
    requires known { is_strange datagram.socket datagram.peer ≡ false }
    requires place { vec_len lines.old < vec_capacity lines.old }
    ensures handled { Handles datagram (stamp.0, stamp.1) lines.old.items lines.new.items (T.answered taker.old) (T.answered taker.new) (T.pairs taker.old) (T.pairs taker.new) result.held }
    ensures device { result.device ≡ None }
    ensures last { result.is_last ≡ false → result.held ≡ None }
    ensures len { vec_len lines.new ≤ vec_len lines.old + 1 }
    ensures room { vec_capacity lines.new ≡ vec_capacity lines.old }
{
    let Datagram {
        socket,
        peer,
        bytes,
    } = datagram;
    let (now, word) = stamp;
    match socket {
        Socket::Listener(front) => {
            let event = query_made(now, word, front, peer, bytes);
            handled(lines, taker, gate, event)
        }
        Socket::Server(server, number, _) => {
            let event = reply_made(now, server, number, bytes);
            handled(lines, taker, gate, event)
        }
    }
}

/// Has an event answered, unless the gate holds it.
#[inline(always)]
fn handled<T: Taker, G: Gate>(lines: &mut Vec<Line>, taker: &mut T, gate: &G, event: Event) -> Step
    requires place { vec_len lines.old < vec_capacity lines.old }
    ensures led { Leads event result.held lines.old.items lines.new.items (T.answered taker.old) (T.answered taker.new) (T.pairs taker.old) (T.pairs taker.new) }
    ensures device { result.device ≡ None }
    ensures last { result.is_last ≡ false → result.held ≡ None }
    ensures len { vec_len lines.new ≤ vec_len lines.old + 1 }
    ensures room { vec_capacity lines.new ≡ vec_capacity lines.old }
{
    if !gate.pass(&event) {
        return Step {
            device: None,
            held: Some(event),
            is_last: true,
        };
    }
    answered(lines, taker, event);
    no_event(None, false)
}

/// Hands an event to the desk. The line tells of it; its send is to come.
#[inline(always)]
fn answered<T: Taker>(lines: &mut Vec<Line>, taker: &mut T, event: Event)
    requires place { vec_len lines.old < vec_capacity lines.old }
    ensures asked { Asks event lines.old.items lines.new.items (T.answered taker.old) (T.answered taker.new) (T.pairs taker.old) (T.pairs taker.new) }
    ensures len { vec_len lines.new ≤ vec_len lines.old + 1 }
    ensures room { vec_capacity lines.new ≡ vec_capacity lines.old }
{
    let reported = Reported::of(&event);
    match taker.take(event) {
        Ok(answer) => add(lines, reported, Outcome::Answered(answer)),
        Err((fault, event)) => add(lines, reported, Outcome::Fault(fault, excuse(event))),
    }
}

/// Puts a line after the others, for which room was taken. Its send is to come.
#[inline(always)]
fn add(lines: &mut Vec<Line>, event: Reported, outcome: Outcome)
    requires place { vec_len lines.old < vec_capacity lines.old }
    ensures put { lines.new.items ≡ lines.old.items ++ asked_line event outcome ∷ [] }
    ensures len { vec_len lines.new ≤ vec_len lines.old + 1 }
    ensures room { vec_capacity lines.new ≡ vec_capacity lines.old }
{
    let line = Line::Event(Source::Datagrams, event, outcome, Sending::Nothing);
    lines.push_reserved(line);
}

/// The event of a datagram that came to a listener.
#[inline(always)]
fn query_made(now: u64, word: u16, front: u8, peer: Endpoint, bytes: Octets) -> Event
    ensures { result ≡ Query now (asker front peer) kinds.Datagram word bytes }
{
    Event::Query {
        now,
        origin: Origin {
            front,
            slot: 0,
            source: peer.addr,
            port: peer.port,
        },
        kind: Kind::Datagram,
        word,
        bytes,
    }
}

/// The event of a datagram that came from a server.
#[inline(always)]
fn reply_made(now: u64, server: ServerId, number: u8, bytes: Octets) -> Event
    ensures { result ≡ Reply now server (record { kind = kinds.Datagram; number = number }) bytes }
{
    Event::Reply {
        now,
        server,
        lane: Lane {
            kind: Kind::Datagram,
            number,
        },
        bytes,
    }
}

/// Whether a datagram came to a server's socket from elsewhere than the server.
fn is_stranger(socket: Socket, peer: Endpoint) -> bool
    ensures { result ≡ is_strange socket peer }
{
    match socket {
        Socket::Listener(_) => false,
        Socket::Server(_, _, at) => !at.is(peer),
    }
}
