//! The rounds of a turn: a job, what a socket has, and an event.

ghost use Rattle.std.specs.Prelude.{[], List, false, option_to_list, ◌∷◌, ◌≡◌, ◌+◌, ◌≤◌, ℕ};
ghost use Rattle.lb_loops_connections.specs.Table.{IsFirst};
ghost use Rattle.lb_loops_tcp.specs.Goes.{IsUndone, reads_of};
ghost use Rattle.lb_loops_tcp.specs.Lines.{event_by};
ghost use Rattle.lb_loops_tcp.specs.Steps.{is_blind, lines_of};
ghost use Rattle.lb_loops_tcp.specs.Turn.{Turns, TurnsFromStamp};

use crate::streams::StreamLoop;
use lb_core::{Answer, Event};
use lb_loops_connections::First;
use lb_loops_frames::Message;
use lb_loops_io::{
    Gate, Line, Outcome, Outside, Peer, Posts, Ready, Reported, Roster, Source, Streams, Taker,
    outcome_of,
};
use lb_outbox::Job;
use lb_wire::{Kind, Lane, Octets, Origin};
use std::sync::Wait;

/// What came of the step of an event.
#[derive(Drop)]
pub(crate) enum Step {
    /// No connection has a message.
    Idle,
    /// There was one that had none any more.
    Passed,
    Told(Line),
    /// The gate held the event, whose message stays.
    Held,
    /// There was no moment to be had.
    Blind,
    /// No memory was to be had for a copy of the message, which stays.
    Wanting,
}

/// When and of whom a message is heard: the moment and its random word, the number of the
/// connection, and who is at its other end.
#[derive(Clone, Copy, Debug)]
struct Heard {
    moment: u64,
    word: u16,
    number: u64,
    peer: Peer,
}

impl<S: Streams, T: Taker, O: Outside, P: Posts> StreamLoop<S, T, O, P> {
    /// Takes a job, where there may be one, and sends its message.
    #[tactic(auto, using(crate::proofs::Turning::turns_none))]
    pub(crate) fn next_job<R: Wait>(
        &mut self,
        rt: &R,
        roster: &Roster,
        may_have_jobs: bool,
    ) -> Option<Line>
        ensures turns { Turns roster.now.listed 0 1 self.old self.new (option_to_list result) false }
        ensures reads { reads_of self.new.net ≡ reads_of self.old.net }
    {
        if may_have_jobs {
            self.one_job(rt, roster)
        } else {
            None
        }
    }

    /// Takes a job, and sends its message.
    fn one_job<R: Wait>(&mut self, rt: &R, roster: &Roster) -> Option<Line>
        ensures turns { Turns roster.now.listed 0 1 self.old self.new (option_to_list result) false }
        ensures reads { reads_of self.new.net ≡ reads_of self.old.net }
    {
        let job = self.receiver.receive(rt)?;
        let sending = match &job {
            Job::ToServer(server, lane, bytes) => {
                self.send_to_server(roster, *server, *lane, bytes)
            }
            Job::ToClient(origin, bytes) => self.send_to_client(roster, *origin, bytes, true),
        };
        Some(Line::Job(job, sending))
    }

    /// Sees to one socket, where one may have something. Whether there was one.
    #[tactic(auto, using(crate::proofs::Turning::turns_none))]
    pub(crate) fn next_arrival(&mut self, roster: &Roster, now: u64, may_be_ready: bool) -> bool
        ensures turns { Turns roster.now.listed 0 0 self.old self.new [] false }
        ensures reads { reads_of self.new.net ≤ reads_of self.old.net + 1 }
    {
        may_be_ready && self.one_arrival(roster, now)
    }

    /// Sees to one socket: takes in a client, reads a piece, or writes. Whether there was one.
    #[tactic(auto, using(crate::proofs::Turning::turns_none, crate::proofs::Turning::turns_net))]
    fn one_arrival(&mut self, roster: &Roster, now: u64) -> bool
        ensures turns { Turns roster.now.listed 0 0 self.old self.new [] false }
        ensures reads { reads_of self.new.net ≤ reads_of self.old.net + 1 }
    {
        match self.links.sockets.ready() {
            Ready::Nothing => return false,
            Ready::Incoming => self.links.admit(self.alloc, now),
            Ready::Readable(number) => self.links.read(number, now),
            Ready::Writable(number) => self.links.write(number),
        }
        true
    }

    /// Hands the first message of the connection whose turn it is to the desk, and sends what it
    /// answers.
    #[tactic(auto, using(crate::proofs::Turning::turns_none, crate::proofs::Turning::turns_said, crate::proofs::Turning::turns_blind))]
    pub(crate) fn one_event<G: Gate>(&mut self, roster: &Roster, gate: &G) -> Step
        ensures turns { Turns roster.now.listed 1 0 self.old self.new (lines_of result) (is_blind result) }
        ensures reads { reads_of self.new.net ≡ reads_of self.old.net }
    {
        let Some(number) = self.links.table.first_queued() else {
            return Step::Idle;
        };
        let Some((now, word)) = self.outside.ask() else {
            return Step::Blind;
        };
        let first = match self.links.table.first_of(self.alloc, number) {
            Ok(Some(first)) => first,
            Ok(None) => {
                self.links.table.drop_queued();
                return Step::Passed;
            }
            Err(_refused) => return Step::Wanting,
        };
        let First { peer, message } = first;
        let heard = Heard {
            moment: now,
            word,
            number,
            peer,
        };
        self.told(roster, gate, heard, message)
    }

    /// The same for this first message, if the gate lets its event pass.
    fn told<G: Gate>(&mut self, roster: &Roster, gate: &G, heard: Heard, message: Message) -> Step
        requires first { IsFirst heard.number heard.peer message self.old.net.table }
        ensures turns { TurnsFromStamp (heard.moment, heard.word) roster.now.listed self.old self.new (lines_of result) (is_blind result) }
        ensures reads { reads_of self.new.net ≡ reads_of self.old.net }
    {
        let event = event_made(heard, message);
        if !gate.pass(&event) {
            return Step::Held;
        }
        Step::Told(self.answered(roster, heard, event))
    }

    /// Takes the message of an event off its connection, hands the event to the desk, and sends
    /// what comes of it. The connection is closed if it is at its end then.
    fn answered(&mut self, roster: &Roster, heard: Heard, event: Event) -> Line
        requires first { (message : List ℕ) × (event ≡ event_by heard.moment heard.word heard.number heard.peer message) × IsFirst heard.number heard.peer message self.old.net.table }
        ensures turns { TurnsFromStamp (heard.moment, heard.word) roster.now.listed self.old self.new (result ∷ []) false }
        ensures settled { IsUndone heard.number self.new.net }
        ensures reads { reads_of self.new.net ≡ reads_of self.old.net }
    {
        self.links.drop_first(heard.number);
        let told = Reported::of(&event);
        let outcome = outcome_of(&mut self.taker, event);
        self.links.owe(heard.number, is_sent_on(&outcome));
        let sending = self.send_outcome(roster, &told, &outcome);
        self.links.settle(heard.number);
        Line::Event(Source::Connection(heard.number), told, outcome, sending)
    }
}

/// Whether a query was sent on.
fn is_sent_on(outcome: &Outcome) -> bool {
    matches!(outcome, Outcome::Answered(Answer::Forward(..)))
}

/// The event that a message of a connection makes.
fn event_made(heard: Heard, bytes: Octets) -> Event
    ensures { result ≡ event_by heard.moment heard.word heard.number heard.peer bytes }
{
    let Heard {
        moment: now,
        word,
        number,
        peer,
    } = heard;
    match peer {
        Peer::Client(front, from) => Event::Query {
            now,
            origin: Origin {
                front,
                slot: number,
                source: from.addr,
                port: from.port,
            },
            kind: Kind::Stream,
            word,
            bytes,
        },
        Peer::Server(server, lane, _) => Event::Reply {
            now,
            server,
            lane: Lane {
                kind: Kind::Stream,
                number: lane,
            },
            bytes,
        },
    }
}
