//! What the steps of a turn are made of: each changes one part of the loop.

ghost use Rattle.std.specs.Prelude.{[], IfNone, IfSome, Ok, Some, if◌then◌else◌, slice_get, ◌++◌, ◌+◌, ◌∷◌, ◌≡◌};
ghost use Rattle.lb_loops_clock.specs.Lines.{ProbeComes, is_done, probe_to};
ghost use Rattle.lb_loops_clock.specs.News.{event_told, source_told};
ghost use Rattle.lb_loops_clock.specs.Turn.{FailsBy, Tells};
ghost use Rattle.lb_loops_io.specs.Counts.{Fails};
ghost use Rattle.lb_loops_io.specs.Lines.{is_by_device};
ghost use Rattle.lb_loops_io.specs.Moves.{Gave};
ghost use Rattle.std.specs.declared.alloc.AllocError.{AllocError};
ghost use Rattle.lb_loops_io.specs.declared.report.Line.TheVariants as lines;
ghost use Rattle.lb_loops_probes.specs.Probes.{AnswersProbe, Follows, Here, IsAsked, IsDue, IsOver, IsTimely, Unheard, begun, ended};

use crate::clock::ClockLoop;
use crate::news::News;
use crate::sending::send_probe;
use lb_loops_io::{
    Datagram, Datagrams, Gate, Line, Outcome, Outside, Posts, Received, Reported, Rooms, Roster,
    Sending, Taker, outcome_of,
};
use lb_loops_probes::{Answered, Due, Waits, Watched};
use std::sync::Wait;

/// An event that was handed to the desk: what came of it, and of its send.
#[derive(Debug, Drop)]
pub(crate) struct Told {
    pub(crate) outcome: Outcome,
    pub(crate) sending: Sending,
}

impl<S: Datagrams, P: Posts, T: Taker, O: Outside> ClockLoop<S, P, T, O> {
    /// The moment and a word, where there are any to be had.
    pub(crate) fn ask(&mut self) -> Option<(u64, u16)>
        ensures said { IfSome result (λ s. self.new ≡ record self.old { said = self.old.said ++ (s.0, s.1) ∷ [] }) }
        ensures blind { IfNone result ((self.new ≡ record self.old { outside = self.new.outside }) × Fails self.old.outside self.new.outside) }
    {
        self.outside.ask()
    }

    /// The servers that are probed become those of the roster.
    pub(crate) fn follow(&mut self, roster: &Roster, now: u64)
        ensures same { self.new ≡ record self.old { probes = self.new.probes } }
        ensures follows { Follows roster.now now self.old.probes self.new.probes }
    {
        self.probes.follow(roster, now);
    }

    /// Reads a datagram, if there is one, and room for it.
    pub(crate) fn receive(&mut self) -> Received
        ensures same { self.new ≡ record self.old { given = self.new.given; failures = self.new.failures; reads = self.old.reads + 1 } }
        ensures gave { Gave {E = AllocError} (Ok result) self.old.given self.new.given self.old.failures self.new.failures }
    {
        match self.sockets.receive(&mut Rooms::new(self.alloc)) {
            Ok(received) => received,
            Err(_refused) => Received::Nothing,
        }
    }

    /// The server whose probe a datagram answers at this moment.
    pub(crate) fn hear(&self, datagram: &Datagram, now: u64) -> Option<Answered>
        ensures some { IfSome result (AnswersProbe now datagram.now self.now.probes.watched) }
        ensures none { IfNone result (Unheard now datagram.now self.now.probes.watched) }
    {
        self.probes.answered(datagram, now)
    }

    /// The server at a place, with its probe, where that is over at this moment.
    pub(crate) fn over_at(&self, index: usize, now: u64) -> Option<(Watched, Waits)>
        ensures some { IfSome result (λ r. (slice_get self.now.probes.watched index ≡ Some r.0) × (r.0.waits ≡ Some r.1) × IsOver now r.1) }
        ensures none { IfNone result (Here (IsTimely now) index self.now.probes.watched) }
    {
        self.probes.over_at(index, now)
    }

    /// The server at a place, and where it is, if its next probe is due at this moment.
    pub(crate) fn due_at(&self, roster: &Roster, index: usize, now: u64) -> Option<Due>
        ensures some { IfSome result (λ due. (slice_get self.now.probes.watched due.index ≡ Some due.watched) × IsDue roster.now.listed now due.watched due.place) }
        ensures at { IfSome result (λ due. due.index ≡ index) }
        ensures none { IfNone result (Here (IsAsked roster.now.listed now) index self.now.probes.watched) }
    {
        self.probes.due_at(roster, index, now)
    }

    /// The probe of the server at a place ends.
    pub(crate) fn end_probe(&mut self, index: usize, watched: Watched)
        requires there { slice_get self.old.probes.watched index ≡ Some watched }
        ensures { self.new ≡ record self.old { probes = ended self.old.probes index watched } }
    {
        self.probes.end(index, watched);
    }

    /// Sends a probe to a server that was due, in a turn that began at the first moment. The probe
    /// has the second moment, and its word as ID.
    pub(crate) fn send_probe(&mut self, due: Due, turn: u64, stamp: (u64, u16)) -> Sending
        requires there { slice_get self.old.probes.watched due.index ≡ Some due.watched }
        ensures comes { ProbeComes result }
        ensures taken { self.new.taken ≡ self.old.taken ++ (if is_done result then probe_to due.watched.server stamp.1 due.place.at ∷ [] else []) }
        ensures failed { FailsBy (is_by_device result) self.old.failures self.new.failures }
        ensures begun { self.new.probes ≡ begun self.old.probes due.index due.watched due.place turn (stamp.0, stamp.1) (is_done result) }
        ensures same { self.new ≡ record self.old { probes = self.new.probes; taken = self.new.taken; failures = self.new.failures } }
    {
        let sending = send_probe(
            self.alloc,
            &mut self.sockets,
            due.watched.server,
            stamp.1,
            due.place.at,
        );
        self.probes.begin(due, turn, stamp, is_done(sending));
        sending
    }

    /// Hands an event to the desk, if the gate lets it pass, and sends what comes of it. None if
    /// the gate held it, and then nothing has changed.
    pub(crate) fn tell<R: Wait, G: Gate>(
        &mut self,
        rt: &R,
        gate: &G,
        news: News,
        now: u64,
    ) -> Option<Told>
        ensures held { IfNone result (self.new ≡ self.old) }
        ensures tells { IfSome result (λ t. Tells self.old self.new (event_told news now) t.outcome t.sending) }
    {
        let event = news.event(now);
        if !gate.pass(&event) {
            return None;
        }
        let reported = Reported::of(&event);
        let outcome = outcome_of(&mut self.taker, event);
        let sending = self.send_outcome(rt, &reported, &outcome);
        Some(Told { outcome, sending })
    }
}

/// The line of an event that was told.
pub(crate) fn line_of(news: News, now: u64, told: Told) -> Line
    ensures { result ≡ lines.Event (source_told news) (event_told news now) told.outcome told.sending }
{
    let event = Reported::of(&news.event(now));
    Line::Event(news.source(), event, told.outcome, told.sending)
}

/// Whether a message was sent.
fn is_done(sending: Sending) -> bool
    ensures { result ≡ is_done sending }
{
    match sending {
        Sending::Done(_) => true,
        _ => false,
    }
}
