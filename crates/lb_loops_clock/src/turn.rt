//! The turn of the clock.

ghost use Rattle.std.specs.Prelude.{[], IfNone, IfOk, IfSome, None, OnErr, Some, slice_get, ◌+◌, ◌<◌, ◌≡◌, ◌≤◌, ◌⊎◌};
ghost use Rattle.lb_loops_clock.specs.Acts.{Setting, end_of, setting};
ghost use Rattle.lb_loops_clock.specs.Lines.{is_quiet};
ghost use Rattle.lb_loops_clock.specs.Turn.{BeginsAt, BeginsTurn, EndsAt, Goes, GoesWhenDue, ProbesDueAt, Rests, Steps, Turned};
ghost use Rattle.lb_loops_clock.specs.declared.turn.Step.TheVariants as steps;
ghost use Rattle.lb_loops_io.specs.Counts.{Fails};
ghost use Rattle.lb_loops_io.specs.Roster.{Rostered};
ghost use Rattle.lb_loops_probes.specs.Probes.{Each, IsAsked, IsTimely};

use crate::clock::ClockLoop;
use crate::news::News;
use crate::steps::line_of;
use crate::tally::Tally;
use lb_core::Answer;
use lb_loops_io::{
    Datagrams, DeviceFault, Gate, Line, MAX_EVENTS_OF_TURN, Outcome, Outside, Posts, Received,
    Report, Roster, Taker,
};
use lb_loops_probes::Due;
use std::alloc::AllocError;
use std::sync::Wait;

/// Why a turn ends before it is done.
#[derive(Clone, Copy, Debug, PartialEq, Eq)]
pub(crate) enum End {
    /// The gate held an event.
    Held,
    /// There was no moment to be had.
    Blind,
}

/// What a step leads to.
#[derive(Clone, Copy, Debug, PartialEq, Eq)]
pub(crate) enum Step {
    /// The next one of its kind.
    More,
    /// It was the last one of its kind.
    Last,
    /// The turn ends.
    Over(End),
}

/// One turn: the servers that are probed become those of the roster; at most 64 datagrams are read,
/// and one that answers the probe of its server within a second ends it well; a probe that is under
/// way for a second ends badly; each server in mode auto whose next probe is due is sent one, and
/// if that fails it ends badly; and ticks are told until the desk has nothing more that is due.
/// At most 64 events and 64 probes. It ends if the gate holds an event, or if there is no moment to
/// be had. The one error is lack of memory for the report: then nothing was read or sent.
pub fn clock_turn<R: Wait, S: Datagrams, P: Posts, T: Taker, O: Outside, G: Gate>(
    rt: &R,
    clock: &mut ClockLoop<S, P, T, O>,
    roster: &Roster,
    gate: &G,
) -> Result<Report, AllocError>
    // What the turn did is a list of acts, which its lines tell.
    ensures turned { IfOk result (λ r. Turned roster.now clock.old clock.new r.lines.items r.device r.is_held) }
    ensures held { IfOk result (λ r. r.held ≡ None) }
    ensures refused { OnErr result (clock.new ≡ clock.old) }
{
    let tally = Tally::begun(clock.blank_lines())?;
    Ok(clock.whole_turn(rt, roster, gate, tally))
}

impl<S: Datagrams, P: Posts, T: Taker, O: Outside> ClockLoop<S, P, T, O> {
    /// The turn, whose lines have room.
    fn whole_turn<R: Wait, G: Gate>(
        &mut self,
        rt: &R,
        roster: &Roster,
        gate: &G,
        mut tally: Tally,
    ) -> Report
        requires empty { (tally.lines.items ≡ []) × (tally.device ≡ None) }
        ensures turned { Turned roster.now self.old self.new result.lines.items result.device result.is_held }
        ensures held { result.held ≡ None }
    {
        let end = self.all_steps(rt, roster, gate, &mut tally);
        tally.report(end)
    }

    /// The steps of a turn.
    fn all_steps<R: Wait, G: Gate>(
        &mut self,
        rt: &R,
        roster: &Roster,
        gate: &G,
        tally: &mut Tally,
    ) -> Option<End>
        ensures { Steps roster.now self.old self.new tally.old.lines.items tally.new.lines.items tally.old.device tally.new.device result }
    {
        let Some(begun) = self.begin(roster) else {
            tally.note(Some(DeviceFault::Outside));
            return Some(End::Blind);
        };
        if let Some(end) = self.read_all(rt, gate, tally) {
            return Some(end);
        }
        if let Some(end) = self.end_all(rt, gate, tally, begun) {
            return Some(end);
        }
        if let Some(end) = self.probe_all(rt, roster, gate, tally, begun) {
            return Some(end);
        }
        self.tick_all(rt, gate, tally)
    }

    /// The moment at which the turn begins, if there is one. The servers that are probed become
    /// those of the roster.
    fn begin(&mut self, roster: &Roster) -> Option<u64>
        ensures begins { IfSome result (λ now. BeginsTurn roster.now now self.old self.new) }
        ensures blind { IfNone result ((self.new ≡ record self.old { outside = self.new.outside }) × Fails self.old.outside self.new.outside) }
    {
        let (now, _word) = self.ask()?;
        self.follow(roster, now);
        Some(now)
    }

    /// Reads at most 64 datagrams.
    fn read_all<R: Wait, G: Gate>(&mut self, rt: &R, gate: &G, tally: &mut Tally) -> Option<End>
        ensures goes { (on : Setting) → Goes on 64 self.old self.new tally.old.lines.items tally.new.lines.items tally.old.device tally.new.device result }
    {
        for _ in 0..MAX_EVENTS_OF_TURN {
            match self.read_one(rt, gate, tally) {
                Step::More => {}
                Step::Last => return None,
                Step::Over(end) => return Some(end),
            }
        }
        None
    }

    /// Reads a datagram, which may answer a probe.
    fn read_one<R: Wait, G: Gate>(&mut self, rt: &R, gate: &G, tally: &mut Tally) -> Step
        ensures goes { (on : Setting) → Goes on 1 self.old self.new tally.old.lines.items tally.new.lines.items tally.old.device tally.new.device (end_of result) }
    {
        if tally.is_full() {
            return Step::Last;
        }
        let Some((now, _word)) = self.ask() else {
            tally.note(Some(DeviceFault::Outside));
            return Step::Over(End::Blind);
        };
        let datagram = match self.receive() {
            Received::Packet(datagram) => datagram,
            Received::Failed => {
                tally.note(Some(DeviceFault::Sockets));
                return Step::More;
            }
            Received::Nothing => return Step::Last,
        };
        let Some(answered) = self.hear(&datagram, now) else {
            return Step::More;
        };
        let news = News::Result(answered.watched.server, answered.waits.word, true);
        let Some(told) = self.tell(rt, gate, news, now) else {
            return Step::Over(End::Held);
        };
        self.end_probe(answered.index, answered.watched);
        tally.add_event(line_of(news, now, told));
        Step::More
    }

    /// Ends the probes that are over.
    fn end_all<R: Wait, G: Gate>(
        &mut self,
        rt: &R,
        gate: &G,
        tally: &mut Tally,
        begun: u64,
    ) -> Option<End>
        ensures goes { (roster : Rostered) → Goes (setting roster begun) 0 self.old self.new tally.old.lines.items tally.new.lines.items tally.old.device tally.new.device result }
        ensures timely { result ≡ None → (64 ≤ tally.new.events) ⊎ Each (IsTimely begun) self.new.probes.watched }
    {
        for index in 0..self.probes.len() {
            if let Some(end) = self.end_one(rt, gate, tally, begun, index) {
                return Some(end);
            }
        }
        None
    }

    /// Ends the probe of the server at a place, where it is over.
    fn end_one<R: Wait, G: Gate>(
        &mut self,
        rt: &R,
        gate: &G,
        tally: &mut Tally,
        begun: u64,
        index: usize,
    ) -> Option<End>
        ensures goes { (roster : Rostered) → Goes (setting roster begun) 0 self.old self.new tally.old.lines.items tally.new.lines.items tally.old.device tally.new.device result }
        ensures ended { result ≡ None → EndsAt begun index self.old.probes.watched self.new.probes.watched tally.old.events tally.new.events }
        ensures probes { tally.new.probes ≡ tally.old.probes }
    {
        let (watched, waits) = self.over_at(index, begun)?;
        if tally.is_full() {
            return None;
        }
        let Some((now, _word)) = self.ask() else {
            tally.note(Some(DeviceFault::Outside));
            return Some(End::Blind);
        };
        let news = News::Result(watched.server, waits.word, false);
        let Some(told) = self.tell(rt, gate, news, now) else {
            return Some(End::Held);
        };
        self.end_probe(index, watched);
        tally.add_event(line_of(news, now, told));
        None
    }

    /// Sends each server in mode auto whose next probe is due a probe.
    fn probe_all<R: Wait, G: Gate>(
        &mut self,
        rt: &R,
        roster: &Roster,
        gate: &G,
        tally: &mut Tally,
        begun: u64,
    ) -> Option<End>
        ensures goes { Goes (setting roster.now begun) 0 self.old self.new tally.old.lines.items tally.new.lines.items tally.old.device tally.new.device result }
        ensures timely { result ≡ None → (64 ≤ tally.old.events) ⊎ Each (IsTimely begun) self.old.probes.watched → (64 ≤ tally.new.events) ⊎ Each (IsTimely begun) self.new.probes.watched }
        ensures asked { result ≡ None → (64 ≤ tally.new.probes) ⊎ Each (IsAsked roster.now.listed begun) self.new.probes.watched }
    {
        for index in 0..self.probes.len() {
            let Some(due) = self.due_at(roster, index, begun) else {
                continue;
            };
            if let Some(end) = self.probe_one(rt, gate, tally, begun, due) {
                return Some(end);
            }
        }
        None
    }

    /// Sends a server a probe, which is due, unless as many were sent as may be. If it could not be
    /// sent, the probe ends at once.
    fn probe_one<R: Wait, G: Gate>(
        &mut self,
        rt: &R,
        gate: &G,
        tally: &mut Tally,
        begun: u64,
        due: Due,
    ) -> Option<End>
        requires there { slice_get self.old.probes.watched due.index ≡ Some due.watched }
        ensures goes { GoesWhenDue begun due self.old self.new tally.old.lines.items tally.new.lines.items tally.old.device tally.new.device result }
        ensures probed { result ≡ None → ProbesDueAt begun due.index self.old.probes.watched self.new.probes.watched tally.old.events tally.new.events tally.old.probes tally.new.probes }
    {
        if tally.probes == MAX_EVENTS_OF_TURN {
            return None;
        }
        if let Some(end) = self.begin_one(tally, begun, due) {
            return Some(end);
        }
        self.end_one(rt, gate, tally, begun, due.index)
    }

    /// Sends a server a probe, which is due.
    fn begin_one(&mut self, tally: &mut Tally, begun: u64, due: Due) -> Option<End>
        requires there { slice_get self.old.probes.watched due.index ≡ Some due.watched }
        requires room { tally.old.probes < 64 }
        ensures goes { GoesWhenDue begun due self.old self.new tally.old.lines.items tally.new.lines.items tally.old.device tally.new.device result }
        ensures begun { result ≡ None → BeginsAt begun due.index self.old.probes.watched self.new.probes.watched }
        ensures counts { (tally.new.events ≡ tally.old.events) × (tally.old.probes ≤ tally.new.probes) }
    {
        let Some(stamp) = self.ask() else {
            tally.note(Some(DeviceFault::Outside));
            return Some(End::Blind);
        };
        let sending = self.send_probe(due, begun, stamp);
        tally.add_probe(Line::Probe(due.watched.server, stamp.1, sending));
        None
    }

    /// Ticks until the desk has nothing more that is due.
    fn tick_all<R: Wait, G: Gate>(&mut self, rt: &R, gate: &G, tally: &mut Tally) -> Option<End>
        ensures goes { (on : Setting) → Goes on 0 self.old self.new tally.old.lines.items tally.new.lines.items tally.old.device tally.new.device result }
        ensures same { (self.new.probes ≡ self.old.probes) × (tally.old.events ≤ tally.new.events) × (tally.new.probes ≡ tally.old.probes) }
        ensures rests { result ≡ None → Rests tally.new.lines.items }
    {
        for _ in 0..MAX_EVENTS_OF_TURN {
            match self.tick_one(rt, gate, tally) {
                Step::More => {}
                Step::Last => return None,
                Step::Over(end) => return Some(end),
            }
        }
        None
    }

    /// Tells a tick. It is the last one where nothing more is due, or no further event is told.
    fn tick_one<R: Wait, G: Gate>(&mut self, rt: &R, gate: &G, tally: &mut Tally) -> Step
        ensures goes { (on : Setting) → Goes on 0 self.old self.new tally.old.lines.items tally.new.lines.items tally.old.device tally.new.device (end_of result) }
        ensures same { (self.new.probes ≡ self.old.probes) × (tally.old.events ≤ tally.new.events) × (tally.new.probes ≡ tally.old.probes) }
        ensures rests { result ≡ steps.Last → Rests tally.new.lines.items }
        ensures more { result ≡ steps.More → tally.new.events ≡ tally.old.events + 1 }
    {
        if tally.is_full() {
            return Step::Last;
        }
        let Some((now, _word)) = self.ask() else {
            tally.note(Some(DeviceFault::Outside));
            return Step::Over(End::Blind);
        };
        let Some(told) = self.tell(rt, gate, News::Tick, now) else {
            return Step::Over(End::Held);
        };
        let is_quiet = is_quiet(&told.outcome);
        tally.add_event(line_of(News::Tick, now, told));
        if is_quiet { Step::Last } else { Step::More }
    }
}

/// Whether nothing more is due after what came of a tick.
fn is_quiet(outcome: &Outcome) -> bool
    ensures { result ≡ is_quiet outcome.now }
{
    match outcome {
        Outcome::Answered(Answer::Quiet) | Outcome::Fault(..) => true,
        Outcome::Answered(_) => false,
    }
}
