//! The turn of streams.

ghost use Rattle.std.specs.Prelude.{[], IfNone, IfOk, IfSome, None, OnErr, option_to_list, vec_capacity, vec_len, ℕ, ◌++◌, ◌+◌, ◌∷◌, ◌≡◌, ◌≤◌};
ghost use Rattle.lb_loops_io.specs.Lines.{FirstFault};
ghost use Rattle.lb_loops_tcp.specs.Ends.{first_device, is_blind, is_blinded};
ghost use Rattle.lb_loops_tcp.specs.Goes.{Goes, Settles, none, reads_of};
ghost use Rattle.lb_loops_tcp.specs.Steps as steps;
ghost use Rattle.lb_loops_tcp.specs.Steps.{lines_of};
ghost use Rattle.lb_loops_tcp.specs.Turn.{OneRoundMore, Stood, Sweeps, Turned, Turns};

use crate::rounds::Step;
use crate::streams::StreamLoop;
use lb_loops_io::{
    DeviceFault, Gate, Line, MAX_EVENTS_OF_TURN, Outside, Posts, Report, Roster, Streams, Taker,
    add_line,
};
use std::alloc::AllocError;
use std::sync::Wait;

/// One turn: connections whose time is over are closed; then at most 64 rounds each take a job
/// of another loop, what one socket has, and one message of the connection whose turn it is,
/// whose event goes to the desk; and what is to be written is written. It ends if there is
/// nothing more to do, if the gate holds an event, and if there is no moment to be had. A
/// message for whose event there is no memory stays, and the turn goes on while jobs or sockets
/// have something. What was not taken stays. The one error is refused memory for the report:
/// then nothing was read or sent.
pub fn stream_turn<R: Wait, S: Streams, T: Taker, O: Outside, P: Posts, G: Gate>(
    rt: &R,
    streams: &mut StreamLoop<S, T, O, P>,
    roster: &Roster,
    gate: &G,
) -> Result<Report, AllocError>
    // What the turn did is what its lines say, over all connections.
    ensures turned { IfOk result (λ r. Turned roster.now.listed streams.old streams.new r.lines.items) }
    // The first device that failed is reported.
    ensures device { IfOk result (λ r. FirstFault r.device streams.old.net.told.failures streams.new.net.told.failures streams.old.outside streams.new.outside) }
    ensures held { IfOk result (λ r. r.held ≡ None) }
    // A connection that was not at its end before is not open at its end after: one that came to
    // its end was closed.
    ensures closed { IfOk result (λ _. Settles streams.old.net streams.new.net) }
    // At most 64 reads and accepts were made, whatever came of them.
    ensures reads { IfOk result (λ _. reads_of streams.new.net ≤ reads_of streams.old.net + 64) }
    ensures refused { OnErr result (streams.new ≡ streams.old) }
{
    let mut lines = streams.blank_lines();
    lines.reserve(2 * MAX_EVENTS_OF_TURN)?;
    Ok(streams.whole_turn(rt, roster, gate, lines))
}

impl<S: Streams, T: Taker, O: Outside, P: Posts> StreamLoop<S, T, O, P> {
    /// The turn, whose lines have room.
    fn whole_turn<R: Wait, G: Gate>(
        &mut self,
        rt: &R,
        roster: &Roster,
        gate: &G,
        mut lines: Vec<Line>,
    ) -> Report
        requires empty { (lines.items ≡ []) × (vec_len lines ≡ 0) }
        requires room { 128 ≤ vec_capacity lines }
        ensures turned { Turned roster.now.listed self.old self.new result.lines.items }
        ensures closed { Settles self.old.net self.new.net }
        ensures device { FirstFault result.device self.old.net.told.failures self.new.net.told.failures self.old.outside self.new.outside }
        ensures held { result.held ≡ None }
        ensures reads { reads_of self.new.net ≤ reads_of self.old.net + 64 }
    {
        let Some(now) = self.begin() else {
            return report(lines, self.device(), End::Blind);
        };
        self.follow(roster, now);
        let end = self.all_rounds(rt, roster, gate, now, &mut lines);
        self.write_all();
        report(lines, self.device(), end)
    }

    /// The moment at which the turn begins, where there is one. Connections whose time is over then are closed, and no device fault is
    /// noted any more.
    fn begin(&mut self) -> Option<u64>
        ensures sweeps { IfSome result (λ now. Sweeps now (record self.old.net { device = None }) self.new.net) }
        ensures said { IfSome result (λ now. (word : ℕ) × (self.new ≡ record self.old { net = self.new.net; said = self.old.said ++ (now, word) ∷ [] })) }
        ensures stood { IfNone result (Stood self.old self.new []) }
    {
        self.links.device = None;
        let Some((now, _)) = self.outside.ask() else {
            return None;
        };
        self.links.sweep(now);
        Some(now)
    }

    /// Connections to servers that the roster has elsewhere, or no more, are read on for a while.
    fn follow(&mut self, roster: &Roster, now: u64)
        ensures goes { Goes self.old.net self.new.net none none }
        ensures settles { Settles self.old.net self.new.net }
        ensures same { self.new ≡ record self.old { net = self.new.net } }
        ensures reads { reads_of self.new.net ≡ reads_of self.old.net }
    {
        self.links.follow(roster, now);
    }

    /// Writes what is to be written at the end of the turn.
    fn write_all(&mut self)
        ensures goes { Goes self.old.net self.new.net none none }
        ensures settles { Settles self.old.net self.new.net }
        ensures same { self.new ≡ record self.old { net = self.new.net } }
        ensures reads { reads_of self.new.net ≡ reads_of self.old.net }
    {
        self.links.write_all();
    }

    /// The first device fault of the sockets in this turn.
    fn device(&self) -> Option<DeviceFault>
        ensures { result ≡ self.now.net.device }
    {
        self.links.device
    }

    /// At most 64 rounds.
    fn all_rounds<R: Wait, G: Gate>(
        &mut self,
        rt: &R,
        roster: &Roster,
        gate: &G,
        now: u64,
        lines: &mut Vec<Line>,
    ) -> End
        requires empty { (lines.old.items ≡ []) × (vec_len lines.old ≡ 0) }
        requires room { 128 ≤ vec_capacity lines.old }
        ensures turns { Turns roster.now.listed 64 64 self.old self.new lines.new.items (is_blind result) }
        ensures reads { reads_of self.new.net ≤ reads_of self.old.net + 64 }
    {
        let mut coming = Coming {
            began: now,
            jobs: true,
            sockets: true,
        };
        for _ in 0..MAX_EVENTS_OF_TURN {
            if let Some(end) = self.one_round(rt, roster, gate, &mut coming, lines) {
                return end;
            }
        }
        End::Done
    }

    /// A round: a job, what one socket has, and an event. Why the rounds end, if they do. Once there
    /// was no job, or no socket had anything, none is asked for any more in this turn.
    fn one_round<R: Wait, G: Gate>(
        &mut self,
        rt: &R,
        roster: &Roster,
        gate: &G,
        coming: &mut Coming,
        lines: &mut Vec<Line>,
    ) -> Option<End>
        requires room { vec_len lines.old + 2 ≤ vec_capacity lines.old }
        ensures turned { OneRoundMore roster.now.listed self.old self.new lines.old.items lines.new.items (is_blinded result) }
        ensures len { vec_len lines.new ≤ vec_len lines.old + 2 }
        ensures capacity { vec_capacity lines.new ≡ vec_capacity lines.old }
        ensures reads { reads_of self.new.net ≤ reads_of self.old.net + 1 }
    {
        let job = self.next_job(rt, roster, coming.jobs);
        coming.jobs = job.is_some();
        add_line(lines, job);
        coming.sockets = self.next_arrival(roster, coming.began, coming.sockets);
        let step = self.one_event(roster, gate);
        let end = end_after(&step, coming.jobs || coming.sockets);
        add_line(lines, line_of(step));
        end
    }
}

/// What may still come in a turn.
#[derive(Clone, Copy, Debug)]
struct Coming {
    /// The moment at which the turn began, in milliseconds.
    began: u64,
    /// A job of another loop.
    jobs: bool,
    /// Something that a socket has.
    sockets: bool,
}

/// Why the rounds end after this step, where they do.
fn end_after(step: &Step, was_busy: bool) -> Option<End>
    ensures { is_blinded result ≡ steps.is_blind step.now }
{
    match step {
        Step::Told(_) | Step::Passed => None,
        Step::Idle | Step::Wanting if was_busy => None,
        Step::Idle | Step::Wanting => Some(End::Done),
        Step::Held => Some(End::Held),
        Step::Blind => Some(End::Blind),
    }
}

/// The line of a step.
fn line_of(step: Step) -> Option<Line>
    ensures { option_to_list result ≡ lines_of step }
{
    match step {
        Step::Told(line) => Some(line),
        _ => None,
    }
}

/// A report of these lines, with the first device fault of the sockets.
fn report(lines: Vec<Line>, device: Option<DeviceFault>, end: End) -> Report
    ensures lines { (result.lines ≡ lines) × (result.held ≡ None) }
    ensures device { result.device ≡ first_device (is_blind end) device }
{
    let device = match (device, end) {
        (None, End::Blind) => Some(DeviceFault::Outside),
        _ => device,
    };
    Report {
        lines,
        device,
        is_held: end == End::Held,
        held: None,
    }
}

/// Why the rounds ended.
#[derive(Clone, Copy, Debug, PartialEq, Eq)]
pub(crate) enum End {
    Done,
    /// The gate held an event.
    Held,
    /// There was no moment to be had.
    Blind,
}
