//! What a turn has done so far.

ghost use Rattle.std.specs.Prelude.{[], IfOk, None, OnOk, Some, false, if◌then◌else◌, length, true, vec_capacity, vec_len, ◌++◌, ◌+◌, ◌<◌, ◌∷◌, ◌≡◌, ◌≤◌};
ghost use Rattle.lb_loops_clock.specs.Acts.{or_device};
ghost use Rattle.lb_loops_clock.specs.Lines.{probes_in};
ghost use Rattle.lb_loops_clock.specs.Turn.{held_by};
ghost use Rattle.lb_loops_io.specs.Lines.{events_in, is_by_device};
ghost use Rattle.lb_loops_io.specs.Ways.{sending_of};
ghost use Rattle.lb_loops_io.specs.declared.report.DeviceFault.TheVariants as devices;

use crate::turn::End;
use lb_loops_io::{DeviceFault, Line, MAX_EVENTS_OF_TURN, Report, fault_in};
use std::alloc::AllocError;

/// The lines of a turn, how many of them are events and probes, and the first device fault.
#[derive(Drop)]
pub(crate) struct Tally {
    pub(crate) lines: Vec<Line>,
    pub(crate) device: Option<DeviceFault>,
    pub(crate) events: usize,
    pub(crate) probes: usize,
    ghost room: { 128 ≤ vec_capacity lines },
    ghost events_told: { events ≡ length (events_in lines.items) },
    ghost probes_told: { probes ≡ length (probes_in lines.items) },
    ghost few: { (events ≤ 64) × (probes ≤ 64) × (vec_len lines ≤ events + probes) },
}

impl Tally {
    /// A turn begins, with this room for its lines. The one error is lack of memory for them.
    pub(crate) fn begun(mut lines: Vec<Line>) -> Result<Tally, AllocError>
        requires blank { (lines.items ≡ []) × (vec_len lines ≡ 0) }
        ensures { IfOk result (λ t. (t.lines.items ≡ []) × (t.device ≡ None)) }
    {
        lines.reserve(2 * MAX_EVENTS_OF_TURN)?;
        Ok(Tally {
            lines,
            device: None,
            events: 0,
            probes: 0,
        })
    }

    /// Whether no further event is told.
    pub(crate) fn is_full(&self) -> bool
        ensures full { result ≡ true → length (events_in self.now.lines.items) ≡ 64 }
        ensures all { result ≡ true → self.now.events ≡ 64 }
        ensures room { result ≡ false → self.now.events < 64 }
    {
        self.events == MAX_EVENTS_OF_TURN
    }

    /// Puts the line of an event after the others.
    #[tactic(auto, using(crate::proofs::Counting::event_more, crate::proofs::Counting::event_no_probe))]
    pub(crate) fn add_event(&mut self, line: Line)
        requires room { self.old.events < 64 }
        requires one { (length (events_in (line ∷ [])) ≡ 1) × (probes_in (line ∷ []) ≡ []) }
        ensures lines { self.new.lines.items ≡ self.old.lines.items ++ line ∷ [] }
        ensures device { self.new.device ≡ or_device self.old.device (if is_by_device (sending_of line) then Some devices.Sockets else None) }
        ensures count { (self.new.events ≡ self.old.events + 1) × (self.new.probes ≡ self.old.probes) }
    {
        self.note(fault_in(&line));
        self.events += 1;
        self.lines.push_reserved(line);
    }

    /// Puts the line of a probe after the others.
    #[tactic(auto, using(crate::proofs::Counting::probe_more, crate::proofs::Counting::probe_no_event))]
    pub(crate) fn add_probe(&mut self, line: Line)
        requires room { self.old.probes < 64 }
        requires one { (length (probes_in (line ∷ [])) ≡ 1) × (events_in (line ∷ []) ≡ []) }
        ensures lines { self.new.lines.items ≡ self.old.lines.items ++ line ∷ [] }
        ensures device { self.new.device ≡ or_device self.old.device (if is_by_device (sending_of line) then Some devices.Sockets else None) }
        ensures count { (self.new.events ≡ self.old.events) × (self.old.probes ≤ self.new.probes) }
    {
        self.note(fault_in(&line));
        self.probes += 1;
        self.lines.push_reserved(line);
    }

    /// Notes a device fault, where it is the first.
    pub(crate) fn note(&mut self, fault: Option<DeviceFault>)
        ensures device { self.new.device ≡ or_device self.old.device fault }
        ensures same { (self.new.lines ≡ self.old.lines) × (self.new.events ≡ self.old.events) × (self.new.probes ≡ self.old.probes) }
    {
        if self.device.is_none() {
            self.device = fault;
        }
    }

    /// The report of the turn, which ended for this reason before it was done, where there is one.
    pub(crate) fn report(self, end: Option<End>) -> Report
        ensures same { (result.lines.items ≡ self.lines.items) × (result.device ≡ self.device) × (result.held ≡ None) }
        ensures held { result.is_held ≡ held_by end }
        ensures few { (length (events_in result.lines.items) ≤ 64) × (length (probes_in result.lines.items) ≤ 64) }
    {
        let Tally { lines, device, .. } = self;
        Report {
            lines,
            device,
            is_held: end == Some(End::Held),
            held: None,
        }
    }
}
