//! What comes of an event, and of the lines of a turn.

ghost use Rattle.std.specs.Prelude.{IsTrue, None, Some, false, if◌then◌else◌, length, option_to_list, vec_capacity, vec_len, ◌++◌, ◌+◌, ◌<◌, ◌≡◌, ◌≢◌, ◌≤◌, ℕ};
ghost use Rattle.lb_loops_io.specs.Counts.{Grows};
ghost use Rattle.lb_loops_io.specs.Letter.{IsOutcome};
ghost use Rattle.lb_loops_io.specs.Lines.{FirstFault, answered_as, is_by_device};
ghost use Rattle.lb_loops_io.specs.Ways.{sending_of};
ghost use Rattle.lb_loops_io.specs.declared.report.DeviceFault.TheVariants as devices;

use crate::letter::excuse;
use crate::report::{DeviceFault, Line, Outcome, Sending, Why};
use crate::traits::Taker;
use lb_core::Event;

/// What comes of an event at the desk.
pub fn outcome_of<T: Taker>(taker: &mut T, event: Event) -> Outcome
    ensures is { IsOutcome event result }
    ensures answered { T.answered taker.new ≡ T.answered taker.old + length (answered_as event result) }
    ensures pairs { Grows (T.pairs taker.old) (T.pairs taker.new) (answered_as event result) }
{
    match taker.take(event) {
        Ok(answer) => Outcome::Answered(answer),
        Err((fault, event)) => Outcome::Fault(fault, excuse(event)),
    }
}

/// The device fault that a line shows.
pub fn fault_in(line: &Line) -> Option<DeviceFault>
    ensures { result ≡ (if is_by_device (sending_of line.now) then Some devices.Sockets else None) }
{
    match line {
        Line::Event(_, _, _, Sending::Failed(Why::Device))
        | Line::Job(_, Sending::Failed(Why::Device))
        | Line::Probe(_, _, Sending::Failed(Why::Device)) => Some(DeviceFault::Sockets),
        _ => None,
    }
}

/// The first of two device faults, the second of which was found later. Nothing is done after a fault of what is outside.
pub fn first_fault(device: Option<DeviceFault>, found: Option<DeviceFault>) -> Option<DeviceFault>
    ensures first { (s s' s'' o o' o'' : ℕ) → device ≢ Some devices.Outside → FirstFault device s s' o o' → FirstFault found s' s'' o' o'' → FirstFault result s s'' o o'' }
    ensures clear { device ≢ Some devices.Outside → found ≢ Some devices.Outside → result ≢ Some devices.Outside }
{
    match device {
        Some(device) => Some(device),
        None => found,
    }
}

/// Puts a line after the others, for which room was taken.
pub fn add_line(lines: &mut Vec<Line>, line: Option<Line>)
    requires { vec_len lines.old < vec_capacity lines.old }
    ensures lines { lines.new.items ≡ lines.old.items ++ option_to_list line }
    ensures len { vec_len lines.new ≤ vec_len lines.old + 1 }
    ensures room { vec_capacity lines.new ≡ vec_capacity lines.old }
{
    if let Some(line) = line {
        lines.push_reserved(line);
    }
}
