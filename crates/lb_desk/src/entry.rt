//! What a desk's log holds, and what its callers keep of it.

use lb_core::{Answer, Event};

/// The number of a seat at its desk, from 0.
#[derive(Clone, Copy, Debug, PartialEq, Eq)]
pub struct SeatId(pub u8);

/// A call that was answered, as the log has it.
#[derive(Debug, Drop)]
pub struct LogEntry {
    pub seat: SeatId,
    pub event: Event,
    pub answer: Answer,
}

/// A call that the log has, as its caller's seat has it: its place in the log, from 0, the event and its answer.
#[derive(Debug, Drop)]
pub struct Receipt {
    pub place: u64,
    pub event: Event,
    pub answer: Answer,
}
