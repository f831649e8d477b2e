//! The health of one server: when results of probes take it down and bring it up again, the probe that it is sent, and
//! which reply is the answer to that.
#![tactic(auto)]

mod health;
mod laws;
mod probes;

pub use health::{Changed, Health};
pub use laws::{last_of_a_row, last_of_a_row_from};
pub use probes::{PROBE_LEN, ProbeBytes, judge, probe};
