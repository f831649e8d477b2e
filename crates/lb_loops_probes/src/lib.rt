//! The servers that are probed: where each is, when its next probe is due, the probe that is under way, and which datagram answers it.
#![tactic(auto)]

mod probes;
mod watched;

pub use probes::{Answered, Due, Probes};
pub use watched::{Waits, Watched};
