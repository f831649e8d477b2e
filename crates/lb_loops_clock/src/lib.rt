//! The turn of the clock: probes of servers and their results, and ticks.
#![tactic(auto)]

mod clock;
mod news;
mod sending;
mod steps;
mod tally;
mod turn;

pub use clock::ClockLoop;
pub use turn::clock_turn;
