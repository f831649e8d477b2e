//! The loop of streams: its connections, and its turn.
#![tactic(auto)]

mod dialing;
mod laws;
mod links;
mod owing;
mod reading;
mod rounds;
mod sending;
mod streams;
mod taking;
mod turn;
mod writing;

pub use laws::{goes_on, moved_fares, none_is_done, one_goes};
pub use streams::StreamLoop;
pub use turn::stream_turn;
