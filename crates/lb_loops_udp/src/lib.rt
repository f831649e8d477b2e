//! The loop of datagrams, and its turn.
#![tactic(auto)]

mod datagrams;
mod sending;
mod spare;
mod turn;

pub use datagrams::DatagramLoop;
pub use turn::datagram_turn;
