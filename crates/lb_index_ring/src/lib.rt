//! A ring of numbered slots in order: whoever holds values in slots puts, takes and finds a neighbour at once.
#![tactic(auto)]

mod ring;

pub use ring::Ring;
