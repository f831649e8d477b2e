//! Counts under the numbers of what comes and goes, as rules and servers do. A count is found by its number, however many there
//! are.
#![tactic(auto)]

mod tallies;

pub use tallies::Tallies;
