//! What the words of a command line ask for, and that it is done: `lb serve`, `lb check` or `lb replay`.
#![tactic(auto)]

mod program;

pub use program::{Mode, behind_first, choose, start};
