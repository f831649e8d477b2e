//! Texts of the console: commands, event lines and setup lines are read, each to its first fault, and answers written as lines.
#![tactic(auto)]

mod actions;
mod answers;
mod commands;
mod events;
mod fault;
mod laws;
mod options;
mod parts;
mod setup;
mod skips;
mod terms;
mod values;
mod words;

pub use answers::{answer_line, note_text, refusal_text};
pub use commands::read_command;
pub use events::read_event_line;
pub use fault::{CommandFault, FaultKind, MAX_LINE};
pub use laws::{equal_lines_mean_equal_answers, one_command, one_event, one_setup_line};
pub use setup::{Listener, Protocol, SetupLine, begins_listen, read_setup_line};
pub use words::spaces as leading_spaces;
