//! Commands and events as text, as an operator would type them: what is written here is read as the
//! command or the event that it was written for.
#![tactic(auto)]

mod actions;
mod addrs;
mod commands;
mod events;
mod options;
mod terms;
mod words;

pub use actions::action_text;
pub use addrs::addr_word;
pub use commands::{codes_word, command_line};
pub use events::event_line;
pub use terms::term_text;
pub use words::{mode_word, policy_word, pool_word, type_word};
