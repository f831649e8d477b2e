//! The words of the console that change nothing: lists of what the balancer has, and what was
//! counted of it. What is listed is looked at under the desk's lock, and what is taken from there
//! is bounded. Contracts say which lines these words answer; none speaks of the texts.
#![tactic(auto)]

mod event;
mod heard;
mod lines;
mod lists;
mod metrics;
mod process;
mod program;
mod recent;
mod rules;
mod seen;
mod setup;
mod texts;
mod told;
mod top;
mod typed;
mod watch;
mod word;

pub use event::has_lacked;
pub use heard::{Heard, Words};
pub use word::{Word, word_of};
