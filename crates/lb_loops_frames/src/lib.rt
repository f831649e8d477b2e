//! Frames: messages of streams, each after its length (RFC 7766 section 8), octets that came, and octets that wait to be written.
#![tactic(auto)]

mod framer;
mod incoming;
mod laws;
mod message;
mod outgoing;

pub use framer::{Framer, frame};
pub use incoming::Incoming;
pub use laws::{cuts_do_not_matter, one_division};
pub use message::{LENGTH, Message};
pub use outgoing::Outgoing;
