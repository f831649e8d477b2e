//! The outbox: a bounded queue of sends from one loop to another, with two senders and one receiver, which keeps each sender's order.
#![tactic(auto)]

mod job;
mod outbox;
mod rule;

pub use job::Job;
pub use outbox::{Outbox, Receiver, Sender, Settled, finish};
pub use rule::{Delivery, SenderId};
