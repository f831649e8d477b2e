//! Counts of what the loops do beside the desk: failed sends, by cause, probes and their last
//! results, how long servers take to reply, and clients that hold a connection. No answer depends
//! on them.
#![tactic(auto)]

mod clients;
mod laws;
mod probed;
mod sends;
mod times;

pub use clients::{Clients, Closing, Refusal};
pub use laws::sends_cross_threads;
pub use probed::Probed;
pub use sends::Sends;
pub use times::ReplyTimes;
