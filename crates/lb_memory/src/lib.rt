//! Sockets, requests, moments and words in memory, for tests: they tell their bytes, and can fail or lack memory at a call.
#![tactic(auto)]

mod datagrams;
mod outside;
mod posts;
mod streams;
mod wires;

pub use datagrams::{Failing, MemoryDatagrams, Packets};
pub use outside::{MemoryOutside, Moments};
pub use posts::{MemoryPosts, Requests};
pub use streams::{MemoryStreams, StreamFailing};
pub use wires::Wires;
