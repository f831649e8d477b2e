//! The system's sockets of datagrams and of streams, over mio, and its moments and random words:
//! what the loops stand on where they serve.
#![tactic(auto)]

mod addresses;
mod arrivals;
mod clients;
mod connections;
mod datagrams;
mod fronts;
mod laws;
mod listening;
mod options;
mod outside;
mod pieces;
mod queue;
mod reader;
mod readiness;
mod sender;
mod servers;
mod sources;
mod streams;
mod told;
mod waker;
mod watch;
mod wire;

pub use datagrams::UdpSockets;
pub use fronts::{TcpListeners, listener_at, std_listener_at, stream_listeners};
pub use laws::{
    listeners_cross_threads, moments_cross_threads, sockets_cross_threads, streams_cross_threads,
    wakers_are_shared,
};
pub use listening::{BindFault, ListenSockets, listeners};
pub use options::Share;
pub use outside::SystemOutside;
pub use streams::{Limits, TcpSockets};
pub use waker::PollWaker;
