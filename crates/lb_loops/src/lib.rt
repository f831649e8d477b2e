//! The loops between sockets and the desk: framing, the lines of a report, turns, and the loops
//! that have turns in threads of their own. What stands in crates of its own below is found here
//! under one roof.
#![tactic(auto)]

mod around;
mod caller;
mod fault;
mod last_sent;
mod laws;
mod parts;
mod rounds;
mod row;
mod running;
mod threads;

pub use caller::Caller;
pub use fault::LoopFault;
pub use laws::callers_cross_threads;
pub use lb_loops_clock::{ClockLoop, clock_turn};
pub use lb_loops_connections::Connections;
pub use lb_loops_frames::{
    Framer, Incoming, Message, Outgoing, cuts_do_not_matter, frame, one_division,
};
pub use lb_loops_io::{
    Accepted, Answering, Datagram, Datagrams, DeviceFault, End, Endpoint, Gate, Head, Line,
    Outcome, Outside, Peer, Place, Posts, Read, Ready, Received, Report, Reported, Roster,
    RosterFull, Sending, Service, Socket, Source, Streams, Taker, WaitFailed, Waker, Way, Why,
    one_send_a_line,
};
pub use lb_loops_probes::Probes;
pub use lb_loops_tcp::{StreamLoop, stream_turn};
pub use lb_loops_udp::{DatagramLoop, datagram_turn};
pub use lb_outbox::{Delivery, Job, Outbox, Receiver, Sender, SenderId, Settled, finish};
pub use parts::{ClockParts, DatagramParts, Ended, Parts, StreamParts};
pub use threads::run_loops;
