//! What loops are made of, and what they leave. Room that a loop needs for as long as it runs is part
//! of what it is made of, so that a thread takes none before its first turn.

use lb_loops_connections::Connections;
use lb_loops_io::{Roster, Service};
use lb_loops_probes::Probes;
use lb_outbox::{Receiver, Sender};
use lb_sends::Sends;
use std::sync::atomic::AtomicBool;
use std::sync::{Arc, Mutex};

/// What a loop of datagrams is made of.
#[derive(Drop)]
pub struct DatagramParts<S, T, O> {
    /// Its listeners, and a socket for each server.
    pub sockets: S,
    /// Its copy of the roster.
    pub roster: Roster,
    /// Its event handler.
    pub taker: T,
    /// Its source of moments and words.
    pub outside: O,
}

/// What the loop of streams is made of.
#[derive(Drop)]
pub struct StreamParts<S, T, O, P> {
    /// Its listeners and connections.
    pub sockets: S,
    /// The table of its connections.
    pub table: Connections,
    /// Its copy of the roster.
    pub roster: Roster,
    /// The jobs that other loops send to it.
    pub receiver: Receiver,
    /// What listens at each place of the listen lines.
    pub fronts: Vec<Service>,
    /// The HTTP requests that wait.
    pub posts: P,
    /// Its event handler.
    pub taker: T,
    /// Its source of moments and words.
    pub outside: O,
    /// For how many milliseconds a client may send no message while none of its queries is pending,
    /// if that is limited.
    pub idle: Option<u64>,
}

/// What the loop of the clock is made of.
#[derive(Drop)]
pub struct ClockParts<S, T, O, P> {
    /// The listeners' shared sockets, and one of its own for each server that is probed.
    pub sockets: S,
    /// The servers that are probed.
    pub probes: Probes,
    /// Its copy of the roster.
    pub roster: Roster,
    /// Sender two of the outbox.
    pub sender: Sender,
    /// What listens at each place of the listen lines.
    pub fronts: Vec<Service>,
    /// The HTTP requests that wait.
    pub posts: P,
    /// Its event handler.
    pub taker: T,
    /// Its source of moments and words.
    pub outside: O,
}

/// What the loops are made of, each in a thread of its own.
#[derive(Drop)]
pub struct Parts<D, T, S, C, G, W> {
    /// The loops of datagrams.
    pub datagrams: Vec<D>,
    /// Room for their event handlers, when they have ended. What is in it goes.
    pub takers: Vec<T>,
    /// The loop of streams.
    pub streams: S,
    /// The loop of the clock.
    pub clock: C,
    /// Where servers are. Each loop takes it over into its copy before a turn, if it was changed.
    pub roster: Arc<Mutex<Roster>>,
    /// What each event passes before it goes to the desk.
    pub gate: G,
    /// Counts failed sends, and probes. Each loop raises the counts after a turn.
    pub sends: Arc<Sends>,
    /// Set, it ends the loops. Whoever sets it wakes them.
    pub stop: Arc<AtomicBool>,
    /// Wake the loops of datagrams, one each, in their order.
    pub datagrams_wakers: Vec<W>,
    /// Wakes the loop of streams.
    pub streams_waker: W,
    /// Wakes the loop of the clock.
    pub clock_waker: W,
}

/// What the loops leave after they have ended: their event handlers, the sender of the clock's
/// loop, and the receiver.
#[derive(Drop)]
pub struct Ended<T, U, V> {
    /// Those of the loops of datagrams, in their order.
    pub datagrams: Vec<T>,
    pub streams: U,
    pub clock: V,
    pub sender: Sender,
    pub receiver: Receiver,
}
