//! What crosses sockets.

use crate::endpoint::Endpoint;
use lb_wire::{Octets, ServerId};
use thiserror::Error;

/// A socket of datagrams.
#[derive(Clone, Copy, Debug, PartialEq, Eq)]
pub enum Socket {
    /// The listener at this place of the listen lines, from 0.
    Listener(u8),
    /// The socket of a server: of the upstream socket with this number, made for this end.
    Server(ServerId, u8, Endpoint),
}

/// A datagram, with the socket that gave or took it and the end that it came from or goes to.
#[derive(Debug, Drop)]
pub struct Datagram {
    pub socket: Socket,
    pub peer: Endpoint,
    pub bytes: Octets,
}

/// What a read of datagrams gave.
#[derive(Debug, Drop)]
pub enum Received {
    Packet(Datagram),
    /// No socket has a datagram now.
    Nothing,
    /// A device failed.
    Failed,
}

/// What listens at a place of the listen lines.
#[derive(Clone, Copy, Debug, PartialEq, Eq)]
pub enum Service {
    /// Queries by datagrams.
    Datagram,
    /// Queries by streams.
    Stream,
    /// Queries by HTTP requests.
    Http,
    /// An operator's commands.
    Console,
}

/// Who is at the other end of a connection.
#[derive(Clone, Copy, Debug, PartialEq, Eq)]
pub enum Peer {
    /// A client of the listener at this place of the listen lines, from this end.
    Client(u8, Endpoint),
    /// A server, by the upstream socket with this number, dialled at this end.
    Server(ServerId, u8, Endpoint),
}

/// What there is to do at the sockets of streams.
#[derive(Clone, Copy, Debug, PartialEq, Eq)]
pub enum Ready {
    Nothing,
    /// A client waits at a listener.
    Incoming,
    /// The connection with this number may be read.
    Readable(u64),
    /// The connection with this number may be written.
    Writable(u64),
}

/// What came of accepting a client.
#[derive(Clone, Copy, Debug, PartialEq, Eq)]
pub enum Accepted {
    /// A client of the listener at this place of the listen lines, from 0, from this end.
    Client(u8, Endpoint),
    /// None waits, or none can be taken in now.
    Nothing,
    /// A device failed.
    Failed,
}

/// Waiting for sockets failed.
#[derive(Clone, Copy, Debug, PartialEq, Eq, Error)]
#[error("waiting for sockets failed")]
pub struct WaitFailed;

/// What a read of a stream gave.
#[derive(Debug, Drop)]
pub enum Read {
    Piece(Octets),
    /// There is nothing to read now.
    Nothing,
    /// The peer has closed its side.
    Ended,
    /// A device failed.
    Failed,
}
