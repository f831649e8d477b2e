//! A socket with its name.

use lb_loops_io::{Endpoint, Socket};
use mio::net::UdpSocket;

/// A socket, what it is called, and the end that it is connected to, if it is. It is by its name that what a socket gave or took is told.
#[derive(Clone, Copy)]
pub(crate) struct Wire<'s> {
    pub(crate) name: Socket,
    pub(crate) peer: Option<Endpoint>,
    pub(crate) socket: &'s UdpSocket,
}
