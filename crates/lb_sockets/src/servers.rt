//! The sockets of servers.

ghost use Rattle.std.specs.Prelude.{IfSome, ◌≡◌};
ghost use Rattle.lb_loops_io.specs.declared.traffic.Socket.TheVariants as sockets;

use crate::addresses::{any_beside, socket_addr};
use crate::options::{Share, bound};
use crate::readiness::Readiness;
use crate::wire::Wire;
use lb_loops_io::{Endpoint, KEPT_AFTER_QUERY, Socket};
use lb_wire::ServerId;
use mio::net::UdpSocket;
use std::alloc::{AllocError, Global};
use std::collections::HashMap;
use std::io;
use std::net::{Net, SocketAddr};
use std::time::{Clock, Instant};

/// How long one stays open on which as many datagrams came as were sent, in milliseconds.
const QUIET: u64 = 5_000;

/// How often idle sockets are looked for, in milliseconds.
const LOOK: u64 = 1_000;

/// What a server's socket is found by: the server, the number of the upstream socket, and the end that it is connected to.
#[derive(Clone, Copy, PartialEq, Eq, Hash)]
struct Way {
    server: u64,
    upstream: u8,
    at: SocketAddr,
}

/// A server, the number of an upstream socket, and the end that the socket is made for.
#[derive(Clone, Copy)]
pub(crate) struct Upstream {
    pub(crate) server: ServerId,
    pub(crate) number: u8,
    pub(crate) at: Endpoint,
}

impl Upstream {
    /// What the socket is called.
    pub(crate) fn name(self) -> Socket
        ensures { result ≡ sockets.Server self.server self.number self.at }
    {
        Socket::Server(self.server, self.number, self.at)
    }

    /// What it is found by.
    fn way(self) -> Way {
        Way {
            server: self.server.0,
            upstream: self.number,
            at: socket_addr(self.at),
        }
    }
}

/// A socket that is connected to a server's end.
#[derive(Drop)]
struct ServerSocket {
    upstream: Upstream,
    socket: UdpSocket,
    /// When it last sent, or was made.
    used: u64,
    /// How many more datagrams it sent than came.
    awaited: u64,
    /// Whether its own address or its way was lost, so that it is to be made anew.
    is_lost: bool,
}

impl ServerSocket {
    fn wire(&self) -> Wire<'_> {
        Wire {
            name: self.upstream.name(),
            peer: Some(self.upstream.at),
            socket: &self.socket,
        }
    }
}

/// The sockets of servers, each in a slot, with the moments at which they sent.
#[derive(Drop)]
pub(crate) struct Servers<'a, R: Clock> {
    rt: &'a R,
    start: Instant,
    /// The last moment that the clock told, in milliseconds since the start.
    now: u64,
    /// When idle sockets are looked for again.
    next_look: u64,
    slots: Vec<Option<ServerSocket>>,
    places: HashMap<Way, usize>,
}

impl<'a, R: Clock> Servers<'a, R> {
    /// None. The one error is the clock's.
    pub(crate) fn made(rt: &'a R, alloc: Global) -> io::Result<Servers<'a, R>> {
        Ok(Servers {
            rt,
            start: Instant::now(rt)?,
            now: 0,
            next_look: LOOK,
            slots: Vec::new(alloc),
            places: HashMap::new(alloc),
        })
    }

    /// The slot of the socket by which a server is sent to, if there is one that may send.
    pub(crate) fn find(&self, upstream: Upstream) -> Option<usize> {
        let slot = *self.places.get(&upstream.way())?;
        let server = self.in_slot(slot)?;
        if server.is_lost { None } else { Some(slot) }
    }

    /// The socket in a slot.
    pub(crate) fn at(&self, slot: usize) -> Option<Wire<'_>> {
        Some(self.in_slot(slot)?.wire())
    }

    /// The socket in a slot, if it has this name.
    pub(crate) fn named(&self, slot: usize, name: Socket) -> Option<Wire<'_>>
        ensures { IfSome result (λ wire. wire.name ≡ name) }
    {
        let wire = self.at(slot)?;
        if wire.name == name { Some(wire) } else { None }
    }

    fn in_slot(&self, slot: usize) -> Option<&ServerSocket> {
        self.slots.get(slot)?.as_ref()
    }

    /// How many slots there are.
    pub(crate) fn count(&self) -> usize {
        self.slots.len()
    }

    /// Takes the room that one socket more needs.
    pub(crate) fn reserve(&mut self) -> Result<(), AllocError> {
        self.slots.reserve(1)?;
        self.places.reserve(1)
    }

    /// A slot that has no socket: the first of them, or one after the last.
    pub(crate) fn free_slot(&self) -> usize {
        let free = self.slots.iter().position(|slot| slot.is_none());
        free.unwrap_or(self.slots.len())
    }

    /// Puts a socket into a free slot. The one error is lack of memory; then the socket is closed.
    pub(crate) fn put(
        &mut self,
        slot: usize,
        upstream: Upstream,
        socket: UdpSocket,
    ) -> Result<(), AllocError> {
        let server = ServerSocket {
            upstream,
            socket,
            used: self.now,
            awaited: 0,
            is_lost: false,
        };
        self.places.insert(upstream.way(), slot)?;
        match self.slots.get_mut(slot) {
            Some(place) => *place = Some(server),
            None => self.slots.push(Some(server))?,
        }
        Ok(())
    }

    /// Notes that the socket in a slot sent.
    pub(crate) fn sent(&mut self, slot: usize) {
        let now = self.now;
        if let Some(Some(server)) = self.slots.get_mut(slot) {
            server.used = now;
            server.awaited = server.awaited.saturating_add(1);
        }
    }

    /// Notes that a datagram came by the socket in a slot.
    pub(crate) fn heard(&mut self, slot: usize) {
        if let Some(Some(server)) = self.slots.get_mut(slot) {
            server.awaited = server.awaited.saturating_sub(1);
        }
    }

    /// Notes that the socket in a slot is to be made anew.
    pub(crate) fn lose(&mut self, slot: usize) {
        if let Some(Some(server)) = self.slots.get_mut(slot) {
            server.is_lost = true;
        }
    }

    /// Closes the socket in a slot.
    pub(crate) fn close(&mut self, slot: usize) {
        if let Some(place) = self.slots.get_mut(slot)
            && let Some(server) = place.take()
        {
            self.places.remove(&server.upstream.way());
        }
    }

    /// Asks the clock. Where it fails, the moment stays.
    pub(crate) fn tell_time(&mut self) {
        if let Ok(past) = self.start.elapsed(self.rt) {
            self.now = u64::try_from(past.as_millis()).unwrap_or(u64::MAX);
        }
    }

    /// Whether idle sockets are to be looked for now, which is so once a second.
    pub(crate) fn is_look_due(&mut self) -> bool {
        let is_due = self.next_look <= self.now;
        if is_due {
            self.next_look = self.now.saturating_add(LOOK);
        }
        is_due
    }

    /// Whether a socket is in a slot that may be closed: it sent nothing for 61 seconds, or for 5 if
    /// nothing is awaited, or it is to be made anew. A reply that comes later has no query left to
    /// answer.
    pub(crate) fn is_over(&self, slot: usize) -> bool {
        let Some(server) = self.in_slot(slot) else {
            return false;
        };
        let idle = self.now.saturating_sub(server.used);
        server.is_lost || idle >= KEPT_AFTER_QUERY || (server.awaited == 0 && idle >= QUIET)
    }
}

/// Closes the sockets that may be closed. Their places stand from the first on.
pub(crate) fn close_idle<R: Clock>(
    servers: &mut Servers<'_, R>,
    readiness: &mut Readiness,
    first: usize,
) {
    for slot in 0..servers.count() {
        if servers.is_over(slot) {
            servers.close(slot);
            readiness.dry(first.wrapping_add(slot));
        }
    }
}

/// A socket that is connected to an end, so that the system leaves out what others send to it.
pub(crate) fn connected<N: Net>(net: &N, at: Endpoint) -> io::Result<UdpSocket> {
    let socket = bound(net, any_beside(at), Share::Alone)?;
    socket.connect(socket_addr(at))?;
    Ok(socket)
}
