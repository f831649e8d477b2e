//! The system's sockets of datagrams.

ghost use Rattle.std.specs.Prelude.{[], IfOk, IfSome, OnErr, OnOk, vec_capacity, ◌++◌, ◌∷◌, ◌≡◌, ◌≤◌};
ghost use Rattle.std.specs.Arc.{arc_value};
ghost use Rattle.lb_loops_io.specs.Counts.{Fails};
ghost use Rattle.lb_loops_io.specs.declared.report.Why.TheVariants as whys;
ghost use Rattle.lb_sockets.specs.Datagrams.{SentBy, from_listener, from_server, told};
ghost use Rattle.lb_wire.specs.Octets.{max_message};

use crate::listening::ListenSockets;
use crate::reader::Reader;
use crate::readiness::Readiness;
use crate::sender::Sender;
use crate::servers::{Servers, Upstream, close_idle, connected};
use crate::waker::PollWaker;
use crate::wire::Wire;
use http_server::Log;
use lb_loops_io::{Datagram, Datagrams, Endpoint, Received, Rooms, Socket, WaitFailed, Why};
use lb_wire::Octets;
use std::alloc::{AllocError, Global};
use std::io;
use std::io::ErrorKind;
use std::net::Net;
use std::sync::Arc;
use std::time::Clock;

/// The system's sockets of datagrams of a loop: listeners, which other loops may send by too, and one socket for each server, number of an
/// upstream socket and end. That one is made and connected when it is first sent by, and closed when nothing was sent by it for 61 seconds.
#[derive(Drop)]
pub struct UdpSockets<'a, R: Net + Clock> {
    rt: &'a R,
    listeners: Arc<ListenSockets>,
    servers: Servers<'a, R>,
    readiness: Readiness,
    reader: Reader,
    sender: Sender,
    failures: u64,
    asked: Log<u64, u64>,
}

impl<'a, R: Net + Clock> UdpSockets<'a, R> {
    /// Sockets that read these listeners, and send by them. One loop alone is to read them. The errors are the system's, and lack of memory.
    pub fn reading(
        rt: &'a R,
        alloc: Global,
        listeners: Arc<ListenSockets>,
    ) -> io::Result<UdpSockets<'a, R>>
        ensures told { IfOk result (λ s. (s.reader.given.items ≡ []) × (s.sender.taken.items ≡ []) × (s.failures ≡ 0) × (s.asked.items ≡ [])) }
        ensures listeners { IfOk result (λ s. s.listeners ≡ listeners) }
    {
        let mut readiness = Readiness::made(rt, alloc)?;
        read_listeners(&listeners, &mut readiness)?;
        UdpSockets::made(rt, alloc, listeners, readiness)
    }

    /// Sockets that send by these listeners, and read the sockets of servers alone. The errors are the system's, and lack of memory.
    pub fn sending(
        rt: &'a R,
        alloc: Global,
        listeners: Arc<ListenSockets>,
    ) -> io::Result<UdpSockets<'a, R>>
        ensures told { IfOk result (λ s. (s.reader.given.items ≡ []) × (s.sender.taken.items ≡ []) × (s.failures ≡ 0) × (s.asked.items ≡ [])) }
        ensures listeners { IfOk result (λ s. s.listeners ≡ listeners) }
    {
        let readiness = Readiness::made(rt, alloc)?;
        UdpSockets::made(rt, alloc, listeners, readiness)
    }

    fn made(
        rt: &'a R,
        alloc: Global,
        listeners: Arc<ListenSockets>,
        readiness: Readiness,
    ) -> io::Result<UdpSockets<'a, R>>
        ensures told { IfOk result (λ s. (s.reader.given.items ≡ []) × (s.sender.taken.items ≡ []) × (s.failures ≡ 0) × (s.asked.items ≡ [])) }
        ensures listeners { IfOk result (λ s. s.listeners ≡ listeners) }
    {
        Ok(UdpSockets {
            rt,
            listeners,
            servers: Servers::made(rt, alloc)?,
            readiness,
            reader: Reader::made(alloc)?,
            sender: Sender::new(),
            failures: 0,
            asked: Log::new(),
        })
    }

    /// What ends a wait of these sockets.
    pub fn waker(&self) -> io::Result<PollWaker> {
        self.readiness.waker()
    }

    /// How often a device failed (up to 2^64-1, where the count stays).
    pub fn failures(&self) -> u64
        ensures { result ≡ self.now.failures }
    {
        self.failures
    }

    /// The place of a slot: after those of the listeners.
    fn place_of(&self, slot: usize) -> usize {
        self.listeners.count().wrapping_add(slot)
    }

    /// Counts a failure of the device.
    fn failed(&mut self)
        ensures counted { Fails self.old.failures self.new.failures }
        ensures same { self.new ≡ record self.old { failures = self.new.failures } }
    {
        self.failures = self.failures.saturating_add(1);
    }

    /// Reads the socket at a place. One that is not there has nothing.
    fn read_at(&mut self, place: usize, rooms: &mut Rooms) -> io::Result<Datagram>
        requires { max_message ≤ vec_capacity self.old.reader.room }
        ensures read { IfOk result (λ d. told self.new.reader.given.items ≡ told self.old.reader.given.items ++ d ∷ []) }
        ensures none { OnErr result (self.new.reader.given ≡ self.old.reader.given) }
        ensures same { self.new ≡ record self.old { reader = self.new.reader } }
    {
        let Some(wire) = wire_at(&self.listeners, &self.servers, place) else {
            return Err(io::Error::from(ErrorKind::WouldBlock));
        };
        self.reader.read(wire, rooms)
    }

    /// Notes that a datagram came at a place.
    fn heard(&mut self, place: usize)
        ensures { self.new ≡ record self.old { servers = self.new.servers } }
    {
        if let Some(slot) = place.checked_sub(self.listeners.count()) {
            self.servers.heard(slot);
        }
    }

    /// Closes the sockets of servers by which nothing was sent for a while, and those that are to be made anew.
    fn close_idle(&mut self)
        ensures { self.new ≡ record self.old { servers = self.new.servers; readiness = self.new.readiness } }
    {
        let first = self.listeners.count();
        close_idle(&mut self.servers, &mut self.readiness, first);
    }

    /// The slot of the socket by which a server is sent to, which is made where there is none. Refused, none was made.
    fn slot_for(&mut self, upstream: Upstream) -> Result<io::Result<usize>, AllocError>
        ensures { self.new ≡ record self.old { servers = self.new.servers; readiness = self.new.readiness } }
    {
        if let Some(slot) = self.servers.find(upstream) {
            return Ok(Ok(slot));
        }
        self.servers.reserve()?;
        self.readiness.reserve()?;
        self.servers.tell_time();
        self.close_idle();
        Ok(self.open(upstream))
    }

    /// Makes the socket by which a server is sent to.
    fn open(&mut self, upstream: Upstream) -> io::Result<usize>
        ensures { self.new ≡ record self.old { servers = self.new.servers; readiness = self.new.readiness } }
    {
        let socket = connected(self.rt, upstream.at)?;
        let slot = self.servers.free_slot();
        let place = self.place_of(slot);
        self.readiness.add(&socket, place)?;
        self.servers.put(slot, upstream, socket)?;
        Ok(slot)
    }

    /// Sends by the listener of a place.
    fn send_by_listener(&mut self, front: u8, to: Endpoint, bytes: &Octets) -> Result<(), Why>
        ensures sent { SentBy result (arc_value self.old.listeners).sockets.items (from_listener front to bytes.now) self.old.sender self.new.sender self.old.failures self.new.failures }
        ensures same { self.new ≡ record self.old { sender = self.new.sender; failures = self.new.failures } }
    {
        let Some(listener) = self.listeners.at(front) else {
            return Err(Why::Gone);
        };
        if self.sender.send(listener, to, bytes).is_err() {
            self.failed();
            return Err(Why::Device);
        }
        Ok(())
    }

    /// Sends by the socket of a server.
    fn send_by_server(
        &mut self,
        upstream: Upstream,
        to: Endpoint,
        bytes: &Octets,
    ) -> Result<(), Why>
        ensures sent { SentBy result (arc_value self.old.listeners).sockets.items (from_server upstream to bytes.now) self.old.sender self.new.sender self.old.failures self.new.failures }
        ensures same { (self.new.listeners ≡ self.old.listeners) × (self.new.reader ≡ self.old.reader) × (self.new.asked ≡ self.old.asked) }
    {
        let Ok(slot) = self.slot_for(upstream)? else {
            self.failed();
            return Err(Why::Device);
        };
        if self.send_from(slot, upstream, to, bytes).is_err() {
            self.failed();
            return Err(Why::Device);
        }
        Ok(())
    }

    /// Sends by the socket of a server in a slot. Where it has lost its address or its way, it is to be made anew.
    fn send_from(
        &mut self,
        slot: usize,
        upstream: Upstream,
        to: Endpoint,
        bytes: &Octets,
    ) -> io::Result<()>
        ensures done { OnOk result (told self.new.sender.taken.items ≡ told self.old.sender.taken.items ++ from_server upstream to bytes.now ∷ []) }
        ensures refused { OnErr result (self.new.sender ≡ self.old.sender) }
        ensures same { self.new ≡ record self.old { servers = self.new.servers; sender = self.new.sender } }
    {
        let Some(wire) = self.servers.named(slot, upstream.name()) else {
            return Err(io::Error::from(ErrorKind::NotConnected));
        };
        match self.sender.send(wire, to, bytes) {
            Ok(()) => {
                self.servers.sent(slot);
                Ok(())
            }
            Err(error) => {
                if is_lost(&error) {
                    self.servers.lose(slot);
                }
                Err(error)
            }
        }
    }
}

/// Has each listener told at its place.
fn read_listeners(listeners: &ListenSockets, readiness: &mut Readiness) -> io::Result<()> {
    for place in 0..listeners.count() {
        if let Some(Some(socket)) = listeners.sockets.get(place) {
            readiness.add(socket, place)?;
        }
    }
    Ok(())
}

/// The socket at a place: the listeners stand at the first, and then the sockets of servers in their slots.
fn wire_at<'s, R: Clock>(
    listeners: &'s ListenSockets,
    servers: &'s Servers<'_, R>,
    place: usize,
) -> Option<Wire<'s>> {
    match place.checked_sub(listeners.count()) {
        Some(slot) => servers.at(slot),
        None => listeners.at(u8::try_from(place).ok()?),
    }
}

/// Whether an error says that a socket's own address is gone, or its way to the other end.
fn is_lost(error: &io::Error) -> bool {
    matches!(
        error.kind(),
        ErrorKind::NetworkUnreachable | ErrorKind::AddrNotAvailable
    )
}

impl<R: Net + Clock> Datagrams for UdpSockets<'_, R> {
    ghost use Rattle.std.specs.Arc.{arc_value};
    ghost use Rattle.std.specs.Prelude.{length};
    ghost use Rattle.lb_sockets.specs.Datagrams.{listens_at, told};

    ghost given = { λ s. told s.reader.given.items };

    ghost taken = { λ s. told s.sender.taken.items };

    ghost failures = { λ s. s.failures };

    ghost reads = { λ s. length s.asked.items };

    ghost listens = { λ s. listens_at (arc_value s.listeners).sockets.items };

    fn receive(&mut self, rooms: &mut Rooms) -> Result<Received, AllocError> {
        self.asked = self.asked.and(&0, &0);
        if self.readiness.look() {
            self.servers.tell_time();
        }
        for _ in 0..self.readiness.count() {
            let Some(place) = self.readiness.next() else {
                return Ok(Received::Nothing);
            };
            self.reader.prepare()?;
            match self.read_at(place, rooms) {
                Ok(datagram) => {
                    self.heard(place);
                    return Ok(Received::Packet(datagram));
                }
                Err(error) if error.kind() == ErrorKind::WouldBlock => self.readiness.dry(place),
                Err(_) => {
                    self.failed();
                    return Ok(Received::Failed);
                }
            }
        }
        Ok(Received::Nothing)
    }

    fn wait(&mut self, at_most: u64) -> Result<(), WaitFailed> {
        self.readiness.wait(at_most)?;
        self.servers.tell_time();
        if self.servers.is_look_due() {
            self.close_idle();
        }
        Ok(())
    }

    fn send(&mut self, socket: Socket, to: Endpoint, bytes: &Octets) -> Result<(), Why> {
        match socket {
            Socket::Listener(front) => self.send_by_listener(front, to, bytes),
            Socket::Server(server, number, at) => {
                let upstream = Upstream { server, number, at };
                self.send_by_server(upstream, to, bytes)
            }
        }
    }
}
