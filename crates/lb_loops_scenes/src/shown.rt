//! What sockets took in a turn, as a scene tells it.

use crate::stage::Stage;
use crate::told::Told;
use lb_loops::{Datagram, Endpoint, Socket};
use lb_memory::Wires;
use lb_wire::{Octets, Origin};
use std::alloc::{AllocError, Global};
use std::sync::Wait;

/// What was shown of a connection: how many octets that it took, how many writes, and whether it was closed.
#[derive(Clone, Copy, Default)]
struct Wire {
    octets: usize,
    writes: u64,
    was_closed: bool,
}

/// What was shown so far.
#[derive(Drop)]
pub(crate) struct Shown {
    packets: usize,
    probes: usize,
    dials: usize,
    turned_away: u64,
    posts: usize,
    wires: Vec<Wire>,
}

impl Shown {
    /// Nothing.
    pub(crate) fn new(alloc: Global) -> Shown {
        Shown {
            packets: 0,
            probes: 0,
            dials: 0,
            turned_away: 0,
            posts: 0,
            wires: Vec::new(alloc),
        }
    }

    /// What streams did: whom was dialled, what connections took and in how many writes, which were closed, who was turned away.
    fn streams(&mut self, wires: &Wires, told: &mut Told) -> Result<(), AllocError> {
        self.dials(wires.dialed(), told);
        for number in 1..=wires.last() {
            self.wire(wires, number, told)?;
        }
        self.turned_away(wires.turned_away(), told);
        Ok(())
    }

    fn dials(&mut self, dialed: &[(u64, Endpoint)], told: &mut Told) {
        for (number, end) in dialed.get(self.dials..).unwrap_or(&[]) {
            told.number("dialed ", *number);
            told.end(*end);
            told.put("\n");
        }
        self.dials = dialed.len();
    }

    fn turned_away(&mut self, turned_away: u64, told: &mut Told) {
        if turned_away != self.turned_away {
            told.number("turned away ", turned_away.saturating_sub(self.turned_away));
            told.put("\n");
        }
        self.turned_away = turned_away;
    }

    /// What the connection with a number did.
    fn wire(&mut self, wires: &Wires, number: u64, told: &mut Told) -> Result<(), AllocError> {
        let place = number as usize;
        for _ in self.wires.len()..=place {
            self.wires.push(Wire::default())?;
        }
        if let Some(shown) = self.wires.get_mut(place) {
            shown.tell(wires, number, told);
        }
        Ok(())
    }
}

impl Wire {
    /// Reports what the connection with a number did since.
    fn tell(&mut self, wires: &Wires, number: u64, told: &mut Told) {
        let taken = wires.taken(number);
        let writes = wires.writes(number);
        if taken.len() > self.octets {
            told.number("wrote ", number);
            told.number(" in ", writes.saturating_sub(self.writes));
            told.put(":");
            told.octets(taken.get(self.octets..).unwrap_or(&[]));
            told.put("\n");
        }
        let was_closed = wires.was_closed(number);
        if was_closed && !self.was_closed {
            told.number("closed ", number);
            told.put("\n");
        }
        *self = Wire {
            octets: taken.len(),
            writes,
            was_closed,
        };
    }
}

/// Reports the datagrams after so many; how many there are.
fn tell_packets(packets: &[Datagram], shown: usize, told: &mut Told) -> usize {
    for packet in packets.get(shown..).unwrap_or(&[]) {
        tell_socket(packet.socket, told);
        told.put(" to");
        told.end(packet.peer);
        told.put(":");
        told.octets(packet.bytes.as_slice());
        told.put("\n");
    }
    packets.len()
}

/// The socket that sent a datagram.
fn tell_socket(socket: Socket, told: &mut Told) {
    match socket {
        Socket::Listener(front) => told.number("sent listener ", u64::from(front)),
        Socket::Server(server, number, at) => {
            told.number("sent server ", server.0);
            told.number(" udp/", u64::from(number));
            told.end(at);
        }
    }
}

/// Reports what was handed to requests after so many; how many there are.
fn tell_posts(handed: &[(Origin, Octets)], shown: usize, told: &mut Told) -> usize {
    for (origin, bytes) in handed.get(shown..).unwrap_or(&[]) {
        told.number("posted ", origin.slot);
        told.put(":");
        told.octets(bytes.as_slice());
        told.put("\n");
    }
    handed.len()
}

impl<R: Wait> Stage<'_, R> {
    /// Reports what the sockets of datagrams took since the last report.
    pub(crate) fn show_packets(&mut self) {
        let packets = self.shared.packets.lock(self.rt);
        let taken = packets.taken.as_slice();
        self.shown.packets = tell_packets(taken, self.shown.packets, &mut self.told);
    }

    /// The same of the clock's.
    pub(crate) fn show_probes(&mut self) {
        let packets = self.shared.probes.lock(self.rt);
        let taken = packets.taken.as_slice();
        self.shown.probes = tell_packets(taken, self.shown.probes, &mut self.told);
    }

    /// The same of the connections.
    pub(crate) fn show_streams(&mut self) -> Result<(), AllocError> {
        let wires = self.shared.wires.lock(self.rt);
        self.shown.streams(&wires, &mut self.told)
    }

    /// Reports what was handed to requests since the last report.
    pub(crate) fn show_posts(&mut self) {
        let requests = self.shared.requests.lock(self.rt);
        self.shown.posts = tell_posts(requests.handed(), self.shown.posts, &mut self.told);
    }
}
