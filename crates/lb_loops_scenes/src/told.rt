//! What is told of a scene.

use crate::fault::Fault;
use lb_command::answer_line;
use lb_core::Answer;
use lb_loops::Endpoint;
use lb_wire::{Addr, Kind, Lane, Octets, Origin};
use std::alloc::{AllocError, Global};

/// From how many octets on a message is told by their number alone.
const LONG: usize = 1_000;

/// What is told, put together piece by piece. What there was no room for is missing, and then the scene is not played on.
#[derive(Drop)]
pub(crate) struct Told {
    alloc: Global,
    text: String,
    room: Result<(), Fault>,
}

impl Told {
    /// Nothing. It takes no memory.
    pub(crate) fn new(alloc: Global) -> Told {
        Told {
            alloc,
            text: String::new(alloc),
            room: Ok(()),
        }
    }

    /// Whether there was room for all.
    pub(crate) fn room(&self) -> Result<(), Fault> {
        self.room
    }

    /// What was told.
    pub(crate) fn as_bytes(&self) -> &[u8] {
        self.text.as_bytes()
    }

    /// Puts a text after what was told.
    pub(crate) fn put(&mut self, text: &str) {
        if let Err(refused) = self.text.push_str(text) {
            self.room = Err(Fault::from(refused));
        }
    }

    /// The same of a text that was made for it.
    fn put_made(&mut self, made: Result<String, AllocError>) {
        match made {
            Ok(text) => self.put(text.as_str()),
            Err(refused) => self.room = Err(Fault::from(refused)),
        }
    }

    /// Puts a text and a number.
    pub(crate) fn number(&mut self, text: &str, number: u64) {
        self.put(text);
        self.put_made(format!(in self.alloc; "{number}"));
    }

    /// Puts a space, and octets in hexadecimal digits; none as `-`; many as their number.
    pub(crate) fn octets(&mut self, octets: &[u8]) {
        if octets.len() > LONG {
            self.number(" ", octets.len() as u64);
            self.put(" octets");
        } else if octets.is_empty() {
            self.put(" -");
        } else {
            self.put(" ");
            self.put_made(hex::encode(self.alloc, octets));
        }
    }

    /// Puts an address and a port: the octets of the address in decimal, or groups in hexadecimal digits.
    pub(crate) fn end(&mut self, end: Endpoint) {
        match end.addr {
            Addr::V4(octets) => self.quad(octets),
            Addr::V6(octets) => self.groups(octets),
        }
        self.number(" ", u64::from(end.port));
    }

    fn quad(&mut self, octets: [u8; 4]) {
        let [a, b, c, d] = octets;
        self.number(" ", u64::from(a));
        self.number(".", u64::from(b));
        self.number(".", u64::from(c));
        self.number(".", u64::from(d));
    }

    fn groups(&mut self, octets: [u8; 16]) {
        self.octets(octets.as_slice());
    }

    /// Puts where a query came from: listener, slot, address and port.
    pub(crate) fn origin(&mut self, origin: Origin) {
        self.number(" ", u64::from(origin.front));
        self.number(" ", origin.slot);
        self.end(Endpoint {
            addr: origin.source,
            port: origin.port,
        });
    }

    /// Puts a transport and the number of an upstream socket.
    pub(crate) fn lane(&mut self, lane: Lane) {
        let kind = match lane.kind {
            Kind::Datagram => " udp/",
            Kind::Stream => " tcp/",
        };
        self.number(kind, u64::from(lane.number));
    }

    /// Puts an answer as its line; of a long one the first word alone.
    pub(crate) fn answer(&mut self, answer: &Answer) {
        match answer_line(self.alloc, answer) {
            Ok(line) => self.put(short(line.as_str())),
            Err(refused) => self.room = Err(Fault::from(refused)),
        }
    }

    /// Puts an answer as its line, however long it is, and ends that.
    pub(crate) fn answer_line(&mut self, answer: &Answer) {
        self.put_made(answer_line(self.alloc, answer));
        self.put("\n");
    }
}

/// A line, or the first word of a long one.
fn short(line: &str) -> &str {
    match line.split_once(" ") {
        Some((word, _)) if line.len() > 2 * LONG + 100 => word,
        _ => line,
    }
}
