//! Lines that say what comes to sockets.

use crate::fault::Fault;
use crate::octets::{message_of, rest_of};
use crate::stage::Stage;
use crate::words::Words;
use lb_loops::{Datagram, Socket, frame};
use lb_memory::{Packets, Wires};
use lb_wire::{Octets, Origin, ServerId};
use std::alloc::AllocError;
use std::sync::{Mutex, Wait};

/// The most octets that one read of a connection gives.
const PIECE: usize = 16_384;

impl<R: Wait> Stage<'_, R> {
    /// Plays a line with this first word.
    pub(crate) fn come(&mut self, word: &str, words: &mut Words<'_>) -> Result<(), Fault> {
        match word {
            "packet" => self.packet(words),
            "answer" => self.answer(words),
            "client" => self.client(words),
            "message" => self.message(words),
            "octets" => self.octets(words),
            "ends" | "breaks" | "leaves" | "takes" => self.wire(word, words),
            "request" => self.request(words),
            word => self.set(word, words),
        }
    }

    /// A datagram to a listener, `FRONT ADDR PORT OCTETS`, or to a server's socket, `server SERVER LANE ADDR PORT ADDR PORT OCTETS`: of the
    /// end that it was made for, and where the datagram is from.
    fn packet(&mut self, words: &mut Words<'_>) -> Result<(), Fault> {
        let socket = socket_of(words)?;
        let datagram = self.datagram(socket, words)?;
        come_to(self.rt, &self.shared.packets, datagram)
    }

    /// The same to the socket of a probe.
    fn answer(&mut self, words: &mut Words<'_>) -> Result<(), Fault> {
        let socket = server_socket(words)?;
        let datagram = self.datagram(socket, words)?;
        come_to(self.rt, &self.shared.probes, datagram)
    }

    fn datagram(&self, socket: Socket, words: &mut Words<'_>) -> Result<Datagram, Fault> {
        let peer = words.end()?;
        let bytes = self.message_of(words)?;
        Ok(Datagram {
            socket,
            peer,
            bytes,
        })
    }

    /// The octets of the words that are left.
    fn rest_of(&self, words: &mut Words<'_>) -> Result<Vec<u8>, Fault> {
        rest_of(self.alloc, words, self.names.as_slice())
    }

    /// The same as a message.
    pub(crate) fn message_of(&self, words: &mut Words<'_>) -> Result<Octets, Fault> {
        message_of(self.alloc, words, self.names.as_slice())
    }

    /// A client that waits, `FRONT ADDR PORT`.
    fn client(&mut self, words: &mut Words<'_>) -> Result<(), Fault> {
        let front = words.place()?;
        let from = words.end()?;
        let come = self.shared.wires.lock(self.rt).come(front, from);
        Ok(come?)
    }

    /// A message that comes on a connection after its length, `CONNECTION OCTETS`.
    fn message(&mut self, words: &mut Words<'_>) -> Result<(), Fault> {
        let connection = words.number()?;
        let message = self.message_of(words)?;
        let framed = frame(self.alloc, message.as_slice())?;
        self.pieces(connection, framed.as_slice())
    }

    /// Octets that come on a connection, `CONNECTION OCTETS`.
    fn octets(&mut self, words: &mut Words<'_>) -> Result<(), Fault> {
        let connection = words.number()?;
        let octets = self.rest_of(words)?;
        self.pieces(connection, octets.as_slice())
    }

    /// Octets that come on a connection, in pieces.
    fn pieces(&mut self, connection: u64, octets: &[u8]) -> Result<(), Fault> {
        for piece in octets.chunks(PIECE) {
            let piece = Octets::from_vec(Vec::from_slice(self.alloc, piece)?);
            let come = self.shared.wires.lock(self.rt).piece(connection, piece);
            come?;
        }
        Ok(())
    }

    /// What happens to a connection: its peer closes its side, or the device fails at the next read, or the peer takes no more, or so many
    /// octets more.
    fn wire(&mut self, word: &str, words: &mut Words<'_>) -> Result<(), Fault> {
        let connection = words.number()?;
        let octets = match word {
            "takes" => words.number()?,
            _ => 0,
        };
        let happened = happen(
            &mut self.shared.wires.lock(self.rt),
            word,
            connection,
            octets,
        );
        Ok(happened?)
    }

    /// A request that has ended, by its number.
    fn request(&mut self, words: &mut Words<'_>) -> Result<(), Fault> {
        let number = words.number()?;
        let ended = self.shared.requests.lock(self.rt).end(number);
        Ok(ended?)
    }
}

/// A datagram comes to sockets.
fn come_to<R: Wait>(rt: &R, packets: &Mutex<Packets>, datagram: Datagram) -> Result<(), Fault> {
    let come = packets.lock(rt).coming.push_back(datagram);
    come?;
    Ok(())
}

/// Something happens to a connection, by the word for it.
fn happen(wires: &mut Wires, word: &str, connection: u64, octets: u64) -> Result<(), AllocError> {
    match word {
        "ends" => wires.end(connection),
        "breaks" => wires.fail(connection),
        "leaves" => wires.leave(connection),
        _ => wires.take_at_most(connection, octets as usize),
    }
}

/// The socket of a datagram that comes: a listener by its place, or `server` and a server's socket.
fn socket_of(words: &mut Words<'_>) -> Result<Socket, Fault> {
    let word = words.word()?;
    if word == "server" {
        return server_socket(words);
    }
    match word.parse::<u8>() {
        Ok(front) => Ok(Socket::Listener(front)),
        Err(_) => Err(words.bad()),
    }
}

/// A server's socket: `SERVER LANE ADDR PORT`.
fn server_socket(words: &mut Words<'_>) -> Result<Socket, Fault> {
    let server = ServerId(words.number()?);
    let number = words.place()?;
    Ok(Socket::Server(server, number, words.end()?))
}

/// Where a query comes from, `FRONT SLOT ADDR PORT`.
pub(crate) fn origin_of(words: &mut Words<'_>) -> Result<Origin, Fault> {
    let front = words.place()?;
    let slot = words.number()?;
    let end = words.end()?;
    Ok(Origin {
        front,
        slot,
        source: end.addr,
        port: end.port,
    })
}
