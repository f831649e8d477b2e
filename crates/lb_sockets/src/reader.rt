//! Reads of datagrams, told as they are made.

ghost use Rattle.std.specs.Prelude.{[], IfOk, OnErr, OnOk, length, vec_capacity, vec_len, ◌++◌, ◌∷◌, ◌≡◌, ◌≤◌};
ghost use Rattle.lb_sockets.specs.Datagrams.{told};
ghost use Rattle.lb_wire.specs.Octets.{max_message};

use crate::addresses::endpoint_of;
use crate::wire::Wire;
use http_server::Log;
use lb_loops_io::{Datagram, Endpoint, Rooms, Socket};
use lb_wire::{MAX_MESSAGE, Octets};
use std::alloc::{AllocError, Global};
use std::{io, mem};

/// Reads datagrams: each into one buffer that all reads share, and from there into octets of its own. It tells those that it gave.
#[derive(Drop)]
pub(crate) struct Reader {
    alloc: Global,
    buffer: Vec<u8>,
    /// Room for a datagram whose copy is refused a block of its own.
    room: Vec<u8>,
    given: Log<(Socket, Endpoint), Octets>,
    ghost empty: { vec_len room ≡ 0 },
}

impl Reader {
    /// One that has given none. The one error is lack of memory for the buffer.
    pub(crate) fn made(alloc: Global) -> Result<Reader, AllocError>
        ensures { IfOk result (λ r. r.given.items ≡ []) }
    {
        Ok(Reader {
            alloc,
            buffer: Vec::from_elem(alloc, 0u8, MAX_MESSAGE)?,
            room: Vec::new(alloc),
            given: Log::new(),
        })
    }

    /// Takes room for a datagram, where there is none yet.
    pub(crate) fn prepare(&mut self) -> Result<(), AllocError>
        ensures room { OnOk result (max_message ≤ vec_capacity self.new.room) }
        ensures same { self.new.given ≡ self.old.given }
    {
        self.room.reserve(MAX_MESSAGE)
    }

    /// Reads one datagram from a socket, into a block of these where there is one.
    pub(crate) fn read(&mut self, wire: Wire<'_>, rooms: &mut Rooms) -> io::Result<Datagram>
        requires { max_message ≤ vec_capacity self.old.room }
        ensures read { IfOk result (λ d. told self.new.given.items ≡ told self.old.given.items ++ d ∷ []) }
        ensures named { IfOk result (λ d. d.socket ≡ wire.entry.name) }
        ensures none { OnErr result (self.new.given ≡ self.old.given) }
    {
        let (len, peer) = received(wire, self.buffer.as_mut_slice())?;
        let len = len.min(MAX_MESSAGE);
        let bytes = copied(rooms, self.alloc, &self.buffer[..len], &mut self.room);
        self.given = self.given.and(&(wire.name, peer), &bytes);
        Ok(Datagram {
            socket: wire.name,
            peer,
            bytes,
        })
    }
}

/// Reads a datagram into the buffer: its length, and the end that it came from. What a connected socket gives came from its peer.
fn received(wire: Wire<'_>, buffer: &mut [u8]) -> io::Result<(usize, Endpoint)>
    ensures within { IfOk result (λ r. r.0 ≤ length buffer.new) }
    ensures same { length buffer.new ≡ length buffer.old }
{
    match wire.peer {
        Some(peer) => Ok((wire.socket.recv(buffer)?, peer)),
        None => {
            let (len, source) = wire.socket.recv_from(buffer)?;
            Ok((len, endpoint_of(source)))
        }
    }
}

/// These octets, in a block that is kept or one of their own; where that is refused, in the room, of which the rest is given back.
pub(crate) fn copied(rooms: &mut Rooms, alloc: Global, piece: &[u8], room: &mut Vec<u8>) -> Octets
    requires empty { vec_len room.old ≡ 0 }
    requires wide { length piece.now ≤ vec_capacity room.old }
    requires short { length piece.now ≤ max_message }
    ensures octets { result ≡ piece.now }
    ensures empty { vec_len room.new ≡ 0 }
{
    match rooms.copied(piece) {
        Ok(bytes) => bytes,
        Err(_refused) => {
            let mut bytes = mem::replace(room, Vec::new(alloc));
            let Ok(()) = bytes.extend_from_slice(piece) else {
                unreachable!();
            };
            bytes.shrink_to_fit();
            Octets::from_vec(bytes)
        }
    }
}
