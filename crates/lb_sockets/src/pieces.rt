//! Reads of streams.

ghost use Rattle.std.specs.Prelude.{OnOk, vec_capacity, vec_len, ◌≡◌, ◌≤◌};

use crate::reader::copied;
use lb_loops_io::Rooms;
use lb_wire::Octets;
use mio::net::TcpStream;
use std::alloc::{AllocError, Global};
use std::io;
use std::io::Read;

/// The most octets of a piece.
pub(crate) const PIECE: usize = 16_384;

/// Reads streams: each piece into one buffer that all reads share, and from there into octets of its own.
#[derive(Drop)]
pub(crate) struct Intake {
    alloc: Global,
    buffer: Vec<u8>,
    /// Room for a piece whose copy is refused a block of its own.
    room: Vec<u8>,
    ghost empty: { vec_len room ≡ 0 },
}

impl Intake {
    /// One that has read nothing. The one error is lack of memory for the buffer.
    pub(crate) fn made(alloc: Global) -> Result<Intake, AllocError> {
        Ok(Intake {
            alloc,
            buffer: Vec::from_elem(alloc, 0u8, PIECE)?,
            room: Vec::new(alloc),
        })
    }

    /// Takes room for a piece, where there is none yet.
    pub(crate) fn prepare(&mut self) -> Result<(), AllocError>
        ensures { OnOk result (16384 ≤ vec_capacity self.new.room) }
    {
        self.room.reserve(PIECE)
    }

    /// Reads a piece; none, where the peer has closed its side.
    pub(crate) fn read(&mut self, stream: &mut TcpStream) -> io::Result<Option<Octets>>
        requires { 16384 ≤ vec_capacity self.old.room }
    {
        let len = stream.read(self.buffer.as_mut_slice())?.min(PIECE);
        if len == 0 {
            return Ok(None);
        }
        let rooms = &mut Rooms::new(self.alloc);
        let piece = copied(rooms, self.alloc, &self.buffer[..len], &mut self.room);
        Ok(Some(piece))
    }
}
