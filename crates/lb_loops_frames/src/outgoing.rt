//! Octets that wait to be written.

ghost use Rattle.std.specs.Prelude.{[], OnErr, OnOk, drop, length, ◌++◌, ◌≡◌, ◌≤◌};
ghost use Rattle.lb_loops_frames.specs.Frames.{framed};
ghost use Rattle.lb_wire.specs.Octets.{max_message};

use crate::message::LENGTH;
use bytes::BytesMut;
use std::alloc::{AllocError, Global};
use std::marker::Model;

/// How many octets of room are kept while nothing waits: a client that once took a megabyte does not hold
/// it for as long as it is connected.
const MOST_KEPT: usize = 16_384;

/// Octets that wait to be written to a stream. A contract sees them. What was written is dropped without moving the rest.
#[derive(Drop)]
pub struct Outgoing {
    octets: BytesMut,
}

impl Model for Outgoing {
    ghost use Rattle.std.specs.Prelude.{List, ℕ};

    ghost Value = { List ℕ };

    ghost view = { λ o. o.octets.items };
}

impl Outgoing {
    /// Nothing waits. It takes no memory.
    pub fn new(alloc: Global) -> Outgoing
        ensures { result ≡ [] }
    {
        Outgoing {
            octets: BytesMut::new(alloc),
        }
    }

    /// The octets that wait, for the next write.
    pub fn as_slice(&self) -> &[u8]
        ensures { result.now ≡ self.now }
    {
        self.octets.as_slice()
    }

    /// How many octets wait.
    pub fn len(&self) -> usize
        ensures { result ≡ length self.now }
    {
        self.octets.len()
    }

    /// Puts these octets after the others. The one error is lack of memory, and then nothing has changed.
    pub fn push(&mut self, octets: &[u8]) -> Result<(), AllocError>
        ensures pushed { OnOk result (self.new ≡ self.old ++ octets.now) }
        ensures same { OnErr result (self.new ≡ self.old) }
    {
        self.octets.extend_from_slice(octets)
    }

    /// Puts a message of at most 65,535 octets after the others, after its length (RFC 7766 section 8). The one error is lack of memory, and then
    /// nothing has changed.
    pub fn push_framed(&mut self, message: &[u8]) -> Result<(), AllocError>
        requires { length message.now ≤ max_message }
        ensures pushed { OnOk result (self.new ≡ self.old ++ framed message.now) }
        ensures same { OnErr result (self.new ≡ self.old) }
    {
        let len = message.len() as u16;
        self.octets.reserve(LENGTH + message.len())?;
        self.octets.extend_from_slice(&len.to_be_bytes())?;
        self.octets.extend_from_slice(message)
    }

    /// Takes octets that were written off the front. Once nothing waits, room past 16 KB is given back.
    pub fn advance(&mut self, n: usize)
        requires { n ≤ length self.old }
        ensures { self.new ≡ drop n self.old }
    {
        self.octets.advance(n);
        if self.octets.is_empty() {
            self.give_room_back();
        }
    }

    /// Gives back the room past what is kept, of octets that are none.
    fn give_room_back(&mut self)
        requires { self.old ≡ [] }
        ensures { self.new ≡ self.old }
    {
        self.octets.clear();
        if self.octets.capacity() > MOST_KEPT {
            let alloc = *self.octets.allocator();
            self.octets = BytesMut::new(alloc);
        }
    }
}
