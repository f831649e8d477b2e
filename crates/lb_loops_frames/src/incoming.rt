//! What came of a stream and was not taken yet.

ghost use Rattle.std.specs.Prelude.{[], false, IfNone, IfOk, IfSome, IsTrue, List, OnErr, OnOk, length, ℕ, ◌++◌, ◌<◌, ◌^◌, ◌≡◌};
ghost use Rattle.lb_loops_frames.specs.Frames.{NoneWhole, framed};

use crate::message::{LENGTH, Message, message_end};
use bytes::BytesMut;
use lb_wire::Octets;
use std::alloc::{AllocError, Global};
use std::marker::Model;

/// What came of a stream and was not taken yet: whole messages, and what stands after them. A contract sees the octets. What was
/// taken is dropped without moving the rest.
#[derive(Drop)]
pub struct Incoming {
    alloc: Global,
    octets: BytesMut,
}

impl Model for Incoming {
    ghost use Rattle.std.specs.Prelude.{List, ℕ};

    ghost Value = { List ℕ };

    ghost view = { λ i. i.octets.items };
}

impl Incoming {
    /// Nothing came. It takes no memory.
    pub fn new(alloc: Global) -> Incoming
        ensures { result ≡ [] }
    {
        Incoming {
            alloc,
            octets: BytesMut::new(alloc),
        }
    }

    /// How many octets are held.
    pub fn len(&self) -> usize
        ensures { result ≡ length self.now }
    {
        self.octets.len()
    }

    /// Whether a whole message stands in front.
    pub fn has_message(&self) -> bool
        ensures whole { IsTrue result → (message : List ℕ) × (rest : List ℕ) × (length message < 2 ^ 16) × (self.now ≡ framed message ++ rest) }
        ensures none { result ≡ false → NoneWhole self.now }
    {
        message_end(self.octets.as_slice(), 0).is_some()
    }

    /// Puts a piece after what is held. The one error is lack of memory, and then nothing has changed.
    pub fn push(&mut self, piece: &[u8]) -> Result<(), AllocError>
        ensures pushed { OnOk result (self.new ≡ self.old ++ piece.now) }
        ensures same { OnErr result (self.new ≡ self.old) }
    {
        self.octets.extend_from_slice(piece)
    }

    /// A copy of the whole message that stands in front; None where none is whole. The one error is lack of memory.
    pub fn first(&self, alloc: Global) -> Result<Option<Message>, AllocError>
        ensures found { IfOk result (λ found. IfSome found (λ message. (rest : List ℕ) × (length message < 2 ^ 16) × (self.now ≡ framed message ++ rest))) }
        ensures none { IfOk result (λ found. IfNone found (NoneWhole self.now)) }
    {
        let octets = self.octets.as_slice();
        let Some(end) = message_end(octets, 0) else {
            return Ok(None);
        };
        let (front, _) = octets.split_at(end);
        let (_, message) = front.split_at(LENGTH);
        Ok(Some(Octets::from_vec(Vec::from_slice(alloc, message)?)))
    }

    /// Takes the whole message off the front that stands there. Where nothing is left, the room is given back.
    pub fn drop_first(&mut self)
        requires { (message : List ℕ) × (rest : List ℕ) × (length message < 2 ^ 16) × (self.old ≡ framed message ++ rest) }
        ensures { (message : List ℕ) → (rest : List ℕ) → length message < 2 ^ 16 → self.old ≡ framed message ++ rest → self.new ≡ rest }
    {
        let Some(end) = message_end(self.octets.as_slice(), 0) else {
            unreachable!();
        };
        self.octets.advance(end);
        if self.octets.is_empty() {
            self.octets = BytesMut::new(self.alloc);
        }
    }
}
