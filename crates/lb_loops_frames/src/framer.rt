//! Messages of a stream: taken out of its octets, and put into them.

ghost use Rattle.std.specs.Prelude.{[], IfOk, OnErr, length, drop, take, ◌++◌, ◌≡◌, ◌≤◌};
ghost use Rattle.lb_loops_frames.specs.Frames.{Divides, framed};
ghost use Rattle.lb_wire.specs.Octets.{max_message};

use crate::message::{LENGTH, Message, message_end};
use lb_wire::Octets;
use std::alloc::{AllocError, Global};
use std::marker::Model;

/// What stands in a stream after its last whole message. A contract sees the octets. It holds what came and no room for what is
/// announced.
#[derive(Debug, Drop)]
pub struct Framer {
    alloc: Global,
    held: Vec<u8>,
}

impl Model for Framer {
    ghost use Rattle.std.specs.Prelude.{List, ℕ};

    ghost Value = { List ℕ };

    ghost view = { λ f. f.held.items };
}

impl Framer {
    /// Nothing is held. It takes no memory.
    pub fn new(alloc: Global) -> Framer
        ensures { result ≡ [] }
    {
        Framer {
            alloc,
            held: Vec::new(alloc),
        }
    }

    /// How many octets are held.
    pub fn len(&self) -> usize
        ensures { result ≡ length self.now }
    {
        self.held.len()
    }

    /// What was held, followed by the piece, is divided into the messages and what is held then. The one error is lack of memory, and
    /// then nothing has changed.
    pub fn feed(&mut self, piece: &[u8]) -> Result<Vec<Message>, AllocError>
        ensures divides { IfOk result (λ messages. Divides (self.old ++ piece.now) messages.items self.new) }
        ensures same { OnErr result (self.new ≡ self.old) }
    {
        if self.held.is_empty() {
            let (messages, end) = divided(self.alloc, piece)?;
            self.held = Vec::from_slice(self.alloc, &piece[end..])?;
            return Ok(messages);
        }
        let before = self.held.len();
        match self.continued(piece) {
            Ok(messages) => Ok(messages),
            Err(refused) => {
                self.held.truncate(before);
                Err(refused)
            }
        }
    }

    /// The same, where something is held. Refused, the piece may stand after it.
    fn continued(&mut self, piece: &[u8]) -> Result<Vec<Message>, AllocError>
        ensures divides { IfOk result (λ messages. Divides (self.old ++ piece.now) messages.items self.new) }
        ensures front { OnErr result (take (length self.old) self.new ≡ self.old) }
    {
        self.held.extend_from_slice(piece)?;
        let (messages, end) = divided(self.alloc, self.held.as_slice())?;
        if end > 0 {
            self.held = Vec::from_slice(self.alloc, &self.held[end..])?;
        }
        Ok(messages)
    }
}

/// The messages at the front of some octets, and the place after them. The one error is lack of memory.
#[tactic(auto, using(crate::proofs::Parts::parts_more, crate::proofs::Once::all_messages))]
fn divided(alloc: Global, bytes: &[u8]) -> Result<(Vec<Message>, usize), AllocError>
    ensures within { IfOk result (λ r. r.1 ≤ length bytes.now) }
    ensures divides { IfOk result (λ r. Divides bytes.now r.0.items (drop r.1 bytes.now)) }
{
    let mut messages = Vec::new(alloc);
    let mut at = 0usize;
    loop {
        let Some(end) = message_end(bytes, at) else {
            return Ok((messages, at));
        };
        let (front, _) = bytes.split_at(end);
        let (_, message) = front.split_at(at + LENGTH);
        messages.push(Octets::from_vec(Vec::from_slice(alloc, message)?))?;
        at = end;
    }
}

/// A message of at most 65,535 octets after its length in two octets (RFC 7766 section 8). The one error is lack of memory.
pub fn frame(alloc: Global, message: &[u8]) -> Result<Vec<u8>, AllocError>
    requires { length message.now ≤ max_message }
    ensures { IfOk result (λ octets. octets.items ≡ framed message.now) }
{
    let len = message.len() as u16;
    let mut octets = Vec::with_capacity(alloc, message.len() + 2)?;
    octets.extend_from_slice(&len.to_be_bytes())?;
    octets.extend_from_slice(message)?;
    Ok(octets)
}
