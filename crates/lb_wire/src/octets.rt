//! The octets of a message, seen by contracts as a list.

ghost use Rattle.std.specs.Prelude.{◌≡◌, ◌+◌, ◌≤◌, ◌++◌, length, take, drop, vec_len, vec_capacity, IfOk, IsTrue};
ghost use Rattle.lb_wire.specs.Octets.{max_message};

use std::alloc::{AllocError, Global};
use std::marker::Model;

/// The most octets of a message: its length takes two octets (RFC 1035 section 4.2.2, RFC 7766 section 8).
pub const MAX_MESSAGE: usize = 65_535;

/// The octets of a message, at most 65,535. A contract sees them as a list.
#[derive(Debug, Drop)]
pub struct Octets {
    items: Vec<u8>,
}

impl Model for Octets {
    ghost use Rattle.std.specs.Prelude.{List, ℕ, ◌≤◌, length};
    ghost use Rattle.lb_wire.specs.Octets.{max_message};

    ghost Value = { List ℕ };

    ghost view = { λ o. o.items.items };

    ghost invariant = { λ o. length o.items.items ≤ max_message };
}

impl Octets {
    /// These octets, with no copy.
    pub fn from_vec(items: Vec<u8>) -> Octets
        requires { vec_len items ≤ max_message }
        ensures { result ≡ items.items }
    {
        Octets { items }
    }

    /// The octets themselves, with no copy.
    pub fn into_vec(self) -> Vec<u8>
        ensures octets { result.items ≡ self }
        ensures short { vec_len result ≤ max_message }
    {
        let Octets { items } = self;
        items
    }

    /// The octets.
    pub fn as_slice(&self) -> &[u8]
        ensures octets { result.now ≡ self.now }
        ensures short { length result.now ≤ max_message }
    {
        self.items.as_slice()
    }

    /// An equal value. The one error is lack of memory.
    pub fn copy(&self, alloc: Global) -> Result<Octets, AllocError>
        ensures { IfOk result (λ copy. copy ≡ self.now) }
    {
        Ok(Octets {
            items: Vec::from_slice(alloc, self.items.as_slice())?,
        })
    }

    /// An equal value where a copy was refused: in room that was taken before, of which the rest is given back. It takes no
    /// memory.
    pub fn copy_into(&self, mut room: Vec<u8>, _refused: AllocError) -> Octets
        requires empty { vec_len room ≡ 0 }
        requires wide { max_message ≤ vec_capacity room }
        ensures { result ≡ self.now }
    {
        let Ok(()) = room.extend_from_slice(self.items.as_slice()) else {
            unreachable!();
        };
        room.shrink_to_fit();
        Octets { items: room }
    }

    /// Whether two runs of octets are equal.
    pub fn equals(&self, other: &Octets) -> bool
        ensures equal { IsTrue result → self.now ≡ other.now }
        ensures found { self.now ≡ other.now → IsTrue result }
    {
        self.as_slice() == other.as_slice()
    }
}

/// Puts these octets in place of as many at a place.
pub(crate) fn overwrite(bytes: &mut [u8], at: usize, piece: &[u8])
    requires { at + length piece.now ≤ length bytes.old }
    ensures { bytes.new ≡ take at bytes.old ++ piece.now ++ drop (at + length piece.now) bytes.old }
{
    bytes[at..at + piece.len()].copy_from_slice(piece);
}
