//! Names as they are kept.

ghost use Rattle.std.specs.Prelude.{◌≡◌, IsTrue, IfOk};

use crate::name::{Name, copied};
use std::alloc::{AllocError, Global};
use std::marker::Model;

/// A name as it is kept: its octets on the wire in a block of their own, as long as they are. A contract sees it as the
/// list of its labels, as a `Name`.
#[derive(Debug, Drop)]
pub struct KeptName {
    pub(crate) wire: Vec<u8>,
}

impl Model for KeptName {
    ghost use Rattle.std.specs.Prelude.{List, ℕ};
    ghost use Rattle.lb_name.specs.Name.{labels_of, IsWire};

    ghost Value = { List (List ℕ) };

    ghost view = { λ n. labels_of n.wire.items };

    ghost invariant = { λ n. IsWire n.wire.items };
}

impl KeptName {
    /// The name, kept. The one error is lack of memory.
    pub fn of(alloc: Global, name: &Name) -> Result<KeptName, AllocError>
        ensures { IfOk result (λ kept. kept ≡ name.now) }
    {
        Ok(KeptName {
            wire: Vec::from_slice(alloc, name.wire.as_slice())?,
        })
    }

    /// The name that is kept. It takes no memory.
    pub fn to_name(&self) -> Name
        ensures { result ≡ self.now }
    {
        Name {
            wire: copied(self.wire.as_slice()),
        }
    }

    /// An equal name, kept in a block of its own. The one error is lack of memory.
    pub fn copy(&self, alloc: Global) -> Result<KeptName, AllocError>
        ensures { IfOk result (λ copy. copy ≡ self.now) }
    {
        let octets = self.wire.as_slice();
        Ok(KeptName {
            wire: Vec::from_slice(alloc, octets)?,
        })
    }

    /// Whether the names are equal octet by octet, in the same case.
    pub fn equals(&self, other: &KeptName) -> bool
        ensures equal { IsTrue result → self.now ≡ other.now }
        ensures found { self.now ≡ other.now → IsTrue result }
    {
        let (ours, others) = (self.wire.as_slice(), other.wire.as_slice());
        ours == others
    }
}
