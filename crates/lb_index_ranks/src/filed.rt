//! A rank that is filed under a key.

ghost use Rattle.std.specs.Prelude.{◌≡◌, IsTrue, ◌↔◌, IfOk};
ghost use Rattle.lb_index_ranks.specs.Filed.{is_before as is_before_of};
ghost use Rattle.lb_index_ranks.specs.Front.{front_of_key, AreOctets};

use crate::front::Front;
use crate::key::{Key, Probe};
use std::alloc::{AllocError, Global};
use std::cmp::Ordering;

/// A rank that is filed under a key.
#[derive(Debug, Drop)]
pub struct Filed {
    pub(crate) key: Key,
    pub(crate) rank: u64,
}

impl Filed {
    /// The pair that is looked for.
    pub(crate) fn copied(alloc: Global, at: &Probe<'_>) -> Result<Filed, AllocError>
        ensures { IfOk result (λ filed. filed ≡ at.now) }
    {
        let key = Key::copied(alloc, at)?;
        Ok(Filed {
            key,
            rank: at.rank(),
        })
    }

    /// The rank.
    pub(crate) fn rank(&self) -> u64
        ensures { result ≡ self.now.rank }
    {
        self.rank
    }

    /// The front of its key.
    pub(crate) fn front(&self) -> Front
        ensures front { result ≡ front_of_key self.now.key }
        ensures octets { AreOctets self.now.key }
    {
        self.key.front()
    }

    /// Whether it stands before the pair that is looked for.
    pub(crate) fn is_before(&self, at: &Probe<'_>) -> bool
        ensures { result ≡ is_before_of at.now self.now }
    {
        match self.key.order(at) {
            Ordering::Less => true,
            Ordering::Equal => self.rank < at.rank(),
            Ordering::Greater => false,
        }
    }

    /// Whether its key is the one that is looked for.
    pub(crate) fn has_key(&self, at: &Probe<'_>) -> bool
        ensures { IsTrue result ↔ (self.now.key ≡ at.now.key) }
    {
        self.key.is(at)
    }

    /// Whether it is the pair that is looked for.
    pub(crate) fn is(&self, at: &Probe<'_>) -> bool
        ensures { IsTrue result ↔ (self.now ≡ at.now) }
    {
        self.rank == at.rank() && self.key.is(at)
    }
}
