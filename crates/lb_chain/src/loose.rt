//! The ranks of rules that ask for no set first.

ghost use Rattle.std.specs.Prelude.{◌≡◌, ◌≤◌, ◌<◌, ℕ, [], ◌∷◌, IsTrue, OnErr, OnOk, length, slice_index};
ghost use Rattle.lb_chain.specs.FirstAsked.{AreRising};
ghost use Rattle.lb_chain.specs.Filing.{AreWith, AreWithout};

use std::alloc::{AllocError, Global};
use std::marker::Model;

/// The ranks of rules that ask for no set first, rising: a walk tests these without a look into an index. A contract sees them
/// as the list.
#[derive(Debug, Drop)]
pub(crate) struct Loose {
    ranks: Vec<u64>,
}

impl Model for Loose {
    ghost use Rattle.std.specs.Prelude.{List, ℕ};
    ghost use Rattle.lb_chain.specs.FirstAsked.{AreRising};

    ghost Value = { List ℕ };

    ghost view = { λ l. l.ranks.items };

    ghost invariant = { λ l. AreRising l.ranks.items };
}

/// Where a rank stands, or would stand.
fn place_in(ranks: &[u64], rank: u64) -> usize
    requires { AreRising ranks.now }
    ensures within { result ≤ length ranks.now }
    ensures below { (k : ℕ) → k < result → slice_index ranks.now k < rank }
    ensures above { (k : ℕ) → result ≤ k → k < length ranks.now → rank ≤ slice_index ranks.now k }
{
    ranks.partition_point(|r| *r < rank)
}

/// Whether a rank stands at a place.
fn stands_at(ranks: &[u64], at: usize, rank: u64) -> bool
    ensures there { IsTrue result → (at < length ranks.now) × (slice_index ranks.now at ≡ rank) }
    ensures absent { at < length ranks.now → slice_index ranks.now at ≡ rank → IsTrue result }
{
    match ranks.get(at) {
        Some(there) => *there == rank,
        None => false,
    }
}

impl Loose {
    /// No rank. It takes no memory.
    pub(crate) fn new(alloc: Global) -> Loose
        ensures { result ≡ [] }
    {
        Loose {
            ranks: Vec::new(alloc),
        }
    }

    /// The ranks, rising.
    pub(crate) fn as_slice(&self) -> &[u64]
        ensures ranks { result.now ≡ self.now }
        ensures rising { AreRising result.now }
    {
        self.ranks.as_slice()
    }

    /// Files a rank, where it is not there already. The one error is lack of memory; it leaves all as it was.
    pub(crate) fn file(&mut self, rank: u64) -> Result<(), AllocError>
        ensures ok { OnOk result (AreWith self.old (rank ∷ []) self.new) }
        ensures err { OnErr result (self.new ≡ self.old) }
    {
        let at = place_in(self.ranks.as_slice(), rank);
        if !stands_at(self.ranks.as_slice(), at, rank) {
            self.ranks.insert(at, rank)?;
        }
        Ok(())
    }

    /// Takes a rank out, where it is there. It takes no memory.
    pub(crate) fn unfile(&mut self, rank: u64)
        ensures { AreWithout self.old (rank ∷ []) self.new }
    {
        let at = place_in(self.ranks.as_slice(), rank);
        if stands_at(self.ranks.as_slice(), at, rank) {
            let _rank = self.ranks.remove(at);
        }
    }
}
