//! Some pairs in order.

ghost use Rattle.std.specs.Prelude.{◌≡◌, ◌<◌, ◌≤◌, true, false, List, [], ◌∷◌, ◌++◌, IfOk, OnOk, OnErr, length, slice_get, option_map, Some, option_copied, IsTrue, ◌↔◌};
ghost use Rattle.std.specs.List.{insert, remove};
ghost use Rattle.std.specs.List.Sorted.{IsPartitionPoint};
ghost use Rattle.lb_index_ranks.specs.Chunk.{ends_before as ends_before_of, max_pairs, IsFence, IsFilled};
ghost use Rattle.lb_index_ranks.specs.Filed.{is_before as is_before_of, AreInOrder};

use crate::filed::Filed;
use crate::front::Front;
use crate::key::Probe;
use std::alloc::{AllocError, Global};
use std::cmp::Ordering;
use std::marker::Model;

/// The most pairs of a chunk.
const MAX_PAIRS: usize = 64;

/// How many pairs stay in a chunk that is divided.
const HALF: usize = MAX_PAIRS / 2;

/// For how many pairs more a chunk takes room where it has none left: no more, so that little of
/// what chunks take is unused.
const STEP: usize = 2;

/// Some pairs in order. A contract sees them as their list.
#[derive(Debug, Drop)]
pub(crate) struct Chunk {
    items: Vec<Filed>,
    // The front of the last pair's key: a search among chunks reads a pair only where it is equal
    // to that which is looked for.
    fence: Front,
}

impl Model for Chunk {
    ghost use Rattle.std.specs.Prelude.{List};
    ghost use Rattle.lb_index_ranks.specs.declared.filed.Filed.{Filed};
    ghost use Rattle.lb_index_ranks.specs.Chunk.{IsFence};

    ghost Value = { List Filed };

    ghost view = { λ c. c.items.items };

    ghost invariant = { λ c. IsFence c.fence c.items.items };
}

/// The front of the last pair's key.
fn fence_of(items: &[Filed]) -> Front
    ensures { IsFence result items.now }
{
    match items.last() {
        Some(filed) => filed.front(),
        None => Front::of(&[]),
    }
}

impl Chunk {
    /// A chunk of these pairs.
    fn of(items: Vec<Filed>) -> Chunk
        ensures { result ≡ items.items }
    {
        let fence = fence_of(items.as_slice());
        Chunk { items, fence }
    }

    /// A chunk of one pair.
    pub(crate) fn one(alloc: Global, filed: Filed) -> Result<Chunk, AllocError>
        ensures { IfOk result (λ chunk. chunk ≡ filed ∷ []) }
    {
        let mut items = Vec::new(alloc);
        items.push(filed)?;
        Ok(Chunk::of(items))
    }

    /// How many pairs it has.
    pub(crate) fn len(&self) -> usize
        ensures { result ≡ length self.now }
    {
        self.items.len()
    }

    /// The front of its last pair's key.
    pub(crate) fn fence(&self) -> Front
        ensures { IsFence result self.now }
    {
        self.fence
    }

    /// Whether it has as many pairs as it may have.
    pub(crate) fn is_full(&self) -> bool
        ensures { IsTrue result ↔ (max_pairs ≤ length self.now) }
    {
        self.items.len() >= MAX_PAIRS
    }

    /// Whether its last pair stands before the pair that is looked for: the pair itself is
    /// compared.
    fn last_is_before(&self, at: &Probe<'_>) -> bool
        ensures { result ≡ ends_before_of at.now self.now }
    {
        match self.items.last() {
            Some(filed) => filed.is_before(at),
            None => false,
        }
    }

    /// Whether its last pair stands before the pair that is looked for.
    pub(crate) fn ends_before(&self, at: &Probe<'_>) -> bool
        ensures { result ≡ ends_before_of at.now self.now }
    {
        match at.order_of(&self.fence) {
            Ordering::Less => !self.items.is_empty(),
            Ordering::Equal => self.last_is_before(at),
            Ordering::Greater => false,
        }
    }

    /// Where the pair that is looked for stands, or would stand.
    pub(crate) fn place_of(&self, at: &Probe<'_>) -> usize
        requires { AreInOrder self.now }
        ensures place { IsPartitionPoint (λ f. is_before_of at.now f ≡ true) (λ f. is_before_of at.now f ≡ false) self.now result }
        ensures within { result ≤ length self.now }
    {
        self.items.partition_point(|filed| filed.is_before(at))
    }

    /// The pair at a place.
    pub(crate) fn get(&self, place: usize) -> Option<&Filed>
        ensures { option_copied result ≡ slice_get self.now place }
    {
        self.items.get(place)
    }

    /// Puts a pair at a place.
    pub(crate) fn put(&mut self, place: usize, filed: Filed) -> Result<(), AllocError>
        requires { place ≤ length self.old }
        ensures ok { OnOk result (self.new ≡ insert self.old place filed) }
        ensures err { OnErr result (self.new ≡ self.old) }
    {
        if self.items.len() == self.items.capacity() {
            self.items.reserve_exact(STEP)?;
        }
        self.items.insert(place, filed)?;
        self.fence = fence_of(self.items.as_slice());
        Ok(())
    }

    /// Takes the pair at a place out, and gives its rank.
    pub(crate) fn take(&mut self, place: usize) -> u64
        requires { place < length self.old }
        ensures rank { option_map (λ f. f.rank) (slice_get self.old place) ≡ Some result }
        ensures items { self.new ≡ remove self.old place }
    {
        let rank = self.items.remove(place).rank();
        self.fence = fence_of(self.items.as_slice());
        rank
    }

    /// Divides it: the pairs from the middle on become a chunk of their own.
    pub(crate) fn divide(&mut self) -> Result<Chunk, AllocError>
        requires { max_pairs ≤ length self.old }
        ensures ok { OnOk result (IsFilled self.new) }
        ensures upper { IfOk result (λ upper. IsFilled upper × (self.old ≡ self.new ++ upper)) }
        ensures err { OnErr result (self.new ≡ self.old) }
    {
        let mut upper = Vec::with_capacity(*self.items.allocator(), self.items.len() - HALF)?;
        'pairs: while self.items.len() > HALF {
            match self.items.pop() {
                Some(filed) => upper.push_reserved(filed),
                None => unreachable!(),
            }
        }
        self.items.shrink_to_fit();
        let lower = self.items.as_slice();
        self.fence = fence_of(lower);
        upper.reverse();
        Ok(Chunk::of(upper))
    }

    /// Parts it: the pairs from a place on become a chunk of their own.
    pub(crate) fn part(&mut self, place: usize) -> Result<Chunk, AllocError>
        requires some { 0 < place }
        requires within { place < length self.old }
        ensures ok { OnOk result (IsFilled self.new) }
        ensures upper { IfOk result (λ upper. IsFilled upper × (self.old ≡ self.new ++ upper)) }
        ensures err { OnErr result (self.new ≡ self.old) }
    {
        let upper = self.items.split_off(place)?;
        let kept = self.items.as_slice();
        self.fence = fence_of(kept);
        Ok(Chunk::of(upper))
    }
}
