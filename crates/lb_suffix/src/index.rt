//! The index.

ghost use Rattle.std.specs.Prelude.{◌≡◌, ◌^◌, ◌<◌, ◌↔◌, [], Contains, OnOk, OnErr, length};
ghost use Rattle.lb_index_ranks.specs.Least.{IsLeastFrom};
ghost use Rattle.lb_suffix.specs.Index.{pair_of, ArePairsInOrder, HaveSame, IsFiledAtName, IsFiledOver, IsFiledUnder, IsFiledWith, IsFiledWithout, Pair, TakesUnder};

use crate::key::key_of;
use crate::over::next_over;
use crate::under::Under;
use lb_index_ranks::Ranks;
use lb_name::{Name, splits_back};
use std::alloc::{AllocError, Global};
use std::marker::Model;

/// Ranks, each filed under a name without regard to case. A contract sees it as the list of its pairs, by name and then
/// by rank.
#[derive(Debug, Drop)]
pub struct SuffixIndex {
    ranks: Ranks,
}

impl Model for SuffixIndex {
    ghost use Rattle.std.specs.Prelude.{List, map};
    ghost use Rattle.std.specs.List.{AllByRecursion};
    ghost use Rattle.lb_suffix.specs.Index.{Pair, shown};
    ghost use Rattle.lb_suffix.specs.Key.{IsKey};

    ghost Value = { List Pair };

    ghost view = { λ x. map shown x.ranks };

    ghost invariant = { λ x. AllByRecursion (λ f. IsKey f.key) x.ranks };
}

impl SuffixIndex {
    /// An index with nothing filed. It takes no memory.
    pub fn new(alloc: Global) -> SuffixIndex
        ensures { result ≡ [] }
    {
        SuffixIndex {
            ranks: Ranks::new(alloc),
        }
    }

    /// Files a rank under a name, where it is not filed there already. The one error is lack of memory; it leaves the
    /// index as it was.
    pub fn file(&mut self, name: &Name, rank: u64) -> Result<(), AllocError>
        ensures ok { OnOk result (IsFiledWith self.old (pair_of name.now rank) self.new) }
        ensures err { OnErr result (self.new ≡ self.old) }
    {
        let key = key_of(name);
        self.ranks.file(key.as_slice(), rank)
    }

    /// Takes a rank from a name, where it is filed there. It takes no memory.
    pub fn unfile(&mut self, name: &Name, rank: u64)
        ensures { IsFiledWithout self.old (pair_of name.now rank) self.new }
    {
        let key = key_of(name);
        self.ranks.unfile(key.as_slice(), rank);
    }

    /// The least rank at or after a rank that is filed at the name or above it. It takes no memory.
    pub fn next(&self, name: &Name, from: u64) -> Option<u64>
        ensures { IsLeastFrom (IsFiledOver self.now name.now) from result }
    {
        let key = key_of(name);
        next_over(&self.ranks, key.as_slice(), from)
    }

    /// The least rank at or after a rank that is filed at this very name. It takes no memory.
    pub fn next_at(&self, name: &Name, from: u64) -> Option<u64>
        ensures { IsLeastFrom (IsFiledAtName self.now name.now) from result }
    {
        let key = key_of(name);
        self.ranks.next_at(key.as_slice(), from)
    }

    /// A walk over all that is filed at the name and below it, each pair once. It takes no memory.
    pub fn under(&self, name: &Name) -> Under<'_>
        ensures pairs { (p : Pair) → Contains result p ↔ IsFiledUnder self.now name.now p }
        ensures once { ArePairsInOrder result }
    {
        let key = key_of(name);
        // A law, which does nothing.
        self.ranks.stand_in_order();
        let cursor = self.ranks.walk_from(key.as_slice());
        Under::new(cursor, key)
    }

    /// Takes one pair out that is filed at the name or below it, and gives its rank; none where there is none. It takes
    /// no memory.
    pub fn take_under(&mut self, name: &Name) -> Option<u64>
        ensures { TakesUnder name.now self.old result self.new }
    {
        let key = key_of(name);
        // A law, which does nothing.
        self.ranks.stand_in_order();
        self.ranks.take_first(key.as_slice(), key.as_end())
    }

    /// How many pairs are filed, where that can be said in 64 bits. It counts them by chunks.
    pub fn len(&self) -> usize
        ensures { length self.now < 2 ^ 64 → result ≡ length self.now }
    {
        self.ranks.len()
    }

    /// The pairs stand in their order, each once. It is a law, and does nothing.
    pub fn stands_in_order(&self)
        ensures { ArePairsInOrder self.now }
    {
        // Two laws, which do nothing.
        splits_back();
        self.ranks.stand_in_order();
    }
}

/// Two indexes that have the same pairs are equal. It is a law, and does nothing.
pub fn equal_where_same(a: &SuffixIndex, b: &SuffixIndex)
    ensures { HaveSame a.now b.now → a.now ≡ b.now }
{
    a.stands_in_order();
    b.stands_in_order();
}
