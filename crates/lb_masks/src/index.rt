//! The index of masks.

ghost use Rattle.std.specs.Prelude.{◌≡◌, [], OnOk, OnErr};
ghost use Rattle.lb_index_ranks.specs.Least.{IsLeastFrom};
ghost use Rattle.lb_masks.specs.Index.{pair_of, ArePairsInOrder, HaveSame, IsFiledCovering, IsFiledWith, IsFiledWithout};
ghost use Rattle.lb_masks.specs.Kinds.{IsOfKind, IsOfKinds};

use crate::key::{key_of, key_over, kind_of, mark_of, mark_over};
use crate::kinds::{MaskKind, forget_unused, note};
use crate::mask::Mask;
use lb_index_ranks::{Ranks, lesser};
use lb_wire::Addr;
use std::alloc::{AllocError, Global};
use std::marker::Model;

/// Ranks, each filed under a mask (RFC 4632 section 3.1, RFC 4291 section 2.3). A contract sees it as the list of its
/// pairs, by mask and then by rank.
#[derive(Debug, Drop)]
pub struct MaskIndex {
    ranks: Ranks,
    // The kinds of mask that are in use: a look is made for each that has the mark of the address.
    kinds: Vec<MaskKind>,
}

impl Model for MaskIndex {
    ghost use Rattle.std.specs.Prelude.{List, map};
    ghost use Rattle.std.specs.List.{AllByRecursion};
    ghost use Rattle.lb_masks.specs.Index.{Pair, shown};
    ghost use Rattle.lb_masks.specs.Key.{IsKey};
    ghost use Rattle.lb_masks.specs.Kinds.{numbers, AreInUse, AreMarked};

    ghost Value = { List Pair };

    ghost view = { λ x. map shown x.ranks };

    ghost invariant = { λ x. AllByRecursion (λ f. IsKey f.key) x.ranks × AreInUse (numbers x.kinds.items) x.ranks × AreMarked x.kinds.items x.ranks };
}

/// The least rank at or after a rank that is filed under a mask of this kind that covers the address. It looks for one only where
/// the kind has the mark of the address.
fn next_of_kind(ranks: &Ranks, addr: &Addr, kind: &MaskKind, from: u64) -> Option<u64>
    ensures { IsLeastFrom (IsOfKind ranks.now addr.now kind.now) from result }
{
    let mark = mark_over(kind.number, addr)?;
    if !kind.has(mark) {
        return None;
    }
    let key = key_over(kind.number, addr)?;
    ranks.next_at(key.as_slice(), from)
}

/// The least rank at or after a rank that is filed under a mask of one of these kinds that covers the address.
fn next_of_kinds(ranks: &Ranks, addr: &Addr, kinds: &[MaskKind], from: u64) -> Option<u64>
    ensures { IsLeastFrom (IsOfKinds ranks.now addr.now kinds.now) from result }
{
    let mut best = None;
    for kind in kinds {
        best = lesser(best, next_of_kind(ranks, addr, kind, from));
    }
    best
}

impl MaskIndex {
    /// An index with nothing filed. It takes no memory.
    pub fn new(alloc: Global) -> MaskIndex
        ensures { result ≡ [] }
    {
        MaskIndex {
            ranks: Ranks::new(alloc),
            kinds: Vec::new(alloc),
        }
    }

    /// How many lengths the masks have, those of both families counted: a look is made for each of its address's family.
    pub(crate) fn lengths(&self) -> usize {
        self.kinds.len()
    }

    /// Files a rank under a mask, where it is not filed there already. The one error is lack of memory; it leaves the
    /// index as it was.
    pub fn file(&mut self, mask: &Mask, rank: u64) -> Result<(), AllocError>
        ensures ok { OnOk result (IsFiledWith self.old (pair_of mask.now rank) self.new) }
        ensures err { OnErr result (self.new ≡ self.old) }
    {
        let kind = kind_of(mask);
        note(&mut self.kinds, kind, mark_of(mask))?;
        let key = key_of(mask);
        match self.ranks.file(key.as_slice(), rank) {
            Ok(()) => Ok(()),
            Err(refused) => {
                forget_unused(&mut self.kinds, kind, &self.ranks);
                Err(refused)
            }
        }
    }

    /// Takes a rank from a mask, where it is filed there. It takes no memory.
    pub fn unfile(&mut self, mask: &Mask, rank: u64)
        ensures { IsFiledWithout self.old (pair_of mask.now rank) self.new }
    {
        let key = key_of(mask);
        self.ranks.unfile(key.as_slice(), rank);
        forget_unused(&mut self.kinds, kind_of(mask), &self.ranks);
    }

    /// The least rank at or after a rank that is filed under a mask that covers the address. A mapped IPv4 address is an
    /// IPv6 address here. It makes a look for each length in use of masks of the address's family
    /// of which one may have its network, as its mark says, and takes no memory.
    pub fn next(&self, addr: &Addr, from: u64) -> Option<u64>
        ensures { IsLeastFrom (IsFiledCovering self.now addr.now) from result }
    {
        next_of_kinds(&self.ranks, addr, self.kinds.as_slice(), from)
    }

    /// The pairs stand in their order, each once. It is a law, and does nothing.
    pub fn stands_in_order(&self)
        ensures { ArePairsInOrder self.now }
    {
        self.ranks.stand_in_order();
    }
}

/// Two indexes that have the same pairs are equal. It is a law, and does nothing.
pub fn equal_where_same(a: &MaskIndex, b: &MaskIndex)
    ensures { HaveSame a.now b.now → a.now ≡ b.now }
{
    a.stands_in_order();
    b.stands_in_order();
}
