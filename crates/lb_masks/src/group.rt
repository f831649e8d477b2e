//! Groups of masks.

ghost use Rattle.std.specs.Prelude.{◌≡◌, ◌↔◌, ℕ, IsTrue, IfOk, IfSome, length, Any};
ghost use Rattle.lb_masks.specs.Group.{IsIndexOf};
ghost use Rattle.lb_masks.specs.Index.{IsFiledCovering};
ghost use Rattle.lb_masks.specs.Mask.{Covers};

use crate::index::MaskIndex;
use crate::mask::Mask;
use lb_wire::Addr;
use std::alloc::{AllocError, Global};
use std::marker::Model;

/// How many masks are tested one by one as fast as an index looks at one length.
const A_LOOK: usize = 16;

/// A list of masks: it covers what one of them covers. A contract sees it as the list of their prefixes.
#[derive(Debug, Drop)]
pub struct Group {
    masks: Vec<Mask>,
    // Each of the masks under rank 0, where they are found by it.
    index: Option<MaskIndex>,
}

impl Model for Group {
    ghost use Rattle.std.specs.Prelude.{List, IfSome};
    ghost use Rattle.lb_masks.specs.Group.{IsIndexOf};
    ghost use Rattle.lb_masks.specs.Mask.{Prefix};

    ghost Value = { List Prefix };

    ghost view = { λ g. g.masks.items };

    ghost invariant = { λ g. IfSome g.index (IsIndexOf g.masks.items) };
}

/// Whether one of the masks covers the address.
fn any_covers(masks: &[Mask], addr: &Addr) -> bool
    ensures { IsTrue result ↔ Any (λ mask. Covers mask addr.now) masks.now }
{
    for mask in masks {
        if mask.covers(addr) {
            return true;
        }
    }
    false
}

/// An index of the masks.
fn index_of(alloc: Global, masks: &[Mask]) -> Result<MaskIndex, AllocError>
    ensures { IfOk result (λ index. IsIndexOf masks.now index) }
{
    let mut index = MaskIndex::new(alloc);
    for mask in masks {
        index.file(mask, 0)?;
    }
    Ok(index)
}

/// The index of so many masks, where it is faster than they are one by one.
fn worth_its_looks(index: MaskIndex, masks: usize) -> Option<MaskIndex>
    ensures { IfSome result (λ kept. kept ≡ index) }
{
    if masks > A_LOOK.saturating_mul(index.lengths()) {
        Some(index)
    } else {
        None
    }
}

/// Whether a rank is filed under a mask that covers the address.
fn is_covered(index: &MaskIndex, addr: &Addr) -> bool
    ensures { IsTrue result ↔ ((rank : ℕ) × IsFiledCovering index.now addr.now rank) }
{
    index.next(addr, 0).is_some()
}

impl Group {
    /// The group of these masks.
    pub fn from_vec(masks: Vec<Mask>) -> Group
        ensures { result ≡ masks.items }
    {
        Group { masks, index: None }
    }

    /// How many masks the group has.
    pub fn len(&self) -> usize
        ensures { result ≡ length self.now }
    {
        self.masks.len()
    }

    /// The masks, in order.
    pub fn as_slice(&self) -> &[Mask]
        ensures { result.now ≡ self.now }
    {
        self.masks.as_slice()
    }

    /// Whether one of the masks covers the address.
    pub fn covers(&self, addr: &Addr) -> bool
        ensures { IsTrue result ↔ Any (λ mask. Covers mask addr.now) self.now }
    {
        match &self.index {
            Some(index) => is_covered(index, addr),
            None => any_covers(self.masks.as_slice(), addr),
        }
    }

    /// Has the masks found by an index from now on, where they are more than 16 for each length that they have. Nothing that is
    /// seen changes. The one error is lack of memory.
    pub fn index(&mut self) -> Result<(), AllocError>
        ensures { self.new ≡ self.old }
    {
        if self.masks.len() <= A_LOOK {
            return Ok(());
        }
        let index = index_of(*self.masks.allocator(), self.masks.as_slice())?;
        self.index = worth_its_looks(index, self.masks.len());
        Ok(())
    }

    /// An equal group, with no index.
    pub fn copy(&self, alloc: Global) -> Result<Group, AllocError>
        ensures { IfOk result (λ copy. copy ≡ self.now) }
    {
        Ok(Group {
            masks: Vec::from_slice(alloc, self.masks.as_slice())?,
            index: None,
        })
    }

    /// Whether two groups are equal: the same masks in the same order.
    pub fn equals(&self, other: &Group) -> bool
        ensures equal { IsTrue result → self.now ≡ other.now }
        ensures found { self.now ≡ other.now → IsTrue result }
    {
        self.as_slice() == other.as_slice()
    }
}
