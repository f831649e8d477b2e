//! Sets of names.

ghost use Rattle.std.specs.Prelude.{◌≡◌, ◌↔◌, ℕ, IfOk, IsTrue, OnErr, OnOk, [], ◌∷◌, ◌++◌, length, slice_get};
ghost use Rattle.lb_suffix.specs.Index.{IsFiledOver};
ghost use Rattle.lb_terms.specs.Names.{IsIndexOf};
ghost use Rattle.lb_terms.specs.Sets.{is_under, in_suffixes};

use lb_name::{KeptName, Name};
use lb_suffix::SuffixIndex;
use std::alloc::{AllocError, Global};
use std::marker::Model;

/// The most names of a set that has no index: so few are tested faster one by one.
const FEW: usize = 64;

/// A list of names: a query is under it where its name is one of them or stands below one. A contract sees it as the
/// list of names.
#[derive(Debug, Drop)]
pub struct Names {
    items: Vec<KeptName>,
    // Each of the names under rank 0, where they are found by it.
    index: Option<SuffixIndex>,
}

impl Model for Names {
    ghost use Rattle.std.specs.Prelude.{List, ℕ, IfSome};
    ghost use Rattle.lb_terms.specs.Names.{IsIndexOf};

    ghost Value = { List (List (List ℕ)) };

    ghost view = { λ n. n.items.items };

    ghost invariant = { λ n. IfSome n.index (IsIndexOf n.items.items) };
}

/// Whether the first name is the second or stands below it.
fn is_under(name: &Name, suffix: &KeptName) -> bool
    ensures { result ≡ is_under name.now suffix.now }
{
    name.is_under_kept(suffix)
}

/// Whether the name is one of these or stands below one.
fn any_over(suffixes: &[KeptName], name: &Name) -> bool
    ensures { result ≡ in_suffixes suffixes.now name.now }
{
    suffixes.iter().any(|suffix| is_under(name, suffix))
}

/// Whether the names are equal, in order.
fn are_equal(names: &[KeptName], others: &[KeptName]) -> bool
    ensures equal { IsTrue result → names.now ≡ others.now }
    ensures found { names.now ≡ others.now → IsTrue result }
{
    names.len() == others.len()
        && names
            .iter()
            .zip(others)
            .all(|(name, other)| name.equals(other))
}

/// An index of the names.
fn index_of(alloc: Global, names: &[KeptName]) -> Result<SuffixIndex, AllocError>
    ensures { IfOk result (λ index. IsIndexOf names.now index) }
{
    let mut index = SuffixIndex::new(alloc);
    for name in names {
        index.file(&name.to_name(), 0)?;
    }
    Ok(index)
}

/// Whether a rank is filed at the name or above it.
fn is_found(index: &SuffixIndex, name: &Name) -> bool
    ensures { IsTrue result ↔ ((rank : ℕ) × IsFiledOver index.now name.now rank) }
{
    index.next(name, 0).is_some()
}

impl Names {
    /// No names. It takes no memory.
    pub fn new(alloc: Global) -> Names
        ensures { result ≡ [] }
    {
        Names {
            items: Vec::new(alloc),
            index: None,
        }
    }

    /// Puts a name after the others, and gives up an index that stands. The one error is lack of memory; the names are what
    /// they were then.
    pub fn push(&mut self, name: &Name) -> Result<(), AllocError>
        ensures ok { OnOk result (self.new ≡ self.old ++ name.now ∷ []) }
        ensures err { OnErr result (self.new ≡ self.old) }
    {
        let kept = KeptName::of(*self.items.allocator(), name)?;
        self.items.push(kept)?;
        self.index = None;
        Ok(())
    }

    /// How many names there are.
    pub fn len(&self) -> usize
        ensures { result ≡ length self.now }
    {
        self.items.len()
    }

    /// The name at a place, from 0 on; none past the end. It takes no memory.
    pub fn get(&self, at: usize) -> Option<Name>
        ensures { result ≡ slice_get self.now at }
    {
        self.items.get(at).map(KeptName::to_name)
    }

    /// Whether the name is one of these or stands below one, without regard to the case of ASCII letters.
    pub fn covers(&self, name: &Name) -> bool
        ensures { result ≡ in_suffixes self.now name.now }
    {
        match &self.index {
            Some(index) => is_found(index, name),
            None => any_over(self.items.as_slice(), name),
        }
    }

    /// Has the names found by an index from now on, where they are more than 64. Nothing that is seen changes. The one error
    /// is lack of memory.
    pub fn index(&mut self) -> Result<(), AllocError>
        ensures { self.new ≡ self.old }
    {
        if self.items.len() > FEW && self.index.is_none() {
            self.index = Some(index_of(*self.items.allocator(), self.items.as_slice())?);
        }
        Ok(())
    }

    /// An equal list, with no index. The one error is lack of memory.
    pub fn copy(&self, alloc: Global) -> Result<Names, AllocError>
        ensures { IfOk result (λ copy. copy ≡ self.now) }
    {
        let mut items = Vec::with_capacity(alloc, self.items.len())?;
        for name in self.items.iter() {
            items.push(name.copy(alloc)?)?;
        }
        Ok(Names { items, index: None })
    }

    /// Whether two lists are equal: the same names in the same order.
    pub fn equals(&self, other: &Names) -> bool
        ensures equal { IsTrue result → self.now ≡ other.now }
        ensures found { self.now ≡ other.now → IsTrue result }
    {
        are_equal(self.items.as_slice(), other.items.as_slice())
    }
}
