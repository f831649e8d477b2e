//! Keys: as they are kept, and as they are looked for.

ghost use Rattle.std.specs.Prelude.{◌≡◌, ◌++◌, IsTrue, ◌↔◌, IfOk};
ghost use Rattle.std.specs.Cmp.Lexicographic.{slice_cmp};
ghost use Rattle.std.specs.Ordering.{nat_cmp};
ghost use Rattle.lb_index_ranks.specs.Filed.{filed_at};
ghost use Rattle.lb_index_ranks.specs.Front.{front_cmp, front_of_key, AreOctets};

use crate::front::{FRONT, Front};
use std::alloc::{AllocError, Global};
use std::cmp::Ordering;
use std::marker::Model;

/// A key: octets. Its front stands in three numbers, by which most keys differ. A contract sees the list of its
/// octets.
#[derive(Debug, Drop)]
pub(crate) struct Key {
    front: Front,
    /// The octets after the front, in a block of their own where there are any.
    rest: Vec<u8>,
}

impl Model for Key {
    ghost use Rattle.std.specs.Prelude.{List, ℕ};
    ghost use Rattle.lb_index_ranks.specs.Front.{key_from, IsPacked};

    ghost Value = { List ℕ };

    ghost view = { λ k. key_from k.front k.rest.items };

    ghost invariant = { λ k. IsPacked k.front k.rest.items };
}

/// A key and a rank that are looked for. A contract sees them as their pair.
#[derive(Debug, Drop)]
pub(crate) struct Probe<'a> {
    front: Front,
    /// The octets after the front, in two pieces.
    rest: &'a [u8],
    more: &'a [u8],
    rank: u64,
}

impl<'a> Model for Probe<'a> {
    ghost use Rattle.std.specs.Prelude.{◌++◌};
    ghost use Rattle.lb_index_ranks.specs.declared.filed.Filed.{Filed};
    ghost use Rattle.lb_index_ranks.specs.Filed.{filed_at};
    ghost use Rattle.lb_index_ranks.specs.Front.{key_from, IsPacked};

    ghost Value = { Filed };

    ghost view = { λ p. filed_at (key_from p.front (p.rest.now ++ p.more.now)) p.rank };

    ghost invariant = { λ p. IsPacked p.front (p.rest.now ++ p.more.now) };
}

/// The order of octets to those of two pieces.
fn order_to(octets: &[u8], first: &[u8], second: &[u8]) -> Ordering
    ensures { result ≡ slice_cmp nat_cmp octets.now (first.now ++ second.now) }
{
    let (front, back) = octets.split_at(octets.len().min(first.len()));
    match front.cmp(first) {
        Ordering::Equal => back.cmp(second),
        order => order,
    }
}

/// Whether octets are those of two pieces.
fn is_joined(octets: &[u8], first: &[u8], second: &[u8]) -> bool
    ensures { IsTrue result ↔ (octets.now ≡ first.now ++ second.now) }
{
    let (front, back) = octets.split_at(octets.len().min(first.len()));
    front == first && back == second
}

/// The octets of two pieces in a block that is as long as they are. The one error is lack of memory.
fn joined(alloc: Global, first: &[u8], second: &[u8]) -> Result<Vec<u8>, AllocError>
    ensures { IfOk result (λ octets. octets.items ≡ first.now ++ second.now) }
{
    let mut octets = Vec::new(alloc);
    octets.reserve_exact(first.len().saturating_add(second.len()))?;
    octets.extend_from_slice(first)?;
    octets.extend_from_slice(second)?;
    Ok(octets)
}

impl<'a> Probe<'a> {
    /// This key and this rank.
    pub(crate) fn of(key: &'a [u8], rank: u64) -> Probe<'a>
        ensures { result ≡ filed_at key.now rank }
    {
        Probe::joined(key, &[], rank)
    }

    /// The key of two pieces, and this rank.
    pub(crate) fn joined(head: &'a [u8], tail: &'a [u8], rank: u64) -> Probe<'a>
        ensures { result ≡ filed_at (head.now ++ tail.now) rank }
    {
        let front = Front::joined(head, tail);
        let cut = head.len().min(FRONT);
        let (_, rest) = head.split_at(cut);
        let (_, more) = tail.split_at(tail.len().min(FRONT - cut));
        Probe {
            front,
            rest,
            more,
            rank,
        }
    }

    /// The rank.
    pub(crate) fn rank(&self) -> u64
        ensures { result ≡ self.now.rank }
    {
        self.rank
    }

    /// The order of a front to that of the key that is looked for.
    pub(crate) fn order_of(&self, front: &Front) -> Ordering
        ensures order { result ≡ front_cmp front.now (front_of_key self.now.key) }
        ensures octets { AreOctets self.now.key }
    {
        front.order(&self.front)
    }
}

impl Key {
    /// The front.
    pub(crate) fn front(&self) -> Front
        ensures front { result ≡ front_of_key self.now }
        ensures octets { AreOctets self.now }
    {
        self.front
    }

    /// The key that is looked for.
    pub(crate) fn copied(alloc: Global, at: &Probe<'_>) -> Result<Key, AllocError>
        ensures { IfOk result (λ key. key ≡ at.now.key) }
    {
        let rest = joined(alloc, at.rest, at.more)?;
        Ok(Key {
            front: at.front,
            rest,
        })
    }

    /// Its order to the key that is looked for: octet by octet, a key before those that go on from it.
    pub(crate) fn order(&self, at: &Probe<'_>) -> Ordering
        ensures { result ≡ slice_cmp nat_cmp self.now at.now.key }
    {
        match self.front.order(&at.front) {
            Ordering::Equal => order_to(self.rest.as_slice(), at.rest, at.more),
            order => order,
        }
    }

    /// Whether it is the key that is looked for.
    pub(crate) fn is(&self, at: &Probe<'_>) -> bool
        ensures { IsTrue result ↔ (self.now ≡ at.now.key) }
    {
        let rest = self.rest.as_slice();
        self.front.is(&at.front) && is_joined(rest, at.rest, at.more)
    }
}
