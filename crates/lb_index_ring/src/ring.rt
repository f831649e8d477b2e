//! A list of numbered slots, in which each slot knows its neighbours.

ghost use Rattle.std.specs.Prelude.{◌≡◌, ◌≤◌, ◌<◌, ◌+◌, ◌^◌, ◌==◌, false, true, ℕ, [], OnErr, OnOk, cond, length, ◌∷◌};
ghost use Rattle.lb_index_ring.specs.Ring.{Distinct, Lacks, after, before, first_of, has, next_of, prev_of, put_behind, without};

use std::alloc::{AllocError, Global};
use std::marker::Model;

/// The slots ahead of one and after it. Slot 0 is the end on both sides.
#[derive(Clone, Copy, Debug)]
pub(crate) struct Links {
    pub(crate) prev: usize,
    pub(crate) next: usize,
}

/// Slots in order, each from 1 on and at most once. A contract sees them as a list. No call goes along it.
#[derive(Debug, Drop)]
pub struct Ring {
    /// The neighbours of each slot, and at 0 the first and the last.
    links: Vec<Links>,
    /// How many slots are in use.
    len: usize,
}

impl Model for Ring {
    ghost use Rattle.std.specs.Prelude.{ℕ, List};
    ghost use Rattle.lb_index_ring.specs.Ring.{IsRing, slots_of};

    ghost Value = { List ℕ };

    ghost view = { λ r. slots_of r.links.items r.len };

    ghost invariant = { λ r. IsRing r.links.items r.len };
}

/// The slot after one, 0 where it was never in a ring.
fn next_in(links: &Vec<Links>, slot: usize) -> usize
    ensures { result ≡ next_of links.now.items slot }
{
    match links.get(slot) {
        Some(links) => links.next,
        None => 0,
    }
}

/// The slot ahead of one, 0 where it was never in a ring.
fn prev_in(links: &Vec<Links>, slot: usize) -> usize
    ensures { result ≡ prev_of links.now.items slot }
{
    match links.get(slot) {
        Some(links) => links.prev,
        None => 0,
    }
}

/// Puts a slot after another one.
fn link(links: &mut Vec<Links>, prev: usize, slot: usize)
    requires within { prev < length links.old.items }
    requires room { slot < length links.old.items }
    requires next { next_of links.old.items prev < length links.old.items }
    requires other { (slot == prev) ≡ false }
    requires fresh { (slot == next_of links.old.items prev) ≡ false }
    ensures len { length links.new.items ≡ length links.old.items }
    ensures next { (k : ℕ) → next_of links.new.items k ≡ cond (k == prev) slot (cond (k == slot) (next_of links.old.items prev) (next_of links.old.items k)) }
    ensures prev { (k : ℕ) → prev_of links.new.items k ≡ cond (k == next_of links.old.items prev) slot (cond (k == slot) prev (prev_of links.old.items k)) }
{
    let next = links[prev].next;
    links[slot] = Links { prev, next };
    links[prev].next = slot;
    links[next].prev = slot;
}

/// Joins the neighbours of a slot.
fn unlink(links: &mut Vec<Links>, slot: usize)
    requires within { slot < length links.old.items }
    requires prev { prev_of links.old.items slot < length links.old.items }
    requires next { next_of links.old.items slot < length links.old.items }
    ensures len { length links.new.items ≡ length links.old.items }
    ensures next { (k : ℕ) → next_of links.new.items k ≡ cond (k == prev_of links.old.items slot) (next_of links.old.items slot) (next_of links.old.items k) }
    ensures prev { (k : ℕ) → prev_of links.new.items k ≡ cond (k == next_of links.old.items slot) (prev_of links.old.items slot) (prev_of links.old.items k) }
{
    let Links { prev, next } = links[slot];
    links[prev].next = next;
    links[next].prev = prev;
}

/// Makes room for the neighbours of a slot.
fn grow(links: &mut Vec<Links>, slot: usize) -> Result<(), AllocError>
    requires { slot + 1 < 2 ^ 64 }
    ensures room { OnOk result (slot < length links.new.items) }
    ensures more { length links.old.items ≤ length links.new.items }
    ensures next { (k : ℕ) → next_of links.new.items k ≡ next_of links.old.items k }
    ensures prev { (k : ℕ) → prev_of links.new.items k ≡ prev_of links.old.items k }
{
    if links.len() <= slot {
        links.resize(slot + 1, Links { prev: 0, next: 0 })?;
    }
    Ok(())
}

impl Ring {
    /// No slot. It takes no memory.
    pub fn new(alloc: Global) -> Ring
        ensures { result ≡ [] }
    {
        Ring {
            links: Vec::new(alloc),
            len: 0,
        }
    }

    /// How many slots there are.
    pub fn len(&self) -> usize
        ensures { result ≡ length self.now }
    {
        self.len
    }

    /// A law: no slot is in the ring twice, and none that is 0; and the slots fit the machine. It does nothing.
    pub fn law_of_slots(&self)
        ensures room { length self.now + 1 < 2 ^ 64 }
        ensures apart { Distinct self.now }
        ensures from_one { Lacks 0 self.now }
    {
        // Read, so that what the ring keeps true is at hand.
        let _ = self.links.len();
    }

    /// The first slot, 0 where there is none.
    pub fn first(&self) -> usize
        ensures { result ≡ first_of self.now }
    {
        next_in(&self.links, 0)
    }

    /// The slot after one of the ring, 0 where it is the last.
    pub fn next(&self, slot: usize) -> usize
        requires { has slot self.now ≡ true }
        ensures { result ≡ after slot self.now }
    {
        next_in(&self.links, slot)
    }

    /// The slot ahead of one of the ring, 0 where it is the first.
    pub fn prev(&self, slot: usize) -> usize
        requires { has slot self.now ≡ true }
        ensures { result ≡ before 0 slot self.now }
    {
        prev_in(&self.links, slot)
    }

    /// Puts a new slot after another one, in front where that is 0. The one error is lack of memory.
    pub fn put(&mut self, prev: usize, slot: usize) -> Result<(), AllocError>
        requires slot { 0 < slot }
        requires bound { slot + 1 < 2 ^ 64 }
        requires fresh { has slot self.old ≡ false }
        requires prev { has prev (0 ∷ self.old) ≡ true }
        ensures put { OnOk result (self.new ≡ put_behind prev slot self.old) }
        ensures kept { OnErr result (self.new ≡ self.old) }
    {
        grow(&mut self.links, slot)?;
        link(&mut self.links, prev, slot);
        self.len += 1;
        Ok(())
    }

    /// Takes a slot out that is in the ring. It takes no memory.
    pub fn remove(&mut self, slot: usize)
        requires { has slot self.old ≡ true }
        ensures { self.new ≡ without slot self.old }
    {
        unlink(&mut self.links, slot);
        self.len -= 1;
    }
}
