//! Values in numbered slots.

ghost use Rattle.std.specs.Prelude.{◌≡◌, ◌≤◌, ◌<◌, ◌+◌, ◌-◌, ◌/◌, ◌%◌, ◌^◌, ℕ, length};
ghost use Rattle.std.specs.Prelude.{None, Some, IsSome, is_some, option_map, IfErr, IfOk, IsOkAnd};
ghost use Rattle.std.specs.Prelude.{OnErr, OnOk};
ghost use Rattle.std.specs.Bool.{OnTrue};
ghost use Rattle.lb_index_slots.specs.Links.{Adds, cells_at, links, with_cell};
ghost use Rattle.lb_index_slots.specs.Slots.{IsEmpty, Updates, get};
ghost use Rattle.lb_index_slots.specs.declared.chunk.Cell.TheVariants.{Full};

use crate::chunk::{CHUNK, Chunk};
use std::alloc::{AllocError, Global};
use std::marker::Model;

/// Values in slots that are numbered from 0 on. A value stays in its slot until it is taken out,
/// and then the slot is given out again. A contract sees the slots chunk by chunk, each with its
/// value or with none, and speaks of them by `get`.
#[derive(Debug, Drop)]
pub struct Slots<T> {
    chunks: Vec<Chunk<T>>,
    /// The slot that was freed last; or one that is not free, where none is left.
    free: usize,
    alloc: Global,
}

impl<T> Model for Slots<T> {
    ghost use Rattle.std.specs.Prelude.{List, Option};
    ghost use Rattle.std.specs.Coded.{coded_list, coded_option};

    ghost Value = { List (List (Option T)) };

    ghost coded = { coded_list (coded_list (coded_option T.code)) };

    ghost use Rattle.lb_index_slots.specs.Links.{AreSlots, values};

    ghost view = { λ s. values s.chunks.items };

    ghost invariant = { λ s. AreSlots s.chunks.items s.free };
}

/// How many chunks there are at most, so that each slot has a number.
const MOST: usize = 1 << 57;

/// The link in a slot, if it is free.
fn freed<T: Drop>(chunks: &Vec<Chunk<T>>, slot: usize) -> Option<usize>
    ensures { result ≡ links chunks.now.items slot }
{
    chunks.get(slot / CHUNK)?.link(slot % CHUNK)
}

/// Puts a value into a slot that there is.
fn fill<T: Drop>(chunks: &mut Vec<Chunk<T>>, slot: usize, value: T)
    requires within { slot / 32 < length chunks.old.items }
    requires place { slot % 32 < length (cells_at chunks.old.items (slot / 32)) }
    ensures { chunks.new.items ≡ with_cell chunks.old.items slot (Full value) }
{
    chunks[slot / CHUNK].fill(slot % CHUNK, value);
}

/// Whether the last chunk has room for a value more.
fn has_room<T: Drop>(chunks: &Vec<Chunk<T>>) -> bool
    ensures some { OnTrue result (0 < length chunks.now.items) }
    ensures room { OnTrue result
        (length (cells_at chunks.now.items (length chunks.now.items - 1)) < 32) }
{
    match chunks.last() {
        Some(chunk) => chunk.len() < CHUNK,
        None => false,
    }
}

/// Makes room for a value in the last chunk.
fn room<T: Drop>(chunks: &mut Vec<Chunk<T>>, alloc: Global) -> Result<(), AllocError>
    requires few { length chunks.old.items ≤ 2 ^ 57 }
    ensures some { OnOk result (0 < length chunks.new.items) }
    ensures few { length chunks.new.items ≤ 2 ^ 57 }
    ensures room { OnOk result
        (length (cells_at chunks.new.items (length chunks.new.items - 1)) < 32) }
    ensures kept { (at : ℕ) → cells_at chunks.new.items at ≡ cells_at chunks.old.items at }
{
    if MOST <= chunks.len() {
        // here the numbers of slots end: no machine has room for twice as many slots as they count
        chunks.reserve(chunks.len() * 64)?;
    }
    if !has_room(chunks) {
        chunks.reserve(1)?;
        chunks.push_reserved(Chunk::new(alloc)?);
    }
    Ok(())
}

/// Puts a value after the others, and gives its slot. If memory is lacking it comes back.
fn push<T: Drop>(
    chunks: &mut Vec<Chunk<T>>,
    alloc: Global,
    value: T,
) -> Result<usize, (AllocError, T)>
    requires few { length chunks.old.items ≤ 2 ^ 57 }
    ensures few { length chunks.new.items ≤ 2 ^ 57 }
    ensures bound { IfOk result (λ slot. slot + 2 < 2 ^ 64) }
    ensures added { IfOk result
        (λ slot. Adds chunks.old.items chunks.new.items slot (Full value)) }
    ensures back { IfErr result (λ back. back.1 ≡ value) }
    ensures kept { OnErr result
        ((at : ℕ) → cells_at chunks.new.items at ≡ cells_at chunks.old.items at) }
{
    if let Err(refused) = room(chunks, alloc) {
        return Err((refused, value));
    }
    let last = chunks.len() - 1;
    let at = chunks[last].len();
    chunks[last].add(value)?;
    Ok(last * CHUNK + at)
}

impl<T: Drop> Slots<T> {
    /// No value. It takes no memory.
    pub fn new(alloc: Global) -> Slots<T>
        ensures { (slot : ℕ) → get result slot ≡ None }
    {
        Slots {
            chunks: Vec::new(alloc),
            free: 0,
            alloc,
        }
    }

    /// The value in a slot.
    pub fn get(&self, slot: usize) -> Option<&T>
        ensures { option_map (λ value. value.now) result ≡ get self.now slot }
    {
        self.chunks.get(slot / CHUNK)?.get(slot % CHUNK)
    }

    /// Puts a value into a slot that has none, and gives the slot. No chunk is added while a slot
    /// is empty. If memory is lacking the value comes back.
    pub fn put(&mut self, value: T) -> Result<usize, (AllocError, T)>
        ensures free { IfOk result (λ slot. get self.old slot ≡ None) }
        ensures bound { IfOk result (λ slot. slot + 2 < 2 ^ 64) }
        ensures put { IfOk result (λ slot. Updates self.old self.new slot (Some value)) }
        ensures back { IfErr result (λ back. back.1 ≡ value) }
        ensures kept { OnErr result ((slot : ℕ) → get self.new slot ≡ get self.old slot) }
        ensures tight { (slot : ℕ) → IsEmpty self.old slot
            → (length self.new ≡ length self.old) × IsOkAnd result (IsEmpty self.old) }
    {
        let free = self.free;
        if let Some(next) = freed(&self.chunks, free) {
            fill(&mut self.chunks, free, value);
            self.free = next;
            return Ok(free);
        }
        push(&mut self.chunks, self.alloc, value)
    }

    /// Puts a value in the place of the one in a slot. It takes no memory.
    pub fn set(&mut self, slot: usize, value: T)
        requires there { IsSome (get self.old slot) }
        ensures { Updates self.old self.new slot (Some value) }
    {
        fill(&mut self.chunks, slot, value);
    }

    /// Takes the value out of a slot. It takes no memory.
    pub fn take(&mut self, slot: usize) -> Option<T>
        ensures value { result ≡ get self.old slot }
        ensures slots { Updates self.old self.new slot None }
    {
        let free = self.free;
        let value = self.chunks.get_mut(slot / CHUNK)?.take(slot % CHUNK, free)?;
        self.free = slot;
        Some(value)
    }

    /// Drops the value in a slot where it is, which copies none of it. Whether there was one. It
    /// takes no memory.
    pub fn discard(&mut self, slot: usize) -> bool
        ensures value { result ≡ is_some (get self.old slot) }
        ensures slots { Updates self.old self.new slot None }
    {
        let free = self.free;
        let Some(chunk) = self.chunks.get_mut(slot / CHUNK) else {
            return false;
        };
        if !chunk.discard(slot % CHUNK, free) {
            return false;
        }
        self.free = slot;
        true
    }
}
