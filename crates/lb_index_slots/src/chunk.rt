//! A run of slots that stays where it is.

ghost use Rattle.std.specs.Prelude.{◌≡◌, ◌<◌, [], ◌∷◌, ◌++◌, length, map, slice_set};
ghost use Rattle.std.specs.Prelude.{IfErr, IfNone, IfOk, IfSome, OnErr, is_some, option_map};
ghost use Rattle.std.specs.Bool.{OnFalse, OnTrue};
ghost use Rattle.lb_index_slots.specs.Links.{link_at};
ghost use Rattle.lb_index_slots.specs.Slots.{value_at, value_in};
ghost use Rattle.lb_index_slots.specs.declared.chunk.Cell.TheVariants.{Free, Full};

use std::alloc::{AllocError, Global};
use std::marker::Model;
use std::mem;

/// What a slot has: a value, or nothing and the slot that was freed before it.
#[derive(Debug, Drop)]
enum Cell<T> {
    Free(usize),
    Full(T),
}

impl<T: Drop> Cell<T> {
    /// Takes the value out, if there is one, and leaves this link.
    fn take(&mut self, free: usize) -> Option<T>
        ensures value { result ≡ value_in self.old }
        ensures none { IfNone result (self.new ≡ self.old) }
        ensures some { IfSome result (λ _. self.new ≡ Free free) }
    {
        match self {
            Cell::Free(_) => None,
            Cell::Full(_) => match mem::replace(self, Cell::Free(free)) {
                Cell::Full(value) => Some(value),
                Cell::Free(_) => None,
            },
        }
    }
}

impl<T: Drop> Cell<T> {
    /// Drops the value where it is, if there is one, and leaves this link. Whether there was one.
    fn discard(&mut self, free: usize) -> bool
        ensures value { result ≡ is_some (value_in self.old) }
        ensures none { OnFalse result (self.new ≡ self.old) }
        ensures some { OnTrue result (self.new ≡ Free free) }
    {
        match self {
            Cell::Free(_) => false,
            Cell::Full(_) => {
                *self = Cell::Free(free);
                true
            }
        }
    }
}

/// How many slots a chunk has.
pub(crate) const CHUNK: usize = 32;

/// A run of slots, which a contract of this crate sees as their cells: a value, or the link to the
/// slot that was freed before.
#[derive(Debug, Drop)]
pub(crate) struct Chunk<T> {
    cells: Vec<Cell<T>>,
}

impl<T> Model for Chunk<T> {
    ghost use Rattle.std.specs.Prelude.{List};
    ghost use Rattle.lb_index_slots.specs.declared.chunk.Cell.{Cell};

    ghost Value = { List (Cell T) };

    ghost view = { λ c. c.cells.items };
}

impl<T: Drop> Chunk<T> {
    /// No slot yet, and room for all.
    pub(crate) fn new(alloc: Global) -> Result<Chunk<T>, AllocError>
        ensures { IfOk result (λ chunk. chunk ≡ []) }
    {
        Ok(Chunk {
            cells: Vec::with_capacity(alloc, CHUNK)?,
        })
    }

    /// How many slots there are.
    pub(crate) fn len(&self) -> usize
        ensures { result ≡ length self.now }
    {
        self.cells.len()
    }

    /// The value in a place.
    pub(crate) fn get(&self, at: usize) -> Option<&T>
        ensures { option_map (λ value. value.now) result ≡ value_at (map value_in self.now) at }
    {
        match self.cells.get(at)? {
            Cell::Full(value) => Some(value),
            Cell::Free(_) => None,
        }
    }

    /// The link in a place, if it has no value.
    pub(crate) fn link(&self, at: usize) -> Option<usize>
        ensures { result ≡ link_at self.now at }
    {
        match self.cells.get(at)? {
            Cell::Full(_) => None,
            Cell::Free(next) => Some(*next),
        }
    }

    /// Takes the value out of a place, and leaves a link there.
    pub(crate) fn take(&mut self, at: usize, link: usize) -> Option<T>
        ensures value { result ≡ value_at (map value_in self.old) at }
        ensures none { IfNone result (self.new ≡ self.old) }
        ensures some { IfSome result (λ _. self.new ≡ slice_set self.old at (Free link)) }
    {
        self.cells.get_mut(at)?.take(link)
    }

    /// Drops the value in a place where it is, and leaves a link there. Whether there was one.
    pub(crate) fn discard(&mut self, at: usize, link: usize) -> bool
        ensures value { result ≡ is_some (value_at (map value_in self.old) at) }
        ensures none { OnFalse result (self.new ≡ self.old) }
        ensures some { OnTrue result (self.new ≡ slice_set self.old at (Free link)) }
    {
        match self.cells.get_mut(at) {
            Some(cell) => cell.discard(link),
            None => false,
        }
    }

    /// Puts a value into a place.
    pub(crate) fn fill(&mut self, at: usize, value: T)
        requires { at < length self.old }
        ensures { self.new ≡ slice_set self.old at (Full value) }
    {
        self.cells[at] = Cell::Full(value);
    }

    /// Puts a value after the others. If memory is lacking it comes back.
    pub(crate) fn add(&mut self, value: T) -> Result<(), (AllocError, T)>
        ensures added { IfOk result (λ _. self.new ≡ self.old ++ Full value ∷ []) }
        ensures back { IfErr result (λ back. back.1 ≡ value) }
        ensures kept { OnErr result (self.new ≡ self.old) }
    {
        if let Err(refused) = self.cells.reserve(1) {
            return Err((refused, value));
        }
        self.cells.push_reserved(Cell::Full(value));
        Ok(())
    }
}
