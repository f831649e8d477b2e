//! Slots by the moments at which the replies in them end.

ghost use Rattle.std.specs.Prelude.{◌≡◌, ◌≢◌, ℕ, ◌+◌, ◌≤◌, Some, IfNone, IfSome, OnErr, OnOk, cond, false, true};
ghost use Rattle.lb_cache.specs.Ends.{has, is_end_mark, marks_in};

use std::alloc::{AllocError, Global};
use std::collections::BTreeSet;

/// Moments, in milliseconds, each with the slots whose replies end then.
#[derive(Debug, Drop)]
pub(crate) struct Ends {
    marks: BTreeSet<(u64, u64)>,
}

impl Ends {
    /// No slot. It takes no memory.
    pub(crate) fn new(alloc: Global) -> Ends
        ensures { (v s : ℕ) → has result v s ≡ false }
    {
        Ends {
            marks: BTreeSet::new(alloc),
        }
    }

    /// Marks a slot by a moment, if there is one. The one error is lack of memory, and only a new
    /// mark can want it.
    pub(crate) fn put(&mut self, end: Option<u64>, slot: u64) -> Result<(), AllocError>
        ensures put { OnOk result ((v s : ℕ) → has self.new v s ≡ cond (is_end_mark end slot v s) true (has self.old v s)) }
        ensures kept { OnErr result ((v s : ℕ) → has self.new v s ≡ has self.old v s) }
    {
        let Some(end) = end else {
            return Ok(());
        };
        match self.marks.insert((end, slot)) {
            Ok(_) => Ok(()),
            Err(refused) => Err(AllocError::from(refused)),
        }
    }

    /// Takes a moment's mark, if there is one, off a slot. It takes no memory.
    pub(crate) fn take(&mut self, end: Option<u64>, slot: u64)
        ensures marks { (v s : ℕ) → has self.new v s ≡ cond (is_end_mark end slot v s) false (has self.old v s) }
        ensures less { IfSome end (λ v. has self.old v slot ≡ true → marks_in self.new + 1 ≡ marks_in self.old) }
    {
        if let Some(end) = end {
            let _ = self.marks.remove(&(end, slot));
        }
    }

    /// The slot with the least moment, with that.
    pub(crate) fn least(&self) -> Option<(u64, u64)>
        ensures none { IfNone result ((v s : ℕ) → has self.now v s ≡ false) }
        ensures has { IfSome result (λ m. has self.now m.0 m.1 ≡ true) }
        ensures least { IfSome result (λ m. (v s : ℕ) → has self.now v s ≡ true → m.0 ≤ v) }
    {
        match self.marks.first() {
            Some(first) => Some(*first),
            None => None,
        }
    }

    /// The slot with the least moment but for one slot, with that.
    pub(crate) fn least_but(&self, slot: u64) -> Option<(u64, u64)>
        requires one { (v w : ℕ) → has self.now v slot ≡ true → has self.now w slot ≡ true → v ≡ w }
        ensures none { IfNone result ((v s : ℕ) → has self.now v s ≡ true → s ≡ slot) }
        ensures has { IfSome result (λ m. has self.now m.0 m.1 ≡ true) }
        ensures other { IfSome result (λ m. m.1 ≢ slot) }
        ensures least { IfSome result (λ m. (v s : ℕ) → has self.now v s ≡ true → s ≢ slot → m.0 ≤ v) }
    {
        let mut marks = self.marks.iter();
        let first = *marks.next()?;
        if first.1 != slot {
            return Some(first);
        }
        let second = *marks.next()?;
        Some(second)
    }

    /// `least_but` if a slot is named, else `least`.
    pub(crate) fn least_of(&self, but: Option<u64>) -> Option<(u64, u64)>
        requires one { (b v w : ℕ) → but ≡ Some b → has self.now v b ≡ true → has self.now w b ≡ true → v ≡ w }
        ensures none { IfNone result ((v s : ℕ) → has self.now v s ≡ true → but ≡ Some s) }
        ensures has { IfSome result (λ m. has self.now m.0 m.1 ≡ true) }
        ensures other { IfSome result (λ m. but ≢ Some m.1) }
        ensures least { IfSome result (λ m. (v s : ℕ) → has self.now v s ≡ true → but ≢ Some s → m.0 ≤ v) }
    {
        match but {
            Some(slot) => self.least_but(slot),
            None => self.least(),
        }
    }
}
