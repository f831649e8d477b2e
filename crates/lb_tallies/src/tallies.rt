//! Counts under numbers.

ghost use Rattle.std.specs.Prelude.{◌≡◌, ◌<◌, ◌≤◌, ℕ, None, Some, OnErr, OnOk, length};
ghost use Rattle.lb_tallies.specs.Tallies.{AreSame, Changes, few, tally_of};

use std::alloc::{AllocError, Global};
use std::collections::HashMap;
use std::marker::Model;

/// Numbers below this one are few: their counts stand in a list, each at its number.
const FEW: u64 = 16_384;

/// Counts under numbers. At 2^64-1 a count stays. A contract sees what each number has (`tally_of`).
#[derive(Debug, Drop)]
pub struct Tallies {
    /// The counts of the numbers below `FEW`, up to the greatest that was counted.
    few: Vec<u64>,
    /// Those of all others.
    others: HashMap<u64, u64>,
}

impl Model for Tallies {
    ghost use Rattle.std.specs.Prelude.{ℕ, List};

    ghost Value = { List ℕ × List (ℕ × ℕ) };

    ghost view = { λ t. (t.few.items, t.others.entries) };
}

impl Tallies {
    /// No count. It takes no memory.
    pub fn new(alloc: Global) -> Tallies
        ensures { (id : ℕ) → tally_of id result ≡ 0 }
    {
        Tallies {
            few: Vec::new(alloc),
            others: HashMap::new(alloc),
        }
    }

    /// The count under a number: 0, until something was counted under it.
    pub fn get(&self, id: u64) -> u64
        ensures { result ≡ tally_of id self.now }
    {
        let found = if id < FEW {
            self.few.get(id as usize)
        } else {
            self.others.get(&id)
        };
        match found {
            Some(count) => *count,
            None => 0,
        }
    }

    /// Takes a number's count away.
    pub fn shut(&mut self, id: u64)
        ensures { Changes (Some id) None self.old self.new }
    {
        if id >= FEW {
            let _ = self.others.remove(&id);
        } else if let Some(count) = self.few.get_mut(id as usize) {
            *count = 0;
        }
    }

    /// Counts one more under a number. It takes memory for the first count of a number alone. The one error is lack of memory: then nothing
    /// is counted.
    #[inline(always)]
    pub fn raise(&mut self, id: u64) -> Result<(), AllocError>
        ensures raised { OnOk result (Changes None (Some id) self.old self.new) }
        ensures same { OnErr result (AreSame self.old self.new) }
    {
        if id >= FEW {
            return self.raise_other(id);
        }
        self.reach(id as usize)?;
        let tally = &mut self.few[id as usize];
        *tally = tally.saturating_add(1);
        Ok(())
    }

    /// Lets the list reach as far as a number. No count changes.
    #[inline(always)]
    fn reach(&mut self, at: usize) -> Result<(), AllocError>
        requires { at < few }
        ensures same { AreSame self.old self.new }
        ensures reached { OnOk result (at < length self.new.0) }
    {
        if at < self.few.len() {
            return Ok(());
        }
        self.few.resize(at + 1, 0)
    }

    /// Counts one more under a number that is not among the few.
    #[inline(never)]
    fn raise_other(&mut self, id: u64) -> Result<(), AllocError>
        requires { few ≤ id }
        ensures raised { OnOk result (Changes None (Some id) self.old self.new) }
        ensures same { OnErr result (AreSame self.old self.new) }
    {
        if let Some(count) = self.others.get_mut(&id) {
            *count = count.saturating_add(1);
            return Ok(());
        }
        self.others.insert(id, 1)?;
        Ok(())
    }
}
