//! How many lanes of each transport a server has.

ghost use Rattle.std.specs.Prelude.{◌≡◌, ◌≤◌, ◌&&◌, Some, None, nat_le, if◌then◌else◌};

use std::marker::Model;

/// The most lanes of each transport that a server has.
const LANES_END: u8 = 8;

/// How many lanes of each transport a server has: 1 to 8. A contract sees it as their number.
#[derive(Clone, Copy, Debug, Drop, PartialEq, Eq)]
pub struct LaneCount {
    number: u8,
}

impl Model for LaneCount {
    ghost use Rattle.std.specs.Prelude.{ℕ, ◌≤◌};

    ghost Value = { ℕ };

    ghost view = { λ l. l.number };

    ghost inverse = { λ n. record { number = n } };

    ghost invariant = { λ l. (1 ≤ l.number) × (l.number ≤ 8) };
}

impl LaneCount {
    /// So many lanes. None if they are fewer than 1 or more than 8.
    pub fn new(number: u8) -> Option<LaneCount>
        ensures { result ≡ (if nat_le 1 number && nat_le number 8 then Some number else None) }
    {
        if 1 <= number && number <= LANES_END {
            Some(LaneCount { number })
        } else {
            None
        }
    }

    /// One lane of each transport.
    pub fn one() -> LaneCount
        ensures { result ≡ 1 }
    {
        LaneCount { number: 1 }
    }

    /// The number.
    pub fn get(self) -> u8
        ensures { result ≡ self }
    {
        self.number
    }
}
