//! How long a query waits for its reply.

ghost use Rattle.std.specs.Prelude.{◌≡◌, ◌&&◌, Some, None, nat_le, if◌then◌else◌};

use std::marker::Model;

/// The longest that a query waits, in milliseconds.
pub const MAX_TIMEOUT: u32 = 60_000;

/// How long a query waits for its reply: 1 to 60,000 milliseconds. A contract sees it as their number.
#[derive(Clone, Copy, Debug, Drop, PartialEq, Eq)]
pub struct Timeout {
    millis: u32,
}

impl Model for Timeout {
    ghost use Rattle.std.specs.Prelude.{ℕ, ◌≤◌};

    ghost Value = { ℕ };

    ghost view = { λ t. t.millis };

    ghost inverse = { λ n. record { millis = n } };

    ghost invariant = { λ t. (1 ≤ t.millis) × (t.millis ≤ 60000) };
}

impl Timeout {
    /// So many milliseconds. None where they are fewer than 1 or more than 60,000.
    pub fn from_millis(millis: u32) -> Option<Timeout>
        ensures { result ≡ (if nat_le 1 millis && nat_le millis 60000 then Some millis else None) }
    {
        if 1 <= millis && millis <= MAX_TIMEOUT {
            Some(Timeout { millis })
        } else {
            None
        }
    }

    /// The milliseconds.
    pub fn as_millis(self) -> u32
        ensures { result ≡ self }
    {
        self.millis
    }
}
