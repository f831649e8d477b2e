//! Whether a server is up, by the results of its probes.

ghost use Rattle.std.specs.Prelude.{◌≡◌, ◌<◌};
ghost use Rattle.std.specs.Int.NonZero.{non_zero_u8_get};
ghost use Rattle.lb_health.specs.Health.{needed, new_standing, result_of};

use std::marker::Model;
use std::num::NonZeroU8;

/// The change that a result makes to a server.
#[derive(Clone, Copy, Debug, PartialEq, Eq)]
pub enum Changed {
    /// It stays what it was.
    No,
    /// It came up.
    Up,
    /// It went down.
    Down,
}

/// The health of a server: up at first, down after so many failures in a row, up again after so many successes in a row.
#[derive(Debug, Drop)]
pub struct Health {
    fall: NonZeroU8,
    rise: NonZeroU8,
    up: bool,
    against: u8,
}

impl Model for Health {
    ghost use Rattle.std.specs.Prelude.{◌<◌};
    ghost use Rattle.std.specs.Int.NonZero.{non_zero_u8_get};
    ghost use Rattle.lb_health.specs.Health.{Standing, needed};

    ghost Value = { Standing };

    ghost view = { λ h. record { fall = non_zero_u8_get h.fall; rise = non_zero_u8_get h.rise; up = h.up; against = h.against } };

    ghost invariant = { λ h. h.against < needed (record { fall = non_zero_u8_get h.fall; rise = non_zero_u8_get h.rise; up = h.up; against = h.against }) };
}

impl Health {
    /// The health of a new server, which is up: so many failures in a row take it down, and so many successes in a row bring
    /// it up.
    pub fn new(fall: NonZeroU8, rise: NonZeroU8) -> Health
        ensures { result ≡ new_standing (non_zero_u8_get fall) (non_zero_u8_get rise) }
    {
        Health {
            fall,
            rise,
            up: true,
            against: 0,
        }
    }

    /// So many failures in a row take it down.
    pub fn fall(&self) -> NonZeroU8
        ensures { non_zero_u8_get result ≡ self.now.fall }
    {
        self.fall
    }

    /// So many successes in a row bring it up.
    pub fn rise(&self) -> NonZeroU8
        ensures { non_zero_u8_get result ≡ self.now.rise }
    {
        self.rise
    }

    /// Takes the result of a probe, and gives the change that it makes.
    pub fn result(&mut self, ok: bool) -> Changed
        ensures { (self.new, result) ≡ result_of self.old ok }
    {
        if ok == self.up {
            self.against = 0;
            return Changed::No;
        }
        let against = self.against + 1;
        if against == self.needed() {
            self.against = 0;
            self.up = ok;
            return if ok { Changed::Up } else { Changed::Down };
        }
        self.against = against;
        Changed::No
    }

    /// Whether the server is up.
    pub fn is_up(&self) -> bool
        ensures { result ≡ self.now.up }
    {
        self.up
    }

    /// An equal health.
    pub fn copy(&self) -> Health
        ensures { result ≡ self.now }
    {
        Health {
            fall: self.fall,
            rise: self.rise,
            up: self.up,
            against: self.against,
        }
    }

    /// How many results in a row change the server.
    fn needed(&self) -> u8
        ensures { result ≡ needed self.now }
    {
        if self.up {
            self.fall.get()
        } else {
            self.rise.get()
        }
    }

    /// A law: fewer results in a row than it takes went against what the server is. The call does nothing.
    pub fn is_short_of_a_change(&self)
        ensures { self.now.against < needed self.now }
    {
        // whoever reads a field knows what is true of them all
        let _up = self.up;
    }
}
