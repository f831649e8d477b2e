//! Why the table of servers and pools refuses an edit.

ghost use Rattle.std.specs.Prelude.{◌≡◌};
ghost use Rattle.lb_servers.specs.Fault.{fault_number};

use std::alloc::{AllocError, AllocFailed};
use thiserror::Error;

/// Why the table of servers and pools refuses a change. `number` is the number that texts give it.
#[derive(Clone, Copy, Debug, PartialEq, Eq, Error)]
pub enum ParkFault {
    /// No server has this name or number.
    #[error("there is no such server")]
    NoSuchServer,
    /// No pool has this name or number.
    #[error("there is no such pool")]
    NoSuchPool,
    /// Another server, or another pool, has the name.
    #[error("the name is taken")]
    NameTaken,
    /// 256 servers are there, or 64 pools.
    #[error("there are too many")]
    TooMany,
    /// Memory is lacking.
    #[error("no memory")]
    NoMemory,
    /// The number 2^64-1 was given.
    #[error("there are no more numbers for servers")]
    NoMoreIds,
}

impl ParkFault {
    /// The number of the fault, 1 to 6.
    pub fn number(self) -> u8
        ensures { result ≡ fault_number self }
    {
        match self {
            ParkFault::NoSuchServer => 1,
            ParkFault::NoSuchPool => 2,
            ParkFault::NameTaken => 3,
            ParkFault::TooMany => 4,
            ParkFault::NoMemory => 5,
            ParkFault::NoMoreIds => 6,
        }
    }
}

impl From<AllocError> for ParkFault {
    ghost use Rattle.std.specs.Prelude.{◌≡◌};
    ghost use Rattle.lb_servers.specs.declared.fault.ParkFault.TheVariants as faults;

    ghost from_gives = { λ _ fault. fault ≡ faults.NoMemory };

    fn from(_refused: AllocError) -> ParkFault {
        ParkFault::NoMemory
    }
}

impl<T: Drop> From<AllocFailed<T>> for ParkFault {
    ghost use Rattle.std.specs.Prelude.{◌≡◌};
    ghost use Rattle.lb_servers.specs.declared.fault.ParkFault.TheVariants as faults;

    ghost from_gives = { λ _ fault. fault ≡ faults.NoMemory };

    fn from(refused: AllocFailed<T>) -> ParkFault {
        ParkFault::from(AllocError::from(refused))
    }
}
