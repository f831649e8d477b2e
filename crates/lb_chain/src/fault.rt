//! Why a chain refuses an edit.

ghost use Rattle.std.specs.Prelude.{◌≡◌};
ghost use Rattle.lb_chain.specs.Fault.{fault_number};

use std::alloc::{AllocError, AllocFailed};
use thiserror::Error;

/// Why the list of rules refuses a change. `number` is the number that texts give it.
#[derive(Clone, Copy, Debug, PartialEq, Eq, Error)]
pub enum ChainFault {
    /// No rule has this number.
    #[error("there is no such rule")]
    NoSuchRule,
    /// The place is past the end of the list.
    #[error("there is no such place")]
    BadPlace,
    /// 4,096 rules are there.
    #[error("there are too many rules")]
    TooManyRules,
    /// The rules would have more than 16 rate limiters.
    #[error("there are too many rate limiters")]
    TooManyLimiters,
    /// Memory is lacking.
    #[error("no memory")]
    NoMemory,
    /// The number 2^64-1 was given.
    #[error("there are no more numbers for rules")]
    NoMoreIds,
}

impl ChainFault {
    /// The number of the fault, 1 to 6.
    pub fn number(self) -> u8
        ensures { result ≡ fault_number self }
    {
        match self {
            ChainFault::NoSuchRule => 1,
            ChainFault::BadPlace => 2,
            ChainFault::TooManyRules => 3,
            ChainFault::TooManyLimiters => 4,
            ChainFault::NoMemory => 5,
            ChainFault::NoMoreIds => 6,
        }
    }
}

impl From<AllocError> for ChainFault {
    ghost use Rattle.std.specs.Prelude.{◌≡◌};
    ghost use Rattle.lb_chain.specs.declared.fault.ChainFault.TheVariants as faults;

    ghost from_gives = { λ _ fault. fault ≡ faults.NoMemory };

    fn from(_refused: AllocError) -> ChainFault {
        ChainFault::NoMemory
    }
}

impl<T: Drop> From<AllocFailed<T>> for ChainFault {
    ghost use Rattle.std.specs.Prelude.{◌≡◌};
    ghost use Rattle.lb_chain.specs.declared.fault.ChainFault.TheVariants as faults;

    ghost from_gives = { λ _ fault. fault ≡ faults.NoMemory };

    fn from(refused: AllocFailed<T>) -> ChainFault {
        ChainFault::from(AllocError::from(refused))
    }
}
