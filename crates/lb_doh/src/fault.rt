//! Why a request does not wait.

use std::alloc::{AllocError, AllocFailed};
use thiserror::Error;

/// Why a request does not come to stand among those that wait.
#[derive(Clone, Copy, Debug, PartialEq, Eq, Error)]
pub enum EnterFault {
    /// Each number from 1 to 2^64-1 was given.
    #[error("no number is left")]
    NoNumber,
    /// Memory is lacking.
    #[error("no memory")]
    NoMemory,
}

impl From<AllocError> for EnterFault {
    ghost use Rattle.std.specs.Prelude.{◌≡◌};
    ghost use Rattle.lb_doh.specs.declared.fault.EnterFault.TheVariants as faults;

    ghost from_gives = { λ _ fault. fault ≡ faults.NoMemory };

    fn from(_refused: AllocError) -> EnterFault {
        EnterFault::NoMemory
    }
}

impl<T: Drop> From<AllocFailed<T>> for EnterFault {
    ghost use Rattle.std.specs.Prelude.{◌≡◌};
    ghost use Rattle.lb_doh.specs.declared.fault.EnterFault.TheVariants as faults;

    ghost from_gives = { λ _ fault. fault ≡ faults.NoMemory };

    fn from(refused: AllocFailed<T>) -> EnterFault {
        EnterFault::from(AllocError::from(refused))
    }
}
