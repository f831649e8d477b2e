//! Why a call, or the closing of a desk, is refused.

ghost use Rattle.std.specs.Prelude.{◌≡◌};
ghost use Rattle.lb_desk.specs.Fault.{close_fault_number, desk_fault_number};

use std::alloc::AllocError;
use thiserror::Error;

/// Why a call is refused. Nothing was asked of the balancer.
#[derive(Clone, Copy, Debug, PartialEq, Eq, Error)]
pub enum DeskFault {
    /// The desk has taken 2^64-1 calls, or the seat has.
    #[error("no further call can be counted")]
    CountFull,
    /// Memory is lacking for the log or for the receipt.
    #[error("no memory")]
    NoMemory,
}

impl DeskFault {
    /// The number of the fault, 1 or 2.
    pub fn number(self) -> u8
        ensures { result ≡ desk_fault_number self }
    {
        match self {
            DeskFault::CountFull => 1,
            DeskFault::NoMemory => 2,
        }
    }
}

impl From<AllocError> for DeskFault {
    ghost use Rattle.lb_desk.specs.declared.fault.DeskFault.TheVariants as calling;

    ghost from_gives = { λ _ e. e ≡ calling.NoMemory };

    fn from(_refused: AllocError) -> DeskFault {
        DeskFault::NoMemory
    }
}

/// Why a desk that is closed has no audit.
#[derive(Clone, Copy, Debug, PartialEq, Eq, Error)]
pub enum CloseFault {
    /// Not all of its seats are there.
    #[error("a seat is missing")]
    MissingSeat,
    /// The receipts of a seat are not the log's entries of that seat, in order.
    #[error("receipts and log differ")]
    Differs,
}

impl CloseFault {
    /// The number of the fault, 1 or 2.
    pub fn number(self) -> u8
        ensures { result ≡ close_fault_number self }
    {
        match self {
            CloseFault::MissingSeat => 1,
            CloseFault::Differs => 2,
        }
    }
}
