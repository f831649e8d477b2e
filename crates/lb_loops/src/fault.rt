//! Why loops end by themselves.

ghost use Rattle.std.specs.Prelude.{◌≡◌};
ghost use Rattle.lb_loops.specs.Fault.{end_behind, number_of};

use lb_loops_io::{DeviceFault, Report, WaitFailed};
use std::alloc::AllocError;
use thiserror::Error;

/// Why loops end by themselves.
#[derive(Clone, Copy, Debug, PartialEq, Eq, Error)]
pub enum LoopFault {
    /// Waiting for sockets failed, or there was no moment or random word to be had.
    #[error("device fault")]
    Device,
    /// A loop found no room to begin.
    #[error("no memory")]
    NoMemory,
    /// A gate held an event.
    #[error("a gate held an event")]
    Held,
}

impl LoopFault {
    /// Its number: Device 1, NoMemory 2, Held 3.
    pub fn number(self) -> u8
        ensures { result ≡ number_of self }
    {
        match self {
            LoopFault::Device => 1,
            LoopFault::NoMemory => 2,
            LoopFault::Held => 3,
        }
    }
}

impl From<AllocError> for LoopFault {
    ghost use Rattle.std.specs.Prelude.{◌≡◌};
    ghost use Rattle.lb_loops.specs.declared.fault.LoopFault.TheVariants as faults;

    ghost from_gives = { λ _ e. e ≡ faults.NoMemory };

    fn from(_refused: AllocError) -> LoopFault {
        LoopFault::NoMemory
    }
}

impl From<WaitFailed> for LoopFault {
    ghost use Rattle.std.specs.Prelude.{◌≡◌};
    ghost use Rattle.lb_loops.specs.declared.fault.LoopFault.TheVariants as faults;

    ghost from_gives = { λ _ e. e ≡ faults.Device };

    fn from(_failed: WaitFailed) -> LoopFault {
        LoopFault::Device
    }
}

/// Whether a loop ends after a turn: if its gate held an event, or what is outside failed. A socket
/// that fails ends none.
pub(crate) fn ends(report: &Report) -> Result<(), LoopFault>
    ensures { result ≡ end_behind report.now.is_held report.now.device }
{
    if report.is_held {
        return Err(LoopFault::Held);
    }
    match report.device {
        Some(DeviceFault::Outside) => Err(LoopFault::Device),
        Some(DeviceFault::Sockets) | None => Ok(()),
    }
}
