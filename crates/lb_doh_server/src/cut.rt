//! What ends a connection, and what ends the front.

use lb_doh::EnterFault;
use std::alloc::{AllocError, AllocFailed};
use std::io;
use thiserror::Error;

/// Why a request has no response: its connection ends.
#[derive(Debug, Drop, Error)]
pub(crate) enum Cut {
    /// It did not come to stand among those that wait.
    #[error("{0}")]
    Entering(EnterFault),
    /// Its response was not built.
    #[error("{0}")]
    Response(http::Error),
    /// Memory was lacking.
    #[error("no memory")]
    NoMemory,
    /// Its body did not come, or not in time.
    #[error("the body did not come")]
    Body,
    /// No answer comes any more.
    #[error("no answer comes")]
    Unanswered,
}

impl From<AllocError> for Cut {
    ghost use Rattle.std.specs.Prelude.{◌≡◌};
    ghost use Rattle.lb_doh_server.specs.declared.cut.Cut.TheVariants as cuts;

    ghost from_gives = { λ _ cut. cut ≡ cuts.NoMemory };

    fn from(_refused: AllocError) -> Cut {
        Cut::NoMemory
    }
}

impl From<EnterFault> for Cut {
    ghost use Rattle.std.specs.Prelude.{◌≡◌};
    ghost use Rattle.lb_doh_server.specs.declared.cut.Cut.TheVariants as cuts;

    ghost from_gives = { λ fault cut. cut ≡ cuts.Entering fault };

    fn from(fault: EnterFault) -> Cut {
        Cut::Entering(fault)
    }
}

impl From<http::Error> for Cut {
    ghost use Rattle.std.specs.Prelude.{◌≡◌};
    ghost use Rattle.lb_doh_server.specs.declared.cut.Cut.TheVariants as cuts;

    ghost from_gives = { λ error cut. cut ≡ cuts.Response error };

    fn from(error: http::Error) -> Cut {
        Cut::Response(error)
    }
}

/// Why the front ended by itself.
#[derive(Debug, Drop, Error)]
pub enum FrontFault {
    /// The system did not give what it needs.
    #[error("{0}")]
    System(io::Error),
    /// Memory was lacking.
    #[error("no memory")]
    NoMemory,
    /// Its event handler was not given back.
    #[error("the event handler is held")]
    Held,
}

impl From<AllocError> for FrontFault {
    ghost use Rattle.std.specs.Prelude.{◌≡◌};
    ghost use Rattle.lb_doh_server.specs.declared.cut.FrontFault.TheVariants as faults;

    ghost from_gives = { λ _ fault. fault ≡ faults.NoMemory };

    fn from(_refused: AllocError) -> FrontFault {
        FrontFault::NoMemory
    }
}

impl<T: Drop> From<AllocFailed<T>> for FrontFault {
    ghost use Rattle.std.specs.Prelude.{◌≡◌};
    ghost use Rattle.lb_doh_server.specs.declared.cut.FrontFault.TheVariants as faults;

    ghost from_gives = { λ _ fault. fault ≡ faults.NoMemory };

    fn from(refused: AllocFailed<T>) -> FrontFault {
        FrontFault::from(AllocError::from(refused))
    }
}

impl From<io::Error> for FrontFault {
    ghost use Rattle.std.specs.Prelude.{◌≡◌};
    ghost use Rattle.lb_doh_server.specs.declared.cut.FrontFault.TheVariants as faults;

    ghost from_gives = { λ error fault. fault ≡ faults.System error };

    fn from(error: io::Error) -> FrontFault {
        FrontFault::System(error)
    }
}
