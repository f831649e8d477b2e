//! Lack of memory for a query.

ghost use Rattle.std.specs.Prelude.{◌≡◌};
ghost use Rattle.lb_table.specs.declared.fault.EnterFault.TheVariants.{NoMemory};

use lb_table::EnterFault;
use std::alloc::AllocError;

/// That memory was refused for a query. What was refused makes one, and nothing else can: so no query is answered so without
/// cause.
#[derive(Clone, Copy, Debug)]
pub(crate) struct Lacking {
    _made: (),
}

impl Lacking {
    /// By the table of outstanding queries, whose fault says so.
    pub(crate) fn by_table(_fault: EnterFault) -> Lacking
        requires { _fault ≡ NoMemory }
    {
        Lacking { _made: () }
    }
}

impl From<AllocError> for Lacking {
    fn from(_refused: AllocError) -> Lacking {
        Lacking { _made: () }
    }
}
