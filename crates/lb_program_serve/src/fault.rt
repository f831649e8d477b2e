//! What ends serving other than by `stop`.

ghost use Rattle.std.specs.Prelude.{◌≡◌};
ghost use Rattle.std.specs.IoError.{error_kind};
ghost use Rattle.lb_program.specs.Faults.{failure_text};
ghost use Rattle.lb_program_serve.specs.Fault.{fault_status, fault_text};

use crate::switches::Switch;
use lb_desk::CloseFault;
use lb_doh_server::FrontFault;
use lb_loops::LoopFault;
use lb_sockets::BindFault;
use std::alloc::{AllocError, AllocFailed};
use std::io;
use std::io::ErrorKind;

const DEVICE: &str = "device fault\n";

const MEMORY: &str = "no memory\n";

const DIFFERS: &str = "audit differs\n";

/// What ends serving, or keeps it from beginning.
#[derive(Debug, Drop)]
pub enum Fault {
    /// A switch of the environment can't be honoured.
    Switch(Switch),
    /// The system does not give so many threads at a time.
    NoThreads(u8),
    /// The file has no line that listens.
    NoListener,
    /// The listener of this line, from 1, was not bound.
    Bind(u64, BindFault),
    /// The system gives no sockets to wait with, or no clock.
    System(io::Error),
    /// A loop ended by itself.
    Loops(LoopFault),
    /// The front of DNS on HTTP ended by itself.
    Front(FrontFault),
    /// The console could not wait for its clients, or there was no moment for an edit.
    Console,
    /// Standard output failed.
    Output(io::Error),
    /// The desk's log and its callers' receipts differ.
    Closing(CloseFault),
    /// Memory was refused.
    NoMemory,
}

impl Fault {
    /// The exit status.
    pub(crate) fn status(&self) -> u8
        ensures { result ≡ fault_status self.now }
    {
        match self {
            Fault::Closing(_) => 4,
            Fault::Switch(_)
            | Fault::NoThreads(_)
            | Fault::NoListener
            | Fault::Bind(..)
            | Fault::System(_)
            | Fault::Loops(_)
            | Fault::Front(_)
            | Fault::Console
            | Fault::Output(_)
            | Fault::NoMemory => 3,
        }
    }

    /// The text of the status, with its line feed.
    pub(crate) fn text(&self) -> &'static str
        ensures { result.now ≡ fault_text self.now }
    {
        match self {
            Fault::Closing(_) => DIFFERS,
            Fault::NoMemory
            | Fault::Loops(LoopFault::NoMemory)
            | Fault::Front(FrontFault::NoMemory)
            | Fault::Bind(_, BindFault::NoMemory) => MEMORY,
            Fault::System(error) | Fault::Front(FrontFault::System(error)) | Fault::Output(error) =>
                failure(error),
            Fault::Switch(_)
            | Fault::NoThreads(_)
            | Fault::NoListener
            | Fault::Bind(_, BindFault::Bind { .. })
            | Fault::Loops(_)
            | Fault::Front(FrontFault::Held)
            | Fault::Console => DEVICE,
        }
    }
}

/// The text of a device that failed: it may have wanted memory.
fn failure(error: &io::Error) -> &'static str
    ensures { result.now ≡ failure_text (error_kind error.now) }
{
    match error.kind() {
        ErrorKind::OutOfMemory => MEMORY,
        _ => DEVICE,
    }
}

impl From<AllocError> for Fault {
    ghost use Rattle.lb_program_serve.specs.declared.fault.Fault.TheVariants as faults;

    ghost from_gives = { λ _ e. e ≡ faults.NoMemory };

    fn from(_refused: AllocError) -> Fault {
        Fault::NoMemory
    }
}

impl<T: Drop> From<AllocFailed<T>> for Fault {
    ghost use Rattle.lb_program_serve.specs.declared.fault.Fault.TheVariants as faults;

    ghost from_gives = { λ _ e. e ≡ faults.NoMemory };

    fn from(_refused: AllocFailed<T>) -> Fault {
        Fault::NoMemory
    }
}

/// An error that comes by `?` is the system's. Those of the output are named.
impl From<io::Error> for Fault {
    ghost use Rattle.lb_program_serve.specs.declared.fault.Fault.TheVariants as faults;

    ghost from_gives = { λ error e. e ≡ faults.System error };

    fn from(error: io::Error) -> Fault {
        Fault::System(error)
    }
}
