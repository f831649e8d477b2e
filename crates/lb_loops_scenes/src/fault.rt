//! Why a scene is not played to its end.

use std::alloc::{AllocError, AllocFailed};
use std::io;

/// Why a scene is not played to its end; where it is for a line, with its number from 1.
#[derive(Clone, Copy, Drop)]
pub(crate) enum Fault {
    NoSuchLine(usize),
    Missing(usize),
    BadWord(usize),
    Full(usize),
    Audit,
    NoMemory,
    Device,
}

impl Fault {
    /// The number of the line; 0 where it is for none.
    pub(crate) fn line(self) -> usize {
        match self {
            Fault::NoSuchLine(number)
            | Fault::Missing(number)
            | Fault::BadWord(number)
            | Fault::Full(number) => number,
            Fault::Audit | Fault::NoMemory | Fault::Device => 0,
        }
    }

    /// What an operator reads.
    pub(crate) fn why(self) -> &'static str {
        match self {
            Fault::NoSuchLine(_) => "no such line",
            Fault::Missing(_) => "a word is missing",
            Fault::BadWord(_) => "a word that cannot stand there",
            Fault::Full(_) => "more than there is room for",
            Fault::Audit => "the desk's log or its receipts differ",
            Fault::NoMemory => "no memory",
            Fault::Device => "device fault",
        }
    }
}

impl From<AllocError> for Fault {
    fn from(_refused: AllocError) -> Fault {
        Fault::NoMemory
    }
}

impl<T: Drop> From<AllocFailed<T>> for Fault {
    fn from(refused: AllocFailed<T>) -> Fault {
        Fault::from(AllocError::from(refused))
    }
}

impl From<io::Error> for Fault {
    fn from(_error: io::Error) -> Fault {
        Fault::Device
    }
}
