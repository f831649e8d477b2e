//! What is wrong with a line.

ghost use Rattle.std.specs.Prelude.{◌≡◌, ◌≤◌, length};
ghost use Rattle.lb_command.specs.Fault.{fault_name, fault_number};
ghost use Rattle.lb_command.specs.Reading.{max_line};
ghost use Rattle.lb_command.specs.declared.fault.FaultKind.TheVariants.{Extra};

use std::alloc::{AllocError, AllocFailed};
use thiserror::Error;

/// The most bytes of a line.
pub const MAX_LINE: usize = 300_000;

/// Why a line does not read. `number` and `name` are what texts give it.
#[derive(Clone, Copy, Debug, PartialEq, Eq, Error)]
pub enum FaultKind {
    /// A word, a sign or a byte that cannot stand there.
    #[error("a word or a sign is not what is due")]
    UnknownWord,
    /// The line ends too early.
    #[error("the line ends too early")]
    Missing,
    /// A word or a sign after a whole line, or a line of over 300,000 bytes.
    #[error("the line goes on past its end")]
    Extra,
    /// A number is due, and the word is none, or it is out of range.
    #[error("a number is due")]
    BadNumber,
    /// A name is due, and the word is none.
    #[error("a name is due")]
    BadName,
    /// An address or a mask is due, and the word is none.
    #[error("an address or a mask is due")]
    BadAddress,
    /// Hexadecimal digits are due, and the word is none, is odd, or has over 65,535 octets.
    #[error("hexadecimal digits are due")]
    BadHex,
    /// A term of depth 17, a 65th term in it, a 1,025th name or mask of a set, a ninth address of an answer, a ninth pool
    /// of a server, or a 17th code of a cache's list.
    #[error("a limit is passed")]
    BadTerm,
    /// Memory is lacking.
    #[error("no memory")]
    NoMemory,
}

impl FaultKind {
    /// The number of the fault, 1 to 9.
    pub fn number(self) -> u8
        ensures { result ≡ fault_number self }
    {
        match self {
            FaultKind::UnknownWord => 1,
            FaultKind::Missing => 2,
            FaultKind::Extra => 3,
            FaultKind::BadNumber => 4,
            FaultKind::BadName => 5,
            FaultKind::BadAddress => 6,
            FaultKind::BadHex => 7,
            FaultKind::BadTerm => 8,
            FaultKind::NoMemory => 9,
        }
    }

    /// The name of the fault, of at most 11 bytes.
    pub fn name(self) -> &'static str
        ensures name { result.now ≡ fault_name self }
        ensures short { length result.now ≤ 11 }
    {
        match self {
            FaultKind::UnknownWord => "UnknownWord",
            FaultKind::Missing => "Missing",
            FaultKind::Extra => "Extra",
            FaultKind::BadNumber => "BadNumber",
            FaultKind::BadName => "BadName",
            FaultKind::BadAddress => "BadAddress",
            FaultKind::BadHex => "BadHex",
            FaultKind::BadTerm => "BadTerm",
            FaultKind::NoMemory => "NoMemory",
        }
    }
}

impl From<AllocError> for FaultKind {
    ghost use Rattle.std.specs.Prelude.{◌≡◌};
    ghost use Rattle.lb_command.specs.declared.fault.FaultKind.TheVariants as kinds;

    ghost from_gives = { λ _ kind. kind ≡ kinds.NoMemory };

    fn from(_refused: AllocError) -> FaultKind {
        FaultKind::NoMemory
    }
}

/// The first fault of a line, from the left.
#[derive(Clone, Copy, Debug, PartialEq, Eq)]
pub struct CommandFault {
    /// The offset in bytes, from 0, of the word or sign at fault: the line's length where something is missing, and 300,000
    /// where the line is too long.
    pub place: usize,
    pub kind: FaultKind,
}

impl CommandFault {
    /// That of a line of over 300,000 bytes.
    pub fn too_long() -> CommandFault
        ensures { result ≡ record { place = max_line; kind = Extra } }
    {
        CommandFault {
            place: MAX_LINE,
            kind: FaultKind::Extra,
        }
    }
}

/// Why a part of a line gives no value.
#[derive(Clone, Copy, Debug)]
pub(crate) enum Unread {
    Fault(CommandFault),
    /// What was refused, for the fault of the line that is made of it.
    NoMemory(AllocError),
}

impl From<AllocError> for Unread {
    ghost use Rattle.std.specs.Prelude.{◌≡◌};
    ghost use Rattle.lb_command.specs.declared.fault.Unread.TheVariants as unread;

    ghost from_gives = { λ refused e. e ≡ unread.NoMemory refused };

    fn from(refused: AllocError) -> Unread {
        Unread::NoMemory(refused)
    }
}

impl<T: Drop> From<AllocFailed<T>> for Unread {
    ghost use Rattle.std.specs.Prelude.{◌≡◌, alloc_error};
    ghost use Rattle.lb_command.specs.declared.fault.Unread.TheVariants as unread;

    ghost from_gives = { λ _ e. e ≡ unread.NoMemory alloc_error };

    fn from(refused: AllocFailed<T>) -> Unread {
        Unread::NoMemory(AllocError::from(refused))
    }
}
