//! A line as a console's client types it.

ghost use Rattle.std.specs.Prelude.{OnErr, OnOk, vec_len, ◌+◌, ◌≡◌, ◌≤◌};
ghost use Rattle.lb_program_serve.specs.Typed.{longest_held};

use lb_command::MAX_LINE;
use std::alloc::{AllocError, Global};
use std::str::from_utf8;

/// The most bytes of a line that are held: those of the longest line, and a carriage return after
/// it.
const MAX_HELD: usize = MAX_LINE + 1;

/// What a whole line is.
#[derive(Clone, Copy, Debug)]
pub(crate) enum Whole<'a> {
    Text(&'a str),
    /// It has over 300,000 bytes.
    TooLong,
    /// It is not UTF-8.
    NotText,
}

/// A line as it comes, in pieces. Of one that is too long nothing is held.
#[derive(Debug, Drop)]
pub(crate) struct Typed {
    alloc: Global,
    bytes: Vec<u8>,
    is_long: bool,
    ghost few: { vec_len bytes ≤ longest_held },
}

impl Typed {
    /// Nothing came yet. It takes no memory.
    pub(crate) fn new(alloc: Global) -> Typed {
        Typed {
            alloc,
            bytes: Vec::new(alloc),
            is_long: false,
        }
    }

    /// A piece of the line comes, without its line feed. Refused for lack of memory, nothing has
    /// changed.
    pub(crate) fn take(&mut self, piece: &[u8]) -> Result<(), AllocError>
        ensures { OnErr result ((self.new.bytes.items ≡ self.old.bytes.items) × (self.new.is_long ≡ self.old.is_long)) }
    {
        if self.is_long {
            return Ok(());
        }
        if piece.len() > MAX_HELD - self.bytes.len() {
            self.bytes = Vec::new(self.alloc);
            self.is_long = true;
            return Ok(());
        }
        self.bytes.extend_from_slice(piece)
    }

    /// The whole line, without the carriage return before its line feed.
    pub(crate) fn whole(&self) -> Whole<'_> {
        if self.is_long {
            return Whole::TooLong;
        }
        let bytes = self.bytes.as_slice();
        match from_utf8(bytes.strip_suffix(b"\r").unwrap_or(bytes)) {
            Ok(text) if text.len() > MAX_LINE => Whole::TooLong,
            Ok(text) => Whole::Text(text),
            Err(_) => Whole::NotText,
        }
    }

    /// Makes ready for the next line.
    pub(crate) fn clear(&mut self) {
        self.bytes.clear();
        self.is_long = false;
    }
}
