//! Readers and writers in memory that fail, wait, or take less than they are given.

use std::alloc::Global;
use std::cell::Cell;
use std::io;
use std::io::{ErrorKind, Read, Write};

/// Gives one byte a read, and fails once where it is cut.
#[derive(Drop)]
pub(crate) struct Dribble<'a> {
    pub(crate) rest: &'a [u8],
    /// How many bytes are given before the failure.
    pub(crate) cut: Option<usize>,
    pub(crate) kind: ErrorKind,
}

impl Read for Dribble<'_> {
    fn read(&mut self, buf: &mut [u8]) -> io::Result<usize> {
        match self.cut {
            Some(0) => {
                self.cut = None;
                return Err(io::Error::from(self.kind));
            }
            Some(left) => self.cut = Some(left - 1),
            None => {}
        }
        match (self.rest.split_first(), buf.first_mut()) {
            (Some((byte, rest)), Some(place)) => {
                *place = *byte;
                self.rest = rest;
                Ok(1)
            }
            _ => Ok(0),
        }
    }
}

/// Fails at each write.
#[derive(Drop)]
pub(crate) struct Closing {
    pub(crate) kind: ErrorKind,
}

impl Write for Closing {
    fn write(&mut self, _buf: &[u8]) -> io::Result<usize> {
        Err(io::Error::from(self.kind))
    }

    fn flush(&mut self) -> io::Result<()> {
        Ok(())
    }
}

/// Gives a line a read, and fails if the answers to the lines before are not flushed.
#[derive(Drop)]
pub(crate) struct Asking<'a> {
    pub(crate) lines: &'a [&'a str],
    pub(crate) asked: usize,
    pub(crate) flushes: &'a Cell<usize>,
}

impl Read for Asking<'_> {
    fn read(&mut self, buf: &mut [u8]) -> io::Result<usize> {
        if self.flushes.get() != self.asked {
            return Err(io::Error::from(ErrorKind::TimedOut));
        }
        let Some(line) = self.lines.get(self.asked) else {
            return Ok(0);
        };
        self.asked += 1;
        let mut line = line.as_bytes();
        line.read(buf)
    }
}

/// Counts the flushes of what was written.
#[derive(Drop)]
pub(crate) struct Flushing<'a> {
    pub(crate) is_pending: bool,
    pub(crate) flushes: &'a Cell<usize>,
}

impl Write for Flushing<'_> {
    fn write(&mut self, buf: &[u8]) -> io::Result<usize> {
        self.is_pending = true;
        Ok(buf.len())
    }

    fn flush(&mut self) -> io::Result<()> {
        if self.is_pending {
            self.is_pending = false;
            self.flushes.set(self.flushes.get().saturating_add(1));
        }
        Ok(())
    }
}

/// Takes 25 bytes, fails once, and takes the others seven at a time.
#[derive(Drop)]
pub(crate) struct Stuttering {
    pub(crate) written: Vec<u8>,
    pub(crate) has_failed: bool,
}

impl Write for Stuttering {
    fn write(&mut self, buf: &[u8]) -> io::Result<usize> {
        let most = match (self.written.len(), self.has_failed) {
            (25.., false) => {
                self.has_failed = true;
                return Err(io::Error::from(ErrorKind::WouldBlock));
            }
            (len, false) => 25 - len,
            (_, true) => 7,
        };
        let (taken, _) = buf.split_at(buf.len().min(most));
        self.written.extend_from_slice(taken)?;
        Ok(taken.len())
    }

    fn flush(&mut self) -> io::Result<()> {
        Ok(())
    }
}

/// Shows what was written only once it is flushed.
#[derive(Drop)]
pub(crate) struct Hiding {
    pub(crate) hidden: Vec<u8>,
    pub(crate) shown: Vec<u8>,
}

impl Hiding {
    pub(crate) fn new(alloc: Global) -> Hiding {
        Hiding {
            hidden: Vec::new(alloc),
            shown: Vec::new(alloc),
        }
    }
}

impl Write for Hiding {
    fn write(&mut self, buf: &[u8]) -> io::Result<usize> {
        self.hidden.extend_from_slice(buf)?;
        Ok(buf.len())
    }

    fn flush(&mut self) -> io::Result<()> {
        self.shown.extend_from_slice(self.hidden.as_slice())?;
        self.hidden.clear();
        Ok(())
    }
}
