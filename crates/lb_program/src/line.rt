//! A line as it is read.

ghost use Rattle.std.specs.Prelude.{◌≡◌, ◌≢◌, ◌+◌, ◌-◌, ◌<◌, ◌≤◌, ◌++◌, [], Some, true, false, length, take, List, ℕ, IfErr, IfOk, IfSome, OnErr, OnOk, IsTrue, ◌↔◌, slice_index, vec_len};
ghost use Rattle.std.specs.Io.Buffered.{reader_buffer, reader_inner, reader_remaining};
ghost use Rattle.std.specs.Str.{is_utf8};
ghost use Rattle.std.specs.Str.Lines.{strip_carriage_return};
ghost use Rattle.lb_program.specs.Shown.{IsOfReading, TakesFrom};
ghost use Rattle.lb_program.specs.Line.{IsFresh, Sheds, kind_with, kind_of as kind_of_bytes};

use crate::faults::Stop;
use crate::shown::{Shown, take_shown};
use lb_command::MAX_LINE;
use std::alloc::Global;
use std::io::{BufReader, ErrorKind, Read};
use std::str::from_utf8;

/// What the bytes of a line make it.
#[derive(Clone, Copy, Debug, PartialEq, Eq)]
pub(crate) enum LineKind {
    /// Nothing but spaces.
    Blank,
    /// The first word begins with `#`.
    Comment,
    /// Any other line.
    Told,
}

impl LineKind {
    /// What more bytes make of the line.
    pub(crate) fn with(self, bytes: &[u8]) -> LineKind
        ensures { result ≡ kind_with self bytes.now }
    {
        match self {
            LineKind::Blank => kind_of(bytes),
            LineKind::Comment | LineKind::Told => self,
        }
    }
}

/// What the bytes of a line make it.
pub(crate) fn kind_of(bytes: &[u8]) -> LineKind
    ensures { result ≡ kind_of_bytes bytes.now }
{
    for byte in bytes {
        match byte {
            b' ' => {}
            b'#' => return LineKind::Comment,
            _ => return LineKind::Told,
        }
    }
    LineKind::Blank
}

/// Text that is not UTF-8.
#[derive(Clone, Copy, Debug, PartialEq, Eq)]
pub(crate) struct NotUtf8;

/// A line as it is read. Of a line that is too long only its kind and its last bytes are held.
#[derive(Debug, Drop)]
pub(crate) struct Line {
    bytes: Vec<u8>,
    /// What the bytes that are no longer held made of the line.
    kind: LineKind,
    is_long: bool,
}

impl Line {
    /// No bytes.
    pub(crate) fn new(alloc: Global) -> Line
        ensures { IsFresh result }
    {
        Line {
            bytes: Vec::new(alloc),
            kind: LineKind::Blank,
            is_long: false,
        }
    }

    /// Makes ready for the next line.
    pub(crate) fn clear(&mut self)
        ensures { IsFresh self.new }
    {
        self.bytes.clear();
        self.kind = LineKind::Blank;
        self.is_long = false;
    }

    /// Whether no byte of the line was read.
    pub(crate) fn is_empty(&self) -> bool
        ensures { IsTrue result ↔ ((self.now.bytes.items ≡ []) × (self.now.is_long ≡ false)) }
    {
        self.bytes.is_empty() && !self.is_long
    }

    /// Takes what the input shows of the line. An interruption shows nothing.
    pub(crate) fn read<R: Read>(&mut self, input: &mut BufReader<R>) -> Result<Shown, Stop>
        ensures shown { TakesFrom (reader_remaining R.remaining input.old) self.old.bytes.items result self.new.bytes.items (reader_remaining R.remaining input.new) }
        ensures kind { (self.new.kind ≡ self.old.kind) × (self.new.is_long ≡ self.old.is_long) }
        ensures unread { reader_buffer input.old ≢ [] → reader_inner input.new ≡ reader_inner input.old }
        ensures cause { IfErr result (IsOfReading (reader_buffer input.old)) }
    {
        match take_shown(input, &mut self.bytes) {
            Err(Stop::Input(error)) if error.kind() == ErrorKind::Interrupted => Ok(Shown::Piece),
            shown => shown,
        }
    }

    /// Lets go of the bytes of a line that is too long, all but a carriage return or the beginning of a character at
    /// their end.
    pub(crate) fn shed(&mut self) -> Result<(), NotUtf8>
        ensures sheds { OnOk result (Sheds self.old self.new) }
        ensures few { OnOk result (vec_len self.new.bytes ≤ 300001) }
        ensures never { OnErr result ((more : List ℕ) → is_utf8 (self.old.bytes.items ++ more) ≡ false) }
    {
        if self.bytes.len() <= MAX_LINE + 1 {
            return Ok(());
        }
        let keep = tail_len(self.bytes.as_slice())?;
        let front = self.bytes.len() - keep;
        let (gone, _) = self.bytes.as_slice().split_at(front);
        self.kind = self.kind.with(gone);
        self.is_long = true;
        self.bytes.drain(..front);
        Ok(())
    }

    /// Drops the carriage return before a line feed.
    pub(crate) fn drop_return(&mut self)
        ensures bytes { self.new.bytes.items ≡ strip_carriage_return self.old.bytes.items }
        ensures kind { (self.new.kind ≡ self.old.kind) × (self.new.is_long ≡ self.old.is_long) }
    {
        if self.bytes.last() == Some(&b'\r') {
            let _ = self.bytes.pop();
        }
    }

    /// The bytes of the line that are held, as a text.
    pub(crate) fn text(&self) -> Result<&str, NotUtf8>
        ensures text { IfOk result (λ text. (text.now ≡ self.now.bytes.items) × (is_utf8 self.now.bytes.items ≡ true)) }
        ensures none { OnErr result (is_utf8 self.now.bytes.items ≡ false) }
    {
        match from_utf8(self.bytes.as_slice()) {
            Ok(text) => Ok(text),
            Err(_) => Err(NotUtf8),
        }
    }

    /// What the line is whose bytes that are held are these.
    pub(crate) fn kind(&self, text: &str) -> LineKind
        ensures { result ≡ kind_with self.now.kind text.now }
    {
        self.kind.with(text.as_bytes())
    }

    /// Whether bytes of the line are no longer held, since it is too long.
    pub(crate) fn is_long(&self) -> bool
        ensures { result ≡ self.now.is_long }
    {
        self.is_long
    }
}

/// How many bytes at the end of a piece of a line have to wait for what comes: a carriage return, or what may begin a
/// character, which has four bytes at most. All before them is text; a piece that no bytes can make one is no text.
fn tail_len(bytes: &[u8]) -> Result<usize, NotUtf8>
    ensures within { IfOk result (λ len. len ≤ length bytes.now) }
    ensures few { IfOk result (λ len. len < 4) }
    ensures held { IfOk result (λ len. len ≡ 0 → slice_index bytes.now (length bytes.now - 1) ≡ 13 → ⊥) }
    ensures text { IfOk result (λ len. is_utf8 (take (length bytes.now - len) bytes.now) ≡ true) }
    ensures never { OnErr result ((more : List ℕ) → is_utf8 (bytes.now ++ more) ≡ false) }
{
    match from_utf8(bytes) {
        Ok(_) if bytes.last() == Some(&b'\r') => Ok(1),
        Ok(_) => Ok(0),
        Err(error) => {
            let len = bytes.len() - error.valid_up_to();
            if len < 4 { Ok(len) } else { Err(NotUtf8) }
        }
    }
}
