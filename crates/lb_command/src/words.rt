//! The words and signs of a line, taken from the left.

ghost use Rattle.std.specs.Prelude.{◌≡◌, ◌≤◌, IfOk, length};
ghost use Rattle.lb_masks.specs.Number.{number_up_to};
ghost use Rattle.lb_command.specs.declared.fault.FaultKind.TheVariants.{BadNumber, BadTerm, NoMemory, UnknownWord};
ghost use Rattle.lb_command.specs.declared.fault.Unread.TheVariants.{Fault};
ghost use Rattle.lb_command.specs.Line.{behind_first, begins_word, first_in, first_len, first_of, is_sign, is_word_byte, run_of, seen, spaces_of, tail_of, whole, words_of};
ghost use Rattle.lb_command.specs.Reading.{Gives, Reads, due, ended, extra_at, fault_at, named, taken};

use crate::fault::{CommandFault, FaultKind, Unread};
use lb_masks::decimal_up_to;
use std::alloc::AllocError;
use std::marker::Model;

/// Whether a byte is a sign.
fn is_sign(byte: u8) -> bool
    ensures { result ≡ is_sign byte }
{
    byte == b'(' || byte == b')' || byte == b','
}

/// Whether a byte can stand in a word.
pub(crate) fn is_word_byte(byte: u8) -> bool
    ensures { result ≡ is_word_byte byte }
{
    byte >= 0x21 && byte <= 0x7e && !is_sign(byte)
}

/// How many spaces come first.
pub fn spaces(bytes: &[u8]) -> usize
    ensures within { result ≤ length bytes.now }
    ensures spaces { result ≡ spaces_of bytes.now }
{
    for place in 0..bytes.len() {
        if bytes[place] != b' ' {
            return place;
        }
    }
    bytes.len()
}

/// How many bytes of a word come first.
fn run_len(bytes: &[u8]) -> usize
    ensures within { result ≤ length bytes.now }
    ensures run { result ≡ run_of bytes.now }
{
    for place in 0..bytes.len() {
        if !is_word_byte(bytes[place]) {
            return place;
        }
    }
    bytes.len()
}

/// How many bytes the word or sign that comes first has.
fn first_len(bytes: &[u8]) -> usize
    ensures within { result ≤ length bytes.now }
    ensures len { result ≡ first_len bytes.now }
{
    match bytes {
        [] => 0,
        [byte, ..] if is_word_byte(*byte) => run_len(bytes),
        _ => 1,
    }
}

/// What comes first after the leading spaces, where that begins, and what stands after it.
fn split_first(total: usize, bytes: &[u8]) -> (&[u8], usize, &[u8])
    requires { length bytes.now ≤ total }
    ensures token { seen result.0.now result.1 ≡ first_in (words_of total bytes.now) total }
    ensures left { words_of total result.2.now ≡ tail_of (words_of total bytes.now) }
    ensures fewer { length result.2.now ≤ length bytes.now }
{
    let (_, there) = bytes.split_at(spaces(bytes));
    let (text, left) = there.split_at(first_len(there));
    (text, total - there.len(), left)
}

/// A word or a sign of a line, or the end of the line, whose text is empty.
#[derive(Clone, Copy, Debug)]
pub(crate) struct Token<'a> {
    pub(crate) text: &'a [u8],
    place: usize,
}

impl Token<'_> {
    /// That the text is not what is due.
    pub(crate) fn fault(&self, kind: FaultKind) -> Unread
        ensures { result ≡ Fault (fault_at kind (seen self.now.text.now self.now.place)) }
    {
        let kind = match self.text {
            [] => FaultKind::Missing,
            [byte, ..] => {
                if is_word_byte(*byte) {
                    kind
                } else {
                    FaultKind::UnknownWord
                }
            }
        };
        self.is(kind)
    }

    /// That a limit is passed by what begins here.
    pub(crate) fn is_too_many(&self) -> Unread
        ensures { result ≡ Fault (record { place = self.now.place; kind = BadTerm }) }
    {
        self.is(FaultKind::BadTerm)
    }

    /// That it stands after a whole line.
    fn extra(&self) -> Unread
        ensures { result ≡ Fault (record { place = self.now.place; kind = extra_at self.now.text.now }) }
    {
        let kind = match self.text {
            [byte, ..] if !is_word_byte(*byte) && !is_sign(*byte) => FaultKind::UnknownWord,
            _ => FaultKind::Extra,
        };
        self.is(kind)
    }

    /// The fault of a kind at its place.
    fn is(&self, kind: FaultKind) -> Unread
        ensures { result ≡ Fault (record { place = self.now.place; kind = kind }) }
    {
        Unread::Fault(CommandFault {
            place: self.place,
            kind,
        })
    }

    /// Whether it is a word.
    pub(crate) fn is_word(&self) -> bool
        ensures { result ≡ begins_word self.now.text.now }
    {
        match self.text {
            [] => false,
            [byte, ..] => is_word_byte(*byte),
        }
    }
}

/// The words and signs of a line that are not yet taken, and its end. A contract sees them with their places.
#[derive(Debug, Drop)]
pub(crate) struct Words<'a> {
    line: &'a [u8],
    left: &'a [u8],
    /// Where what was taken last begins.
    hand: usize,
}

impl<'a> Model for Words<'a> {
    ghost use Rattle.std.specs.Prelude.{◌≤◌, length};
    ghost use Rattle.lb_command.specs.Line.{Left, left_of};

    ghost Value = { Left };

    ghost view = { λ w. left_of (length w.line.now) w.left.now };

    ghost invariant = { λ w. length w.left.now ≤ length w.line.now };
}

impl<'a> Words<'a> {
    /// All words and signs of a line.
    pub(crate) fn new(line: &'a [u8]) -> Words<'a>
        ensures { result ≡ whole line.now }
    {
        Words {
            line,
            left: line,
            hand: 0,
        }
    }

    /// Takes the word or sign that comes next.
    pub(crate) fn next(&mut self) -> Token<'a>
        ensures token { seen result.text.now result.place ≡ first_of self.old }
        ensures left { self.new ≡ behind_first self.old }
    {
        let (text, place, left) = split_first(self.line.len(), self.left);
        self.left = left;
        self.hand = place;
        Token { text, place }
    }

    /// The word or sign that comes next.
    pub(crate) fn peek(&self) -> Token<'a>
        ensures { seen result.text.now result.place ≡ first_of self.now }
    {
        let (text, place, _) = split_first(self.line.len(), self.left);
        Token { text, place }
    }

    /// That memory was refused at the word that was taken last.
    pub(crate) fn no_memory(&self, refused: AllocError) -> CommandFault
        ensures { result.kind ≡ NoMemory }
    {
        CommandFault {
            place: self.hand,
            kind: FaultKind::from(refused),
        }
    }

    /// Takes this word or sign where it comes next.
    pub(crate) fn takes(&mut self, word: &[u8]) -> bool
        ensures { (result, self.new) ≡ taken word.now self.old }
    {
        let (text, place, left) = split_first(self.line.len(), self.left);
        if text == word {
            self.left = left;
            self.hand = place;
            return true;
        }
        false
    }

    /// Takes this word or sign, which is due.
    pub(crate) fn word(&mut self, word: &[u8]) -> Result<(), Unread>
        ensures { Reads (λ _. tt) result self.new (due UnknownWord (named word.now) self.old) }
    {
        let token = self.next();
        if token.text != word {
            return Err(token.fault(FaultKind::UnknownWord));
        }
        Ok(())
    }

    /// Takes a number that is at most this.
    pub(crate) fn number(&mut self, most: u64) -> Result<u64, Unread>
        ensures read { Reads (λ n. n) result self.new (due BadNumber (number_up_to 10 most) self.old) }
        ensures fits { IfOk result (λ n. n ≤ most) }
    {
        let token = self.next();
        match decimal_up_to(token.text, most) {
            Some(number) => Ok(number),
            None => Err(token.fault(FaultKind::BadNumber)),
        }
    }

    /// Sees that nothing comes.
    pub(crate) fn end(&mut self) -> Result<(), Unread>
        ensures { Gives result (ended self.old) }
    {
        let token = self.next();
        if token.text != b"".as_slice() {
            return Err(token.extra());
        }
        Ok(())
    }
}
