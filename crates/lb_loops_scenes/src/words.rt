//! The words of a line.

use crate::fault::Fault;
use lb_loops::Endpoint;
use lb_masks::parse_addr;
use lb_wire::Addr;
use std::str::SplitWhitespace;

/// The words of a line that are not taken yet.
#[derive(Drop)]
pub(crate) struct Words<'a> {
    number: usize,
    line: &'a str,
    rest: SplitWhitespace<'a>,
}

impl<'a> Words<'a> {
    /// The words of the line with this number, from 1.
    pub(crate) fn new(number: usize, line: &'a str) -> Words<'a> {
        Words {
            number,
            line,
            rest: line.split_whitespace(),
        }
    }

    /// The whole line.
    pub(crate) fn line(&self) -> &'a str {
        self.line
    }

    /// The next word, where there is one.
    pub(crate) fn more(&mut self) -> Option<&'a str> {
        self.rest.next()
    }

    /// The next word.
    pub(crate) fn word(&mut self) -> Result<&'a str, Fault> {
        match self.more() {
            Some(word) => Ok(word),
            None => Err(Fault::Missing(self.number)),
        }
    }

    /// The next word, a number.
    pub(crate) fn number(&mut self) -> Result<u64, Fault> {
        let word = self.word()?;
        match word.parse::<u64>() {
            Ok(number) => Ok(number),
            Err(_) => Err(self.bad()),
        }
    }

    /// The next word, a number up to 255.
    pub(crate) fn place(&mut self) -> Result<u8, Fault> {
        let word = self.word()?;
        match word.parse::<u8>() {
            Ok(number) => Ok(number),
            Err(_) => Err(self.bad()),
        }
    }

    /// The next word, a number up to 65,535.
    pub(crate) fn port(&mut self) -> Result<u16, Fault> {
        let word = self.word()?;
        match word.parse::<u16>() {
            Ok(number) => Ok(number),
            Err(_) => Err(self.bad()),
        }
    }

    /// The next word, an address.
    pub(crate) fn addr(&mut self) -> Result<Addr, Fault> {
        let word = self.word()?;
        match parse_addr(word) {
            Some(addr) => Ok(addr),
            None => Err(self.bad()),
        }
    }

    /// The next two words, an address and a port.
    pub(crate) fn end(&mut self) -> Result<Endpoint, Fault> {
        let addr = self.addr()?;
        let port = self.port()?;
        Ok(Endpoint { addr, port })
    }

    /// A word could not stand there.
    pub(crate) fn bad(&self) -> Fault {
        Fault::BadWord(self.number)
    }

    /// There is no such line.
    pub(crate) fn unknown(&self) -> Fault {
        Fault::NoSuchLine(self.number)
    }

    /// There is no room for more.
    pub(crate) fn full(&self) -> Fault {
        Fault::Full(self.number)
    }
}
