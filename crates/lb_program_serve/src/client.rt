//! A client of the console: lines in, lines out.

use crate::fault::Fault;
use crate::hears::Hears;
use crate::opening::Opening;
use crate::operator::{Operator, Said};
use crate::typed::{Typed, Whole};
use lb_loops::Outside;
use mio::net::TcpStream;
use std::alloc::{AllocError, Global};
use std::io;
use std::io::{ErrorKind, Read, Write};
use std::sync::Wait;
use std::time::Clock;

/// The bytes that are read at once.
const CHUNK: usize = 4_096;

/// What the answer to a line begins with that does not read.
const FAULT: &str = "fault ";

/// What the answer to `show` begins with.
const SHOWN: &str = "edited rules ";

/// How many bytes of a command a sentence has.
const LINE_SHOWN: usize = 300;

/// What came of a step with a client.
#[derive(Debug, Drop)]
pub(crate) enum Progress {
    /// There may be more to do.
    Went,
    /// A whole line was answered, and there may be more to do.
    Answered,
    /// A whole line does not read, and there may be more to do.
    Faulted,
    /// There is nothing to be read, or nothing of the answer is taken, for now.
    Blocked,
    /// It has ended, or is to be closed.
    Ended,
    /// It said stop.
    Stop,
}

/// A client: what it typed of a line, what was read beyond it, and what it is to be answered. A
/// line is taken only once all before it were answered and written.
#[derive(Drop)]
pub(crate) struct Client {
    alloc: Global,
    stream: TcpStream,
    chunk: Vec<u8>,
    /// The bytes of the chunk that are not looked at yet.
    from: usize,
    to: usize,
    typed: Typed,
    /// How its first line begins, until that has ended.
    opening: Option<Opening>,
    answer: Vec<u8>,
    /// How many bytes of the answer are written.
    written: usize,
    /// Whether it is closed once the answer is written.
    is_last: bool,
    /// The last command that was carried out or refused, and its answer.
    edit: Option<String>,
}

impl Client {
    /// One that has said nothing. The one error is lack of memory.
    pub(crate) fn new(alloc: Global, stream: TcpStream) -> Result<Client, AllocError> {
        Ok(Client {
            alloc,
            stream,
            chunk: Vec::from_elem(alloc, 0u8, CHUNK)?,
            from: 0,
            to: 0,
            typed: Typed::new(alloc),
            opening: Some(Opening::new()),
            answer: Vec::new(alloc),
            written: 0,
            is_last: false,
            edit: None,
        })
    }

    /// The last command that was carried out or refused, and its answer, once.
    pub(crate) fn take_edit(&mut self) -> Option<String> {
        self.edit.take()
    }

    /// The stream, for a last word.
    pub(crate) fn into_stream(self) -> TcpStream {
        let Client { stream, .. } = self;
        stream
    }

    /// The next thing that can be done: to write, to answer a line, or to read.
    pub(crate) fn step<R: Wait + Clock, T: Hears, O: Outside>(
        &mut self,
        rt: &R,
        operator: &mut Operator<T, O>,
    ) -> Result<Progress, Fault> {
        if self.written < self.answer.len() {
            return Ok(self.write());
        }
        if self.is_last {
            return Ok(Progress::Ended);
        }
        if self.from < self.to {
            return self.look(rt, operator);
        }
        Ok(self.read())
    }

    /// Writes what is to be written.
    fn write(&mut self) -> Progress {
        let Some(rest) = self.answer.get(self.written..) else {
            return Progress::Ended;
        };
        match self.stream.write(rest) {
            Ok(len) => {
                self.written = self.written.saturating_add(len);
                Progress::Went
            }
            Err(error) => progress_of(&error),
        }
    }

    /// Reads bytes.
    fn read(&mut self) -> Progress {
        match self.stream.read(self.chunk.as_mut_slice()) {
            Ok(0) => Progress::Ended,
            Ok(len) => {
                self.from = 0;
                self.to = len;
                Progress::Went
            }
            Err(error) => progress_of(&error),
        }
    }

    /// Looks at what was read, up to the end of a line. If memory is refused for it, the client
    /// is to be closed.
    fn look<R: Wait + Clock, T: Hears, O: Outside>(
        &mut self,
        rt: &R,
        operator: &mut Operator<T, O>,
    ) -> Result<Progress, Fault> {
        let rest = self.chunk.get(self.from..self.to).unwrap_or_default();
        let end = rest.iter().position(|byte| *byte == b'\n');
        let (piece, _) = rest.split_at(end.unwrap_or(rest.len()));
        if let Some(opening) = &mut self.opening {
            opening.take(piece);
        }
        if self.typed.take(piece).is_err() {
            return Ok(Progress::Ended);
        }
        match end {
            Some(len) => {
                self.from = self.from.saturating_add(len).saturating_add(1);
                self.end_line(rt, operator)
            }
            None => {
                self.from = self.to;
                Ok(Progress::Went)
            }
        }
    }

    /// Answers the line that has ended. After a first one that is a request of HTTP the client is
    /// closed, and no further line of it is carried out.
    fn end_line<R: Wait + Clock, T: Hears, O: Outside>(
        &mut self,
        rt: &R,
        operator: &mut Operator<T, O>,
    ) -> Result<Progress, Fault> {
        if let Some(opening) = self.opening.take() {
            self.is_last = opening.is_request();
        }
        let said = match self.typed.whole() {
            Whole::Text(text) => {
                let said = operator.answer(rt, text);
                match edit_of(self.alloc, text, &said) {
                    Ok(edit) => self.edit = edit,
                    Err(refused) => self.edit = unsaid(refused),
                }
                said
            }
            Whole::TooLong => operator.too_long(),
            Whole::NotText => return Ok(Progress::Ended),
        };
        self.typed.clear();
        match said {
            Ok(Said::Line(text) | Said::Lines(text)) => Ok(self.say(text)),
            Ok(Said::Quit) => Ok(Progress::Ended),
            Ok(Said::Stop) => Ok(Progress::Stop),
            Err(Fault::NoMemory) => Ok(Progress::Ended),
            Err(fault) => Err(fault),
        }
    }

    /// Has a line, or several, written in one piece with the last line feed. If memory is refused
    /// for that, the client is to be closed.
    fn say(&mut self, line: String) -> Progress {
        let is_fault = line.starts_with(FAULT);
        let mut bytes = line.into_bytes();
        if bytes.push(b'\n').is_err() {
            return Progress::Ended;
        }
        self.answer = bytes;
        self.written = 0;
        if is_fault {
            Progress::Faulted
        } else {
            Progress::Answered
        }
    }
}

/// The command in a line that was carried out or refused, and its answer. The one error is lack of
/// memory.
fn edit_of(
    alloc: Global,
    line: &str,
    said: &Result<Said, Fault>,
) -> Result<Option<String>, AllocError> {
    let Ok(Said::Line(answer)) = said else {
        return Ok(None);
    };
    if answer.starts_with(FAULT) || answer.starts_with(SHOWN) {
        return Ok(None);
    }
    let shown = line.get(..LINE_SHOWN.min(line.len())).unwrap_or("..");
    Ok(Some(format!(in alloc; "console: {shown}: {answer}")?))
}

/// No sentence, as memory for it was refused.
fn unsaid(_refused: AllocError) -> Option<String> {
    None
}

/// What an error of the stream means: there is nothing for now, or the client has ended.
fn progress_of(error: &io::Error) -> Progress {
    match error.kind() {
        ErrorKind::WouldBlock => Progress::Blocked,
        ErrorKind::Interrupted => Progress::Went,
        _ => Progress::Ended,
    }
}
