//! The file that `LB_LOG` names: what the log holds, as a replay.

use crate::fault::Fault;
use crate::notices::say_last;
use crate::switches::{Switch, Switches};
use lb_command::{answer_line, begins_listen};
use lb_desk::LogEntry;
use lb_typed::event_line;
use lb_words::has_lacked;
use std::alloc::{AllocError, Global};
use std::fs::{Files, OpenOptions};
use std::io;
use std::io::{ErrorKind, Write};
use std::os::unix::fs::OpenOptionsExt;

/// The rights to the file: the owner alone reads and writes it.
const MODE: u32 = 0o600;

/// How many files of earlier runs may stand beside it.
const EARLIER: u32 = 99;

/// So many bytes, and a line more, are written at a time.
const PIECE: usize = 65_536;

/// The file, to which the calls of the log are to be written.
#[derive(Drop)]
pub(crate) struct LogFile<L> {
    file: L,
    has_answers: bool,
}

/// Makes the file, if one is asked for, with the commands of a setup file's text in it.
pub(crate) fn made<R: Files>(
    rt: &R,
    alloc: Global,
    text: &str,
    switches: &Switches,
) -> Result<Option<LogFile<R::File>>, Fault> {
    let Some(name) = &switches.log else {
        return Ok(None);
    };
    let commands = commands_of(alloc, text)?;
    match begun(rt, alloc, name.as_str(), commands.as_bytes()) {
        Ok(file) => Ok(Some(LogFile {
            file,
            has_answers: switches.has_answers,
        })),
        Err(error) => match error.kind() {
            ErrorKind::OutOfMemory => Err(Fault::System(error)),
            kind => Err(Fault::Switch(Switch::Log(kind))),
        },
    }
}

/// A new file, which begins so.
fn begun<R: Files>(rt: &R, alloc: Global, name: &str, begin: &[u8]) -> io::Result<R::File> {
    let mut file = opened(rt, alloc, name)?;
    file.write_all(begin)?;
    Ok(file)
}

/// A new file with this name; if there is one, with the first of NAME.1 to NAME.99 that there is
/// not.
fn opened<R: Files>(rt: &R, alloc: Global, name: &str) -> io::Result<R::File> {
    let mut last = match create(rt, name) {
        Err(error) if error.kind() == ErrorKind::AlreadyExists => error,
        created => return created,
    };
    for number in 1..=EARLIER {
        let other = format!(in alloc; "{name}.{number}")?;
        match create(rt, other.as_str()) {
            Err(error) if error.kind() == ErrorKind::AlreadyExists => last = error,
            created => return created,
        }
    }
    Err(last)
}

/// A new file.
fn create<R: Files>(rt: &R, name: &str) -> io::Result<R::File> {
    let mut how = OpenOptions::new();
    how.write(true).create_new(true).mode(MODE);
    how.open(rt, name)
}

/// The commands of a setup file's text, as edits at the moment 0.
fn commands_of(alloc: Global, text: &str) -> Result<String, AllocError> {
    let mut edits = String::new(alloc);
    for line in text.lines() {
        let command = line.trim_start_matches(' ');
        if is_command(command) {
            edits.push_str("edit 0 ")?;
            edits.push_str(command)?;
            edits.push_str("\n")?;
        }
    }
    Ok(edits)
}

/// Whether a line of a setup file, which reads, has a command.
fn is_command(line: &str) -> bool {
    !(line.is_empty() || line.starts_with('#') || line.starts_with("log ") || begins_listen(line))
}

/// Writes calls into the file, if there is one. If that fails, it is said on standard error.
pub(crate) fn keep<L: Write + Drop>(alloc: Global, log: Option<LogFile<L>>, calls: &[LogEntry]) {
    let Some(mut log) = log else {
        return;
    };
    if let Err(error) = log.write(alloc, calls) {
        let words = format!(in alloc; "LB_LOG: the calls are not all in the file: {error}");
        say_last(
            alloc,
            match &words {
                Ok(words) => words.as_str(),
                Err(_) => "LB_LOG: the calls are not all in the file",
            },
        );
    }
}

impl<L: Write> LogFile<L> {
    /// Writes calls.
    fn write(&mut self, alloc: Global, calls: &[LogEntry]) -> io::Result<()> {
        let mut piece = String::new(alloc);
        for call in calls {
            push_call(alloc, &mut piece, call, self.has_answers)?;
            if piece.len() >= PIECE {
                self.file.write_all(piece.as_bytes())?;
                piece.clear();
            }
        }
        self.file.write_all(piece.as_bytes())?;
        self.file.flush()
    }
}

/// Puts a call after a text: its event as a line of a replay, or as a comment if memory was refused
/// for it; and then its answer as a comment, if that is asked for.
fn push_call(
    alloc: Global,
    text: &mut String,
    call: &LogEntry,
    has_answer: bool,
) -> Result<(), AllocError> {
    if has_lacked(&call.answer) {
        text.push_str("# memory was refused: ")?;
    }
    text.push_str(event_line(alloc, &call.event)?.as_str())?;
    text.push_str("\n")?;
    if has_answer {
        text.push_str("# ")?;
        text.push_str(answer_line(alloc, &call.answer)?.as_str())?;
        text.push_str("\n")?;
    }
    Ok(())
}
