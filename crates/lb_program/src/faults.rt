//! What ends a run of lines early, and the line that tells of it.

ghost use Rattle.std.specs.Prelude.{◌≡◌, ◌+◌, ◌≤◌, ◌++◌, codes, decimal, length};
ghost use Rattle.std.specs.IoError.{error_kind};
ghost use Rattle.arrayvec.specs.ArrayVec.{array_vec_len};
ghost use Rattle.lb_program.specs.Faults.{Tells, bad_line_text, end_status, end_text, failure_text, stop_status, stop_text};
ghost use Rattle.lb_command.specs.Answers.{refusal_text};

use crate::input::FullCount;
use crate::output::write_line;
use arrayvec::ArrayVec;
use itoa::Buffer;
use lb_command::{CommandFault, refusal_text};
use lb_core::EditFault;
use std::alloc::AllocError;
use std::io;
use std::io::{ErrorKind, Write};

/// Room for the line that reports what ended a run of lines early: at most 5 bytes, 20 digits, 5 bytes, 20 digits, 2 bytes, a digit, a space, a
/// name of at most 11 and the line feed.
const MAX_TEXT: usize = 128;

/// What ends a run of lines before its last one.
#[derive(Debug, Drop)]
pub enum Stop {
    /// A line that does not read. Lines count from 1.
    BadLine { number: u64, fault: CommandFault },
    /// A line whose edit is refused.
    Refused { number: u64, fault: EditFault },
    /// A line that is not UTF-8.
    NotUtf8 { number: u64 },
    /// Input that fails.
    Input(io::Error),
    /// Output that fails.
    Output(io::Error),
    /// A count that can't go on.
    CountFull(FullCount),
    /// Lack of memory.
    NoMemory,
}

impl Stop {
    /// The exit status.
    pub fn status(&self) -> u8
        ensures { result ≡ stop_status self.now }
    {
        match self {
            Stop::BadLine { .. } | Stop::Refused { .. } => 1,
            Stop::NotUtf8 { .. }
            | Stop::Input(_)
            | Stop::Output(_)
            | Stop::CountFull(_)
            | Stop::NoMemory => 3,
        }
    }

    /// The line that tells of it, with its line feed. It takes no memory.
    pub(crate) fn line(&self) -> ArrayVec<u8, MAX_TEXT>
        ensures { result.items ≡ stop_text self.now }
    {
        match self {
            Stop::BadLine { number, fault } => bad_line(*number, *fault),
            Stop::Refused { number, fault } => refused_line(*number, *fault),
            Stop::Input(error) => line_of(failure(error)),
            Stop::Output(error) => line_of(failure(error)),
            Stop::NotUtf8 { .. } => line_of(DEVICE),
            Stop::CountFull(_) => line_of(DEVICE),
            Stop::NoMemory => line_of(MEMORY),
        }
    }
}

const DEVICE: &str = "device fault\n";

const MEMORY: &str = "no memory\n";

/// The line that tells of a device that failed: it may have wanted memory.
fn failure(error: &io::Error) -> &'static str
    ensures text { result.now ≡ failure_text (error_kind error.now) }
    ensures short { length result.now ≤ 13 }
{
    match error.kind() {
        ErrorKind::OutOfMemory => MEMORY,
        _ => DEVICE,
    }
}

/// A text as a line of its own.
fn line_of(text: &str) -> ArrayVec<u8, MAX_TEXT>
    requires { length text.now ≤ 128 }
    ensures { result.items ≡ text.now }
{
    let mut line = ArrayVec::new();
    put(&mut line, text);
    line
}

/// The line that tells of a line that does not read.
fn bad_line(number: u64, fault: CommandFault) -> ArrayVec<u8, MAX_TEXT>
    ensures { result.items ≡ bad_line_text number fault }
{
    let mut line = ArrayVec::new();
    put(&mut line, "line ");
    put_number(&mut line, number);
    put(&mut line, ": at ");
    put_number(&mut line, fault.place as u64);
    put(&mut line, ": ");
    put_number(&mut line, u64::from(fault.kind.number()));
    put(&mut line, " ");
    put(&mut line, fault.kind.name());
    put(&mut line, "\n");
    line
}

/// The line that tells of a line whose edit is refused.
fn refused_line(number: u64, fault: EditFault) -> ArrayVec<u8, MAX_TEXT>
    ensures { result.items ≡ codes "line " ++ decimal number ++ codes ": " ++ refusal_text fault ++ codes "\n" }
{
    let mut line = ArrayVec::new();
    put(&mut line, "line ");
    put_number(&mut line, number);
    put(&mut line, ": ");
    put(&mut line, refusal_text(fault));
    put(&mut line, "\n");
    line
}

/// The line that reports how many calls a balancer had. It takes no memory.
pub fn closed_line(count: u64) -> ArrayVec<u8, MAX_TEXT>
    ensures { result.items ≡ codes "closed " ++ decimal count ++ codes "\n" }
{
    let mut line = ArrayVec::new();
    put(&mut line, "closed ");
    put_number(&mut line, count);
    put(&mut line, "\n");
    line
}

/// Puts a text after a line.
fn put(line: &mut ArrayVec<u8, MAX_TEXT>, text: &str)
    requires { array_vec_len line.old + length text.now ≤ 128 }
    ensures items { line.new.items ≡ line.old.items ++ text.now }
    ensures len { array_vec_len line.new ≡ array_vec_len line.old + length text.now }
{
    match line.try_extend_from_slice(text.as_bytes()) {
        Ok(()) => {}
        Err(_) => unreachable!(),
    }
}

/// Puts a number in decimal after a line.
fn put_number(line: &mut ArrayVec<u8, MAX_TEXT>, number: u64)
    requires { array_vec_len line.old + 20 ≤ 128 }
    ensures items { line.new.items ≡ line.old.items ++ decimal number }
    ensures len { array_vec_len line.new ≤ array_vec_len line.old + 20 }
{
    let mut digits = Buffer::new();
    put(line, digits.format(number));
}

/// How a run of lines ended: its exit status, and whether what ended it early was told.
#[derive(Debug, Drop)]
pub struct Ended {
    pub status: u8,
    /// The error is of the writer for faults.
    pub told: io::Result<()>,
}

impl Ended {
    /// Tells in one line what ended a run of lines early, where something did.
    pub fn tell<F: Write>(end: Result<(), Stop>, faults: &mut F) -> Ended
        ensures status { result.status ≡ end_status end }
        ensures told { Tells (F.contents faults.old) (F.contents faults.new) (end_text end) result.told }
    {
        match end {
            Ok(()) => Ended {
                status: 0,
                told: Ok(()),
            },
            Err(stop) => Ended {
                status: stop.status(),
                told: write_line(faults, stop.line().as_slice()),
            },
        }
    }
}

impl From<AllocError> for Stop {
    ghost use Rattle.lb_program.specs.declared.faults.Stop.TheVariants as stops;

    ghost from_gives = { λ _ e. e ≡ stops.NoMemory };

    fn from(_error: AllocError) -> Stop {
        Stop::NoMemory
    }
}

/// An error that comes by `?` is the input's. Those of the output are told by `output::as_stop`.
impl From<io::Error> for Stop {
    ghost use Rattle.lb_program.specs.declared.faults.Stop.TheVariants as stops;

    ghost from_gives = { λ error e. e ≡ stops.Input error };

    fn from(error: io::Error) -> Stop {
        Stop::Input(error)
    }
}
