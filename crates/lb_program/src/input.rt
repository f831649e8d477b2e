//! The lines of an input, one after the other.

ghost use Rattle.std.specs.Prelude.{◌≡◌, ◌≢◌, ◌+◌, ◌-◌, ◌<◌, ◌≤◌, ◌^◌, ◌↔◌, [], ℕ, IfErr, IfOk, IfSome, IsTrue, OnOk};
ghost use Rattle.std.specs.Io.KnownBytes.{Keeps};
ghost use Rattle.std.specs.Io.Buffered.{reader_buffer, reader_inner, reader_remaining};
ghost use Rattle.lb_program.specs.Line.{IsFresh, IsSound};
ghost use Rattle.lb_program.specs.Faults.{IsFailure};
ghost use Rattle.lb_program.specs.Input.{Judges, MayStop, TurnsFrom, told_read};

use crate::faults::Stop;
use crate::line::{Line, LineKind, NotUtf8};
use crate::shown::Shown;
use lb_command::{CommandFault, read_event_line};
use lb_core::Event;
use std::alloc::Global;
use std::io::{BufReader, Read};

/// What a turn of reading gave.
#[derive(Debug, Drop)]
pub(crate) enum Turn {
    /// No event, and more may come.
    Nothing,
    /// A line that is an event.
    Event(Event),
    /// The end of the input.
    End,
}

/// A count of turns that stands at its last value, 2^64-1: `Lines::turn` alone makes one.
#[derive(Debug, Drop)]
pub struct FullCount(());

/// The lines of an input.
#[derive(Drop)]
pub(crate) struct Lines<R> {
    input: BufReader<R>,
    line: Line,
    /// How many turns were taken.
    turns: u64,
    /// How many lines have ended: one a turn at most.
    ended: u64,
    ghost fewer: { ended ≤ turns },
}

impl<R: Read + Drop> Lines<R> {
    /// The lines of an input, of which none is read.
    pub(crate) fn new(alloc: Global, input: R) -> Result<Lines<R>, Stop>
        ensures line { IfOk result (λ lines. IsFresh lines.line) }
        ensures ended { IfOk result (λ lines. (lines.ended ≡ 0) × (lines.turns ≡ 0)) }
        ensures input { IfOk result (λ lines. Keeps (R.remaining input) (reader_remaining R.remaining lines.input)) }
        ensures cause { IfErr result IsFailure }
    {
        Ok(Lines {
            input: BufReader::new(alloc, input)?,
            line: Line::new(alloc),
            turns: 0,
            ended: 0,
        })
    }

    /// Whether the next turn reads from the input, and so may wait for it.
    pub(crate) fn may_wait(&self) -> bool
        ensures { IsTrue result ↔ (reader_buffer self.now.input ≡ []) }
    {
        self.input.buffer().is_empty()
    }

    /// Takes what the input shows of a line. Where the line ends there, it is judged. Only where no byte of the input is at hand is it
    /// read from, which may wait.
    pub(crate) fn turn(&mut self, alloc: Global) -> Result<Turn, Stop>
        ensures turns { TurnsFrom (reader_remaining R.remaining self.old.input) self.old.ended self.old.line result self.new.ended self.new.line (reader_remaining R.remaining self.new.input) }
        ensures unread { reader_buffer self.old.input ≢ [] → reader_inner self.new.input ≡ reader_inner self.old.input }
        ensures cause { IfErr result (MayStop self.old.turns (reader_buffer self.old.input)) }
        ensures counted { OnOk result ((self.new.turns ≡ self.old.turns + 1) × (self.new.turns < 2 ^ 64)) }
    {
        let Some(turns) = self.turns.checked_add(1) else {
            return Err(Stop::CountFull(FullCount(())));
        };
        self.turns = turns;
        self.take_turn(alloc)
    }

    /// A turn that is counted.
    fn take_turn(&mut self, alloc: Global) -> Result<Turn, Stop>
        requires { self.old.ended < self.old.turns }
        ensures turns { TurnsFrom (reader_remaining R.remaining self.old.input) self.old.ended self.old.line result self.new.ended self.new.line (reader_remaining R.remaining self.new.input) }
        ensures unread { reader_buffer self.old.input ≢ [] → reader_inner self.new.input ≡ reader_inner self.old.input }
        ensures cause { IfErr result (λ stop. (turns : ℕ) → turns < 2 ^ 64 - 1 → MayStop turns (reader_buffer self.old.input) stop) }
        ensures counted { self.new.turns ≡ self.old.turns }
    {
        match self.line.read(&mut self.input)? {
            Shown::Piece => match self.line.shed() {
                Ok(()) => Ok(Turn::Nothing),
                Err(NotUtf8) => Err(Stop::NotUtf8 {
                    number: self.ended + 1,
                }),
            },
            Shown::LineFeed => {
                self.line.drop_return();
                self.end_line(alloc)
            }
            Shown::End => {
                if self.line.is_empty() {
                    return Ok(Turn::End);
                }
                self.end_line(alloc)
            }
        }
    }

    /// Judges the line in hand, and makes ready for the next.
    fn end_line(&mut self, alloc: Global) -> Result<Turn, Stop>
        requires { self.old.ended < self.old.turns }
        ensures judged { Judges (self.old.ended + 1) (told_read (self.old.ended + 1) self.old.line.kind self.old.line.is_long self.old.line.bytes.items) result }
        ensures line { OnOk result (IsFresh self.new.line × (self.new.ended ≡ self.old.ended + 1)) }
        ensures input { self.new.input ≡ self.old.input }
        ensures counted { self.new.turns ≡ self.old.turns }
    {
        self.ended += 1;
        let turn = judge(alloc, &self.line, self.ended)?;
        self.line.clear();
        Ok(turn)
    }
}

/// What the whole line with a number gives: nothing where it is skipped, and else its event.
fn judge(alloc: Global, line: &Line, number: u64) -> Result<Turn, Stop>
    ensures { Judges number (told_read number line.now.kind line.now.is_long line.now.bytes.items) result }
{
    let Ok(text) = line.text() else {
        return Err(Stop::NotUtf8 { number });
    };
    match line.kind(text) {
        LineKind::Blank | LineKind::Comment => return Ok(Turn::Nothing),
        LineKind::Told => {}
    }
    if line.is_long() {
        let fault = CommandFault::too_long();
        return Err(Stop::BadLine { number, fault });
    }
    match read_event_line(alloc, text) {
        Ok(event) => Ok(Turn::Event(event)),
        Err(fault) => Err(Stop::BadLine { number, fault }),
    }
}
