//! Writing out. The standard library's `write_all` does not say what was written before an error, so here it is said.

ghost use Rattle.std.specs.Prelude.{◌≡◌, ◌≤◌, [], length, take, Err, IfErr, IsOk, OnOk};
ghost use Rattle.std.specs.Io.KnownBytes.{Appends};
ghost use Rattle.lb_program.specs.Faults.{IsOutput, output_end};
ghost use Rattle.lb_program.specs.Output.{Writes, WritesFront};
ghost use Rattle.lb_program.specs.declared.faults.Stop.TheVariants as stops;

use crate::faults::Stop;
use std::io;
use std::io::{ErrorKind, Write};

/// Writes bytes, and gives how many were written, and why not all of them.
pub(crate) fn write_bytes<W: Write>(output: &mut W, bytes: &[u8]) -> (usize, io::Result<()>)
    ensures front { (result.0 ≤ length bytes.now) × Appends (W.contents output.old) (W.contents output.new) (take result.0 bytes.now) }
    ensures all { OnOk result.1 (result.0 ≡ length bytes.now) }
{
    let mut written = 0;
    'writes: for _ in 0..u64::MAX {
        let (_, rest) = bytes.split_at(written);
        if rest.is_empty() {
            return (written, Ok(()));
        }
        match output.write(rest) {
            Ok(0) => return (written, Err(io::Error::from(ErrorKind::WriteZero))),
            Ok(len) => written += len,
            Err(error) if error.kind() == ErrorKind::Interrupted => {}
            Err(error) => return (written, Err(error)),
        }
    }
    (written, Err(io::Error::from(ErrorKind::Interrupted)))
}

/// Writes out what is held. What was written is no longer held, even where the output then fails.
pub(crate) fn write_out<W: Write>(output: &mut W, held: &mut Vec<u8>) -> Result<(), Stop>
    ensures front { Writes (W.contents output.old) (W.contents output.new) held.old.items held.new.items }
    ensures all { OnOk result (held.new.items ≡ []) }
    ensures cause { IfErr result IsOutput }
{
    if held.is_empty() {
        return Ok(());
    }
    let (written, result) = write_bytes(output, held.as_slice());
    held.drain(..written);
    as_stop(result)?;
    as_stop(output.flush())
}

/// Writes a line out. The line has its line feed.
pub fn write_line<W: Write>(output: &mut W, line: &[u8]) -> io::Result<()>
    ensures front { WritesFront (W.contents output.old) (W.contents output.new) line.now }
    ensures all { OnOk result (Appends (W.contents output.old) (W.contents output.new) line.now) }
{
    let (_, result) = write_bytes(output, line);
    result?;
    output.flush()
}

/// What writing to the output gave: its error ends the run.
pub(crate) fn as_stop(written: io::Result<()>) -> Result<(), Stop>
    ensures fine { IsOk written → IsOk result }
    ensures cause { IfErr written (λ error. result ≡ Err (stops.Output error)) }
    ensures end { result ≡ output_end written }
{
    match written {
        Ok(()) => Ok(()),
        Err(error) => Err(Stop::Output(error)),
    }
}
