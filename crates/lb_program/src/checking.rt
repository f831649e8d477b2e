//! Checking a setup file: what it leaves is shown in a line.

ghost use Rattle.std.specs.Prelude.{IfOk, Result, string_bytes};
ghost use Rattle.std.specs.declared.io.Error.{Error};
ghost use Rattle.lb_program.specs.Checking.{Checks, ChecksInput, EndsCheck, ShowsLine};

use crate::faults::{Ended, Stop};
use crate::output::{as_stop, write_line};
use crate::setup::read_setup;
use lb_command::answer_line;
use lb_core::{Balancer, BoxedCommand, Command, Event};
use std::alloc::{AllocError, Global};
use std::io;
use std::io::{Read, Write};

/// Checks a setup file: its commands are applied to an empty balancer, one after the other, and the line that shows how much there
/// is of each part is written. Lines that listen and lines that state the log's length are read too. Gives the
/// exit status: 0; 1 after a line that does not read, or whose edit is refused; 3 where the output fails or memory is
/// lacking. What ended the check early is told in one line on `faults`.
pub fn check<A: AllocGlobal, W: Write, F: Write>(
    rt: &A,
    text: &str,
    output: &mut W,
    faults: &mut F,
) -> u8
    ensures { (told : Result (Unit {0}) Error) × EndsCheck text.now (W.contents output.old) (W.contents output.new) (F.contents faults.old) (F.contents faults.new) result told }
{
    check_told(rt.alloc(), text, output, faults).status
}

/// The same, and whether what ended the check early was told.
fn check_told<W: Write, F: Write>(
    alloc: Global,
    text: &str,
    output: &mut W,
    faults: &mut F,
) -> Ended
    ensures { EndsCheck text.now (W.contents output.old) (W.contents output.new) (F.contents faults.old) (F.contents faults.new) result.status result.told }
{
    Ended::tell(check_lines(alloc, text, output), faults)
}

/// Checks what an input holds, which is read whole first: one that fails or is not UTF-8 is a failure, and nothing of it is taken.
pub fn check_input<R: Read + Drop, W: Write, F: Write>(
    alloc: Global,
    input: R,
    output: &mut W,
    faults: &mut F,
) -> Ended
    ensures { ChecksInput (R.remaining input) (W.contents output.old) (W.contents output.new) (F.contents faults.old) (F.contents faults.new) result.status result.told }
{
    match io::read_to_string(alloc, input) {
        Ok(text) => check_told(alloc, text.as_str(), output, faults),
        Err(error) => Ended::tell(Err(Stop::Input(error)), faults),
    }
}

/// Applies the lines of a text, and writes the line that shows how much there is.
fn check_lines<W: Write>(alloc: Global, text: &str, output: &mut W) -> Result<(), Stop>
    ensures { Checks text.now (W.contents output.old) (W.contents output.new) result }
{
    let (_, mut balancer) = read_setup(alloc, text)?;
    let line = shown_line(alloc, &mut balancer)?;
    as_stop(write_line(output, line.as_bytes()))
}

/// The line that shows how much a balancer has of each part, with its line feed. The one error is lack of memory.
fn shown_line(alloc: Global, balancer: &mut Balancer) -> Result<String, AllocError>
    ensures { IfOk result (λ line. ShowsLine balancer.old (string_bytes line)) }
{
    let command = BoxedCommand::new(alloc, Command::Show)?;
    let answer = balancer.step(Event::Edit { now: 0, command });
    let mut line = answer_line(alloc, &answer)?;
    line.push('\n')?;
    Ok(line)
}
