//! Replaying lines: each is an event of one balancer, and each answer becomes a line.

ghost use Rattle.std.specs.Prelude.{◌≡◌, ◌≢◌, ◌+◌, ◌<◌, ◌^◌, ◌++◌, [], codes, IfErr, IfOk, IfSome, OnErr, OnOk, Result};
ghost use Rattle.std.specs.Io.Buffered.{reader_buffer, reader_inner, reader_remaining};
ghost use Rattle.std.specs.declared.io.Error.{Error};
ghost use Rattle.lb_step.specs.Plain.{empty};
ghost use Rattle.lb_step.specs.Step.{Answers};
ghost use Rattle.lb_step.specs.declared.answer.Answer.{Answer};
ghost use Rattle.lb_command.specs.Answers.{line_of};
ghost use Rattle.lb_program.specs.Input.{TurnsFrom};
ghost use Rattle.lb_program.specs.Line.{IsSound};
ghost use Rattle.lb_program.specs.Output.{Writes};
ghost use Rattle.lb_program.specs.Replaying.{AnswersUpTo, EndsReplay, Replays};

use crate::faults::{Ended, Stop};
use crate::input::{Lines, Turn};
use crate::output::write_out;
use lb_command::answer_line;
use lb_core::{Balancer, Event, cached_answers_are_kept_replies};
use std::alloc::{AllocError, Global};
use std::io::{Read, Write};

/// Replays the lines of an input over one balancer that begins empty: each event is one step of it, whose answer is
/// written as a line. Gives the exit status: 0 at the end of the input; 1 after a line that does not read; 3 after a line that is not
/// UTF-8, and where the input or the output fails or memory is lacking. What ended the replay early is told in one line on `faults`.
///
/// What was answered is written out before more input is waited for, and before this returns.
pub fn replay<A: AllocGlobal, R: Read + Drop, W: Write, F: Write>(
    rt: &A,
    input: R,
    output: &mut W,
    faults: &mut F,
) -> u8
    ensures { (told : Result (Unit {0}) Error) × EndsReplay (R.remaining input) (W.contents output.old) (W.contents output.new) (F.contents faults.old) (F.contents faults.new) result told }
{
    replay_told(rt.alloc(), input, output, faults).status
}

/// The same, and whether what ended the replay early was told.
pub fn replay_told<R: Read + Drop, W: Write, F: Write>(
    alloc: Global,
    input: R,
    output: &mut W,
    faults: &mut F,
) -> Ended
    ensures { EndsReplay (R.remaining input) (W.contents output.old) (W.contents output.new) (F.contents faults.old) (F.contents faults.new) result.status result.told }
{
    Ended::tell(replay_lines(alloc, input, output), faults)
}

/// Replays the lines of an input, and writes out what was answered.
fn replay_lines<R: Read + Drop, W: Write>(
    alloc: Global,
    input: R,
    output: &mut W,
) -> Result<(), Stop>
    ensures { Replays (R.remaining input) (W.contents output.old) (W.contents output.new) result }
{
    // A law, which does nothing.
    cached_answers_are_kept_replies();
    let mut player = Player::new(alloc)?;
    player.run(alloc, input, output)
}

/// Of so many replies the memory is given back in one call.
const SWEPT: usize = 1024;

/// A replay under way: its balancer, and the lines of answers that are held back.
#[derive(Drop)]
struct Player {
    balancer: Balancer,
    held: Vec<u8>,
}

impl Player {
    /// One that begins. The one error is lack of memory.
    fn new(alloc: Global) -> Result<Player, AllocError>
        ensures { IfOk result (λ player. (player.balancer ≡ empty) × (player.held.items ≡ [])) }
    {
        Ok(Player {
            balancer: Balancer::new(alloc)?,
            held: Vec::new(alloc),
        })
    }

    /// Answers the lines of an input, and writes out what is held.
    fn run<R: Read + Drop, W: Write>(
        &mut self,
        alloc: Global,
        input: R,
        output: &mut W,
    ) -> Result<(), Stop>
        requires begins { (self.old.balancer ≡ empty) × (self.old.held.items ≡ []) }
        ensures { Replays (R.remaining input) (W.contents output.old) (W.contents output.new) result }
    {
        // A law, which does nothing.
        cached_answers_are_kept_replies();
        let result = self.answer_lines(alloc, input, output);
        write_out(output, &mut self.held)?;
        result
    }

    /// Answers the lines of an input. Some of the answers' lines are written out, and the others held.
    fn answer_lines<R: Read + Drop, W: Write>(
        &mut self,
        alloc: Global,
        input: R,
        output: &mut W,
    ) -> Result<(), Stop>
        requires begins { (self.old.balancer ≡ empty) × (self.old.held.items ≡ []) }
        ensures { AnswersUpTo (R.remaining input) (W.contents output.old) (W.contents output.new) self.new.held.items result }
    {
        let mut lines = Lines::new(alloc, input)?;
        'turns: loop {
            match self.turn(alloc, &mut lines, output)? {
                Turn::Nothing => {}
                Turn::Event(event) => self.answer(alloc, event)?,
                Turn::End => return Ok(()),
            }
        }
    }

    /// Takes what the input shows of a line. Before the input is waited for, what is held is written out.
    fn turn<R: Read + Drop, W: Write>(
        &mut self,
        alloc: Global,
        lines: &mut Lines<R>,
        output: &mut W,
    ) -> Result<Turn, Stop>
        ensures turns { TurnsFrom (reader_remaining R.remaining lines.old.input) lines.old.ended lines.old.line result lines.new.ended lines.new.line (reader_remaining R.remaining lines.new.input) }
        ensures front { Writes (W.contents output.old) (W.contents output.new) self.old.held.items self.new.held.items }
        ensures waits { self.new.held.items ≢ [] → reader_inner lines.new.input ≡ reader_inner lines.old.input }
        ensures same { self.new.balancer ≡ self.old.balancer }
        ensures counted { OnOk result ((lines.new.turns ≡ lines.old.turns + 1) × (lines.new.turns < 2 ^ 64)) }
    {
        if lines.may_wait() {
            write_out(output, &mut self.held)?;
        }
        lines.turn(alloc)
    }

    /// Steps the balancer, and holds the answer's line. The one error is lack of memory; then nothing more is held.
    fn answer(&mut self, alloc: Global, event: Event) -> Result<(), AllocError>
        ensures answered { OnOk result ((answer : Answer) × Answers self.old.balancer event answer self.new.balancer × (self.new.held.items ≡ self.old.held.items ++ (line_of answer ++ codes "\n"))) }
        ensures same { OnErr result (self.new.held.items ≡ self.old.held.items) }
    {
        let is_edit = matches!(event, Event::Edit { .. });
        let answer = self.balancer.step(event);
        if is_edit {
            self.sweep();
        }
        let mut text = answer_line(alloc, &answer)?;
        text.push('\n')?;
        self.held.extend_from_slice(text.as_bytes())
    }

    /// Gives back the memory of all replies that were expunged: nobody waits for an answer
    /// meanwhile.
    fn sweep(&mut self)
        ensures { self.new ≡ self.old }
    {
        for _ in 0..u64::MAX {
            if !self.balancer.sweep(SWEPT).more {
                return;
            }
        }
    }
}
