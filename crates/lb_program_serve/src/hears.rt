//! What the console asks of its handler of events besides a call: edits, and what a line or a look
//! is answered from.

ghost use Rattle.std.specs.Prelude.{[], IfErr, IfOk, ◌+◌, ◌∷◌, ◌≡◌};
ghost use Rattle.lb_step.specs.Plain.{Plain};
ghost use Rattle.lb_step.specs.Step.{Answers};
ghost use Rattle.lb_step.specs.declared.event.Event.TheVariants.{Edit};
ghost use Rattle.lb_loops_io.specs.Counts.{Grows};
ghost use Rattle.lb_program_serve.specs.News.{IsNewsOf};
ghost use Rattle.lb_words.specs.Heard.{IsHeard};

use crate::news::News;
use lb_core::{Answer, BoxedCommand, Event};
use lb_desk::{DeskFault, Naming};
use lb_loops::{Caller, Taker};
use lb_words::{Heard, Words};
use std::alloc::AllocError;
use std::sync::Wait;
use std::time::Clock;

/// Has a desk at hand, to which it hands edits, and that a line is answered from, if it is no
/// command.
pub(crate) trait Hears: Taker {
    /// One call, which is an edit, and what the loops have to learn of it. If the desk took no
    /// event, nothing was asked of the balancer.
    fn edit(&mut self, now: u64, command: BoxedCommand) -> Result<(Answer, News), DeskFault>
        ensures answered { IfOk result (λ r. (Self.answered self.new ≡ Self.answered self.old + 1) × Grows (Self.pairs self.old) (Self.pairs self.new) ((Edit now command, r.0) ∷ [])) }
        ensures news { IfOk result (λ r. IsNewsOf (Edit now command) r.0 r.1) }
        ensures fault { IfErr result (λ _. (Self.answered self.new ≡ Self.answered self.old) × (Self.pairs self.new ≡ Self.pairs self.old)) };

    /// What a line that is no command says. The one error is lack of memory.
    fn hear(&self, words: &Words, line: &str) -> Result<Heard, AllocError>
        ensures { IfOk result (λ heard. IsHeard line.now heard) };

    /// What changed since these words were asked last. The one error is lack of memory.
    fn changes(&self, words: &mut Words) -> Result<Vec<String>, AllocError>;

    /// Gives back some of the memory of what was expunged. Whether more is to be given back.
    fn sweep(&self) -> bool;
}

impl<R: Wait + Clock, J: Naming> Hears for Caller<'_, R, J> {
    fn edit(&mut self, now: u64, command: BoxedCommand) -> Result<(Answer, News), DeskFault> {
        match self.take_then(Event::Edit { now, command }, News::of) {
            Ok(answered) => Ok(answered),
            Err((fault, _)) => Err(fault),
        }
    }

    fn hear(&self, words: &Words, line: &str) -> Result<Heard, AllocError> {
        words.hear(self.runtime(), self.desk(), line)
    }

    fn changes(&self, words: &mut Words) -> Result<Vec<String>, AllocError> {
        words.changes(self.runtime(), self.desk())
    }

    fn sweep(&self) -> bool {
        self.desk().sweep(self.runtime())
    }
}
