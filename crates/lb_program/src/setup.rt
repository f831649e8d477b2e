//! Reading a setup file: what it states, and the balancer that its commands leave.

ghost use Rattle.std.specs.Prelude.{◌≡◌, List, ℕ, Err, None, IfErr, IsSomeAnd, OnOk};
ghost use Rattle.lb_step.specs.Plain.{Plain};
ghost use Rattle.lb_step.specs.Step.{Answers};
ghost use Rattle.lb_step.specs.declared.answer.Answer.{Answer};
ghost use Rattle.lb_step.specs.declared.event.Event.TheVariants.{Edit};
ghost use Rattle.lb_program.specs.Setup.{Applies, AppliesAll, EndsRefused, EndsWith, SetupEnd, StopsBy, ninth_listener, nothing_stated, refusal_of, told_before, told_lines};
ghost use Rattle.lb_program.specs.declared.faults.Stop.TheVariants.{Refused};

use crate::faults::Stop;
use crate::line::{LineKind, kind_of};
use lb_command::{
    CommandFault, FaultKind, Listener, MAX_LINE, SetupLine, begins_listen, leading_spaces,
    read_setup_line,
};
use lb_core::{Answer, Balancer, BoxedCommand, Command, Event};
use std::alloc::{AllocError, Global};
use std::marker::Model;

/// The most lines of a setup file that listen.
const MAX_LISTENERS: usize = 8;

/// How many calls the log holds where no line states it.
const LOG: u32 = 1_000;

/// What a setup file states beside what its commands leave in the balancer. A contract sees the
/// listeners and the log's limit.
#[derive(Debug, Drop)]
pub struct Setup {
    listeners: Vec<Listener>,
    log: u32,
}

impl Model for Setup {
    ghost use Rattle.lb_program.specs.Setup.{Stated};

    ghost Value = { Stated };

    ghost view = { λ s. record { listeners = s.listeners.items; log = s.log } };
}

impl Setup {
    /// Nothing stated. It takes no memory.
    fn new(alloc: Global) -> Setup
        ensures { result ≡ nothing_stated }
    {
        Setup {
            listeners: Vec::new(alloc),
            log: LOG,
        }
    }

    /// The listeners in the order of their lines: the place of one is what the origin of its clients has as its front.
    pub fn listeners(&self) -> &[Listener]
        ensures { result.now ≡ self.now.listeners }
    {
        self.listeners.as_slice()
    }

    /// How many calls the log holds: as the last line says that states it, and else 1,000.
    pub fn log(&self) -> u32
        ensures { result ≡ self.now.log }
    {
        self.log
    }
}

/// Reads a setup file: its commands are applied to an empty balancer, one after the other, at the moment 0. Lines count from 1; blank
/// ones and those whose first word begins with `#` are skipped. What stops it is a line that does not read, one whose edit is refused, or
/// lack of memory.
pub fn read_setup(alloc: Global, text: &str) -> Result<(Setup, Balancer), Stop>
    ensures { AppliesAll text.now result }
{
    let mut balancer = Balancer::new(alloc)?;
    let mut setup = Setup::new(alloc);
    setup.apply(alloc, text, &mut balancer)?;
    Ok((setup, balancer))
}

impl Setup {
    /// Applies the lines of a text.
    fn apply(&mut self, alloc: Global, text: &str, balancer: &mut Balancer) -> Result<(), Stop>
        ensures { EndsWith result (Applies (told_lines text.now) self.old balancer.old) self.new balancer.new }
    {
        let mut number = 0;
        for line in text.lines() {
            number += 1;
            self.apply_line(alloc, number, line, balancer)?;
        }
        Ok(())
    }

    /// Applies the line with a number; one that is not told does nothing.
    fn apply_line(
        &mut self,
        alloc: Global,
        number: u64,
        line: &str,
        balancer: &mut Balancer,
    ) -> Result<(), Stop>
        ensures on { OnOk result ((others : List (ℕ × List ℕ)) (end : SetupEnd) → Applies others self.new balancer.new end → Applies (told_before number line.now others) self.old balancer.old end) }
        ensures stops { IfErr result (λ stop. StopsBy stop (λ end. (others : List (ℕ × List ℕ)) → Applies (told_before number line.now others) self.old balancer.old end)) }
    {
        match kind_of(line.as_bytes()) {
            LineKind::Blank | LineKind::Comment => return Ok(()),
            LineKind::Told => {}
        }
        if self.listeners.len() >= MAX_LISTENERS && line.len() <= MAX_LINE && begins_listen(line) {
            let fault = too_many(line);
            return Err(Stop::BadLine { number, fault });
        }
        match read_setup_line(alloc, line) {
            Ok(SetupLine::Listen(listener)) => {
                self.listeners.push(listener).map_err(AllocError::from)?;
                Ok(())
            }
            Ok(SetupLine::Log(length)) => {
                self.log = length;
                Ok(())
            }
            Ok(SetupLine::Edit(command)) => edit(alloc, number, command, balancer),
            Err(fault) => Err(Stop::BadLine { number, fault }),
        }
    }
}

/// Carries out the command of the line with a number.
fn edit(alloc: Global, number: u64, command: Command, balancer: &mut Balancer) -> Result<(), Stop>
    ensures done { OnOk result ((answer : Answer) × Answers balancer.old (Edit 0 command) answer balancer.new × (refusal_of answer ≡ None)) }
    ensures refused { IfErr result (λ stop. StopsBy stop (EndsRefused balancer.old command number)) }
{
    let command = BoxedCommand::new(alloc, command)?;
    match balancer.step(Event::Edit { now: 0, command }) {
        Answer::Refused(fault) => Err(Stop::Refused { number, fault }),
        _ => Ok(()),
    }
}

/// The fault of a ninth line that listens.
fn too_many(line: &str) -> CommandFault
    ensures { result ≡ ninth_listener line.now }
{
    CommandFault {
        place: leading_spaces(line.as_bytes()),
        kind: FaultKind::Extra,
    }
}
