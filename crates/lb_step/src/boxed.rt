//! A command in memory of its own, so that an event is moved as quickly as one that holds none.

ghost use Rattle.std.specs.Prelude.{IfOk, IsTrue, ◌≡◌};

use crate::command::Command;
use std::alloc::{AllocError, Global};
use std::marker::Model;

/// A command in memory of its own. A contract sees the command.
#[derive(Debug, Drop)]
pub struct BoxedCommand {
    command: Box<Command>,
}

impl Model for BoxedCommand {
    ghost use Rattle.lb_step.specs.declared.command.Command.{Command};

    ghost Value = { Command };

    ghost use Rattle.lb_terms.specs.contracts.term.CheckedTerm as contract;
    ghost use Rattle.std.specs.Coded.{codes};

    ghost coded = { Prim.hlevel (codes, contract.the_row.coded) };

    ghost view = { λ b. b.command.value };
}

impl BoxedCommand {
    /// Takes memory for the command. The one error is lack of it.
    pub fn new(alloc: Global, command: Command) -> Result<BoxedCommand, AllocError>
        ensures { IfOk result (λ boxed. boxed ≡ command) }
    {
        Ok(BoxedCommand {
            command: Box::new(alloc, command)?,
        })
    }

    /// The command.
    pub fn get(&self) -> &Command
        ensures { result.now ≡ self.now }
    {
        &self.command
    }

    /// The command, and its memory is given back.
    pub fn into_inner(self) -> Command
        ensures { result ≡ self }
    {
        let BoxedCommand { command } = self;
        Box::into_inner(command)
    }

    /// An equal command. The one error is lack of memory.
    pub fn copy(&self, alloc: Global) -> Result<BoxedCommand, AllocError>
        ensures { IfOk result (λ copy. copy ≡ self.now) }
    {
        BoxedCommand::new(alloc, self.command.copy(alloc)?)
    }

    /// Whether two commands are equal.
    pub fn equals(&self, other: &BoxedCommand) -> bool
        ensures equal { IsTrue result → self.now ≡ other.now }
        ensures found { self.now ≡ other.now → IsTrue result }
    {
        self.command.equals(&other.command)
    }
}
