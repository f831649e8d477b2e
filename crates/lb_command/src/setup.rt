//! Reading lines of a setup file.

ghost use Rattle.std.specs.Prelude.{◌≡◌, IfOk};
ghost use Rattle.lb_command.specs.Reading.{Answers, Gives, Reads, ReadsAs};
ghost use Rattle.lb_command.specs.Grammar.{IsSetup};
ghost use Rattle.lb_command.specs.declared.setup.SetupLine.{SetupLine};
ghost use Rattle.lb_command.specs.Setup.{begins_listen, edit_line_at, listen_at, log_at, setup_at, setup_of, setup_whole};

use crate::commands::command;
use crate::fault::{CommandFault, MAX_LINE, Unread};
use crate::parts::{addr, port, protocol};
use crate::words::Words;
use lb_core::Command;
use lb_wire::Addr;
use std::alloc::Global;
use std::num::NonZeroU16;

/// The most calls that a log may hold.
const MAX_LOG: u64 = 1_000_000;

/// What a listener takes: DNS by UDP, by TCP (RFC 7766) or on HTTP (RFC 8484), or commands.
#[derive(Clone, Copy, Debug, PartialEq, Eq)]
pub enum Protocol {
    Udp,
    Tcp,
    Doh,
    Console,
}

/// An address that clients are listened to at.
#[derive(Clone, Copy, Debug, PartialEq, Eq)]
pub struct Listener {
    pub protocol: Protocol,
    pub addr: Addr,
    pub port: NonZeroU16,
}

/// A line of a setup file.
#[derive(Debug, Drop)]
pub enum SetupLine {
    /// Listens to clients.
    Listen(Listener),
    /// States how many calls the log holds, 0 to 1,000,000.
    Log(u32),
    /// An operator's command.
    Edit(Command),
}

/// `udp|tcp|doh|console ADDR PORT`
#[tactic(auto, unfolding(crate::specs::Setup::listen_at))]
fn read_listen(words: &mut Words<'_>) -> Result<SetupLine, Unread>
    ensures { Reads (λ line. line) result words.new (listen_at words.old) }
{
    let protocol = protocol(words)?;
    let addr = addr(words)?;
    let port = port(words)?;
    Ok(SetupLine::Listen(Listener {
        protocol,
        addr,
        port,
    }))
}

/// `N`
#[tactic(auto, unfolding(crate::specs::Setup::log_at))]
fn read_log(words: &mut Words<'_>) -> Result<SetupLine, Unread>
    ensures { Reads (λ line. line) result words.new (log_at words.old) }
{
    let number = words.number(MAX_LOG)? as u32;
    Ok(SetupLine::Log(number))
}

/// `COMMAND`
#[tactic(auto, unfolding(crate::specs::Setup::edit_line_at))]
fn read_edit_line(alloc: Global, words: &mut Words<'_>) -> Result<SetupLine, Unread>
    ensures { Reads (λ line. line) result words.new (edit_line_at words.old) }
{
    let command = command(alloc, words)?;
    Ok(SetupLine::Edit(command))
}

/// Takes what a line of a setup file states.
#[tactic(auto, unfolding(crate::specs::Setup::setup_at))]
fn setup(alloc: Global, words: &mut Words<'_>) -> Result<SetupLine, Unread>
    ensures { Reads (λ line. line) result words.new (setup_at words.old) }
{
    if words.takes(b"listen") {
        return read_listen(words);
    }
    if words.takes(b"log") {
        return read_log(words);
    }
    read_edit_line(alloc, words)
}

/// Takes that, and sees that nothing stands after it.
#[tactic(auto, unfolding(crate::specs::Setup::setup_whole))]
fn whole_setup(alloc: Global, words: &mut Words<'_>) -> Result<SetupLine, Unread>
    ensures { Gives result (setup_whole words.old) }
{
    let line = setup(alloc, words)?;
    words.end()?;
    Ok(line)
}

/// Reads a line of a setup file: what it states, or the first fault with its place. The line is of at most 300,000 bytes.
pub fn read_setup_line(alloc: Global, line: &str) -> Result<SetupLine, CommandFault>
    ensures read { Answers result (setup_of line.now) }
    // what is read is in the grammar
    ensures found { IfOk result (λ setup. IsSetup line.now setup) }
    // what is in the grammar is read
    ensures only { (setup : SetupLine) → IsSetup line.now setup → ReadsAs result setup }
{
    let line = line.as_bytes();
    if line.len() > MAX_LINE {
        return Err(CommandFault::too_long());
    }
    let mut words = Words::new(line);
    match whole_setup(alloc, &mut words) {
        Ok(line) => Ok(line),
        Err(Unread::Fault(fault)) => Err(fault),
        Err(Unread::NoMemory(refused)) => Err(words.no_memory(refused)),
    }
}

/// Whether the first word of a line is `listen`, whatever comes after it.
pub fn begins_listen(line: &str) -> bool
    ensures { result ≡ begins_listen line.now }
{
    let words = Words::new(line.as_bytes());
    words.peek().text == b"listen".as_slice()
}
