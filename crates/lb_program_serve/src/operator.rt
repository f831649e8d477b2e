//! The operator's lines, each answered by a line.

ghost use Rattle.std.specs.Prelude.{IfErr, IfOk, string_bytes, ◌≡◌};
ghost use Rattle.lb_command.specs.Reading.{max_line};
ghost use Rattle.lb_command.specs.declared.fault.CommandFault.{CommandFault};
ghost use Rattle.lb_command.specs.declared.fault.FaultKind.TheVariants as kinds;
ghost use Rattle.lb_program_serve.specs.Operator.{IsHeard, IsLine, IsRosterOf, Leaves, MayCarry, Says, Took, desk_text, fault_text, told};

use crate::fault::Fault;
use crate::hears::Hears;
use crate::news::{News, put, withdraw};
use lb_command::{CommandFault, FaultKind, answer_line, read_command};
use lb_core::{Answer, BoxedCommand, Command, Note};
use lb_desk::DeskFault;
use lb_loops::{Endpoint, Outside, Place, Roster, RosterFull};
use lb_program::ServerPlace;
use lb_servers::Mode;
use lb_wire::ServerId;
use lb_words::{Heard, Words};
use std::alloc::{AllocError, Global};
use std::sync::{Arc, Mutex, Wait};
use std::thread::sleep;
use std::time::{Clock, Duration};

/// How long a new server is known to the loops before it is known to the desk, in milliseconds. A
/// turn that began with an older copy of the roster has ended by then.
const AHEAD: u64 = 10;

/// What comes of a line.
#[derive(Debug, Drop)]
pub(crate) enum Said {
    /// It is answered by this line, which has no line feed yet.
    Line(String),
    /// It is no command, and answered by these lines, the last of which has no line feed yet.
    Lines(String),
    /// It is no command, and its client is to be closed.
    Quit,
    /// Serving is to end.
    Stop,
}

/// What answers an operator's lines: a handler of events, the moments of edits, and the roster by
/// which the loops find the servers.
#[derive(Drop)]
pub(crate) struct Operator<T: Hears, O: Outside> {
    alloc: Global,
    words: Words,
    taker: T,
    outside: O,
    /// The number that the next server will have, as far as the servers at the start and the
    /// answers since then say.
    next: ServerId,
    roster: Arc<Mutex<Roster>>,
}

impl<T: Hears, O: Outside> Operator<T, O> {
    /// One that was told no line. The roster is that of these servers, which the balancer has.
    pub(crate) fn new(
        alloc: Global,
        words: Words,
        taker: T,
        outside: O,
        servers: &[ServerPlace],
        roster: Arc<Mutex<Roster>>,
    ) -> Operator<T, O>
        ensures { (result.taker ≡ taker) × (result.outside ≡ outside) }
    {
        Operator {
            alloc,
            words,
            taker,
            outside,
            next: number_after(servers),
            roster,
        }
    }

    /// The handler of events, which has the desk at hand.
    pub(crate) fn taker(&self) -> &T
        ensures { result.now ≡ self.now.taker }
    {
        &self.taker
    }

    /// What changed since this was asked last. The one error is lack of memory.
    pub(crate) fn changes(&mut self) -> Result<Vec<String>, AllocError>
        ensures { (self.new.taker ≡ self.old.taker) × (self.new.outside ≡ self.old.outside) }
    {
        self.taker.changes(&mut self.words)
    }

    /// The handler of events, when the console has ended.
    pub(crate) fn into_taker(self) -> T
        ensures { result ≡ self.taker }
    {
        let Operator { taker, .. } = self;
        taker
    }

    /// Answers a line: a command is carried out by the desk, and its answer is reported; a line
    /// that is no command is answered as a word of the console, or by its fault. If no moment is to
    /// be had, or no memory for the answer, there is none: then nothing was done, or the command
    /// was carried out.
    pub(crate) fn answer<R: Wait + Clock>(&mut self, rt: &R, line: &str) -> Result<Said, Fault>
        ensures said { IfOk result (λ said. Says line.now said (told (T.answered self.old.taker) (T.pairs self.old.taker)) (told (T.answered self.new.taker) (T.pairs self.new.taker))) }
        ensures unsaid { IfErr result (λ _. Leaves line.now (told (T.answered self.old.taker) (T.pairs self.old.taker)) (told (T.answered self.new.taker) (T.pairs self.new.taker))) }
    {
        if line == "stop" {
            return Ok(Said::Stop);
        }
        match read_command(self.alloc, line) {
            Ok(command) => self.edit(rt, line, command),
            Err(fault) => self.hear(line, fault),
        }
    }

    /// Answers a line that is no command, of which this is the fault.
    fn hear(&self, line: &str, fault: CommandFault) -> Result<Said, Fault>
        ensures { IfOk result (λ said. IsHeard line.now fault said) }
    {
        if fault.kind == FaultKind::NoMemory {
            return Ok(Said::Line(fault_line(self.alloc, fault)?));
        }
        match self.taker.hear(&self.words, line) {
            Ok(Heard::Nothing) => Ok(Said::Line(fault_line(self.alloc, fault)?)),
            Ok(Heard::Lines(text)) => Ok(Said::Lines(text)),
            Ok(Heard::Fault(own)) => Ok(Said::Lines(fault_line(self.alloc, own)?)),
            Ok(Heard::Quit) => Ok(Said::Quit),
            Err(refused) => self.lacking(line, refused),
        }
    }

    /// Reports the fault of a line of over 300,000 bytes.
    pub(crate) fn too_long(&self) -> Result<Said, Fault>
        ensures { IfOk result (λ said. IsLine said (fault_text (record { place = max_line; kind = kinds.Extra }))) }
    {
        Ok(Said::Line(fault_line(self.alloc, CommandFault::too_long())?))
    }

    /// Carries out the command of a line.
    fn edit<R: Wait + Clock>(&mut self, rt: &R, line: &str, command: Command) -> Result<Said, Fault>
        ensures said { IfOk result (λ said. Took command said (told (T.answered self.old.taker) (T.pairs self.old.taker)) (told (T.answered self.new.taker) (T.pairs self.new.taker))) }
        ensures unsaid { IfErr result (λ _. MayCarry command (told (T.answered self.old.taker) (T.pairs self.old.taker)) (told (T.answered self.new.taker) (T.pairs self.new.taker))) }
    {
        let Some((now, _)) = self.outside.ask() else {
            return Err(Fault::Console);
        };
        let command = match BoxedCommand::new(self.alloc, command) {
            Ok(command) => command,
            Err(refused) => return self.lacking(line, refused),
        };
        let announced = self.announce(rt, command.get());
        match self.taker.edit(now, command) {
            Ok((answer, news)) => {
                count_on(&mut self.next, &answer);
                self.tell_loops(rt, news, announced);
                Ok(Said::Line(answer_line(self.alloc, &answer)?))
            }
            Err(fault) => {
                withdraw(&mut self.roster.lock(rt), announced);
                Ok(Said::Line(String::from_str(self.alloc, desk_line(fault))?))
            }
        }
    }

    /// Reports the fault of a line for whose command memory is lacking: its place is the line's
    /// end.
    fn lacking(&self, line: &str, refused: AllocError) -> Result<Said, Fault>
        ensures { IfOk result (λ said. (fault : CommandFault) × (fault.kind ≡ kinds.NoMemory) × IsLine said (fault_text fault)) }
    {
        let fault = CommandFault {
            place: line.len(),
            kind: FaultKind::from(refused),
        };
        Ok(Said::Line(fault_line(self.alloc, fault)?))
    }

    /// Has the loops know where a new server is before the desk can send a query to it, under the
    /// number that it will have. It is not probed yet.
    fn announce<R: Wait + Clock>(&self, rt: &R, command: &Command) -> Option<ServerId> {
        let Command::ServerAdd(spec, _) = command else {
            return None;
        };
        let place = Place {
            at: Endpoint {
                addr: spec.addr,
                port: spec.port.get(),
            },
            mode: Mode::Down,
            must_resolve: false,
        };
        match self.roster.lock(rt).put(self.next, place) {
            Ok(()) => {}
            Err(RosterFull) => return None,
        }
        sleep(rt, Duration::from_millis(AHEAD));
        Some(self.next)
    }

    /// Has the loops learn what is new, in place of what was announced to them. The roster's lock is
    /// taken for that alone.
    fn tell_loops<R: Wait>(&self, rt: &R, news: News, announced: Option<ServerId>) {
        news.tell(&mut self.roster.lock(rt), announced);
    }
}

/// The number after the greatest of these servers.
fn number_after(servers: &[ServerPlace]) -> ServerId {
    let last = servers
        .iter()
        .fold(0u64, |last, server| last.max(server.id.0));
    ServerId(last.saturating_add(1))
}

/// After an answer that a server was added, the next one has the number after its number.
fn count_on(next: &mut ServerId, answer: &Answer) {
    if let Answer::Edited(Note::ServerAdded(id)) = answer {
        *next = ServerId(id.0.saturating_add(1));
    }
}

/// The roster of a list of servers. The one error is lack of memory.
pub(crate) fn roster_of(alloc: Global, servers: &[ServerPlace]) -> Result<Roster, AllocError>
    ensures { IfOk result (λ roster. IsRosterOf servers.now roster) }
{
    let mut roster = Roster::made(alloc)?;
    for server in servers {
        put(&mut roster, server);
    }
    Ok(roster)
}

/// The line that reports the fault of a line.
fn fault_line(alloc: Global, fault: CommandFault) -> Result<String, AllocError>
    ensures { IfOk result (λ text. string_bytes text ≡ fault_text fault) }
{
    let place = fault.place;
    let number = fault.kind.number();
    let name = fault.kind.name();
    format!(in alloc; "fault {place} {number} {name}")
}

/// The line that tells that the desk took no event.
fn desk_line(fault: DeskFault) -> &'static str
    ensures { result.now ≡ desk_text fault }
{
    match fault {
        DeskFault::CountFull => "desk 1 CountFull",
        DeskFault::NoMemory => "desk 2 NoMemory",
    }
}
