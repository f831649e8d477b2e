//! What the loop of datagrams holds.

ghost use Rattle.std.specs.Prelude.{[], IfOk, IsTrue, Some, vec_capacity, vec_len, ◌++◌, ◌≡◌, ◌≢◌, ◌≤◌, ℕ};
ghost use Rattle.lb_loops_udp.specs.Lines.{AreAsked, AreSent, hears, listened};
ghost use Rattle.lb_loops_io.specs.Counts.{Rose};
ghost use Rattle.lb_loops_io.specs.Lines.{FirstFault, any_by_device};
ghost use Rattle.lb_loops_io.specs.Ways.{packets};
ghost use Rattle.lb_loops_io.specs.declared.report.DeviceFault.TheVariants as devices;

use crate::sending::send_lines;
use crate::spare::Spare;
use lb_loops_io::{Datagrams, DeviceFault, Line, Outside, Roster, Taker, WaitFailed};
use std::alloc::{AllocError, Global};
use std::marker::Model;

/// What the loop of datagrams holds: its sockets, its event handler, its source of moments and
/// words, and room that it keeps. A contract sees what each of them tells.
#[derive(Drop)]
pub struct DatagramLoop<S: Datagrams, T: Taker, O: Outside> {
    pub(crate) alloc: Global,
    pub(crate) spare: Spare,
    pub(crate) sockets: S,
    pub(crate) taker: T,
    pub(crate) outside: O,
}

impl<S: Datagrams, T: Taker, O: Outside> Model for DatagramLoop<S, T, O> {
    ghost use Rattle.std.specs.Prelude.{vec_capacity};
    ghost use Rattle.lb_loops_udp.specs.Lines.{listened};
    ghost use Rattle.lb_loops_udp.specs.Turn.{World};

    ghost Value = { World };

    ghost use Rattle.lb_terms.specs.contracts.term.CheckedTerm as contract;
    ghost use Rattle.std.specs.Coded.{codes};

    ghost coded = { Prim.hlevel (codes, contract.the_row.coded) };

    ghost view = { λ l. record {
      given = S.given l.sockets;
      taken = S.taken l.sockets;
      there = listened (S.listens l.sockets);
      failures = S.failures l.sockets;
      reads = S.reads l.sockets;
      answered = T.answered l.taker;
      pairs = T.pairs l.taker;
      said = O.said l.outside;
      outside = O.failures l.outside;
      room = vec_capacity l.spare.lines;
    } };
}

impl<S: Datagrams, T: Taker, O: Outside> DatagramLoop<S, T, O> {
    /// A loop that had no turn. It takes no memory.
    pub fn made(alloc: Global, sockets: S, taker: T, outside: O) -> DatagramLoop<S, T, O>
        ensures sockets { (result.given ≡ S.given sockets) × (result.taken ≡ S.taken sockets) × (result.there ≡ listened (S.listens sockets)) }
        ensures counts { (result.failures ≡ S.failures sockets) × (result.reads ≡ S.reads sockets) }
        ensures taker { (result.answered ≡ T.answered taker) × (result.pairs ≡ T.pairs taker) }
        ensures outside { (result.said ≡ O.said outside) × (result.outside ≡ O.failures outside) }
    {
        DatagramLoop {
            alloc,
            spare: Spare::new(alloc),
            sockets,
            taker,
            outside,
        }
    }

    /// Takes the room of a report's lines back for the next turn. The lines go.
    pub fn take_back(&mut self, lines: Vec<Line>)
        ensures { self.new ≡ record self.old { room = vec_capacity lines } }
    {
        self.spare.take_back(self.alloc, lines);
    }

    /// Room for the lines of a turn: so many.
    pub(crate) fn room(&mut self, most: usize) -> Result<Vec<Line>, AllocError>
        ensures blank { IfOk result (λ lines. (lines.items ≡ []) × (vec_len lines ≡ 0)) }
        ensures room { IfOk result (λ lines. most ≤ vec_capacity lines) }
        ensures same { self.new ≡ record self.old { room = self.new.room } }
    {
        let mut lines = self.spare.blank_lines(self.alloc);
        lines.reserve(most)?;
        Ok(lines)
    }

    /// Sends what came of the event of each line, in order, and reports whether a device failed.
    pub(crate) fn send_all(&mut self, roster: &Roster, lines: &mut [Line]) -> Option<DeviceFault>
        requires asked { AreAsked lines.old }
        ensures sent { AreSent roster.now.listed (hears self.old.there) lines.old lines.new }
        ensures taken { self.new.taken ≡ self.old.taken ++ packets roster.now.listed lines.new }
        ensures failed { IsTrue (any_by_device lines.new) → Rose self.old.failures self.new.failures }
        ensures device { (o : ℕ) → FirstFault result self.old.failures self.new.failures o o }
        ensures clear { result ≢ Some devices.Outside }
        ensures same { self.new ≡ record self.old { taken = self.new.taken; failures = self.new.failures } }
    {
        send_lines(&mut self.sockets, roster, lines)
    }

    /// Waits until a socket has a datagram, or somebody wakes it, or so many milliseconds have
    /// passed.
    pub fn wait(&mut self, at_most: u64) -> Result<(), WaitFailed>
        ensures { self.new ≡ self.old }
    {
        self.sockets.wait(at_most)
    }

    /// The event handler, when the loop has ended.
    pub fn into_taker(self) -> T
        ensures { (T.answered result ≡ self.answered) × (T.pairs result ≡ self.pairs) }
    {
        let DatagramLoop { taker, .. } = self;
        taker
    }
}
