//! What the loop of the clock holds.

ghost use Rattle.std.specs.Prelude.{[], IfErr, IfNone, IfOk, IfSome, None, OnErr, OnOk, Some, length, vec_len, ◌++◌, ◌∷◌, ◌≡◌, ◌≤◌};
ghost use Rattle.lb_loops_clock.specs.Lines.{job_again as job_again_spec, unsent as unsent_spec};
ghost use Rattle.lb_loops_clock.specs.World.{SentAgain, listened};
ghost use Rattle.lb_loops_probes.specs.Probes.{Each, IsQuietFor};

use crate::sending::{job_again, unsent};
use lb_loops_io::{
    Answering, Datagrams, Line, MAX_EVENTS_OF_TURN, Outside, Posts, Roster, Service, Taker,
    WaitFailed,
};
use lb_loops_probes::Probes;
use lb_outbox::{Job, Sender};
use std::alloc::Global;
use std::marker::Model;
use std::mem;
use std::sync::Wait;

/// What the loop of the clock holds: the sockets that its probes and its answers to datagrams go
/// by, the outbox, the HTTP requests that wait, what listens at each place of the listen lines, its
/// event handler, its source of moments and words, and the servers that it probes. A contract sees
/// what each of them tells.
#[derive(Drop)]
pub struct ClockLoop<S: Datagrams, P: Posts, T: Taker, O: Outside> {
    pub(crate) alloc: Global,
    pub(crate) probes: Probes,
    pub(crate) sockets: S,
    pub(crate) sender: Sender,
    pub(crate) fronts: Vec<Service>,
    pub(crate) posts: P,
    pub(crate) taker: T,
    pub(crate) outside: O,
    /// Room for the lines of a report, which is kept from turn to turn.
    lines: Vec<Line>,
    ghost blank: { (lines.items ≡ []) × (vec_len lines ≡ 0) },
}

impl<S: Datagrams, P: Posts, T: Taker, O: Outside> Model for ClockLoop<S, P, T, O> {
    ghost use Rattle.lb_loops_clock.specs.World.{World, listened};

    ghost Value = { World };

    ghost use Rattle.lb_terms.specs.contracts.term.CheckedTerm as contract;
    ghost use Rattle.std.specs.Coded.{codes};

    ghost coded = { Prim.hlevel (codes, contract.the_row.coded) };

    ghost view = { λ c. record {
      probes = c.probes;
      given = S.given c.sockets;
      taken = S.taken c.sockets;
      there = listened (S.listens c.sockets);
      failures = S.failures c.sockets;
      outbox = c.sender;
      fronts = c.fronts.items;
      handed = P.handed c.posts;
      answered = T.answered c.taker;
      pairs = T.pairs c.taker;
      said = O.said c.outside;
      outside = O.failures c.outside;
      reads = S.reads c.sockets;
    } };
}

impl<S: Datagrams, P: Posts, T: Taker, O: Outside> ClockLoop<S, P, T, O> {
    /// A loop that had no turn, with sockets and the servers that it probes, its sender, and what it
    /// answers clients with. It takes no memory.
    pub fn made(
        alloc: Global,
        probing: (S, Probes),
        sender: Sender,
        answering: Answering<P, T, O>,
    ) -> ClockLoop<S, P, T, O>
        ensures sockets { (result.given ≡ S.given probing.0) × (result.taken ≡ S.taken probing.0) × (result.there ≡ listened (S.listens probing.0)) }
        ensures counts { (result.failures ≡ S.failures probing.0) × (result.reads ≡ S.reads probing.0) }
        ensures probes { result.probes ≡ probing.1 }
        ensures parts { (result.outbox ≡ sender) × (result.fronts ≡ answering.fronts.items) × (result.handed ≡ P.handed answering.posts) }
        ensures taker { (result.answered ≡ T.answered answering.taker) × (result.pairs ≡ T.pairs answering.taker) }
        ensures outside { (result.said ≡ O.said answering.outside) × (result.outside ≡ O.failures answering.outside) }
    {
        let (sockets, probes) = probing;
        let Answering {
            fronts,
            posts,
            taker,
            outside,
        } = answering;
        ClockLoop {
            alloc,
            probes,
            sockets,
            sender,
            fronts,
            posts,
            taker,
            outside,
            lines: Vec::new(alloc),
        }
    }

    /// Takes the room of a report's lines back for the next turn. The lines go.
    pub fn take_back(&mut self, mut lines: Vec<Line>)
        ensures { self.new ≡ self.old }
    {
        lines.clear();
        self.lines = lines;
    }

    /// The room for lines that is here.
    pub(crate) fn blank_lines(&mut self) -> Vec<Line>
        ensures blank { (result.items ≡ []) × (vec_len result ≡ 0) }
        ensures same { self.new ≡ self.old }
    {
        mem::replace(&mut self.lines, Vec::new(self.alloc))
    }

    /// Sends the answer of a line itself to the loop of streams, if its query timed out and there
    /// was no memory for a copy. Its client would wait for ever otherwise. It takes no memory. A
    /// job that comes back found the outbox full.
    pub fn send_again<R: Wait>(&mut self, rt: &R, line: Line) -> Result<(), Job>
        ensures sent { OnOk result (SentAgain self.old self.new (job_again_spec self.old.fronts (unsent_spec line))) }
        ensures full { IfErr result (λ job. job_again_spec self.old.fronts (unsent_spec line) ≡ Some job) }
        ensures same { OnErr result (self.new ≡ self.old) }
    {
        match job_again(self.fronts.as_slice(), unsent(line)) {
            Some(job) => self.sender.send(rt, job),
            None => Ok(()),
        }
    }

    /// Whether the outbox has room for the expiries of a turn. Without it they would come back, and
    /// clients of streams would wait for ever.
    pub fn has_room<R: Wait>(&mut self, rt: &R) -> bool
        ensures same { self.new ≡ self.old }
    {
        self.sender.has_room(rt, MAX_EVENTS_OF_TURN)
    }

    /// Waits until a socket has a datagram, or somebody wakes it, or so many milliseconds have
    /// passed.
    pub fn wait(&mut self, at_most: u64) -> Result<(), WaitFailed>
        ensures { self.new ≡ self.old }
    {
        self.sockets.wait(at_most)
    }

    /// For how long from this moment on no probe is over and none is due, at most so many
    /// milliseconds.
    pub fn quiet_for(&self, roster: &Roster, now: u64, at_most: u64) -> u64
        ensures within { result ≤ at_most }
        ensures quiet { Each (IsQuietFor roster.now.listed now result) self.now.probes.watched }
    {
        self.probes.quiet_for(roster, now, at_most)
    }

    /// The event handler and the sender, when the loop has ended.
    pub fn into_parts(self) -> (T, Sender)
        ensures taker { (T.answered result.0 ≡ self.answered) × (T.pairs result.0 ≡ self.pairs) }
        ensures sender { result.1 ≡ self.outbox }
    {
        let ClockLoop { taker, sender, .. } = self;
        (taker, sender)
    }
}
