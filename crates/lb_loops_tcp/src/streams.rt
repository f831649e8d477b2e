//! What the loop of streams holds.

ghost use Rattle.std.specs.Prelude.{[], None, length, vec_capacity, vec_len, ◌≡◌};

use crate::links::Links;
use lb_loops_connections::Connections;
use lb_loops_io::{Answering, Line, Outside, Posts, Service, Streams, Taker, WaitFailed};
use lb_outbox::Receiver;
use std::alloc::Global;
use std::marker::Model;
use std::mem;

/// What the loop of streams holds: its sockets and connections, the jobs that come to it, what
/// listens at each place of the listen lines, the HTTP requests that wait, its event handler, and
/// its source of moments and words. A contract sees what each of them tells.
#[derive(Drop)]
pub struct StreamLoop<S: Streams, T: Taker, O: Outside, P: Posts> {
    pub(crate) alloc: Global,
    pub(crate) links: Links<S>,
    pub(crate) receiver: Receiver,
    pub(crate) fronts: Vec<Service>,
    pub(crate) posts: P,
    pub(crate) taker: T,
    pub(crate) outside: O,
    /// Room for the lines of a report, which is kept from turn to turn.
    lines: Vec<Line>,
    ghost blank: { (lines.items ≡ []) × (vec_len lines ≡ 0) },
}

impl<S: Streams, T: Taker, O: Outside, P: Posts> Model for StreamLoop<S, T, O, P> {
    ghost use Rattle.lb_loops_tcp.specs.World.{World};

    ghost Value = { World };

    ghost use Rattle.lb_terms.specs.contracts.term.CheckedTerm as contract;
    ghost use Rattle.std.specs.Coded.{codes};

    ghost coded = { Prim.hlevel (codes, contract.the_row.coded) };

    ghost view = { λ l. record {
      net = l.links;
      jobs = l.receiver;
      fronts = l.fronts.items;
      handed = P.handed l.posts;
      answered = T.answered l.taker;
      pairs = T.pairs l.taker;
      said = O.said l.outside;
      outside = O.failures l.outside;
    } };
}

impl<S: Streams, T: Taker, O: Outside, P: Posts> StreamLoop<S, T, O, P> {
    /// A loop that had no turn, with sockets and the table of their connections, its receiver, and
    /// what it answers clients with. It takes no memory.
    pub fn made(
        alloc: Global,
        net: (S, Connections),
        receiver: Receiver,
        answering: Answering<P, T, O>,
    ) -> StreamLoop<S, T, O, P>
        ensures net { result.net ≡ record { told = S.told net.0; table = net.1; device = None } }
        ensures parts { (result.jobs ≡ receiver) × (result.fronts ≡ answering.fronts.items) × (result.handed ≡ P.handed answering.posts) }
        ensures taker { (result.answered ≡ T.answered answering.taker) × (result.pairs ≡ T.pairs answering.taker) }
        ensures outside { (result.said ≡ O.said answering.outside) × (result.outside ≡ O.failures answering.outside) }
    {
        let (sockets, table) = net;
        let Answering {
            fronts,
            posts,
            taker,
            outside,
        } = answering;
        let links = Links {
            sockets,
            table,
            device: None,
        };
        StreamLoop {
            alloc,
            links,
            receiver,
            fronts,
            posts,
            taker,
            outside,
            lines: Vec::new(alloc),
        }
    }

    /// Sets for how many milliseconds a client may send no message while none of its queries is
    /// pending: after that it is closed (RFC 7766 section 6.2.3). Without a limit none is closed.
    pub fn limit_idle(&mut self, idle: Option<u64>)
        ensures { self.new ≡ self.old }
    {
        self.links.table.limit_idle(idle);
    }

    /// Takes the room of a report's lines back for the next turn. The lines go.
    pub fn take_back(&mut self, mut lines: Vec<Line>)
        ensures { self.new ≡ self.old }
    {
        lines.clear();
        self.lines = lines;
    }

    /// The room for lines that is here.
    pub(crate) fn blank_lines(&mut self) -> Vec<Line>
        ensures blank { (result.items ≡ []) × (vec_len result ≡ 0) }
        ensures same { self.new ≡ self.old }
    {
        mem::replace(&mut self.lines, Vec::new(self.alloc))
    }

    /// Waits until a socket has something to do, or somebody wakes it, or so many milliseconds have
    /// passed.
    pub fn wait(&mut self, at_most: u64) -> Result<(), WaitFailed>
        ensures { self.new ≡ self.old }
    {
        self.links.sockets.wait(at_most)
    }

    /// Whether a moment is known at which the time of a connection may be over.
    pub fn is_timed(&self) -> bool {
        self.links.table.is_timed()
    }

    /// The sockets, for what they tell beside.
    pub fn sockets(&self) -> &S
        ensures { S.told result.now ≡ self.now.net.told }
    {
        &self.links.sockets
    }

    /// The event handler and the receiver, when the loop has ended.
    pub fn into_parts(self) -> (T, Receiver)
        ensures taker { (T.answered result.0 ≡ self.answered) × (T.pairs result.0 ≡ self.pairs) }
        ensures jobs { result.1 ≡ self.jobs }
    {
        let StreamLoop {
            taker,
            receiver,
            ..
        } = self;
        (taker, receiver)
    }
}
