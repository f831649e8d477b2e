//! One connection.

ghost use Rattle.std.specs.Prelude.{[], IfSome, IsTrue, List, None, OnErr, OnOk, Some, drop, false, length, true, ℕ, ◌++◌, ◌+◌, ◌<◌, ◌^◌, ◌≡◌, ◌≤◌};
ghost use Rattle.lb_loops_connections.specs.Table.{IsDone, IsIdle, IsOverdue, MayEnd, Queues, SameToPeer, Touches, closes_at, followed, follows_until, is_client, is_left, owed_with, owed_without};
ghost use Rattle.lb_loops_frames.specs.Frames.{NoneWhole, framed};
ghost use Rattle.lb_wire.specs.Octets.{max_message};

use lb_core::MAX_TIMEOUT;
use lb_loops_frames::{Incoming, LENGTH, Outgoing};
use lb_loops_io::{KEPT_AFTER_QUERY, Peer, Roster};
use lb_wire::Octets;
use std::alloc::{AllocError, Global};
use std::collections::VecDeque;

/// The most octets that may wait to be written to a connection.
const MOST_WAITING: usize = 1_048_576;

/// If more octets than these wait, they are written at once, and nothing more is read of a client.
const MANY_WAITING: usize = 65_536;

/// How long the connection to a server is read on when the server has left the roster, or its end
/// there, in milliseconds: as long as a query may wait for its reply.
const READ_ON: u64 = MAX_TIMEOUT as u64;

/// One connection: what came and was not taken yet, and what is to be written.
#[derive(Drop)]
pub struct Connection {
    pub number: u64,
    pub peer: Peer,
    pub incoming: Incoming,
    pub outgoing: Outgoing,
    /// Of a client: how many of its queries were sent on and are not answered. Of a server: how
    /// many more messages were put on it than were taken of it.
    pub owed: u64,
    /// Whether its peer has closed its side.
    pub is_ended: bool,
    /// The moment at which it is closed at the latest, in milliseconds.
    pub until: Option<u64>,
    /// Whether it stands in the queue of those that have a whole message.
    pub is_queued: bool,
    /// Whether it is to be written at the end of the turn.
    pub is_touched: bool,
    /// Whether it was told that it may be read, and was not read.
    pub is_passed_over: bool,
}

/// Whether a peer is a client.
fn is_client(peer: Peer) -> bool
    ensures { result ≡ is_client peer }
{
    match peer {
        Peer::Client(..) => true,
        Peer::Server(..) => false,
    }
}

impl Connection {
    /// A new one. A client of which no message comes is kept until this moment, if one is given. It
    /// takes no memory.
    pub fn new(alloc: Global, number: u64, peer: Peer, until: Option<u64>) -> Connection
        ensures who { (result.number ≡ number) × (result.peer ≡ peer) }
        ensures empty { (result.incoming ≡ []) × (result.outgoing ≡ []) }
        ensures asks { (result.is_ended ≡ false) × (result.until ≡ until) }
    {
        Connection {
            number,
            peer,
            incoming: Incoming::new(alloc),
            outgoing: Outgoing::new(alloc),
            owed: 0,
            is_ended: false,
            until,
            is_queued: false,
            is_touched: false,
            is_passed_over: false,
        }
    }

    /// Whether a whole message of it waits.
    pub(crate) fn has_message(&self) -> bool
        ensures whole { IsTrue result → (message : List ℕ) × (rest : List ℕ) × (length message < 2 ^ 16) × (self.now.incoming ≡ framed message ++ rest) }
        ensures none { result ≡ false → NoneWhole self.now.incoming }
    {
        self.incoming.has_message()
    }

    /// Whether it may be read: no whole message of it waits, and it is a server's or not too much
    /// is to be written to it. What waits to be written holds back a client alone: a server that
    /// writes a reply before it reads on would else wait for us for ever, and every query to it
    /// with it.
    pub fn may_be_read(&self) -> bool
        ensures may { IsTrue result → NoneWhole self.now.incoming × (is_client self.now.peer ≡ true → length self.now.outgoing ≤ 65536) }
        ensures may_not { result ≡ false → NoneWhole self.now.incoming → (is_client self.now.peer ≡ true) × (65536 < length self.now.outgoing) }
    {
        !self.incoming.has_message() && !(is_client(self.peer) && self.is_heavy())
    }

    /// Whether so much waits to be written that it is written before the turn ends.
    pub(crate) fn is_heavy(&self) -> bool
        ensures heavy { IsTrue result → 65536 < length self.now.outgoing }
        ensures light { result ≡ false → length self.now.outgoing ≤ 65536 }
    {
        self.outgoing.len() > MANY_WAITING
    }

    /// Whether with this message more octets would wait than may.
    pub(crate) fn is_over(&self, message: &Octets) -> bool
        ensures over { IsTrue result → 1048576 < length self.now.outgoing + length (framed message.now) }
        ensures within { result ≡ false → length self.now.outgoing + length (framed message.now) ≤ 1048576 }
    {
        self.outgoing.len() > MOST_WAITING - LENGTH - message.as_slice().len()
    }

    /// Whether its peer has closed its side, nothing is left to be answered, and all was written.
    pub fn is_finished(&self) -> bool
        ensures done { IsTrue result → IsDone self.now }
        ensures found { IsDone self.now → IsTrue result }
    {
        self.is_ended && self.is_idle()
    }

    /// Whether nothing is left to be answered, and all was written.
    fn is_idle(&self) -> bool
        ensures idle { IsTrue result → IsIdle self.now }
        ensures found { IsIdle self.now → IsTrue result }
    {
        self.owed == 0 && self.outgoing.len() == 0 && !self.incoming.has_message()
    }

    /// Whether it may be closed once its time is over: a client that has not closed its side only
    /// if it is idle.
    fn may_end(&self) -> bool
        ensures may { IsTrue result → MayEnd self.now }
        ensures found { MayEnd self.now → IsTrue result }
    {
        !is_client(self.peer) || self.is_ended || self.is_idle()
    }

    /// Keeps a client that has not closed its side until then, if there is such a limit.
    pub(crate) fn keep_until(&mut self, until: Option<u64>)
        ensures server { is_client self.old.peer ≡ false → self.new ≡ self.old }
        ensures none { until ≡ None → self.new ≡ self.old }
        ensures rest { self.new ≡ record self.old { until = self.new.until } }
    {
        if until.is_some() && is_client(self.peer) && !self.is_ended {
            self.until = until;
        }
    }

    /// Puts a message after what is to be written. A server owes one message more then. The one
    /// error is refused memory, and then nothing has changed.
    pub(crate) fn promise(&mut self, message: &Octets) -> Result<(), AllocError>
        ensures promised { OnOk result (self.new.outgoing ≡ self.old.outgoing ++ framed message.now) }
        ensures owed { OnOk result (self.new.owed ≡ owed_with self.old) }
        ensures same { OnErr result (self.new ≡ self.old) }
        ensures rest { self.new ≡ record self.old { outgoing = self.new.outgoing; owed = self.new.owed } }
    {
        self.outgoing.push_framed(message.as_slice())?;
        if !is_client(self.peer) {
            self.owed = self.owed.saturating_add(1);
        }
        Ok(())
    }

    /// Notes its number among those that are to be written at the end of the turn, where there is
    /// memory for that.
    pub(crate) fn touch(&mut self, touched: &mut Vec<u64>)
        ensures touches { Touches self.old self.new touched.old.items touched.new.items }
        ensures rest { self.new ≡ record self.old { is_touched = self.new.is_touched } }
    {
        if !self.is_touched {
            self.is_touched = touched.push(self.number).is_ok();
        }
    }

    /// Takes the whole message off the front of what came. It has had its turn in the queue, and a
    /// server owes one message less.
    pub(crate) fn drop_first(&mut self)
        requires { (message : List ℕ) × (rest : List ℕ) × (length message < 2 ^ 16) × (self.old.incoming ≡ framed message ++ rest) }
        ensures taken { (message : List ℕ) → (rest : List ℕ) → length message < 2 ^ 16 → self.old.incoming ≡ framed message ++ rest → self.new.incoming ≡ rest }
        ensures owed { self.new.owed ≡ owed_without self.old }
        ensures rest { self.new ≡ record self.old { incoming = self.new.incoming; owed = self.new.owed; is_queued = false } }
    {
        self.incoming.drop_first();
        self.is_queued = false;
        if !is_client(self.peer) {
            self.owed = self.owed.saturating_sub(1);
        }
    }

    /// Puts its number after those that wait for their turn, where it has a whole message and does
    /// not stand there yet. The one error is lack of memory.
    pub(crate) fn enqueue(&mut self, queue: &mut VecDeque<u64>) -> Result<(), AllocError>
        ensures queues { OnOk result (Queues self.old self.new queue.old.items queue.new.items) }
        ensures kept { OnErr result ((self.new ≡ self.old) × (queue.new.items ≡ queue.old.items)) }
        ensures rest { self.new ≡ record self.old { is_queued = self.new.is_queued } }
    {
        if self.is_queued || !self.incoming.has_message() {
            return Ok(());
        }
        queue.push_back(self.number)?;
        self.is_queued = true;
        Ok(())
    }

    /// Its peer has closed its side, at this moment. Returns the moment at which it is closed at the
    /// latest: a client is kept for its answers so long.
    pub fn end(&mut self, now: u64) -> u64
        ensures ended { self.new.is_ended ≡ true }
        ensures until { (self.new.until ≡ Some result) × (now ≤ result) }
        ensures all { self.new ≡ record self.old { is_ended = true; until = Some result } }
        ensures rest { (self.new.number ≡ self.old.number) × (self.new.peer ≡ self.old.peer) × (self.new.incoming ≡ self.old.incoming) × (self.new.outgoing ≡ self.old.outgoing) }
    {
        let until = now.saturating_add(KEPT_AFTER_QUERY);
        self.is_ended = true;
        self.until = Some(until);
        until
    }

    /// A server's connection that is not at the roster's end of the server is read on from this
    /// moment for a while, and then closed; one that is there is kept. Returns when it is closed,
    /// as `closes_at` does; 2^64-1 for a client's, which is left as it is.
    pub fn follow(&mut self, roster: &Roster, now: u64) -> u64
        ensures until { self.new ≡ record self.old { until = followed roster.now.listed now self.old } }
        ensures when { result ≡ follows_until self.new }
        ensures rest { SameToPeer self.old self.new }
    {
        let Peer::Server(server, _, end) = self.peer else {
            return u64::MAX;
        };
        let stands = match roster.get(server) {
            Some(place) => place.at.is(end),
            None => false,
        };
        self.until = if stands {
            None
        } else {
            Some(self.until.unwrap_or(now.saturating_add(READ_ON)))
        };
        self.closes_at()
    }

    /// Whether it leads to a server that has left the roster, or its end there, and as many
    /// messages were taken of it as were put on it: nothing is awaited by it any more.
    fn is_left(&self) -> bool
        ensures { result ≡ is_left self.now }
    {
        self.until.is_some() && !is_client(self.peer) && self.owed == 0
    }

    /// The moment at which it is closed at the latest, in milliseconds: 0 if nothing is awaited by
    /// it, and 2^64-1 if none is set.
    pub fn closes_at(&self) -> u64
        ensures { result ≡ closes_at self.now }
    {
        if self.is_left() {
            return 0;
        }
        self.until.unwrap_or(u64::MAX)
    }

    /// Whether it is to be closed at this moment: its time is over and it may be closed then, or
    /// nothing is awaited by it.
    pub fn is_overdue(&self, now: u64) -> bool
        ensures over { IsTrue result → IsOverdue now self.now }
        ensures kept { result ≡ false → IsOverdue now self.now → ⊥ }
    {
        match self.until {
            Some(until) => (until <= now && self.may_end()) || self.is_left(),
            None => false,
        }
    }
}
