//! The connections of a loop, by their numbers.

ghost use Rattle.std.specs.Prelude.{[], IfErr, IfNone, IfOk, IfSome, IsTrue, None, Some, false, get_or, if◌then◌else◌, length, option_map, true, vec_len, ◌%◌, ◌++◌, ◌+◌, ◌<◌, ◌^◌, ◌∷◌, ◌≡◌, ◌≢◌, ◌≤◌, ◌⊎◌, ℕ};
ghost use Rattle.std.specs.List.{All};
ghost use Rattle.lb_loops_connections.specs.Writing.{IsOver, IsUrgent};
ghost use Rattle.lb_loops_connections.specs.Table.{IsGiven, IsNew, IsTo, IsToSee, Narrows, at, at_place, client_count, clients, clients_in, is_none, vacant};

use crate::connection::Connection;
use http_server::Log;
use lb_loops_io::{Endpoint, MAX_CLIENTS, MAX_CONNECTIONS, Peer, Roster, SECOND};
use lb_wire::{Octets, ServerId};
use std::alloc::{AllocError, Global};
use std::collections::VecDeque;
use std::marker::Model;
use std::mem;

/// Idle clients are looked for at most once in so many milliseconds.
const IDLE_STEP: u64 = SECOND;

/// The connection that was last begun to a server, by one of its upstream sockets.
#[derive(Clone, Copy, Debug)]
pub struct Route {
    pub server: ServerId,
    pub lane: u8,
    pub number: u64,
}

/// Connections, each at the place that is its number modulo 4,096. A number is given once, so that
/// an answer to a connection that has ended never goes to another. A contract sees the connection
/// of each number.
#[derive(Drop)]
pub struct Connections {
    /// The last number that was given, 0 at first.
    pub(crate) last: u64,
    pub(crate) slots: Vec<Option<Connection>>,
    /// How many clients are connected.
    clients: usize,
    /// The connections for which memory was refused, which only proofs read.
    refusals: Log<u64, u64>,
    /// Connections that have a whole message, each in its turn.
    pub(crate) queue: VecDeque<u64>,
    /// Connections that are to be written at the end of the turn.
    pub(crate) touched: Vec<u64>,
    /// The connections to servers, by server and upstream socket.
    routes: Vec<Route>,
    /// No connection has to be closed before this moment, in milliseconds.
    pub(crate) due: u64,
    /// For how many milliseconds a client may send no message while none of its queries is pending,
    /// if that is limited.
    idle: Option<u64>,
    /// The version of the roster that the servers' connections were held against.
    version: Option<u64>,
    ghost wide: { vec_len slots ≡ 4096 },
    ghost counted: { clients ≡ clients_in slots.items },
    ghost given: { All (IsGiven last) slots.items },
}

impl Model for Connections {
    ghost use Rattle.std.specs.Prelude.{◌+◌};
    ghost use Rattle.lb_loops_connections.specs.Table.{Table, firsts};

    ghost Value = { Table };

    ghost view = { λ t. record { next = t.last + 1; slots = t.slots.items; refusals = firsts t.refusals.items } };
}

/// The place of a number.
pub(crate) fn place_of(number: u64) -> usize
    ensures { (result ≡ number % 4096) × (result < 4096) }
{
    (number % MAX_CONNECTIONS as u64) as usize
}

/// Whether the connection with this number stands at its place.
fn stands(slots: &Vec<Option<Connection>>, number: u64) -> bool
    requires { vec_len slots.now ≡ 4096 }
    ensures { result ≡ (if is_none (at_place number slots.now.items) then false else true) }
{
    match &slots[place_of(number)] {
        Some(connection) => connection.number == number,
        None => false,
    }
}

/// How many clients a connection has: one or none.
fn clients_of(connection: &Connection) -> usize
    ensures { result ≡ client_count connection.now }
{
    match connection.peer {
        Peer::Client(..) => 1,
        Peer::Server(..) => 0,
    }
}

/// Where the route to a server by one of its upstream sockets stands, or where it is to stand.
fn place_in(routes: &[Route], server: ServerId, lane: u8) -> Result<usize, usize>
    ensures found { IfOk result (λ at. at < length routes.now) }
    ensures none { IfErr result (λ at. at ≤ length routes.now) }
{
    routes.binary_search_by(|route| { route.server.0.cmp(&server.0).then(route.lane.cmp(&lane)) })
}

impl Connections {
    /// No connection, and places for 4,096. The one error is lack of memory.
    #[tactic(auto, using(crate::proofs::AtPlaces::new_is))]
    pub fn made(alloc: Global) -> Result<Connections, AllocError>
        ensures { IfOk result IsNew }
    {
        let mut slots = Vec::with_capacity(alloc, MAX_CONNECTIONS)?;
        for _ in 0..MAX_CONNECTIONS {
            slots.push_reserved(None);
        }
        Ok(Connections {
            last: 0,
            slots,
            clients: 0,
            refusals: Log::new(),
            queue: VecDeque::new(alloc),
            touched: Vec::new(alloc),
            routes: Vec::new(alloc),
            due: u64::MAX,
            idle: None,
            version: None,
        })
    }

    /// Takes out the connection with this number.
    #[tactic(auto, using(crate::proofs::AtPlaces::taken_others, crate::proofs::AtPlaces::taken_is, crate::proofs::AtPlaces::counted_out, crate::proofs::AtPlaces::given_out))]
    pub fn take(&mut self, number: u64) -> Option<Connection>
        ensures here { at number self.old ≡ result }
        ensures number { IfSome result (λ x. (x.number ≡ number) × (number < self.new.next)) }
        ensures gone { at number self.new ≡ None }
        ensures others { (c : ℕ) → c ≢ number → at c self.new ≡ at c self.old }
        ensures vacant { IfSome result (λ _. vacant number self.new ≡ true) }
        ensures clients { IfSome result (λ x. clients self.new + client_count x ≡ clients self.old) }
        ensures none { IfNone result (self.new ≡ self.old) }
        ensures same { (self.new.next ≡ self.old.next) × (self.new.refusals ≡ self.old.refusals) }
    {
        if number > self.last {
            return None;
        }
        if !stands(&self.slots, number) {
            return None;
        }
        let place = place_of(number);
        let taken = self.slots[place].take();
        if let Some(connection) = &taken {
            self.clients -= clients_of(connection);
        }
        taken
    }

    /// Puts back a connection that was taken out.
    #[tactic(auto, using(crate::proofs::AtPlaces::put_others, crate::proofs::AtPlaces::put_here, crate::proofs::AtPlaces::counted_in, crate::proofs::AtPlaces::given_in))]
    pub fn put(&mut self, connection: Connection)
        requires vacant { vacant connection.number self.old ≡ true }
        requires below { connection.number < self.old.next }
        ensures here { at connection.number self.new ≡ Some connection }
        ensures others { (c : ℕ) → c ≢ connection.number → at c self.new ≡ at c self.old }
        ensures clients { clients self.new ≡ clients self.old + client_count connection }
        ensures same { (self.new.next ≡ self.old.next) × (self.new.refusals ≡ self.old.refusals) }
    {
        let place = place_of(connection.number);
        self.clients += clients_of(&connection);
        self.slots[place] = Some(connection);
    }

    /// Finds a number that no connection had, and passes over those whose place is taken.
    #[tactic(auto, using(crate::proofs::AtPlaces::narrows_none, crate::proofs::AtPlaces::passed_over))]
    pub fn candidate(&mut self) -> Option<u64>
        ensures found { IfSome result (λ n. (n ≡ self.new.next) × (n < 2 ^ 64) × (vacant n self.new ≡ true)) }
        ensures none { IfNone result ((self.old.next + 4096 ≤ self.new.next) ⊎ (2 ^ 64 ≤ self.new.next)) }
        ensures narrows { Narrows self.old self.new }
    {
        for _ in 0..MAX_CONNECTIONS {
            if self.last == u64::MAX {
                return None;
            }
            if self.slots[place_of(self.last + 1)].is_none() {
                return Some(self.last + 1);
            }
            self.last += 1;
        }
        None
    }

    /// Adds a connection with the next number.
    #[tactic(auto, using(crate::proofs::AtPlaces::added_others, crate::proofs::AtPlaces::added_here, crate::proofs::AtPlaces::counted_in, crate::proofs::AtPlaces::given_later))]
    pub fn add(&mut self, connection: Connection)
        requires number { connection.number ≡ self.old.next }
        requires vacant { vacant connection.number self.old ≡ true }
        requires below { connection.number < 2 ^ 64 }
        ensures here { at connection.number self.new ≡ Some connection }
        ensures others { (c : ℕ) → c ≢ connection.number → at c self.new ≡ at c self.old }
        ensures clients { clients self.new ≡ clients self.old + client_count connection }
        ensures next { self.new.next ≡ self.old.next + 1 }
        ensures same { self.new.refusals ≡ self.old.refusals }
    {
        let place = place_of(connection.number);
        self.last += 1;
        self.clients += clients_of(&connection);
        self.due = self.due.min(connection.closes_at());
        self.slots[place] = Some(connection);
    }

    /// Sets for how many milliseconds a client may send no message while none of its queries is
    /// pending, if that is to be limited.
    pub fn limit_idle(&mut self, idle: Option<u64>)
        ensures same { self.new ≡ self.old }
    {
        self.idle = idle;
    }

    /// The end of the idle time of a client that came now, or of which a whole message came now:
    /// rounded up to a second.
    pub fn idle_after(&self, now: u64) -> Option<u64> {
        let until = now.saturating_add(self.idle?);
        Some(until.saturating_add(IDLE_STEP - 1) / IDLE_STEP * IDLE_STEP)
    }

    /// Notes that memory was refused for a connection, of which the refusal is in hand.
    pub fn lacks(&mut self, number: u64, _refused: AllocError)
        ensures { self.new ≡ record self.old { refusals = self.old.refusals ++ number ∷ [] } }
    {
        self.refusals = self.refusals.and(&number, &0);
    }

    /// Who is at the other end of a connection.
    pub fn peer_of(&self, number: u64) -> Option<Peer>
        ensures { result ≡ option_map (λ (x : Connection). x.peer) (at number self.now) }
    {
        if number > self.last {
            return None;
        }
        match &self.slots[place_of(number)] {
            Some(connection) if connection.number == number => Some(connection.peer),
            _ => None,
        }
    }

    /// The connection that was last begun to a server at this end, by one of its upstream sockets,
    /// if it is open.
    pub fn route(&self, server: ServerId, lane: u8, end: Endpoint) -> Option<u64>
        ensures { IfSome result (λ n. IsTo n server lane end self.now) }
    {
        let Ok(at) = place_in(self.routes.as_slice(), server, lane) else {
            return None;
        };
        let number = self.routes[at].number;
        match self.peer_of(number) {
            Some(peer) if peer == Peer::Server(server, lane, end) => Some(number),
            _ => None,
        }
    }

    /// Notes a connection to a server, in place of an earlier one. The one error is lack of memory.
    pub fn note(&mut self, route: Route) -> Result<(), AllocError>
        ensures same { self.new ≡ self.old }
    {
        match place_in(self.routes.as_slice(), route.server, route.lane) {
            Ok(at) => {
                self.routes[at] = route;
                Ok(())
            }
            Err(at) => Ok(self.routes.insert(at, route)?),
        }
    }

    /// Whether as many clients are connected as may be.
    pub fn is_full(&self) -> bool
        ensures full { IsTrue result → 1024 ≤ clients self.now }
        ensures room { result ≡ false → clients self.now < 1024 }
    {
        self.clients >= MAX_CLIENTS
    }

    /// The open connection of a number.
    fn open(&self, number: u64) -> Option<&Connection>
        ensures { option_map (λ x. x.now) result ≡ at number self.now }
    {
        if number > self.last {
            return None;
        }
        match &self.slots[place_of(number)] {
            Some(connection) if connection.number == number => Some(connection),
            _ => None,
        }
    }

    /// Whether with this message more octets would wait to be written to a connection than may.
    pub fn is_over(&self, number: u64, message: &Octets) -> bool
        ensures over { IsTrue result → IsOver message.now (at number self.now) }
        ensures within { result ≡ false → IsOver message.now (at number self.now) → ⊥ }
    {
        match self.open(number) {
            Some(connection) => connection.is_over(message),
            None => false,
        }
    }

    /// Whether a connection is written before the turn ends: much waits to be written to it, or
    /// there was no memory to note that it is to be written.
    pub fn is_urgent(&self, number: u64) -> bool
        ensures urgent { IsTrue result → IsUrgent (at number self.now) }
        ensures waits { result ≡ false → IsUrgent (at number self.now) → ⊥ }
    {
        match self.open(number) {
            Some(connection) => connection.is_heavy() || !connection.is_touched,
            None => false,
        }
    }

    /// Whether nothing is to be done for a connection but to wait: it is not at its end, and was
    /// not passed over.
    pub fn is_settled(&self, number: u64) -> bool
        ensures settled { IsTrue result → IsToSee (at number self.now) → ⊥ }
        ensures unsettled { result ≡ false → IsToSee (at number self.now) }
    {
        match self.open(number) {
            Some(connection) => !connection.is_passed_over && !connection.is_finished(),
            None => true,
        }
    }

    /// The connection whose turn it is.
    pub fn first_queued(&self) -> Option<u64> {
        self.queue.front().copied()
    }

    /// The connection whose turn it is has had it.
    pub fn drop_queued(&mut self)
        ensures same { self.new ≡ self.old }
    {
        let _ = self.queue.pop_front();
    }

    /// A connection that is to be written at the end of the turn.
    pub fn next_touched(&mut self) -> Option<u64>
        ensures same { self.new ≡ self.old }
    {
        self.touched.pop()
    }

    /// Connections are looked through at this moment, or before.
    pub fn look_by(&mut self, moment: u64)
        ensures same { self.new ≡ self.old }
    {
        self.due = self.due.min(moment);
    }

    /// Connections are looked through when the time of this one is over, or within a second if it
    /// is over and it can't be closed yet.
    pub fn look_again(&mut self, connection: &Connection, now: u64)
        ensures same { self.new ≡ self.old }
    {
        let moment = connection.closes_at();
        if moment <= now {
            self.look_by(now.saturating_add(IDLE_STEP));
        } else {
            self.look_by(moment);
        }
    }

    /// Whether the time of a connection may be over at this moment; where it may, none is known of
    /// any more.
    pub fn is_due(&mut self, now: u64) -> bool
        ensures same { self.new ≡ self.old }
    {
        if now < self.due {
            return false;
        }
        self.due = u64::MAX;
        true
    }

    /// Whether a moment is known at which the time of a connection may be over.
    pub fn is_timed(&self) -> bool {
        self.due < u64::MAX
    }

    /// Whether the servers' connections were held against another version of the roster than this
    /// one, against which they are held now. If so, the routes to servers that it has no more are
    /// forgotten.
    pub fn is_behind(&mut self, roster: &Roster) -> bool
        ensures same { self.new ≡ self.old }
    {
        let version = Some(roster.version());
        if mem::replace(&mut self.version, version) == version {
            return false;
        }
        self.routes
            .retain(|route| roster.get(route.server).is_some());
        true
    }

    /// How many connections are to be written at the end of the turn.
    pub fn touched(&self) -> usize {
        self.touched.len()
    }

    /// The number of the connection at a place, if one stands there.
    pub fn number_at(&self, place: usize) -> Option<u64>
        requires { place < 4096 }
        ensures { result ≡ option_map (λ (x : Connection). x.number) (get_or self.now.slots place None) }
    {
        match &self.slots[place] {
            Some(connection) => Some(connection.number),
            None => None,
        }
    }
}
