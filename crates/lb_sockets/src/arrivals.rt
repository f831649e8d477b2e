//! What there is to do at connections and listeners.

ghost use Rattle.std.specs.Prelude.{IfOk, length, vec_capacity, ◌≡◌, ◌≤◌};

use crate::addresses::socket_addr;
use crate::clients::Clients;
use crate::connections::{Connection, Connections, place_of};
use crate::fronts::{LISTENERS, TcpListeners};
use crate::pieces::{Intake, PIECE};
use crate::queue::Queue;
use crate::streams::Limits;
use crate::watch::Watch;
use lb_loops_io::{Endpoint, Ready};
use lb_sends::Sends;
use lb_wire::{Addr, Octets};
use mio::event::Event;
use mio::net::TcpStream;
use mio::{Events, Interest};
use std::alloc::{AllocError, Global};
use std::io;
use std::io::ErrorKind;
use std::net::Net;
use std::sync::Arc;

/// How long a wait is at most where clients wait that could not be taken in, in milliseconds.
const STARVED: u64 = 100;

/// The most octets that are written at one time.
pub(crate) const WRITTEN: usize = 65_536;

/// What there is to do, by turns.
#[derive(Clone, Copy)]
enum Turn {
    Writing,
    Incoming,
    Reading,
}

impl Turn {
    /// The one that is next.
    fn after(self) -> Turn {
        match self {
            Turn::Writing => Turn::Incoming,
            Turn::Incoming => Turn::Reading,
            Turn::Reading => Turn::Writing,
        }
    }
}

/// The connections, the listeners, and what events said of them: which connections may be read and
/// written, and whether clients wait.
#[derive(Drop)]
pub(crate) struct Arrivals {
    connections: Connections,
    clients: Clients,
    reading: Queue,
    writing: Queue,
    /// Whose turn is next.
    turn: Turn,
}

impl Arrivals {
    /// No connection, and these listeners; the limits say how many clients are connected at a time.
    /// The one error is refused memory.
    pub(crate) fn made(
        alloc: Global,
        listeners: TcpListeners,
        limits: Limits,
        sends: Arc<Sends>,
    ) -> Result<Arrivals, AllocError> {
        Ok(Arrivals {
            connections: Connections::made(alloc)?,
            clients: Clients::made(alloc, listeners, limits, sends)?,
            reading: Queue::made(alloc)?,
            writing: Queue::made(alloc)?,
            turn: Turn::Writing,
        })
    }

    /// Notes what events say.
    pub(crate) fn note_all(&mut self, events: &Events) {
        for event in events {
            self.note(event);
        }
    }

    /// Notes what an event says.
    fn note(&mut self, event: &Event) {
        let token = event.token().0;
        if token == LISTENERS {
            self.clients.came();
            return;
        }
        let Some(connection) = self.connections.at(token as u64) else {
            return;
        };
        let place = place_of(connection.number);
        if connection.notes_reading(event) {
            self.reading.put(place);
        }
        if connection.notes_writing(event) {
            self.writing.put(place);
        }
    }

    /// How long to wait: not at all where there is something to do, and not long where clients wait
    /// that could not be taken in.
    pub(crate) fn patience(&self, at_most: u64) -> u64 {
        if self.reading.len() > 0 || self.writing.len() > 0 || self.clients.may_wait() {
            0
        } else if self.clients.is_starved() {
            at_most.min(STARVED)
        } else {
            at_most
        }
    }

    /// Has listeners tried again at which no client could be taken in.
    pub(crate) fn feed(&mut self) {
        self.clients.feed();
    }

    /// The next thing to do, by turns.
    pub(crate) fn next(&mut self) -> Ready {
        for _ in 0..3 {
            let turn = self.turn;
            self.turn = turn.after();
            if let Some(ready) = self.next_of(turn) {
                return ready;
            }
        }
        Ready::Nothing
    }

    /// The next thing to do of those whose turn it is.
    fn next_of(&mut self, turn: Turn) -> Option<Ready> {
        match turn {
            Turn::Writing => {
                let number = next_in(&mut self.writing, &self.connections)?;
                Some(Ready::Writable(number))
            }
            Turn::Incoming if self.clients.may_wait() => Some(Ready::Incoming),
            Turn::Incoming => None,
            Turn::Reading => {
                let number = next_in(&mut self.reading, &self.connections)?;
                Some(Ready::Readable(number))
            }
        }
    }

    /// Has it told once more that a connection may be read.
    pub(crate) fn resume(&mut self, number: u64) {
        if self.connections.at(number).is_some() {
            self.reading.put(place_of(number));
        }
    }

    /// Takes in the next client with this number: the place of its listener, and its end. If it
    /// gives none: none waits, none can be taken in now, or one was closed for its source.
    pub(crate) fn welcome(
        &mut self,
        watch: &Watch,
        number: u64,
    ) -> io::Result<Option<(u8, Endpoint)>> {
        let Some(client) = self.clients.admitted()? else {
            return Ok(None);
        };
        self.enter(watch, number, Some(client.from.addr), client.stream)?;
        self.clients.entered(client.from.addr);
        Ok(Some((client.front, client.from)))
    }

    /// The same, and its connection is closed at once.
    pub(crate) fn dismiss(&mut self) -> io::Result<Option<(u8, Endpoint)>> {
        match self.clients.next()? {
            Some(client) => {
                self.clients.turned_away();
                Ok(Some((client.front, client.from)))
            }
            None => Ok(None),
        }
    }

    /// Begins a connection to an end with this number.
    pub(crate) fn begin<N: Net>(
        &mut self,
        net: &N,
        watch: &Watch,
        number: u64,
        to: Endpoint,
    ) -> io::Result<()> {
        match TcpStream::connect(net, socket_addr(to)) {
            Ok(stream) => self.enter(watch, number, None, stream),
            Err(error) => {
                self.clients.lacks(&error);
                Err(error)
            }
        }
    }

    /// Puts a stream in with this number. What it is given to write goes out at once.
    fn enter(
        &mut self,
        watch: &Watch,
        number: u64,
        client: Option<Addr>,
        stream: TcpStream,
    ) -> io::Result<()> {
        let _ = stream.set_nodelay(true);
        let both = Interest::READABLE | Interest::WRITABLE;
        watch.add(&stream, number as usize, both)?;
        self.connections
            .put(Connection::new(number, client, stream));
        Ok(())
    }

    /// Reads a piece of a connection; none, where the peer has closed its side. One that is not
    /// there has nothing. Where the piece was not all that waits, the connection is told once more.
    pub(crate) fn read(&mut self, number: u64, intake: &mut Intake) -> io::Result<Option<Octets>>
        requires { 16384 ≤ vec_capacity intake.old.room }
    {
        let Some(connection) = self.connections.at(number) else {
            return Err(io::Error::from(ErrorKind::WouldBlock));
        };
        let read = intake.read(&mut connection.stream);
        connection.notes_read(&read);
        if may_have_more(&read, connection.is_read_closed) {
            self.reading.put(place_of(number));
        }
        read
    }

    /// Writes from the front of these octets, at most 65,536; how many were taken. One that is not
    /// there takes no more. Where the connection may take more at once, it is told.
    pub(crate) fn write(&mut self, number: u64, octets: &[u8]) -> io::Result<usize>
        ensures { IfOk result (λ n. (n ≤ length octets.now) × (n ≤ 65536)) }
    {
        let Some(connection) = self.connections.at(number) else {
            return Err(io::Error::from(ErrorKind::BrokenPipe));
        };
        let (front, behind) = octets.split_at(octets.len().min(WRITTEN));
        match connection.write(front) {
            Ok(taken) => {
                if taken == front.len() && !behind.is_empty() {
                    self.writing.put(place_of(number));
                }
                Ok(taken)
            }
            Err(error) if error.kind() == ErrorKind::Interrupted => {
                self.writing.put(place_of(number));
                Ok(0)
            }
            Err(error) => Err(error),
        }
    }

    /// Closes a connection. Its descriptor is free for a client that waits.
    pub(crate) fn close(&mut self, number: u64) {
        if let Some(left) = self.connections.close(number) {
            self.clients.left(left);
        }
        self.clients.feed();
    }
}

/// The number of the connection that waits longest. One that was closed is passed over.
fn next_in(queue: &mut Queue, connections: &Connections) -> Option<u64> {
    for _ in 0..queue.len() {
        let place = queue.next()?;
        if let Some(number) = connections.number_at(place) {
            return Some(number);
        }
    }
    None
}

/// Whether a read may have left something, of which no event tells: it filled the buffer, or the
/// end stands after it, or it was broken off.
fn may_have_more(read: &io::Result<Option<Octets>>, is_read_closed: bool) -> bool {
    match read {
        Ok(Some(octets)) => is_read_closed || octets.as_slice().len() == PIECE,
        Ok(None) => false,
        Err(error) => error.kind() == ErrorKind::Interrupted,
    }
}
