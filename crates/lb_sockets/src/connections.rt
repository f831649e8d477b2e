//! Stream connections by their numbers.

ghost use Rattle.std.specs.Prelude.{IfOk, length, ◌<◌, ◌≡◌, ◌≤◌};

use lb_loops_io::MAX_CONNECTIONS;
use lb_sends::Closing;
use lb_wire::{Addr, Octets};
use mio::event::Event;
use mio::net::TcpStream;
use std::alloc::{AllocError, Global};
use std::io;
use std::io::{ErrorKind, Write};

/// A client that left: its address, and why it was closed if it had not closed its side.
#[derive(Clone, Copy, Debug)]
pub(crate) struct Left {
    pub(crate) addr: Addr,
    pub(crate) why: Option<Closing>,
}

/// A connection.
#[derive(Drop)]
pub(crate) struct Connection {
    pub(crate) number: u64,
    /// The address of the client that opened it; none if it goes to a server.
    client: Option<Addr>,
    pub(crate) stream: TcpStream,
    /// Whether an event said that nothing comes after what waits to be read.
    pub(crate) is_read_closed: bool,
    /// Whether a read or a write said that the peer ended it, or that it failed.
    is_over: bool,
    /// Whether it is to be told that it may be written: it was not told so yet, or took less than
    /// it was given.
    awaits_room: bool,
}

impl Connection {
    /// One that was begun, by a client or to a server.
    pub(crate) fn new(number: u64, client: Option<Addr>, stream: TcpStream) -> Connection {
        Connection {
            number,
            client,
            stream,
            is_read_closed: false,
            is_over: false,
            awaits_room: true,
        }
    }

    /// Notes what an event says of reading; whether the connection may be read.
    pub(crate) fn notes_reading(&mut self, event: &Event) -> bool {
        let is_over = event.is_read_closed() || event.is_error();
        self.is_read_closed = self.is_read_closed || is_over;
        is_over || event.is_readable()
    }

    /// Notes what an event says of writing; whether it is to be told that the connection may be
    /// written.
    pub(crate) fn notes_writing(&mut self, event: &Event) -> bool {
        let may_be_written = event.is_writable() && self.awaits_room;
        if may_be_written {
            self.awaits_room = false;
        }
        may_be_written
    }

    /// Notes what a read gave.
    pub(crate) fn notes_read(&mut self, read: &io::Result<Option<Octets>>) {
        match read {
            Ok(Some(_)) => {}
            Ok(None) => self.is_over = true,
            Err(error) => self.notes_error(error),
        }
    }

    /// Notes an error, unless it is one that passes.
    fn notes_error(&mut self, error: &io::Error) {
        if !matches!(error.kind(), ErrorKind::WouldBlock | ErrorKind::Interrupted) {
            self.is_over = true;
        }
    }

    /// Why it is closed now, if its peer has not ended it and it has not failed: either it takes no
    /// octets, or nothing came.
    fn closing(&self) -> Option<Closing> {
        if self.is_over || self.is_read_closed {
            None
        } else if self.awaits_room {
            Some(Closing::Unread)
        } else {
            Some(Closing::Idle)
        }
    }

    /// Writes from the front of these octets; how many were taken. None is taken where the
    /// connection does not stand yet.
    pub(crate) fn write(&mut self, octets: &[u8]) -> io::Result<usize>
        ensures { IfOk result (λ n. n ≤ length octets.now) }
    {
        match self.stream.write(octets) {
            Ok(taken) => {
                self.awaits_room = taken < octets.len();
                Ok(taken)
            }
            Err(error) if is_full(&error) => {
                self.awaits_room = true;
                Ok(0)
            }
            Err(error) => {
                self.notes_error(&error);
                Err(error)
            }
        }
    }
}

/// Whether an error says that a connection takes no octets now; the system tells once it does.
fn is_full(error: &io::Error) -> bool {
    matches!(
        error.kind(),
        ErrorKind::WouldBlock | ErrorKind::NotConnected
    )
}

/// The place of a number.
pub(crate) fn place_of(number: u64) -> usize
    ensures { result < 4096 }
{
    (number % MAX_CONNECTIONS as u64) as usize
}

/// Connections, each at its place. A number is found only where it is that of the connection there.
#[derive(Drop)]
pub(crate) struct Connections {
    slots: Vec<Option<Connection>>,
}

impl Connections {
    /// None. Room for all is taken; the one error is lack of memory.
    pub(crate) fn made(alloc: Global) -> Result<Connections, AllocError> {
        let mut slots = Vec::with_capacity(alloc, MAX_CONNECTIONS)?;
        for _ in 0..MAX_CONNECTIONS {
            slots.push(None)?;
        }
        Ok(Connections { slots })
    }

    /// The connection with a number, if it is there.
    pub(crate) fn at(&mut self, number: u64) -> Option<&mut Connection> {
        match self.slots.get_mut(place_of(number)) {
            Some(Some(connection)) if connection.number == number => Some(connection),
            _ => None,
        }
    }

    /// The number of the connection at a place, if one is there.
    pub(crate) fn number_at(&self, place: usize) -> Option<u64> {
        match self.slots.get(place) {
            Some(Some(connection)) => Some(connection.number),
            _ => None,
        }
    }

    /// Puts a connection at its place.
    pub(crate) fn put(&mut self, connection: Connection) {
        if let Some(slot) = self.slots.get_mut(place_of(connection.number)) {
            *slot = Some(connection);
        }
    }

    /// Closes the connection with a number, if it is there. The client that left, if it was one's.
    pub(crate) fn close(&mut self, number: u64) -> Option<Left> {
        let connection = self.at(number)?;
        let (client, why) = (connection.client, connection.closing());
        if let Some(slot) = self.slots.get_mut(place_of(number)) {
            *slot = None;
        }
        client.map(|addr| Left { addr, why })
    }
}
