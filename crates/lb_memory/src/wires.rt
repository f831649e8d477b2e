//! What a test and sockets of streams in memory share.

ghost use Rattle.std.specs.Prelude.{◌≤◌};

use lb_loops_io::{Endpoint, Ready};
use lb_wire::Octets;
use std::alloc::{AllocError, Global};
use std::collections::VecDeque;

/// The greatest number of a connection that is kept.
const MOST: u64 = 65_535;

/// What comes on a connection.
#[derive(Debug, Drop)]
pub(crate) enum Coming {
    Piece(Octets),
    /// Its peer closes its side.
    End,
    /// The device fails.
    Failure,
}

/// One connection.
#[derive(Drop)]
struct Wire {
    coming: VecDeque<Coming>,
    taken: Vec<u8>,
    writes: u64,
    /// How many octets more it takes; all, where none is said.
    room: Option<usize>,
    is_open: bool,
    was_closed: bool,
    /// Whether its peer takes no more.
    is_gone: bool,
}

impl Wire {
    /// One that does not stand yet.
    fn new(alloc: Global) -> Wire {
        Wire {
            coming: VecDeque::new(alloc),
            taken: Vec::new(alloc),
            writes: 0,
            room: None,
            is_open: false,
            was_closed: false,
            is_gone: false,
        }
    }
}

/// What a test and sockets of streams in memory share: the clients that wait, and of each connection, by the number that the loop gives
/// it, what is to come, what it took, and how much it takes. Numbers go up to 65,535.
#[derive(Drop)]
pub struct Wires {
    alloc: Global,
    clients: VecDeque<(u8, Endpoint)>,
    wires: Vec<Wire>,
    ready: VecDeque<Ready>,
    dialed: Vec<(u64, Endpoint)>,
    last: u64,
    open: usize,
    turned_away: u64,
}

impl Wires {
    /// No client and no connection. It takes no memory.
    pub fn new(alloc: Global) -> Wires {
        Wires {
            alloc,
            clients: VecDeque::new(alloc),
            wires: Vec::new(alloc),
            ready: VecDeque::new(alloc),
            dialed: Vec::new(alloc),
            last: 0,
            open: 0,
            turned_away: 0,
        }
    }

    /// A client waits at the listener of this place.
    pub fn come(&mut self, listener: u8, from: Endpoint) -> Result<(), AllocError> {
        self.clients.push_back((listener, from))?;
        self.ready.push_back(Ready::Incoming)?;
        Ok(())
    }

    /// These octets come on the connection that has this number, or will have it.
    pub fn piece(&mut self, connection: u64, octets: Octets) -> Result<(), AllocError> {
        self.coming(connection, Coming::Piece(octets))
    }

    /// The peer of a connection closes its side, after what has come.
    pub fn end(&mut self, connection: u64) -> Result<(), AllocError> {
        self.coming(connection, Coming::End)
    }

    /// The device fails at a read of a connection, after what has come.
    pub fn fail(&mut self, connection: u64) -> Result<(), AllocError> {
        self.coming(connection, Coming::Failure)
    }

    /// The peer of a connection takes no more.
    pub fn leave(&mut self, connection: u64) -> Result<(), AllocError> {
        if let Some(wire) = self.made(connection)? {
            wire.is_gone = true;
        }
        Ok(())
    }

    /// A connection takes so many octets more, and then none.
    pub fn take_at_most(&mut self, connection: u64, octets: usize) -> Result<(), AllocError> {
        let Some(wire) = self.made(connection)? else {
            return Ok(());
        };
        wire.room = Some(octets);
        if wire.is_open {
            self.ready.push_back(Ready::Writable(connection))?;
        }
        Ok(())
    }

    /// All octets that a connection took.
    pub fn taken(&self, connection: u64) -> &[u8] {
        match self.get(connection) {
            Some(wire) => wire.taken.as_slice(),
            None => &[],
        }
    }

    /// How many writes of a connection took octets.
    pub fn writes(&self, connection: u64) -> u64 {
        match self.get(connection) {
            Some(wire) => wire.writes,
            None => 0,
        }
    }

    /// Whether a connection was accepted or dialled, and was not closed.
    pub fn is_open(&self, connection: u64) -> bool {
        match self.get(connection) {
            Some(wire) => wire.is_open,
            None => false,
        }
    }

    /// Whether a connection was closed.
    pub fn was_closed(&self, connection: u64) -> bool {
        match self.get(connection) {
            Some(wire) => wire.was_closed,
            None => false,
        }
    }

    /// How many connections are open.
    pub fn open(&self) -> usize {
        self.open
    }

    /// The greatest number that was given.
    pub fn last(&self) -> u64 {
        self.last
    }

    /// How many clients were taken in and closed at once.
    pub fn turned_away(&self) -> u64 {
        self.turned_away
    }

    /// Whom was dialled, with the connection's number, in order.
    pub fn dialed(&self) -> &[(u64, Endpoint)] {
        self.dialed.as_slice()
    }

    fn get(&self, connection: u64) -> Option<&Wire> {
        if connection > MOST {
            return None;
        }
        self.wires.get(connection as usize)
    }

    fn get_mut(&mut self, connection: u64) -> Option<&mut Wire> {
        if connection > MOST {
            return None;
        }
        self.wires.get_mut(connection as usize)
    }

    /// The connection with a number, which is made where it is not there. None where the number is too great.
    fn made(&mut self, connection: u64) -> Result<Option<&mut Wire>, AllocError> {
        if connection > MOST {
            return Ok(None);
        }
        for _ in self.wires.len()..=connection as usize {
            self.wires.push(Wire::new(self.alloc))?;
        }
        Ok(self.wires.get_mut(connection as usize))
    }

    /// Something comes on a connection. It is told where nothing else waits there.
    fn coming(&mut self, connection: u64, coming: Coming) -> Result<(), AllocError> {
        let Some(wire) = self.made(connection)? else {
            return Ok(());
        };
        let is_told = wire.is_open && wire.coming.is_empty();
        wire.coming.push_back(coming)?;
        if is_told {
            self.ready.push_back(Ready::Readable(connection))?;
        }
        Ok(())
    }

    /// The next thing to do.
    pub(crate) fn ready(&mut self) -> Ready {
        self.ready.pop_front().unwrap_or(Ready::Nothing)
    }

    /// Has it told that a connection may be read, where something waits there.
    pub(crate) fn resume(&mut self, connection: u64) {
        let waits = match self.get(connection) {
            Some(wire) => wire.is_open && !wire.coming.is_empty(),
            None => false,
        };
        if waits {
            let _ = self.ready.push_back(Ready::Readable(connection));
        }
    }

    /// The client that waits longest.
    pub(crate) fn client(&mut self) -> Option<(u8, Endpoint)> {
        self.clients.pop_front()
    }

    /// Whether a client waits.
    pub(crate) fn has_client(&self) -> bool {
        !self.clients.is_empty()
    }

    /// A client that waits was not taken in, and waits on.
    pub(crate) fn wait_on(&mut self) {
        let _ = self.ready.push_back(Ready::Incoming);
    }

    /// A client was taken in and closed at once.
    pub(crate) fn turn_away(&mut self) {
        self.turned_away = self.turned_away.saturating_add(1);
    }

    /// A connection stands. The one error is lack of memory.
    pub(crate) fn open_up(&mut self, connection: u64) -> Result<(), AllocError> {
        if let Some(wire) = self.made(connection)? {
            wire.is_open = true;
            self.open = self.open.saturating_add(1);
        }
        self.last = self.last.max(connection);
        self.resume(connection);
        Ok(())
    }

    /// A connection was dialled, and stands at once. The one error is lack of memory.
    pub(crate) fn dial(&mut self, connection: u64, to: Endpoint) -> Result<(), AllocError> {
        self.dialed.reserve(1)?;
        self.ready.reserve(2)?;
        self.open_up(connection)?;
        self.dialed.push((connection, to))?;
        self.ready.push_back(Ready::Writable(connection))?;
        Ok(())
    }

    /// A connection took nothing for lack of memory: it is told that it takes more, as it may have room by then.
    pub(crate) fn try_again(&mut self, connection: u64) {
        let _ = self.ready.push_back(Ready::Writable(connection));
    }

    /// What comes next on a connection. What is left there is told again.
    pub(crate) fn read(&mut self, connection: u64) -> Option<Coming> {
        let coming = self.get_mut(connection)?.coming.pop_front();
        self.resume(connection);
        coming
    }

    /// Whether the peer of a connection takes no more.
    pub(crate) fn is_gone(&self, connection: u64) -> bool {
        match self.get(connection) {
            Some(wire) => wire.is_gone,
            None => false,
        }
    }

    /// How many of so many octets a connection takes now.
    pub(crate) fn room_for(&self, connection: u64, octets: usize) -> usize
        ensures { result ≤ octets }
    {
        match self.get(connection) {
            Some(wire) => wire.room.unwrap_or(octets).min(octets),
            None => octets,
        }
    }

    /// A connection takes these octets. The one error is lack of memory, and then it has taken none.
    pub(crate) fn take(&mut self, connection: u64, octets: &[u8]) -> Result<(), AllocError> {
        let Some(wire) = self.get_mut(connection) else {
            return Ok(());
        };
        wire.taken.extend_from_slice(octets)?;
        if !octets.is_empty() {
            wire.writes = wire.writes.saturating_add(1);
        }
        if let Some(room) = wire.room {
            wire.room = Some(room.saturating_sub(octets.len()));
        }
        Ok(())
    }

    /// A connection is closed.
    pub(crate) fn close(&mut self, connection: u64) {
        let Some(wire) = self.get_mut(connection) else {
            return;
        };
        let was_open = wire.is_open;
        wire.is_open = false;
        wire.was_closed = wire.was_closed || was_open;
        wire.coming.clear();
        if was_open {
            self.open = self.open.saturating_sub(1);
        }
    }
}
