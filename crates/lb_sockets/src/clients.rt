//! Clients that wait at listeners of streams.

use crate::addresses::endpoint_of;
use crate::connections::Left;
use crate::fronts::TcpListeners;
use crate::readiness::first_from;
use crate::sources::Sources;
use crate::streams::Limits;
use lb_loops_io::{Endpoint, MAX_CLIENTS};
use lb_sends::{Refusal, Sends};
use lb_wire::Addr;
use mio::net::TcpStream;
use std::alloc::{AllocError, Global};
use std::io;
use std::io::ErrorKind;
use std::sync::Arc;

/// The most listeners that are tried for one client.
const TRIES: u16 = 512;

/// The system has no descriptor left.
const ENFILE: i32 = 23;

/// The system has no room left for a socket.
const ENOBUFS: i32 = 105;

/// A client that was taken in: the place of its listener, its stream, and its end.
#[derive(Drop)]
pub(crate) struct Client {
    pub(crate) front: u8,
    pub(crate) stream: TcpStream,
    pub(crate) from: Endpoint,
}

/// The listeners of streams, with what is known of the clients that wait there.
#[derive(Drop)]
pub(crate) struct Clients {
    fronts: TcpListeners,
    /// Of each place whether clients may wait there.
    may_wait: Vec<bool>,
    /// The place that is tried next.
    next: usize,
    /// Whether the last try failed, so that none is made for a while: no descriptor was left, or a
    /// listener failed.
    is_starved: bool,
    /// How many more clients may be connected.
    room: usize,
    sources: Sources,
    /// Where clients are counted that come, leave or are closed, and descriptors that were lacking.
    sends: Arc<Sends>,
}

impl Clients {
    /// At these listeners, of which nothing is known yet. The limits say how many clients are
    /// connected at a time. The one error is refused memory.
    pub(crate) fn made(
        alloc: Global,
        fronts: TcpListeners,
        limits: Limits,
        sends: Arc<Sends>,
    ) -> Result<Clients, AllocError> {
        let may_wait = Vec::from_elem(alloc, false, fronts.listeners.len())?;
        sends.tcp().bound(limits.clients.min(MAX_CLIENTS) as u64);
        Ok(Clients {
            fronts,
            may_wait,
            next: 0,
            is_starved: false,
            room: limits.clients,
            sources: Sources::made(alloc, limits.of_source)?,
            sends,
        })
    }

    /// Notes that clients may wait at each listener.
    pub(crate) fn came(&mut self) {
        for may_wait in self.may_wait.iter_mut() {
            *may_wait = true;
        }
    }

    /// Whether listeners are not tried for a while.
    pub(crate) fn is_starved(&self) -> bool {
        self.is_starved
    }

    /// Has listeners tried again.
    pub(crate) fn feed(&mut self) {
        self.is_starved = false;
    }

    /// Notes that a client with this address is connected.
    pub(crate) fn entered(&mut self, addr: Addr) {
        self.room = self.room.saturating_sub(1);
        self.sources.entered(addr);
        self.sends.tcp().enter();
    }

    /// Notes that the connection of a client was closed.
    pub(crate) fn left(&mut self, left: Left) {
        self.room = self.room.saturating_add(1);
        self.sources.left(left.addr);
        self.sends.tcp().leave();
        if let Some(why) = left.why {
            self.sends.tcp().close(why);
        }
    }

    /// Notes that a client was closed at once as no place was left.
    pub(crate) fn turned_away(&self) {
        self.sends.tcp().refuse(Refusal::Full);
    }

    /// Notes an error of a connection that was to be begun, if descriptors were lacking.
    pub(crate) fn lacks(&self, error: &io::Error) {
        if is_want(error) {
            self.sends.lack_descriptor();
        }
    }

    /// Takes in the next client. One whose source has as many as it may have is closed at once:
    /// then it is none, and further ones may wait.
    pub(crate) fn admitted(&mut self) -> io::Result<Option<Client>> {
        match self.next()? {
            Some(client) if self.sources.may_enter(client.from.addr) => Ok(Some(client)),
            Some(_) => {
                self.sends.tcp().refuse(Refusal::Source);
                Ok(None)
            }
            None => Ok(None),
        }
    }

    /// Whether a client may wait and be taken in.
    pub(crate) fn may_wait(&self) -> bool {
        self.place().is_some()
    }

    /// The place that is to be tried next.
    fn place(&self) -> Option<usize> {
        if self.is_starved || self.room == 0 {
            return None;
        }
        first_from(&self.may_wait, self.next)
    }

    /// Takes in the next client, at one of the listeners in turn. None waits, or none can be taken
    /// in now, where it is none.
    pub(crate) fn next(&mut self) -> io::Result<Option<Client>> {
        for _ in 0..TRIES {
            let Some(place) = self.place() else {
                return Ok(None);
            };
            self.next = place.wrapping_add(1);
            match self.client_at(place) {
                Ok(client) => return Ok(Some(client)),
                Err(error) => self.pass_over(place, error)?,
            }
        }
        Ok(None)
    }

    /// Takes in a client at a place. Where there is no listener, none waits.
    fn client_at(&self, place: usize) -> io::Result<Client> {
        let Ok(front) = u8::try_from(place) else {
            return Err(io::Error::from(ErrorKind::WouldBlock));
        };
        let Some(Some(listener)) = self.fronts.listeners.get(place) else {
            return Err(io::Error::from(ErrorKind::WouldBlock));
        };
        let (stream, from) = listener.accept()?;
        Ok(Client {
            front,
            stream,
            from: endpoint_of(from),
        })
    }

    /// Notes why no client was taken in at a place: none waits there, one left while it waited, or
    /// descriptors were lacking. Another error is handed back.
    fn pass_over(&mut self, place: usize, error: io::Error) -> io::Result<()> {
        match error.kind() {
            ErrorKind::WouldBlock => self.dry(place),
            ErrorKind::ConnectionAborted | ErrorKind::Interrupted => {}
            _ => {
                self.is_starved = true;
                self.lacks(&error);
                if !is_want(&error) {
                    return Err(error);
                }
            }
        }
        Ok(())
    }

    /// No client waits at a place now.
    fn dry(&mut self, place: usize) {
        if let Some(may_wait) = self.may_wait.get_mut(place) {
            *may_wait = false;
        }
    }
}

/// Whether an error says that descriptors or room for one more socket were lacking, and not that a
/// device failed.
fn is_want(error: &io::Error) -> bool {
    match error.raw_os_error() {
        Some(code) => {
            code == libc::EMFILE || code == ENFILE || code == ENOBUFS || code == libc::ENOMEM
        }
        None => false,
    }
}
