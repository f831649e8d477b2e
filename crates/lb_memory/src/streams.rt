//! Sockets of streams in memory.

ghost use Rattle.std.specs.Prelude.{[], IfOk, length, ◌+◌, ◌++◌, ◌∷◌, ◌≡◌};
ghost use Rattle.lb_loops_io.specs.Counts.{Fails};
ghost use Rattle.lb_memory.specs.Streams.{firsts};

use crate::datagrams::refuse;
use crate::wires::{Coming, Wires};
use http_server::Log;
use lb_loops_io::{Accepted, Endpoint, Read, Ready, Streams, WaitFailed, Why};
use lb_wire::Octets;
use std::alloc::{AllocError, Global};
use std::marker::Model;
use std::sync::{Arc, Mutex, Wait};

/// Which calls go wrong, each counted from 1; 0 is none.
#[derive(Clone, Copy, Debug, Default, PartialEq, Eq)]
pub struct StreamFailing {
    /// The read at which the device fails.
    pub read: u64,
    /// The write at which the device fails.
    pub write: u64,
    /// The accept at which the device fails.
    pub accept: u64,
    /// The dial at which the device fails.
    pub dial: u64,
    /// The read that is refused for lack of memory.
    pub refused: u64,
}

/// Octets that a connection took at one time.
#[derive(Debug, Drop)]
struct Taken {
    octets: Vec<u8>,
}

impl Model for Taken {
    ghost use Rattle.std.specs.Prelude.{List, ℕ};

    ghost Value = { List ℕ };

    ghost view = { λ t. t.octets.items };
}

impl Taken {
    /// No octets. It takes no memory.
    fn none(alloc: Global) -> Taken
        ensures { result ≡ [] }
    {
        Taken {
            octets: Vec::new(alloc),
        }
    }
}

/// How often each call was made.
#[derive(Clone, Copy, Debug, Default)]
struct Calls {
    reads: u64,
    writes: u64,
    accepts: u64,
    dials: u64,
}

/// Sockets of streams in memory. What comes and what is taken lies behind a lock, where a test has more come and reads what was taken
/// while a loop owns the sockets.
#[derive(Drop)]
pub struct MemoryStreams<'a, R: Wait> {
    rt: &'a R,
    alloc: Global,
    wires: Arc<Mutex<Wires>>,
    failing: StreamFailing,
    calls: Calls,
    failures: u64,
    asked: Log<u64, u64>,
    given: Log<u64, Octets>,
    taken: Log<u64, Taken>,
    came: Log<u64, (u8, Endpoint)>,
    dialed: Log<u64, Endpoint>,
    ended: Log<u64, u64>,
    gone: Log<u64, u64>,
    failed: Log<u64, u64>,
    lacked: Log<u64, u64>,
    turned: Log<u8, Endpoint>,
}

impl<'a, R: Wait> MemoryStreams<'a, R> {
    /// Sockets over these wires.
    pub fn new(
        rt: &'a R,
        alloc: Global,
        wires: Arc<Mutex<Wires>>,
        failing: StreamFailing,
    ) -> MemoryStreams<'a, R> {
        MemoryStreams {
            rt,
            alloc,
            wires,
            failing,
            calls: Calls::default(),
            failures: 0,
            asked: Log::new(),
            given: Log::new(),
            taken: Log::new(),
            came: Log::new(),
            dialed: Log::new(),
            ended: Log::new(),
            gone: Log::new(),
            failed: Log::new(),
            lacked: Log::new(),
            turned: Log::new(),
        }
    }

    /// A client that waits is asked for, to be a connection with this number.
    fn asks(&mut self, connection: u64)
        ensures asked { length self.new.asked.items ≡ length self.old.asked.items + 1 }
        ensures same { self.new ≡ record self.old { asked = self.new.asked } }
    {
        self.asked = self.asked.and(&connection, &0);
    }

    /// A device failed, at no connection.
    fn fails(&mut self)
        ensures counted { Fails self.old.failures self.new.failures }
        ensures same { self.new ≡ record self.old { failures = self.new.failures } }
    {
        self.failures = self.failures.saturating_add(1);
    }

    /// A device failed when this connection was read or written.
    fn fails_at(&mut self, connection: u64)
        ensures counted { Fails self.old.failures self.new.failures }
        ensures told { firsts self.new.failed.items ≡ firsts self.old.failed.items ++ connection ∷ [] }
        ensures same { self.new ≡ record self.old { failures = self.new.failures; failed = self.new.failed } }
    {
        self.failures = self.failures.saturating_add(1);
        self.failed = self.failed.and(&connection, &0);
    }

    /// How often a device failed.
    pub fn failures(&self) -> u64
        ensures { result ≡ self.now.failures }
    {
        self.failures
    }
}

/// These octets are taken, and copied for what is told. The one error is lack of memory, and then none is taken.
fn copied(
    alloc: Global,
    wires: &mut Wires,
    connection: u64,
    octets: &[u8],
) -> Result<Taken, AllocError>
    ensures { IfOk result (λ taken. taken ≡ octets.now) }
{
    let copy = Vec::from_slice(alloc, octets)?;
    wires.take(connection, octets)?;
    Ok(Taken { octets: copy })
}

impl<R: Wait> Streams for MemoryStreams<'_, R> {
    ghost use Rattle.std.specs.Prelude.{length};
    ghost use Rattle.lb_memory.specs.Streams.{firsts};

    ghost told = { λ m. record {
      given = m.given.items;
      taken = m.taken.items;
      came = m.came.items;
      dialed = m.dialed.items;
      ended = firsts m.ended.items;
      gone = firsts m.gone.items;
      turned = length m.turned.items;
      failures = m.failures;
      reads = length m.asked.items;
      failed = firsts m.failed.items;
      lacked = firsts m.lacked.items;
    } };

    fn ready(&mut self) -> Ready {
        self.wires.lock(self.rt).ready()
    }

    fn resume(&mut self, connection: u64) {
        self.wires.lock(self.rt).resume(connection);
    }

    fn accept(&mut self, connection: u64) -> Result<Accepted, AllocError> {
        self.asks(connection);
        self.calls.accepts = self.calls.accepts.wrapping_add(1);
        if self.calls.accepts == self.failing.accept {
            self.fails();
            self.wires.lock(self.rt).wait_on();
            return Ok(Accepted::Failed);
        }
        let mut wires = self.wires.lock(self.rt);
        if !wires.has_client() {
            return Ok(Accepted::Nothing);
        }
        wires.open_up(connection)?;
        let Some((front, from)) = wires.client() else {
            return Ok(Accepted::Nothing);
        };
        self.came = self.came.and(&connection, &(front, from));
        Ok(Accepted::Client(front, from))
    }

    fn turn_away(&mut self) -> Accepted {
        self.asked = self.asked.and(&0, &0);
        let mut wires = self.wires.lock(self.rt);
        let Some((front, from)) = wires.client() else {
            return Accepted::Nothing;
        };
        wires.turn_away();
        self.turned = self.turned.and(&front, &from);
        Accepted::Client(front, from)
    }

    fn dial(&mut self, connection: u64, to: Endpoint) -> Result<(), Why> {
        self.calls.dials = self.calls.dials.wrapping_add(1);
        if self.calls.dials == self.failing.dial {
            self.failures = self.failures.saturating_add(1);
            return Err(Why::Device);
        }
        self.wires.lock(self.rt).dial(connection, to)?;
        self.dialed = self.dialed.and(&connection, &to);
        Ok(())
    }

    fn read_from(&mut self, connection: u64) -> Result<Read, AllocError> {
        self.asked = self.asked.and(&connection, &0);
        self.calls.reads = self.calls.reads.wrapping_add(1);
        if self.calls.reads == self.failing.refused
            && let Err(refused) = refuse(self.alloc)
        {
            self.lacked = self.lacked.and(&connection, &0);
            return Err(refused);
        }
        if self.calls.reads == self.failing.read {
            self.fails_at(connection);
            return Ok(Read::Failed);
        }
        let coming = self.wires.lock(self.rt).read(connection);
        match coming {
            Some(Coming::Piece(octets)) => {
                self.given = self.given.and(&connection, &octets);
                Ok(Read::Piece(octets))
            }
            Some(Coming::End) => {
                self.ended = self.ended.and(&connection, &0);
                Ok(Read::Ended)
            }
            Some(Coming::Failure) => {
                self.fails_at(connection);
                Ok(Read::Failed)
            }
            None => Ok(Read::Nothing),
        }
    }

    fn write_to(&mut self, connection: u64, octets: &[u8]) -> Result<usize, Why> {
        self.calls.writes = self.calls.writes.wrapping_add(1);
        if self.calls.writes == self.failing.write {
            self.fails_at(connection);
            return Err(Why::Device);
        }
        let mut wires = self.wires.lock(self.rt);
        if wires.is_gone(connection) {
            self.gone = self.gone.and(&connection, &0);
            return Err(Why::Gone);
        }
        let room = wires.room_for(connection, octets.len());
        let (front, _) = octets.split_at(room);
        let (written, taken) = match copied(self.alloc, &mut wires, connection, front) {
            Ok(taken) => (room, taken),
            // Where there is no room for a copy, none is taken, and it is written again.
            Err(_refused) => {
                wires.try_again(connection);
                (0, Taken::none(self.alloc))
            }
        };
        self.taken = self.taken.and(&connection, &taken);
        Ok(written)
    }

    fn close(&mut self, connection: u64) {
        self.wires.lock(self.rt).close(connection);
    }

    fn wait(&mut self, _at_most: u64) -> Result<(), WaitFailed> {
        Ok(())
    }
}
