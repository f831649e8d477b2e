//! What sockets of streams tell.

ghost use Rattle.std.specs.Prelude.{[], IfOk, length, ◌+◌, ◌++◌, ◌∷◌, ◌≡◌, ◌≤◌};
ghost use Rattle.lb_loops_io.specs.Moves.{Faulty, FaultyAt, read_once};
ghost use Rattle.lb_sockets.specs.Told.{nothing};

use http_server::Log;
use lb_loops_io::Endpoint;
use lb_wire::Octets;
use std::alloc::{AllocError, Global};
use std::marker::Model;

/// The most octets that are told as taken at one time.
const MOST: usize = 65_536;

/// Octets that a connection took at one time, with room for 65,536.
#[derive(Drop)]
struct Taken {
    octets: Vec<u8>,
}

impl Model for Taken {
    ghost use Rattle.std.specs.Prelude.{List, vec_capacity, ℕ, ◌≤◌};

    ghost Value = { List ℕ };

    ghost view = { λ t. t.octets.items };

    ghost invariant = { λ t. 65536 ≤ vec_capacity t.octets };
}

impl Taken {
    /// None, with room for all. The one error is lack of memory.
    fn made(alloc: Global) -> Result<Taken, AllocError> {
        Ok(Taken {
            octets: Vec::with_capacity(alloc, MOST)?,
        })
    }

    /// Holds these octets in place of the earlier ones.
    fn hold(&mut self, octets: &[u8])
        requires { length octets.now ≤ 65536 }
        ensures { self.new ≡ octets.now }
    {
        self.octets.clear();
        let Ok(()) = self.octets.extend_from_slice(octets) else {
            unreachable!();
        };
    }
}

/// What sockets of streams gave and took, and what else they tell.
#[derive(Drop)]
pub(crate) struct Told {
    last: Taken,
    failures: u64,
    asked: Log<u64, u64>,
    given: Log<u64, Octets>,
    taken: Log<u64, Taken>,
    came: Log<u64, (u8, Endpoint)>,
    dialed: Log<u64, Endpoint>,
    ended: Log<u64, u64>,
    gone: Log<u64, u64>,
    failed: Log<u64, u64>,
    lacked: Log<u64, u64>,
    turned: Log<u8, Endpoint>,
}

impl Model for Told {
    ghost use Rattle.std.specs.Prelude.{length};
    ghost use Rattle.lb_loops_io.specs.Moves.{Traffic};
    ghost use Rattle.lb_sockets.specs.Told.{firsts};

    ghost Value = { Traffic };

    ghost view = { λ t. record {
      given = t.given.items;
      taken = t.taken.items;
      came = t.came.items;
      dialed = t.dialed.items;
      ended = firsts t.ended.items;
      gone = firsts t.gone.items;
      turned = length t.turned.items;
      failures = t.failures;
      reads = length t.asked.items;
      failed = firsts t.failed.items;
      lacked = firsts t.lacked.items;
    } };
}

impl Told {
    /// Nothing yet. The one error is lack of memory.
    pub(crate) fn made(alloc: Global) -> Result<Told, AllocError>
        ensures { IfOk result (λ told. told ≡ nothing) }
    {
        Ok(Told {
            last: Taken::made(alloc)?,
            failures: 0,
            asked: Log::new(),
            given: Log::new(),
            taken: Log::new(),
            came: Log::new(),
            dialed: Log::new(),
            ended: Log::new(),
            gone: Log::new(),
            failed: Log::new(),
            lacked: Log::new(),
            turned: Log::new(),
        })
    }

    /// How often a device failed (up to 2^64-1, where the count stays).
    pub(crate) fn failures(&self) -> u64
        ensures { result ≡ self.now.failures }
    {
        self.failures
    }

    /// A device failed.
    pub(crate) fn failed(&mut self)
        ensures { Faulty self.old self.new }
    {
        self.failures = self.failures.saturating_add(1);
    }

    /// A device failed when this connection was read or written.
    pub(crate) fn failed_at(&mut self, connection: u64)
        ensures { FaultyAt connection self.old self.new }
    {
        self.failed();
        self.failed = self.failed.and(&connection, &0);
    }

    /// Room was refused for a piece of this connection.
    pub(crate) fn lacked(&mut self, connection: u64)
        ensures { self.new ≡ record self.old { lacked = self.old.lacked ++ connection ∷ [] } }
    {
        self.lacked = self.lacked.and(&connection, &0);
    }

    /// A connection is read, or a client that waits is asked for.
    pub(crate) fn asked(&mut self)
        ensures { self.new ≡ read_once self.old }
    {
        self.asked = self.asked.and(&0, &0);
    }

    /// A connection gave these octets.
    pub(crate) fn gave(&mut self, connection: u64, octets: &Octets)
        ensures { self.new ≡ record self.old { given = self.old.given ++ (connection, octets.now) ∷ [] } }
    {
        self.given = self.given.and(&connection, octets);
    }

    /// A connection took these octets.
    pub(crate) fn took(&mut self, connection: u64, octets: &[u8])
        requires { length octets.now ≤ 65536 }
        ensures { self.new ≡ record self.old { taken = self.old.taken ++ (connection, octets.now) ∷ [] } }
    {
        self.last.hold(octets);
        self.taken = self.taken.and(&connection, &self.last);
    }

    /// A client came from this end, to the listener of this place, as this connection.
    pub(crate) fn came(&mut self, connection: u64, front: u8, from: Endpoint)
        ensures { self.new ≡ record self.old { came = self.old.came ++ (connection, (front, from)) ∷ [] } }
    {
        self.came = self.came.and(&connection, &(front, from));
    }

    /// A client was turned away.
    pub(crate) fn turned(&mut self, front: u8, from: Endpoint)
        ensures { self.new ≡ record self.old { turned = self.old.turned + 1 } }
    {
        self.turned = self.turned.and(&front, &from);
    }

    /// This end was dialled as this connection.
    pub(crate) fn dialed(&mut self, connection: u64, to: Endpoint)
        ensures { self.new ≡ record self.old { dialed = self.old.dialed ++ (connection, to) ∷ [] } }
    {
        self.dialed = self.dialed.and(&connection, &to);
    }

    /// The peer of a connection closed its side.
    pub(crate) fn ended(&mut self, connection: u64)
        ensures { self.new ≡ record self.old { ended = self.old.ended ++ connection ∷ [] } }
    {
        self.ended = self.ended.and(&connection, &0);
    }

    /// The peer of a connection takes no more.
    pub(crate) fn gone(&mut self, connection: u64)
        ensures { self.new ≡ record self.old { gone = self.old.gone ++ connection ∷ [] } }
    {
        self.gone = self.gone.and(&connection, &0);
    }
}
