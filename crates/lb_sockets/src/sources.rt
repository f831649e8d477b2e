//! How many clients of each source are connected.

ghost use Rattle.std.specs.Prelude.{◌≡◌};
ghost use Rattle.lb_sockets.specs.Sources as spec;

use lb_loops_io::MAX_CLIENTS;
use lb_masks::masked;
use lb_wire::Addr;
use std::alloc::{AllocError, Global};

/// The bits of an IPv4 address that make a source: all.
const V4_BITS: u8 = 32;

/// The bits of an IPv6 address that make a source: most sites have a network of at least 2^64
/// addresses.
const V6_BITS: u8 = 64;

/// Where a client comes from: its IPv4 address, or the network of its IPv6 address.
pub(crate) fn source_of(addr: Addr) -> Addr
    ensures { result ≡ spec.source_of addr }
{
    masked(addr, V4_BITS, V6_BITS)
}

/// The sources of the clients that are connected, each with how many those are.
#[derive(Drop)]
pub(crate) struct Sources {
    held: Vec<(Addr, usize)>,
    /// How many clients of a source may be connected; none are counted if there is no limit.
    most: Option<usize>,
}

impl Sources {
    /// No client is connected, and so many of a source may be. Room for the source of each client is
    /// taken; the one error is refused memory.
    pub(crate) fn made(alloc: Global, most: Option<usize>) -> Result<Sources, AllocError> {
        let held = match most {
            Some(_) => Vec::with_capacity(alloc, MAX_CLIENTS)?,
            None => Vec::new(alloc),
        };
        Ok(Sources { held, most })
    }

    /// Whether a further client with this address may be connected.
    pub(crate) fn may_enter(&self, addr: Addr) -> bool {
        match self.most {
            Some(most) => self.count(source_of(addr)) < most,
            None => true,
        }
    }

    /// How many clients of a source are connected.
    fn count(&self, source: Addr) -> usize {
        self.held
            .iter()
            .find(|held| held.0 == source)
            .map_or(0, |held| held.1)
    }

    /// Notes that a client with this address is connected.
    pub(crate) fn entered(&mut self, addr: Addr) {
        if self.most.is_none() {
            return;
        }
        let source = source_of(addr);
        match self.held.iter().position(|held| held.0 == source) {
            Some(at) => self.held[at].1 = self.held[at].1.saturating_add(1),
            None => self.begin(source),
        }
    }

    /// Notes the first client of a source.
    fn begin(&mut self, source: Addr) {
        if self.held.len() < self.held.capacity() {
            self.held.push_reserved((source, 1));
        }
    }

    /// Notes that the connection of a client with this address was closed.
    pub(crate) fn left(&mut self, addr: Addr) {
        let source = source_of(addr);
        let Some(at) = self.held.iter().position(|held| held.0 == source) else {
            return;
        };
        let clients = self.held[at].1.saturating_sub(1);
        if clients == 0 {
            let _ = self.held.swap_remove(at);
        } else {
            self.held[at].1 = clients;
        }
    }
}
