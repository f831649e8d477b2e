//! HTTP requests in memory.

ghost use Rattle.std.specs.Prelude.{◌≡◌};

use http_server::Log;
use lb_loops_io::{Posts, Why};
use lb_wire::{Octets, Origin};
use std::alloc::{AllocError, Global};
use std::sync::{Arc, Mutex, Wait};

/// What a test and requests in memory share: the answers that were handed to them, and the numbers of those that have ended.
#[derive(Drop)]
pub struct Requests {
    handed: Vec<(Origin, Octets)>,
    ended: Vec<u64>,
}

impl Requests {
    /// Every request waits. It takes no memory.
    pub fn new(alloc: Global) -> Requests {
        Requests {
            handed: Vec::new(alloc),
            ended: Vec::new(alloc),
        }
    }

    /// The request with this number has ended.
    pub fn end(&mut self, number: u64) -> Result<(), AllocError> {
        self.ended.push(number)?;
        Ok(())
    }

    /// What was handed to requests, in order.
    pub fn handed(&self) -> &[(Origin, Octets)] {
        self.handed.as_slice()
    }

    /// Hands an answer to a request. The one error is lack of memory.
    fn hand(&mut self, origin: Origin, bytes: Octets) -> Result<(), AllocError> {
        self.handed.push((origin, bytes))?;
        Ok(())
    }
}

/// Delivery to HTTP requests in memory.
#[derive(Drop)]
pub struct MemoryPosts<'a, R: Wait> {
    rt: &'a R,
    alloc: Global,
    requests: Arc<Mutex<Requests>>,
    told: Log<Origin, Octets>,
}

impl<'a, R: Wait> MemoryPosts<'a, R> {
    /// Hands answers to these requests.
    pub fn new(rt: &'a R, alloc: Global, requests: Arc<Mutex<Requests>>) -> MemoryPosts<'a, R> {
        MemoryPosts {
            rt,
            alloc,
            requests,
            told: Log::new(),
        }
    }
}

impl<R: Wait> Posts for MemoryPosts<'_, R> {
    ghost handed = { λ p. p.told.items };

    fn hand(&mut self, origin: Origin, bytes: &Octets) -> Result<(), Why> {
        let mut requests = self.requests.lock(self.rt);
        if requests.ended.contains(&origin.slot) {
            return Err(Why::Gone);
        }
        let copy = bytes.copy(self.alloc)?;
        let told = self.told.and(&origin, bytes);
        requests.hand(origin, copy)?;
        self.told = told;
        Ok(())
    }
}
