//! Answers that are handed to requests that wait.

ghost use Rattle.std.specs.Prelude.{◌≡◌, []};

use crate::waiting::Waiting;
use futures::channel::oneshot;
use http_server::Log;
use lb_loops_io::{Posts, Why};
use lb_wire::{Octets, Origin};
use std::alloc::Global;
use std::sync::{Arc, Mutex, Wait};

/// What brings a request its answer, once, and wakes it.
pub type Bringer = oneshot::Sender<Octets>;

/// The requests that wait, behind a lock of their own. No other lock is taken while it is held, and nothing waits under it.
pub type Requests = Mutex<Waiting<Bringer>>;

/// Hands answers to the requests that wait. It may wait for their lock.
#[derive(Drop)]
pub struct HttpPosts<'a, R: Wait> {
    rt: &'a R,
    alloc: Global,
    requests: Arc<Requests>,
    told: Log<Origin, Octets>,
}

impl<'a, R: Wait> HttpPosts<'a, R> {
    /// Hands answers to these.
    pub fn new(rt: &'a R, alloc: Global, requests: Arc<Requests>) -> HttpPosts<'a, R>
        ensures { result.told.items ≡ [] }
    {
        HttpPosts {
            rt,
            alloc,
            requests,
            told: Log::new(),
        }
    }

    /// Takes the request of a number out of those that wait.
    fn taken(&self, number: u64) -> Option<Bringer> {
        self.requests.lock(self.rt).leave(number)
    }
}

impl<R: Wait> Posts for HttpPosts<'_, R> {
    ghost handed = { λ p. p.told.items };

    /// Whatever comes of it, the request does not wait any more: if memory is lacking for a copy of the answer, its connection ends.
    fn hand(&mut self, origin: Origin, bytes: &Octets) -> Result<(), Why> {
        let Some(bringer) = self.taken(origin.slot) else {
            return Err(Why::Gone);
        };
        let copy = bytes.copy(self.alloc)?;
        match bringer.send(copy) {
            Ok(()) => {
                self.told = self.told.and(&origin, bytes);
                Ok(())
            }
            Err(_) => Err(Why::Gone),
        }
    }
}
