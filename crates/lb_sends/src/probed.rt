//! The last result of the probes of each server.

use lb_servers::MAX_SERVERS;
use lb_wire::ServerId;
use std::alloc::{AllocError, Global};
use std::sync::atomic::{AtomicU64, Ordering};

/// The last result of the probes of a server.
#[derive(Clone, Copy, Debug, PartialEq, Eq)]
pub struct Probed {
    /// When it came, in milliseconds of the loops' clock.
    pub at: u64,
    /// Whether the server answered in time.
    pub is_ok: bool,
}

/// The result of one server.
#[derive(Debug, Drop)]
struct Place {
    /// The server's number; 0 if there is none.
    server: AtomicU64,
    /// When the result came, times two, and one more if it was good.
    result: AtomicU64,
}

/// The last results of probes. One thread writes; others read without a lock.
#[derive(Debug, Drop)]
pub(crate) struct Results {
    places: Vec<Place>,
}

impl Results {
    /// None yet, and room for those of 256 servers. The one error is refused memory.
    pub(crate) fn made(alloc: Global) -> Result<Results, AllocError> {
        let mut places = Vec::with_capacity(alloc, MAX_SERVERS)?;
        for _ in 0..MAX_SERVERS {
            places.push(Place {
                server: AtomicU64::new(0),
                result: AtomicU64::new(0),
            })?;
        }
        Ok(Results { places })
    }

    /// Notes the result of a probe. It takes the place of the server's last one, or else of the
    /// oldest.
    pub(crate) fn note(&self, server: ServerId, now: u64, is_ok: bool) {
        let Some(place) = self.place_for(server) else {
            return;
        };
        let result = now.saturating_mul(2) | u64::from(is_ok);
        if place.server.load(Ordering::SeqCst) == server.0 {
            place.result.store(result, Ordering::SeqCst);
            return;
        }
        // Whoever reads meanwhile finds none.
        place.server.store(0, Ordering::SeqCst);
        place.result.store(result, Ordering::SeqCst);
        place.server.store(server.0, Ordering::SeqCst);
    }

    /// The place of a server, or else the one whose result is the oldest.
    fn place_for(&self, server: ServerId) -> Option<&Place> {
        let mut oldest = None;
        let mut before = u64::MAX;
        for place in &self.places {
            if place.server.load(Ordering::SeqCst) == server.0 {
                return Some(place);
            }
            let result = place.result.load(Ordering::SeqCst);
            if result < before {
                before = result;
                oldest = Some(place);
            }
        }
        oldest
    }

    /// The last result of the probes of a server.
    pub(crate) fn of(&self, server: ServerId) -> Option<Probed> {
        for place in &self.places {
            if place.server.load(Ordering::SeqCst) == server.0 {
                let result = place.result.load(Ordering::SeqCst);
                if place.server.load(Ordering::SeqCst) == server.0 {
                    return Some(Probed {
                        at: result / 2,
                        is_ok: result % 2 == 1,
                    });
                }
            }
        }
        None
    }
}
