//! What ends the loops.

use lb_loops::Waker;
use lb_sockets::PollWaker;
use std::sync::Arc;
use std::sync::atomic::{AtomicBool, Ordering};

/// Ends the loops: the flag that they look at, and what wakes each.
#[derive(Drop)]
pub(crate) struct Halt {
    pub(crate) stop: Arc<AtomicBool>,
    pub(crate) datagrams: Vec<PollWaker>,
    pub(crate) streams: PollWaker,
    pub(crate) clock: PollWaker,
}

impl Halt {
    /// Whether the loops are to end.
    pub(crate) fn is_over(&self) -> bool {
        self.stop.load(Ordering::SeqCst)
    }

    /// Has the clock look where servers are and which it is to probe, if it rests.
    pub(crate) fn rouse_clock(&self) {
        self.clock.wake();
    }

    /// Ends the loops: the flag first, and then each that waits is woken.
    pub(crate) fn halt(&self) {
        self.stop.store(true, Ordering::SeqCst);
        for waker in self.datagrams.iter() {
            waker.wake();
        }
        self.streams.wake();
        self.clock.wake();
    }
}
