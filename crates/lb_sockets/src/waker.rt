//! Wakes a loop that waits at mio's poll.

use lb_loops_io;
use mio;

/// Wakes the loop whose sockets it was made of.
#[derive(Drop)]
pub struct PollWaker {
    waker: mio::Waker,
}

impl PollWaker {
    pub(crate) fn new(waker: mio::Waker) -> PollWaker {
        PollWaker { waker }
    }
}

impl lb_loops_io::Waker for PollWaker {
    /// A wake that the system refuses is lost: the loop then waits until its time is up.
    fn wake(&self) {
        let _ = self.waker.wake();
    }
}
