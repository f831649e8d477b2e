//! What the system tells of sockets.

use crate::waker::PollWaker;
use lb_loops_io::WaitFailed;
use mio::unix::SourceFd;
use mio::{Events, Interest, Poll, Token, Waker};
use std::alloc::Global;
use std::io;
use std::io::ErrorKind;
use std::net::Net;
use std::os::fd::AsRawFd;
use std::time::Duration;

/// The most events that one call of poll gives.
const EVENTS: usize = 256;

/// The token of wakers, which no socket has.
const WAKE: Token = Token(usize::MAX);

/// The most asks without a look at what became ready: a socket that never runs dry is not to hide the others.
const ASKS: u8 = 64;

/// The system's poll, with the events that it told last.
#[derive(Drop)]
pub(crate) struct Watch {
    poll: Poll,
    events: Events,
    /// How many asks were made since the last look.
    asks: u8,
}

impl Watch {
    /// Of no sockets. The errors are the system's, and lack of memory.
    pub(crate) fn made<R: Net>(rt: &R, alloc: Global) -> io::Result<Watch> {
        Ok(Watch {
            poll: Poll::new(rt)?,
            events: Events::with_capacity(alloc, EVENTS)?,
            asks: 0,
        })
    }

    /// Has a socket told by a token; what came to it before is told too. The errors are the system's.
    pub(crate) fn add<S: AsRawFd>(
        &self,
        socket: &S,
        token: usize,
        interest: Interest,
    ) -> io::Result<()> {
        let descriptor = socket.as_raw_fd();
        self.poll
            .registry()
            .register(&mut SourceFd(&descriptor), Token(token), interest)
    }

    /// Whether a look at what became ready is due, as many asks were made since the last.
    pub(crate) fn is_look_due(&mut self) -> bool {
        self.asks = self.asks.saturating_add(1);
        self.asks > ASKS
    }

    /// Waits until there are events, or somebody wakes it, or so many milliseconds have passed.
    pub(crate) fn wait(&mut self, at_most: u64) -> Result<(), WaitFailed> {
        self.asks = 0;
        let timeout = Duration::from_millis(at_most);
        match self.poll.poll(&mut self.events, Some(timeout)) {
            Err(error) if error.kind() != ErrorKind::Interrupted => Err(WaitFailed),
            _ => Ok(()),
        }
    }

    /// The events of the last wait.
    pub(crate) fn events(&self) -> &Events {
        &self.events
    }

    /// What ends a wait.
    pub(crate) fn waker(&self) -> io::Result<PollWaker> {
        Ok(PollWaker::new(Waker::new(self.poll.registry(), WAKE)?))
    }
}
