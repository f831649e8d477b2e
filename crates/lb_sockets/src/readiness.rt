//! Which sockets may be read.

ghost use Rattle.std.specs.Prelude.{IfSome, length, ◌<◌, ◌≡◌};

use crate::waker::PollWaker;
use crate::watch::Watch;
use lb_loops_io::WaitFailed;
use mio::net::UdpSocket;
use mio::{Events, Interest};
use std::alloc::{AllocError, Global};
use std::io;
use std::net::Net;

/// The most reads of a socket in a row. What is read in a row is sent on in a row, and who is sent several datagrams so is woken for the first of them
/// alone: by turns, a datagram each, the server is woken for nearly each query, which costs a fifth of it.
const ROW: u8 = 32;

/// Flags of the sockets that may be read, each at its place. The system tells but once what has come: a socket stays ready until it is said
/// to be dry.
#[derive(Drop)]
pub(crate) struct Readiness {
    watch: Watch,
    ready: Vec<bool>,
    /// The place that is asked next, if it may be read.
    next: usize,
    /// How often that place was given in a row.
    given: u8,
}

impl Readiness {
    /// Of no sockets. The errors are the system's, and lack of memory.
    pub(crate) fn made<R: Net>(rt: &R, alloc: Global) -> io::Result<Readiness> {
        Ok(Readiness {
            watch: Watch::made(rt, alloc)?,
            ready: Vec::new(alloc),
            next: 0,
            given: 0,
        })
    }

    /// Room for one place more.
    pub(crate) fn reserve(&mut self) -> Result<(), AllocError> {
        self.ready.reserve(1)
    }

    /// Has a socket told at a place; what came to it before is told too. The errors are the system's, and lack of memory.
    pub(crate) fn add(&mut self, socket: &UdpSocket, place: usize) -> io::Result<()> {
        while_short(&mut self.ready, place)?;
        self.watch.add(socket, place, Interest::READABLE)
    }

    /// How many places there are.
    pub(crate) fn count(&self) -> usize {
        self.ready.len()
    }

    /// The next place that may be read: the same in a row, and then the one after it.
    pub(crate) fn next(&mut self) -> Option<usize> {
        let place = first_from(&self.ready, self.next)?;
        let given = if place == self.next { self.given } else { 0 };
        let is_last = given >= ROW - 1;
        self.next = if is_last {
            place.wrapping_add(1)
        } else {
            place
        };
        self.given = if is_last { 0 } else { given + 1 };
        Some(place)
    }

    /// A place has nothing to read now.
    pub(crate) fn dry(&mut self, place: usize) {
        if let Some(ready) = self.ready.get_mut(place) {
            *ready = false;
        }
    }

    /// Looks at what became ready, where many reads were made since the last look, and says whether it did. What fails here, a wait tells.
    pub(crate) fn look(&mut self) -> bool {
        let is_due = self.watch.is_look_due();
        if is_due {
            let _ = self.poll_for(0);
        }
        is_due
    }

    /// Waits until a socket may be read, or somebody wakes it, or so many milliseconds have passed.
    pub(crate) fn wait(&mut self, at_most: u64) -> Result<(), WaitFailed> {
        let is_ready = first_from(&self.ready, 0).is_some();
        self.poll_for(if is_ready { 0 } else { at_most })
    }

    /// Notes what became ready in so many milliseconds.
    fn poll_for(&mut self, at_most: u64) -> Result<(), WaitFailed> {
        self.watch.wait(at_most)?;
        mark_all(self.watch.events(), &mut self.ready);
        Ok(())
    }

    /// What ends a wait.
    pub(crate) fn waker(&self) -> io::Result<PollWaker> {
        self.watch.waker()
    }
}

/// Makes a list of flags so long that it has a place.
fn while_short(ready: &mut Vec<bool>, place: usize) -> Result<(), AllocError> {
    for _ in ready.len()..=place {
        ready.push(false)?;
    }
    Ok(())
}

/// Sets the flags of the places that events name.
fn mark_all(events: &Events, ready: &mut [bool]) {
    for event in events {
        if let Some(ready) = ready.get_mut(event.token().0) {
            *ready = true;
        }
    }
}

/// The first flag that is set, from a place on and then round.
pub(crate) fn first_from(ready: &[bool], from: usize) -> Option<usize> {
    for place in from..ready.len() {
        if ready[place] {
            return Some(place);
        }
    }
    ready.iter().position(|is_ready| *is_ready)
}
