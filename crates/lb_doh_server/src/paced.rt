//! A client's socket, whose writes fail once the client takes nothing any more.

ghost use Rattle.std.specs.Prelude.{◌≡◌, Err};
ghost use Rattle.std.specs.declared.io.Error.{Error};
ghost use Rattle.futures.specs.Poll.{IfReady, OnPending};
ghost use Rattle.futures.specs.Task.{Covers, Keeps};

use crate::late::{is_over, seconds_from_now};
use futures::task::{Context, Poll};
use lb_sends::{Closing, Sends};
use std::io;
use std::io::IoSlice;
use std::sync::Arc;
use std::time::Clock;
use tokio::io::{AsyncRead, AsyncWrite};
use tokio::time::{Handle, Sleep};

/// How many seconds a client may take nothing of what is to be written to it.
const STUCK_SECONDS: u64 = 10;

/// A client's socket. A write that waits fails once the client has taken nothing for 10 seconds.
#[derive(Drop)]
pub struct Paced<R, I> {
    rt: R,
    timers: Option<Handle>,
    io: I,
    /// The end of the time for the write that waits.
    late: Option<Sleep>,
    /// Where it is counted that a client takes nothing, if it is counted.
    sends: Option<Arc<Sends>>,
}

impl<R: Clock, I> Paced<R, I> {
    /// A socket whose time is kept by these timers, and whose client is counted there if it takes
    /// nothing. Without timers its writes wait as long as it takes.
    pub fn new(rt: R, timers: Option<Handle>, io: I, sends: Option<Arc<Sends>>) -> Paced<R, I>
        ensures { result.io ≡ io }
    {
        Paced {
            rt,
            timers,
            io,
            late: None,
            sends,
        }
    }

    /// The end of the time for a write that begins to wait.
    fn limit(&self) -> Option<Sleep> {
        seconds_from_now(&self.rt, self.timers.as_ref()?, STUCK_SECONDS)
    }

    /// A write goes on: the next one that waits has the whole time.
    fn moved<X: Drop>(&mut self, written: io::Result<X>) -> Poll<io::Result<X>>
        ensures same { result ≡ Poll.Ready written }
        ensures io { self.new.io ≡ self.old.io }
    {
        self.late = None;
        Poll::Ready(written)
    }

    /// A write waits, unless its time is over.
    fn waits<X>(&mut self, cx: &mut Context<'_>) -> Poll<io::Result<X>>
        ensures late { IfReady result (λ r. (e : Error) × (r ≡ Err e)) }
        ensures io { self.new.io ≡ self.old.io }
        ensures kept { Keeps cx.old cx.new }
    {
        if self.late.is_none() {
            self.late = self.limit();
        }
        if is_over(&mut self.late, cx) {
            if let Some(sends) = &self.sends {
                sends.http().close(Closing::Unread);
            }
            return Poll::Ready(Err(io::Error::from(io::ErrorKind::TimedOut)));
        }
        Poll::Pending
    }
}

impl<R: Drop, I: AsyncRead> AsyncRead for Paced<R, I> {
    ghost needs = { λ p. I.needs p.io };

    ghost reads = { λ a xs b. I.reads a.io xs b.io };

    ghost is_at_end = { λ p. I.is_at_end p.io };

    ghost fails = { λ p. I.fails p.io };

    ghost reads_nothing = { λ p. I.reads_nothing p.io };

    ghost reads_in_order = { λ a xs b ys c. I.reads_in_order a.io xs b.io ys c.io };

    fn poll_read(&mut self, cx: &mut Context<'_>, buf: &mut [u8]) -> Poll<io::Result<usize>> {
        self.io.poll_read(cx, buf)
    }
}

impl<R: Clock + Drop, I: AsyncWrite> AsyncWrite for Paced<R, I> {
    ghost needs = { λ p. I.needs p.io };

    ghost writes = { λ a xs b. I.writes a.io xs b.io };

    ghost is_flushed = { λ p. I.is_flushed p.io };

    ghost is_shut_down = { λ p. I.is_shut_down p.io };

    ghost is_full = { λ p. I.is_full p.io };

    ghost writes_nothing = { λ p. I.writes_nothing p.io };

    ghost writes_in_order = { λ a xs b ys c. I.writes_in_order a.io xs b.io ys c.io };

    fn poll_write(&mut self, cx: &mut Context<'_>, buf: &[u8]) -> Poll<io::Result<usize>> {
        match self.io.poll_write(cx, buf) {
            Poll::Ready(written) => self.moved(written),
            Poll::Pending => self.waits(cx),
        }
    }

    fn poll_write_vectored(
        &mut self,
        cx: &mut Context<'_>,
        bufs: &[IoSlice<'_>],
    ) -> Poll<io::Result<usize>> {
        match self.io.poll_write_vectored(cx, bufs) {
            Poll::Ready(written) => self.moved(written),
            Poll::Pending => self.waits(cx),
        }
    }

    fn is_write_vectored(&self) -> bool {
        self.io.is_write_vectored()
    }

    fn poll_flush(&mut self, cx: &mut Context<'_>) -> Poll<io::Result<()>> {
        match self.io.poll_flush(cx) {
            Poll::Ready(flushed) => self.moved(flushed),
            Poll::Pending => self.waits(cx),
        }
    }

    fn poll_shutdown(&mut self, cx: &mut Context<'_>) -> Poll<io::Result<()>> {
        match self.io.poll_shutdown(cx) {
            Poll::Ready(shut) => self.moved(shut),
            Poll::Pending => self.waits(cx),
        }
    }
}
