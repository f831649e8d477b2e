//! That sockets, moments and wakers may cross threads.

ghost use denote.Ref.{NamedLft};
ghost use Rattle.std.specs.Thread.{IsSend, IsSync};
ghost use Rattle.lb_sockets.specs.contracts.datagrams.UdpSockets as udp;
ghost use Rattle.lb_sockets.specs.contracts.fronts.TcpListeners as fronts;
ghost use Rattle.lb_sockets.specs.contracts.listening.ListenSockets as listening;
ghost use Rattle.lb_sockets.specs.contracts.outside.SystemOutside as outside;
ghost use Rattle.lb_sockets.specs.contracts.streams.TcpSockets as tcp;
ghost use Rattle.lb_sockets.specs.contracts.waker.PollWaker as waker;

use lb_sends::sends_cross_threads;
use std::net::Net;
use std::random::RandomSource;
use std::time::Clock;

/// Sockets may go to another thread, where the handle of the network and the clock may be shared by
/// threads.
pub fn sockets_cross_threads<R: Net + Clock + Sync>()
    ensures { (a : NamedLft) → IsSend (udp.the_row a R.row R.Listener.row R.Stream.row) }
{}

/// Sockets of streams may go to another thread, where the handle of the network may be shared by
/// threads.
pub fn streams_cross_threads<R: Net + Sync>()
    ensures { (a : NamedLft) → IsSend (tcp.the_row a R.row R.Listener.row R.Stream.row) }
{
    sends_cross_threads();
}

/// Listeners of datagrams may be shared by threads, and those of streams may go to another thread.
pub fn listeners_cross_threads()
    ensures sent { IsSend listening.the_row }
    ensures shared { IsSync listening.the_row }
    ensures streams { IsSend fronts.the_row }
{}

/// A source of moments and words may go to another thread, where its handle may be shared by
/// threads.
pub fn moments_cross_threads<R: Clock + RandomSource + Sync>()
    ensures { (a : NamedLft) → IsSend (outside.the_row a R.row) }
{}

/// A waker may be shared by threads.
pub fn wakers_are_shared()
    ensures sent { IsSend waker.the_row }
    ensures shared { IsSync waker.the_row }
{}
