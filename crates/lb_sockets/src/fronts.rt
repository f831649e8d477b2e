//! The listeners of streams.

ghost use Rattle.std.specs.Prelude.{IfOk, is_some, map, ◌≡◌};

use crate::listening::{BindFault, not_bound};
use crate::options::listening;
use crate::watch::Watch;
use lb_loops_io::Endpoint;
use mio::Interest;
use mio::net::TcpListener;
use std::alloc::Global;
use std::net::Net;
use std::os::fd::OwnedFd;
use std::{io, net};

/// The token of all listeners of streams. The numbers of connections begin at 1.
pub(crate) const LISTENERS: usize = 0;

/// The sockets that listen for streams, each at the place of its listen line. A place of another protocol has none.
#[derive(Drop)]
pub struct TcpListeners {
    pub(crate) listeners: Vec<Option<TcpListener>>,
}

impl TcpListeners {
    /// Has each listener told.
    pub(crate) fn watched_by(&self, watch: &Watch) -> io::Result<()> {
        for listener in &self.listeners {
            if let Some(listener) = listener {
                watch.add(listener, LISTENERS, Interest::READABLE)?;
            }
        }
        Ok(())
    }
}

/// Binds a listener at each of these ends, which stand at the places of the listen lines, of which there are at most 256. The system takes
/// clients in from then on, and they wait.
pub fn stream_listeners<N: Net>(
    net: &N,
    alloc: Global,
    ends: &[Option<Endpoint>],
) -> Result<TcpListeners, BindFault>
    ensures { IfOk result (λ bound. map is_some bound.listeners.items ≡ map is_some ends.now) }
{
    let mut listeners = Vec::with_capacity(alloc, ends.len())?;
    for end in ends {
        let place = listeners.len();
        listeners.push(listener_of(net, place, *end)?)?;
    }
    Ok(TcpListeners { listeners })
}

/// Binds the listener of one place, if it is to have one.
fn listener_of<N: Net>(
    net: &N,
    place: usize,
    end: Option<Endpoint>,
) -> Result<Option<TcpListener>, BindFault>
    ensures { IfOk result (λ listener. is_some listener ≡ is_some end) }
{
    match end {
        Some(end) => Ok(Some(listener_at(net, place, end)?)),
        None => Ok(None),
    }
}

/// Binds a listener of streams at the end of a place of the listen lines, which never blocks. One of IPv6 takes in no client of IPv4. The
/// one error is the system's, with the place and the address.
pub fn listener_at<N: Net>(net: &N, place: usize, end: Endpoint) -> Result<TcpListener, BindFault> {
    Ok(TcpListener::from(listening_at(net, place, end)?))
}

/// The same as std's listener, for a library with a poll of its own.
pub fn std_listener_at<N: Net>(
    net: &N,
    place: usize,
    end: Endpoint,
) -> Result<net::TcpListener, BindFault> {
    Ok(net::TcpListener::from(listening_at(net, place, end)?))
}

/// A socket that listens at the end of a place.
fn listening_at<N: Net>(net: &N, place: usize, end: Endpoint) -> Result<OwnedFd, BindFault> {
    match listening(net, end) {
        Ok(socket) => Ok(socket),
        Err(error) => Err(not_bound(place, end, error)),
    }
}
