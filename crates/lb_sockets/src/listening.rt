//! The listeners of datagrams, and why listeners were not bound.

ghost use Rattle.std.specs.Prelude.{IfOk, IfSome, is_some, map, ◌≡◌};
ghost use Rattle.std.specs.Arc.{arc_value};
ghost use Rattle.lb_loops_io.specs.declared.traffic.Socket.TheVariants as sockets;
ghost use Rattle.lb_sockets.specs.Datagrams.{listens_at};

use crate::addresses::socket_addr;
use crate::options::{Share, bound};
use crate::wire::Wire;
use lb_loops_io::{Endpoint, Socket};
use mio::net::UdpSocket;
use std::alloc::{AllocError, AllocFailed, Global};
use std::io;
use std::net::{Net, SocketAddr};
use std::sync::Arc;
use thiserror::Error;

/// Why listeners were not bound.
#[derive(Debug, Drop, Error)]
pub enum BindFault {
    /// The system does not let a socket listen at this end, which stands at this place of the listen lines, and why.
    #[error("cannot listen at {at}: {error}")]
    Bind {
        place: usize,
        at: SocketAddr,
        error: io::Error,
    },
    /// Memory was refused.
    #[error("no memory for the listeners")]
    NoMemory,
}

impl From<AllocError> for BindFault {
    ghost use Rattle.std.specs.Prelude.{◌≡◌};
    ghost use Rattle.lb_sockets.specs.declared.listening.BindFault.TheVariants as bind_faults;

    ghost from_gives = { λ _ e. e ≡ bind_faults.NoMemory };

    fn from(_refused: AllocError) -> BindFault {
        BindFault::NoMemory
    }
}

impl<T: Drop> From<AllocFailed<T>> for BindFault {
    ghost use Rattle.std.specs.Prelude.{◌≡◌};
    ghost use Rattle.lb_sockets.specs.declared.listening.BindFault.TheVariants as bind_faults;

    ghost from_gives = { λ _ e. e ≡ bind_faults.NoMemory };

    fn from(_refused: AllocFailed<T>) -> BindFault {
        BindFault::NoMemory
    }
}

/// The sockets that listen for queries by datagrams, each at the place of its listen line. A place of another protocol has none.
#[derive(Drop)]
pub struct ListenSockets {
    pub(crate) sockets: Vec<Option<UdpSocket>>,
}

impl ListenSockets {
    /// The listener of a place, from 0.
    pub(crate) fn at(&self, front: u8) -> Option<Wire<'_>>
        ensures there { is_some result ≡ listens_at self.now.sockets.items front }
        ensures named { IfSome result (λ wire. wire.name ≡ sockets.Listener front) }
    {
        match self.sockets.get(usize::from(front)) {
            Some(Some(socket)) => Some(Wire {
                name: Socket::Listener(front),
                peer: None,
                socket,
            }),
            _ => None,
        }
    }

    /// How many places there are.
    pub(crate) fn count(&self) -> usize {
        self.sockets.len()
    }
}

/// Binds a listener at each of these ends, which stand at the places of the listen lines, of which
/// there are at most 256. The loops share them: one reads them, and others send by them. If several
/// loops read, each has listeners of its own, and those of the first are bound first.
pub fn listeners<N: Net>(
    net: &N,
    alloc: Global,
    ends: &[Option<Endpoint>],
    share: Share,
) -> Result<Arc<ListenSockets>, BindFault>
    ensures { IfOk result (λ shared. map is_some (arc_value shared).sockets.items ≡ map is_some ends.now) }
{
    let mut sockets = Vec::with_capacity(alloc, ends.len())?;
    for end in ends {
        let place = sockets.len();
        sockets.push(listener(net, place, *end, share)?)?;
    }
    Ok(Arc::new(alloc, ListenSockets { sockets })?)
}

/// Binds the listener of one place, if it is to have one.
fn listener<N: Net>(
    net: &N,
    place: usize,
    end: Option<Endpoint>,
    share: Share,
) -> Result<Option<UdpSocket>, BindFault>
    ensures { IfOk result (λ socket. is_some socket ≡ is_some end) }
{
    let Some(end) = end else {
        return Ok(None);
    };
    match bound(net, end, share) {
        Ok(socket) => Ok(Some(socket)),
        Err(error) => Err(not_bound(place, end, error)),
    }
}

/// Why no socket listens at the end of a place.
pub(crate) fn not_bound(place: usize, end: Endpoint, error: io::Error) -> BindFault {
    BindFault::Bind {
        place,
        at: socket_addr(end),
        error,
    }
}
