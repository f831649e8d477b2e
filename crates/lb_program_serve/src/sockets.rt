//! The sockets of the loops, what ends these, and what ties their threads together.

use crate::descriptors::Clients;
use crate::desk::Plan;
use crate::fault::Fault;
use crate::halt::Halt;
use crate::parts::Context;
use crate::shared::Shared;
use crate::switches::Switches;
use futures::channel::oneshot;
use lb_doh::HttpPosts;
use lb_loops::{Outbox, Receiver, Sender};
use lb_sends::Sends;
use lb_sockets::{Limits, ListenSockets, SystemOutside, TcpListeners, TcpSockets, UdpSockets};
use std::alloc::Global;
use std::net::Net;
use std::random::RandomSource;
use std::sync::atomic::AtomicBool;
use std::sync::{Arc, Wait};
use std::time::Clock;

/// How many jobs one loop may have for another.
const JOBS: usize = 4_096;

/// The sockets that listen for datagrams of the first loop and of each further one, and for clients
/// over TCP.
pub(crate) type BoundSockets = (Arc<ListenSockets>, Vec<Arc<ListenSockets>>, TcpListeners);

/// The sockets of the loops.
#[derive(Drop)]
pub(crate) struct Sockets<'a, R: Net + Clock> {
    pub(crate) datagrams: Vec<UdpSockets<'a, R>>,
    pub(crate) streams: TcpSockets<'a, R>,
    pub(crate) clock: UdpSockets<'a, R>,
}

impl<'a, R: Net + Clock> Sockets<'a, R> {
    /// Those that listen, and none of servers yet. The clock sends by the listeners of the first
    /// loop of datagrams. The errors are the system's, and refused memory.
    fn made(
        cx: Context<'a, R>,
        bound: BoundSockets,
        limits: Limits,
        sends: Arc<Sends>,
    ) -> Result<Sockets<'a, R>, Fault> {
        let (rt, alloc) = cx;
        let (first, beside, streams) = bound;
        Ok(Sockets {
            datagrams: reading(cx, &first, beside)?,
            streams: TcpSockets::listening(rt, alloc, streams, limits, sends)?,
            clock: UdpSockets::sending(rt, alloc, first)?,
        })
    }

    /// What ends the loops, by this flag.
    fn halt(&self, alloc: Global, stop: &Arc<AtomicBool>) -> Result<Halt, Fault> {
        let mut datagrams = Vec::with_capacity(alloc, self.datagrams.len())?;
        for sockets in self.datagrams.iter() {
            datagrams.push(sockets.waker()?)?;
        }
        Ok(Halt {
            stop: Arc::try_clone(stop)?,
            datagrams,
            streams: self.streams.waker()?,
            clock: self.clock.waker()?,
        })
    }
}

/// The sockets of the loops of datagrams: of the first one, and of each further one.
fn reading<'a, R: Net + Clock>(
    cx: Context<'a, R>,
    first: &Arc<ListenSockets>,
    beside: Vec<Arc<ListenSockets>>,
) -> Result<Vec<UdpSockets<'a, R>>, Fault> {
    let (rt, alloc) = cx;
    let mut sockets = Vec::with_capacity(alloc, beside.len().saturating_add(1))?;
    sockets.push(UdpSockets::reading(rt, alloc, Arc::try_clone(first)?)?)?;
    for listeners in beside {
        sockets.push(UdpSockets::reading(rt, alloc, listeners)?)?;
    }
    Ok(sockets)
}

/// What ends the loops, for each that may end them, and for the loops themselves.
#[derive(Drop)]
pub(crate) struct Halts {
    pub(crate) console: Halt,
    pub(crate) front: Halt,
    pub(crate) loops: Halt,
}

impl Halts {
    /// What ends the loops that have these sockets, by this flag.
    fn made<R: Net + Clock>(
        alloc: Global,
        sockets: &Sockets<'_, R>,
        stop: &Arc<AtomicBool>,
    ) -> Result<Halts, Fault> {
        Ok(Halts {
            console: sockets.halt(alloc, stop)?,
            front: sockets.halt(alloc, stop)?,
            loops: sockets.halt(alloc, stop)?,
        })
    }
}

/// What ties threads together: the outbox of jobs for the loop of streams, with a sender for the
/// front and one for the clock, and what ends the services by HTTP.
#[derive(Drop)]
pub(crate) struct Ties {
    pub(crate) front: Sender,
    pub(crate) clock: Sender,
    pub(crate) receiver: Receiver,
    /// Ends the front of DNS on HTTP, which has the other half.
    pub(crate) of_http: oneshot::Sender<()>,
    pub(crate) http_end: oneshot::Receiver<()>,
    /// Ends the service of metrics, likewise.
    pub(crate) of_page: oneshot::Sender<()>,
    pub(crate) page_end: oneshot::Receiver<()>,
}

impl Ties {
    /// Nothing is sent yet. The one error is lack of memory.
    fn made(alloc: Global) -> Result<Ties, Fault> {
        let (of_http, http_end) = oneshot::channel(alloc)?;
        let (of_page, page_end) = oneshot::channel(alloc)?;
        let (front, clock, receiver) = Outbox::made(alloc, JOBS)?;
        Ok(Ties {
            front,
            clock,
            receiver,
            of_http,
            http_end,
            of_page,
            page_end,
        })
    }
}

/// What the loops are made of besides their handlers of events and what is shared.
#[derive(Drop)]
pub(crate) struct Devices<'a, R: Wait + Net + Clock + RandomSource> {
    pub(crate) sockets: Sockets<'a, R>,
    pub(crate) halts: Halts,
    pub(crate) ties: Ties,
    /// For the loop of streams, and for the clock.
    pub(crate) posts: Posts<'a, R>,
    pub(crate) outside: SystemOutside<'a, R>,
}

impl<'a, R: Wait + Net + Clock + RandomSource> Devices<'a, R> {
    /// Those of loops that serve by a plan. The errors are the system's, and lack of memory.
    pub(crate) fn made(
        cx: Context<'a, R>,
        bound: BoundSockets,
        plan: &Plan,
        shared: &Shared,
    ) -> Result<Devices<'a, R>, Fault> {
        let (ties, posts, outside) = tied(cx, shared)?;
        let limits = limits_of(Clients::beside(plan), &plan.switches);
        let (sockets, halts) = open(cx, bound, limits, shared)?;
        Ok(Devices {
            sockets,
            halts,
            ties,
            posts,
            outside,
        })
    }
}

/// The sockets of the loops, and what ends these.
fn open<'a, R: Net + Clock>(
    cx: Context<'a, R>,
    bound: BoundSockets,
    limits: Limits,
    shared: &Shared,
) -> Result<(Sockets<'a, R>, Halts), Fault> {
    let sockets = Sockets::made(cx, bound, limits, Arc::try_clone(&shared.sends)?)?;
    let halts = Halts::made(cx.1, &sockets, &shared.stop)?;
    Ok((sockets, halts))
}

/// What hands answers to requests by HTTP, for two loops.
type Posts<'a, R> = (HttpPosts<'a, R>, HttpPosts<'a, R>);

/// What ties threads together, what hands answers to requests by HTTP, and the source of moments
/// and words.
fn tied<'a, R: Wait + Clock + RandomSource>(
    cx: Context<'a, R>,
    shared: &Shared,
) -> Result<(Ties, Posts<'a, R>, SystemOutside<'a, R>), Fault> {
    Ok((
        Ties::made(cx.1)?,
        shared.posts(cx)?,
        SystemOutside::new(cx.0)?,
    ))
}

/// How many clients over TCP may be connected.
fn limits_of(clients: Clients, switches: &Switches) -> Limits {
    Limits {
        clients: clients.room(),
        of_source: switches.of_source.map(|most| most as usize),
    }
}
