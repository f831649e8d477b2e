//! What stands around the loops of a scene.

use crate::fault::Fault;
use crate::gate::HoldsFrom;
use crate::handler::Heard;
use crate::octets::Named;
use crate::setting::Setting;
use crate::shown::Shown;
use crate::told::Told;
use lb_core::Event;
use lb_loops::{Roster, Sender, Service};
use lb_memory::{
    Failing, MemoryDatagrams, MemoryOutside, MemoryPosts, MemoryStreams, Moments, Packets,
    Requests, Wires,
};
use std::alloc::{AllocError, Global};
use std::collections::VecDeque;
use std::mem;
use std::sync::atomic::AtomicBool;
use std::sync::{Arc, Mutex, Wait};

/// What listens at each place.
const FRONTS: [Service; 6] = [
    Service::Datagram,
    Service::Datagram,
    Service::Stream,
    Service::Stream,
    Service::Http,
    Service::Console,
];

/// How many of them are of datagrams.
const DATAGRAM_FRONTS: u8 = 2;

/// What the sockets and the sources of a scene share with whoever plays it.
#[derive(Drop)]
pub(crate) struct Shared {
    pub(crate) packets: Arc<Mutex<Packets>>,
    pub(crate) probes: Arc<Mutex<Packets>>,
    pub(crate) wires: Arc<Mutex<Wires>>,
    pub(crate) requests: Arc<Mutex<Requests>>,
    pub(crate) moments: Arc<Mutex<Moments>>,
    /// The events that the loops handed to the desk.
    events: Arc<Mutex<VecDeque<Event>>>,
}

impl Shared {
    /// Nothing came yet. Moments begin with 1 and stay until a line says so, and words with 16.
    fn new(alloc: Global, setting: Setting) -> Result<Shared, AllocError> {
        Ok(Shared {
            packets: Arc::new(alloc, Mutex::new(Packets::new(alloc)))?,
            probes: Arc::new(alloc, Mutex::new(Packets::new(alloc)))?,
            wires: Arc::new(alloc, Mutex::new(Wires::new(alloc)))?,
            requests: Arc::new(alloc, Mutex::new(Requests::new(alloc)))?,
            moments: Arc::new(alloc, Mutex::new(Moments::new(1, 0, 16, setting.outside)))?,
            events: Arc::new(alloc, Mutex::new(VecDeque::new(alloc)))?,
        })
    }
}

/// What stands around the loops of a scene, and what was told so far.
#[derive(Drop)]
pub(crate) struct Stage<'a, R: Wait> {
    pub(crate) rt: &'a R,
    pub(crate) alloc: Global,
    /// Whether the desk takes no event.
    pub(crate) is_full: &'a AtomicBool,
    pub(crate) setting: Setting,
    pub(crate) shared: Shared,
    /// Sends the jobs of the HTTP front, once there is an outbox.
    pub(crate) sender: Option<Sender>,
    pub(crate) roster: Roster,
    pub(crate) gate: HoldsFrom,
    pub(crate) names: Vec<Named>,
    pub(crate) shown: Shown,
    pub(crate) told: Told,
}

impl<'a, R: Wait> Stage<'a, R> {
    /// A stage on which nothing came yet.
    pub(crate) fn new(
        rt: &'a R,
        alloc: Global,
        is_full: &'a AtomicBool,
        setting: Setting,
    ) -> Result<Stage<'a, R>, AllocError> {
        let roster = Roster::made(alloc)?;
        Ok(Stage {
            rt,
            alloc,
            is_full,
            setting,
            shared: Shared::new(alloc, setting)?,
            sender: None,
            roster,
            gate: HoldsFrom(u64::MAX),
            names: Vec::new(alloc),
            shown: Shown::new(alloc),
            told: Told::new(alloc),
        })
    }

    /// What a handler shares with whoever plays the scene.
    pub(crate) fn heard(&self) -> Result<Heard<'a, R>, AllocError> {
        Ok(Heard {
            rt: self.rt,
            alloc: self.alloc,
            is_full: self.is_full,
            events: Arc::try_clone(&self.shared.events)?,
        })
    }

    /// The events that were handed to the desk since they were last taken.
    pub(crate) fn take_events(&mut self) -> VecDeque<Event> {
        let mut events = self.shared.events.lock(self.rt);
        mem::replace(&mut *events, VecDeque::new(self.alloc))
    }

    /// The sockets of datagrams.
    pub(crate) fn datagrams(&self) -> Result<MemoryDatagrams<'a, R>, AllocError> {
        self.sockets(&self.shared.packets, self.setting.datagrams)
    }

    /// The sockets of the clock's probes.
    pub(crate) fn probes(&self) -> Result<MemoryDatagrams<'a, R>, AllocError> {
        self.sockets(&self.shared.probes, self.setting.clock)
    }

    /// Sockets of datagrams, to which these packets come.
    fn sockets(
        &self,
        packets: &Arc<Mutex<Packets>>,
        failing: Failing,
    ) -> Result<MemoryDatagrams<'a, R>, AllocError> {
        let packets = Arc::try_clone(packets)?;
        let none = VecDeque::new(self.alloc);
        Ok(MemoryDatagrams::new(self.rt, self.alloc, DATAGRAM_FRONTS, none, packets, failing))
    }

    /// The sockets of streams.
    pub(crate) fn streams(&self) -> Result<MemoryStreams<'a, R>, AllocError> {
        let wires = Arc::try_clone(&self.shared.wires)?;
        Ok(MemoryStreams::new(self.rt, self.alloc, wires, self.setting.streams))
    }

    /// The source of moments and words of one loop.
    pub(crate) fn outside(&self) -> Result<MemoryOutside<'a, R>, AllocError> {
        let moments = Arc::try_clone(&self.shared.moments)?;
        Ok(MemoryOutside::new(self.rt, moments))
    }

    /// What stands beside sockets in a loop that delivers to HTTP requests: those, what listens at each place, and moments.
    pub(crate) fn sides(&self) -> Result<Sides<'a, R>, AllocError> {
        let outside = self.outside()?;
        let fronts = Vec::from_slice(self.alloc, &FRONTS)?;
        let requests = Arc::try_clone(&self.shared.requests)?;
        Ok(Sides {
            posts: MemoryPosts::new(self.rt, self.alloc, requests),
            fronts,
            outside,
        })
    }
}

/// What stands beside the sockets of a loop.
#[derive(Drop)]
pub(crate) struct Sides<'a, R: Wait> {
    pub(crate) posts: MemoryPosts<'a, R>,
    pub(crate) fronts: Vec<Service>,
    pub(crate) outside: MemoryOutside<'a, R>,
}
