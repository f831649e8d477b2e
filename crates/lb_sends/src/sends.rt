//! Counts that all loops raise.

use crate::clients::{Clients, raise, read};
use crate::probed::{Probed, Results};
use crate::times::{ReplyTimes, Times};
use lb_loops_io::{Head, Line, Sending, Why};
use lb_wire::ServerId;
use std::alloc::{AllocError, Global};
use std::sync::atomic::AtomicU64;

/// How many sends failed, by cause, how many probes were sent, with the last result of each server,
/// how long servers take to reply, and counts of clients. Each loop notes the lines of its turns
/// here, and its event handler notes replies, without a lock. The sockets of streams and the front
/// of DNS on HTTP count clients as they come and go.
#[derive(Debug, Drop)]
pub struct Sends {
    no_server: AtomicU64,
    gone: AtomicU64,
    limit: AtomicU64,
    full: AtomicU64,
    device: AtomicU64,
    no_memory: AtomicU64,
    probes: AtomicU64,
    failed_probes: AtomicU64,
    no_descriptor: AtomicU64,
    results: Results,
    /// Of each event handler that hands in replies.
    times: Vec<Times>,
    tcp: Clients,
    http: Clients,
}

impl Sends {
    /// All are 0, and no probe was answered. So many event handlers can note replies. The one error
    /// is refused memory.
    pub fn made(alloc: Global, handlers: usize) -> Result<Sends, AllocError> {
        let mut times = Vec::with_capacity(alloc, handlers)?;
        for _ in 0..handlers {
            times.push(Times::made(alloc)?)?;
        }
        Ok(Sends {
            no_server: AtomicU64::new(0),
            gone: AtomicU64::new(0),
            limit: AtomicU64::new(0),
            full: AtomicU64::new(0),
            device: AtomicU64::new(0),
            no_memory: AtomicU64::new(0),
            probes: AtomicU64::new(0),
            failed_probes: AtomicU64::new(0),
            no_descriptor: AtomicU64::new(0),
            results: Results::made(alloc)?,
            times,
            tcp: Clients::none(),
            http: Clients::none(),
        })
    }

    /// Notes the lines of a turn.
    pub fn note(&self, lines: &[Line]) {
        for line in lines {
            match line {
                Line::Event(_, _, _, Sending::Failed(why)) | Line::Job(_, Sending::Failed(why)) => {
                    raise(self.of(*why));
                }
                Line::Event(_, event, _, _) => {
                    if let Head::HealthResult(now, server, ok) = event.head() {
                        self.results.note(server, now, ok);
                    }
                }
                Line::Job(..) => {}
                Line::Probe(_, _, sending) => self.note_probe(*sending),
            }
        }
    }

    /// Notes a probe.
    fn note_probe(&self, sending: Sending) {
        match sending {
            Sending::Done(_) => raise(&self.probes),
            Sending::Failed(_) => raise(&self.failed_probes),
            Sending::Nothing => {}
        }
    }

    /// Notes a reply for a client, for which a server took so many milliseconds. The event handler
    /// with this number has handed it in, and notes its replies alone.
    pub fn note_reply(&self, handler: usize, server: ServerId, took: u64) {
        if let Some(times) = self.times.get(handler) {
            times.note(server, took);
        }
    }

    /// How long the replies of a server took, if there was one. Of two servers whose numbers are
    /// equal modulo 256, the later one alone is counted.
    pub fn reply_times(&self, server: ServerId) -> Option<ReplyTimes> {
        let mut all = ReplyTimes::none();
        let mut has_replied = false;
        for times in &self.times {
            has_replied |= times.add_to(server, &mut all);
        }
        if has_replied { Some(all) } else { None }
    }

    /// Notes that the system had no descriptor for a client, or for a connection to a server.
    pub fn lack_descriptor(&self) {
        raise(&self.no_descriptor);
    }

    /// How often the system had no descriptor for a client, or for a connection to a server.
    pub fn lacked_descriptors(&self) -> u64 {
        read(&self.no_descriptor)
    }

    /// The clients over TCP.
    pub fn tcp(&self) -> &Clients {
        &self.tcp
    }

    /// The clients of DNS on HTTP.
    pub fn http(&self) -> &Clients {
        &self.http
    }

    /// How many sends failed, by cause. Probes are counted apart.
    pub fn failed(&self) -> [(&'static str, u64); 6] {
        [
            ("noserver", read(&self.no_server)),
            ("gone", read(&self.gone)),
            ("limit", read(&self.limit)),
            ("full", read(&self.full)),
            ("device", read(&self.device)),
            ("nomemory", read(&self.no_memory)),
        ]
    }

    /// Notes a query of a client over HTTP that found the outbox to the loop of TCP full.
    pub fn fill(&self) {
        raise(&self.full);
    }

    /// How many messages found the outbox to the loop of TCP full: those for clients over TCP, and
    /// queries of clients over HTTP.
    pub fn full(&self) -> u64 {
        read(&self.full)
    }

    /// How many probes were sent.
    pub fn probes(&self) -> u64 {
        read(&self.probes)
    }

    /// How many probes could not be sent.
    pub fn failed_probes(&self) -> u64 {
        read(&self.failed_probes)
    }

    /// The last result of the probes of a server, if there was one.
    pub fn probed(&self, server: ServerId) -> Option<Probed> {
        self.results.of(server)
    }

    /// The count of a cause.
    fn of(&self, why: Why) -> &AtomicU64 {
        match why {
            Why::NoServer => &self.no_server,
            Why::Gone => &self.gone,
            Why::Limit => &self.limit,
            Why::Full => &self.full,
            Why::Device => &self.device,
            Why::NoMemory => &self.no_memory,
        }
    }
}
