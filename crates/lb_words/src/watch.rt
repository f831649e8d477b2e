//! What changed since the last look, as sentences.

use crate::lists::{at_text, is_up, pool_with};
use crate::told::{Backend, Store, Told};
use lb_core::Count;
use lb_sends::{Refusal, Sends};
use lb_servers::Mode;
use lb_wire::{CacheId, ServerId};
use std::alloc::{AllocError, Global};

/// What was seen of a server.
#[derive(Clone, Copy, Debug)]
struct Seen {
    id: ServerId,
    mode: Mode,
    is_up: bool,
    /// When it was first seen so, in milliseconds.
    since: u64,
}

/// What had been lacking by the last look.
#[derive(Clone, Copy, Debug, PartialEq, Eq)]
struct Lacked {
    /// Replies that found their cache full of live ones.
    room: u64,
    /// Events for which memory was refused.
    memory: u64,
    descriptors: u64,
    /// Messages that found the outbox full.
    outbox: u64,
    /// Clients of DNS on HTTP that were closed at once.
    http: u64,
    /// Whether as many clients over TCP were connected as may be.
    is_full: bool,
}

/// Nothing has been lacking.
const NOTHING: Lacked = Lacked {
    room: 0,
    memory: 0,
    descriptors: 0,
    outbox: 0,
    http: 0,
    is_full: false,
};

impl Lacked {
    /// What has been lacking until now.
    fn by_now(told: &Told, sends: &Sends) -> Lacked {
        let queries = told.counts.get(Count::LackedMemory);
        Lacked {
            room: told.counts.get(Count::NoRoom),
            memory: queries.saturating_add(told.counts.get(Count::NotKeptForMemory)),
            descriptors: sends.lacked_descriptors(),
            outbox: sends.full(),
            http: sends.http().refused(Refusal::Full),
            is_full: sends.tcp().is_full(),
        }
    }
}

/// What was seen at the last look.
#[derive(Debug, Drop)]
pub(crate) struct Watch {
    alloc: Global,
    servers: Vec<Seen>,
    /// The attached caches that were reported as full.
    full: Vec<CacheId>,
    lacked: Lacked,
}

impl Watch {
    /// Nothing was seen yet. It takes no memory.
    pub(crate) fn new(alloc: Global) -> Watch {
        Watch {
            alloc,
            servers: Vec::new(alloc),
            full: Vec::new(alloc),
            lacked: NOTHING,
        }
    }

    /// Says what changed since the last look: servers that went down or came up, and what was
    /// lacking. At the first look no server has changed, and what was lacking since the start is
    /// said. The one error is lack of memory: then the next look says it.
    pub(crate) fn changes(
        &mut self,
        told: &Told,
        sends: &Sends,
        now: u64,
    ) -> Result<Vec<String>, AllocError> {
        let mut said = Vec::new(self.alloc);
        let servers = self.seen(told, now, &mut said)?;
        let lacked = Lacked::by_now(told, sends);
        let full = self.full(told, &lacked, &mut said)?;
        say_lacks(self.alloc, &self.lacked, &lacked, &mut said)?;
        say_full(self.alloc, &self.lacked, sends, &mut said)?;
        self.servers = servers;
        self.full = full;
        self.lacked = lacked;
        Ok(said)
    }

    /// What is seen of the servers now. Says of which of them that is new.
    fn seen(&self, told: &Told, now: u64, said: &mut Vec<String>) -> Result<Vec<Seen>, AllocError> {
        let mut servers = Vec::with_capacity(self.alloc, told.servers.len())?;
        for backend in &told.servers {
            let mut seen = Seen {
                id: backend.loaded.server.id,
                mode: backend.loaded.server.mode,
                is_up: is_up(backend),
                since: now,
            };
            if let Some(was) = self.was(seen.id) {
                if was.is_up == seen.is_up {
                    seen.since = was.since;
                } else {
                    said.push(change(self.alloc, backend, was.mode == seen.mode)?)?;
                }
            }
            servers.push(seen)?;
        }
        Ok(servers)
    }

    /// The attached caches that were reported as full. If replies found no room since the last look,
    /// those that keep all that they may are reported now, each once.
    fn full(
        &self,
        told: &Told,
        now: &Lacked,
        said: &mut Vec<String>,
    ) -> Result<Vec<CacheId>, AllocError> {
        let is_refused = now.room > self.lacked.room;
        let mut full = Vec::with_capacity(self.alloc, told.caches.len())?;
        for store in &told.caches {
            let was_full = self.full.iter().any(|id| *id == store.id);
            if was_full || is_refused && is_filled(store) {
                full.push(store.id)?;
            }
            if !was_full && is_refused && is_filled(store) {
                said.push(full_text(self.alloc, told, store)?)?;
            }
        }
        Ok(full)
    }

    /// Since when a server is up or down as it was at the last look, in milliseconds.
    pub(crate) fn since(&self, id: ServerId) -> Option<u64> {
        Some(self.was(id)?.since)
    }

    /// What was seen of a server at the last look, if it was there.
    fn was(&self, id: ServerId) -> Option<Seen> {
        for seen in &self.servers {
            if seen.id == id {
                return Some(*seen);
            }
        }
        None
    }
}

/// Says what has been lacking since a look.
fn say_lacks(
    alloc: Global,
    before: &Lacked,
    now: &Lacked,
    said: &mut Vec<String>,
) -> Result<(), AllocError> {
    let lacked = now.memory.saturating_sub(before.memory);
    if lacked > 0 {
        said.push(format!(in alloc; "memory was refused for {lacked} queries and replies")?)?;
    }
    let lacked = now.descriptors.saturating_sub(before.descriptors);
    if lacked > 0 {
        said.push(format!(in alloc;
            "no descriptor was left, {lacked} times, for a client over TCP or a connection to a server"
        )?)?;
    }
    let lost = now.outbox.saturating_sub(before.outbox);
    if lost > 0 {
        said.push(format!(in alloc;
            "the outbox to the loop of TCP was full, and {lost} messages are lost"
        )?)?;
    }
    Ok(())
}

/// Whether a cache keeps as many replies as it may.
fn is_filled(store: &Store) -> bool {
    u64::try_from(store.kept).unwrap_or(u64::MAX) >= u64::from(store.max.get())
}

/// That a cache is full.
fn full_text(alloc: Global, told: &Told, store: &Store) -> Result<String, AllocError> {
    let number = store.id.0;
    let pool = pool_with(told, store);
    let max = store.max.get();
    format!(in alloc;
        "cache {number} of pool {pool} is full of replies that are still valid ({max}), and turns new ones away"
    )
}

/// Says that no more clients are taken in, or that they are again.
fn say_full(
    alloc: Global,
    before: &Lacked,
    sends: &Sends,
    said: &mut Vec<String>,
) -> Result<(), AllocError> {
    let is_full = sends.tcp().is_full();
    if is_full && !before.is_full {
        let most = sends.tcp().most();
        said.push(format!(in alloc;
            "{most} clients over TCP are connected, as many as may be: others wait or are closed"
        )?)?;
    }
    if before.is_full && !is_full {
        let words = "clients over TCP are taken in again";
        said.push(String::from_str(alloc, words)?)?;
    }
    let closed = sends
        .http()
        .refused(Refusal::Full)
        .saturating_sub(before.http);
    if closed > 0 {
        let most = sends.http().most();
        said.push(format!(in alloc;
            "{closed} clients of DNS on HTTP were closed at once, as {most} were connected"
        )?)?;
    }
    Ok(())
}

/// How a server changed: by its probes, or with its mode.
fn change(alloc: Global, backend: &Backend, by_probes: bool) -> Result<String, AllocError> {
    let server = &backend.loaded.server;
    let name = server.name.as_str();
    let at = at_text(alloc, &server.addr, server.port)?;
    let state = if is_up(backend) { "up" } else { "down" };
    if server.mode != Mode::Auto {
        return format!(in alloc; "server {name} ({at}) is {state} by its mode");
    }
    if !by_probes {
        return format!(in alloc; "server {name} ({at}) is {state} by its probes");
    }
    let probes = match &backend.check {
        Some(check) if server.marked_up => check.health.rise().get(),
        Some(check) => check.health.fall().get(),
        None => 1,
    };
    let (change, result) = if server.marked_up {
        ("came up", "successful")
    } else {
        ("went down", "failed")
    };
    if probes == 1 {
        return format!(in alloc; "server {name} ({at}) {change} after a {result} probe");
    }
    format!(in alloc; "server {name} ({at}) {change} after {probes} {result} probes in a row")
}
