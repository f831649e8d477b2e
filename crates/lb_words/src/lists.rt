//! The lists of rules, servers, pools, caches and counts.

use crate::lines::Lines;
use crate::rules::{Extent, rule_text};
use crate::seen::Beside;
use crate::texts::pool_named;
use crate::told::{Backend, Counted, Shown, Store, Told};
use lb_command::{Listener, Protocol};
use lb_core::{CacheCounts, Count, Counts, ServerCounts};
use lb_sends::{Clients, Closing, Refusal, Sends};
use lb_servers::{Mode, Pool, PoolName};
use lb_typed::{addr_word, codes_word, mode_word, policy_word, pool_word};
use lb_wire::{Addr, RuleId};
use std::alloc::{AllocError, Global};
use std::num::NonZeroU16;

/// Rules, one for each time that the lock is held.
pub(crate) fn rules<S: Shown>(alloc: Global, shown: &S) -> Result<String, AllocError> {
    let told = shown.told(alloc)?;
    let mut lines = Lines::new(alloc);
    for place in 0..told.totals.rules {
        if let Some(counted) = shown.rule_at(alloc, place)? {
            let line = rule_line(alloc, place, &counted, told.pools.as_slice(), Extent::Short)?;
            lines.add(line.as_str())?;
        }
    }
    lines.ended()
}

/// One rule, by its number and whole.
pub(crate) fn rule<S: Shown>(alloc: Global, shown: &S, id: RuleId) -> Result<String, AllocError> {
    let told = shown.told(alloc)?;
    let mut lines = Lines::new(alloc);
    if let Some(place) = shown.place_of(id)
        && let Some(counted) = shown.rule_at(alloc, place)?
    {
        let line = rule_line(alloc, place, &counted, told.pools.as_slice(), Extent::Whole)?;
        lines.add(line.as_str())?;
    }
    lines.ended()
}

fn rule_line(
    alloc: Global,
    place: usize,
    counted: &Counted,
    pools: &[Pool],
    extent: Extent,
) -> Result<String, AllocError> {
    let (id, rule, ended) = counted;
    let number = id.0;
    let text = rule_text(alloc, rule, pools, extent)?;
    format!(in alloc; "rule {number} place {place} ended {ended} {text}")
}

/// Servers.
pub(crate) fn servers(alloc: Global, told: &Told, beside: Beside) -> Result<String, AllocError> {
    let mut lines = Lines::new(alloc);
    for backend in &told.servers {
        let line = server_line(alloc, backend, told.pools.as_slice(), beside)?;
        lines.add(line.as_str())?;
    }
    lines.ended()
}

fn server_line(
    alloc: Global,
    backend: &Backend,
    pools: &[Pool],
    beside: Beside,
) -> Result<String, AllocError> {
    let server = &backend.loaded.server;
    let number = server.id.0;
    let name = server.name.as_str();
    let at = addr_word(alloc, &server.addr)?;
    let port = server.port.get();
    let state = if is_up(backend) { "up" } else { "down" };
    let mode = mode_word(server.mode);
    let order = server.order;
    let lanes = server.lanes.get();
    let pools = pools_of(alloc, backend, pools)?;
    let outstanding = backend.loaded.outstanding;
    let ServerCounts {
        forwarded,
        replied,
        expired,
    } = backend.counts;
    let seen = beside.seen_text(alloc, server.id)?;
    format!(in alloc;
        "server {number} {name} {at} {port} {state} mode {mode} order {order} lanes {lanes} pools {pools} outstanding {outstanding} forwarded {forwarded} replied {replied} expired {expired} {seen}"
    )
}

/// Whether a server is up: by its mode, or in mode auto by its mark.
pub(crate) fn is_up(backend: &Backend) -> bool {
    let server = &backend.loaded.server;
    match server.mode {
        Mode::Up => true,
        Mode::Down => false,
        Mode::Auto => server.marked_up,
    }
}

/// The pools that a server stands in, joined by commas.
fn pools_of(alloc: Global, backend: &Backend, pools: &[Pool]) -> Result<String, AllocError> {
    let mut text = String::new(alloc);
    for (place, pool) in backend.loaded.server.pools.as_slice().iter().enumerate() {
        if place > 0 {
            text.push_str(",")?;
        }
        text.push_str(pool_named(pools, *pool))?;
    }
    Ok(text)
}

/// Pools.
pub(crate) fn pools(alloc: Global, told: &Told) -> Result<String, AllocError> {
    let mut lines = Lines::new(alloc);
    for (place, pool) in told.pools.iter().enumerate() {
        let line = pool_line(alloc, told, place, pool)?;
        lines.add(line.as_str())?;
    }
    lines.ended()
}

fn pool_line(alloc: Global, told: &Told, place: usize, pool: &Pool) -> Result<String, AllocError> {
    let name = pool_word(&pool.name);
    let policy = policy_word(pool.policy);
    let (mut all, mut up) = (0usize, 0usize);
    for backend in &told.servers {
        if is_in(backend, place) {
            all = all.saturating_add(1);
            if is_up(backend) {
                up = up.saturating_add(1);
            }
        }
    }
    match pool.cache {
        Some(cache) => {
            let cache = cache.0;
            format!(in alloc; "pool {name} policy {policy} up {up} of {all} cache {cache}")
        }
        None => format!(in alloc; "pool {name} policy {policy} up {up} of {all} cache -"),
    }
}

/// Whether a server stands in the pool at a place.
fn is_in(backend: &Backend, place: usize) -> bool {
    let pools = backend.loaded.server.pools.as_slice();
    pools.iter().any(|pool| usize::from(pool.0) == place)
}

/// Caches.
pub(crate) fn caches(alloc: Global, told: &Told) -> Result<String, AllocError> {
    let mut lines = Lines::new(alloc);
    for store in &told.caches {
        let line = cache_line(alloc, told, store)?;
        lines.add(line.as_str())?;
    }
    lines.ended()
}

fn cache_line(alloc: Global, told: &Told, store: &Store) -> Result<String, AllocError> {
    let number = store.id.0;
    let pool = pool_with(told, store);
    let kept = store.kept;
    let max = store.max.get();
    let shards = store.shards.get();
    let ttl = store.max_ttl.get();
    let skips = codes(alloc, store.skips.as_slice())?;
    let CacheCounts { asked, hit } = store.counts;
    format!(in alloc;
        "cache {number} pool {pool} kept {kept} of {max} shards {shards} maxttl {ttl} skip {skips} hits {hit} of {asked}"
    )
}

/// The name of the pool that has a cache.
pub(crate) fn pool_with<'a>(told: &'a Told, store: &Store) -> &'a str {
    match name_with(told, store) {
        Some(name) => pool_word(name),
        None => "?",
    }
}

/// The pool that has a cache.
pub(crate) fn name_with<'a>(told: &'a Told, store: &Store) -> Option<&'a PoolName> {
    for pool in &told.pools {
        if pool.cache == Some(store.id) {
            return Some(&pool.name);
        }
    }
    None
}

/// Codes of options, joined by commas; `none` if there are none.
fn codes(alloc: Global, codes: &[u16]) -> Result<String, AllocError> {
    if codes.is_empty() {
        return String::from_str(alloc, "none");
    }
    codes_word(alloc, codes)
}

/// The counts of events, by what they are.
pub(crate) const EVENTS: [(Count, &str); 6] = [
    (Count::Datagrams, "datagram"),
    (Count::Streams, "stream"),
    (Count::Replies, "reply"),
    (Count::Ticks, "tick"),
    (Count::HealthResults, "health"),
    (Count::Edits, "edit"),
];

/// The counts of answers, by their reasons.
pub(crate) const ANSWERS: [(Count, &str); 24] = [
    (Count::Short, "short"),
    (Count::NotQuery, "notquery"),
    (Count::RuleDropped, "dropped"),
    (Count::Malformed, "malformed"),
    (Count::Transfer, "transfer"),
    (Count::RuleAnswered, "rule"),
    (Count::Hit, "hit"),
    (Count::NoServer, "noserver"),
    (Count::LaneFull, "lanefull"),
    (Count::Forwarded, "forward"),
    (Count::Kept, "kept"),
    (Count::NotKept, "notkept"),
    (Count::NoRoom, "noroom"),
    (Count::NotKeptForMemory, "notkept-nomemory"),
    (Count::Expired, "expired"),
    (Count::Quiet, "quiet"),
    (Count::ShortReply, "reply-short"),
    (Count::NotReply, "notreply"),
    (Count::UnknownReply, "unknown"),
    (Count::Mismatch, "mismatch"),
    (Count::NoSuchServer, "health-noserver"),
    (Count::Edited, "edited"),
    (Count::Refused, "refused"),
    (Count::LackedMemory, "nomemory"),
];

/// Counts of events and answers, of the queries of each listener, of failed sends and of probes,
/// with the names of Prometheus' text format.
pub(crate) fn counters(
    alloc: Global,
    told: &Told,
    listeners: &[Listener],
    sends: &Sends,
) -> Result<String, AllocError> {
    let mut lines = Lines::new(alloc);
    add_queries(alloc, &mut lines, told, listeners)?;
    add_counts(&mut lines, &told.counts, "lb_events_total", "kind", &EVENTS)?;
    add_counts(
        &mut lines,
        &told.counts,
        "lb_answers_total",
        "why",
        &ANSWERS,
    )?;
    add_sends(&mut lines, sends)?;
    add_clients(&mut lines, sends)?;
    add_totals(&mut lines, told)?;
    lines.ended()
}

/// Adds how many queries came by each listener.
pub(crate) fn add_queries(
    alloc: Global,
    lines: &mut Lines,
    told: &Told,
    listeners: &[Listener],
) -> Result<(), AllocError> {
    for (place, listener) in listeners.iter().enumerate() {
        if let Ok(front) = u8::try_from(place)
            && listener.protocol != Protocol::Console
        {
            let of = listener_text(alloc, listener)?;
            let count = told.counts.of_front(front);
            lines.labelled("lb_queries_total", "listen", of.as_str(), count)?;
        }
    }
    Ok(())
}

/// Adds the counts of a family, each with its name.
pub(crate) fn add_counts(
    lines: &mut Lines,
    counts: &Counts,
    family: &str,
    label: &str,
    names: &[(Count, &str)],
) -> Result<(), AllocError> {
    for (count, name) in names {
        lines.labelled(family, label, *name, counts.get(*count))?;
    }
    Ok(())
}

/// Adds what the loops count beside the desk: failed sends, probes, and lacking descriptors.
fn add_sends(lines: &mut Lines, sends: &Sends) -> Result<(), AllocError> {
    for (cause, count) in sends.failed() {
        lines.labelled("lb_sends_failed_total", "why", cause, count)?;
    }
    lines.figure("lb_probes_total", sends.probes())?;
    lines.figure("lb_probes_failed_total", sends.failed_probes())?;
    lines.figure("lb_descriptors_lacking_total", sends.lacked_descriptors())
}

/// Adds the clients of the protocols that hold connections.
fn add_clients(lines: &mut Lines, sends: &Sends) -> Result<(), AllocError> {
    for (kind, clients) in kinds(sends) {
        lines.labelled("lb_clients_total", "kind", kind, clients.taken())?;
        lines.labelled("lb_connections", "kind", kind, clients.connected())?;
    }
    add_reasons(lines, "lb_clients_refused_total", &refusals(sends))?;
    add_reasons(lines, "lb_clients_closed_total", &closings(sends))
}

/// Adds the figures of a family that has one for each protocol and reason.
pub(crate) fn add_reasons(
    lines: &mut Lines,
    family: &str,
    figures: &[(&str, &str, u64)],
) -> Result<(), AllocError> {
    for (kind, why, count) in figures {
        lines.explained(family, *kind, *why, *count)?;
    }
    Ok(())
}

/// Adds how much there is of each part.
fn add_totals(lines: &mut Lines, told: &Told) -> Result<(), AllocError> {
    lines.figure("lb_rules", told.totals.rules as u64)?;
    lines.figure("lb_outstanding", told.totals.outstanding as u64)?;
    let kept = u64::try_from(told.totals.kept).unwrap_or(u64::MAX);
    lines.figure("lb_cache_entries", kept)?;
    lines.figure("lb_counts_lacking", one_if(told.lacks))
}

/// 1 if it is so, else 0.
pub(crate) fn one_if(is_so: bool) -> u64 {
    if is_so { 1 } else { 0 }
}

/// The clients of each protocol that holds connections.
pub(crate) fn kinds(sends: &Sends) -> [(&'static str, &Clients); 2] {
    [("tcp", sends.tcp()), ("http", sends.http())]
}

/// How many clients were closed at once, by protocol and reason.
pub(crate) fn refusals(sends: &Sends) -> [(&'static str, &'static str, u64); 3] {
    let (tcp, http) = (sends.tcp(), sends.http());
    [
        ("tcp", "source", tcp.refused(Refusal::Source)),
        ("tcp", "full", tcp.refused(Refusal::Full)),
        ("http", "full", http.refused(Refusal::Full)),
    ]
}

/// How many clients were closed that had not closed their own side, by protocol and reason.
pub(crate) fn closings(sends: &Sends) -> [(&'static str, &'static str, u64); 4] {
    let (tcp, http) = (sends.tcp(), sends.http());
    [
        ("tcp", "idle", tcp.closed(Closing::Idle)),
        ("tcp", "unread", tcp.closed(Closing::Unread)),
        ("http", "idle", http.closed(Closing::Idle)),
        ("http", "unread", http.closed(Closing::Unread)),
    ]
}

/// A listener as its line of the setup file has it.
pub(crate) fn listener_text(alloc: Global, listener: &Listener) -> Result<String, AllocError> {
    let word = protocol_word(listener.protocol);
    let at = at_text(alloc, &listener.addr, listener.port)?;
    format!(in alloc; "{word} {at}")
}

/// The word of a protocol in a line that listens.
pub(crate) fn protocol_word(protocol: Protocol) -> &'static str {
    match protocol {
        Protocol::Udp => "udp",
        Protocol::Tcp => "tcp",
        Protocol::Doh => "doh",
        Protocol::Console => "console",
    }
}

/// An address and a port, as they are typed.
pub(crate) fn at_text(alloc: Global, addr: &Addr, port: NonZeroU16) -> Result<String, AllocError> {
    let at = addr_word(alloc, addr)?;
    let port = port.get();
    format!(in alloc; "{at} {port}")
}
