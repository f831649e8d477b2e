//! All counts in the text format of Prometheus, each with its type and a sentence.

use crate::lines::Lines;
use crate::lists::{
    ANSWERS, EVENTS, add_counts, add_queries, add_reasons, closings, is_up, kinds, one_if,
    pool_with, refusals,
};
use crate::process::Process;
use crate::told::{Backend, Ended, Store, Told};
use lb_command::Listener;
use lb_sends::{ReplyTimes, Sends};
use std::alloc::{AllocError, Global};

/// The type of a family of figures.
#[derive(Clone, Copy, Debug, PartialEq, Eq)]
enum MetricType {
    /// It only grows.
    Counter,
    /// It is a current number.
    Gauge,
    /// It has counts by bounds, with their number and their sum.
    Histogram,
}

/// The bounds of the times of replies, in seconds.
const BOUNDS: [&str; 14] = [
    "0.001", "0.002", "0.004", "0.008", "0.016", "0.032", "0.064", "0.128", "0.256", "0.512",
    "1.024", "2.048", "4.096", "+Inf",
];

/// A family begins: its name, its type and what it is.
fn family(page: &mut Lines, name: &str, kind: MetricType, help: &str) -> Result<(), AllocError> {
    let kind = match kind {
        MetricType::Counter => "counter",
        MetricType::Gauge => "gauge",
        MetricType::Histogram => "histogram",
    };
    page.words("# HELP", name, help)?;
    page.words("# TYPE", name, kind)
}

/// A family of one figure.
fn single(
    page: &mut Lines,
    name: &str,
    kind: MetricType,
    help: &str,
    value: u64,
) -> Result<(), AllocError> {
    family(page, name, kind, help)?;
    page.figure(name, value)
}

/// All counts, and for how many seconds it has run, which the caller gives.
pub(crate) fn metrics(
    alloc: Global,
    told: &Told,
    ended: &[Ended],
    listeners: &[Listener],
    sends: &Sends,
    seconds: u64,
) -> Result<Lines, AllocError> {
    let mut page = Lines::new(alloc);
    of_events(alloc, &mut page, told, listeners)?;
    of_sends(&mut page, sends)?;
    of_clients(&mut page, sends)?;
    of_rules(alloc, &mut page, ended)?;
    of_servers(&mut page, told.servers.as_slice())?;
    of_replies(alloc, &mut page, told.servers.as_slice(), sends)?;
    of_caches(&mut page, told)?;
    of_the_whole(&mut page, told, seconds)?;
    of_process(&mut page, Process::look())?;
    Ok(page)
}

fn of_events(
    alloc: Global,
    page: &mut Lines,
    told: &Told,
    listeners: &[Listener],
) -> Result<(), AllocError> {
    family(
        page,
        "lb_queries_total",
        MetricType::Counter,
        "Queries that came by a listener.",
    )?;
    add_queries(alloc, page, told, listeners)?;
    let name = "lb_events_total";
    family(
        page,
        name,
        MetricType::Counter,
        "Events that were answered, by their kind.",
    )?;
    add_counts(page, &told.counts, name, "kind", &EVENTS)?;
    let name = "lb_answers_total";
    family(
        page,
        name,
        MetricType::Counter,
        "What became of the events, by the reason.",
    )?;
    add_counts(page, &told.counts, name, "why", &ANSWERS)
}

fn of_sends(page: &mut Lines, sends: &Sends) -> Result<(), AllocError> {
    let name = "lb_sends_failed_total";
    family(
        page,
        name,
        MetricType::Counter,
        "Messages that could not be sent, by the cause.",
    )?;
    for (cause, count) in sends.failed() {
        page.labelled(name, "why", cause, count)?;
    }
    let counters = [
        ("lb_probes_total", "Probes that were sent.", sends.probes()),
        (
            "lb_probes_failed_total",
            "Probes that could not be sent.",
            sends.failed_probes(),
        ),
        (
            "lb_descriptors_lacking_total",
            "How often no descriptor was left for a client over TCP or a connection to a server.",
            sends.lacked_descriptors(),
        ),
    ];
    for (name, help, count) in counters {
        single(page, name, MetricType::Counter, help, count)?;
    }
    Ok(())
}

fn of_clients(page: &mut Lines, sends: &Sends) -> Result<(), AllocError> {
    let name = "lb_clients_total";
    family(
        page,
        name,
        MetricType::Counter,
        "Clients that were taken in, by the protocol.",
    )?;
    for (kind, clients) in kinds(sends) {
        page.labelled(name, "kind", kind, clients.taken())?;
    }
    let name = "lb_connections";
    family(
        page,
        name,
        MetricType::Gauge,
        "Clients that are connected, by the protocol.",
    )?;
    for (kind, clients) in kinds(sends) {
        page.labelled(name, "kind", kind, clients.connected())?;
    }
    let name = "lb_clients_refused_total";
    family(
        page,
        name,
        MetricType::Counter,
        "Clients that were closed at once, by the reason.",
    )?;
    add_reasons(page, name, &refusals(sends))?;
    let name = "lb_clients_closed_total";
    let help = "Clients that were closed before they closed their side, by the reason.";
    family(page, name, MetricType::Counter, help)?;
    add_reasons(page, name, &closings(sends))
}

fn of_rules(alloc: Global, page: &mut Lines, ended: &[Ended]) -> Result<(), AllocError> {
    let name = "lb_rule_ended_total";
    family(
        page,
        name,
        MetricType::Counter,
        "Walks that a rule ended, by its number.",
    )?;
    for (rule, ended) in ended {
        let number = rule.0;
        let line = format!(in alloc; "{name}{{rule=\"{number}\"}} {ended}")?;
        page.add(line.as_str())?;
    }
    Ok(())
}

/// A figure of a server.
#[derive(Clone, Copy, Debug)]
enum OfServer {
    Up,
    Outstanding,
    Forwards,
    Replies,
    Expiries,
}

impl OfServer {
    /// The figures of a server in their order, each with the name of its family, its type and what
    /// it is.
    const ALL: [(OfServer, &'static str, MetricType, &'static str); 5] = [
        (
            OfServer::Up,
            "lb_server_up",
            MetricType::Gauge,
            "Whether a server gets queries: 1 if it is up.",
        ),
        (
            OfServer::Outstanding,
            "lb_server_outstanding",
            MetricType::Gauge,
            "Pending queries of a server.",
        ),
        (
            OfServer::Forwards,
            "lb_forwards_total",
            MetricType::Counter,
            "Queries to be sent to a server.",
        ),
        (
            OfServer::Replies,
            "lb_replies_total",
            MetricType::Counter,
            "Replies of a server for clients.",
        ),
        (
            OfServer::Expiries,
            "lb_expiries_total",
            MetricType::Counter,
            "Queries to a server that timed out.",
        ),
    ];

    /// What it is of a server.
    fn of(self, backend: &Backend) -> u64 {
        match self {
            OfServer::Up => one_if(is_up(backend)),
            OfServer::Outstanding => backend.loaded.outstanding,
            OfServer::Forwards => backend.counts.forwarded,
            OfServer::Replies => backend.counts.replied,
            OfServer::Expiries => backend.counts.expired,
        }
    }
}

fn of_servers(page: &mut Lines, servers: &[Backend]) -> Result<(), AllocError> {
    for (figure, name, kind, help) in OfServer::ALL {
        family(page, name, kind, help)?;
        for backend in servers {
            let server = backend.loaded.server.name.as_str();
            page.labelled(name, "server", server, figure.of(backend))?;
        }
    }
    Ok(())
}

/// The times of replies, of each server that has replied.
fn of_replies(
    alloc: Global,
    page: &mut Lines,
    servers: &[Backend],
    sends: &Sends,
) -> Result<(), AllocError> {
    let help = "How long a server took for replies for clients.";
    family(page, TIMES, MetricType::Histogram, help)?;
    for backend in servers {
        let server = &backend.loaded.server;
        if let Some(times) = sends.reply_times(server.id) {
            of_times(alloc, page, server.name.as_str(), &times)?;
        }
    }
    Ok(())
}

/// The family of the times of replies.
const TIMES: &str = "lb_reply_seconds";

/// The times of a server: how many replies took no longer than each bound, and all of them.
fn of_times(
    alloc: Global,
    page: &mut Lines,
    server: &str,
    times: &ReplyTimes,
) -> Result<(), AllocError> {
    let (name, mut count) = (TIMES, 0u64);
    for (counted, bound) in times.counts.iter().zip(BOUNDS) {
        count = count.saturating_add(*counted);
        let line = format!(in alloc;
            "{name}_bucket{{server=\"{server}\",le=\"{bound}\"}} {count}"
        )?;
        page.add(line.as_str())?;
    }
    let (seconds, rest) = (times.sum / 1_000, times.sum % 1_000);
    let line = format!(in alloc; "{name}_sum{{server=\"{server}\"}} {seconds}.{rest:03}")?;
    page.add(line.as_str())?;
    page.labelled("lb_reply_seconds_count", "server", server, count)
}

/// A figure of a cache.
#[derive(Clone, Copy, Debug)]
enum OfCache {
    Entries,
    MaxEntries,
    Lookups,
    Hits,
}

impl OfCache {
    /// The figures of a cache in their order, each with the name of its family, its type and what
    /// it is.
    const ALL: [(OfCache, &'static str, MetricType, &'static str); 4] = [
        (
            OfCache::Entries,
            "lb_cache_entries",
            MetricType::Gauge,
            "Replies that the cache of a pool keeps.",
        ),
        (
            OfCache::MaxEntries,
            "lb_cache_max_entries",
            MetricType::Gauge,
            "Replies that the cache of a pool may keep.",
        ),
        (
            OfCache::Lookups,
            "lb_cache_lookups_total",
            MetricType::Counter,
            "Queries for which the cache of a pool was asked.",
        ),
        (
            OfCache::Hits,
            "lb_cache_hits_total",
            MetricType::Counter,
            "Queries that the cache of a pool answered.",
        ),
    ];

    /// What it is of a cache.
    fn of(self, store: &Store) -> u64 {
        match self {
            OfCache::Entries => store.kept as u64,
            OfCache::MaxEntries => u64::from(store.max.get()),
            OfCache::Lookups => store.counts.asked,
            OfCache::Hits => store.counts.hit,
        }
    }
}

fn of_caches(page: &mut Lines, told: &Told) -> Result<(), AllocError> {
    for (figure, name, kind, help) in OfCache::ALL {
        family(page, name, kind, help)?;
        for store in &told.caches {
            page.labelled(name, "pool", pool_with(told, store), figure.of(store))?;
        }
    }
    Ok(())
}

fn of_the_whole(page: &mut Lines, told: &Told, seconds: u64) -> Result<(), AllocError> {
    let gauges = [
        ("lb_rules", "Rules.", told.totals.rules as u64),
        (
            "lb_outstanding",
            "Pending queries.",
            told.totals.outstanding as u64,
        ),
        (
            "lb_counts_lacking",
            "1 if memory for a count was ever refused.",
            one_if(told.lacks),
        ),
        (
            "lb_running_seconds",
            "For how many seconds it has run.",
            seconds,
        ),
    ];
    for (name, help, value) in gauges {
        single(page, name, MetricType::Gauge, help, value)?;
    }
    Ok(())
}

/// What the system says of the process; what can't be read is left out.
fn of_process(page: &mut Lines, process: Process) -> Result<(), AllocError> {
    if let Some(octets) = process.resident {
        let name = "process_resident_memory_bytes";
        single(
            page,
            name,
            MetricType::Gauge,
            "Resident memory size in bytes.",
            octets,
        )?;
    }
    if let Some(descriptors) = process.descriptors {
        let help = "Number of open file descriptors.";
        single(
            page,
            "process_open_fds",
            MetricType::Gauge,
            help,
            descriptors,
        )?;
    }
    Ok(())
}
