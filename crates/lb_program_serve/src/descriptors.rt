//! How many descriptors the program may have, and for how many clients they suffice.

use crate::desk::Plan;
use lb_command::{Listener, Protocol};
use lb_loops_io::MAX_CLIENTS;
use lb_program::ServerPlace;
use lb_servers::MAX_SERVERS;
use libc;
use libc::types::rlimit;

/// As many as 1,024 clients of streams, 1,024 by HTTP, 256 servers with a lane of each transport,
/// and what is listened with need.
const ENOUGH: u64 = 3_200;

/// The most clients of a kind, however many descriptors there are.
const MAX_OF_KIND: u64 = MAX_CLIENTS as u64;

/// What the program has besides listeners, servers and their clients: its queues of events, what
/// wakes its threads, standard input and output, clients of the console, and some to spare for
/// servers that the console adds.
const OWN: u64 = 48;

/// What the probes of a server take: a socket, and another one while it is made anew.
const OF_PROBES: u64 = 2;

/// What a loop of datagrams after the first takes besides its sockets: its queue of events, and
/// three wakers, which the other loops, the console and the front have.
const OF_LOOP: u64 = 4;

/// What the service of metrics takes: its listener, six of its runtime, eight clients, and one that
/// is closed at once.
const OF_METRICS: u64 = 16;

/// The clients of a kind for which there is room in any case, if a line listens for them.
const LEAST: u64 = 4;

/// The most descriptors that the system lets the program have, if it says so.
pub(crate) fn limit() -> Option<u64> {
    let mut limit = rlimit {
        rlim_cur: 0,
        rlim_max: 0,
    };
    if libc::getrlimit(libc::RLIMIT_NOFILE, &mut limit) != 0 {
        return None;
    }
    Some(limit.rlim_cur)
}

/// How many clients of each kind may be connected at a time.
#[derive(Clone, Copy, Debug, PartialEq, Eq)]
pub(crate) struct Clients {
    pub(crate) streams: u64,
    pub(crate) http: u64,
}

impl Clients {
    /// As many as descriptors are left beside what a plan needs.
    pub(crate) fn beside(plan: &Plan) -> Clients {
        Clients::under(
            limit(),
            plan.setup.listeners(),
            plan.servers.as_slice(),
            plan.switches.loops,
            plan.switches.metrics.is_some(),
        )
    }

    /// As many as descriptors are left of this limit for each kind that is listened for, once the
    /// listeners, the loops of datagrams, the service of metrics and these servers have theirs;
    /// 1,024 at most.
    pub(crate) fn under(
        limit: Option<u64>,
        lines: &[Listener],
        servers: &[ServerPlace],
        loops: u8,
        has_metrics: bool,
    ) -> Clients {
        let kinds = u64::from(listens(lines, Protocol::Tcp))
            + u64::from(listens(lines, Protocol::Doh));
        let each = match limit {
            Some(limit) => {
                let limit = limit.saturating_sub(of_metrics(has_metrics));
                left_of(limit, lines, servers, loops) / kinds.max(1)
            }
            None => MAX_OF_KIND,
        };
        let each = each.clamp(LEAST, MAX_OF_KIND);
        Clients {
            streams: if listens(lines, Protocol::Tcp) {
                each
            } else {
                0
            },
            http: if listens(lines, Protocol::Doh) {
                each
            } else {
                0
            },
        }
    }
}

impl Clients {
    /// How many clients of streams the sockets take in at a time. If that is no less than the loop
    /// of streams takes, the sockets set no bound, as the loop turns further clients away.
    pub(crate) fn room(self) -> usize {
        if self.streams < MAX_OF_KIND {
            self.streams as usize
        } else {
            usize::MAX
        }
    }
}

/// How many descriptors 1,024 clients of each kind, 256 servers, the further lanes of these
/// servers, so many loops of datagrams and the service of metrics need, if there is one.
pub(crate) fn wanted(
    lines: &[Listener],
    servers: &[ServerPlace],
    loops: u8,
    has_metrics: bool,
) -> u64 {
    let further = u64::from(loops.saturating_sub(1))
        .saturating_mul(MAX_SERVERS as u64)
        .saturating_add(of_further(lines, loops))
        .saturating_add(of_metrics(has_metrics));
    servers
        .iter()
        .fold(ENOUGH.saturating_add(further), |sum, server| {
            sum.saturating_add(of_lanes(server, loops).saturating_sub(of_lane(loops)))
        })
}

/// How many descriptors the service of metrics takes, if there is one.
fn of_metrics(has_metrics: bool) -> u64 {
    if has_metrics { OF_METRICS } else { 0 }
}

/// How many descriptors are left for clients.
fn left_of(limit: u64, lines: &[Listener], servers: &[ServerPlace], loops: u8) -> u64 {
    let kept = OWN
        .saturating_add(lines.len() as u64)
        .saturating_add(of_further(lines, loops));
    let kept = servers.iter().fold(kept, |sum, server| {
        sum.saturating_add(OF_PROBES)
            .saturating_add(of_lanes(server, loops))
    });
    limit.saturating_sub(kept)
}

/// How many descriptors the loops of datagrams after the first take besides their servers' sockets.
fn of_further(lines: &[Listener], loops: u8) -> u64 {
    let listeners = lines
        .iter()
        .filter(|line| line.protocol == Protocol::Udp)
        .count() as u64;
    u64::from(loops.saturating_sub(1)).saturating_mul(listeners.saturating_add(OF_LOOP))
}

/// How many descriptors the lanes of a server take.
fn of_lanes(server: &ServerPlace, loops: u8) -> u64 {
    u64::from(server.lanes.get()).saturating_mul(of_lane(loops))
}

/// What a lane takes of a server that has it of each transport: a connection, and a socket of
/// datagrams in each loop of them.
fn of_lane(loops: u8) -> u64 {
    u64::from(loops).saturating_add(1)
}

/// Whether a line listens by a protocol.
fn listens(lines: &[Listener], protocol: Protocol) -> bool {
    lines.iter().any(|line| line.protocol == protocol)
}
