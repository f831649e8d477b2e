//! Limits that several loops keep.

use lb_core::MAX_TIMEOUT;

/// A second, in milliseconds.
pub const SECOND: u64 = 1_000;

/// The most events of a turn of a loop. A turn also has at most so many reads, jobs, new clients and
/// probes.
pub const MAX_EVENTS_OF_TURN: usize = 64;

/// The most connections by TCP, of clients and to servers together.
pub const MAX_CONNECTIONS: usize = 4_096;

/// The most clients that are connected by TCP.
pub const MAX_CLIENTS: usize = 1_024;

/// How long after the last query a reply or a timeout may be awaited, in milliseconds: as long as a
/// query may wait for its reply, and a second. A server's socket is kept so long, and a client that
/// has closed its side.
pub const KEPT_AFTER_QUERY: u64 = MAX_TIMEOUT as u64 + SECOND;
