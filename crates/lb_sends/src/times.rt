//! How long servers take to reply.

use crate::clients::read;
use lb_servers::MAX_SERVERS;
use lb_wire::ServerId;
use std::alloc::{AllocError, Global};
use std::sync::atomic::{AtomicU64, Ordering};

/// The words of a place: the server's number, 0 if there is none; how many milliseconds its replies
/// took together; and a count for each bound, 1, 2, 4 ms and so on up to 4,096 ms, and for what took
/// longer.
const WORDS: usize = 16;

/// How many counts a place has.
const COUNTS: usize = 14;

/// How long the replies of a server took.
#[derive(Clone, Copy, Debug, PartialEq, Eq)]
pub struct ReplyTimes {
    /// How many took at most 2^k milliseconds, at place k, and longer than the bound before; at the
    /// last place those that took longer than 4,096.
    pub counts: [u64; 14],
    /// How many milliseconds all took together.
    pub sum: u64,
}

/// Times of the replies that one loop handed in. That loop alone writes, so that no write waits for
/// another processor; others read. There is a place for each server, and of two whose numbers are
/// equal modulo `MAX_SERVERS` the later one is counted.
#[derive(Debug, Drop)]
pub(crate) struct Times {
    words: Vec<AtomicU64>,
}

/// The words of a server.
#[derive(Clone, Copy, Debug)]
struct Row<'a> {
    server: &'a AtomicU64,
    sum: &'a AtomicU64,
    counts: &'a [AtomicU64],
}

impl Times {
    /// None yet. The one error is refused memory.
    pub(crate) fn made(alloc: Global) -> Result<Times, AllocError> {
        let mut words = Vec::with_capacity(alloc, MAX_SERVERS * WORDS)?;
        for _ in 0..MAX_SERVERS * WORDS {
            words.push(AtomicU64::new(0))?;
        }
        Ok(Times { words })
    }

    /// Notes a reply of a server that took so many milliseconds. What was counted of an earlier
    /// server at its place goes.
    pub(crate) fn note(&self, server: ServerId, took: u64) {
        let Some(row) = self.row_of(server) else {
            return;
        };
        let before = read(row.server);
        if before > server.0 {
            return;
        }
        if before < server.0 {
            row.clear();
            row.server.store(server.0, Ordering::Relaxed);
        }
        if let Some(count) = row.counts.get(bound_of(took)) {
            add(count, 1);
        }
        add(row.sum, took);
    }

    /// Adds the times of a server. Whether there is one at least.
    pub(crate) fn add_to(&self, server: ServerId, times: &mut ReplyTimes) -> bool {
        let Some(row) = self.row_of(server) else {
            return false;
        };
        if read(row.server) != server.0 {
            return false;
        }
        for (count, counted) in times.counts.iter_mut().zip(row.counts) {
            *count = count.saturating_add(read(counted));
        }
        times.sum = times.sum.saturating_add(read(row.sum));
        true
    }

    /// The words of a server's place.
    fn row_of(&self, server: ServerId) -> Option<Row<'_>> {
        let begin = (server.0 % MAX_SERVERS as u64) as usize * WORDS;
        let words = self.words.get(begin..begin + WORDS)?;
        Some(Row {
            server: words.first()?,
            sum: words.get(1)?,
            counts: words.get(2..)?,
        })
    }
}

impl Row<'_> {
    /// Nothing was counted.
    fn clear(&self) {
        for count in self.counts {
            count.store(0, Ordering::Relaxed);
        }
        self.sum.store(0, Ordering::Relaxed);
    }
}

impl ReplyTimes {
    /// No reply.
    pub(crate) fn none() -> ReplyTimes {
        ReplyTimes {
            counts: [0; COUNTS],
            sum: 0,
        }
    }
}

/// Adds to a word that nobody else writes.
fn add(word: &AtomicU64, more: u64) {
    word.store(read(word).wrapping_add(more), Ordering::Relaxed);
}

/// The place of the least bound that is no less than a time, or the last place.
fn bound_of(took: u64) -> usize {
    let bits = u64::BITS - took.saturating_sub(1).leading_zeros();
    (bits as usize).min(COUNTS - 1)
}
