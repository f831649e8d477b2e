//! Counts of the clients that hold a connection.

use std::sync::atomic::{AtomicU64, Ordering};

/// Why a client was closed at once.
#[derive(Clone, Copy, Debug, PartialEq, Eq)]
pub enum Refusal {
    /// Its source has as many clients as it may have.
    Source,
    /// As many clients are connected as may be.
    Full,
}

/// Why the balancer closed a client that had not closed its own side.
#[derive(Clone, Copy, Debug, PartialEq, Eq)]
pub enum Closing {
    /// It sent nothing for as long as it may, or memory was refused for what it sent.
    Idle,
    /// It did not read its answers.
    Unread,
}

/// Counts of the clients of one protocol, raised without a lock.
#[derive(Debug, Drop)]
pub struct Clients {
    /// How many may be connected.
    most: AtomicU64,
    taken: AtomicU64,
    left: AtomicU64,
    of_source: AtomicU64,
    full: AtomicU64,
    idle: AtomicU64,
    unread: AtomicU64,
}

impl Clients {
    /// All are 0.
    pub(crate) fn none() -> Clients {
        Clients {
            most: AtomicU64::new(0),
            taken: AtomicU64::new(0),
            left: AtomicU64::new(0),
            of_source: AtomicU64::new(0),
            full: AtomicU64::new(0),
            idle: AtomicU64::new(0),
            unread: AtomicU64::new(0),
        }
    }

    /// Sets how many may be connected.
    pub fn bound(&self, most: u64) {
        self.most.store(most, Ordering::Relaxed);
    }

    /// How many may be connected; 0 if that was never set.
    pub fn most(&self) -> u64 {
        read(&self.most)
    }

    /// Notes a client that was taken in.
    pub fn enter(&self) {
        raise(&self.taken);
    }

    /// Notes that a client's connection was closed.
    pub fn leave(&self) {
        raise(&self.left);
    }

    /// Notes a client that was closed at once.
    pub fn refuse(&self, why: Refusal) {
        raise(self.of_refusal(why));
    }

    /// Notes why the connection of a client was closed that had not closed its own side.
    pub fn close(&self, why: Closing) {
        raise(self.of_closing(why));
    }

    /// How many were taken in.
    pub fn taken(&self) -> u64 {
        read(&self.taken)
    }

    /// How many are connected.
    pub fn connected(&self) -> u64 {
        let left = read(&self.left);
        read(&self.taken).saturating_sub(left)
    }

    /// Whether as many are connected as may be.
    pub fn is_full(&self) -> bool {
        let most = self.most();
        most > 0 && self.connected() >= most
    }

    /// How many were closed at once.
    pub fn refused(&self, why: Refusal) -> u64 {
        read(self.of_refusal(why))
    }

    /// How many were closed that had not closed their own side.
    pub fn closed(&self, why: Closing) -> u64 {
        read(self.of_closing(why))
    }

    fn of_refusal(&self, why: Refusal) -> &AtomicU64 {
        match why {
            Refusal::Source => &self.of_source,
            Refusal::Full => &self.full,
        }
    }

    fn of_closing(&self, why: Closing) -> &AtomicU64 {
        match why {
            Closing::Idle => &self.idle,
            Closing::Unread => &self.unread,
        }
    }
}

/// A count.
pub(crate) fn read(count: &AtomicU64) -> u64 {
    count.load(Ordering::Relaxed)
}

/// Raises a count by one.
pub(crate) fn raise(count: &AtomicU64) {
    count.fetch_add(1, Ordering::Relaxed);
}
