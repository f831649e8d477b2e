//! What is known of servers beside the desk.

use crate::watch::Watch;
use lb_sends::{Probed, Sends};
use lb_wire::ServerId;
use std::alloc::{AllocError, Global};

/// What is known of servers beside the desk, at a moment in milliseconds.
#[derive(Clone, Copy, Debug)]
pub(crate) struct Beside<'a> {
    pub(crate) watch: &'a Watch,
    pub(crate) sends: &'a Sends,
    pub(crate) now: u64,
}

impl Beside<'_> {
    /// For how many seconds a server is up or down, and how long ago its last probe was answered or
    /// failed.
    pub(crate) fn seen_text(&self, alloc: Global, id: ServerId) -> Result<String, AllocError> {
        let unchanged = self.seconds_since(self.watch.since(id).unwrap_or(self.now));
        match self.sends.probed(id) {
            Some(Probed { at, is_ok }) => {
                let ago = self.seconds_since(at);
                let result = if is_ok { "ok" } else { "failed" };
                format!(in alloc; "unchanged {unchanged} probe {result} {ago}")
            }
            None => format!(in alloc; "unchanged {unchanged} probe -"),
        }
    }

    /// How many whole seconds ago a moment was.
    fn seconds_since(&self, moment: u64) -> u64 {
        self.now.saturating_sub(moment) / 1_000
    }
}
