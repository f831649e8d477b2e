//! What a step leaves beside the plain state.

ghost use Rattle.std.specs.Prelude.{◌≡◌};
ghost use Rattle.lb_step.specs.Noted.{no_note, served_at};

use lb_table::Waiting;
use lb_wire::{CacheId, RuleId, ServerId};

/// An outstanding (pending) query that ended.
#[derive(Clone, Copy, Debug, PartialEq, Eq)]
pub struct Served {
    /// The server that it was sent to. It may have been removed.
    pub server: ServerId,
    /// When it was sent, in milliseconds.
    pub began: u64,
}

impl Served {
    /// That of a query that waited.
    pub(crate) fn of(waiting: &Waiting) -> Served
        ensures { result ≡ served_at waiting.now }
    {
        Served {
            server: waiting.place.server,
            began: waiting.entry.began,
        }
    }
}

/// What a step leaves beside the plain state: no later step depends on it.
#[derive(Clone, Copy, Debug, PartialEq, Eq)]
pub struct Noted {
    /// The rule that ended the walk of the query, whatever its verdict.
    pub rule: Option<RuleId>,
    /// The cache in which a reply to the query was looked for.
    pub cache: Option<CacheId>,
    /// The query that the reply was delivered to, or that expired.
    pub served: Option<Served>,
}

impl Noted {
    /// Nothing.
    pub fn none() -> Noted
        ensures { result ≡ no_note }
    {
        Noted {
            rule: None,
            cache: None,
            served: None,
        }
    }
}
