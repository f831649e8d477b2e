//! What was asked.

use lb_wire::{Kind, Origin, PoolId};

/// What is known of a query beside its octets.
#[derive(Clone, Copy, Debug, PartialEq, Eq)]
pub struct Asked {
    /// The balancer's moment at its event, in milliseconds.
    pub moment: u64,
    pub origin: Origin,
    pub kind: Kind,
    /// A random word: the ID that it is sent with is the first free one from there on.
    pub word: u16,
}

/// The pool that is to answer a query, and what the rules that were passed on the way said.
#[derive(Clone, Copy, Debug, PartialEq, Eq)]
pub struct Routed {
    pub pool: PoolId,
    /// The query is sent on with RD 0.
    pub no_recurse: bool,
    /// The query uses no cache.
    pub skip_cache: bool,
}
