//! What a new cache is made from.

use lb_cache::{MaxEntries, MaxTtl, Shards, Skips};

/// What a new cache is made from.
#[derive(Debug, Drop)]
pub(crate) struct CacheSpec {
    /// How many replies it keeps at most.
    pub(crate) max: MaxEntries,
    /// Into how many parts it is divided.
    pub(crate) shards: Shards,
    /// The longest life that a reply has there, in seconds.
    pub(crate) max_ttl: MaxTtl,
    /// The codes of the options that its keys leave out.
    pub(crate) skips: Skips,
}
