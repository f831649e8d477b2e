//! What a closed desk leaves.

use crate::entry::LogEntry;
use lb_core::Balancer;

/// What a closed desk leaves.
#[derive(Drop)]
pub struct Audit {
    /// How many calls were answered.
    pub count: u64,
    /// The first of them, as many as the desk's limit allowed.
    pub log: Vec<LogEntry>,
    pub balancer: Balancer,
}
