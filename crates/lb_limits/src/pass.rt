//! What a limiter counts.

use lb_wire::Addr;

/// A query that was counted.
#[derive(Clone, Copy, Debug, PartialEq, Eq)]
pub struct Pass {
    /// The address that it came from, with the bits past the mask cleared.
    pub source: Addr,
    /// When it came, in milliseconds.
    pub moment: u64,
}
