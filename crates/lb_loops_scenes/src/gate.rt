//! The gate of a scene.

use lb_core::Event;
use lb_loops::Gate;

/// A gate that holds what comes at this moment or later.
#[derive(Clone, Copy, Drop)]
pub(crate) struct HoldsFrom(pub(crate) u64);

impl Gate for HoldsFrom {
    fn pass(&self, event: &Event) -> bool {
        event.now() < self.0
    }
}
