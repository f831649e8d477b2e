//! A gate that holds nothing.

use lb_core::Event;
use lb_loops::Gate;

/// Every event passes.
#[derive(Clone, Copy, Debug, Drop)]
pub(crate) struct OpenGate;

impl Gate for OpenGate {
    fn pass(&self, _event: &Event) -> bool {
        true
    }
}
