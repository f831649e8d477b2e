//! Sockets of streams and the table of their connections.

ghost use Rattle.std.specs.Prelude.{◌≡◌};
ghost use Rattle.lb_loops_tcp.specs.Goes.{noted};

use lb_loops_connections::Connections;
use lb_loops_io::{DeviceFault, Streams};
use std::marker::Model;

/// Sockets of streams, the table of their connections, and the first device fault since it was last asked for.
#[derive(Drop)]
pub(crate) struct Links<S: Streams> {
    pub(crate) sockets: S,
    pub(crate) table: Connections,
    pub(crate) device: Option<DeviceFault>,
}

impl<S: Streams> Model for Links<S> {
    ghost use Rattle.lb_loops_tcp.specs.Links.{Net};

    ghost Value = { Net };

    ghost view = { λ l. record { told = S.told l.sockets; table = l.table; device = l.device } };
}

impl<S: Streams> Links<S> {
    /// Notes that a device of the sockets failed, where no fault was noted before.
    pub(crate) fn fails(&mut self)
        ensures { self.new ≡ record self.old { device = noted self.old.device } }
    {
        if self.device.is_none() {
            self.device = Some(DeviceFault::Sockets);
        }
    }
}
