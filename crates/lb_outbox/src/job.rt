//! What one loop has another send.

use lb_wire::{Lane, Octets, Origin, ServerId};

/// A message that another loop is to send.
#[derive(Debug, Drop)]
pub enum Job {
    /// To a server, by this upstream socket.
    ToServer(ServerId, Lane, Octets),
    /// To the client of this origin.
    ToClient(Origin, Octets),
}
