//! Ends of a transport.

ghost use Rattle.std.specs.Prelude.{◌≡◌};
ghost use Rattle.lb_loops_io.specs.Endpoint.{is_endpoint};

use lb_wire::Addr;

/// An address and a port: where a socket or a peer is.
#[derive(Clone, Copy, Debug, PartialEq, Eq)]
pub struct Endpoint {
    pub addr: Addr,
    pub port: u16,
}

impl Endpoint {
    /// Whether two are the same.
    pub fn is(self, other: Endpoint) -> bool
        ensures { result ≡ is_endpoint self other }
    {
        let is_addr = match (self.addr, other.addr) {
            (Addr::V4(a), Addr::V4(b)) => a == b,
            (Addr::V6(a), Addr::V6(b)) => a == b,
            _ => false,
        };
        is_addr && self.port == other.port
    }
}
