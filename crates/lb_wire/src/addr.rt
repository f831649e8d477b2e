//! Where a query came from.

/// An IP address, its octets in network order. A mapped IPv4 address is an IPv6 address.
#[derive(Clone, Copy, Debug, PartialEq, Eq)]
pub enum Addr {
    V4([u8; 4]),
    V6([u8; 16]),
}

/// Where a query came from, and so where its answer goes.
#[derive(Clone, Copy, Debug, PartialEq, Eq)]
pub struct Origin {
    /// The place of the listener that took it, from 0.
    pub front: u8,
    /// The connection or request that it came by, 0 for a datagram; what a replay line names it by.
    pub slot: u64,
    /// The client's address.
    pub source: Addr,
    /// The client's port.
    pub port: u16,
}
