//! Ends of a transport as the system's addresses.

use lb_loops_io::Endpoint;
use lb_wire::Addr;
use std::net::{Ipv4Addr, Ipv6Addr, SocketAddr, SocketAddrV4, SocketAddrV6};

/// The system's address of an end.
pub(crate) fn socket_addr(end: Endpoint) -> SocketAddr {
    match end.addr {
        Addr::V4(octets) => SocketAddr::V4(SocketAddrV4::new(Ipv4Addr::from(octets), end.port)),
        Addr::V6(octets) => {
            SocketAddr::V6(SocketAddrV6::new(Ipv6Addr::from(octets), end.port, 0, 0))
        }
    }
}

/// The end that the system's address is of.
pub(crate) fn endpoint_of(address: SocketAddr) -> Endpoint {
    match address {
        SocketAddr::V4(address) => Endpoint {
            addr: Addr::V4(address.ip().octets()),
            port: address.port(),
        },
        SocketAddr::V6(address) => Endpoint {
            addr: Addr::V6(address.ip().octets()),
            port: address.port(),
        },
    }
}

/// Any free port, on any address of the same family.
pub(crate) fn any_beside(end: Endpoint) -> Endpoint {
    let addr = match end.addr {
        Addr::V4(_) => Addr::V4([0; 4]),
        Addr::V6(_) => Addr::V6([0; 16]),
    };
    Endpoint { addr, port: 0 }
}
