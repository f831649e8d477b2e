//! Sockets with options that are set before they are bound.

ghost use Rattle.std.specs.Prelude.{IsOk, length, pos, ◌+◌, ◌↔◌, ◌≤ℤ◌, ◌≤◌};
ghost use Rattle.libc.specs.Net.{Kind, SockOption};

use crate::addresses::socket_addr;
use lb_loops_io::Endpoint;
use libc::net as c;
use mio::net::UdpSocket;
use os::FromRawFd;
use std::io;
use std::net::{Net, SocketAddr};
use std::os::fd::{AsRawFd, OwnedFd};

/// The octets that are asked for as room for datagrams that wait to be read. The system may give less.
const ROOM: i32 = 4_194_304;

/// How many clients may wait: as many as the system lets.
const BACKLOG: i32 = i32::MAX;

/// A socket of datagrams that never blocks.
const DATAGRAMS: i32 = c::SOCK_DGRAM | c::SOCK_NONBLOCK | c::SOCK_CLOEXEC;

/// A socket of streams that never blocks.
const STREAMS: i32 = c::SOCK_STREAM | c::SOCK_NONBLOCK | c::SOCK_CLOEXEC;

/// Whether several sockets of datagrams listen at one end. The system then divides the clients
/// among them (socket(7), SO_REUSEPORT).
#[derive(Clone, Copy, Debug, PartialEq, Eq)]
pub enum Share {
    /// No other one does.
    Alone,
    /// This one is the first. It is bound as if it were alone, so that it is refused if another
    /// program listens at the end.
    First,
    /// A further one. It shares the end before it is bound.
    Beside,
}

/// A socket of datagrams that never blocks, bound at an end, with wide room for what waits. One of
/// IPv6 takes no datagrams of IPv4.
pub(crate) fn bound<N: Net>(_net: &N, end: Endpoint, share: Share) -> io::Result<UdpSocket> {
    let address = socket_addr(end);
    let socket = opened(&address, DATAGRAMS)?;
    set(&socket, c::SOL_SOCKET, c::SO_RCVBUF, ROOM)?;
    if share == Share::Beside {
        set(&socket, c::SOL_SOCKET, c::SO_REUSEPORT, 1)?;
    }
    bind(&socket, &address)?;
    if share == Share::First {
        set(&socket, c::SOL_SOCKET, c::SO_REUSEPORT, 1)?;
    }
    Ok(UdpSocket::from(socket))
}

/// A socket that listens for streams at an end and never blocks, with a long row of clients that may wait. It listens also where connections
/// of an earlier one have not passed away yet. One of IPv6 takes in no client of IPv4.
pub(crate) fn listening<N: Net>(_net: &N, end: Endpoint) -> io::Result<OwnedFd> {
    let address = socket_addr(end);
    let socket = opened(&address, STREAMS)?;
    set(&socket, c::SOL_SOCKET, c::SO_REUSEADDR, 1)?;
    bind(&socket, &address)?;
    check(c::listen(socket.as_raw_fd(), BACKLOG))?;
    Ok(socket)
}

/// A socket of a kind, of the address's family.
fn opened(address: &SocketAddr, kind: i32) -> io::Result<OwnedFd>
    requires { Kind kind }
{
    let descriptor = match address {
        SocketAddr::V4(_) => unsafe { c::socket(c::AF_INET, kind, 0) },
        SocketAddr::V6(_) => unsafe { c::socket(c::AF_INET6, kind, 0) },
    };
    check(descriptor)?;
    Ok(unsafe { OwnedFd::from_raw_fd(descriptor) })
}

/// Sets an option of a level to a number.
fn set(socket: &OwnedFd, level: i32, name: i32, number: i32) -> io::Result<()>
    requires { SockOption level name }
{
    let value = value(number);
    check(unsafe { c::setsockopt(socket.as_raw_fd(), level, name, &value, 4) })
}

/// Gives a socket its address. One of IPv6 has nothing of IPv4.
fn bind(socket: &OwnedFd, address: &SocketAddr) -> io::Result<()> {
    if address.is_ipv6() {
        set(socket, c::IPPROTO_IPV6, c::IPV6_V6ONLY, 1)?;
    }
    let (octets, len) = laid(address);
    check(unsafe { c::bind(socket.as_raw_fd(), &octets, len) })
}

/// An address in the system's layout, with its length (ip(7), ipv6(7)): the family, the port, and
/// the address after them.
fn laid(address: &SocketAddr) -> ([u8; c::_SS_SIZE], u32)
    ensures { result.1 ≤ 128 }
{
    let mut octets = [0u8; c::_SS_SIZE];
    match address {
        SocketAddr::V4(address) => {
            put(&mut octets, 0, &(c::AF_INET as u16).to_ne_bytes());
            put(&mut octets, 2, &address.port().to_be_bytes());
            put(&mut octets, 4, &address.ip().octets());
            (octets, 16)
        }
        SocketAddr::V6(address) => {
            put(&mut octets, 0, &(c::AF_INET6 as u16).to_ne_bytes());
            put(&mut octets, 2, &address.port().to_be_bytes());
            put(&mut octets, 8, &address.ip().octets());
            (octets, 28)
        }
    }
}

/// Puts a piece at a place.
fn put(octets: &mut [u8; c::_SS_SIZE], at: usize, piece: &[u8])
    requires { at + length piece.now ≤ 128 }
{
    octets[at..at + piece.len()].copy_from_slice(piece);
}

/// The value of an option, in the machine's own order.
fn value(number: i32) -> [u8; 16] {
    let mut value = [0u8; 16];
    value[..4].copy_from_slice(&number.to_ne_bytes());
    value
}

/// The error of a call of the system, which answers with a number below 0.
fn check(answer: i32) -> io::Result<()>
    ensures { IsOk result ↔ (pos 0 ≤ℤ answer) }
{
    if answer < 0 {
        return Err(io::Error::from_raw_os_error(os::errno()));
    }
    Ok(())
}
