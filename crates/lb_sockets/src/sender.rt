//! Sends of datagrams, told as they are made.

ghost use Rattle.std.specs.Prelude.{[], OnErr, OnOk, ◌++◌, ◌∷◌, ◌≡◌};
ghost use Rattle.lb_sockets.specs.Datagrams.{told};

use crate::addresses::socket_addr;
use crate::wire::Wire;
use http_server::Log;
use lb_loops_io::{Endpoint, Socket};
use lb_wire::Octets;
use std::io;
use std::io::ErrorKind;

/// Sends datagrams, and tells those that the system took.
#[derive(Drop)]
pub(crate) struct Sender {
    taken: Log<(Socket, Endpoint), Octets>,
}

impl Sender {
    /// One that has sent none.
    pub(crate) fn new() -> Sender
        ensures { result.taken.items ≡ [] }
    {
        Sender { taken: Log::new() }
    }

    /// Sends a datagram. Where the system tells the error of an earlier datagram in place of sending, it is sent
    /// once more.
    pub(crate) fn send(&mut self, wire: Wire<'_>, to: Endpoint, bytes: &Octets) -> io::Result<()>
        ensures done { OnOk result (told self.new.taken.items ≡ told self.old.taken.items ++ record { socket = wire.entry.name; peer = to; bytes = bytes.now } ∷ []) }
        ensures refused { OnErr result (self.new ≡ self.old) }
    {
        match self.send_once(wire, to, bytes) {
            Err(error) if error.kind() == ErrorKind::ConnectionRefused => {
                self.send_once(wire, to, bytes)
            }
            other => other,
        }
    }

    /// One call of the system. A socket that is connected to the end sends with no address.
    fn send_once(&mut self, wire: Wire<'_>, to: Endpoint, bytes: &Octets) -> io::Result<()>
        ensures done { OnOk result (told self.new.taken.items ≡ told self.old.taken.items ++ record { socket = wire.entry.name; peer = to; bytes = bytes.now } ∷ []) }
        ensures refused { OnErr result (self.new ≡ self.old) }
    {
        match wire.peer {
            Some(peer) if to.is(peer) => wire.socket.send(bytes.as_slice())?,
            _ => wire.socket.send_to(bytes.as_slice(), socket_addr(to))?,
        };
        self.taken = self.taken.and(&(wire.name, to), bytes);
        Ok(())
    }
}
