//! Connections to servers.

ghost use Rattle.std.specs.Prelude.{IfErr, IfOk, ◌≡◌};
ghost use Rattle.lb_loops_connections.specs.Table.{IsTo};
ghost use Rattle.lb_loops_tcp.specs.Goes.{Goes, Lacks, Settles, none, reads_of};

use crate::links::Links;
use lb_loops_connections::{Connection, Route};
use lb_loops_io::{Endpoint, Peer, Streams, Why};
use lb_wire::ServerId;
use std::alloc::Global;

impl<S: Streams> Links<S> {
    /// The connection to a server at this end, by one of its upstream sockets: the one that is
    /// open, or one that is begun now.
    pub(crate) fn dialed(
        &mut self,
        alloc: Global,
        server: ServerId,
        lane: u8,
        at: Endpoint,
    ) -> Result<u64, Why>
        ensures goes { Goes self.old self.new none none }
        ensures settles { Settles self.old self.new }
        ensures to { IfOk result (λ n. IsTo n server lane at self.new.table) }
        ensures why { IfErr result (λ why. Lacks self.old self.new why) }
        ensures reads { reads_of self.new ≡ reads_of self.old }
    {
        if let Some(number) = self.table.route(server, lane, at) {
            return Ok(number);
        }
        let Some(number) = self.table.candidate() else {
            return Err(Why::Gone);
        };
        self.table.note(Route {
            server,
            lane,
            number,
        })?;
        match self.sockets.dial(number, at) {
            Ok(()) => {
                let peer = Peer::Server(server, lane, at);
                self.table.add(Connection::new(alloc, number, peer, None));
                Ok(number)
            }
            Err(why) => {
                self.note(why);
                Err(why)
            }
        }
    }
}
