//! What is written to connections.

ghost use Rattle.std.specs.Prelude.{IfErr, OnOk, ◌≡◌, ◌+◌, ◌≤◌};
ghost use Rattle.lb_loops_connections.specs.Table.{at};
ghost use Rattle.lb_loops_tcp.specs.Goes.{Goes, IsUndone, Misses, SameBut, Settles, is_given_up, none, noted_by, sent_so, reads_of};

use crate::links::Links;
use lb_loops_io::{Peer, Streams, Why};
use lb_wire::Octets;

impl<S: Streams> Links<S> {
    /// Writes what waits to be written to a connection, as much as its socket takes. It is closed where the socket failed, or the peer takes
    /// no more.
    pub(crate) fn flush(&mut self, number: u64)
        ensures goes { Goes self.old self.new none none }
        ensures others { SameBut number self.old self.new }
        ensures reads { reads_of self.new ≡ reads_of self.old }
    {
        let Some(mut connection) = self.table.take(number) else {
            return;
        };
        connection.is_touched = false;
        if connection.outgoing.len() == 0 {
            self.table.put(connection);
            return;
        }
        match self
            .sockets
            .write_to(number, connection.outgoing.as_slice())
        {
            Ok(written) => {
                connection.outgoing.advance(written);
                self.table.put(connection);
            }
            Err(why) => {
                self.sockets.close(number);
                self.note(why);
            }
        }
    }

    /// Notes the fault of a device, where this is one.
    pub(crate) fn note(&mut self, why: Why)
        ensures { self.new ≡ record self.old { device = noted_by why self.old.device } }
    {
        if why == Why::Device {
            self.fails();
        }
    }

    /// Puts a message after what a connection is to write. If the limit would be passed, what waits
    /// is written first; if it is passed all the same, the connection is closed. If much waits then,
    /// it is written at once, else at the end of the turn. A connection that is at its end then is
    /// closed.
    pub(crate) fn put_behind(&mut self, number: u64, message: &Octets) -> Result<(), Why>
        ensures goes { Goes self.old self.new none (sent_so result number message.now) }
        ensures why { IfErr result (λ why. Misses self.old self.new number message.now why) }
        ensures settled { IsUndone number self.new }
        ensures others { SameBut number self.old self.new }
        ensures reads { reads_of self.new ≡ reads_of self.old }
    {
        self.make_room(number, message);
        match self.promise(number, message) {
            Ok(()) => {
                self.write_urgent(number);
                Ok(())
            }
            Err(why) => {
                self.settle(number);
                Err(why)
            }
        }
    }

    /// Writes what waits to be written to a connection, if with this message more would wait than
    /// may.
    #[tactic(auto, using(crate::proofs::Opening::goes_nothing, crate::proofs::Settling::but_nothing))]
    fn make_room(&mut self, number: u64, message: &Octets)
        ensures goes { Goes self.old self.new none none }
        ensures others { SameBut number self.old self.new }
        ensures reads { reads_of self.new ≡ reads_of self.old }
    {
        if self.table.is_over(number, message) {
            self.flush(number);
        }
    }

    /// Writes what waits to be written to a connection, if it is not to wait for the turn's end.
    #[tactic(auto, using(crate::proofs::Opening::goes_nothing, crate::proofs::Settling::but_nothing, crate::proofs::Settling::settles_nothing))]
    fn write_urgent(&mut self, number: u64)
        ensures goes { Goes self.old self.new none none }
        ensures settles { Settles self.old self.new }
        ensures others { SameBut number self.old self.new }
        ensures reads { reads_of self.new ≡ reads_of self.old }
    {
        if self.table.is_urgent(number) {
            self.write(number);
        }
    }

    /// Puts a message after what a connection is to write. The connection is closed if more would wait than
    /// may, and that of a client if there is no memory for the message: the client would wait for it for
    /// ever. A server's connection stays, as what it was to be asked expires.
    fn promise(&mut self, number: u64, message: &Octets) -> Result<(), Why>
        ensures goes { Goes self.old self.new none (sent_so result number message.now) }
        ensures why { IfErr result (λ why. Misses self.old self.new number message.now why) }
        ensures waits { OnOk result (IsUndone number self.new) }
        ensures others { SameBut number self.old self.new }
        ensures reads { reads_of self.new ≡ reads_of self.old }
    {
        let why = match self.table.promise(number, message) {
            Ok(()) => return Ok(()),
            Err(why) => why,
        };
        if !self.is_given_up(number, why) {
            return Err(why);
        }
        let _ = self.table.take(number);
        self.sockets.close(number);
        Err(why)
    }

    /// Whether a connection is closed to which a message was not put for this cause.
    fn is_given_up(&self, number: u64, why: Why) -> bool
        ensures { result ≡ is_given_up why (at number self.now.table) }
    {
        match why {
            Why::Limit => true,
            Why::NoMemory => matches!(self.table.peer_of(number), Some(Peer::Client(..))),
            _ => false,
        }
    }

    /// Writes what is to be written at the end of a turn.
    #[tactic(auto, using(crate::proofs::Opening::goes_nothing, crate::proofs::Then::goes_before, crate::proofs::Settling::settles_nothing))]
    pub(crate) fn write_all(&mut self)
        ensures goes { Goes self.old self.new none none }
        ensures settles { Settles self.old self.new }
        ensures reads { reads_of self.new ≡ reads_of self.old }
    {
        for _ in 0..self.table.touched() {
            self.write_next();
        }
    }

    /// Writes to a connection that is to be written at the end of a turn.
    fn write_next(&mut self)
        ensures goes { Goes self.old self.new none none }
        ensures settles { Settles self.old self.new }
        ensures reads { reads_of self.new ≡ reads_of self.old }
    {
        let Some(number) = self.next_touched() else {
            return;
        };
        self.write(number);
    }

    /// A connection that is to be written at the end of a turn.
    fn next_touched(&mut self) -> Option<u64>
        ensures { self.new ≡ self.old }
    {
        self.table.next_touched()
    }

    /// Writes to a connection whose socket takes more. One that is at its end then is closed.
    pub(crate) fn write(&mut self, number: u64)
        ensures goes { Goes self.old self.new none none }
        ensures settled { IsUndone number self.new }
        ensures settles { Settles self.old self.new }
        ensures others { SameBut number self.old self.new }
        ensures reads { reads_of self.new ≡ reads_of self.old }
    {
        self.flush(number);
        self.settle(number);
    }

    /// Reads a connection that may have something. One that is at its end then is closed.
    pub(crate) fn read(&mut self, number: u64, now: u64)
        ensures goes { Goes self.old self.new none none }
        ensures settled { IsUndone number self.new }
        ensures settles { Settles self.old self.new }
        ensures reads { reads_of self.new ≤ reads_of self.old + 1 }
    {
        self.pull(number, now);
        self.settle(number);
    }
}
