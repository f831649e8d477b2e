//! What comes of sockets of streams: clients, octets, and ends.

ghost use Rattle.std.specs.Prelude.{◌≡◌, ◌+◌, ◌≤◌};
ghost use Rattle.lb_loops_connections.specs.Table.{SameToPeer};
ghost use Rattle.lb_loops_tcp.specs.Goes.{Goes, IsUndone, SameBut, Settles, TurnsOneAway, none, reads_of};

use crate::links::Links;
use lb_loops_connections::Connection;
use lb_loops_io::{Accepted, Peer, Read, Streams};
use std::alloc::Global;

impl<S: Streams> Links<S> {
    /// Takes in a client that waits at this moment. One is closed at once if 1,024 are connected,
    /// or if no number is left. If memory is lacking, it waits on.
    pub(crate) fn admit(&mut self, alloc: Global, now: u64)
        ensures goes { Goes self.old self.new none none }
        ensures settles { Settles self.old self.new }
        ensures reads { reads_of self.new ≤ reads_of self.old + 1 }
    {
        if self.table.is_full() {
            self.turn_away();
            return;
        }
        let Some(number) = self.table.candidate() else {
            self.turn_away();
            return;
        };
        match self.sockets.accept(number) {
            Ok(Accepted::Client(front, at)) => {
                let peer = Peer::Client(front, at);
                let until = self.table.idle_after(now);
                self.table.add(Connection::new(alloc, number, peer, until));
            }
            Ok(Accepted::Nothing) | Err(_) => {}
            Ok(Accepted::Failed) => self.fails(),
        }
    }

    /// Closes a client that waits.
    fn turn_away(&mut self)
        ensures goes { TurnsOneAway self.old self.new }
        ensures reads { reads_of self.new ≤ reads_of self.old + 1 }
    {
        match self.sockets.turn_away() {
            Accepted::Client(..) | Accepted::Nothing => {}
            Accepted::Failed => self.fails(),
        }
    }

    /// Reads a piece of a connection. One that may not be read is passed over. A server's
    /// connection is closed where the server has closed its side, and each where its socket failed,
    /// or no room was found for what came.
    pub(crate) fn pull(&mut self, number: u64, now: u64)
        ensures goes { Goes self.old self.new none none }
        ensures others { SameBut number self.old self.new }
        ensures reads { reads_of self.new ≤ reads_of self.old + 1 }
    {
        let Some(mut connection) = self.table.take(number) else {
            return;
        };
        if !connection.may_be_read() {
            connection.is_passed_over = true;
            self.table.put(connection);
            return;
        }
        match self.sockets.read_from(number) {
            Ok(Read::Piece(octets)) => match self.table.hear(&mut connection, &octets, now) {
                Ok(()) => self.table.put(connection),
                Err(refused) => {
                    self.sockets.close(number);
                    self.table.lacks(number, refused);
                }
            },
            Ok(Read::Nothing) => self.table.put(connection),
            Ok(Read::Ended) => match connection.peer {
                Peer::Server(..) => self.sockets.close(number),
                Peer::Client(..) => {
                    self.table.look_by(connection.end(now));
                    self.table.put(connection);
                }
            },
            Ok(Read::Failed) => {
                self.sockets.close(number);
                self.fails();
            }
            Err(refused) => {
                self.sockets.close(number);
                self.table.lacks(number, refused);
            }
        }
    }

    /// Closes a connection whose peer has closed its side and has all that it waits for. One that
    /// was passed over and may be read now is told to be read once more.
    #[tactic(auto, using(crate::proofs::Opening::goes_nothing, crate::proofs::Settling::undone_settled))]
    pub(crate) fn settle(&mut self, number: u64)
        ensures goes { Goes self.old self.new none none }
        ensures settled { IsUndone number self.new }
        ensures others { SameBut number self.old self.new }
        ensures reads { reads_of self.new ≡ reads_of self.old }
    {
        if self.table.is_settled(number) {
            return;
        }
        self.see_to(number);
    }

    /// The same, where there may be something to do.
    #[tactic(auto, using(crate::proofs::Settling::undone_none, crate::proofs::Settling::undone_put))]
    fn see_to(&mut self, number: u64)
        ensures goes { Goes self.old self.new none none }
        ensures settled { IsUndone number self.new }
        ensures others { SameBut number self.old self.new }
        ensures reads { reads_of self.new ≡ reads_of self.old }
    {
        let Some(mut connection) = self.table.take(number) else {
            return;
        };
        if connection.is_finished() {
            self.sockets.close(number);
            return;
        }
        resume(&mut self.sockets, &mut connection);
        self.table.put(connection);
    }
}

/// Has a connection that was passed over and may be read now be told once more.
fn resume<S: Streams>(sockets: &mut S, connection: &mut Connection)
    ensures rest { SameToPeer connection.old connection.new }
    ensures owed { connection.new.owed ≡ connection.old.owed }
    ensures same { S.told sockets.new ≡ S.told sockets.old }
{
    if connection.is_passed_over && connection.may_be_read() {
        connection.is_passed_over = false;
        sockets.resume(connection.number);
    }
}
