//! Messages that are taken of what came.

ghost use Rattle.std.specs.Prelude.{IfNone, IfOk, IfSome, List, OnOk, ℕ, ◌++◌, ◌≡◌};
ghost use Rattle.lb_loops_connections.specs.Table.{HasNone, IsFirst, SameButIncoming};
ghost use Rattle.lb_loops_connections.specs.Taking.{Takes};

use crate::connection::Connection;
use crate::table::{Connections, place_of};
use lb_loops_frames::Message;
use lb_loops_io::Peer;
use lb_wire::Octets;
use std::alloc::{AllocError, Global};

/// The first message of a connection, and who is at its other end.
#[derive(Drop)]
pub struct First {
    pub peer: Peer,
    pub message: Message,
}

impl Connections {
    /// The first whole message of a connection. The one error is lack of memory.
    pub fn first_of(&self, alloc: Global, number: u64) -> Result<Option<First>, AllocError>
        ensures some { IfOk result (λ found. IfSome found (λ first. IsFirst number first.peer first.message self.now)) }
        ensures none { IfOk result (λ found. IfNone found (HasNone number self.now)) }
    {
        if number > self.last {
            return Ok(None);
        }
        let Some(connection) = &self.slots[place_of(number)] else {
            return Ok(None);
        };
        if connection.number != number {
            return Ok(None);
        }
        let Some(message) = connection.incoming.first(alloc)? else {
            return Ok(None);
        };
        Ok(Some(First {
            peer: connection.peer,
            message,
        }))
    }

    /// Takes the first message of a connection, which stands first in the queue, off what came of
    /// it. With a further one it waits for its turn again. The one error is refused memory for
    /// that; the message is taken all the same.
    pub fn drop_first(&mut self, number: u64) -> Result<(), AllocError>
        ensures { (peer : Peer) (message : List ℕ) → IsFirst number peer message self.old → Takes number message self.old self.new }
    {
        if number > self.last {
            return Ok(());
        }
        let Some(connection) = &mut self.slots[place_of(number)] else {
            return Ok(());
        };
        if connection.number != number {
            return Ok(());
        }
        if !connection.has_message() {
            return Ok(());
        }
        connection.drop_first();
        let _ = self.queue.pop_front();
        self.due = self.due.min(connection.closes_at());
        connection.enqueue(&mut self.queue)
    }

    /// Puts what came at this moment after what is held of a connection that was taken out, which
    /// then waits for its turn if it has a whole message. The one error is refused memory.
    pub fn hear(
        &mut self,
        connection: &mut Connection,
        octets: &Octets,
        now: u64,
    ) -> Result<(), AllocError>
        ensures heard { OnOk result (connection.new.incoming ≡ connection.old.incoming ++ octets.now) }
        ensures rest { SameButIncoming connection.old connection.new }
        ensures same { self.new ≡ self.old }
    {
        connection.incoming.push(octets.as_slice())?;
        self.keep(connection, now);
        connection.enqueue(&mut self.queue)
    }

    /// Keeps a client of which a whole message came at this moment for as long as it may be idle.
    /// Parts of a message keep nobody (RFC 7766 section 6.2.3).
    fn keep(&mut self, connection: &mut Connection, now: u64)
        ensures rest { connection.new ≡ record connection.old { until = connection.new.until } }
        ensures same { self.new ≡ self.old }
    {
        if !connection.has_message() {
            return;
        }
        if let Some(until) = self.idle_after(now) {
            connection.keep_until(Some(until));
            self.due = self.due.min(until);
        }
    }
}
