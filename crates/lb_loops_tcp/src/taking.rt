//! Messages that are taken of what came.

ghost use Rattle.std.specs.Prelude.{List, ℕ, ◌≡◌};
ghost use Rattle.lb_loops_connections.specs.Table.{IsFirst};
ghost use Rattle.lb_loops_tcp.specs.Goes.{Goes, SameBut, just, none, reads_of};

use crate::links::Links;
use lb_loops_io::{Peer, Streams};

impl<S: Streams> Links<S> {
    /// Takes the first message of a connection, which stands first in the queue, off what came of it. With a further one it waits for
    /// its turn again.
    pub(crate) fn drop_first(&mut self, number: u64)
        ensures goes { (peer : Peer) (message : List ℕ) → IsFirst number peer message self.old.table → Goes self.old self.new (just number message) none }
        ensures others { (peer : Peer) (message : List ℕ) → IsFirst number peer message self.old.table → SameBut number self.old self.new }
        ensures reads { reads_of self.new ≡ reads_of self.old }
    {
        if let Err(refused) = self.table.drop_first(number) {
            let _ = self.table.take(number);
            self.sockets.close(number);
            self.table.lacks(number, refused);
        }
    }
}
