//! How many answers a connection waits for, and how long it is kept.

ghost use Rattle.std.specs.Prelude.{◌<◌, ◌≡◌};
ghost use Rattle.lb_loops_tcp.specs.Goes.{Goes, SameBut, Settles, none, reads_of};
ghost use Rattle.lb_loops_tcp.specs.Links.{Net};
ghost use Rattle.lb_loops_tcp.specs.Turn.{Sweeps};

use crate::links::Links;
use lb_loops_io::{MAX_CONNECTIONS, Roster, Streams};

impl<S: Streams> Links<S> {
    /// A query of a connection was answered or sent on.
    pub(crate) fn owe(&mut self, number: u64, was_sent_on: bool)
        ensures goes { Goes self.old self.new none none }
        ensures others { SameBut number self.old self.new }
        ensures reads { reads_of self.new ≡ reads_of self.old }
    {
        if !was_sent_on {
            return;
        }
        let Some(mut connection) = self.table.take(number) else {
            return;
        };
        connection.owed = connection.owed.saturating_add(1);
        self.table.put(connection);
    }

    /// A message goes to a connection. Where a query of it was sent on, that is answered.
    pub(crate) fn pay(&mut self, number: u64, was_owed: bool)
        ensures goes { Goes self.old self.new none none }
        ensures others { SameBut number self.old self.new }
        ensures reads { reads_of self.new ≡ reads_of self.old }
    {
        if !was_owed {
            return;
        }
        let Some(mut connection) = self.table.take(number) else {
            return;
        };
        connection.owed = connection.owed.saturating_sub(1);
        self.table.put(connection);
    }

    /// Where the roster was changed: a server's connection that is not at the roster's end of the
    /// server any more is read on for a while, and one that is there again is kept.
    #[tactic(auto, using(crate::proofs::Opening::goes_nothing, crate::proofs::Then::goes_before, crate::proofs::Settling::settles_nothing))]
    pub(crate) fn follow(&mut self, roster: &Roster, now: u64)
        ensures goes { Goes self.old self.new none none }
        ensures settles { Settles self.old self.new }
        ensures reads { reads_of self.new ≡ reads_of self.old }
    {
        if !self.table.is_behind(roster) {
            return;
        }
        for place in 0..MAX_CONNECTIONS {
            self.follow_one(roster, now, place);
        }
    }

    /// The same for the connection at one place.
    fn follow_one(&mut self, roster: &Roster, now: u64, place: usize)
        requires { place < 4096 }
        ensures goes { Goes self.old self.new none none }
        ensures settles { Settles self.old self.new }
        ensures reads { reads_of self.new ≡ reads_of self.old }
    {
        let Some(number) = self.table.number_at(place) else {
            return;
        };
        let Some(mut connection) = self.table.take(number) else {
            return;
        };
        self.table.look_by(connection.follow(roster, now));
        self.table.put(connection);
    }

    /// Closes connections whose time is over at this moment. It looks at none where none can be.
    #[tactic(auto, using(crate::proofs::Sweeping::sweeps_none))]
    pub(crate) fn sweep(&mut self, now: u64)
        ensures { Sweeps now self.old self.new }
    {
        if !self.table.is_due(now) {
            return;
        }
        for place in 0..MAX_CONNECTIONS {
            self.sweep_one(now, place);
        }
    }

    /// Closes the connection at one place, where its time is over at this moment.
    fn sweep_one(&mut self, now: u64, place: usize)
        requires { place < 4096 }
        ensures { (first : Net) → Sweeps now first self.old → Sweeps now first self.new }
    {
        let Some(number) = self.table.number_at(place) else {
            return;
        };
        let Some(connection) = self.table.take(number) else {
            return;
        };
        if connection.is_overdue(now) {
            self.sockets.close(number);
            return;
        }
        self.table.look_again(&connection, now);
        self.table.put(connection);
    }
}
