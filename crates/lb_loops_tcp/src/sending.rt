//! What the loop of streams sends.

ghost use Rattle.std.specs.Prelude.{IfErr, IfOk, Some, slice_get, true, ◌≡◌};
ghost use Rattle.lb_loops_connections.specs.Table.{IsTo};
ghost use Rattle.lb_loops_io.specs.Letter.{outcome_letter};
ghost use Rattle.lb_loops_io.specs.declared.letter.End.TheVariants.{Client, Server};
ghost use Rattle.lb_loops_tcp.specs.Goes.{Goes, Settles, none, sent_by, reads_of};
ghost use Rattle.lb_loops_tcp.specs.Lines.{FitsServer, IsServers, is_http};
ghost use Rattle.lb_loops_tcp.specs.Turn.{Sends};

use crate::links::Links;
use crate::streams::StreamLoop;
use lb_core::Answer;
use lb_loops_io::{
    End, Endpoint, Outcome, Outside, Posts, Reported, Roster, Sending, Service, Streams, Taker,
    Way, Why, letter_of,
};
use lb_wire::{Kind, Lane, Octets, Origin, ServerId};
use std::alloc::Global;

impl<S: Streams> Links<S> {
    /// Puts a message after what the connection to a server at this end is to write, by one of its upstream sockets. Where none is open,
    /// one is begun.
    pub(crate) fn send_to(
        &mut self,
        alloc: Global,
        server: ServerId,
        lane: Lane,
        end: Endpoint,
        bytes: &Octets,
    ) -> Result<u64, Why>
        ensures goes { Goes self.old self.new none (sent_by result bytes.now) }
        ensures settles { Settles self.old self.new }
        ensures to { IfOk result (λ n. IsServers n server lane.number end self.new) }
        ensures why { IfErr result (λ why. FitsServer self.old self.new none server end lane bytes.now why) }
        ensures reads { reads_of self.new ≡ reads_of self.old }
    {
        match lane.kind {
            Kind::Datagram => Err(Why::Gone),
            Kind::Stream => self.send_by(alloc, server, lane, end, bytes),
        }
    }

    /// The same, where it goes by a stream.
    fn send_by(
        &mut self,
        alloc: Global,
        server: ServerId,
        lane: Lane,
        end: Endpoint,
        bytes: &Octets,
    ) -> Result<u64, Why>
        ensures goes { Goes self.old self.new none (sent_by result bytes.now) }
        ensures settles { Settles self.old self.new }
        ensures to { IfOk result (λ n. IsServers n server lane.number end self.new) }
        ensures why { IfErr result (λ why. FitsServer self.old self.new none server end lane bytes.now why) }
        ensures reads { reads_of self.new ≡ reads_of self.old }
    {
        match self.dialed(alloc, server, lane.number, end) {
            Ok(number) => self.send_over(server, lane, end, number, bytes),
            Err(why) => Err(why),
        }
    }

    /// Puts a message after what this connection to a server is to write.
    #[tactic(auto, using(crate::proofs::Letters::servers_after, crate::proofs::Letters::missed_now))]
    fn send_over(
        &mut self,
        server: ServerId,
        lane: Lane,
        end: Endpoint,
        number: u64,
        bytes: &Octets,
    ) -> Result<u64, Why>
        requires to { IsTo number server lane.number end self.old.table }
        ensures goes { Goes self.old self.new none (sent_by result bytes.now) }
        ensures settles { Settles self.old self.new }
        ensures to { IfOk result (λ n. IsServers n server lane.number end self.new) }
        ensures why { IfErr result (λ why. FitsServer self.old self.new none server end lane bytes.now why) }
        ensures reads { reads_of self.new ≡ reads_of self.old }
    {
        match self.put_behind(number, bytes) {
            Ok(()) => Ok(number),
            Err(why) => Err(why),
        }
    }
}

impl<S: Streams, T: Taker, O: Outside, P: Posts> StreamLoop<S, T, O, P> {
    /// Sends what came of an event: a message at most.
    #[tactic(auto, using(crate::proofs::Letters::sends_nothing))]
    pub(crate) fn send_outcome(
        &mut self,
        roster: &Roster,
        event: &Reported,
        outcome: &Outcome,
    ) -> Sending
        ensures sends { Sends roster.now.listed self.old self.new (outcome_letter event.now outcome.now) result }
        ensures reads { reads_of self.new.net ≡ reads_of self.old.net }
    {
        match letter_of(event, outcome) {
            Some((End::Client(origin), bytes)) => {
                self.send_to_client(roster, origin, bytes, ends_a_query(outcome))
            }
            Some((End::Server(server, lane), bytes)) => {
                self.send_to_server(roster, server, lane, bytes)
            }
            None => Sending::Nothing,
        }
    }

    /// Sends a message to a client: to the HTTP request of its slot, or by the connection of its slot. A query that was sent on is
    /// answered by it, or not.
    #[tactic(auto, using(crate::proofs::Then::goes_before, crate::proofs::Then::misses_before, crate::proofs::Letters::client_done, crate::proofs::Letters::client_failed))]
    pub(crate) fn send_to_client(
        &mut self,
        roster: &Roster,
        origin: Origin,
        bytes: &Octets,
        was_owed: bool,
    ) -> Sending
        ensures sends { Sends roster.now.listed self.old self.new (Some (Client origin, bytes.now)) result }
        ensures reads { reads_of self.new.net ≡ reads_of self.old.net }
    {
        if self.is_http(origin) {
            return self.hand(roster, origin, bytes);
        }
        self.links.pay(origin.slot, was_owed);
        match self.links.put_behind(origin.slot, bytes) {
            Ok(()) => Sending::Done(Way::Connection(origin.slot)),
            Err(why) => Sending::Failed(why),
        }
    }

    /// Whether a query came by HTTP.
    fn is_http(&self, origin: Origin) -> bool
        ensures { result ≡ is_http (slice_get self.now.fronts origin.front) }
    {
        match self.fronts.get(usize::from(origin.front)) {
            Some(Service::Http) => true,
            _ => false,
        }
    }

    /// Hands a message to the HTTP request that waits for it.
    #[tactic(auto, using(crate::proofs::Letters::post_done, crate::proofs::Letters::post_gone, crate::proofs::Letters::post_lacking))]
    fn hand(&mut self, roster: &Roster, origin: Origin, bytes: &Octets) -> Sending
        requires http { is_http (slice_get self.old.fronts origin.front) ≡ true }
        ensures sends { Sends roster.now.listed self.old self.new (Some (Client origin, bytes.now)) result }
        ensures reads { reads_of self.new.net ≡ reads_of self.old.net }
    {
        match self.posts.hand(origin, bytes) {
            Ok(()) => Sending::Done(Way::Post),
            Err(why) => match why {
                Why::NoMemory => Sending::Failed(why),
                _ => Sending::Failed(Why::Gone),
            },
        }
    }

    /// Sends a message to a server, by the connection of one of its upstream sockets to the end that the roster has.
    #[tactic(auto, using(crate::proofs::Letters::server_none, crate::proofs::Letters::server_done, crate::proofs::Letters::server_failed))]
    pub(crate) fn send_to_server(
        &mut self,
        roster: &Roster,
        server: ServerId,
        lane: Lane,
        bytes: &Octets,
    ) -> Sending
        ensures sends { Sends roster.now.listed self.old self.new (Some (Server server lane, bytes.now)) result }
        ensures reads { reads_of self.new.net ≡ reads_of self.old.net }
    {
        let Some(place) = roster.get(server) else {
            return Sending::Failed(Why::NoServer);
        };
        match self
            .links
            .send_to(self.alloc, server, lane, place.at, bytes)
        {
            Ok(number) => Sending::Done(Way::Connection(number)),
            Err(why) => Sending::Failed(why),
        }
    }
}

/// Whether a query that was sent on ends with this.
fn ends_a_query(outcome: &Outcome) -> bool {
    matches!(
        outcome,
        Outcome::Answered(Answer::Deliver(..) | Answer::Expired(..))
    )
}
