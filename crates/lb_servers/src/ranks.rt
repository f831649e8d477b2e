//! Servers by order.

ghost use Rattle.std.specs.Prelude.{◌≡◌, ◌+◌, ◌<◌, ◌≤◌, IfSome, [], length, slice_get, take};
ghost use Rattle.std.specs.List.{position};
ghost use Rattle.std.specs.Option.{unwrap_or};
ghost use Rattle.lb_servers.specs.Pick.{up_servers, is_up_at as is_up_at_of};
ghost use Rattle.lb_servers.specs.Ranks.{StandAt, behind, by_order};

use crate::server::Loaded;
use arrayvec::ArrayVec;
use lb_wire::PoolId;
use std::marker::Model;

/// The most servers.
pub const MAX_SERVERS: usize = 256;

/// The places of servers in their list, by order, those of one order by age: so that a query finds them sorted. A contract
/// sees them as the list.
#[derive(Debug, Drop)]
pub(crate) struct Ranks {
    items: ArrayVec<u8, MAX_SERVERS>,
}

impl Model for Ranks {
    ghost use Rattle.std.specs.Prelude.{List, ℕ};

    ghost Value = { List ℕ };

    ghost view = { λ r. r.items.items };
}

impl Ranks {
    /// No server.
    pub(crate) fn new() -> Ranks
        ensures { result ≡ [] }
    {
        Ranks {
            items: ArrayVec::new(),
        }
    }

    /// The places of these servers.
    pub(crate) fn of(servers: &[Loaded]) -> Ranks
        requires { length servers.now ≤ 256 }
        ensures { StandAt servers.now result (by_order servers.now) }
    {
        let mut ranks = Ranks::new();
        for at in 0..servers.len() {
            ranks.put(servers, at);
        }
        ranks
    }

    /// Puts the server at a place after those of its order, where all before it are ranked.
    fn put(&mut self, servers: &[Loaded], at: usize)
        requires at { at < length servers.now }
        requires few { length servers.now ≤ 256 }
        requires ranked { StandAt servers.now self.old (by_order (take at servers.now)) }
        ensures { StandAt servers.now self.new (by_order (take (at + 1) servers.now)) }
    {
        let place = place_by_order(servers, self.items.as_slice(), servers[at].server.order);
        self.items.insert(place, at as u8);
    }

    /// Those of the places where servers of a pool stand that are up.
    pub(crate) fn up_in(&self, servers: &[Loaded], pool: PoolId) -> Ranks
        requires { StandAt servers.now self.now (by_order servers.now) }
        ensures { StandAt servers.now result (up_servers pool servers.now) }
    {
        let mut items = ArrayVec::new();
        for at in self.items.as_slice() {
            if is_up_at(servers, *at, pool) {
                items.push(*at);
            }
        }
        Ranks { items }
    }

    /// The places, in order.
    pub(crate) fn as_slice(&self) -> &[u8]
        ensures { result.now ≡ self.now }
    {
        self.items.as_slice()
    }
}

/// Whether the server at a place stands in a pool and is up.
fn is_up_at(servers: &[Loaded], at: u8, pool: PoolId) -> bool
    ensures { result ≡ is_up_at_of pool (slice_get servers.now at) }
{
    match servers.get(usize::from(at)) {
        Some(l) => l.is_up_in(pool),
        None => false,
    }
}

/// Whether the server at a place comes after those of an order.
fn is_behind(servers: &[Loaded], at: u8, order: u16) -> bool
    ensures { result ≡ behind order (slice_get servers.now at) }
{
    match servers.get(usize::from(at)) {
        Some(l) => order < l.server.order,
        None => false,
    }
}

/// Where the first server stands that comes after those of an order.
fn first_behind(servers: &[Loaded], ranks: &[u8], order: u16) -> Option<usize>
    ensures first { result ≡ position (λ at. behind order (slice_get servers.now at)) ranks.now }
    ensures within { IfSome result (λ place. place < length ranks.now) }
{
    ranks.iter().position(|at| is_behind(servers, *at, order))
}

/// Where a younger server of an order goes: after those of its order, before those of a greater one.
fn place_by_order(servers: &[Loaded], ranks: &[u8], order: u16) -> usize
    ensures place { result ≡ unwrap_or (position (λ at. behind order (slice_get servers.now at)) ranks.now) (length ranks.now) }
    ensures within { result ≤ length ranks.now }
{
    match first_behind(servers, ranks, order) {
        Some(place) => place,
        None => ranks.len(),
    }
}
