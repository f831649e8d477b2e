//! The choice of a server.

ghost use Rattle.std.specs.Prelude.{◌≡◌, ◌%◌, List, length, option_map, slice_get};
ghost use Rattle.std.specs.List.{reduce};
ghost use Rattle.lb_servers.specs.declared.server.Loaded.{Loaded};
ghost use Rattle.lb_servers.specs.Pick.{best_of, chosen, less_loaded as lesser, servers_at, server_at as server_at_of};
ghost use Rattle.lb_servers.specs.Ranks.{StandAt};

use crate::pool::Policy;
use crate::server::Loaded;
use lb_wire::ServerId;

/// The server at a place.
fn server_at(servers: &[Loaded], at: u8) -> Option<&Loaded>
    ensures { option_map (λ l. l.now) result ≡ slice_get servers.now at }
{
    servers.get(usize::from(at))
}

/// The number of the server at a place.
fn id_at(servers: &[Loaded], at: u8) -> Option<ServerId>
    ensures { result ≡ option_map (λ l. l.server.id) (slice_get servers.now at) }
{
    let l = server_at(servers, at)?;
    Some(l.server.id)
}

/// The number of the up server that has so many before it.
fn nth_up(servers: &[Loaded], ups: &[u8], n: usize) -> Option<ServerId>
    ensures { result ≡ option_map (λ l. l.server.id) (server_at_of servers.now (slice_get ups.now n)) }
{
    let at = *ups.get(n)?;
    id_at(servers, at)
}

/// The number of the up server that a turn gives, going round.
fn in_turn(servers: &[Loaded], ups: &[u8], turn: u64) -> Option<ServerId>
    ensures { result ≡ option_map (λ l. l.server.id) (server_at_of servers.now (slice_get ups.now (turn % length ups.now))) }
{
    let count = ups.len();
    if count == 0 {
        return None;
    }
    let n = turn % count as u64;
    nth_up(servers, ups, n as usize)
}

/// Of the best server so far and the next one that one with fewer queries outstanding, the earlier one where they have as
/// many.
fn less_loaded<'a>(best: Option<&'a Loaded>, next: Option<&'a Loaded>) -> Option<&'a Loaded>
    ensures { option_map (λ l. l.now) result ≡ best_of (option_map (λ l. l.now) best.entry) (option_map (λ l. l.now) next.entry) }
{
    match (best, next) {
        (Some(a), Some(b)) if b.outstanding >= a.outstanding => Some(a),
        (best, None) => best,
        (_, next) => next,
    }
}

/// The first of the up servers that have the fewest queries outstanding.
fn least<'a>(servers: &'a [Loaded], ups: &[u8]) -> Option<&'a Loaded>
    ensures { option_map (λ l. l.now) result ≡ reduce lesser (servers_at servers.now ups.now) }
{
    let mut best = None;
    for at in ups {
        best = less_loaded(best, server_at(servers, *at));
    }
    best
}

/// The number of the first of the up servers that have the fewest queries outstanding.
fn least_id(servers: &[Loaded], ups: &[u8]) -> Option<ServerId>
    ensures { result ≡ option_map (λ l. l.server.id) (reduce lesser (servers_at servers.now ups.now)) }
{
    let l = least(servers, ups)?;
    Some(l.server.id)
}

/// The number of the server that a policy picks among the up servers of a pool, which stand at these places by order.
pub(crate) fn pick(servers: &[Loaded], ups: &[u8], policy: Policy, turn: u64) -> Option<ServerId>
    ensures { (those : List Loaded) → StandAt servers.now ups.now those → result ≡ option_map (λ l. l.server.id) (chosen policy turn those) }
{
    match policy {
        Policy::FirstAvailable => nth_up(servers, ups, 0),
        Policy::LeastOutstanding => least_id(servers, ups),
        Policy::RoundRobin => in_turn(servers, ups, turn),
    }
}
