//! The up servers of each pool.

ghost use Rattle.std.specs.Prelude.{◌≡◌, ◌<◌, ◌≤◌, length};
ghost use Rattle.std.specs.List.{AllByRecursion};
ghost use Rattle.lb_servers.specs.Pick.{AreRemade, AreUps};
ghost use Rattle.lb_servers.specs.Ranks.{StandAt, by_order};

use crate::ranks::Ranks;
use crate::server::Loaded;
use lb_wire::PoolId;

/// Finds the places of the up servers of each pool anew, among those of all servers by order.
pub(crate) fn remake(ups: &mut [Ranks], ranks: &Ranks, servers: &[Loaded])
    requires few { length ups.old ≤ 64 }
    requires ranked { StandAt servers.now ranks.now (by_order servers.now) }
    ensures up { AreUps servers.now ups.new }
    ensures each { length ups.new ≡ length ups.old }
{
    for at in 0..ups.len() {
        ups[at] = ranks.up_in(servers, PoolId(at as u8));
    }
}

/// Finds the places of the up servers of these pools anew, among those of all servers by order.
pub(crate) fn remake_of(ups: &mut [Ranks], ranks: &Ranks, servers: &[Loaded], pools: &[PoolId])
    requires there { AllByRecursion (λ pool. pool.0 < length ups.old) pools.now }
    requires ranked { StandAt servers.now ranks.now (by_order servers.now) }
    ensures up { AreRemade pools.now servers.now ups.old ups.new }
    ensures each { length ups.new ≡ length ups.old }
{
    for pool in pools {
        ups[usize::from(pool.0)] = ranks.up_in(servers, *pool);
    }
}
