//! What is looked at under the desk's lock.

use lb_cache::{MaxEntries, MaxTtl, Shards, Shelf, Skips};
use lb_chain::Rule;
use lb_core::{Balancer, CacheCounts, Check, Counts, ServerCounts, Tally, Totals};
use lb_desk::{Desk, Naming};
use lb_servers::{Loaded, MAX_POOLS, MAX_SERVERS, Pool};
use lb_wire::{CacheId, RuleId};
use std::alloc::{AllocError, Global};
use std::sync::Wait;

/// A server (backend), with its health check and its counts.
#[derive(Debug, Drop)]
pub(crate) struct Backend {
    pub(crate) loaded: Loaded,
    pub(crate) check: Option<Check>,
    pub(crate) counts: ServerCounts,
}

/// A cache, without what it keeps.
#[derive(Debug, Drop)]
pub(crate) struct Store {
    pub(crate) id: CacheId,
    pub(crate) kept: usize,
    pub(crate) max: MaxEntries,
    pub(crate) shards: Shards,
    pub(crate) max_ttl: MaxTtl,
    pub(crate) skips: Skips,
    pub(crate) counts: CacheCounts,
}

/// All but the rules, the pending queries and the kept replies.
#[derive(Debug, Drop)]
pub(crate) struct Told {
    pub(crate) timeout: u32,
    pub(crate) totals: Totals,
    pub(crate) counts: Counts,
    /// Whether memory for the count of a rule, a server or a cache was refused.
    pub(crate) lacks: bool,
    pub(crate) servers: Vec<Backend>,
    pub(crate) pools: Vec<Pool>,
    pub(crate) caches: Vec<Store>,
}

/// A rule with its number, and how many walks it ended.
pub(crate) type Counted = (RuleId, Rule, u64);

/// The number of a rule, and how many walks it ended.
pub(crate) type Ended = (RuleId, u64);

/// What is shown of a desk. Each call looks at it once, under its lock.
pub(crate) trait Shown {
    /// What stands now. The one error is lack of memory.
    fn told(&self, alloc: Global) -> Result<Told, AllocError>;

    /// How many walks each of the first rules ended, at most so many. The one error is lack of
    /// memory.
    fn ended(&self, alloc: Global, most: usize) -> Result<Vec<Ended>, AllocError>;

    /// A copy of the rule at a place, if there is one. The one error is lack of memory.
    fn rule_at(&self, alloc: Global, place: usize) -> Result<Option<Counted>, AllocError>;

    /// The place of the rule with a number, if it is there.
    fn place_of(&self, id: RuleId) -> Option<usize>;
}

/// A desk, and the runtime by which its lock is waited for.
#[derive(Drop)]
pub(crate) struct AtDesk<'a, R, J: Naming> {
    pub(crate) rt: &'a R,
    pub(crate) desk: &'a Desk<J>,
}

impl<R: Wait, J: Naming> Shown for AtDesk<'_, R, J> {
    fn told(&self, alloc: Global) -> Result<Told, AllocError> {
        // Room is taken before the lock.
        let servers = Vec::with_capacity(alloc, MAX_SERVERS)?;
        let pools = Vec::with_capacity(alloc, MAX_POOLS)?;
        // a pool has one cache at most
        let caches = Vec::with_capacity(alloc, MAX_POOLS)?;
        self.desk.read(
            self.rt,
            |balancer, tally| copied(balancer, tally, servers, pools, caches),
        )
    }

    fn ended(&self, alloc: Global, most: usize) -> Result<Vec<Ended>, AllocError> {
        // Room is taken before the lock.
        let rules = Vec::with_capacity(alloc, most)?;
        self.desk.read(
            self.rt,
            |balancer, tally| counted(balancer, tally, rules, most),
        )
    }

    fn rule_at(&self, alloc: Global, place: usize) -> Result<Option<Counted>, AllocError> {
        self.desk.read(
            self.rt,
            |balancer, tally| copied_rule(alloc, balancer, tally, place),
        )
    }

    fn place_of(&self, id: RuleId) -> Option<usize> {
        self.desk
            .read(self.rt, |balancer, _tally| found(balancer, id))
    }
}

/// Copies, in room that was taken before.
fn copied(
    balancer: &Balancer,
    tally: &Tally,
    mut servers: Vec<Backend>,
    mut pools: Vec<Pool>,
    mut caches: Vec<Store>,
) -> Result<Told, AllocError> {
    let checks = balancer.checks();
    for (place, loaded) in balancer.servers().iter().enumerate() {
        servers.push(Backend {
            loaded: loaded.copy(),
            check: checks.get(place).map(Check::copy),
            counts: tally.by_number.of_server(loaded.server.id),
        })?;
    }
    for pool in balancer.pools() {
        pools.push(pool.copy())?;
    }
    for shelf in balancer.shelves() {
        caches.push(store_of(shelf, tally))?;
    }
    Ok(Told {
        timeout: balancer.timeout(),
        totals: balancer.totals(),
        counts: tally.counts,
        lacks: tally.by_number.is_lacking(),
        servers,
        pools,
        caches,
    })
}

/// A cache, without what it keeps.
fn store_of(shelf: &Shelf, tally: &Tally) -> Store {
    let cache = &shelf.cache;
    Store {
        id: shelf.id,
        kept: cache.len(),
        max: cache.max(),
        shards: cache.shards(),
        max_ttl: cache.max_ttl(),
        skips: Skips::from_codes(cache.skips()),
        counts: tally.by_number.of_cache(shelf.id),
    }
}

/// Copies, in room that was taken before.
fn counted(
    balancer: &Balancer,
    tally: &Tally,
    mut rules: Vec<Ended>,
    most: usize,
) -> Result<Vec<Ended>, AllocError> {
    for numbered in balancer.rules().iter().take(most) {
        rules.push((numbered.id, tally.by_number.of_rule(numbered.id)))?;
    }
    Ok(rules)
}

fn copied_rule(
    alloc: Global,
    balancer: &Balancer,
    tally: &Tally,
    place: usize,
) -> Result<Option<Counted>, AllocError> {
    let Some(numbered) = balancer.rules().get(place) else {
        return Ok(None);
    };
    let rule = numbered.rule.copy(alloc)?;
    Ok(Some((numbered.id, rule, tally.by_number.of_rule(numbered.id))))
}

fn found(balancer: &Balancer, id: RuleId) -> Option<usize> {
    balancer
        .rules()
        .iter()
        .position(|numbered| numbered.id == id)
}
