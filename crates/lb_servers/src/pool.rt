//! Pools of servers.

ghost use Rattle.std.specs.Prelude.{◌≡◌, ◌<◌, ◌≤◌, [], ◌∷◌, ◌++◌, IfErr, IfOk, IfSome, IsTrue, OnErr, OnOk, is_some, length, slice_get, vec_len};
ghost use Rattle.std.specs.List.{list_any, position};
ghost use Rattle.std.specs.Vec.{vec_capacity};
ghost use Rattle.lb_servers.specs.declared.fault.ParkFault.TheVariants.{NoMemory};
ghost use Rattle.lb_servers.specs.Pool.{change_at, is_named, new_pool, pool_named as number_named, same_name, turned, with_cache, with_policy, cache_at as cache_at_of};

use crate::fault::ParkFault;
use crate::ident::Ident;
use lb_wire::{CacheId, PoolId};
use std::alloc::{AllocError, Global};

/// The most pools, the default one counted.
pub const MAX_POOLS: usize = 64;

/// The name of a pool. The default pool is a value of its own: texts write it as `-`.
#[derive(Debug, Drop)]
pub enum PoolName {
    Default,
    Named(Ident),
}

impl PoolName {
    /// An equal name.
    pub fn copy(&self) -> PoolName
        ensures { result ≡ self.now }
    {
        match self {
            PoolName::Default => PoolName::Default,
            PoolName::Named(name) => PoolName::Named(name.copy()),
        }
    }

    /// Whether two names are equal.
    pub fn equals(&self, other: &PoolName) -> bool
        ensures value { result ≡ same_name self.now other.now }
        ensures equal { IsTrue result → self.now ≡ other.now }
        ensures found { self.now ≡ other.now → IsTrue result }
    {
        match (self, other) {
            (PoolName::Default, PoolName::Default) => true,
            (PoolName::Named(a), PoolName::Named(b)) => a.equals(b),
            _ => false,
        }
    }
}

/// How a pool picks one of its servers that are up.
#[derive(Clone, Copy, Debug, PartialEq, Eq)]
pub enum Policy {
    /// The first one by order, then age.
    FirstAvailable,
    /// The first of those with the fewest queries outstanding.
    LeastOutstanding,
    /// One after the other.
    RoundRobin,
}

/// A pool of servers. Its number is its place among the pools; the default pool has number 0.
#[derive(Debug, Drop)]
pub struct Pool {
    pub name: PoolName,
    pub policy: Policy,
    /// How many queries were sent by the policy roundrobin; 2^64-1 is followed by 0.
    pub turn: u64,
    /// Its packet cache, by number.
    pub cache: Option<CacheId>,
}

impl Pool {
    /// A new pool: its policy is leastOutstanding, and it has no cache.
    pub(crate) fn new(name: PoolName) -> Pool
        ensures { result ≡ new_pool name }
    {
        Pool {
            name,
            policy: Policy::LeastOutstanding,
            turn: 0,
            cache: None,
        }
    }

    /// An equal pool.
    pub fn copy(&self) -> Pool
        ensures { result ≡ self.now }
    {
        Pool {
            name: self.name.copy(),
            policy: self.policy,
            turn: self.turn,
            cache: self.cache,
        }
    }

    /// Counts a turn.
    fn count_turn(&mut self)
        ensures { self.new ≡ turned self.old }
    {
        self.turn = self.turn.wrapping_add(1);
    }

    /// Gives it a policy.
    fn set_policy(&mut self, policy: Policy)
        ensures { self.new ≡ with_policy policy self.old }
    {
        self.policy = policy;
    }

    /// Gives it another cache, or none.
    fn set_cache(&mut self, cache: Option<CacheId>)
        ensures { self.new ≡ with_cache cache self.old }
    {
        self.cache = cache;
    }
}

/// Where the pool with a name stands.
fn place_named(pools: &[Pool], name: &PoolName) -> Option<usize>
    ensures place { result ≡ position (is_named name.now) pools.now }
    ensures within { IfSome result (λ at. at < length pools.now) }
{
    pools.iter().position(|pool| pool.name.equals(name))
}

/// The number of the pool with a name: its place among the pools.
pub(crate) fn pool_named(pools: &[Pool], name: &PoolName) -> Option<PoolId>
    requires { length pools.now ≤ 64 }
    ensures { result ≡ number_named pools.now name.now }
{
    let at = place_named(pools, name)?;
    Some(PoolId(at as u8))
}

/// Whether there is a pool with a name.
pub(crate) fn has_pool(pools: &[Pool], name: &PoolName) -> bool
    ensures { result ≡ is_some (number_named pools.now name.now) }
{
    place_named(pools, name).is_some()
}

/// Whether a pool has a name.
pub(crate) fn is_taken(pools: &[Pool], name: &PoolName) -> bool
    ensures { result ≡ list_any (is_named name.now) pools.now }
{
    pools.iter().any(|pool| pool.name.equals(name))
}

/// Whether a pool stands at a place.
pub(crate) fn is_there(pools: &[Pool], at: usize) -> bool
    ensures { result ≡ is_some (slice_get pools.now at) }
{
    pools.get(at).is_some()
}

/// Counts a turn of the pool at a place, where one stands there.
pub(crate) fn turn_at(pools: &mut [Pool], at: usize)
    ensures { pools.new ≡ change_at turned at pools.old }
{
    if at < pools.len() {
        pools[at].count_turn();
    }
}

/// Gives the pool at a place a policy, where one stands there.
pub(crate) fn set_policy_at(pools: &mut [Pool], at: usize, policy: Policy)
    ensures { pools.new ≡ change_at (with_policy policy) at pools.old }
{
    if at < pools.len() {
        pools[at].set_policy(policy);
    }
}

/// Gives the pool at a place another cache, or none, where one stands there.
pub(crate) fn set_cache_at(pools: &mut [Pool], at: usize, cache: Option<CacheId>)
    ensures { pools.new ≡ change_at (with_cache cache) at pools.old }
{
    if at < pools.len() {
        pools[at].set_cache(cache);
    }
}

/// The cache of the pool at a place, where one stands there and has one.
pub(crate) fn cache_at(pools: &[Pool], at: usize) -> Option<CacheId>
    ensures { result ≡ cache_at_of pools.now at }
{
    let pool = pools.get(at)?;
    pool.cache
}

/// Puts a new pool after the others. Memory is lacking only where there is no room left for one more.
pub(crate) fn push(pools: &mut Vec<Pool>, name: PoolName) -> Result<(), ParkFault>
    ensures pushed { OnOk result (pools.new.items ≡ pools.old.items ++ new_pool name ∷ []) }
    ensures lacks { IfErr result (λ fault. fault ≡ NoMemory) }
    ensures unchanged { OnErr result (pools.new.items ≡ pools.old.items) }
    ensures full { OnErr result (vec_capacity pools.old ≤ vec_len pools.old) }
{
    pools.push(Pool::new(name))?;
    Ok(())
}

/// Copies of the pools, in order.
pub(crate) fn list(alloc: Global, pools: &[Pool]) -> Result<Vec<Pool>, AllocError>
    ensures { IfOk result (λ list. list.items ≡ pools.now) }
{
    let mut list = Vec::with_capacity(alloc, pools.len())?;
    for pool in pools {
        list.push(pool.copy())?;
    }
    Ok(list)
}
