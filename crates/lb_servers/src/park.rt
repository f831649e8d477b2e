//! The table of servers and pools.

ghost use Rattle.std.specs.Prelude.{◌≡◌, ℕ, ◌+◌, ◌<◌, ◌≤◌, ◌^◌, Bool, IsTrue, IfNone, IfOk, Ok, Err, length, option_map, slice_get, Result};
ghost use Rattle.std.specs.List.{All};
ghost use Rattle.lb_wire.specs.declared.ids.PoolId.{PoolId};
ghost use Rattle.lb_wire.specs.declared.ids.ServerId.{ServerId};
ghost use Rattle.lb_servers.specs.declared.fault.ParkFault.{ParkFault};
ghost use Rattle.lb_servers.specs.declared.server.Loaded.{Loaded};
ghost use Rattle.lb_servers.specs.Pool.{cache_at, pool_named, turned, with_policy};
ghost use Rattle.lb_servers.specs.Server.{is_server, lanes_of, marked, server_named, with_mode, with_one_less, with_one_more};
ghost use Rattle.lb_servers.specs.Pick.{chosen, picked, up_servers};
ghost use Rattle.lb_servers.specs.Park.{AreBackends, added_pool, added_server, attached, cache_ready_of, changed_pool, detached, changed_server, lacks, no_backends, removed_server, server_fault, with_pool, with_server};

use crate::fault::ParkFault;
use crate::ident::Ident;
use crate::pool::{self, MAX_POOLS, Policy, Pool, PoolName};
use crate::ranks::{MAX_SERVERS, Ranks};
use crate::server::{self, Loaded, Mode};
use crate::spec::{self, ServerSpec};
use crate::{pick, ups};
use lb_wire::{CacheId, PoolId, ServerId};
use std::alloc::{AllocError, Global};
use std::marker::Model;

/// The table of servers (backends) and pools. A contract sees it as the next server and cache numbers, the list of servers by
/// number, each with how many queries it has outstanding, and the list of pools by number.
#[derive(Debug, Drop)]
pub struct Park {
    /// The last number given to a server, 0 at first.
    last_server: u64,
    /// The last number given to a cache, 0 at first.
    last_cache: u64,
    servers: Vec<Loaded>,
    pools: Vec<Pool>,
    /// The places of the servers by order, made anew after each edit that adds or removes one.
    ranks: Ranks,
    /// Of each pool, by number, the places of its servers that are up, by order, made anew after each edit that may change
    /// them: so that a query finds them and no others.
    ups: Vec<Ranks>,
}

impl Model for Park {
    ghost use Rattle.lb_servers.specs.Park.{AreBackends, Backends, IsPark, backends_of};

    ghost Value = { Backends };

    ghost view = { λ p. backends_of p.last_server p.last_cache p.servers.items p.pools.items };

    ghost invariant = { λ p. IsPark p.servers.items p.pools.items p.ranks p.ups.items × AreBackends (backends_of p.last_server p.last_cache p.servers.items p.pools.items) };
}

impl Park {
    /// A table without servers, with the default pool. The one error is lack of memory.
    pub fn new(alloc: Global) -> Result<Park, AllocError>
        ensures { IfOk result (λ park. park ≡ no_backends) }
    {
        let mut pools = Vec::new(alloc);
        pools.push(Pool::new(PoolName::Default))?;
        let mut ups = Vec::new(alloc);
        ups.push(Ranks::new())?;
        Ok(Park {
            last_server: 0,
            last_cache: 0,
            servers: Vec::new(alloc),
            pools,
            ranks: Ranks::new(),
            ups,
        })
    }

    /// The number that the next server gets; 2^64 once all are given.
    pub fn next_server(&self) -> u128
        ensures { result ≡ self.now.next }
    {
        u128::from(self.last_server) + 1
    }

    /// The number that the next cache gets; 2^64 once all are given.
    pub fn next_cache(&self) -> u128
        ensures number { result ≡ self.now.next_cache }
        ensures fits { result ≤ 2 ^ 64 }
    {
        u128::from(self.last_cache) + 1
    }

    /// How many servers there are.
    pub fn len(&self) -> usize
        ensures { result ≡ length self.now.servers }
    {
        self.servers.len()
    }

    /// A law: the servers are by number, each number once and below the next, no two have one name, there are at most 256, and each
    /// stands in 1 to 8 pools that are there, in each once; the first pool is the default pool, no two have one name, there are
    /// at most 64, and no two have one cache, whose number is below the next. It does nothing.
    pub fn law_of_list(&self)
        ensures { AreBackends self.now }
    {
        // Read, so that what the table keeps true is at hand.
        let _ = self.servers.len();
    }

    /// The servers in the order of `law_of_list`, each with how many queries it has outstanding. The one error is lack of memory.
    pub fn list(&self, alloc: Global) -> Result<Vec<Loaded>, AllocError>
        ensures { IfOk result (λ list. list.items ≡ self.now.servers) }
    {
        server::list(alloc, self.servers.as_slice())
    }

    /// The servers in the order of `law_of_list`, each with how many queries it has outstanding.
    pub fn servers(&self) -> &[Loaded]
        ensures { result.now ≡ self.now.servers }
    {
        self.servers.as_slice()
    }

    /// The pools in the order of `law_of_list`: by number, which is their place.
    pub fn pools(&self) -> &[Pool]
        ensures { result.now ≡ self.now.pools }
    {
        self.pools.as_slice()
    }

    /// How many pools there are, the default one counted.
    pub fn pool_len(&self) -> usize
        ensures { result ≡ length self.now.pools }
    {
        self.pools.len()
    }

    /// The pools in the order of `law_of_list`: by number, which is their place. The one error is lack of memory.
    pub fn pool_list(&self, alloc: Global) -> Result<Vec<Pool>, AllocError>
        ensures { IfOk result (λ list. list.items ≡ self.now.pools) }
    {
        pool::list(alloc, self.pools.as_slice())
    }

    /// The server with a name. It takes no memory.
    pub fn server_named(&self, name: &Ident) -> Option<ServerId>
        ensures { result ≡ server_named self.now.servers name.now }
    {
        server::server_named(self.servers.as_slice(), name)
    }

    /// How many lanes of each transport the server with a number has, numbered from 0; 0 if there
    /// is none. It takes no memory.
    pub fn lanes(&self, id: ServerId) -> u8
        ensures { result ≡ lanes_of self.now.servers id }
    {
        server::lanes_of(self.servers.as_slice(), id)
    }

    /// The pool with a name. It takes no memory.
    pub fn pool_named(&self, name: &PoolName) -> Option<PoolId>
        ensures { result ≡ pool_named self.now.pools name.now }
    {
        pool::pool_named(self.pools.as_slice(), name)
    }

    /// The policy of a pool; None where it is not there.
    pub fn policy_of(&self, pool: PoolId) -> Option<Policy>
        ensures { result ≡ option_map (λ p. p.policy) (slice_get self.now.pools pool.0) }
    {
        let pool = self.pools.get(usize::from(pool.0))?;
        Some(pool.policy)
    }

    /// Adds a pool after the others, with the policy leastOutstanding. The refusals, in their order: `NameTaken`, as the
    /// name of the default pool always is; `TooMany` at 64 pools; `NoMemory`. A refusal changes nothing.
    pub fn add_pool(&mut self, name: PoolName) -> Result<PoolId, ParkFault>
        ensures { (self.new, result) ≡ added_pool (lacks result) self.old name }
    {
        if pool::is_taken(self.pools.as_slice(), &name) {
            return Err(ParkFault::NameTaken);
        }
        let at = self.pools.len();
        if at >= MAX_POOLS {
            return Err(ParkFault::TooMany);
        }
        // Room for both is taken before either is changed.
        self.ups.reserve(1)?;
        pool::push(&mut self.pools, name)?;
        let pool = PoolId(at as u8);
        let ups = self.ranks.up_in(self.servers.as_slice(), pool);
        self.ups.push(ups).unwrap();
        Ok(pool)
    }

    /// Adds a server, in mode auto and marked up. The refusals, in their order: `NoSuchPool` where a pool that the spec
    /// names is not there; `NameTaken`; `TooMany` at 256 servers; `NoMoreIds` once 2^64-1 was given; `NoMemory`. A refusal
    /// changes nothing.
    pub fn add_server(&mut self, spec: ServerSpec) -> Result<ServerId, ParkFault>
        ensures { (self.new, result) ≡ added_server (lacks result) self.old spec }
    {
        if let Some(fault) = self.server_fault(&spec) {
            return Err(fault);
        }
        let id = self.last_server + 1;
        let server = spec::new_server(id, self.pools.as_slice(), spec);
        match server::push(&mut self.servers, server) {
            Ok(()) => {
                self.last_server = id;
                self.ranks = Ranks::of(self.servers.as_slice());
                ups::remake(
                    self.ups.as_mut_slice(),
                    &self.ranks,
                    self.servers.as_slice(),
                );
                Ok(ServerId(id))
            }
            Err(fault) => Err(fault),
        }
    }

    /// Why this server is not added where memory was refused: the first refusal that applies, and else `NoMemory`. It takes no
    /// memory.
    pub fn refusal(&self, spec: &ServerSpec, refused: AllocError) -> ParkFault
        ensures { (self.now, Err result) ≡ added_server (lacks {A = ServerId} (Err result)) self.now spec.now }
    {
        match self.server_fault(spec) {
            Some(fault) => fault,
            None => ParkFault::from(refused),
        }
    }

    /// The first refusal of this server that applies, lack of memory left out.
    fn server_fault(&self, spec: &ServerSpec) -> Option<ParkFault>
        ensures fault { result ≡ server_fault self.now spec.now }
        ensures servers { IfNone result (length self.now.servers < 256) }
        ensures numbers { IfNone result (self.now.next < 2 ^ 64) }
    {
        if spec::lacks_pool(self.pools.as_slice(), spec.pools.as_slice()) {
            return Some(ParkFault::NoSuchPool);
        }
        if self.server_named(&spec.name).is_some() {
            return Some(ParkFault::NameTaken);
        }
        if self.servers.len() >= MAX_SERVERS {
            return Some(ParkFault::TooMany);
        }
        if self.last_server == u64::MAX {
            return Some(ParkFault::NoMoreIds);
        }
        None
    }

    /// Removes the server with a number; `NoSuchServer` where there is none, and then nothing changes. It takes no memory.
    pub fn remove_server(&mut self, id: ServerId) -> Result<(), ParkFault>
        ensures { (self.new, result) ≡ removed_server self.old id }
    {
        let Some(at) = server::place_of(self.servers.as_slice(), id) else {
            return Err(ParkFault::NoSuchServer);
        };
        server::remove(&mut self.servers, at);
        self.ranks = Ranks::of(self.servers.as_slice());
        ups::remake(
            self.ups.as_mut_slice(),
            &self.ranks,
            self.servers.as_slice(),
        );
        Ok(())
    }

    /// Puts a server into a mode; `NoSuchServer` where there is none with this number, and then nothing changes. It takes no
    /// memory.
    pub fn set_mode(&mut self, id: ServerId, mode: Mode) -> Result<(), ParkFault>
        ensures { (self.new, result) ≡ changed_server (with_mode mode) self.old id }
    {
        let Some(at) = server::place_of(self.servers.as_slice(), id) else {
            return Err(ParkFault::NoSuchServer);
        };
        let pools = self.servers[at].server.pools.copy();
        server::set_mode(self.servers.as_mut_slice(), at, mode);
        ups::remake_of(
            self.ups.as_mut_slice(),
            &self.ranks,
            self.servers.as_slice(),
            pools.as_slice(),
        );
        Ok(())
    }

    /// Marks a server up or down; `NoSuchServer` where there is none with this number, and then nothing changes. It takes no
    /// memory.
    pub fn mark(&mut self, id: ServerId, up: bool) -> Result<(), ParkFault>
        ensures { (self.new, result) ≡ changed_server (marked up) self.old id }
    {
        let Some(at) = server::place_of(self.servers.as_slice(), id) else {
            return Err(ParkFault::NoSuchServer);
        };
        if self.servers[at].server.marked_up == up {
            return Ok(());
        }
        let pools = self.servers[at].server.pools.copy();
        server::mark(self.servers.as_mut_slice(), at, up);
        ups::remake_of(
            self.ups.as_mut_slice(),
            &self.ranks,
            self.servers.as_slice(),
            pools.as_slice(),
        );
        Ok(())
    }

    /// Gives a pool a policy; its turn stays. `NoSuchPool` where there is none with this number, and then nothing changes.
    /// It takes no memory.
    pub fn set_policy(&mut self, pool: PoolId, policy: Policy) -> Result<(), ParkFault>
        ensures { (self.new, result) ≡ changed_pool (with_policy policy) self.old pool }
    {
        let at = usize::from(pool.0);
        if !pool::is_there(self.pools.as_slice(), at) {
            return Err(ParkFault::NoSuchPool);
        }
        pool::set_policy_at(self.pools.as_mut_slice(), at, policy);
        Ok(())
    }

    /// Whether a pool can be given a cache: the refusals, in their order, are `NoSuchPool` where it is not there, and `NoMoreIds`
    /// once 2^64-1 was given to a cache.
    pub fn cache_ready(&self, pool: PoolId) -> Result<(), ParkFault>
        ensures { result ≡ cache_ready_of self.now pool }
    {
        if !pool::is_there(self.pools.as_slice(), usize::from(pool.0)) {
            return Err(ParkFault::NoSuchPool);
        }
        if self.last_cache == u64::MAX {
            return Err(ParkFault::NoMoreIds);
        }
        Ok(())
    }

    /// Gives a pool a new cache in place of the one that it has, and returns its number, which is never given again. It takes no
    /// memory.
    pub fn attach_cache(&mut self, pool: PoolId) -> CacheId
        requires ready { cache_ready_of self.old pool ≡ Ok tt }
        ensures { (self.new, result) ≡ attached self.old pool }
    {
        self.last_cache += 1;
        let cache = CacheId(self.last_cache);
        pool::set_cache_at(self.pools.as_mut_slice(), usize::from(pool.0), Some(cache));
        cache
    }

    /// Takes the cache of a pool away, and returns its number; None if the pool has none, or is not there. It takes no memory.
    pub fn detach_cache(&mut self, pool: PoolId) -> Option<CacheId>
        ensures { (self.new, result) ≡ detached self.old pool }
    {
        let cache = self.cache_of(pool);
        pool::set_cache_at(self.pools.as_mut_slice(), usize::from(pool.0), None);
        cache
    }

    /// The cache of a pool; None where the pool has none, or is not there.
    pub fn cache_of(&self, pool: PoolId) -> Option<CacheId>
        ensures { result ≡ cache_at self.now.pools pool.0 }
    {
        pool::cache_at(self.pools.as_slice(), usize::from(pool.0))
    }

    /// The server that a pool picks for a query by its policy, among its servers that are up, by order, then age. None
    /// where none is up, or the pool is not there. It takes no memory.
    pub fn pick(&self, pool: PoolId) -> Option<ServerId>
        ensures { result ≡ picked self.now.servers self.now.pools pool }
    {
        let found = self.pools.get(usize::from(pool.0))?;
        self.pick_by(pool, found.policy, found.turn)
    }

    /// The server that a policy picks for a query among those of a pool that are up.
    fn pick_by(&self, pool: PoolId, policy: Policy, turn: u64) -> Option<ServerId>
        requires { pool.0 < length self.now.pools }
        ensures { result ≡ option_map (λ l. l.server.id) (chosen policy turn (up_servers pool self.now.servers)) }
    {
        let ups = self.ups[usize::from(pool.0)].as_slice();
        pick::pick(self.servers.as_slice(), ups, policy, turn)
    }

    /// Counts a turn of a pool, where it is there: 2^64-1 is followed by 0.
    pub fn turn(&mut self, pool: PoolId)
        ensures { self.new ≡ with_pool turned pool self.old }
    {
        pool::turn_at(self.pools.as_mut_slice(), usize::from(pool.0));
    }

    /// Counts a query that was sent to a server, where it is there.
    pub fn began(&mut self, id: ServerId)
        requires room { All (λ l. IsTrue (is_server id l) → l.outstanding + 1 < 2 ^ 64) self.old.servers }
        ensures { self.new ≡ with_server with_one_more id self.old }
    {
        server::began(self.servers.as_mut_slice(), id);
    }

    /// Counts a query of a server out, where it is there and has one outstanding.
    pub fn ended(&mut self, id: ServerId)
        ensures { self.new ≡ with_server with_one_less id self.old }
    {
        server::ended(self.servers.as_mut_slice(), id);
    }
}
