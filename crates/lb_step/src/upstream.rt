//! Servers with their health, pools with their caches, and outstanding queries, kept together: each
//! server's count is the number of its outstanding queries, and its mark is what its health says.

ghost use Rattle.std.specs.Prelude.{◌≡◌, ◌<◌, ◌≤◌, ℕ, IfOk, IfSome, IsTrue, None, Ok, Some, length, map, not, option_map, vec_len};
ghost use Rattle.std.specs.List.{AllByRecursion, filter, position};
ghost use Rattle.lb_wire.specs.Octets.{max_message};
ghost use Rattle.lb_servers.specs.Park.{AreBackends, added_pool, changed_pool, changed_server, lacks};
ghost use Rattle.lb_servers.specs.Pool.{cache_at, pool_named, with_policy, change_at};
ghost use Rattle.lb_servers.specs.Server.{marked};
ghost use Rattle.lb_table.specs.Place.{at_place};
ghost use Rattle.lb_table.specs.Table.{AreWaiting, due, entry_at};
ghost use Rattle.lb_cache.specs.Caches.{AreKept, lists_of, looked_in, skips_of, IsKeepable};
ghost use Rattle.lb_step.specs.Upstream.{added_checked, attached_cache, caches_of, detached_cache, expunged_cache, totals_of, backends_of, no_upstreams, on_backends, picked_of, put_into, removed_checked, server_of, AreNumbered, ByNumber, IsAsked, IsChecked, SendsBy, takes_turns as takes_turns_of, turned_if, is_check};
ghost use Rattle.lb_step.specs.Edit.{server_by};
ghost use Rattle.lb_step.specs.Expiry.{without_expired};
ghost use Rattle.lb_step.specs.Health.{result_taken};
ghost use Rattle.lb_step.specs.Plain.{plain_of};
ghost use Rattle.lb_step.specs.Reply.{MayKeep, ReplySteps};
ghost use Rattle.lb_step.specs.Answer.{marked as is_marked};
ghost use Rattle.lb_step.specs.Noted.{served_if};
ghost use Rattle.lb_wire.specs.Reply.{Replies};
ghost use Rattle.lb_step.specs.Snapshot.{snapshot_of};

use crate::answer::{Answer, IgnoreReason, Totals};
use crate::cache_spec::CacheSpec;
use crate::check::{Check, CheckSpec};
use crate::noted::Served;
use crate::plain::Plain;
use crate::reply::keep_and_deliver;
use crate::timeout::Timeout;
use lb_cache::{Cache, Caches, Covered, Hit, Shelf, Swept};
use lb_chain::Chain;
use lb_health::Changed;
use lb_servers::{
    Ident, Loaded, Mode, Park, ParkFault, Policy, Pool, PoolName, Server, ServerSpec,
};
use lb_table::{EnterFault, Table, Waiting};
use lb_wire::{CacheId, Key, Kind, Lane, PoolId, ReplyView, ServerId};
use std::alloc::{AllocError, Global};
use std::marker::Model;

/// How long a query waits for its reply at first, in milliseconds.
pub const FIRST_TIMEOUT: u32 = 2000;

/// Servers with their health, pools with their caches, and outstanding queries. A contract sees
/// them as plain lists, in which no server has a count.
#[derive(Debug, Drop)]
pub(crate) struct Upstream {
    /// How long a query waits for its reply, in milliseconds.
    timeout: u32,
    park: Park,
    /// The health checks of the servers, in their order.
    checks: Vec<Check>,
    table: Table,
    caches: Caches,
}

impl Model for Upstream {
    ghost use Rattle.std.specs.Prelude.{map};
    ghost use Rattle.lb_step.specs.Upstream.{AreNumbered, IsUpstream, Upstreams, server_of};

    ghost Value = { Upstreams };

    ghost view = { λ u. record {
      timeout = u.timeout;
      next_server = u.park.next;
      next_cache = u.park.next_cache;
      servers = map server_of u.park.servers;
      checks = u.checks.items;
      pools = u.park.pools;
      caches = u.caches.caches;
      outstanding = u.table;
      kept = u.caches.kept;
    } };

    ghost invariant = { λ u. IsUpstream u.park u.checks.items u.table × AreNumbered u.park.next_cache u.caches.caches };
}

impl Upstream {
    /// No server, the default pool, and nothing outstanding. The one error is lack of memory.
    pub(crate) fn new(alloc: Global) -> Result<Upstream, AllocError>
        ensures { IfOk result (λ upstream. upstream ≡ no_upstreams) }
    {
        Ok(Upstream {
            timeout: FIRST_TIMEOUT,
            park: Park::new(alloc)?,
            checks: Vec::new(alloc),
            table: Table::new(alloc),
            caches: Caches::new(alloc),
        })
    }

    /// A law: each server has one health check with its number, and its mark is what its health
    /// says; the servers stand by number, each below the next. It does nothing.
    pub(crate) fn law_of_health(&self)
        ensures numbers { ByNumber self.now.servers }
        ensures below { AllByRecursion (λ s. s.id.0 < self.now.next_server) self.now.servers }
        ensures checks { IsChecked self.now.servers self.now.checks }
    {
        // Read, so that what these keep true together is at hand.
        let _ = self.checks.len();
    }

    /// A law: what the lists of servers, pools, caches, outstanding queries and kept replies keep
    /// true. It does nothing.
    pub(crate) fn law_of_lists(&self)
        ensures backends { AreBackends (backends_of self.now) }
        ensures numbered { AreNumbered self.now.next_cache self.now.caches }
        ensures outstanding { AreWaiting self.now.outstanding }
        ensures kept { AreKept (caches_of self.now) }
    {
        self.park.law_of_list();
        self.table.law_of_list();
        self.caches.law_of_lists();
    }

    /// How long a query waits for its reply, in milliseconds.
    pub(crate) fn timeout(&self) -> u32
        ensures { result ≡ self.now.timeout }
    {
        self.timeout
    }

    /// The server that a pool picks for a query.
    pub(crate) fn pick(&self, pool: PoolId) -> Option<ServerId>
        ensures picked { result ≡ picked_of self.now pool }
        ensures given { IfSome result (λ server. server.0 < self.now.next_server) }
    {
        self.park.pick(pool)
    }

    /// Enters a query that this pool sends to the server of its place, and gives the lane by which it
    /// is sent and the ID with which: of the server's lanes of this transport the first from the
    /// word's on that has a free ID, and the first free one there. The pool's turn is counted, even
    /// if each lane is full. If memory is lacking, nothing changes. A query that is not entered is
    /// dropped.
    pub(crate) fn send(
        &mut self,
        pool: PoolId,
        kind: Kind,
        word: u16,
        waiting: Waiting,
    ) -> Result<(Lane, u16), EnterFault>
        requires given { waiting.place.server.0 < self.old.next_server }
        requires asked { IsAsked waiting.entry }
        ensures { SendsBy self.old pool waiting.place.server kind word waiting.entry result self.new }
    {
        let server = waiting.place.server;
        let lanes = self.park.lanes(server);
        match self.table.enter_by(kind, lanes, word, waiting) {
            Ok((lane, id)) => {
                self.park.began(server);
                count_turn(&mut self.park, pool);
                Ok((lane, id))
            }
            Err(fault) => match fault {
                EnterFault::LaneFull => {
                    count_turn(&mut self.park, pool);
                    Err(fault)
                }
                EnterFault::NoMemory => Err(fault),
            },
        }
    }

    /// What becomes of a reply of a server by a lane. If it belongs to the query that waits there, it
    /// is kept if that may be, its client gets it, and the query goes. That is read and dropped where
    /// it stands, as it is large. Its server may have been removed.
    pub(crate) fn deliver(
        &mut self,
        from: (ServerId, Lane),
        moment: u64,
        bytes: Vec<u8>,
        view: &ReplyView,
        served: &mut Option<Served>,
    ) -> Answer
        requires reads { Replies bytes.items view.now }
        requires short { vec_len bytes ≤ max_message }
        requires served { served.old ≡ None }
        ensures step { ReplySteps (is_marked result) self.old from.0 from.1 moment bytes.items (Ok view.now) result self.new }
        ensures mark { IsTrue (is_marked result) → MayKeep self.old from.0 from.1 moment bytes.items }
        ensures served { served.new ≡ served_if result from.0 (entry_at self.old.outstanding (at_place from.0 from.1 view.now.id)) }
    {
        let (server, lane) = from;
        let Some(waiting) = self.table.find(server, lane, view.id) else {
            return Answer::Ignored(IgnoreReason::Unknown);
        };
        if !view.belongs_to(&waiting.name, waiting.qtype, waiting.qclass) {
            return Answer::Ignored(IgnoreReason::Mismatch);
        }
        *served = Some(Served {
            server,
            began: waiting.began,
        });
        let answer = keep_and_deliver(&mut self.caches, moment, bytes, view, waiting);
        let _ = self.table.discard(server, lane, view.id);
        self.park.ended(server);
        answer
    }

    /// Takes the query of least deadline out that is given up by now, of equal ones the one that
    /// was sent first. Its server may have been removed.
    pub(crate) fn take_due(&mut self, now: u64) -> Option<Waiting>
        ensures due { result ≡ due now self.old.outstanding }
        ensures asked { IfSome result (λ w. IsAsked w.entry) }
        ensures without { self.new ≡ without_expired now self.old }
    {
        let waiting = self.table.take_due(now)?;
        self.park.ended(waiting.place.server);
        Some(waiting)
    }

    /// Takes a result of a server, and marks the server where that changes its health. None where
    /// no server has this number.
    pub(crate) fn take_result(&mut self, server: ServerId, ok: bool) -> Option<Changed>
        ensures { (self.new, result) ≡ result_taken self.old server ok }
    {
        let at = check_of(self.checks.as_slice(), server)?;
        let changed = self.checks[at].health.result(ok);
        match changed {
            Changed::No => {}
            Changed::Up => mark(&mut self.park, server, true),
            Changed::Down => mark(&mut self.park, server, false),
        }
        Some(changed)
    }

    /// The server with a name.
    pub(crate) fn server_named(&self, name: &Ident) -> Option<ServerId>
        ensures { result ≡ server_by self.now name.now }
    {
        self.park.server_named(name)
    }

    /// The pool with a name.
    pub(crate) fn pool_named(&self, name: &PoolName) -> Option<PoolId>
        ensures { result ≡ pool_named self.now.pools name.now }
    {
        self.park.pool_named(name)
    }

    /// Adds a server, whose health is judged so. Room for its health check is taken before anything
    /// changes.
    pub(crate) fn add_server(
        &mut self,
        spec: ServerSpec,
        check: CheckSpec,
    ) -> Result<ServerId, ParkFault>
        ensures { (self.new, result) ≡ added_checked (lacks result) self.old spec check }
    {
        if let Err(refused) = self.checks.reserve(1) {
            return Err(self.park.refusal(&spec, refused));
        }
        match self.park.add_server(spec) {
            Ok(id) => {
                self.checks.push(Check::new(id, check)).unwrap();
                Ok(id)
            }
            Err(fault) => Err(fault),
        }
    }

    /// Removes a server, and its health check. Its outstanding queries stay.
    pub(crate) fn remove_server(&mut self, id: ServerId) -> Result<(), ParkFault>
        ensures { (self.new, result) ≡ removed_checked self.old id }
    {
        let lanes = self.park.lanes(id);
        match self.park.remove_server(id) {
            Ok(()) => {
                self.table.let_go(id, lanes);
                remove_check(&mut self.checks, id);
                Ok(())
            }
            Err(fault) => Err(fault),
        }
    }

    /// Puts a server into a mode.
    pub(crate) fn set_mode(&mut self, id: ServerId, mode: Mode) -> Result<(), ParkFault>
        ensures { (self.new, result) ≡ put_into mode self.old id }
    {
        self.park.set_mode(id, mode)
    }

    /// Has the queries that are sent from now on wait so long.
    pub(crate) fn set_timeout(&mut self, timeout: Timeout)
        ensures { self.new ≡ record self.old { timeout = timeout } }
    {
        self.timeout = timeout.as_millis();
    }

    /// Adds a pool.
    pub(crate) fn add_pool(&mut self, name: PoolName) -> Result<PoolId, ParkFault>
        ensures { (self.new, result) ≡ on_backends self.old (added_pool (lacks result) (backends_of self.old) name) }
    {
        self.park.add_pool(name)
    }

    /// The cache of a pool, by number.
    pub(crate) fn cache_of(&self, pool: PoolId) -> Option<CacheId>
        ensures { result ≡ cache_at self.now.pools pool.0 }
    {
        self.park.cache_of(pool)
    }

    /// The codes of the options that the keys of a cache leave out.
    pub(crate) fn skips_of(&self, id: CacheId) -> &[u16]
        ensures { result.now ≡ skips_of id self.now.caches }
    {
        self.caches.skips_of(id)
    }

    /// The reply that a cache keeps under a key, where it lives at a moment, in milliseconds.
    pub(crate) fn look(&self, id: CacheId, key: &Key, now: u64) -> Option<Hit<'_>>
        ensures found { option_map (λ hit. (hit.bytes.now, hit.secs)) result ≡ looked_in self.now.kept id key.now now }
        ensures keepable { IfSome result (λ hit. IsKeepable key.now hit.bytes.now hit.secs) }
        ensures short { IfSome result (λ hit. length hit.bytes.now ≤ max_message) }
    {
        self.caches.look(id, key, now)
    }

    /// Gives a pool a new cache in the place of the one that it has. Room for it is taken before
    /// anything changes.
    pub(crate) fn attach_cache(
        &mut self,
        alloc: Global,
        pool: PoolId,
        spec: CacheSpec,
    ) -> Result<CacheId, ParkFault>
        ensures { (self.new, result) ≡ attached_cache (lacks result) self.old pool spec.max spec.max_ttl spec.skips }
    {
        self.park.cache_ready(pool)?;
        let CacheSpec {
            max,
            shards,
            max_ttl,
            skips,
        } = spec;
        let cache = match Cache::new(alloc, max, shards, max_ttl, skips) {
            Ok(cache) => cache,
            Err(refused) => return Err(ParkFault::from(refused)),
        };
        let id = CacheId(self.park.next_cache() as u64);
        match self.caches.attach(self.park.cache_of(pool), id, cache) {
            Ok(()) => Ok(self.park.attach_cache(pool)),
            Err(refused) => Err(ParkFault::from(refused)),
        }
    }

    /// Takes the cache off a pool, with what it keeps, and returns its number.
    pub(crate) fn detach_cache(&mut self, pool: PoolId) -> Option<CacheId>
        ensures { (self.new, result) ≡ detached_cache self.old pool }
    {
        let id = self.park.cache_of(pool)?;
        self.park.detach_cache(pool);
        self.caches.detach(id);
        Some(id)
    }

    /// Expunges what a cache keeps, and gives how many replies those were.
    pub(crate) fn expunge(&mut self, id: CacheId, covered: &Covered) -> usize
        ensures { (self.new, result) ≡ expunged_cache self.old id covered.now }
    {
        self.caches.expunge(id, covered)
    }

    /// Gives back the memory of up to so many replies that were expunged or went with their cache.
    /// Nothing that is seen changes.
    pub(crate) fn sweep(&mut self, most: usize) -> Swept
        ensures { self.new ≡ self.old }
    {
        self.caches.sweep(most)
    }

    /// The servers, each with how many queries it has outstanding.
    pub(crate) fn servers(&self) -> &[Loaded]
        ensures { map server_of result.now ≡ self.now.servers }
    {
        self.park.servers()
    }

    /// The health checks of the servers, in their order.
    pub(crate) fn checks(&self) -> &[Check]
        ensures { result.now ≡ self.now.checks }
    {
        self.checks.as_slice()
    }

    /// The pools.
    pub(crate) fn pools(&self) -> &[Pool]
        ensures { result.now ≡ self.now.pools }
    {
        self.park.pools()
    }

    /// The attached caches.
    pub(crate) fn shelves(&self) -> &[Shelf]
        ensures { lists_of result.now ≡ caches_of self.now }
    {
        self.caches.shelves()
    }

    /// How much there is of each part; the rules are so many.
    pub(crate) fn totals(&self, rules: usize) -> Totals
        ensures { result ≡ totals_of rules self.now }
    {
        Totals {
            rules,
            servers: self.park.len(),
            pools: self.park.pool_len(),
            caches: self.caches.len(),
            outstanding: self.table.len(),
            kept: self.caches.kept_len(),
        }
    }

    /// A snapshot of a chain and of what stands upstream, at a moment. The one error is lack of
    /// memory.
    pub(crate) fn snapshot(
        &self,
        alloc: Global,
        chain: &Chain,
        moment: u64,
    ) -> Result<Plain, AllocError>
        ensures { IfOk result (λ plain. plain ≡ snapshot_of (plain_of moment chain.now self.now)) }
    {
        Ok(Plain {
            moment,
            timeout: self.timeout,
            next_rule: chain.next_rule(),
            next_server: self.park.next_server(),
            next_cache: self.park.next_cache(),
            rules: chain.list_at(alloc, moment)?,
            servers: list_servers(alloc, self.park.list(alloc)?.as_slice())?,
            checks: list_checks(alloc, self.checks.as_slice())?,
            pools: self.park.pool_list(alloc)?,
            caches: self.caches.list(alloc)?,
            outstanding: self.table.list(alloc)?,
            kept: self.caches.kept_list(alloc)?,
        })
    }

    /// Gives a pool a policy.
    pub(crate) fn set_policy(&mut self, pool: PoolId, policy: Policy) -> Result<(), ParkFault>
        ensures { (self.new, result) ≡ on_backends self.old (changed_pool (with_policy policy) (backends_of self.old) pool) }
    {
        self.park.set_policy(pool, policy)
    }
}

/// Where the health check of a server stands.
fn check_of(checks: &[Check], server: ServerId) -> Option<usize>
    ensures at { result ≡ position (is_check server) checks.now }
    ensures within { IfSome result (λ at. at < length checks.now) }
{
    checks.iter().position(|check| check.is(server))
}

/// Takes the health check of a server out.
fn remove_check(checks: &mut Vec<Check>, server: ServerId)
    ensures { checks.new.items ≡ filter (λ check. not (is_check server check)) checks.old.items }
{
    checks.retain(|check| !check.is(server));
}

/// Marks a server up or down, where it is there.
fn mark(park: &mut Park, server: ServerId, up: bool)
    ensures { park.new ≡ (changed_server (marked up) park.old server).0 }
{
    match park.mark(server, up) {
        Ok(()) | Err(_) => {}
    }
}

/// Counts a turn of a pool whose policy is roundrobin.
fn count_turn(park: &mut Park, pool: PoolId)
    ensures { park.new ≡ record park.old { pools = change_at turned_if pool.0 park.old.pools } }
{
    if takes_turns(park.policy_of(pool)) {
        park.turn(pool);
    }
}

/// Whether a pool of this policy takes turns.
fn takes_turns(policy: Option<Policy>) -> bool
    ensures { result ≡ takes_turns_of policy }
{
    match policy {
        Some(Policy::RoundRobin) => true,
        Some(Policy::FirstAvailable | Policy::LeastOutstanding) | None => false,
    }
}

/// Copies of the servers, in order, without their loads.
fn list_servers(alloc: Global, loaded: &[Loaded]) -> Result<Vec<Server>, AllocError>
    ensures { IfOk result (λ list. list.items ≡ map server_of loaded.now) }
{
    let mut list = Vec::with_capacity(alloc, loaded.len())?;
    for one in loaded {
        list.push(one.server.copy())?;
    }
    Ok(list)
}

/// Copies of the health checks, in order.
fn list_checks(alloc: Global, checks: &[Check]) -> Result<Vec<Check>, AllocError>
    ensures { IfOk result (λ list. list.items ≡ checks.now) }
{
    let mut list = Vec::with_capacity(alloc, checks.len())?;
    for check in checks {
        list.push(check.copy())?;
    }
    Ok(list)
}
