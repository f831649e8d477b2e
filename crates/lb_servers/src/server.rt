//! Servers.

ghost use Rattle.std.specs.Prelude.{◌≡◌, ℕ, ◌+◌, ◌<◌, ◌≤◌, ◌^◌, IfErr, IfOk, IfSome, IsTrue, OnErr, OnOk, not, [], ◌∷◌, ◌++◌, is_some, length, option_map, slice_get, vec_len};
ghost use Rattle.std.specs.List.{All, filter, find, list_any, position};
ghost use Rattle.std.specs.Vec.{vec_capacity};
ghost use Rattle.lb_wire.specs.declared.ids.ServerId.{ServerId};
ghost use Rattle.lb_servers.specs.declared.fault.ParkFault.TheVariants.{NoMemory};
ghost use Rattle.lb_servers.specs.declared.server.Loaded.{Loaded};
ghost use Rattle.lb_servers.specs.Pool.{same_pool};
ghost use Rattle.lb_servers.specs.Server.{ByNumber, IsPlaceOf, change_server, lanes_of as number_of_lanes, is_in, is_server, is_up, is_up_by, is_up_in, marked, place_if, server_named as number_named, with_mode, with_one_less, with_one_more};
ghost use Rattle.lb_servers.specs.Spec.{joined};

use crate::fault::ParkFault;
use crate::ident::Ident;
use crate::lane_count::LaneCount;
use arrayvec::ArrayVec;
use lb_wire::{Addr, PoolId, ServerId};
use std::alloc::{AllocError, Global};
use std::marker::Model;
use std::num::NonZeroU16;

/// The most pools that a server stands in.
pub const MAX_POOLS_OF_SERVER: usize = 8;

/// Whether a server is up: as an operator says, or by its health.
#[derive(Clone, Copy, Debug, PartialEq, Eq)]
pub enum Mode {
    /// It is up.
    Up,
    /// It is down.
    Down,
    /// It is up where its mark says so.
    Auto,
}

/// The pools that a server stands in, each once, at most 8. A contract sees them as the list.
#[derive(Debug, Drop)]
pub struct PoolIds {
    items: ArrayVec<PoolId, MAX_POOLS_OF_SERVER>,
}

impl Model for PoolIds {
    ghost use Rattle.std.specs.Prelude.{List};
    ghost use Rattle.lb_wire.specs.declared.ids.PoolId.{PoolId};

    ghost Value = { List PoolId };

    ghost view = { λ p. p.items.items };
}

impl PoolIds {
    /// The numbers of the pools.
    pub fn as_slice(&self) -> &[PoolId]
        ensures { result.now ≡ self.now }
    {
        self.items.as_slice()
    }

    /// No pool.
    pub(crate) fn none() -> PoolIds
        ensures { result ≡ [] }
    {
        PoolIds {
            items: ArrayVec::new(),
        }
    }

    /// Puts a pool after the others, unless it is among them.
    pub(crate) fn join(&mut self, pool: PoolId)
        requires { length self.old < 8 }
        ensures { self.new ≡ joined self.old pool }
    {
        if !is_among(self.items.as_slice(), pool) {
            self.items.push(pool);
        }
    }

    /// An equal list.
    pub(crate) fn copy(&self) -> PoolIds
        ensures { result ≡ self.now }
    {
        let mut items = ArrayVec::new();
        match items.try_extend_from_slice(self.items.as_slice()) {
            Ok(()) => PoolIds { items },
            Err(_) => unreachable!(),
        }
    }
}

/// Whether the pool is among these.
fn is_among(pools: &[PoolId], pool: PoolId) -> bool
    ensures { result ≡ list_any (same_pool pool) pools.now }
{
    pools.iter().any(|other| pool.0 == other.0)
}

/// A server (backend).
#[derive(Debug, Drop)]
pub struct Server {
    pub id: ServerId,
    pub name: Ident,
    pub addr: Addr,
    /// Its UDP and TCP port.
    pub port: NonZeroU16,
    /// Servers of a lesser order come first.
    pub order: u16,
    pub pools: PoolIds,
    /// How many lanes of each transport it has, numbered from 0.
    pub lanes: LaneCount,
    pub mode: Mode,
    /// The mark of its health, which counts in mode auto.
    pub marked_up: bool,
}

impl Server {
    /// Whether it is up: by its mode, or in mode auto by its mark.
    fn is_up(&self) -> bool
        ensures { result ≡ is_up self.now }
    {
        match self.mode {
            Mode::Up => true,
            Mode::Down => false,
            Mode::Auto => self.marked_up,
        }
    }

    /// Whether it stands in a pool.
    fn is_in(&self, pool: PoolId) -> bool
        ensures { result ≡ is_in pool self.now }
    {
        is_among(self.pools.as_slice(), pool)
    }

    /// An equal server.
    pub fn copy(&self) -> Server
        ensures { result ≡ self.now }
    {
        Server {
            id: self.id,
            name: self.name.copy(),
            addr: self.addr,
            port: self.port,
            order: self.order,
            pools: self.pools.copy(),
            lanes: self.lanes,
            mode: self.mode,
            marked_up: self.marked_up,
        }
    }
}

/// A server with its load.
#[derive(Debug, Drop)]
pub struct Loaded {
    pub server: Server,
    /// How many queries it has outstanding, by all its lanes.
    pub outstanding: u64,
}

impl Loaded {
    /// An equal value.
    pub fn copy(&self) -> Loaded
        ensures { result ≡ self.now }
    {
        Loaded {
            server: self.server.copy(),
            outstanding: self.outstanding,
        }
    }

    /// Whether it stands in a pool and is up.
    pub(crate) fn is_up_in(&self, pool: PoolId) -> bool
        ensures { result ≡ is_up_in pool self.now }
    {
        self.server.is_in(pool) && self.server.is_up()
    }

    /// Whether it has this number.
    fn is(&self, id: ServerId) -> bool
        ensures { result ≡ is_server id self.now }
    {
        self.server.id.0 == id.0
    }

    /// Puts it into a mode.
    fn set_mode(&mut self, mode: Mode)
        ensures { self.new ≡ with_mode mode self.old }
    {
        self.server.mode = mode;
    }

    /// Marks it up or down.
    fn mark(&mut self, up: bool)
        ensures { self.new ≡ marked up self.old }
    {
        self.server.marked_up = up;
    }

    /// Counts a query.
    fn began(&mut self)
        requires { self.old.outstanding + 1 < 2 ^ 64 }
        ensures { self.new ≡ with_one_more self.old }
    {
        self.outstanding += 1;
    }

    /// Counts a query out, where it has one outstanding.
    fn ended(&mut self)
        ensures { self.new ≡ with_one_less self.old }
    {
        self.outstanding = self.outstanding.saturating_sub(1);
    }
}

/// Where among servers by number the first one stands that has this number or a greater one.
fn first_from(servers: &[Loaded], id: ServerId) -> usize
    requires { ByNumber servers.now }
    ensures place { place_if id result (slice_get servers.now result) ≡ position (is_server id) servers.now }
    ensures there { is_some (place_if id result (slice_get servers.now result)) ≡ list_any (is_server id) servers.now }
{
    servers.partition_point(|l| l.server.id.0 < id.0)
}

/// Where the server with a number stands, among servers by number.
pub(crate) fn place_of(servers: &[Loaded], id: ServerId) -> Option<usize>
    requires { ByNumber servers.now }
    ensures place { result ≡ position (is_server id) servers.now }
    ensures there { is_some result ≡ list_any (is_server id) servers.now }
    ensures within { IfSome result (λ at. at < length servers.now) }
{
    let at = first_from(servers, id);
    match servers.get(at) {
        Some(l) if l.is(id) => Some(at),
        _ => None,
    }
}

/// The number of the server with a name.
pub(crate) fn server_named(servers: &[Loaded], name: &Ident) -> Option<ServerId>
    ensures { result ≡ number_named servers.now name.now }
{
    servers
        .iter()
        .find(|l| l.server.name.equals(name))
        .map(|l| l.server.id)
}

/// How many lanes of each transport the server with a number has, among servers by
/// number; 0 if there is none.
pub(crate) fn lanes_of(servers: &[Loaded], id: ServerId) -> u8
    requires { ByNumber servers.now }
    ensures { result ≡ number_of_lanes servers.now id }
{
    match place_of(servers, id) {
        Some(at) => servers[at].server.lanes.get(),
        None => 0,
    }
}

/// Puts the server at a place into a mode.
pub(crate) fn set_mode(servers: &mut [Loaded], at: usize, mode: Mode)
    requires { at < length servers.old }
    ensures { (id : ServerId) → IsPlaceOf id servers.old at → servers.new ≡ change_server id (with_mode mode) servers.old }
{
    servers[at].set_mode(mode);
}

/// Marks the server at a place up or down.
pub(crate) fn mark(servers: &mut [Loaded], at: usize, up: bool)
    requires { at < length servers.old }
    ensures { (id : ServerId) → IsPlaceOf id servers.old at → servers.new ≡ change_server id (marked up) servers.old }
{
    servers[at].mark(up);
}

/// Counts a query of the server with a number.
pub(crate) fn began(servers: &mut [Loaded], id: ServerId)
    requires by_number { ByNumber servers.old }
    requires room { All (λ l. IsTrue (is_server id l) → l.outstanding + 1 < 2 ^ 64) servers.old }
    ensures { servers.new ≡ change_server id with_one_more servers.old }
{
    if let Some(at) = place_of(servers, id) {
        servers[at].began();
    }
}

/// Counts a query of the server with a number out.
pub(crate) fn ended(servers: &mut [Loaded], id: ServerId)
    requires { ByNumber servers.old }
    ensures { servers.new ≡ change_server id with_one_less servers.old }
{
    if let Some(at) = place_of(servers, id) {
        servers[at].ended();
    }
}

/// Takes the server at a place out.
pub(crate) fn remove(servers: &mut Vec<Loaded>, at: usize)
    requires { at < vec_len servers.old }
    ensures { (id : ServerId) → IsPlaceOf id servers.old.items at → servers.new.items ≡ filter (λ l. not (is_server id l)) servers.old.items }
{
    servers.remove(at);
}

/// Puts a server after the others. Memory is lacking only where there is no room left for one more.
pub(crate) fn push(servers: &mut Vec<Loaded>, server: Loaded) -> Result<(), ParkFault>
    ensures pushed { OnOk result (servers.new.items ≡ servers.old.items ++ server ∷ []) }
    ensures lacks { IfErr result (λ fault. fault ≡ NoMemory) }
    ensures unchanged { OnErr result (servers.new.items ≡ servers.old.items) }
    ensures full { OnErr result (vec_capacity servers.old ≤ vec_len servers.old) }
{
    servers.push(server)?;
    Ok(())
}

/// Copies of the servers, in order.
pub(crate) fn list(alloc: Global, servers: &[Loaded]) -> Result<Vec<Loaded>, AllocError>
    ensures { IfOk result (λ list. list.items ≡ servers.now) }
{
    let mut list = Vec::with_capacity(alloc, servers.len())?;
    for server in servers {
        list.push(server.copy())?;
    }
    Ok(list)
}
