//! What an operator states of a new server.

ghost use Rattle.std.specs.Prelude.{◌≡◌, ◌≤◌, [], nat_le, length, IfOk, IsTrue, Some, None, if◌then◌else◌};
ghost use Rattle.lb_servers.specs.Spec.{lacks_pool as lacks, new_server as server_of, pools_named as numbers_named, stated_pools as stated};

use crate::ident::Ident;
use crate::lane_count::LaneCount;
use crate::pool::{Pool, PoolName, has_pool, pool_named};
use crate::server::{Loaded, MAX_POOLS_OF_SERVER, Mode, PoolIds, Server};
use lb_wire::{Addr, ServerId};
use std::alloc::{AllocError, Global};
use std::marker::Model;
use std::num::NonZeroU16;

/// The names of at most 8 pools, a repeated one counted. A contract sees them as the list.
#[derive(Debug, Drop)]
pub struct PoolNames {
    items: Vec<PoolName>,
}

impl Model for PoolNames {
    ghost use Rattle.std.specs.Prelude.{List, length, ◌≤◌};
    ghost use Rattle.lb_servers.specs.declared.pool.PoolName.{PoolName};

    ghost Value = { List PoolName };

    ghost view = { λ p. p.items.items };

    ghost invariant = { λ p. length p.items.items ≤ 8 };
}

impl PoolNames {
    /// No name. It takes no memory.
    pub fn none(alloc: Global) -> PoolNames
        ensures { result ≡ [] }
    {
        PoolNames {
            items: Vec::new(alloc),
        }
    }

    /// These names. None where there are more than 8.
    pub fn from_vec(items: Vec<PoolName>) -> Option<PoolNames>
        ensures { result ≡ (if nat_le (length items.items) 8 then Some items.items else None) }
    {
        if items.len() > MAX_POOLS_OF_SERVER {
            return None;
        }
        Some(PoolNames { items })
    }

    /// The names, in order.
    pub fn as_slice(&self) -> &[PoolName]
        ensures { result.now ≡ self.now }
    {
        self.items.as_slice()
    }

    /// Equal names. The one error is lack of memory.
    pub fn copy(&self, alloc: Global) -> Result<PoolNames, AllocError>
        ensures { IfOk result (λ copy. copy ≡ self.now) }
    {
        Ok(PoolNames {
            items: copied(alloc, self.items.as_slice())?,
        })
    }

    /// Whether two lists are equal: the same names in the same order.
    pub fn equals(&self, other: &PoolNames) -> bool
        ensures equal { IsTrue result → self.now ≡ other.now }
        ensures found { self.now ≡ other.now → IsTrue result }
    {
        are_equal(self.items.as_slice(), other.items.as_slice())
    }
}

/// Copies of the names, in order.
fn copied(alloc: Global, names: &[PoolName]) -> Result<Vec<PoolName>, AllocError>
    ensures { IfOk result (λ copies. copies.items ≡ names.now) }
{
    let mut copies = Vec::with_capacity(alloc, names.len())?;
    for name in names {
        copies.push(name.copy())?;
    }
    Ok(copies)
}

/// Whether the names are equal, in order.
fn are_equal(names: &[PoolName], others: &[PoolName]) -> bool
    ensures equal { IsTrue result → names.now ≡ others.now }
    ensures found { names.now ≡ others.now → IsTrue result }
{
    names.len() == others.len()
        && names
            .iter()
            .zip(others)
            .all(|(name, other)| name.equals(other))
}

/// Whether two ports are the same.
fn is_port(port: NonZeroU16, other: NonZeroU16) -> bool
    ensures equal { IsTrue result → port ≡ other }
    ensures found { port ≡ other → IsTrue result }
{
    port.get() == other.get()
}

/// What an operator states of a new server.
#[derive(Debug, Drop)]
pub struct ServerSpec {
    pub name: Ident,
    pub addr: Addr,
    /// Its UDP and TCP port.
    pub port: NonZeroU16,
    /// Servers of a lesser order come first; 1 where none is stated.
    pub order: u16,
    /// The pools that it stands in, a repeated one counted once; the default pool alone where none is stated.
    pub pools: PoolNames,
    /// How many lanes of each transport it has; 1 if it is not stated.
    pub lanes: LaneCount,
}

impl ServerSpec {
    /// A server of order 1 in the default pool alone, with one lane of each transport. It takes no memory.
    pub fn new(alloc: Global, name: Ident, addr: Addr, port: NonZeroU16) -> ServerSpec
        ensures { result ≡ record { name = name; addr = addr; port = port; order = 1; pools = []; lanes = 1 } }
    {
        ServerSpec {
            name,
            addr,
            port,
            order: 1,
            pools: PoolNames::none(alloc),
            lanes: LaneCount::one(),
        }
    }

    /// An equal value. The one error is lack of memory.
    pub fn copy(&self, alloc: Global) -> Result<ServerSpec, AllocError>
        ensures { IfOk result (λ copy. copy ≡ self.now) }
    {
        Ok(ServerSpec {
            name: self.name.copy(),
            addr: self.addr,
            port: self.port,
            order: self.order,
            pools: self.pools.copy(alloc)?,
            lanes: self.lanes,
        })
    }

    /// Whether two values are equal.
    pub fn equals(&self, other: &ServerSpec) -> bool
        ensures equal { IsTrue result → self.now ≡ other.now }
        ensures found { self.now ≡ other.now → IsTrue result }
    {
        self.name.equals(&other.name)
            && self.addr == other.addr
            && is_port(self.port, other.port)
            && self.order == other.order
            && self.pools.equals(&other.pools)
            && self.lanes == other.lanes
    }
}

/// Whether one of the pools is not there.
fn lacks_named(pools: &[Pool], names: &[PoolName]) -> bool
    ensures { result ≡ lacks pools.now names.now }
{
    names.iter().any(|name| !has_pool(pools, name))
}

/// Whether one of the pools that a new server is to stand in is not there; where none is stated, it is the default pool.
pub(crate) fn lacks_pool(pools: &[Pool], names: &[PoolName]) -> bool
    ensures { result ≡ lacks pools.now (stated names.now) }
{
    if names.is_empty() {
        lacks_named(pools, &[PoolName::Default])
    } else {
        lacks_named(pools, names)
    }
}

/// The numbers of the pools, each once.
fn pools_named(pools: &[Pool], names: &[PoolName]) -> PoolIds
    requires pools { length pools.now ≤ 64 }
    requires names { length names.now ≤ 8 }
    ensures { result ≡ numbers_named pools.now names.now }
{
    let mut ids = PoolIds::none();
    for name in names {
        if let Some(pool) = pool_named(pools, name) {
            ids.join(pool);
        }
    }
    ids
}

/// The numbers of the pools that a new server is to stand in; where none is stated, of the default pool.
fn stated_pools(pools: &[Pool], names: &[PoolName]) -> PoolIds
    requires pools { length pools.now ≤ 64 }
    requires names { length names.now ≤ 8 }
    ensures { result ≡ numbers_named pools.now (stated names.now) }
{
    if names.is_empty() {
        pools_named(pools, &[PoolName::Default])
    } else {
        pools_named(pools, names)
    }
}

/// A new server with this number: in mode auto, marked up, with nothing outstanding.
pub(crate) fn new_server(id: u64, pools: &[Pool], spec: ServerSpec) -> Loaded
    requires { length pools.now ≤ 64 }
    ensures server { result ≡ server_of id pools.now spec }
    ensures few { length spec.pools ≤ 8 }
{
    let pools = stated_pools(pools, spec.pools.items.as_slice());
    Loaded {
        server: Server {
            id: ServerId(id),
            name: spec.name,
            addr: spec.addr,
            port: spec.port,
            order: spec.order,
            pools,
            lanes: spec.lanes,
            mode: Mode::Auto,
            marked_up: true,
        },
        outstanding: 0,
    }
}
