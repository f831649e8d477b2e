//! Servers and pools, by values worked out by hand: their lists, and what no line asks of them.

use super::rows::{held, too_much};
use lb_servers::{
    Ident, Loaded, Mode, Park, ParkFault, Policy, Pool, PoolName, PoolNames, Server, ServerSpec,
};
use lb_wire::{Addr, PoolId, ServerId};
use std::alloc::{AllocError, Global};
use std::num::NonZeroU16;
use std::test::Fail;

const ADDR: Addr = Addr::V4([192, 0, 2, 53]);

/// Texts that are no words of a line, and no names.
const NO_WORDS: &[&str] = &["", "a b", "\u{e9}"];

#[test]
fn a_text_that_is_no_word_is_no_name() -> Result<(), Fail> {
    for (row, text) in NO_WORDS.iter().enumerate() {
        held(row, Ident::parse(text).is_none())?;
    }
    Ok(())
}

/// The name of a pool as a line writes it.
fn pool_name(text: &str) -> Option<PoolName> {
    if text == "-" {
        return Some(PoolName::Default);
    }
    Some(PoolName::Named(Ident::parse(text)?))
}

/// What an operator states of a server.
fn spec(alloc: Global, name: &str, order: u16, pools: &[&str]) -> Result<ServerSpec, Fail> {
    let mut names = Vec::new(alloc);
    for text in pools {
        names.push(pool_name(text).ok_or("no name")?)?;
    }
    let pools = PoolNames::from_vec(names).ok_or("too many pools")?;
    let name = Ident::parse(name).ok_or("no name")?;
    let port = NonZeroU16::new(53).ok_or("no port")?;
    let mut spec = ServerSpec::new(alloc, name, ADDR, port);
    spec.order = order;
    spec.pools = pools;
    Ok(spec)
}

/// Adds a server of an order to pools.
fn add(
    alloc: Global,
    park: &mut Park,
    name: &str,
    order: u16,
    pools: &[&str],
) -> Result<ServerId, Fail> {
    let spec = spec(alloc, name, order, pools)?;
    Ok(park.add_server(spec)?)
}

/// The number of the refusal of a server of order 1 if memory is lacking.
fn refusal(alloc: Global, park: &Park, name: &str, pools: &[&str]) -> Result<u8, Fail> {
    let spec = spec(alloc, name, 1, pools)?;
    let copy = spec.copy(alloc)?;
    match too_much(alloc) {
        Err(refused) => Ok(park.refusal(&copy, refused).number()),
        Ok(_) => Ok(0),
    }
}

/// Servers that are refused with s1 to s256 there, and by which number.
const REFUSED: &[(&str, &[&str], u8)] = &[("s1", &["-", "none"], 2), ("s1", &[], 3), ("t", &[], 4)];

/// A table of the servers s1 to s256.
fn full(alloc: Global) -> Result<Park, Fail> {
    let mut park = Park::new(alloc)?;
    for n in 1..257u64 {
        let name = format!(in alloc; "s{n}")?;
        let _id = add(alloc, &mut park, name.as_str(), 1, &[])?;
    }
    Ok(park)
}

#[test]
fn lacking_memory_is_the_last_refusal(rt: HostRuntime) -> Result<(), Fail> {
    let mut park = full(rt.alloc())?;
    for (row, (name, pools, number)) in REFUSED.iter().enumerate() {
        held(row, refusal(rt.alloc(), &park, name, pools)? == *number)?;
    }
    park.remove_server(ServerId(256))?;
    held(3, refusal(rt.alloc(), &park, "t", &[])? == 5)
}

/// Pools and servers with names in the wrong order; s2 names a pool twice.
const POOLS: &[&str] = &["p2", "p1"];

const SERVERS: &[(&str, u16, &[&str])] = &[
    ("s3", 1, &[]),
    ("s2", 7, &["p1", "-", "p1"]),
    ("s1", 0, &[]),
];

/// A table of them, of which s3 is gone.
fn filled(alloc: Global) -> Result<Park, Fail> {
    let mut park = Park::new(alloc)?;
    for text in POOLS {
        let name = pool_name(text).ok_or("no name")?;
        let _pool = park.add_pool(name)?;
    }
    for (name, order, pools) in SERVERS {
        let _id = add(alloc, &mut park, name, *order, pools)?;
    }
    park.remove_server(ServerId(1))?;
    Ok(park)
}

/// Whether these are the numbers and the names of the servers, in order.
fn lists_servers(list: &[Loaded], wanted: &[(u64, &str)]) -> bool {
    for (l, (id, name)) in list.iter().zip(wanted) {
        if l.server.id.0 != *id || l.server.name.as_str() != *name {
            return false;
        }
    }
    list.len() == wanted.len()
}

/// Whether a pool has this name.
fn is_pool(pool: &Pool, text: &str) -> bool {
    match pool_name(text) {
        Some(name) => pool.name.equals(&name),
        None => false,
    }
}

/// Whether these are the names of the pools, in order.
fn lists_pools(list: &[Pool], wanted: &[&str]) -> bool {
    for (pool, text) in list.iter().zip(wanted) {
        if !is_pool(pool, text) {
            return false;
        }
    }
    list.len() == wanted.len()
}

/// Whether the server s2 is as it was stated.
fn is_stated(server: &Server) -> bool {
    server.pools.as_slice() == [PoolId(2), PoolId(0)].as_slice()
        && server.addr == ADDR
        && server.port.get() == 53
        && server.order == 7
        && server.mode == Mode::Auto
        && server.marked_up
}

/// Whether the lists are by number, whatever the names and the orders are.
fn are_by_number(alloc: Global, park: &Park) -> Result<bool, AllocError> {
    let servers = park.list(alloc).or_else(|_refused| park.list(alloc))?;
    let pools = park
        .pool_list(alloc)
        .or_else(|_refused| park.pool_list(alloc))?;
    let stated = match servers.first() {
        Some(l) => is_stated(&l.server) && l.outstanding == 0,
        None => false,
    };
    Ok(
        stated
            && lists_servers(servers.as_slice(), &[(2, "s2"), (3, "s1")])
            && lists_pools(pools.as_slice(), &["-", "p2", "p1"]),
    )
}

#[test]
fn servers_and_pools_are_listed_by_number(rt: HostRuntime) -> Result<(), Fail> {
    let park = filled(rt.alloc())?;
    held(0, are_by_number(rt.alloc(), &park)?)
}

/// Whether there is no server, and the default pool alone, with the policy that a pool has at
/// first.
fn is_new(alloc: Global, park: &Park) -> Result<bool, AllocError> {
    let servers = park.list(alloc).or_else(|_refused| park.list(alloc))?;
    let pools = park
        .pool_list(alloc)
        .or_else(|_refused| park.pool_list(alloc))?;
    let is_default = match pools.first() {
        Some(pool) => {
            is_pool(pool, "-")
                && pool.policy == Policy::LeastOutstanding
                && pool.turn == 0
                && pool.cache.is_none()
        }
        None => false,
    };
    Ok(servers.is_empty() && pools.len() == 1 && is_default)
}

/// Whether no call finds a server or a pool with these numbers.
fn has_neither(park: &mut Park, server: ServerId, pool: PoolId) -> bool {
    park.remove_server(server) == Err(ParkFault::NoSuchServer)
        && park.set_mode(server, Mode::Up) == Err(ParkFault::NoSuchServer)
        && park.mark(server, true) == Err(ParkFault::NoSuchServer)
        && park.set_policy(pool, Policy::RoundRobin) == Err(ParkFault::NoSuchPool)
        && park.cache_ready(pool) == Err(ParkFault::NoSuchPool)
        && park.policy_of(pool).is_none()
        && park.cache_of(pool).is_none()
        && park.pick(pool).is_none()
}

#[test]
fn a_new_park_has_the_default_pool_alone(rt: HostRuntime) -> Result<(), Fail> {
    let mut park = Park::new(rt.alloc())?;
    held(0, is_new(rt.alloc(), &park)?)?;
    held(1, has_neither(&mut park, ServerId(1), PoolId(1)))
}
