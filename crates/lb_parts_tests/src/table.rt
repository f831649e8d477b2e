//! The table of outstanding queries, by values worked out by hand: its list, its counts and copies.

use super::rows::held;
use lb_name::Name;
use lb_table::{EnterFault, Entry, Table};
use lb_wire::{Addr, CacheId, Class, Key, Kind, Lane, Octets, Origin, RecordType, ServerId};
use std::alloc::{AllocError, Global};
use std::test::Fail;

const UDP: Lane = Lane {
    kind: Kind::Datagram,
    number: 0,
};

const TCP: Lane = Lane {
    kind: Kind::Stream,
    number: 0,
};

const ONE: ServerId = ServerId(1);

const TWO: ServerId = ServerId(2);

/// The ID of the queries as they came in.
const ASKED: &[u8] = &[0x12, 0x34];

/// The octets of the key in cache 3.
const KEPT: &[u8] = &[1];

/// The octets, which are few.
fn octets(alloc: Global, octets: &[u8]) -> Result<Octets, Fail> {
    if octets.len() > 2 {
        return Err(Fail::from("too many octets"));
    }
    Ok(Octets::from_vec(Vec::from_slice(alloc, octets)?))
}

/// A query of the client in this slot, sent at a moment, that waits so long.
fn entry(alloc: Global, slot: u64, began: u64, timeout: u32) -> Result<Entry, Fail> {
    let name = Name::parse_text("example.com")?;
    let asked = octets(alloc, ASKED)?;
    let key = Key {
        kind: Kind::Datagram,
        octets: octets(alloc, KEPT)?,
    };
    Ok(Entry {
        origin: Origin {
            front: 0,
            slot,
            source: Addr::V4([192, 0, 2, 1]),
            port: 53,
        },
        asked,
        name,
        qtype: RecordType::A,
        qclass: Class::IN,
        began,
        timeout,
        cache: Some((CacheId(3), key)),
    })
}

/// Queries, by the slot of their client: where they are sent, when they began, how long they wait.
const SENT: &[(u64, ServerId, Lane, (u64, u32))] = &[
    // one whose deadline is beyond the last moment
    (1, ONE, UDP, (u64::MAX, 2)),
    (2, ONE, UDP, (1000, 2000)),
    (3, TWO, TCP, (2500, 500)),
    (4, ONE, TCP, (0, 500)),
];

/// Their slots in the order of the list.
const LISTED: &[u64] = &[4, 2, 3, 1];

/// Enters a query.
fn enter(table: &mut Table, server: ServerId, lane: Lane, entry: Entry) -> Result<u16, EnterFault> {
    match table.enter(server, lane, 0, entry) {
        Ok(id) => Ok(id),
        Err((fault, _)) => Err(fault),
    }
}

/// Whether these asked the queries of the list, in order.
fn lists(alloc: Global, table: &Table, slots: &[u64]) -> Result<bool, AllocError> {
    let list = table.list(alloc).or_else(|_refused| table.list(alloc))?;
    for (waiting, slot) in list.iter().zip(slots) {
        if waiting.entry.origin.slot != *slot {
            return Ok(false);
        }
    }
    Ok(list.len() == slots.len())
}

#[test]
fn listed_by_deadline_and_then_by_entry(rt: HostRuntime) -> Result<(), Fail> {
    let mut table = Table::new(rt.alloc());
    for (slot, server, lane, (began, timeout)) in SENT {
        let entry = entry(rt.alloc(), *slot, *began, *timeout)?;
        let _id = enter(&mut table, *server, *lane, entry)?;
    }
    held(0, lists(rt.alloc(), &table, LISTED)?)?;
    held(1, table.in_flight(ONE) == 3 && table.in_flight(TWO) == 1)
}

/// Whether a copy of an entry has its octets and its key.
fn is_copied(alloc: Global, entry: &Entry) -> Result<bool, AllocError> {
    let copy = entry.copy(alloc).or_else(|_refused| entry.copy(alloc))?;
    let kept = match &copy.cache {
        Some((CacheId(3), key)) => key.octets.as_slice() == KEPT,
        _ => false,
    };
    Ok(kept && copy.asked.as_slice() == ASKED)
}

#[test]
fn a_copy_is_equal(rt: HostRuntime) -> Result<(), Fail> {
    let entry = entry(rt.alloc(), 7, 1000, 2000)?;
    held(0, is_copied(rt.alloc(), &entry)?)?;
    held(
        1,
        EnterFault::LaneFull.number() == 1 && EnterFault::NoMemory.number() == 2,
    )
}

#[test]
fn no_lane_of_a_server_without_lanes(rt: HostRuntime) -> Result<(), Fail> {
    let table = Table::new(rt.alloc());
    held(0, table.choose(ONE, Kind::Datagram, 0, 16).is_none())
}
