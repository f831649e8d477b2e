//! The queries of all lanes, by their places.

ghost use Rattle.std.specs.Prelude.{◌≡◌, ℕ, None, Some, IsSome, IfOk, IfSome, OnErr, OnOk, cond};
ghost use Rattle.std.specs.Bool.{OnTrue};
ghost use Rattle.std.specs.Option.{is_some};
ghost use Rattle.lb_table.specs.declared.place.Place.{Place};
ghost use Rattle.lb_table.specs.Ids.{FirstOf};
ghost use Rattle.lb_table.specs.Lanes.{lane_at, lane_key, slot_at, slot_in, slot_of_lane};
ghost use Rattle.lb_table.specs.Place.{at_place, same_place};

use crate::lane::LaneIds;
use crate::place::Place;
use lb_wire::{Kind, Lane, ServerId};
use std::alloc::{AllocError, Global};
use std::collections::BTreeMap;
use std::marker::Model;

/// A lane of a server, as the index has it: the server, and twice the lane's number, with one more for
/// streams.
type LaneKey = (u64, u16);

/// How many lanes may stand before a new one takes the room of one that has no query: 256 servers with 8
/// lanes of each transport.
const LANES: usize = 4_096;

/// The lanes that have, or had, a query. A contract sees each with its IDs and their slots, and speaks of them by `slot_at`.
#[derive(Debug, Drop)]
pub(crate) struct Lanes {
    lanes: BTreeMap<LaneKey, LaneIds>,
    alloc: Global,
}

impl Model for Lanes {
    ghost use Rattle.std.specs.Prelude.{ℕ, List};

    ghost Value = { List ((ℕ × ℕ) × List (ℕ × ℕ)) };

    ghost view = { λ l. l.lanes.entries };
}

/// A lane of a server, as the index has it.
fn key_of(server: ServerId, lane: Lane) -> LaneKey
    ensures { result ≡ lane_key server lane }
{
    let kind = match lane.kind {
        Kind::Datagram => 0,
        Kind::Stream => 1,
    };
    (server.0, 2 * u16::from(lane.number) + kind)
}

/// Whether a lane is there and has no query.
fn is_empty(lanes: &BTreeMap<LaneKey, LaneIds>, key: &LaneKey) -> bool
    ensures { OnTrue result ((id : ℕ) → slot_of_lane (lane_at lanes.now.entries key.now) id ≡ None) }
{
    match lanes.get(key) {
        Some(lane) => lane.is_empty(),
        None => false,
    }
}

/// A lane that is there and has no query.
fn empty_lane(lanes: &BTreeMap<LaneKey, LaneIds>) -> Option<LaneKey>
    ensures { IfSome result (λ key. (id : ℕ) → slot_of_lane (lane_at lanes.now.entries key) id ≡ None) }
{
    for key in lanes.keys() {
        if is_empty(lanes, key) {
            return Some(*key);
        }
    }
    None
}

/// The room of a lane that has no query, where enough stand; else new room.
fn room(lanes: &mut BTreeMap<LaneKey, LaneIds>, alloc: Global) -> Result<LaneIds, AllocError>
    ensures empty { IfOk result (λ lane. (id : ℕ) → slot_in lane id ≡ None) }
    ensures kept { (place : Place) → slot_at lanes.new.entries place ≡ slot_at lanes.old.entries place }
    ensures absent { (key : ℕ × ℕ) → lane_at lanes.old.entries key ≡ None → lane_at lanes.new.entries key ≡ None }
{
    if LANES <= lanes.len()
        && let Some(key) = empty_lane(lanes)
        && let Some(lane) = lanes.remove(&key)
    {
        return Ok(lane);
    }
    LaneIds::new(alloc)
}

/// Gives back the room of a lane if it has no query.
fn let_go(lanes: &mut BTreeMap<LaneKey, LaneIds>, key: LaneKey)
    ensures { (place : Place) → slot_at lanes.new.entries place ≡ slot_at lanes.old.entries place }
{
    if is_empty(lanes, &key) {
        let _ = lanes.remove(&key);
    }
}

/// Makes a lane that is not there.
fn make(
    lanes: &mut BTreeMap<LaneKey, LaneIds>,
    alloc: Global,
    key: LaneKey,
) -> Result<(), AllocError>
    ensures there { OnOk result (IsSome (lane_at lanes.new.entries key)) }
    ensures kept { (place : Place) → slot_at lanes.new.entries place ≡ slot_at lanes.old.entries place }
{
    if lanes.contains_key(&key) {
        return Ok(());
    }
    let lane = room(lanes, alloc)?;
    lanes.insert(key, lane)?;
    Ok(())
}

impl Lanes {
    /// No lane. It takes no memory.
    pub(crate) fn new(alloc: Global) -> Lanes
        ensures { (place : Place) → slot_at result place ≡ None }
    {
        Lanes {
            lanes: BTreeMap::new(alloc),
            alloc,
        }
    }

    /// The first ID at or after the word, 65,535 being followed by 0, at which nothing stands.
    pub(crate) fn free(&self, server: ServerId, lane: Lane, word: u16) -> Option<u16>
        ensures { FirstOf (λ id. is_some (slot_at self.now (at_place server lane id))) word result }
    {
        match self.lanes.get(&key_of(server, lane)) {
            Some(ids) => ids.free(word),
            None => Some(word),
        }
    }

    /// The slot of a place.
    pub(crate) fn get(&self, place: &Place) -> Option<usize>
        ensures { result ≡ slot_at self.now place.now }
    {
        self.lanes
            .get(&key_of(place.server, place.lane))?
            .get(place.id)
    }

    /// Gives a place a slot. The one error is lack of memory.
    pub(crate) fn put(&mut self, place: &Place, slot: usize) -> Result<(), AllocError>
        ensures put { OnOk result ((p : Place) → slot_at self.new p ≡ cond (same_place place.now p) (Some slot) (slot_at self.old p)) }
        ensures kept { OnErr result ((p : Place) → slot_at self.new p ≡ slot_at self.old p) }
    {
        let key = key_of(place.server, place.lane);
        if let Some(ids) = self.lanes.get_mut(&key) {
            return ids.put(place.id, slot);
        }
        make(&mut self.lanes, self.alloc, key)?;
        let ids = self.lanes.get_mut(&key).unwrap();
        ids.put(place.id, slot)
    }

    /// Gives back the room of a server's lanes that have no query: so many of each transport. It takes no
    /// memory.
    pub(crate) fn let_go(&mut self, server: ServerId, lanes: u8)
        ensures { (p : Place) → slot_at self.new p ≡ slot_at self.old p }
    {
        for number in 0..lanes {
            let kind = Kind::Datagram;
            let_go(&mut self.lanes, key_of(server, Lane { kind, number }));
            let kind = Kind::Stream;
            let_go(&mut self.lanes, key_of(server, Lane { kind, number }));
        }
    }

    /// Takes a place's slot away. It takes no memory.
    pub(crate) fn take(&mut self, place: &Place) -> Option<usize>
        ensures slot { result ≡ slot_at self.old place.now }
        ensures taken { (p : Place) → slot_at self.new p ≡ cond (same_place place.now p) None (slot_at self.old p) }
    {
        let ids = self.lanes.get_mut(&key_of(place.server, place.lane))?;
        ids.take(place.id)
    }
}
