//! What finds the queries that wait by their places, and counts them.

ghost use Rattle.std.specs.Prelude.{◌≡◌, ◌+◌, ◌<◌, ◌^◌, ℕ, List, [], None, OnErr, OnOk, option_map};
ghost use Rattle.std.specs.List.{count_by, find};
ghost use Rattle.lb_table.specs.declared.entry.Waiting.{Waiting};
ghost use Rattle.lb_table.specs.Counts.{count_of};
ghost use Rattle.lb_table.specs.Held.{queries, slot_of, without_first};
ghost use Rattle.lb_table.specs.Index.{Apart, Tells, TellsOfOneMore, stands_at};
ghost use Rattle.lb_table.specs.Table.{FirstFree, FirstPlace, is_for, lane_after};

use crate::counts::Counts;
use crate::lanes::Lanes;
use crate::place::Place;
use lb_wire::{Kind, Lane, ServerId};
use std::alloc::{AllocError, Global};

/// The slots of queries by their places, and how many wait for each server. A contract says what it tells of a line that it is
/// the index of.
#[derive(Debug, Drop)]
pub(crate) struct Index {
    lanes: Lanes,
    counts: Counts,
}

/// Of so many lanes of a transport the one that comes m after the word's; after the last comes lane 0.
fn lane_after(kind: Kind, lanes: u8, word: u16, m: u8) -> Lane
    requires { 0 < lanes }
    ensures { result ≡ lane_after kind lanes word m }
{
    let number = (u32::from(word) + u32::from(m)) % u32::from(lanes);
    Lane {
        kind,
        number: number as u8,
    }
}

impl Index {
    /// The index of no query. It takes no memory.
    pub(crate) fn new(alloc: Global) -> Index
        ensures { Tells result [] }
    {
        Index {
            lanes: Lanes::new(alloc),
            counts: Counts::new(alloc),
        }
    }

    /// The first ID at or after the word, 65,535 being followed by 0, that is free on the server's lane.
    pub(crate) fn free(&self, server: ServerId, lane: Lane, word: u16) -> Option<u16>
        ensures { (line : List (ℕ × Waiting)) → Tells self.now line → FirstFree (queries line) server lane word result }
    {
        self.lanes.free(server, lane, word)
    }

    /// The first of so many lanes of this transport, from the word's on, on which an ID is free, and the first
    /// free ID there at or after the word; after the last lane comes lane 0.
    pub(crate) fn place(
        &self,
        server: ServerId,
        kind: Kind,
        lanes: u8,
        word: u16,
    ) -> Option<(Lane, u16)>
        ensures { (line : List (ℕ × Waiting)) → Tells self.now line → FirstPlace (queries line) server kind lanes word result }
    {
        for m in 0..lanes {
            let lane = lane_after(kind, lanes, word, m);
            if let Some(id) = self.free(server, lane, word) {
                return Some((lane, id));
            }
        }
        None
    }

    /// The slot of the query that waits at a place.
    pub(crate) fn slot(&self, place: &Place) -> Option<usize>
        ensures { (line : List (ℕ × Waiting)) → Tells self.now line → result ≡ option_map slot_of (find (stands_at place.now) line) }
    {
        self.lanes.get(place)
    }

    /// How many queries wait for a server.
    pub(crate) fn in_flight(&self, server: ServerId) -> usize
        ensures { (line : List (ℕ × Waiting)) → Tells self.now line → result ≡ count_by (is_for server) (queries line) }
    {
        self.counts.get(server)
    }

    /// A query comes to a place at which none waits. The one error is lack of memory.
    pub(crate) fn add(&mut self, place: &Place, slot: usize) -> Result<(), AllocError>
        requires few { count_of self.old.counts place.now.server.0 + 1 < 2 ^ 64 }
        ensures added { OnOk result (TellsOfOneMore self.old place.now slot self.new) }
        ensures kept { OnErr result ((line : List (ℕ × Waiting)) → Tells self.old line → Tells self.new line) }
    {
        self.counts.raise(place.server)?;
        match self.lanes.put(place, slot) {
            Ok(()) => Ok(()),
            Err(refused) => {
                self.counts.lower(place.server);
                Err(refused)
            }
        }
    }

    /// Gives back the room of a server's lanes that have no query: so many of each transport. It takes no
    /// memory.
    pub(crate) fn let_go(&mut self, server: ServerId, lanes: u8)
        ensures { (line : List (ℕ × Waiting)) → Tells self.old line → Tells self.new line }
    {
        self.lanes.let_go(server, lanes);
    }

    /// The query of a place goes, if one waits there: its slot. It takes no memory.
    pub(crate) fn take(&mut self, place: &Place) -> Option<usize>
        ensures slot { (line : List (ℕ × Waiting)) → Tells self.old line → result ≡ option_map slot_of (find (stands_at place.now) line) }
        ensures taken { (line : List (ℕ × Waiting)) → Tells self.old line → Apart line → Tells self.new (without_first (stands_at place.now) line) }
    {
        let slot = self.lanes.take(place)?;
        self.counts.lower(place.server);
        Some(slot)
    }
}
