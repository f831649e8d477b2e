//! The table of outstanding queries.

ghost use Rattle.std.specs.Prelude.{is_some, ◌≡◌, ◌+◌, ◌^◌, ◌<◌, ◌≤◌, IfErr, IfOk, IfSome, OnOk, [], false, length, option_map};
ghost use Rattle.std.specs.List.{AllByRecursion, count_by};
ghost use Rattle.lb_table.specs.Entry.{deadline_of};
ghost use Rattle.lb_table.specs.Place.{at_place};
ghost use Rattle.lb_table.specs.Table.{AreWaiting, Enters, EntersBy, FirstLane, due, entered, entry_at, is_for, is_used, taken_at, waits_at, without_due};

use crate::entry::{Entry, Waiting};
use crate::fault::EnterFault;
use crate::index::Index;
use crate::line::Line;
use crate::place::Place;
use lb_wire::{Kind, Lane, ServerId};
use std::alloc::{AllocError, Global};
use std::marker::Model;

/// The outstanding queries. A contract sees them as a list by deadline, those of one deadline in the order in which they
/// were entered.
#[derive(Debug, Drop)]
pub struct Table {
    line: Line,
    index: Index,
}

impl Model for Table {
    ghost use Rattle.std.specs.Prelude.{List};
    ghost use Rattle.lb_table.specs.Held.{queries};
    ghost use Rattle.lb_table.specs.Index.{IsTable};
    ghost use Rattle.lb_table.specs.declared.entry.Waiting.{Waiting};

    ghost Value = { List Waiting };

    ghost view = { λ t. queries t.line };

    ghost invariant = { λ t. IsTable t.line t.index };
}

impl Table {
    /// A table without queries. It takes no memory.
    pub fn new(alloc: Global) -> Table
        ensures { result ≡ [] }
    {
        Table {
            line: Line::new(alloc),
            index: Index::new(alloc),
        }
    }

    /// How many queries wait.
    pub fn len(&self) -> usize
        ensures { result ≡ length self.now }
    {
        self.line.len()
    }

    /// A law: the queries that wait are by deadline, those of one deadline in the order in which they were entered, and no two
    /// wait at one server, lane and ID. It does nothing.
    pub fn law_of_list(&self)
        ensures { AreWaiting self.now }
    {
        // Read, so that what the table keeps true is at hand.
        let _ = self.line.len();
    }

    /// The queries that wait, in the order of `law_of_list`. The one error is lack of memory.
    pub fn list(&self, alloc: Global) -> Result<Vec<Waiting>, AllocError>
        ensures { IfOk result (λ list. list.items ≡ self.now) }
    {
        self.line.list(alloc)
    }

    /// The lane by which a query is sent to a server that has so many lanes of this transport, numbered from
    /// 0: the first from the word's on that has a free ID; after the last comes lane 0. None if each is
    /// full, or if there is none. It takes no memory.
    pub fn choose(&self, server: ServerId, kind: Kind, lanes: u8, word: u16) -> Option<Lane>
        ensures { FirstLane self.now server kind lanes word result }
    {
        let (lane, _) = self.index.place(server, kind, lanes, word)?;
        Some(lane)
    }

    /// Enters a query that is sent to a server by this lane, and gives the ID that it is sent with: the first that is free
    /// there at or after the word, 65,535 being followed by 0. `LaneFull` comes where none is free, and then `NoMemory`; the
    /// query comes back with it, and nothing changes.
    pub fn enter(
        &mut self,
        server: ServerId,
        lane: Lane,
        word: u16,
        entry: Entry,
    ) -> Result<u16, (EnterFault, Entry)>
        ensures enters { Enters self.old server lane word entry result self.new }
        // the list fits the machine: whoever counts its entries in a `u64` never goes past it
        ensures room { length self.new + 1 < 2 ^ 64 }
    {
        self.line.law_of_line();
        let Some(id) = self.index.free(server, lane, word) else {
            return Err((EnterFault::LaneFull, entry));
        };
        let place = Place { server, lane, id };
        match self.enter_at(Waiting { place, entry }) {
            Ok(()) => Ok(id),
            Err((refused, Waiting { place: _, entry })) => {
                Err((EnterFault::from(refused), entry))
            }
        }
    }

    /// Enters a query that is sent to the server of its place, which has so many lanes of this
    /// transport: on the lane that `choose` gives, under the ID that `enter` gives there. Its place
    /// has both then. `LaneFull` comes if each lane is full or there is none, and then `NoMemory`;
    /// the query is dropped with it, and nothing changes.
    pub fn enter_by(
        &mut self,
        kind: Kind,
        lanes: u8,
        word: u16,
        mut waiting: Waiting,
    ) -> Result<(Lane, u16), EnterFault>
        ensures enters { EntersBy self.old waiting.place.server kind lanes word waiting.entry result self.new }
        // the list fits the machine, as after `enter`
        ensures room { IfOk result (λ _. length self.new + 1 < 2 ^ 64) }
    {
        let server = waiting.place.server;
        let Some((lane, id)) = self.index.place(server, kind, lanes, word) else {
            return Err(EnterFault::LaneFull);
        };
        waiting.place = Place { server, lane, id };
        match self.enter_at(waiting) {
            Ok(()) => Ok((lane, id)),
            Err((refused, _)) => Err(EnterFault::from(refused)),
        }
    }

    /// Enters a query at a place at which none waits. If memory is refused, the query comes back, and
    /// nothing changes.
    fn enter_at(&mut self, waiting: Waiting) -> Result<(), (AllocError, Waiting)>
        requires { is_used self.old waiting.place ≡ false }
        ensures entered { OnOk result (self.new ≡ entered self.old waiting.place waiting.entry) }
        ensures back { IfErr result (λ back. (back.1 ≡ waiting) × (self.new ≡ self.old)) }
        ensures room { length self.new + 1 < 2 ^ 64 }
    {
        self.line.law_of_line();
        let place = waiting.place;
        let slot = match self.line.enter(waiting) {
            Ok(slot) => slot,
            Err(back) => return Err(back),
        };
        match self.index.add(&place, slot) {
            Ok(()) => {
                self.line.law_of_line();
                Ok(())
            }
            Err(refused) => Err((refused, self.line.remove(slot).unwrap())),
        }
    }

    /// The query that waits for a reply of this server, by this lane, with this ID. It takes no memory.
    pub fn find(&self, server: ServerId, lane: Lane, id: u16) -> Option<&Entry>
        ensures { option_map (λ entry. entry.now) result ≡ entry_at self.now (at_place server lane id) }
    {
        let slot = self.index.slot(&Place { server, lane, id })?;
        let waiting = self.line.get(slot)?;
        Some(&waiting.entry)
    }

    /// Takes the query out that waits for a reply of this server, by this lane, with this ID. It takes no memory.
    pub fn take(&mut self, server: ServerId, lane: Lane, id: u16) -> Option<Entry>
        ensures entry { result ≡ entry_at self.old (at_place server lane id) }
        ensures table { self.new ≡ taken_at self.old (waits_at (at_place server lane id) self.old) }
    {
        let slot = self.index.take(&Place { server, lane, id })?;
        let Waiting { place: _, entry } = self.line.remove(slot)?;
        Some(entry)
    }

    /// Drops the query that waits for a reply of this server, by this lane, with this ID, where it
    /// is: `take` without a copy of it. Whether one waited. It takes no memory.
    pub fn discard(&mut self, server: ServerId, lane: Lane, id: u16) -> bool
        ensures was { result ≡ is_some (entry_at self.old (at_place server lane id)) }
        ensures table { self.new ≡ taken_at self.old (waits_at (at_place server lane id) self.old) }
    {
        let Some(slot) = self.index.take(&Place { server, lane, id }) else {
            return false;
        };
        self.line.discard(slot);
        true
    }

    /// Takes the query of least deadline out that is given up by now, of equal ones the one that was entered first, and tells
    /// where it waited. It takes no memory.
    pub fn take_due(&mut self, now: u64) -> Option<Waiting>
        ensures due { result ≡ due now self.old }
        ensures table { self.new ≡ without_due now self.old }
        // none is given up before it
        ensures least { IfSome result (λ w. AllByRecursion (λ o. deadline_of w.entry ≤ deadline_of o.entry) self.old) }
    {
        let slot = self.line.first();
        if u128::from(now) < self.line.get(slot)?.entry.deadline() {
            return None;
        }
        let waiting = self.line.remove(slot)?;
        let _ = self.index.take(&waiting.place);
        Some(waiting)
    }

    /// Gives back the room that is kept for the lanes of a server that was removed, so many of each
    /// transport, if no query waits on them. It takes no memory.
    pub fn let_go(&mut self, server: ServerId, lanes: u8)
        ensures { self.new ≡ self.old }
    {
        self.index.let_go(server, lanes);
    }

    /// How many queries wait for a server, by all its lanes.
    pub fn in_flight(&self, server: ServerId) -> usize
        ensures { result ≡ count_by (is_for server) self.now }
    {
        self.index.in_flight(server)
    }
}
