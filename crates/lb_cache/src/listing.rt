//! Slots in the order of the keys of the replies in them.

ghost use Rattle.std.specs.Prelude.{◌≡◌, [], ◌++◌, None, IfOk, OnErr, OnOk, map};
ghost use Rattle.std.specs.FinMap.Entries.{find, put};
ghost use Rattle.lb_cache.specs.Keys.{key_with, slots_of};
ghost use Rattle.lb_cache.specs.Reply.{cmp_key};
ghost use Rattle.lb_index_ranks.specs.Filed.{filed_at, AreInOrder, HasBesides};

use lb_index_ranks::Ranks;
use lb_wire::Kind;
use std::alloc::{AllocError, Global};
use std::marker::Model;

/// Slots that are put in the order of keys. A contract sees them as a list of keys, each with its slot, in the order of the keys, no
/// key twice.
#[derive(Debug, Drop)]
pub(crate) struct Listing {
    datagrams: Ranks,
    streams: Ranks,
}

impl Model for Listing {
    ghost use Rattle.std.specs.Prelude.{ℕ, List, T};
    ghost use Rattle.std.specs.FinMap.Entries.{is_sorted};
    ghost use Rattle.lb_wire.specs.declared.key.Key.{Key};
    ghost use Rattle.lb_cache.specs.Listing.{listed_in};
    ghost use Rattle.lb_cache.specs.Reply.{cmp_key};

    ghost Value = { List (Key × ℕ) };

    ghost view = { λ l. listed_in l.datagrams l.streams };

    ghost invariant = { λ l. T (is_sorted cmp_key (listed_in l.datagrams l.streams)) };
}

/// Files a slot under octets. The one error is lack of memory, and leaves all as it was.
fn file(slots: &mut Ranks, octets: &[u8], slot: u64) -> Result<(), AllocError>
    ensures filed { OnOk result (HasBesides slots.old (filed_at octets.now slot) slots.new) }
    ensures kept { OnErr result (slots.new ≡ slots.old) }
    ensures order { AreInOrder slots.new }
{
    let filed = slots.file(octets, slot);
    // a law: it does nothing
    slots.stand_in_order();
    filed
}

/// Puts all slots after a list, in the order of their keys. The one error is lack of memory.
fn list_slots(slots: &Ranks, list: &mut Vec<u64>) -> Result<(), AllocError>
    ensures { OnOk result (list.new.items ≡ list.old.items ++ map (λ f. f.rank) slots.now) }
{
    list.reserve(slots.len())?;
    let mut walk = slots.walk_from(&[]);
    'slots: while let Some(slot) = walk.next() {
        list.push(slot)?;
    }
    Ok(())
}

impl Listing {
    /// No key. It takes no memory.
    pub(crate) fn new(alloc: Global) -> Listing
        ensures { result ≡ [] }
    {
        Listing {
            datagrams: Ranks::new(alloc),
            streams: Ranks::new(alloc),
        }
    }

    /// Gives a key its slot. The one error is lack of memory, and leaves all as it was.
    pub(crate) fn put(&mut self, kind: Kind, octets: &[u8], slot: u64) -> Result<(), AllocError>
        requires { find cmp_key (key_with kind octets.now) self.old ≡ None }
        ensures put { OnOk result (self.new ≡ put cmp_key (key_with kind octets.now) slot self.old) }
        ensures kept { OnErr result (self.new ≡ self.old) }
    {
        match kind {
            Kind::Datagram => file(&mut self.datagrams, octets, slot),
            Kind::Stream => file(&mut self.streams, octets, slot),
        }
    }

    /// The slots in the order of their keys. The one error is lack of memory.
    pub(crate) fn slot_list(&self, alloc: Global) -> Result<Vec<u64>, AllocError>
        ensures { IfOk result (λ list. list.items ≡ slots_of self.now) }
    {
        let mut list = Vec::new(alloc);
        list_slots(&self.datagrams, &mut list)?;
        list_slots(&self.streams, &mut list)?;
        Ok(list)
    }
}
