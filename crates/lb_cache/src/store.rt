//! Replies in slots, and what finds them.

ghost use Rattle.std.specs.Prelude.{◌≡◌, ◌≢◌, ◌+◌, ◌<◌, ◌≤◌, ◌^◌, ℕ, [], None, Some, IfNone, IfOk, IfSome, IsSome, OnErr, OnOk, cond, false, length, option_map, true};
ghost use Rattle.std.specs.FinMap.Entries.{find, put};
ghost use Rattle.lb_index_slots.specs.Slots.{Updates, get};
ghost use Rattle.lb_cache.specs.Ends.{has, is_end_mark, marks_in};
ghost use Rattle.lb_cache.specs.Keys.{is_within, slots_of, without_key};
ghost use Rattle.lb_cache.specs.Reply.{cmp_key, end_of, is_dead, lives};
ghost use Rattle.lb_cache.specs.Store.{AreApart, AreFiled, AreListed, AreMarked, in_slot, is_at, is_slot, others, seen, stays, within};
ghost use Rattle.lb_cache.specs.declared.reply.CachedReply.{CachedReply};

use crate::ends::Ends;
use crate::filing::Span;
use crate::keys::Keys;
use crate::listing::Listing;
use crate::packed::Packed;
use lb_index_ranks::Ranks;
use lb_index_slots::Slots;
use lb_wire::{Key, Kind};
use std::alloc::{AllocError, Global};
use std::marker::Model;

/// Up to so many replies are taken out one by one. Of more, the keys are cut out.
const FEW: usize = 256;

/// The greater of two numbers.
fn greater(a: u64, b: u64) -> u64
    ensures first { a ≤ result }
    ensures second { b ≤ result }
{
    if a < b { b } else { a }
}

/// Replies in slots, at most one for each key. A contract sees the keys with their slots, and the
/// slots.
#[derive(Debug, Drop)]
pub(crate) struct Store {
    cells: Slots<Packed>,
    keys: Keys,
    ends: Ends,
    /// No slot from here on was ever in use.
    top: u64,
    len: usize,
    /// The slots of replies whose keys were cut out. They are given back later, some at a time. No
    /// invariant speaks of this list.
    gone: Vec<Ranks>,
}

impl Model for Store {
    ghost use Rattle.lb_cache.specs.Store.{IsStore, Stored, seen, stored};

    ghost Value = { Stored };

    ghost view = { λ s. stored s.keys (seen s.keys s.cells) };

    ghost invariant = { λ s. IsStore s.keys s.cells s.ends s.top s.len };
}

/// Puts a reply in a slot that had none.
fn put_cell(cells: &mut Slots<Packed>, reply: Packed) -> Result<u64, AllocError>
    ensures free { IfOk result (λ slot. get cells.old slot ≡ None) }
    ensures bound { IfOk result (λ slot. slot + 2 < 2 ^ 64) }
    ensures put { IfOk result (λ slot. Updates cells.old cells.new slot (Some reply)) }
    ensures kept { OnErr result ((slot : ℕ) → get cells.new slot ≡ get cells.old slot) }
{
    match cells.put(reply) {
        Ok(slot) => Ok(slot as u64),
        Err((refused, _reply)) => Err(refused),
    }
}

/// Takes the reply out of a slot.
fn empty_cell(cells: &mut Slots<Packed>, slot: u64)
    ensures { Updates cells.old cells.new slot None }
{
    let _ = cells.take(slot as usize);
}

/// Files the key of the reply in a slot.
fn file_key(keys: &mut Keys, cells: &Slots<Packed>, slot: u64) -> Result<(), AllocError>
    requires new { (r : CachedReply) → get cells.now slot ≡ Some r → find cmp_key r.key keys.old ≡ None }
    ensures put { OnOk result ((r : CachedReply) → get cells.now slot ≡ Some r → keys.new ≡ put cmp_key r.key slot keys.old) }
    ensures kept { OnErr result (keys.new ≡ keys.old) }
{
    match cells.get(slot as usize) {
        Some(reply) => keys.put(reply.kind(), reply.key_octets(), slot),
        None => Ok(()),
    }
}

/// Takes out the key of a reply, which has this slot. It takes no memory.
fn unfile_key(keys: &mut Keys, reply: &Packed, slot: u64)
    requires { find cmp_key reply.now.key keys.old ≡ Some slot }
    ensures { keys.new ≡ without_key reply.now.key keys.old }
{
    keys.remove(reply.kind(), reply.key_octets(), slot);
}

/// When the reply in a slot is dead, in milliseconds.
fn end_in(cells: &Slots<Packed>, slot: u64) -> Option<u64>
    ensures { (r : CachedReply) → get cells.now slot ≡ Some r → result ≡ end_of r }
{
    match cells.get(slot as usize) {
        Some(reply) => reply.end(),
        None => None,
    }
}

/// Marks a slot by another moment in the place of the one that it is marked by.
fn move_end(
    ends: &mut Ends,
    old: Option<u64>,
    new: Option<u64>,
    slot: u64,
) -> Result<(), AllocError>
    requires there { (v : ℕ) → is_at v old ≡ true → has ends.old v slot ≡ true }
    ensures moved { OnOk result ((v s : ℕ) → has ends.new v s ≡ cond (is_end_mark new slot v s) true (cond (is_end_mark old slot v s) false (has ends.old v s))) }
    ensures kept { OnErr result ((v s : ℕ) → has ends.new v s ≡ has ends.old v s) }
{
    if new != old {
        ends.put(new, slot)?;
        ends.take(old, slot);
    }
    Ok(())
}

/// The reply in a slot, if its key leads back to it.
fn seen_in<'a>(keys: &Keys, cells: &'a Slots<Packed>, slot: u64) -> Option<&'a Packed>
    ensures { option_map (λ r. r.now) result ≡ get (seen keys.now cells.now) slot }
{
    let Some(reply) = cells.get(slot as usize) else {
        return None;
    };
    if leads(keys, reply, slot) {
        Some(reply)
    } else {
        None
    }
}

/// Whether the key of a reply leads to this slot.
fn leads(keys: &Keys, reply: &Packed, slot: u64) -> bool
    ensures { result ≡ is_slot slot (find cmp_key reply.now.key keys.now) }
{
    match keys.get(reply.kind(), reply.key_octets()) {
        Some(found) => found == slot,
        None => false,
    }
}

/// Empties a slot, unless the key of its reply leads to it. It takes no memory.
fn give_back(keys: &Keys, cells: &mut Slots<Packed>, ends: &mut Ends, slot: u64)
    requires marked { AreMarked ends.old cells.old }
    ensures marked { AreMarked ends.new cells.new }
    ensures kept { (s : ℕ) → get (seen keys.now cells.new) s ≡ get (seen keys.now cells.old) s }
    ensures below { (s : ℕ) → IsSome (get cells.new s) → IsSome (get cells.old s) }
    ensures less { (v : ℕ) → has ends.old v slot ≡ true → get (seen keys.now cells.old) slot ≡ None → marks_in ends.new < marks_in ends.old }
{
    let Some(reply) = cells.get(slot as usize) else {
        return;
    };
    if leads(keys, reply, slot) {
        return;
    }
    ends.take(reply.end(), slot);
    empty_cell(cells, slot);
}

/// The slot of a dead reply that is seen, in another slot than `but`. Slots of unseen replies that
/// come before it are emptied. It takes no memory.
fn first_seen(
    keys: &Keys,
    cells: &mut Slots<Packed>,
    ends: &mut Ends,
    now: u64,
    but: Option<u64>,
) -> Option<u64>
    requires marked { AreMarked ends.old cells.old }
    ensures marked { AreMarked ends.new cells.new }
    ensures kept { (s : ℕ) → get (seen keys.now cells.new) s ≡ get (seen keys.now cells.old) s }
    ensures below { (s : ℕ) → IsSome (get cells.new s) → IsSome (get cells.old s) }
    ensures dead { IfSome result (λ slot. (r : CachedReply) × (get (seen keys.now cells.new) slot ≡ Some r) × (is_dead now r ≡ true)) }
    ensures other { IfSome result (λ slot. but ≢ Some slot) }
    ensures none { IfNone result ((s : ℕ) (r : CachedReply) → get (seen keys.now cells.new) s ≡ Some r → but ≢ Some s → is_dead now r ≡ false) }
{
    'marks: while let Some((end, slot)) = ends.least_of(but) {
        if end > now {
            return None;
        }
        if seen_in(keys, cells, slot).is_some() {
            return Some(slot);
        }
        give_back(keys, cells, ends, slot);
    }
    None
}

/// Puts the key of the reply in a slot, if there is one, into the listing. The one error is lack of
/// memory.
fn list_key(
    listing: &mut Listing,
    keys: &Keys,
    cells: &Slots<Packed>,
    slot: u64,
) -> Result<(), AllocError>
    requires new { (r : CachedReply) → get (seen keys.now cells.now) slot ≡ Some r → find cmp_key r.key listing.old ≡ None }
    ensures put { OnOk result ((r : CachedReply) → get (seen keys.now cells.now) slot ≡ Some r → listing.new ≡ put cmp_key r.key slot listing.old) }
    ensures none { OnOk result (get (seen keys.now cells.now) slot ≡ None → listing.new ≡ listing.old) }
{
    match seen_in(keys, cells, slot) {
        Some(reply) => listing.put(reply.kind(), reply.key_octets(), slot),
        None => Ok(()),
    }
}

/// The keys of the replies in the slots before one. The one error is lack of memory.
fn listing_of(
    alloc: Global,
    keys: &Keys,
    cells: &Slots<Packed>,
    top: u64,
) -> Result<Listing, AllocError>
    requires { AreApart (seen keys.now cells.now) }
    ensures { IfOk result (λ listing. AreListed (seen keys.now cells.now) top listing) }
{
    let mut listing = Listing::new(alloc);
    for slot in 0..top {
        list_key(&mut listing, keys, cells, slot)?;
    }
    Ok(listing)
}

impl Store {
    /// No reply. It takes no memory.
    pub(crate) fn new(alloc: Global) -> Store
        ensures { result.keys ≡ [] }
    {
        Store {
            cells: Slots::new(alloc),
            keys: Keys::new(alloc),
            ends: Ends::new(alloc),
            top: 0,
            len: 0,
            gone: Vec::new(alloc),
        }
    }

    /// How many replies there are.
    pub(crate) fn len(&self) -> usize
        ensures { result ≡ length self.now.keys }
    {
        self.len
    }

    /// A law: each key's slot holds the reply with that key, and each reply's key is there with its
    /// slot. It does nothing.
    pub(crate) fn law_of_store(&self)
        ensures { AreFiled self.now }
    {
        // Read, so that what the store keeps true is at hand.
        let _ = &self.keys;
    }

    /// The slot of the reply with a key. It takes no memory.
    pub(crate) fn find(&self, key: &Key) -> Option<u64>
        ensures { result ≡ find cmp_key key.now self.now.keys }
    {
        self.keys.get(key.kind, key.octets.as_slice())
    }

    /// The reply that is seen in a slot.
    pub(crate) fn get_seen(&self, slot: u64) -> Option<&Packed>
        ensures { option_map (λ r. r.now) result ≡ in_slot self.now slot }
    {
        seen_in(&self.keys, &self.cells, slot)
    }

    /// The reply in a slot to which its key leads.
    pub(crate) fn get(&self, slot: u64) -> Option<&Packed>
        requires there { IsSome (in_slot self.now slot) }
        ensures { option_map (λ r. r.now) result ≡ in_slot self.now slot }
    {
        self.cells.get(slot as usize)
    }

    /// The slots in the order of the keys. The one error is lack of memory.
    pub(crate) fn slot_list(&self, alloc: Global) -> Result<Vec<u64>, AllocError>
        ensures { IfOk result (λ list. list.items ≡ slots_of self.now.keys) }
    {
        let listing = listing_of(alloc, &self.keys, &self.cells, self.top)?;
        listing.slot_list(alloc)
    }

    /// The slot of a reply whose key is within a span, if there is one. It takes no memory.
    pub(crate) fn first_within(&self, span: &Span) -> Option<u64>
        ensures some { IfSome result (λ slot. (r : CachedReply) × (in_slot self.now slot ≡ Some r) × (is_within span.now.low span.now.high r.key.octets ≡ true)) }
        ensures none { IfNone result ((s : ℕ) (r : CachedReply) → in_slot self.now s ≡ Some r → is_within span.now.low span.now.high r.key.octets ≡ false) }
    {
        self.keys.first_within(span)
    }

    /// Puts a reply, whose key no other has, in a slot of its own, and gives that. The one error is
    /// lack of memory.
    pub(crate) fn add(&mut self, reply: Packed) -> Result<u64, AllocError>
        requires new { find cmp_key reply.key self.old.keys ≡ None }
        requires few { length self.old.keys ≤ 1000000 }
        ensures free { IfOk result (λ slot. in_slot self.old slot ≡ None) }
        ensures put { IfOk result (λ slot. Updates self.old.cells self.new.cells slot (Some reply)) }
        ensures more { OnOk result (length self.new.keys ≡ length self.old.keys + 1) }
        ensures keys { OnErr result (self.new.keys ≡ self.old.keys) }
        ensures kept { OnErr result ((s : ℕ) → in_slot self.new s ≡ in_slot self.old s) }
    {
        let end = reply.end();
        let slot = put_cell(&mut self.cells, reply)?;
        if let Err(refused) = self.ends.put(end, slot) {
            empty_cell(&mut self.cells, slot);
            return Err(refused);
        }
        if let Err(refused) = file_key(&mut self.keys, &self.cells, slot) {
            self.ends.take(end, slot);
            empty_cell(&mut self.cells, slot);
            return Err(refused);
        }
        self.top = greater(self.top, slot + 1);
        self.len += 1;
        Ok(slot)
    }

    /// Puts a reply in the place of the one in a slot, which has its key. The one error is lack of
    /// memory.
    pub(crate) fn renew(&mut self, slot: u64, reply: Packed) -> Result<(), AllocError>
        requires there { find cmp_key reply.key self.old.keys ≡ Some slot }
        ensures keys { self.new.keys ≡ self.old.keys }
        ensures put { OnOk result (Updates self.old.cells self.new.cells slot (Some reply)) }
        ensures kept { OnErr result (self.new.cells ≡ self.old.cells) }
    {
        let old = end_in(&self.cells, slot);
        move_end(&mut self.ends, old, reply.end(), slot)?;
        self.cells.set(slot as usize, reply);
        Ok(())
    }

    /// Takes the reply out of a slot. It takes no memory.
    pub(crate) fn remove(&mut self, slot: u64)
        requires there { IsSome (in_slot self.old slot) }
        ensures cells { Updates self.old.cells self.new.cells slot None }
        ensures less { length self.new.keys + 1 ≡ length self.old.keys }
        ensures few { length self.new.keys ≤ length self.old.keys }
    {
        if let Some(reply) = self.cells.take(slot as usize) {
            unfile_key(&mut self.keys, &reply, slot);
            self.ends.take(reply.end(), slot);
            self.len -= 1;
        }
    }

    /// The next slot that is to be given back, if one is.
    fn next_gone(&mut self) -> Option<u64>
        ensures { self.new ≡ self.old }
    {
        let last = self.gone.last_mut()?;
        match last.take_last() {
            Some(slot) => Some(slot),
            None => {
                let _ = self.gone.pop();
                None
            }
        }
    }

    /// Empties up to so many slots whose replies were cut out. Whether some are left. It takes no
    /// memory.
    pub(crate) fn sweep(&mut self, most: usize) -> bool
        ensures keys { self.new.keys ≡ self.old.keys }
        ensures kept { (s : ℕ) → in_slot self.new s ≡ in_slot self.old s }
    {
        for _ in 0..most {
            if let Some(slot) = self.next_gone() {
                self.give_back(slot);
            }
        }
        !self.gone.is_empty()
    }

    /// Takes up to so many replies out of a store that is not seen any more, and empties up to as
    /// many slots of replies that were cut out before. Whether some are left.
    pub(crate) fn crumble(&mut self, most: usize) -> bool {
        if self.sweep(most) {
            return true;
        }
        for _ in 0..most {
            let Some(slot) = self.first_dead(u64::MAX) else {
                return false;
            };
            self.remove(slot);
        }
        true
    }

    /// Whether it never had more than `FEW` slots, so that it can go at once.
    pub(crate) fn is_small(&self) -> bool {
        self.gone.is_empty() && self.top <= FEW as u64
    }

    /// Whether nothing waits to be given back.
    pub(crate) fn is_swept(&self) -> bool {
        self.gone.is_empty()
    }

    /// Cuts the keys of a transport within a span out, so that their replies are no longer seen. If
    /// memory is lacking for that, nothing changes.
    fn cut(&mut self, kind: Kind, span: &Span)
        ensures left { (s : ℕ) → stays (others (within span.now.low span.now.high)) (in_slot self.new s) ≡ stays (others (within span.now.low span.now.high)) (in_slot self.old s) }
        ensures few { length self.new.keys ≤ length self.old.keys }
    {
        if let Err(_) = self.gone.reserve(1) {
            return;
        }
        let Some(cut) = self.keys.cut(kind, span) else {
            return;
        };
        let count = cut.len();
        self.len -= count;
        if count > 0 {
            self.gone.push_reserved(cut);
        }
    }

    /// Empties a slot, unless the key of its reply leads to it. It takes no memory.
    fn give_back(&mut self, slot: u64)
        ensures keys { self.new.keys ≡ self.old.keys }
        ensures kept { (s : ℕ) → in_slot self.new s ≡ in_slot self.old s }
    {
        give_back(&self.keys, &mut self.cells, &mut self.ends, slot);
    }

    /// The slot of a dead reply, if there is one. Slots of unseen replies that come before it are
    /// emptied. It takes no memory.
    pub(crate) fn first_dead(&mut self, now: u64) -> Option<u64>
        ensures keys { self.new.keys ≡ self.old.keys }
        ensures kept { (s : ℕ) → in_slot self.new s ≡ in_slot self.old s }
        ensures dead { IfSome result (λ slot. (r : CachedReply) × (in_slot self.new slot ≡ Some r) × (is_dead now r ≡ true)) }
        ensures none { IfNone result ((s : ℕ) (r : CachedReply) → in_slot self.new s ≡ Some r → is_dead now r ≡ false) }
    {
        first_seen(&self.keys, &mut self.cells, &mut self.ends, now, None)
    }

    /// The slot of a dead reply in another slot than this, if there is one. Slots of unseen replies
    /// that come before it are emptied. It takes no memory.
    pub(crate) fn first_dead_but(&mut self, now: u64, but: u64) -> Option<u64>
        ensures keys { self.new.keys ≡ self.old.keys }
        ensures kept { (s : ℕ) → in_slot self.new s ≡ in_slot self.old s }
        ensures dead { IfSome result (λ slot. (r : CachedReply) × (in_slot self.new slot ≡ Some r) × (is_dead now r ≡ true)) }
        ensures other { IfSome result (λ slot. slot ≢ but) }
        ensures none { IfNone result ((s : ℕ) (r : CachedReply) → in_slot self.new s ≡ Some r → s ≢ but → is_dead now r ≡ false) }
    {
        first_seen(&self.keys, &mut self.cells, &mut self.ends, now, Some(but))
    }
}

/// Takes up to `FEW` replies out whose keys are within a span.
fn take_few(store: &mut Store, span: &Span)
    ensures left { (s : ℕ) → stays (others (within span.now.low span.now.high)) (in_slot store.new s) ≡ stays (others (within span.now.low span.now.high)) (in_slot store.old s) }
    ensures few { length store.new.keys ≤ length store.old.keys }
{
    for _ in 0..FEW {
        let Some(slot) = store.first_within(span) else {
            return;
        };
        store.remove(slot);
    }
}

/// Cuts the keys within a span out, if there are any.
fn cut_within(store: &mut Store, span: &Span)
    ensures left { (s : ℕ) → stays (others (within span.now.low span.now.high)) (in_slot store.new s) ≡ stays (others (within span.now.low span.now.high)) (in_slot store.old s) }
    ensures few { length store.new.keys ≤ length store.old.keys }
{
    if store.first_within(span).is_some() {
        store.cut(Kind::Datagram, span);
        store.cut(Kind::Stream, span);
    }
}

/// Takes the replies out whose keys are within a span: a few one by one, more by a cut. It needs no
/// memory: without it they go one by one.
pub(crate) fn take_within(store: &mut Store, span: &Span)
    ensures left { (s : ℕ) → in_slot store.new s ≡ stays (others (within span.now.low span.now.high)) (in_slot store.old s) }
    ensures few { length store.new.keys ≤ length store.old.keys }
{
    take_few(store, span);
    cut_within(store, span);
    while let Some(slot) = store.first_within(span) {
        store.remove(slot);
    }
}

/// Takes the dead out. It takes no memory.
pub(crate) fn purge(store: &mut Store, now: u64)
    ensures left { (s : ℕ) → in_slot store.new s ≡ stays (lives now) (in_slot store.old s) }
    ensures few { length store.new.keys ≤ length store.old.keys }
{
    while let Some(slot) = store.first_dead(now) {
        store.remove(slot);
    }
}

/// Takes the dead out but for the reply in one slot. It takes no memory.
pub(crate) fn purge_but(store: &mut Store, now: u64, but: u64)
    ensures left { (s : ℕ) → s ≢ but → in_slot store.new s ≡ stays (lives now) (in_slot store.old s) }
    ensures own { in_slot store.new but ≡ in_slot store.old but }
{
    while let Some(slot) = store.first_dead_but(now, but) {
        store.remove(slot);
    }
}
