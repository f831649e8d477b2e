//! Slots by the keys of the replies in them.

ghost use Rattle.std.specs.Prelude.{◌≡◌, ℕ, T, ◌+◌, true, false, [], ◌++◌, length, None, Some, IfNone, IfSome, OnErr, OnOk};
ghost use Rattle.std.specs.FinMap.Entries.{find, is_sorted, put};
ghost use Rattle.std.specs.List.{Contains};
ghost use Rattle.lb_wire.specs.declared.key.Key.{Key};
ghost use Rattle.lb_index_ranks.specs.declared.filed.Filed.{Filed};
ghost use Rattle.lb_cache.specs.Keys.{is_filed_within, is_within, key_with, without_key};
ghost use Rattle.lb_cache.specs.Reply.{cmp_key};

use crate::filing::{Head, Span};
use lb_index_ranks::Ranks;
use lb_wire::Kind;
use std::alloc::{AllocError, Global};
use std::marker::Model;

/// Slots by keys. A contract sees them as a list of keys, each with its slot, in the order of the
/// keys, no key twice.
#[derive(Debug, Drop)]
pub(crate) struct Keys {
    datagrams: Ranks,
    streams: Ranks,
}

impl Model for Keys {
    ghost use Rattle.std.specs.Prelude.{ℕ, List};
    ghost use Rattle.lb_wire.specs.declared.key.Key.{Key};
    ghost use Rattle.lb_cache.specs.Keys.{entries_of, AreKeys};

    ghost Value = { List (Key × ℕ) };

    ghost view = { λ k. entries_of k.datagrams k.streams };

    ghost invariant = { λ k. AreKeys k.datagrams × AreKeys k.streams };
}

/// A slot whose key is filed at or after the one and before the other.
fn first_in(slots: &Ranks, span: &Span) -> Option<u64>
    ensures some { IfSome result (λ slot. (f : Filed) × Contains slots.now f × (f.rank ≡ slot) × (is_filed_within span.now.low span.now.high f ≡ true)) }
    ensures none { IfNone result ((f : Filed) → Contains slots.now f → is_filed_within span.now.low span.now.high f ≡ false) }
{
    // a law: it does nothing
    slots.stand_in_order();
    let mut walk = slots.walk_from(span.low.as_slice());
    walk.next_below(span.high.as_slice())
}

impl Keys {
    /// No key. It takes no memory.
    pub(crate) fn new(alloc: Global) -> Keys
        ensures { result ≡ [] }
    {
        Keys {
            datagrams: Ranks::new(alloc),
            streams: Ranks::new(alloc),
        }
    }

    /// The slot of a key. It takes no memory.
    #[inline(always)]
    pub(crate) fn get(&self, kind: Kind, octets: &[u8]) -> Option<u64>
        ensures { result ≡ find cmp_key (key_with kind octets.now) self.now }
    {
        let mut head = Head::empty();
        head.lay_before(octets);
        match kind {
            Kind::Datagram => self.datagrams.next_joined(head.as_slice(), octets, 0),
            Kind::Stream => self.streams.next_joined(head.as_slice(), octets, 0),
        }
    }

    /// Gives a key its slot. The one error is lack of memory, and leaves all as it was.
    pub(crate) fn put(&mut self, kind: Kind, octets: &[u8], slot: u64) -> Result<(), AllocError>
        requires { find cmp_key (key_with kind octets.now) self.old ≡ None }
        ensures put { OnOk result (self.new ≡ put cmp_key (key_with kind octets.now) slot self.old) }
        ensures kept { OnErr result (self.new ≡ self.old) }
    {
        let mut head = Head::empty();
        head.lay_before(octets);
        match kind {
            Kind::Datagram => self.datagrams.file_joined(head.as_slice(), octets, slot),
            Kind::Stream => self.streams.file_joined(head.as_slice(), octets, slot),
        }
    }

    /// Takes a key out, which has this slot. It takes no memory.
    pub(crate) fn remove(&mut self, kind: Kind, octets: &[u8], slot: u64)
        requires { find cmp_key (key_with kind octets.now) self.old ≡ Some slot }
        ensures { self.new ≡ without_key (key_with kind octets.now) self.old }
    {
        let mut head = Head::empty();
        head.lay_before(octets);
        match kind {
            Kind::Datagram => self.datagrams.unfile_joined(head.as_slice(), octets, slot),
            Kind::Stream => self.streams.unfile_joined(head.as_slice(), octets, slot),
        }
    }

    /// The slot of a key within a span, if there is one. It takes no memory.
    pub(crate) fn first_within(&self, span: &Span) -> Option<u64>
        ensures some { IfSome result (λ slot. (key : Key) × (find cmp_key key self.now ≡ Some slot) × (is_within span.now.low span.now.high key.octets ≡ true)) }
        ensures none { IfNone result ((key : Key) (slot : ℕ) → find cmp_key key self.now ≡ Some slot → is_within span.now.low span.now.high key.octets ≡ false) }
    {
        match first_in(&self.datagrams, span) {
            Some(slot) => Some(slot),
            None => first_in(&self.streams, span),
        }
    }

    /// Cuts the keys of a transport within a span out, and gives what was filed. None if memory is
    /// lacking, and then nothing has changed.
    pub(crate) fn cut(&mut self, kind: Kind, span: &Span) -> Option<Ranks>
        ensures order { T (is_sorted cmp_key self.new) }
        ensures kept { (key : Key) → is_within span.now.low span.now.high key.octets ≡ false → find cmp_key key self.new ≡ find cmp_key key self.old }
        ensures less { (key : Key) (slot : ℕ) → find cmp_key key self.new ≡ Some slot → find cmp_key key self.old ≡ Some slot }
        ensures count { IfSome result (λ cut. length self.new + length cut ≡ length self.old) }
        ensures none { IfNone result (self.new ≡ self.old) }
    {
        // laws: they do nothing
        self.datagrams.stand_in_order();
        self.streams.stand_in_order();
        match kind {
            Kind::Datagram => self
                .datagrams
                .cut(span.low.as_slice(), span.high.as_slice()),
            Kind::Stream => self.streams.cut(span.low.as_slice(), span.high.as_slice()),
        }
    }
}
