//! Which rules may hold of a query, by what they ask first.

ghost use Rattle.std.specs.Prelude.{◌≡◌, ◌≤◌, ◌<◌, ◌^◌, ◌-◌, ◌+◌, ◌&&◌, not, ℕ, [], List, IfNone, IfOk, IfSome, Some, OnErr, OnOk, length, slice_get, slice_index, vec_len};
ghost use Rattle.std.specs.List.{insert, remove};
ghost use Rattle.lb_index_ranks.specs.Least.{IsLeastFrom};
ghost use Rattle.lb_terms.specs.Selector.{Selector};
ghost use Rattle.lb_chain.specs.FirstAsked.{AreRising};
ghost use Rattle.lb_chain.specs.Offers.{AreOffers, IsNextOffered, terms_of};
ghost use Rattle.lb_chain.specs.Filing.{AreEven, IsFree, IsFiledFor};
ghost use Rattle.lb_chain.specs.Ahead.{IsAhead, IsNextIndexed, IsNextRank, is_rank, without_first};
ghost use Rattle.lb_wire.specs.declared.addr.Addr.{Addr as AddrValue};
ghost use Rattle.lb_wire.specs.declared.query.QueryView.{QueryView as ViewValue};

use crate::filing::{file, unfile};
use crate::loose::Loose;
use crate::numbered::Numbered;
use lb_index_ranks::lesser;
use lb_masks::MaskIndex;
use lb_suffix::SuffixIndex;
use lb_terms::{CheckedTerm, mask_test_decides, suffix_test_decides};
use lb_wire::{Addr, QueryView};
use std::alloc::{AllocError, Global};

/// How far a rank is from the last one, or from the first one where it stands before it.
const STEP: u64 = 1 << 32;

/// How far ranks lie from each other where all are given anew.
const GAP: u64 = 1 << 50;

/// The selectors of the rules of a chain, found by what each asks first.
#[derive(Debug, Drop)]
pub(crate) struct Offers {
    /// The rank of each rule, rising; what finds rules finds ranks.
    ranks: Vec<u64>,
    /// The ranks of rules that ask for a set of names first, under each of these.
    names: SuffixIndex,
    /// The ranks of rules that ask for a group of masks first, under each of these.
    masks: MaskIndex,
    /// The ranks of rules that ask for no set first.
    loose: Loose,
}

/// How far a walk has come over the rules, and what is next to it.
#[derive(Debug, Drop)]
pub(crate) struct Ahead<'a> {
    /// No place before this one is to come.
    at: usize,
    /// The loose ranks that are to come.
    loose: &'a [u64],
    /// Whether the indexes were asked which rank comes next.
    looked: bool,
    /// The next rank that they find, where they were.
    indexed: Option<u64>,
}

/// The place of a rank.
fn place_of_rank(ranks: &[u64], rank: u64) -> usize
    ensures within { result ≤ length ranks.now }
    ensures place { AreRising ranks.now → (k : ℕ) → k < length ranks.now → slice_index ranks.now k ≡ rank → result ≡ k }
{
    ranks.partition_point(|r| *r < rank)
}

/// The place of a rank, which most often is this one.
fn place_from(ranks: &[u64], at: usize, rank: u64) -> usize
    ensures within { result ≤ length ranks.now }
    ensures place { AreRising ranks.now → (k : ℕ) → k < length ranks.now → slice_index ranks.now k ≡ rank → result ≡ k }
{
    match ranks.get(at) {
        Some(here) if *here == rank => at,
        _ => place_of_rank(ranks, rank),
    }
}

/// A rank between those before a place and those from it on, where there is one: the middle, but after the last and
/// before the first no further than a step away.
fn free_rank(ranks: &[u64], place: usize) -> Option<u64>
    requires { place ≤ length ranks.now }
    ensures free { AreRising ranks.now → IfSome result (λ rank. IsFree ranks.now place rank) }
    // new ranks are given only where there is no room
    ensures none { IfNone result ((rank : ℕ) → 0 < rank → rank < 2 ^ 64 - 1 → IsFree ranks.now place rank → ⊥) }
{
    let is_first = place == 0;
    let is_last = place == ranks.len();
    let low = if is_first { 0 } else { ranks[place - 1] };
    let high = if is_last { u64::MAX } else { ranks[place] };
    let half = high.saturating_sub(low) / 2;
    if half == 0 {
        return None;
    }
    let far = if is_first == is_last {
        half
    } else {
        half.min(STEP)
    };
    Some(if is_last { low + far } else { high - far })
}

/// The least rank at or after a rank that is filed over the name or under a mask that covers the address.
fn find_rank(
    names: &SuffixIndex,
    masks: &MaskIndex,
    view: &QueryView,
    addr: &Addr,
    from: u64,
) -> Option<u64>
    ensures { IsLeastFrom (IsFiledFor names.now masks.now view.now addr.now) from result }
{
    lesser(names.next(&view.name, from), masks.next(addr, from))
}

impl Offers {
    /// No rule. It takes no memory.
    pub(crate) fn new(alloc: Global) -> Offers
        ensures { AreOffers result [] }
    {
        Offers {
            ranks: Vec::new(alloc),
            names: SuffixIndex::new(alloc),
            masks: MaskIndex::new(alloc),
            loose: Loose::new(alloc),
        }
    }

    /// Puts a selector at a place, under a rank that is free there. The one error is lack of memory.
    fn put(&mut self, place: usize, rank: u64, term: &CheckedTerm) -> Result<(), AllocError>
        requires place { place ≤ vec_len self.old.ranks }
        requires free { IsFree self.old.ranks.items place rank }
        ensures ok { OnOk result ((terms : List Selector) → AreOffers self.old terms → AreOffers self.new (insert terms place term.now)) }
        ensures ranks { OnOk result (self.new.ranks.items ≡ insert self.old.ranks.items place rank) }
        ensures err { OnErr result ((terms : List Selector) → AreOffers self.old terms → AreOffers self.new terms) }
    {
        self.ranks.reserve(1)?;
        file(
            &mut self.names,
            &mut self.masks,
            &mut self.loose,
            term,
            rank,
        )?;
        self.ranks.insert(place, rank).unwrap();
        Ok(())
    }

    /// The selectors of these rules, under ranks with room between them.
    fn of(alloc: Global, rules: &[Numbered]) -> Result<Offers, AllocError>
        requires { length rules.now ≤ 4096 }
        ensures offers { IfOk result (λ offers. AreOffers offers (terms_of rules.now)) }
        ensures even { IfOk result (λ offers. AreEven offers.ranks.items) }
    {
        let mut offers = Offers::new(alloc);
        for (at, numbered) in rules.iter().enumerate() {
            offers.put(at, (at as u64 + 1) * GAP, &numbered.rule.term)?;
        }
        Ok(offers)
    }

    /// A rank that is free at a place. Where there is none, all rules get new ones. The one error is lack of memory.
    fn rank_at(&mut self, rules: &[Numbered], place: usize) -> Result<u64, AllocError>
        requires rules { AreOffers self.old (terms_of rules.now) }
        requires place { place ≤ length rules.now }
        requires few { length rules.now ≤ 4096 }
        ensures same { AreOffers self.new (terms_of rules.now) }
        ensures free { IfOk result (λ rank. IsFree self.new.ranks.items place rank) }
    {
        if let Some(rank) = free_rank(self.ranks.as_slice(), place) {
            return Ok(rank);
        }
        *self = Offers::of(*self.ranks.allocator(), rules)?;
        Ok(place as u64 * GAP + GAP / 2)
    }

    /// Puts the selector of a rule more at a place among those of these rules. The one error is lack of memory; no selector
    /// is there more then.
    pub(crate) fn insert(
        &mut self,
        rules: &[Numbered],
        place: usize,
        term: &CheckedTerm,
    ) -> Result<(), AllocError>
        requires rules { AreOffers self.old (terms_of rules.now) }
        requires place { place ≤ length rules.now }
        requires few { length rules.now ≤ 4096 }
        ensures ok { OnOk result (AreOffers self.new (insert (terms_of rules.now) place term.now)) }
        ensures err { OnErr result (AreOffers self.new (terms_of rules.now)) }
    {
        let rank = self.rank_at(rules, place)?;
        self.put(place, rank, term)
    }

    /// Takes the selector at a place out. It takes no memory.
    pub(crate) fn remove(&mut self, place: usize, term: &CheckedTerm)
        requires { place < vec_len self.old.ranks }
        ensures { (terms : List Selector) → AreOffers self.old terms → slice_get terms place ≡ Some term.now → AreOffers self.new (remove terms place) }
    {
        let rank = self.ranks.remove(place);
        unfile(
            &mut self.names,
            &mut self.masks,
            &mut self.loose,
            term,
            rank,
        );
    }

    /// A walk from the first place on. It takes no memory.
    pub(crate) fn ahead(&self) -> Ahead<'_>
        ensures start { result.at ≡ 0 }
        ensures ahead { (view : ViewValue) (addr : AddrValue) → IsAhead self.now view addr result }
    {
        Ahead {
            at: 0,
            loose: self.loose.as_slice(),
            looked: false,
            indexed: None,
        }
    }

    /// The next rank that an index finds from the place of the walk on, whose rank is this; they are asked but once.
    fn indexed_rank(
        &self,
        ahead: &mut Ahead<'_>,
        here: u64,
        view: &QueryView,
        addr: &Addr,
    ) -> Option<u64>
        requires at { ahead.old.at < length self.now.ranks.items }
        requires here { slice_index self.now.ranks.items ahead.old.at ≡ here }
        ensures found { IsNextIndexed self.now view.now addr.now ahead.old result }
        ensures ahead { (terms : List Selector) → AreOffers self.now terms → IsAhead self.now view.now addr.now ahead.old → IsAhead self.now view.now addr.now ahead.new }
        ensures at { ahead.new.at ≡ ahead.old.at }
    {
        // Two laws, which do nothing.
        suffix_test_decides();
        mask_test_decides();
        if !ahead.looked {
            ahead.indexed = find_rank(&self.names, &self.masks, view, addr, here);
            ahead.looked = true;
        }
        ahead.indexed
    }

    /// The next rank of a walk: that of its place if this is loose. Otherwise it is the lesser of
    /// the next loose one and of the next one that an index finds.
    fn next_rank(
        &self,
        ahead: &mut Ahead<'_>,
        here: u64,
        view: &QueryView,
        addr: &Addr,
    ) -> Option<u64>
        requires at { ahead.old.at < length self.now.ranks.items }
        requires here { slice_index self.now.ranks.items ahead.old.at ≡ here }
        ensures found { IsNextRank self.now view.now addr.now ahead.old result }
        ensures ahead { (terms : List Selector) → AreOffers self.now terms → IsAhead self.now view.now addr.now ahead.old → IsAhead self.now view.now addr.now ahead.new }
        ensures at { ahead.new.at ≡ ahead.old.at }
    {
        // Two laws, which do nothing.
        suffix_test_decides();
        mask_test_decides();
        let loose = ahead.loose.first().copied();
        if loose == Some(here) {
            return loose;
        }
        lesser(loose, self.indexed_rank(ahead, here, view, addr))
    }

    /// The next place of a walk whose selector may hold of a query from this address; the walk goes on after it. It takes no
    /// memory.
    pub(crate) fn next(&self, ahead: &mut Ahead<'_>, view: &QueryView, addr: &Addr) -> Option<usize>
        ensures next { (terms : List Selector) → AreOffers self.now terms → IsAhead self.now view.now addr.now ahead.old → IsNextOffered terms view.now addr.now ahead.old.at result }
        ensures ahead { (terms : List Selector) → AreOffers self.now terms → IsAhead self.now view.now addr.now ahead.old → IfSome result (λ _. IsAhead self.now view.now addr.now ahead.new) }
        ensures at { IfSome result (λ place. ahead.new.at ≡ place + 1) }
    {
        // Two laws, which do nothing.
        suffix_test_decides();
        mask_test_decides();
        let here = *self.ranks.as_slice().get(ahead.at)?;
        let rank = self.next_rank(ahead, here, view, addr)?;
        let place = place_from(self.ranks.as_slice(), ahead.at, rank);
        ahead.pass(rank, place);
        Some(place)
    }
}

impl Ahead<'_> {
    /// Passes a rank, which stands at this place.
    fn pass(&mut self, rank: u64, place: usize)
        requires { place < 2 ^ 64 - 1 }
        ensures at { self.new.at ≡ place + 1 }
        ensures left { self.new.loose.now ≡ without_first rank self.old.loose.now }
        ensures looked { self.new.looked ≡ (self.old.looked && not (is_rank rank self.old.indexed)) }
        ensures indexed { self.new.indexed ≡ self.old.indexed }
    {
        if let Some((first, rest)) = self.loose.split_first() {
            if *first == rank {
                self.loose = rest;
            }
        }
        if self.indexed == Some(rank) {
            self.looked = false;
        }
        self.at = place + 1;
    }
}
