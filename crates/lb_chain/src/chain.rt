//! The chain.

ghost use Rattle.std.specs.Prelude.{◌≡◌, ◌≤◌, ◌<◌, ℕ, IfOk, OnOk, OnErr, length, map};
ghost use Rattle.std.specs.List.{All};
ghost use Rattle.lb_wire.specs.declared.query.QueryView.{QueryView};
ghost use Rattle.lb_wire.specs.declared.transport.Kind.{Kind as KindValue};
ghost use Rattle.lb_chain.specs.Chain.{AreRules};
ghost use Rattle.lb_chain.specs.Walk.{no_rule, walk_of};
ghost use Rattle.lb_chain.specs.Edits.{no_rules, added, removed, moved, lacks};
ghost use Rattle.lb_chain.specs.Listed.{listed_of, HasOwnLimiters};
ghost use Rattle.lb_chain.specs.Counting.{reserved_rules, passed_rules, counted, RulesReady, PartlyReserved};
ghost use Rattle.lb_chain.specs.Seen.{seen_rules};

use crate::counting::{pass_rules, reserve_rules};
use crate::edits::{insert_rule, move_rule, place_of};
use crate::fault::ChainFault;
use crate::listed::{Listed, list_rules, list_rules_at};
use crate::numbered::Numbered;
use crate::offers::Offers;
use crate::places::Places;
use crate::rule::Rule;
use crate::walk::{Arrival, walk_rules};
use crate::walked::Walked;
use lb_limits::{
    passed_are_passes, put_is_there, recent_are_passes, recent_twice, reserving_keeps_matches,
};
use lb_terms::{MAX_LIMITERS, limiter_count};
use lb_wire::{Addr, Kind, QueryView, RuleId};
use std::alloc::{AllocError, Global};
use std::marker::Model;

/// The most rules of a chain.
const MAX_RULES: usize = 4096;

/// The list of rules, each with its number and its rate limiters. Rules are tested in the order of the list.
#[derive(Debug, Drop)]
pub struct Chain {
    /// The last rule number given, 0 at first: so that 2^64-1 is given too, after which the next would be 2^64.
    last_rule: u64,
    /// The latest moment of a reservation or a pass, in milliseconds.
    moment: u64,
    /// How many limiters the rules have.
    limiters: usize,
    /// The rules, in the order in which they are tested.
    rules: Vec<Numbered>,
    /// Where the rules stand that have limiters; found anew after each edit.
    places: Places,
    /// Which rules may hold of a query, by what they ask first; a walk tests these alone.
    offers: Offers,
}

impl Model for Chain {
    ghost use Rattle.std.specs.Prelude.{◌+◌};
    ghost use Rattle.lb_chain.specs.Edits.{Rules};
    ghost use Rattle.lb_chain.specs.Chain.{IsChain};
    ghost use Rattle.lb_chain.specs.Places.{places_of};
    ghost use Rattle.lb_chain.specs.Offers.{AreOffers, terms_of};
    ghost use Rattle.std.specs.Prelude.{◌≡◌};

    ghost Value = { Rules };

    ghost use Rattle.lb_terms.specs.contracts.term.CheckedTerm as contract;
    ghost use Rattle.std.specs.Coded.{codes};

    ghost coded = { Prim.hlevel (codes, contract.the_row.coded) };

    ghost view = { λ c. record { next = c.last_rule + 1; moment = c.moment; rules = c.rules.items } };

    ghost invariant = { λ c. IsChain c.last_rule c.moment c.limiters c.rules.items × (c.places ≡ places_of c.rules.items) × AreOffers c.offers (terms_of c.rules.items) };
}

impl Chain {
    /// A chain without rules, whose first rule is rule 1. It takes no memory.
    pub fn new(alloc: Global) -> Chain
        ensures { result ≡ no_rules }
    {
        Chain {
            last_rule: 0,
            moment: 0,
            limiters: 0,
            rules: Vec::new(alloc),
            places: Places::new(),
            offers: Offers::new(alloc),
        }
    }

    /// The number that the next rule gets; 2^64 once all are given.
    pub fn next_rule(&self) -> u128
        ensures { result ≡ self.now.next }
    {
        u128::from(self.last_rule) + 1
    }

    /// How many rules there are.
    pub fn len(&self) -> usize
        ensures { result ≡ length self.now.rules }
    {
        self.rules.len()
    }

    /// The rules in the order of `law_of_list`, each with its number and its limiters.
    pub fn rules(&self) -> &[Numbered]
        ensures { result.now ≡ self.now.rules }
    {
        self.rules.as_slice()
    }

    /// The rules in the order of `law_of_list`, with the passes that their limiters hold. The one error is lack of memory.
    pub fn list(&self, alloc: Global) -> Result<Vec<Listed>, AllocError>
        ensures list { IfOk result (λ list. list.items ≡ map listed_of self.now.rules) }
        // so the list determines what is seen of the rules: a law says so
        ensures own { All HasOwnLimiters self.now.rules }
    {
        list_rules(alloc, self.rules.as_slice())
    }

    /// The rules in the order of `law_of_list`, with the passes that count at this moment, in milliseconds. The one error is want
    /// of memory.
    pub fn list_at(&self, alloc: Global, now: u64) -> Result<Vec<Listed>, AllocError>
        ensures list { IfOk result (λ list. list.items ≡ map listed_of (seen_rules now self.now.rules)) }
        // so the list determines what is seen of the rules at this moment and later: laws say so
        ensures own { All HasOwnLimiters self.now.rules }
    {
        list_rules_at(alloc, self.rules.as_slice(), now)
    }

    /// A law: the rules stand in the order in which they are tested; each has a number from 1 on and below the next, no number is
    /// there twice, and there are at most 4,096 rules with at most 16 limiters; the passes of each limiter stand in its order
    /// (`Limiter::law_of_list`), and no source has more of them than the rate. It does nothing.
    pub fn law_of_list(&self)
        ensures { AreRules self.now }
    {
        // Read, so that what the chain keeps true is at hand.
        let _ = self.rules.len();
    }

    /// Each rule of a chain has a number from 1 on and the limiters of its term. A law: the call does nothing.
    pub fn law_of_rules(&self)
        ensures numbers { All (λ n. 1 ≤ n.id.0) self.now.rules }
        ensures own { All HasOwnLimiters self.now.rules }
    {
        // Read, so that what the chain keeps true is at hand.
        let _ = self.rules.len();
    }

    /// Adds a rule at a place of the list, counted from 0, and gives its number. The refusals are tested in this order:
    /// `BadPlace`, `TooManyRules` (4,096), `TooManyLimiters` (16 in the whole chain), `NoMoreIds`, `NoMemory`; each drops
    /// the rule and leaves the chain as it was.
    pub fn add(&mut self, place: usize, rule: Rule) -> Result<RuleId, ChainFault>
        ensures added { (self.new, result) ≡ added (lacks result) self.old place rule }
        ensures number { IfOk result (λ id. 1 ≤ id.0) }
    {
        if place > self.rules.len() {
            return Err(ChainFault::BadPlace);
        }
        if self.rules.len() >= MAX_RULES {
            return Err(ChainFault::TooManyRules);
        }
        let count = limiter_count(&rule.term);
        if self.limiters + count > MAX_LIMITERS {
            return Err(ChainFault::TooManyLimiters);
        }
        if self.last_rule == u64::MAX {
            return Err(ChainFault::NoMoreIds);
        }
        let id = self.last_rule + 1;
        match insert_rule(&mut self.rules, &mut self.offers, place, id, rule) {
            Ok(()) => {
                self.limiters += count;
                self.last_rule = id;
                self.places = Places::of(self.rules.as_slice());
                Ok(RuleId(id))
            }
            Err(refused) => Err(ChainFault::from(refused)),
        }
    }

    /// Removes a rule with its limiters. `NoSuchRule` leaves the chain as it was. It takes no memory.
    pub fn remove(&mut self, id: RuleId) -> Result<(), ChainFault>
        ensures { (self.new, result) ≡ removed self.old id }
    {
        let Some(at) = place_of(self.rules.as_slice(), id) else {
            return Err(ChainFault::NoSuchRule);
        };
        let gone = self.rules.remove(at);
        self.offers.remove(at, &gone.rule.term);
        self.limiters -= gone.limits.len();
        self.places = Places::of(self.rules.as_slice());
        Ok(())
    }

    /// Moves a rule to a place, which counts from 0 in the list without the rule. It keeps its number and what its
    /// limiters counted. The refusals are tested in this order: `NoSuchRule`, `BadPlace`, `NoMemory`; each leaves the chain
    /// as it was.
    pub fn move_to(&mut self, id: RuleId, place: usize) -> Result<(), ChainFault>
        ensures { (self.new, result) ≡ moved (lacks result) self.old id place }
    {
        let Some(at) = place_of(self.rules.as_slice(), id) else {
            return Err(ChainFault::NoSuchRule);
        };
        if place >= self.rules.len() {
            return Err(ChainFault::BadPlace);
        }
        move_rule(&mut self.rules, &mut self.offers, at, place)?;
        self.places = Places::of(self.rules.as_slice());
        Ok(())
    }

    /// Walks the rules for a query that came from the address by this transport now, in milliseconds. It takes no memory
    /// and counts nothing.
    pub fn walk(&self, view: &QueryView, addr: &Addr, kind: Kind, now: u64) -> Walked
        requires { self.now.moment ≤ now }
        ensures { result ≡ walk_of self.now.rules view.now addr.now kind now }
    {
        let mut walked = Walked::begun();
        self.walk_into(view, addr, kind, now, &mut walked);
        walked
    }

    /// The same walk, which is written where it is to stand, as it has many octets.
    pub fn walk_into(
        &self,
        view: &QueryView,
        addr: &Addr,
        kind: Kind,
        now: u64,
        walked: &mut Walked,
    )
        requires moment { self.now.moment ≤ now }
        requires begun { walked.old ≡ no_rule }
        ensures { walked.new ≡ walk_of self.now.rules view.now addr.now kind now }
    {
        let rules = self.rules.as_slice();
        let arrival = Arrival {
            view,
            addr,
            kind,
            moment: now,
        };
        walk_rules(rules, &self.offers, &arrival, walked);
    }

    /// Takes the memory for counting the passes of a walk of this chain for that address and moment. Where it is refused,
    /// some of the limiters may have taken theirs.
    pub fn reserve(&mut self, walked: &Walked, addr: &Addr, now: u64) -> Result<(), AllocError>
        requires moment { self.old.moment ≤ now }
        requires walked { (view : QueryView) × (kind : KindValue) × (walked.now ≡ walk_of self.old.rules view addr.now kind now) }
        ensures ok { OnOk result (self.new ≡ reserved_rules walked.now.passes addr.now now self.old) }
        ensures ready { OnOk result (RulesReady walked.now.passes addr.now now self.new.rules) }
        ensures err { OnErr result (PartlyReserved walked.now.passes addr.now now self.old.rules self.new.rules) }
        // it refuses only where there is something to count
        ensures takes { OnErr result (0 < length walked.now.passes) }
        ensures next { self.new.next ≡ self.old.next }
        ensures moment { self.new.moment ≡ now }
        // no walk and no count sees it
        ensures seen { seen_rules now self.new.rules ≡ seen_rules now self.old.rules }
    {
        // Laws, which do nothing.
        recent_twice();
        recent_are_passes();
        put_is_there();
        reserving_keeps_matches();
        self.moment = now;
        let passes = walked.passes.as_slice();
        if passes.is_empty() {
            return Ok(());
        }
        reserve_rules(&mut self.rules, self.places.as_slice(), passes, addr, now)
    }

    /// Counts the passes of a walk for which the memory was taken. It takes none.
    pub fn pass(&mut self, walked: &Walked, addr: &Addr, now: u64)
        requires moment { self.old.moment ≤ now }
        requires ready { RulesReady walked.now.passes addr.now now self.old.rules }
        ensures passes { self.new ≡ passed_rules walked.now.passes addr.now now self.old }
        // what is seen is what is counted
        ensures seen { seen_rules now self.new.rules ≡ counted walked.now.passes addr.now now (seen_rules now self.old.rules) }
    {
        // Laws, which do nothing.
        recent_twice();
        passed_are_passes();
        self.moment = now;
        let passes = walked.passes.as_slice();
        if !passes.is_empty() {
            pass_rules(&mut self.rules, self.places.as_slice(), passes, addr, now);
        }
    }
}
