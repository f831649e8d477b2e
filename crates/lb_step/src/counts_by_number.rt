//! Counts by the numbers of rules, servers and caches, beside the plain state.

ghost use Rattle.std.specs.Prelude.{◌≡◌, true, false, None, OnOk, option_map};
ghost use Rattle.lb_tallies.specs.Tallies.{tally_of, Changes};
ghost use Rattle.lb_step.specs.CountsByNumber.{cache_counts, server_counts, AreAnswered, AreCounted, AreForgotten, AreNone, AreWalked};

use crate::answer::{Answer, LocalReason, Note};
use crate::noted::{Noted, Served};
use lb_tallies::Tallies;
use lb_wire::{CacheId, RuleId, ServerId};
use std::alloc::{AllocError, Global};

/// Counts of each rule, server and cache, by number. What is removed takes its counts with it.
#[derive(Debug, Drop)]
pub struct CountsByNumber {
    /// Walks that a rule ended.
    ended: Tallies,
    /// Queries that were sent to a server, replies of it that were delivered, and queries to it that were given up.
    forwarded: Tallies,
    replied: Tallies,
    expired: Tallies,
    /// Queries for which a cache was asked, and those that it answered.
    asked: Tallies,
    hit: Tallies,
    /// Whether memory for a count was refused.
    lacked: bool,
}

/// Counts of a server.
#[derive(Clone, Copy, Debug, PartialEq, Eq)]
pub struct ServerCounts {
    pub forwarded: u64,
    pub replied: u64,
    pub expired: u64,
}

/// Counts of a cache.
#[derive(Clone, Copy, Debug, PartialEq, Eq)]
pub struct CacheCounts {
    pub asked: u64,
    pub hit: u64,
}

impl CountsByNumber {
    /// No count. It takes no memory.
    pub fn new(alloc: Global) -> CountsByNumber
        ensures none { AreNone result }
        ensures lacked { result.lacked ≡ false }
    {
        CountsByNumber {
            ended: Tallies::new(alloc),
            forwarded: Tallies::new(alloc),
            replied: Tallies::new(alloc),
            expired: Tallies::new(alloc),
            asked: Tallies::new(alloc),
            hit: Tallies::new(alloc),
            lacked: false,
        }
    }

    /// Whether memory for a count was refused. Until then, each count is exact.
    pub fn is_lacking(&self) -> bool
        ensures { result ≡ self.now.lacked }
    {
        self.lacked
    }

    /// How many walks a rule ended.
    pub fn of_rule(&self, rule: RuleId) -> u64
        ensures { result ≡ tally_of rule.0 self.now.ended }
    {
        self.ended.get(rule.0)
    }

    /// The counts of a server.
    pub fn of_server(&self, server: ServerId) -> ServerCounts
        ensures { result ≡ server_counts self.now server }
    {
        ServerCounts {
            forwarded: self.forwarded.get(server.0),
            replied: self.replied.get(server.0),
            expired: self.expired.get(server.0),
        }
    }

    /// The counts of a cache.
    pub fn of_cache(&self, cache: CacheId) -> CacheCounts
        ensures { result ≡ cache_counts self.now cache }
    {
        CacheCounts {
            asked: self.asked.get(cache.0),
            hit: self.hit.get(cache.0),
        }
    }

    /// Counts what a step answered and noted.
    #[inline(always)]
    pub fn count(&mut self, answer: &Answer, noted: &Noted)
        ensures counted { self.new.lacked ≡ false → AreCounted answer.now noted.now self.old self.new }
        ensures before { self.new.lacked ≡ false → self.old.lacked ≡ false }
    {
        self.count_answer(answer, noted);
        self.count_walk(noted);
    }

    /// Counts what was answered.
    #[inline(always)]
    fn count_answer(&mut self, answer: &Answer, noted: &Noted)
        ensures counted { self.new.lacked ≡ false → AreAnswered answer.now noted.now self.old self.new }
        ensures before { self.new.lacked ≡ false → self.old.lacked ≡ false }
    {
        match answer {
            Answer::Forward(server, ..) => {
                if let Err(refused) = self.forwarded.raise(server.0) {
                    self.lacks(refused);
                }
            }
            Answer::Deliver(..) => {
                if let Err(refused) = raise_served(&mut self.replied, noted.served) {
                    self.lacks(refused);
                }
            }
            Answer::Expired(..) => {
                if let Err(refused) = raise_served(&mut self.expired, noted.served) {
                    self.lacks(refused);
                }
            }
            Answer::Local(_, LocalReason::Hit) => {
                if let Err(refused) = raise_cache(&mut self.hit, noted.cache) {
                    self.lacks(refused);
                }
            }
            Answer::Edited(note) => self.forget(note),
            _ => {}
        }
    }

    /// Counts what was noted of a walk.
    #[inline(always)]
    fn count_walk(&mut self, noted: &Noted)
        ensures counted { self.new.lacked ≡ false → AreWalked noted.now self.old self.new }
        ensures before { self.new.lacked ≡ false → self.old.lacked ≡ false }
    {
        if let Err(refused) = raise_rule(&mut self.ended, noted.rule) {
            self.lacks(refused);
        }
        if let Err(refused) = raise_cache(&mut self.asked, noted.cache) {
            self.lacks(refused);
        }
    }

    /// Notes that memory for a count was refused.
    fn lacks(&mut self, _refused: AllocError)
        ensures { self.new ≡ record self.old { lacked = true } }
    {
        self.lacked = true;
    }

    /// Takes the counts of what a command removed away.
    fn forget(&mut self, note: &Note)
        ensures forgotten { AreForgotten note.now self.old self.new }
        ensures lacked { self.new.lacked ≡ self.old.lacked }
    {
        match note {
            Note::RuleRemoved(rule) => self.ended.shut(rule.0),
            Note::ServerRemoved(server) => {
                self.forwarded.shut(server.0);
                self.replied.shut(server.0);
                self.expired.shut(server.0);
            }
            Note::CacheDetached(cache) => {
                self.asked.shut(cache.0);
                self.hit.shut(cache.0);
            }
            _ => {}
        }
    }
}

/// Counts a walk that a rule ended. The one error is lack of memory.
#[inline(always)]
fn raise_rule(tallies: &mut Tallies, rule: Option<RuleId>) -> Result<(), AllocError>
    ensures { OnOk result (Changes None (option_map (λ r. r.0) rule) tallies.old tallies.new) }
{
    match rule {
        Some(rule) => tallies.raise(rule.0),
        None => Ok(()),
    }
}

/// Counts a query that a server ended. The one error is lack of memory.
#[inline(always)]
fn raise_served(tallies: &mut Tallies, served: Option<Served>) -> Result<(), AllocError>
    ensures { OnOk result (Changes None (option_map (λ s. s.server.0) served) tallies.old tallies.new) }
{
    match served {
        Some(served) => tallies.raise(served.server.0),
        None => Ok(()),
    }
}

/// Counts a query of a cache. The one error is lack of memory.
#[inline(always)]
fn raise_cache(tallies: &mut Tallies, cache: Option<CacheId>) -> Result<(), AllocError>
    ensures { OnOk result (Changes None (option_map (λ c. c.0) cache) tallies.old tallies.new) }
{
    match cache {
        Some(cache) => tallies.raise(cache.0),
        None => Ok(()),
    }
}
