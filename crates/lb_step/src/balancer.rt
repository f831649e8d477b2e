//! The balancer and its step.

ghost use Rattle.std.specs.Prelude.{◌≡◌, false, IfOk, length, map};
ghost use Rattle.lb_chain.specs.Seen.{seen_rules};
ghost use Rattle.lb_cache.specs.Caches.{lists_of};
ghost use Rattle.lb_step.specs.Laws.{AreLists, AreMarked};
ghost use Rattle.lb_step.specs.Plain.{empty, upstreams_of};
ghost use Rattle.lb_step.specs.Snapshot.{snapshot_of, IsShown};
ghost use Rattle.lb_step.specs.Counts.{times, AreRaised};
ghost use Rattle.lb_step.specs.CountsByNumber.{AreCounted};
ghost use Rattle.lb_step.specs.Noted.{IsNoted};
ghost use Rattle.lb_step.specs.Step.{Answers};
ghost use Rattle.lb_step.specs.Upstream.{caches_of, server_of, totals_of};

use crate::answer::{Answer, Totals};
use crate::asked::Asked;
use crate::check::Check;
use crate::counts::Came;
use crate::edit::edit;
use crate::event::Event;
use crate::expiry::answer_tick;
use crate::health::answer_result;
use crate::noted::Noted;
use crate::plain::Plain;
use crate::query::answer_query;
use crate::reply::answer_reply;
use crate::tally::Tally;
use crate::upstream::Upstream;
use lb_cache::{Shelf, Swept};
use lb_chain::{Chain, Numbered, seen_are_rules, seen_have_own_limiters, seen_twice};
use lb_servers::{Loaded, Pool};
use std::alloc::{AllocError, Global};
use std::marker::Model;

/// The balancer. A contract sees it as its plain state.
#[derive(Debug, Drop)]
pub struct Balancer {
    alloc: Global,
    /// The latest moment given, in milliseconds.
    moment: u64,
    chain: Chain,
    upstream: Upstream,
}

impl Model for Balancer {
    ghost use Rattle.std.specs.Prelude.{◌≤◌};
    ghost use Rattle.lb_step.specs.Plain.{Plain, plain_of};

    ghost Value = { Plain };

    ghost use Rattle.lb_terms.specs.contracts.term.CheckedTerm as contract;
    ghost use Rattle.std.specs.Coded.{codes};

    ghost coded = { Prim.hlevel (codes, contract.the_row.coded) };

    ghost view = { λ b. plain_of b.moment b.chain b.upstream };

    ghost invariant = { λ b. b.chain.moment ≤ b.moment };
}

impl Balancer {
    /// A balancer at moment 0, without rules and servers, with the default pool; its first rule is
    /// rule 1, its first server server 1. The one error is lack of memory.
    pub fn new(alloc: Global) -> Result<Balancer, AllocError>
        ensures { IfOk result (λ balancer. balancer ≡ empty) }
    {
        Ok(Balancer {
            alloc,
            moment: 0,
            chain: Chain::new(alloc),
            upstream: Upstream::new(alloc)?,
        })
    }

    /// Gives back the memory of up to so many replies that were expunged or went with their cache.
    /// It takes no memory, and nothing that is seen changes.
    pub fn sweep(&mut self, most: usize) -> Swept
        ensures { self.new ≡ self.old }
    {
        self.upstream.sweep(most)
    }

    /// A law: each server has one health check with its number, and its mark is what its health
    /// says; the servers stand by number, each below the next. It does nothing.
    pub fn law_of_health(&self)
        ensures { AreMarked self.now }
    {
        self.upstream.law_of_health();
    }

    /// A law: the order and the bounds of each list of the plain state. It does nothing.
    pub fn law_of_lists(&self)
        ensures { AreLists self.now }
    {
        // Laws, which do nothing.
        seen_are_rules();
        self.chain.law_of_list();
        self.upstream.law_of_health();
        self.upstream.law_of_lists();
    }

    /// The rules in the order of `law_of_lists`, each with its number and its limiters.
    pub fn rules(&self) -> &[Numbered]
        ensures { seen_rules self.now.moment result.now ≡ self.now.rules }
    {
        self.chain.rules()
    }

    /// The servers by number, each with how many queries it has outstanding.
    pub fn servers(&self) -> &[Loaded]
        ensures { map server_of result.now ≡ self.now.servers }
    {
        self.upstream.servers()
    }

    /// The health checks of the servers, by number.
    pub fn checks(&self) -> &[Check]
        ensures { result.now ≡ self.now.checks }
    {
        self.upstream.checks()
    }

    /// The pools by number, the default pool first.
    pub fn pools(&self) -> &[Pool]
        ensures { result.now ≡ self.now.pools }
    {
        self.upstream.pools()
    }

    /// The attached caches by number.
    pub fn shelves(&self) -> &[Shelf]
        ensures { lists_of result.now ≡ caches_of (upstreams_of self.now) }
    {
        self.upstream.shelves()
    }

    /// How long a query waits for its reply, in milliseconds.
    pub fn timeout(&self) -> u32
        ensures { result ≡ self.now.timeout }
    {
        self.upstream.timeout()
    }

    /// How much there is of each part.
    pub fn totals(&self) -> Totals
        ensures { result ≡ totals_of (length self.now.rules) (upstreams_of self.now) }
    {
        self.upstream.totals(self.chain.len())
    }

    /// A snapshot: all that the answers from now on depend on, its lists in the order of
    /// `law_of_lists`. Two balancers with equal snapshots answer alike ever after, by the law
    /// `equal_snapshots_have_equal_runs` of lb_core. The one error is lack of memory.
    pub fn snapshot(&self, alloc: Global) -> Result<Plain, AllocError>
        ensures value { IfOk result (λ plain. plain ≡ snapshot_of self.now) }
        ensures shown { IsShown self.now }
        ensures lists { AreLists self.now }
    {
        // Laws, which do nothing.
        self.law_of_lists();
        self.chain.law_of_rules();
        seen_have_own_limiters();
        seen_twice();
        self.upstream.snapshot(alloc, &self.chain, self.moment)
    }

    /// Answers one event. It can lack memory at a query with passes, a spoofed answer or a pool to
    /// be answered by, at a rule that is added or moved, and at a server, a pool or a cache that is
    /// added: then nothing but the moment changes; and at a reply that would be kept: then it is
    /// delivered, and not kept.
    pub fn step(&mut self, event: Event) -> Answer
        ensures { Answers self.old event result self.new }
    {
        let mut noted = Noted::none();
        self.step_noted(event, &mut noted)
    }

    /// The same step. It counts the event and its answer, and notes what it leaves beside the plain
    /// state. If memory for a count is refused, the counts by number say so from then on.
    pub fn step_counted(&mut self, event: Event, tally: &mut Tally, noted: &mut Noted) -> Answer
        ensures answers { Answers self.old event result self.new }
        ensures noted { IsNoted self.old event result noted.new }
        ensures counts { AreRaised (times event result) tally.old.counts.items tally.new.counts.items }
        ensures numbers { tally.new.by_number.lacked ≡ false → AreCounted result noted.new tally.old.by_number tally.new.by_number }
        ensures before { tally.new.by_number.lacked ≡ false → tally.old.by_number.lacked ≡ false }
    {
        let mut answer = Answer::Quiet;
        self.step_into(event, tally, noted, &mut answer);
        answer
    }

    /// `step_counted`, which writes the answer where it is to stand: an answer is large, and each
    /// function that hands one on copies it. It is made in line, as an answer is then looked at
    /// where it stands.
    #[inline(always)]
    pub fn step_into(
        &mut self,
        event: Event,
        tally: &mut Tally,
        noted: &mut Noted,
        answer: &mut Answer,
    )
        ensures answers { Answers self.old event answer.new self.new }
        ensures noted { IsNoted self.old event answer.new noted.new }
        ensures counts { AreRaised (times event answer.new) tally.old.counts.items tally.new.counts.items }
        ensures numbers { tally.new.by_number.lacked ≡ false → AreCounted answer.new noted.new tally.old.by_number tally.new.by_number }
        ensures before { tally.new.by_number.lacked ≡ false → tally.old.by_number.lacked ≡ false }
    {
        let came = Came::of(&event);
        *answer = self.step_noted(event, noted);
        tally.counts.count(came, answer);
        tally.by_number.count(answer, noted);
    }

    /// The same step. It notes what it leaves beside the plain state.
    pub fn step_noted(&mut self, event: Event, noted: &mut Noted) -> Answer
        ensures answers { Answers self.old event result self.new }
        ensures noted { IsNoted self.old event result noted.new }
    {
        // A law, which does nothing.
        seen_twice();
        *noted = Noted::none();
        self.moment = self.moment.max(event.now());
        match event {
            Event::Query {
                origin,
                kind,
                word,
                bytes,
                ..
            } => {
                let asked = Asked {
                    moment: self.moment,
                    origin,
                    kind,
                    word,
                };
                let chain = &mut self.chain;
                answer_query(self.alloc, chain, &mut self.upstream, &asked, bytes, noted)
            }
            Event::Reply {
                server,
                lane,
                bytes,
                ..
            } => {
                let served = &mut noted.served;
                answer_reply(&mut self.upstream, self.moment, server, lane, bytes, served)
            }
            Event::Tick { .. } => answer_tick(&mut self.upstream, self.moment, &mut noted.served),
            Event::HealthResult { server, ok, .. } => answer_result(&mut self.upstream, server, ok),
            Event::Edit { command, .. } => {
                let chain = &mut self.chain;
                edit(self.alloc, chain, &mut self.upstream, self.moment, command)
            }
        }
    }
}
