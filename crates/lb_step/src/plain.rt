//! The plain state as lists that the program can hold.

ghost use Rattle.std.specs.Prelude.{◌≡◌};

use crate::check::Check;
use lb_cache::{AttachedCache, KeptReply};
use lb_chain::Listed;
use lb_servers::{Pool, Server};
use lb_table::Waiting;
use std::marker::Model;

/// A snapshot of a balancer: all that its answers from then on depend on. A contract sees it as the parts of the plain state.
#[derive(Debug, Drop)]
pub struct Plain {
    pub(crate) moment: u64,
    pub(crate) timeout: u32,
    pub(crate) next_rule: u128,
    pub(crate) next_server: u128,
    pub(crate) next_cache: u128,
    pub(crate) rules: Vec<Listed>,
    pub(crate) servers: Vec<Server>,
    pub(crate) checks: Vec<Check>,
    pub(crate) pools: Vec<Pool>,
    pub(crate) caches: Vec<AttachedCache>,
    pub(crate) outstanding: Vec<Waiting>,
    pub(crate) kept: Vec<KeptReply>,
}

impl Model for Plain {
    ghost use Rattle.lb_step.specs.Snapshot.{Snapshot};

    ghost Value = { Snapshot };

    ghost use Rattle.lb_terms.specs.contracts.term.CheckedTerm as contract;
    ghost use Rattle.std.specs.Coded.{codes};

    ghost coded = { Prim.hlevel (codes, contract.the_row.coded) };

    ghost view = { λ p. record {
      moment = p.moment;
      timeout = p.timeout;
      next_rule = p.next_rule;
      next_server = p.next_server;
      next_cache = p.next_cache;
      rules = p.rules.items;
      servers = p.servers.items;
      checks = p.checks.items;
      pools = p.pools.items;
      caches = p.caches.items;
      outstanding = p.outstanding.items;
      kept = p.kept.items;
    } };
}

impl Plain {
    /// The latest moment given, in milliseconds.
    pub fn moment(&self) -> u64
        ensures { result ≡ self.now.moment }
    {
        self.moment
    }

    /// How long a query waits for its reply, in milliseconds.
    pub fn timeout(&self) -> u32
        ensures { result ≡ self.now.timeout }
    {
        self.timeout
    }

    /// The number that the next rule gets; 2^64 once all are given.
    pub fn next_rule(&self) -> u128
        ensures { result ≡ self.now.next_rule }
    {
        self.next_rule
    }

    /// The number that the next server gets; 2^64 once all are given.
    pub fn next_server(&self) -> u128
        ensures { result ≡ self.now.next_server }
    {
        self.next_server
    }

    /// The number that the next cache gets; 2^64 once all are given.
    pub fn next_cache(&self) -> u128
        ensures { result ≡ self.now.next_cache }
    {
        self.next_cache
    }

    /// The rules in their order, with the passes that count at the moment.
    pub fn rules(&self) -> &[Listed]
        ensures { result.now ≡ self.now.rules }
    {
        self.rules.as_slice()
    }

    /// The servers by number.
    pub fn servers(&self) -> &[Server]
        ensures { result.now ≡ self.now.servers }
    {
        self.servers.as_slice()
    }

    /// Their health checks, in the same order.
    pub fn checks(&self) -> &[Check]
        ensures { result.now ≡ self.now.checks }
    {
        self.checks.as_slice()
    }

    /// The pools by number, the default pool first.
    pub fn pools(&self) -> &[Pool]
        ensures { result.now ≡ self.now.pools }
    {
        self.pools.as_slice()
    }

    /// The attached caches by number.
    pub fn caches(&self) -> &[AttachedCache]
        ensures { result.now ≡ self.now.caches }
    {
        self.caches.as_slice()
    }

    /// The outstanding queries by deadline, those of one deadline in the order in which they were sent.
    pub fn outstanding(&self) -> &[Waiting]
        ensures { result.now ≡ self.now.outstanding }
    {
        self.outstanding.as_slice()
    }

    /// The kept replies by cache, then key.
    pub fn kept(&self) -> &[KeptReply]
        ensures { result.now ≡ self.now.kept }
    {
        self.kept.as_slice()
    }
}
