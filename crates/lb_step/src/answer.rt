//! What the balancer answers.

ghost use Rattle.std.specs.Prelude.{◌≡◌, ◌≤◌, vec_len, vec_capacity, IfOk, IsTrue};
ghost use Rattle.lb_wire.specs.Octets.{max_message};

use crate::timeout::Timeout;
use lb_chain::ChainFault;
use lb_servers::{Mode, ParkFault, Policy, PoolName};
use lb_wire::{CacheId, Kept, Lane, Octets, Origin, RuleId, ServerId};
use std::alloc::{AllocError, Global};
use thiserror::Error;

/// The answer to one event.
#[derive(Debug, Drop)]
pub enum Answer {
    /// Nothing is sent.
    Dropped(DropReason),
    /// The balancer answers the query by itself, with these octets.
    Local(Octets, LocalReason),
    /// The query is sent to this server, by this upstream socket, under this ID, in these octets.
    Forward(ServerId, Lane, u16, Octets),
    /// The reply goes to the client that asked, in these octets; whether it is kept in a cache.
    Deliver(Origin, Octets, Kept),
    /// The query was given up: the client that asked gets ServFail, in these octets.
    Expired(Origin, Octets),
    /// Nothing is to be reported.
    Quiet,
    /// The reply or the health result is of no use, and changes nothing.
    Ignored(IgnoreReason),
    /// The command was carried out, or a server changed.
    Edited(Note),
    /// The command was refused, and nothing but the moment changed.
    Refused(EditFault),
    /// Memory was lacking for a query: its answer is ServFail, in these octets, and nothing but the moment changed.
    NoMemory(Octets),
}

impl Answer {
    /// An equal answer. The one error is lack of memory.
    pub fn copy(&self, alloc: Global) -> Result<Answer, AllocError>
        ensures { IfOk result (λ copy. copy ≡ self.now) }
    {
        Ok(match self {
            Answer::Dropped(why) => Answer::Dropped(*why),
            Answer::Local(bytes, why) => Answer::Local(bytes.copy(alloc)?, *why),
            Answer::Forward(server, lane, id, bytes) => {
                Answer::Forward(*server, *lane, *id, bytes.copy(alloc)?)
            }
            Answer::Deliver(origin, bytes, kept) => {
                Answer::Deliver(*origin, bytes.copy(alloc)?, *kept)
            }
            Answer::Expired(origin, bytes) => Answer::Expired(*origin, bytes.copy(alloc)?),
            Answer::Quiet => Answer::Quiet,
            Answer::Ignored(why) => Answer::Ignored(*why),
            Answer::Edited(note) => Answer::Edited(note.copy()),
            Answer::Refused(fault) => Answer::Refused(*fault),
            Answer::NoMemory(bytes) => Answer::NoMemory(bytes.copy(alloc)?),
        })
    }

    /// An equal answer where a copy was refused: its octets in room that was taken before, of which the rest is given back. It
    /// takes no memory.
    pub fn copy_into(&self, room: Vec<u8>, refused: AllocError) -> Answer
        requires empty { vec_len room ≡ 0 }
        requires wide { max_message ≤ vec_capacity room }
        ensures { result ≡ self.now }
    {
        match self {
            Answer::Dropped(why) => Answer::Dropped(*why),
            Answer::Local(bytes, why) => Answer::Local(bytes.copy_into(room, refused), *why),
            Answer::Forward(server, lane, id, bytes) => {
                Answer::Forward(*server, *lane, *id, bytes.copy_into(room, refused))
            }
            Answer::Deliver(origin, bytes, kept) => {
                Answer::Deliver(*origin, bytes.copy_into(room, refused), *kept)
            }
            Answer::Expired(origin, bytes) => Answer::Expired(
                *origin,
                bytes.copy_into(room, refused),
            ),
            Answer::Quiet => Answer::Quiet,
            Answer::Ignored(why) => Answer::Ignored(*why),
            Answer::Edited(note) => Answer::Edited(note.copy()),
            Answer::Refused(fault) => Answer::Refused(*fault),
            Answer::NoMemory(bytes) => Answer::NoMemory(bytes.copy_into(room, refused)),
        }
    }

    /// Whether two answers are equal.
    pub fn equals(&self, other: &Answer) -> bool
        ensures equal { IsTrue result → self.now ≡ other.now }
        ensures found { self.now ≡ other.now → IsTrue result }
    {
        match (self, other) {
            (Answer::Dropped(why), Answer::Dropped(other)) => why == other,
            (Answer::Local(bytes, why), Answer::Local(others, other)) => {
                bytes.equals(others) && why == other
            }
            (Answer::Forward(server, lane, id, bytes), Answer::Forward(to, by, under, others)) => {
                server == to && lane == by && id == under && bytes.equals(others)
            }
            (Answer::Deliver(origin, bytes, kept), Answer::Deliver(to, others, other)) => {
                origin == to && bytes.equals(others) && kept == other
            }
            (Answer::Expired(origin, bytes), Answer::Expired(to, others)) => {
                origin == to && bytes.equals(others)
            }
            (Answer::Quiet, Answer::Quiet) => true,
            (Answer::Ignored(why), Answer::Ignored(other)) => why == other,
            (Answer::Edited(note), Answer::Edited(other)) => note.equals(other),
            (Answer::Refused(fault), Answer::Refused(other)) => fault == other,
            (Answer::NoMemory(bytes), Answer::NoMemory(others)) => bytes.equals(others),
            _ => false,
        }
    }
}

/// Why a query is dropped.
#[derive(Clone, Copy, Debug, PartialEq, Eq)]
pub enum DropReason {
    /// It has fewer than 12 octets.
    Short,
    /// It is a response.
    NotQuery,
    /// The rule with this number says so.
    Rule(RuleId),
}

/// Why the balancer answers a query by itself.
#[derive(Clone, Copy, Debug, PartialEq, Eq)]
pub enum LocalReason {
    /// It has not the layout of a query.
    Malformed,
    /// It asks for a zone transfer.
    Transfer,
    /// The rule with this number says so.
    Rule(RuleId),
    /// A reply that its pool's cache keeps answers it.
    Hit,
    /// No server of its pool is up.
    NoServer,
    /// Each ID of the server's lane is in use.
    LaneFull,
}

/// Why a reply, or a health result, is ignored.
#[derive(Clone, Copy, Debug, PartialEq, Eq)]
pub enum IgnoreReason {
    /// It has fewer than 12 octets.
    Short,
    /// It is a query.
    NotReply,
    /// No query was sent to this server by this lane with this ID, or it has ended.
    Unknown,
    /// It does not belong to the query that was sent so.
    Mismatch,
    /// No server has the number of a health result.
    NoServer,
}

/// What a command did, or a health result.
#[derive(Debug, Drop)]
pub enum Note {
    /// The rule was added under this number.
    RuleAdded(RuleId),
    /// The rule with this number was removed.
    RuleRemoved(RuleId),
    /// The rule with this number was moved.
    RuleMoved(RuleId),
    /// The server was added under this number.
    ServerAdded(ServerId),
    /// The server with this number was removed.
    ServerRemoved(ServerId),
    /// The server with this number was put into this mode.
    ServerMode(ServerId, Mode),
    /// The pool with this name was added.
    PoolAdded(PoolName),
    /// The pool with this name was given this policy.
    PoolPolicy(PoolName, Policy),
    /// The cache was attached under this number.
    CacheAttached(CacheId),
    /// The cache with this number was taken off its pool.
    CacheDetached(CacheId),
    /// So many kept replies were expunged, dead ones included.
    Expunged(usize),
    /// The queries sent from now on wait so long.
    TimeoutSet(Timeout),
    /// So much there is of each part.
    Shown(Totals),
    /// The health of the server with this number brought it up.
    ServerUp(ServerId),
    /// The health of the server with this number took it down.
    ServerDown(ServerId),
}

impl Note {
    /// An equal note. It takes no memory.
    pub fn copy(&self) -> Note
        ensures { result ≡ self.now }
    {
        match self {
            Note::RuleAdded(id) => Note::RuleAdded(*id),
            Note::RuleRemoved(id) => Note::RuleRemoved(*id),
            Note::RuleMoved(id) => Note::RuleMoved(*id),
            Note::ServerAdded(id) => Note::ServerAdded(*id),
            Note::ServerRemoved(id) => Note::ServerRemoved(*id),
            Note::ServerMode(id, mode) => Note::ServerMode(*id, *mode),
            Note::PoolAdded(name) => Note::PoolAdded(name.copy()),
            Note::PoolPolicy(name, policy) => Note::PoolPolicy(name.copy(), *policy),
            Note::CacheAttached(id) => Note::CacheAttached(*id),
            Note::CacheDetached(id) => Note::CacheDetached(*id),
            Note::Expunged(count) => Note::Expunged(*count),
            Note::TimeoutSet(timeout) => Note::TimeoutSet(*timeout),
            Note::Shown(totals) => Note::Shown(*totals),
            Note::ServerUp(id) => Note::ServerUp(*id),
            Note::ServerDown(id) => Note::ServerDown(*id),
        }
    }

    /// Whether two notes are equal.
    pub fn equals(&self, other: &Note) -> bool
        ensures equal { IsTrue result → self.now ≡ other.now }
        ensures found { self.now ≡ other.now → IsTrue result }
    {
        match (self, other) {
            (Note::RuleAdded(id), Note::RuleAdded(other)) => id == other,
            (Note::RuleRemoved(id), Note::RuleRemoved(other)) => id == other,
            (Note::RuleMoved(id), Note::RuleMoved(other)) => id == other,
            (Note::ServerAdded(id), Note::ServerAdded(other)) => id == other,
            (Note::ServerRemoved(id), Note::ServerRemoved(other)) => id == other,
            (Note::ServerMode(id, mode), Note::ServerMode(other, to)) => id == other && mode == to,
            (Note::PoolAdded(name), Note::PoolAdded(other)) => name.equals(other),
            (Note::PoolPolicy(name, policy), Note::PoolPolicy(other, to)) => {
                name.equals(other) && policy == to
            }
            (Note::CacheAttached(id), Note::CacheAttached(other)) => id == other,
            (Note::CacheDetached(id), Note::CacheDetached(other)) => id == other,
            (Note::Expunged(count), Note::Expunged(other)) => count == other,
            (Note::TimeoutSet(timeout), Note::TimeoutSet(other)) => timeout == other,
            (Note::Shown(totals), Note::Shown(other)) => totals == other,
            (Note::ServerUp(id), Note::ServerUp(other)) => id == other,
            (Note::ServerDown(id), Note::ServerDown(other)) => id == other,
            _ => false,
        }
    }
}

/// How much there is of each part.
#[derive(Clone, Copy, Debug, PartialEq, Eq)]
pub struct Totals {
    pub rules: usize,
    pub servers: usize,
    pub pools: usize,
    pub caches: usize,
    pub outstanding: usize,
    /// The kept replies of all attached caches, dead ones that are still held included.
    pub kept: u128,
}

/// Why a command is refused.
#[derive(Clone, Copy, Debug, PartialEq, Eq, Error)]
pub enum EditFault {
    /// By the list of rules.
    #[error("rules: {0}")]
    Rules(ChainFault),
    /// By the table of servers and pools.
    #[error("servers: {0}")]
    Servers(ParkFault),
    /// The pool has no cache.
    #[error("cache: NoCache")]
    NoCache,
}
