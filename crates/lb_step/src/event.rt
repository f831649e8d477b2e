//! What the balancer is given.

ghost use Rattle.std.specs.Prelude.{◌≡◌, IfOk, IsTrue};
ghost use Rattle.lb_step.specs.Reading.{moment_of};
ghost use Rattle.lb_step.specs.declared.event.Event.TheVariants.{Edit, HealthResult, Query, Reply};

use crate::boxed::BoxedCommand;
use lb_wire::{Kind, Lane, Octets, Origin, ServerId};
use std::alloc::{AllocError, Global};

/// One event. Moments are in milliseconds, from any start; the balancer's moment is the latest that it was given.
#[derive(Debug, Drop)]
pub enum Event {
    /// A query came in.
    Query {
        now: u64,
        origin: Origin,
        kind: Kind,
        /// A random word: the ID that it is sent with is the first free one from there on.
        word: u16,
        /// The message, at most 65,535 octets.
        bytes: Octets,
    },
    /// A reply came in from a server.
    Reply {
        now: u64,
        server: ServerId,
        /// The upstream socket that it came by.
        lane: Lane,
        /// The message, at most 65,535 octets.
        bytes: Octets,
    },
    /// Time has passed: one query that is given up by now is ended.
    Tick {
        now: u64,
    },
    /// A probe of a server was answered as it should be, or failed.
    HealthResult {
        now: u64,
        server: ServerId,
        ok: bool,
    },
    /// An operator's command.
    Edit {
        now: u64,
        command: BoxedCommand,
    },
}

impl Event {
    /// The moment of the event, in milliseconds.
    pub fn now(&self) -> u64
        ensures { result ≡ moment_of self.now }
    {
        match self {
            Event::Query { now, .. }
            | Event::Reply { now, .. }
            | Event::Tick { now }
            | Event::HealthResult { now, .. }
            | Event::Edit { now, .. } => *now,
        }
    }

    /// An equal event. The one error is lack of memory.
    pub fn copy(&self, alloc: Global) -> Result<Event, AllocError>
        ensures { IfOk result (λ copy. copy ≡ self.now) }
    {
        Ok(match self {
            Event::Query {
                now,
                origin,
                kind,
                word,
                bytes,
            } => Event::Query {
                now: *now,
                origin: *origin,
                kind: *kind,
                word: *word,
                bytes: bytes.copy(alloc)?,
            },
            Event::Reply {
                now,
                server,
                lane,
                bytes,
            } => Event::Reply {
                now: *now,
                server: *server,
                lane: *lane,
                bytes: bytes.copy(alloc)?,
            },
            Event::Tick { now } => Event::Tick { now: *now },
            Event::HealthResult { now, server, ok } => Event::HealthResult {
                now: *now,
                server: *server,
                ok: *ok,
            },
            Event::Edit { now, command } => Event::Edit {
                now: *now,
                command: command.copy(alloc)?,
            },
        })
    }

    /// Whether two events are equal.
    pub fn equals(&self, other: &Event) -> bool
        ensures equal { IsTrue result → self.now ≡ other.now }
        ensures found { self.now ≡ other.now → IsTrue result }
    {
        match self {
            Event::Query {
                now,
                origin,
                kind,
                word,
                bytes,
            } => other.is_query(*now, *origin, *kind, *word, bytes),
            Event::Reply {
                now,
                server,
                lane,
                bytes,
            } => other.is_reply(*now, *server, *lane, bytes),
            Event::Tick { now } => matches!(other, Event::Tick { now: then } if now == then),
            Event::HealthResult { now, server, ok } => other.is_result(*now, *server, *ok),
            Event::Edit { now, command } => other.is_edit(*now, command),
        }
    }

    /// Whether it is this query.
    fn is_query(&self, now: u64, origin: Origin, kind: Kind, word: u16, bytes: &Octets) -> bool
        ensures equal { IsTrue result → self.now ≡ Query now origin kind word bytes.now }
        ensures found { self.now ≡ Query now origin kind word bytes.now → IsTrue result }
    {
        match self {
            Event::Query {
                now: then,
                origin: from,
                kind: by,
                word: other,
                bytes: others,
            } => {
                now == *then
                    && origin == *from
                    && kind == *by
                    && word == *other
                    && bytes.equals(others)
            }
            _ => false,
        }
    }

    /// Whether it is this reply.
    fn is_reply(&self, now: u64, server: ServerId, lane: Lane, bytes: &Octets) -> bool
        ensures equal { IsTrue result → self.now ≡ Reply now server lane bytes.now }
        ensures found { self.now ≡ Reply now server lane bytes.now → IsTrue result }
    {
        match self {
            Event::Reply {
                now: then,
                server: from,
                lane: by,
                bytes: others,
            } => now == *then && server == *from && lane == *by && bytes.equals(others),
            _ => false,
        }
    }

    /// Whether it is this result of a probe.
    fn is_result(&self, now: u64, server: ServerId, ok: bool) -> bool
        ensures equal { IsTrue result → self.now ≡ HealthResult now server ok }
        ensures found { self.now ≡ HealthResult now server ok → IsTrue result }
    {
        match self {
            Event::HealthResult {
                now: then,
                server: from,
                ok: other,
            } => now == *then && server == *from && ok == *other,
            _ => false,
        }
    }

    /// Whether it is this command.
    fn is_edit(&self, now: u64, command: &BoxedCommand) -> bool
        ensures equal { IsTrue result → self.now ≡ Edit now command.now }
        ensures found { self.now ≡ Edit now command.now → IsTrue result }
    {
        match self {
            Event::Edit {
                now: then,
                command: other,
            } => now == *then && command.equals(other),
            _ => false,
        }
    }
}
