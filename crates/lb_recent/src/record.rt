//! What is noted of a query that ended.

use crate::question::Question;
use lb_core::{Answer, Count, DropReason, Event, LocalReason, Noted};
use lb_wire::{Addr, Origin, RuleId, ServerId};

/// A query that ended.
#[derive(Clone, Copy, Debug, PartialEq, Eq)]
pub struct Record {
    /// When it ended, in milliseconds, as its event says.
    pub at: u64,
    /// The client that asked, and the place of the listener that took the query.
    pub source: Addr,
    pub port: u16,
    pub front: u8,
    /// What was asked; none if it can't be read.
    pub question: Option<Question>,
    /// What was answered, and why.
    pub why: Count,
    /// The rule that dropped or answered it.
    pub rule: Option<RuleId>,
    /// The server that it was sent to.
    pub server: Option<ServerId>,
    /// How long it took, in milliseconds: 0 if it was sent to no server.
    pub took: u64,
}

/// What is known of an event before it is answered.
#[derive(Clone, Copy, Debug, PartialEq, Eq)]
pub struct Before {
    now: u64,
    asked: Option<(Origin, Option<Question>)>,
}

impl Before {
    /// That of an event.
    pub fn of(event: &Event) -> Before {
        Before {
            now: event.now(),
            asked: match event {
                Event::Query { origin, bytes, .. } => Some((
                    *origin,
                    Question::of(bytes.as_slice()),
                )),
                _ => None,
            },
        }
    }

    /// The query that ended, if this answer ends one.
    pub fn ended(&self, answer: &Answer, noted: &Noted) -> Option<Record> {
        let (origin, question) = match answer {
            Answer::Dropped(_) | Answer::Local(..) | Answer::NoMemory(_) => self.asked?,
            Answer::Deliver(origin, bytes, _) | Answer::Expired(origin, bytes) => {
                (*origin, Question::of(bytes.as_slice()))
            }
            _ => return None,
        };
        let (server, took) = match noted.served {
            Some(served) => (Some(served.server), self.now.saturating_sub(served.began)),
            None => (None, 0),
        };
        Some(Record {
            at: self.now,
            source: origin.source,
            port: origin.port,
            front: origin.front,
            question,
            why: Count::of_answer(answer),
            rule: rule_named(answer),
            server,
            took,
        })
    }
}

/// The rule that an answer names.
fn rule_named(answer: &Answer) -> Option<RuleId> {
    match answer {
        Answer::Dropped(DropReason::Rule(rule)) | Answer::Local(_, LocalReason::Rule(rule)) => Some(
            *rule,
        ),
        _ => None,
    }
}
