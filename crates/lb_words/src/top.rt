//! What the last queries have most often: clients, names or rules.

use crate::lines::Lines;
use crate::recent::{OFF, Wanted, push_labels};
use crate::texts::push_number;
use lb_recent::{Question, Record, Rings};
use lb_typed::addr_word;
use lb_wire::{Addr, RuleId};
use std::alloc::{AllocError, Global};
use std::cmp::Ordering;
use std::sync::Wait;

/// What is counted.
#[derive(Clone, Copy, Debug, PartialEq, Eq)]
pub(crate) enum By {
    Sources,
    Names,
    Rules,
}

impl By {
    /// The one that is spelled so.
    pub(crate) fn named(word: &str) -> Option<By> {
        Some(if word == "sources" {
            By::Sources
        } else if word == "names" {
            By::Names
        } else if word == "rules" {
            By::Rules
        } else {
            return None;
        })
    }

    /// What a query has of it.
    fn key(self, record: &Record) -> Option<Key> {
        Some(match self {
            By::Sources => Key::Source(record.source),
            By::Names => Key::Name(record.question?.lower()),
            By::Rules => Key::Rule(record.rule?),
        })
    }
}

/// What several queries may have in common.
#[derive(Clone, Copy, Debug)]
enum Key {
    Source(Addr),
    /// A question, of which the name counts.
    Name(Question),
    Rule(RuleId),
}

impl Key {
    fn order(&self, other: &Key) -> Ordering {
        match (self, other) {
            (Key::Source(one), Key::Source(other)) => octets_of(one).cmp(octets_of(other)),
            (Key::Name(one), Key::Name(other)) => one
                .labels()
                .cmp(other.labels())
                .then(one.is_cut().cmp(&other.is_cut())),
            (Key::Rule(one), Key::Rule(other)) => one.0.cmp(&other.0),
            _ => Ordering::Equal,
        }
    }
}

fn octets_of(addr: &Addr) -> &[u8] {
    match addr {
        Addr::V4(octets) => octets.as_slice(),
        Addr::V6(octets) => octets.as_slice(),
    }
}

/// What the last queries that are asked for have most often, as many as are asked for, with their
/// count and their share of all that the filter takes.
pub(crate) fn top<R: Wait>(
    rt: &R,
    alloc: Global,
    rings: &Rings,
    by: By,
    wanted: &Wanted,
) -> Result<String, AllocError> {
    let mut lines = Lines::new(alloc);
    if rings.room() == 0 {
        lines.add(OFF)?;
        return lines.ended();
    }
    let all = rings.room() as usize;
    let found = rings.newest(rt, alloc, all, |record| wanted.filter.takes(record))?;
    let counted = counted(alloc, by, found.as_slice())?;
    for (key, count) in counted.iter().take(wanted.most) {
        let line = key_line(alloc, key, *count, found.len())?;
        lines.add(line.as_str())?;
    }
    lines.ended()
}

/// Each key and how many queries have it, the most frequent first; of those with one count, in the
/// order of the keys.
fn counted(
    alloc: Global,
    by: By,
    found: &[(u64, Record)],
) -> Result<Vec<(Key, usize)>, AllocError> {
    let mut keys = Vec::with_capacity(alloc, found.len())?;
    for (_, record) in found {
        if let Some(key) = by.key(record) {
            keys.push(key)?;
        }
    }
    keys.sort_unstable_by(|one, other| one.order(other));
    let mut counted: Vec<(Key, usize)> = Vec::new(alloc);
    for key in keys.iter() {
        let is_counted = match counted.last_mut() {
            Some(last) => has_risen(last, key),
            None => false,
        };
        if !is_counted {
            counted.push((*key, 1))?;
        }
    }
    counted.sort_by(|one, other| other.1.cmp(&one.1))?;
    Ok(counted)
}

/// Counts a query that has this key. Whether it has it.
fn has_risen(counted: &mut (Key, usize), key: &Key) -> bool {
    if counted.0.order(key) != Ordering::Equal {
        return false;
    }
    counted.1 = counted.1.saturating_add(1);
    true
}

fn key_line(alloc: Global, key: &Key, count: usize, all: usize) -> Result<String, AllocError> {
    let mut line = String::new(alloc);
    match key {
        Key::Source(addr) => {
            line.push_str("source ")?;
            line.push_str(addr_word(alloc, addr)?.as_str())?;
        }
        Key::Name(question) => {
            line.push_str("name ")?;
            push_labels(alloc, &mut line, question)?;
        }
        Key::Rule(rule) => {
            line.push_str("rule ")?;
            push_number(alloc, &mut line, rule.0)?;
        }
    }
    let share = count.saturating_mul(1_000).checked_div(all).unwrap_or(0);
    let (whole, tenth) = (share / 10, share % 10);
    let end = format!(in alloc; " count {count} share {whole}.{tenth}%")?;
    line.push_str(end.as_str())?;
    Ok(line)
}
