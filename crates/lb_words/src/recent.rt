//! The last queries that ended: which of them a line asks for, and how they are listed.

use crate::lines::Lines;
use crate::lists::{ANSWERS, protocol_word};
use crate::texts::push_number;
use crate::told::Told;
use crate::typed::{next_word, number_of};
use lb_command::{CommandFault, FaultKind, Listener};
use lb_core::Count;
use lb_masks::Mask;
use lb_name::Name;
use lb_recent::{Question, Record, Rings};
use lb_servers::Ident;
use lb_typed::{addr_word, type_word};
use lb_wire::{RuleId, ServerId};
use std::alloc::{AllocError, Global};
use std::sync::Wait;

/// How many are listed if no number is given.
const SHOWN: usize = 10;

/// Which queries are asked for.
#[derive(Debug, Drop)]
pub(crate) enum Filter {
    All,
    /// Those that were dropped.
    Dropped,
    /// Those that a rule dropped or answered.
    Rule(RuleId),
    /// Those that were sent to a server; none if no server has the name.
    Server(Option<ServerId>),
    /// Those of clients under a mask.
    From(Mask),
    /// Those for a name or for one below it.
    Under(Name),
}

impl Filter {
    /// Whether a query is asked for.
    pub(crate) fn takes(&self, record: &Record) -> bool {
        match self {
            Filter::All => true,
            Filter::Dropped => is_drop(record.why),
            Filter::Rule(rule) => record.rule == Some(*rule),
            Filter::Server(server) => server.is_some() && record.server == *server,
            Filter::From(mask) => mask.covers(&record.source),
            Filter::Under(name) => is_under(record.question.as_ref(), name),
        }
    }
}

fn is_drop(why: Count) -> bool {
    matches!(why, Count::Short | Count::NotQuery | Count::RuleDropped)
}

/// Whether the name of a question is this one or below it. A name of which labels had no room is
/// below what they end with.
fn is_under(question: Option<&Question>, name: &Name) -> bool {
    let Some(question) = question else {
        return false;
    };
    match Name::read(question.labels(), 0) {
        Ok((asked, _)) => asked.is_under(name),
        Err(_) => false,
    }
}

/// How many queries are asked for, and which.
#[derive(Debug, Drop)]
pub(crate) struct Wanted {
    pub(crate) most: usize,
    pub(crate) filter: Filter,
}

impl Wanted {
    /// Those that are asked for by the word alone.
    pub(crate) fn usual() -> Wanted {
        Wanted {
            most: SHOWN,
            filter: Filter::All,
        }
    }

    /// Those that a line asks for from a place on.
    pub(crate) fn read(line: &str, from: usize, told: &Told) -> Result<Wanted, CommandFault> {
        let (most, from) = most(line.as_bytes(), from)?;
        let (filter, from) = which(line, from, told)?;
        let (begin, end) = next_word(line.as_bytes(), from);
        if begin != end {
            return Err(fault(begin, FaultKind::Extra));
        }
        Ok(Wanted { most, filter })
    }
}

/// How many are asked for, and where the next word may begin.
fn most(bytes: &[u8], from: usize) -> Result<(usize, usize), CommandFault> {
    let (begin, end) = next_word(bytes, from);
    let word = bytes.get(begin..end).unwrap_or_default();
    let begins_with_digit = word.iter().take(1).any(|byte| byte.is_ascii_digit());
    if !begins_with_digit {
        return Ok((SHOWN, from));
    }
    match number_of(word) {
        Some(number) => Ok((usize::try_from(number).unwrap_or(usize::MAX), end)),
        None => Err(fault(begin, FaultKind::BadNumber)),
    }
}

/// Which are asked for, and where the next word may begin.
fn which(line: &str, from: usize, told: &Told) -> Result<(Filter, usize), CommandFault> {
    let (begin, end) = next_word(line.as_bytes(), from);
    let word = line.get(begin..end).unwrap_or_default();
    if word.is_empty() {
        return Ok((Filter::All, from));
    }
    if word == "dropped" {
        return Ok((Filter::Dropped, end));
    }
    let Some(by) = FilterWord::named(word) else {
        return Err(fault(begin, FaultKind::UnknownWord));
    };
    let (at, last) = next_word(line.as_bytes(), end);
    if at == last {
        return Err(fault(at, FaultKind::Missing));
    }
    let value = line.get(at..last).unwrap_or_default();
    match by.of(value, told) {
        Ok(filter) => Ok((filter, last)),
        Err(kind) => Err(fault(at, kind)),
    }
}

/// The word that begins a filter.
#[derive(Clone, Copy, Debug)]
enum FilterWord {
    Rule,
    Server,
    From,
    Under,
}

impl FilterWord {
    /// The one that is spelled so.
    fn named(word: &str) -> Option<FilterWord> {
        Some(if word == "rule" {
            FilterWord::Rule
        } else if word == "server" {
            FilterWord::Server
        } else if word == "from" {
            FilterWord::From
        } else if word == "under" {
            FilterWord::Under
        } else {
            return None;
        })
    }

    /// The filter by a value.
    fn of(self, value: &str, told: &Told) -> Result<Filter, FaultKind> {
        match self {
            FilterWord::Rule => match number_of(value.as_bytes()) {
                Some(id) => Ok(Filter::Rule(RuleId(id))),
                None => Err(FaultKind::BadNumber),
            },
            FilterWord::Server => match Ident::parse(value) {
                Some(name) => Ok(Filter::Server(server_named(told, &name))),
                None => Err(FaultKind::BadName),
            },
            FilterWord::From => match Mask::parse(value) {
                Ok(mask) => Ok(Filter::From(mask)),
                Err(_) => Err(FaultKind::BadAddress),
            },
            FilterWord::Under => match Name::parse_text(value) {
                Ok(name) => Ok(Filter::Under(name)),
                Err(_) => Err(FaultKind::BadName),
            },
        }
    }
}

fn server_named(told: &Told, name: &Ident) -> Option<ServerId> {
    for backend in &told.servers {
        if backend.loaded.server.name.equals(name) {
            return Some(backend.loaded.server.id);
        }
    }
    None
}

pub(crate) fn fault(place: usize, kind: FaultKind) -> CommandFault {
    CommandFault { place, kind }
}

/// What a line about a query takes its words from: what the desk says, the listen lines, and the
/// moment, in milliseconds.
#[derive(Clone, Copy, Debug)]
pub(crate) struct Wording<'a> {
    pub(crate) told: &'a Told,
    pub(crate) listeners: &'a [Listener],
    pub(crate) now: u64,
}

/// The last queries that are asked for, the newest last.
pub(crate) fn recent<R: Wait>(
    rt: &R,
    alloc: Global,
    rings: &Rings,
    wanted: &Wanted,
    wording: Wording<'_>,
) -> Result<String, AllocError> {
    let mut lines = Lines::new(alloc);
    if rings.room() == 0 {
        lines.add(OFF)?;
        return lines.ended();
    }
    let found = rings.newest(rt, alloc, wanted.most, |record| wanted.filter.takes(record))?;
    for (_, record) in found.iter().rev() {
        let line = record_line(alloc, record, wording)?;
        lines.add(line.as_str())?;
    }
    lines.ended()
}

/// What is said where nothing is noted.
pub(crate) const OFF: &str = "# no query is noted: LB_RECENT is not set";

/// The line of a query.
fn record_line(alloc: Global, record: &Record, wording: Wording<'_>) -> Result<String, AllocError> {
    let mut line = client_text(alloc, record, wording)?;
    push_question(alloc, &mut line, record.question.as_ref())?;
    push_answer(alloc, &mut line, record)?;
    if let Some(server) = record.server {
        push_server(alloc, &mut line, wording.told, server)?;
        line.push_str(" took ")?;
        push_number(alloc, &mut line, record.took)?;
    }
    Ok(line)
}

/// When a query ended, and whose it was.
fn client_text(alloc: Global, record: &Record, wording: Wording<'_>) -> Result<String, AllocError> {
    let at = record.at;
    let ago = wording.now.saturating_sub(at);
    let addr = addr_word(alloc, &record.source)?;
    let port = record.port;
    let protocol = match wording.listeners.get(usize::from(record.front)) {
        Some(listener) => protocol_word(listener.protocol),
        None => "?",
    };
    format!(in alloc; "query at {at} ago {ago} from {addr} {port} by {protocol}")
}

/// Puts what a query asked after a text.
fn push_question(
    alloc: Global,
    line: &mut String,
    question: Option<&Question>,
) -> Result<(), AllocError> {
    let Some(question) = question else {
        return line.push_str(" name - type -");
    };
    line.push_str(" name ")?;
    push_labels(alloc, line, question)?;
    line.push_str(" type ")?;
    line.push_str(type_word(alloc, question.qtype())?.as_str())
}

/// Puts what a query was answered with after a text, with the rule that dropped or answered it.
fn push_answer(alloc: Global, line: &mut String, record: &Record) -> Result<(), AllocError> {
    line.push_str(" answer ")?;
    line.push_str(answer_word(record.why))?;
    let Some(rule) = record.rule else {
        return Ok(());
    };
    line.push_str(" rule ")?;
    push_number(alloc, line, rule.0)
}

/// The name of an answer's reason, as `counters` has it.
fn answer_word(why: Count) -> &'static str {
    for (count, name) in ANSWERS {
        if count == why {
            return name;
        }
    }
    "?"
}

/// Puts the name of a server after a text; the number of one that is gone.
fn push_server(
    alloc: Global,
    text: &mut String,
    told: &Told,
    server: ServerId,
) -> Result<(), AllocError> {
    text.push_str(" server ")?;
    for backend in &told.servers {
        if backend.loaded.server.id == server {
            return text.push_str(backend.loaded.server.name.as_str());
        }
    }
    push_number(alloc, text, server.0)
}

/// Puts the name of a question after a text, without the dot at its end: the root is a dot, and two
/// dots stand for labels that had no room. An octet that is no printable ASCII, a dot or a
/// backslash is a backslash and three digits (RFC 1035 section 5.1).
pub(crate) fn push_labels(
    alloc: Global,
    text: &mut String,
    question: &Question,
) -> Result<(), AllocError> {
    if question.is_cut() {
        text.push_str("..")?;
    }
    let labels = question.labels();
    let mut next = 0usize;
    for (place, octet) in labels.iter().enumerate() {
        if place == next {
            next = place.saturating_add(usize::from(*octet)).saturating_add(1);
            if place > 0 && *octet != 0 {
                text.push_str(".")?;
            }
            if place == 0 && *octet == 0 {
                text.push_str(".")?;
            }
        } else {
            push_octet(alloc, text, *octet)?;
        }
    }
    Ok(())
}

fn push_octet(alloc: Global, text: &mut String, octet: u8) -> Result<(), AllocError> {
    if octet.is_ascii_graphic() && octet != b'.' && octet != b'\\' {
        return text.push(char::from(octet));
    }
    let digits = format!(in alloc; "\\{octet:03}")?;
    text.push_str(digits.as_str())
}
