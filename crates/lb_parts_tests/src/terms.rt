//! Terms: what no line of a replay says of them, faults that the reader of lines comes before, and
//! copies. rows/ has what lines say.

use super::rows::held;
use Op::{All, Alls, And, Masks, Nets, Nothing, Nots, Or, Rate, Suffix, Suffixes};
use lb_masks::{Group, Mask};
use lb_name::Name;
use lb_terms::{CheckedTerm, Names, Term, TermFault};
use lb_wire::RecordType;
use std::alloc::{AllocError, Global};
use std::test::Fail;

/// A word of a term: a term, or what is made of the last one or the last two.
#[derive(Clone, Copy)]
pub(super) enum Op {
    All,
    /// The names under this one.
    Suffix(&'static str),
    /// The same name so many times.
    Suffixes(usize),
    /// The names under xN.example for each N from the first number to the last.
    Numbered(u32, u32),
    /// The addresses under this mask, and under none.
    Masks(&'static str),
    Nets,
    /// The addresses under 10.1.0.0/16, 2001:db8:2::/48, 10.3.0.0/16 and so on to this number.
    Blocks(u32),
    Qtype(RecordType),
    /// So many queries a second of addresses with so many first bits in common.
    Rate(u16, u8, u8),
    /// An And of so many terms that hold of every query, and an Or of none.
    Alls(usize),
    Nothing,
    And,
    Or,
    Not,
    /// So many Nots round the last one.
    Nots(usize),
}

/// A rate of 1 query a second of an address.
pub(super) const ONE_QPS: Op = Rate(1, 32, 128);

fn suffixes(alloc: Global, text: &str, count: usize) -> Result<Term, Fail> {
    let name = Name::parse_text(text)?;
    let mut names = Names::new(alloc);
    for _ in 0..count {
        names.push(&name)?;
    }
    Ok(Term::Suffix(names))
}

fn numbered(alloc: Global, first: u32, last: u32) -> Result<Term, Fail> {
    let mut names = Names::new(alloc);
    for number in first..=last {
        let text = format!(in alloc; "x{number}.example")?;
        names.push(&Name::parse_text(&text)?)?;
    }
    Ok(Term::Suffix(names))
}

/// The mask with a number: of IPv4 for an odd one, and of IPv6 for an even one.
fn block(alloc: Global, number: u32) -> Result<Mask, Fail> {
    let text = if number % 2 == 1 {
        format!(in alloc; "10.{number}.0.0/16")?
    } else {
        format!(in alloc; "2001:db8:{number}::/48")?
    };
    Ok(Mask::parse(&text)?)
}

fn blocks(alloc: Global, last: u32) -> Result<Term, Fail> {
    let mut masks = Vec::new(alloc);
    for number in 1..=last {
        masks.push(block(alloc, number)?)?;
    }
    Ok(Term::Masks(Group::from_vec(masks)))
}

fn masks(alloc: Global, text: &str) -> Result<Term, Fail> {
    let mut masks = Vec::new(alloc);
    masks.push(Mask::parse(text)?)?;
    Ok(Term::Masks(Group::from_vec(masks)))
}

fn alls(alloc: Global, count: usize) -> Result<Term, Fail> {
    let mut terms = Vec::new(alloc);
    for _ in 0..count {
        terms.push(Term::All)?;
    }
    Ok(Term::And(terms))
}

/// The term of a word that takes no other.
fn leaf(alloc: Global, op: Op) -> Result<Term, Fail> {
    match op {
        Op::Suffix(text) => suffixes(alloc, text, 1),
        Op::Suffixes(count) => suffixes(alloc, "example.com", count),
        Op::Numbered(first, last) => numbered(alloc, first, last),
        Op::Blocks(last) => blocks(alloc, last),
        Op::Masks(text) => masks(alloc, text),
        Op::Nets => Ok(Term::Masks(Group::from_vec(Vec::new(alloc)))),
        Op::Qtype(qtype) => Ok(Term::Qtype(qtype)),
        Op::Rate(qps, v4, v6) => Ok(Term::MaxQps(qps, v4, v6)),
        Op::Alls(count) => alls(alloc, count),
        Op::Nothing => Ok(Term::Or(Vec::new(alloc))),
        _ => Ok(Term::All),
    }
}

/// The last two terms, in order.
fn last_two(alloc: Global, terms: &mut Vec<Term>) -> Result<Vec<Term>, Fail> {
    let mut two = Vec::with_capacity(alloc, 2)?;
    let second = terms.pop().ok_or("no term")?;
    two.push(terms.pop().ok_or("no second term")?)?;
    two.push(second)?;
    Ok(two)
}

/// So many Nots round a term.
fn nots(alloc: Global, count: usize, inner: Term) -> Result<Term, AllocError> {
    let mut term = inner;
    for _ in 0..count {
        term = Term::Not(Box::new(alloc, term).map_err(AllocError::from)?);
    }
    Ok(term)
}

/// What a word makes of the terms so far.
fn made(alloc: Global, terms: &mut Vec<Term>, op: Op) -> Result<Term, Fail> {
    match op {
        Op::And => Ok(Term::And(last_two(alloc, terms)?)),
        Op::Or => Ok(Term::Or(last_two(alloc, terms)?)),
        Op::Not => Ok(nots(alloc, 1, terms.pop().ok_or("no term")?)?),
        Op::Nots(count) => Ok(nots(alloc, count, terms.pop().ok_or("no term")?)?),
        _ => leaf(alloc, op),
    }
}

/// The term that words make.
fn term(alloc: Global, ops: &[Op]) -> Result<Term, Fail> {
    let mut terms = Vec::new(alloc);
    for op in ops {
        let term = made(alloc, &mut terms, *op)?;
        terms.push(term)?;
    }
    Ok(terms.pop().ok_or("no term")?)
}

/// The number of what is wrong with a term, 0 where nothing is.
fn fault_of(alloc: Global, ops: &[Op]) -> Result<u8, Fail> {
    Ok(match term(alloc, ops)?.checked() {
        Ok(_) => 0,
        Err(fault) => fault.number(),
    })
}

const TOO_DEEP: u8 = 1;

const TOO_LARGE: u8 = 2;

const EMPTY: u8 = 3;

const BAD_RATE: u8 = 4;

/// Terms, and the number of what is wrong with them.
const FAULTS: &[(&[Op], u8)] = &[
    // depth 17, 65 terms, 1,025 names
    (&[All, Nots(16)], TOO_DEEP),
    (&[Alls(64)], TOO_LARGE),
    (&[Suffixes(1025)], TOO_LARGE),
    // parts without members
    (&[Alls(0)], EMPTY),
    (&[Nothing], EMPTY),
    (&[Suffixes(0)], EMPTY),
    (&[Nets], EMPTY),
    // rates out of range
    (&[Rate(0, 32, 64)], BAD_RATE),
    (&[Rate(1001, 32, 64)], BAD_RATE),
    (&[Rate(1, 33, 64)], BAD_RATE),
    (&[Rate(1, 32, 129)], BAD_RATE),
    // the first of two faults: depth 18 and 80 terms
    (&[Alls(63), Nots(16)], TOO_DEEP),
    // 66 terms and an Or without a member
    (&[Alls(63), Nothing, And], TOO_LARGE),
    (&[Rate(0, 32, 64), Nothing, And], EMPTY),
];

#[test]
fn terms_and_their_faults(rt: HostRuntime) -> Result<(), Fail> {
    for (row, (ops, fault)) in FAULTS.iter().enumerate() {
        held(row, fault_of(rt.alloc(), ops)? == *fault)?;
    }
    Ok(())
}

/// Some of each kind of term.
const SOME: &[Op] = &[
    Masks("10.0.0.0/8"),
    ONE_QPS,
    Or,
    Suffix("example.com"),
    Nots(2),
    All,
    And,
    And,
];

/// Whether a term and its copy are equal, and another one is not.
fn is_copied(alloc: Global, term: &CheckedTerm, other: &CheckedTerm) -> Result<bool, AllocError> {
    let copy = term.copy(alloc).or_else(|_refused| term.copy(alloc))?;
    let text = format!(in alloc; "{:?}", term.as_term())?;
    let copied = format!(in alloc; "{:?}", copy.as_term())?;
    Ok(text == copied && copy.equals(term) && !copy.equals(other))
}

/// The term that words make, where it has no fault.
pub(super) fn sound(alloc: Global, ops: &[Op]) -> Result<CheckedTerm, Fail> {
    Ok(term(alloc, ops)?.checked()?)
}

#[test]
fn copies(rt: HostRuntime) -> Result<(), Fail> {
    let term = sound(rt.alloc(), SOME)?;
    let other = sound(rt.alloc(), &[All])?;
    held(0, is_copied(rt.alloc(), &term, &other)?)
}
