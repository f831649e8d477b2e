//! Reading terms.

ghost use Rattle.std.specs.Prelude.{◌≡◌, codes, map};
ghost use Rattle.lb_terms.specs.Selector.{selector_of};
ghost use Rattle.lb_command.specs.declared.fault.FaultKind.TheVariants.{BadAddress, BadName};
ghost use Rattle.lb_command.specs.Reading.{Reads, due, listed, taken};
ghost use Rattle.lb_command.specs.Terms.{and_at, checked_at, comma, form_of, left_in, lengths_at, masks_at, maxqps_at, members_at, not_at, or_at, qtype_at, suffix_at, term_at};
ghost use Rattle.lb_command.specs.Values.{mask_of, name_of};

use crate::fault::{FaultKind, Unread};
use crate::parts::{mask, name, number_in, record_type};
use crate::values::look_up;
use crate::words::Words;
use lb_masks::{Group, Mask};
use lb_terms::{CheckedTerm, MAX_DEPTH, MAX_NODES, MAX_QPS, MAX_SET, Names, Term};
use std::alloc::Global;

/// The bits of an IPv4 address: all of them count where no number is given.
const V4_BITS: u8 = 32;

/// The bits of an IPv6 address.
const V6_BITS: u8 = 128;

/// The first bits of an IPv6 address that count where no number is given.
const V6_GIVEN: u8 = 64;

/// The word that begins a term.
#[derive(Clone, Copy, Debug, PartialEq, Eq)]
enum Form {
    All,
    Suffix,
    Masks,
    Qtype,
    And,
    Or,
    Not,
    MaxQps,
}

/// The words that begin terms.
const FORMS: [(Form, &str); 8] = [
    (Form::All, "all"),
    (Form::Suffix, "suffix"),
    (Form::Masks, "masks"),
    (Form::Qtype, "qtype"),
    (Form::And, "and"),
    (Form::Or, "or"),
    (Form::Not, "not"),
    (Form::MaxQps, "maxqps"),
];

/// What a word begins.
fn form_of(text: &[u8]) -> Option<Form>
    ensures { result ≡ form_of text.now }
{
    look_up(&FORMS, text)
}

/// Takes names with commas between them.
fn names(alloc: Global, words: &mut Words<'_>) -> Result<Names, Unread>
    ensures { Reads (λ names. names) result words.new (listed (due BadName name_of) (taken (codes ",")) (λ s. s) 1024 words.old) }
{
    let mut names = Names::new(alloc);
    'names: for _ in 0..MAX_SET {
        names.push(&name(words)?)?;
        if !words.takes(b",") {
            return Ok(names);
        }
    }
    let token = words.peek();
    let _ = name(words)?;
    Err(token.is_too_many())
}

/// Takes masks with commas between them.
fn masks(alloc: Global, words: &mut Words<'_>) -> Result<Vec<Mask>, Unread>
    ensures { Reads (λ masks. masks.items) result words.new (listed (due BadAddress mask_of) (taken (codes ",")) (λ s. s) 1024 words.old) }
{
    let mut masks = Vec::new(alloc);
    'masks: for _ in 0..MAX_SET {
        masks.push(mask(words)?)?;
        if !words.takes(b",") {
            return Ok(masks);
        }
    }
    let token = words.peek();
    let _ = mask(words)?;
    Err(token.is_too_many())
}

/// `(NAME{,NAME})`
#[tactic(auto, unfolding(crate::specs::Terms::suffix_at))]
fn read_suffix(alloc: Global, words: &mut Words<'_>) -> Result<Term, Unread>
    ensures { Reads selector_of result words.new (suffix_at words.old) }
{
    words.word(b"(")?;
    let names = names(alloc, words)?;
    words.word(b")")?;
    Ok(Term::Suffix(names))
}

/// `(MASK{,MASK})`
#[tactic(auto, unfolding(crate::specs::Terms::masks_at))]
fn read_masks(alloc: Global, words: &mut Words<'_>) -> Result<Term, Unread>
    ensures { Reads selector_of result words.new (masks_at words.old) }
{
    words.word(b"(")?;
    let masks = masks(alloc, words)?;
    words.word(b")")?;
    Ok(Term::Masks(Group::from_vec(masks)))
}

/// `(TYPE)`
#[tactic(auto, unfolding(crate::specs::Terms::qtype_at))]
fn read_qtype(words: &mut Words<'_>) -> Result<Term, Unread>
    ensures { Reads selector_of result words.new (qtype_at words.old) }
{
    words.word(b"(")?;
    let qtype = record_type(words)?;
    words.word(b")")?;
    Ok(Term::Qtype(qtype))
}

/// `[,V4BITS,V6BITS]`
#[tactic(auto, unfolding(crate::specs::Terms::lengths_at))]
fn read_lengths(words: &mut Words<'_>) -> Result<(u8, u8), Unread>
    ensures { Reads (λ lengths. lengths) result words.new (lengths_at words.old) }
{
    if !words.takes(b",") {
        return Ok((V4_BITS, V6_GIVEN));
    }
    let v4 = words.number(u64::from(V4_BITS))? as u8;
    words.word(b",")?;
    let v6 = words.number(u64::from(V6_BITS))? as u8;
    Ok((v4, v6))
}

/// `(QPS[,V4BITS,V6BITS])`
#[tactic(auto, unfolding(crate::specs::Terms::maxqps_at))]
fn read_maxqps(words: &mut Words<'_>) -> Result<Term, Unread>
    ensures { Reads selector_of result words.new (maxqps_at words.old) }
{
    words.word(b"(")?;
    let qps = number_in(words, 1, u32::from(MAX_QPS))? as u16;
    let (v4, v6) = read_lengths(words)?;
    words.word(b")")?;
    Ok(Term::MaxQps(qps, v4, v6))
}

/// Takes terms with commas between them, each of at most this depth.
#[cycle(terms)]
fn members(
    alloc: Global,
    words: &mut Words<'_>,
    left: &mut usize,
    depth: usize,
) -> Result<Vec<Term>, Unread>
    ensures { Reads (λ terms. map selector_of terms.items) result (left.new, words.new) (listed (term_at depth) comma left_in 64 (left.old, words.old)) }
{
    let mut terms = Vec::new(alloc);
    'terms: for _ in 0..MAX_NODES {
        terms.push(term(alloc, words, left, depth)?)?;
        if !words.takes(b",") {
            return Ok(terms);
        }
    }
    let token = words.peek();
    let _ = term(alloc, words, left, depth)?;
    Err(token.is_too_many())
}

/// `(TERM{,TERM})`
#[cycle(terms)]
#[tactic(auto, unfolding(crate::specs::Terms::members_at))]
fn read_members(
    alloc: Global,
    words: &mut Words<'_>,
    left: &mut usize,
    depth: usize,
) -> Result<Vec<Term>, Unread>
    ensures { Reads (λ terms. map selector_of terms.items) result (left.new, words.new) (members_at (term_at depth) (left.old, words.old)) }
{
    words.word(b"(")?;
    let terms = members(alloc, words, left, depth)?;
    words.word(b")")?;
    Ok(terms)
}

/// `and(TERM{,TERM})`, after its first word.
#[cycle(terms)]
#[tactic(auto, unfolding(crate::specs::Terms::and_at))]
fn read_and(
    alloc: Global,
    words: &mut Words<'_>,
    left: &mut usize,
    depth: usize,
) -> Result<Term, Unread>
    ensures { Reads selector_of result (left.new, words.new) (and_at (term_at depth) (left.old, words.old)) }
{
    let terms = read_members(alloc, words, left, depth)?;
    Ok(Term::And(terms))
}

/// `or(TERM{,TERM})`, after its first word.
#[cycle(terms)]
#[tactic(auto, unfolding(crate::specs::Terms::or_at))]
fn read_or(
    alloc: Global,
    words: &mut Words<'_>,
    left: &mut usize,
    depth: usize,
) -> Result<Term, Unread>
    ensures { Reads selector_of result (left.new, words.new) (or_at (term_at depth) (left.old, words.old)) }
{
    let terms = read_members(alloc, words, left, depth)?;
    Ok(Term::Or(terms))
}

/// `not(TERM)`, after its first word.
#[cycle(terms)]
#[tactic(auto, unfolding(crate::specs::Terms::not_at))]
fn read_not(
    alloc: Global,
    words: &mut Words<'_>,
    left: &mut usize,
    depth: usize,
) -> Result<Term, Unread>
    ensures { Reads selector_of result (left.new, words.new) (not_at (term_at depth) (left.old, words.old)) }
{
    words.word(b"(")?;
    let term = term(alloc, words, left, depth)?;
    words.word(b")")?;
    Ok(Term::Not(Box::new(alloc, term)?))
}

/// Takes a term of at most this depth, where there may be so many terms.
#[cycle(terms)]
#[tactic(auto, unfolding(crate::specs::Terms::term_at))]
fn term(
    alloc: Global,
    words: &mut Words<'_>,
    left: &mut usize,
    depth: usize,
) -> Result<Term, Unread>
    ensures { Reads selector_of result (left.new, words.new) (term_at depth (left.old, words.old)) }
{
    let token = words.next();
    let Some(form) = form_of(token.text) else {
        return Err(token.fault(FaultKind::UnknownWord));
    };
    if depth == 0 || *left == 0 {
        return Err(token.is_too_many());
    }
    *left -= 1;
    let depth = depth - 1;
    match form {
        Form::All => Ok(Term::All),
        Form::Suffix => read_suffix(alloc, words),
        Form::Masks => read_masks(alloc, words),
        Form::Qtype => read_qtype(words),
        Form::And => read_and(alloc, words, left, depth),
        Form::Or => read_or(alloc, words, left, depth),
        Form::Not => read_not(alloc, words, left, depth),
        Form::MaxQps => read_maxqps(words),
    }
}

/// Takes a term within all limits.
#[tactic(auto, unfolding(crate::specs::Terms::checked_at))]
pub(crate) fn checked_term(alloc: Global, words: &mut Words<'_>) -> Result<CheckedTerm, Unread>
    ensures { Reads (λ term. term) result words.new (checked_at words.old) }
{
    let token = words.peek();
    let mut nodes = MAX_NODES;
    let term = term(alloc, words, &mut nodes, MAX_DEPTH)?;
    match term.checked() {
        Ok(term) => Ok(term),
        Err(_) => Err(token.is_too_many()),
    }
}
