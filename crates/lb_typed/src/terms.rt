//! Terms of rules.

ghost use Rattle.std.specs.Prelude.{◌≡◌, ◌++◌, ◌∷◌, ◌<◌, ◌≤◌, [], IfOk, OnOk, length, slice_index_or, string_bytes};
ghost use Rattle.std.specs.List.{AllByRecursion};
ghost use Rattle.lb_terms.specs.Selector.{selector_of, selectors_of};
ghost use Rattle.lb_command.specs.Grammar.{comma_list, says, term, terms};
ghost use Rattle.lb_command.specs.Values.{mask_of, name_of};
ghost use Rattle.lb_typed.specs.Pieces.{Spells};
ghost use Rattle.lb_typed.specs.Typed.{AndIs, AreTyped, IsSome, IsTyped, IsTypedName, OrIs, rate_text};
ghost use Rattle.lb_typed.specs.Words.{Types};

use crate::addrs::mask_word;
use crate::words::{name_word, number_text, type_word};
use lb_masks::Mask;
use lb_terms::{Names, Term};
use std::alloc::{AllocError, Global};

/// The lengths of a limiter that are not typed.
const V4_BITS: u8 = 32;

const V6_BITS: u8 = 64;

/// Puts after a text how many members of a set are left out.
fn push_more(alloc: Global, text: &mut String, more: usize) -> Result<(), AllocError> {
    let words = format!(in alloc; ",..{more} more")?;
    text.push_str(words.as_str())
}

/// Puts a word after a comma.
pub(crate) fn push_word(text: &mut String, word: &str) -> Result<(), AllocError>
    ensures { OnOk result (string_bytes text.new ≡ string_bytes text.old ++ 44 ∷ word.now) }
{
    text.push_str(",")?;
    text.push_str(word)
}

/// The name at a place of a set.
fn name_at(alloc: Global, names: &Names, place: usize) -> Result<String, AllocError>
    requires { place < length names.now }
    ensures { IfOk result (λ text. IsTypedName (slice_index_or names.now place []) → Types name_of (slice_index_or names.now place []) (string_bytes text)) }
{
    match names.get(place) {
        Some(name) => name_word(alloc, &name),
        None => String::from_str(alloc, "?"),
    }
}

/// The names of a set with commas between them; of more than so many the first, and how many there
/// are more.
fn names_text(alloc: Global, names: &Names, most: usize) -> Result<String, AllocError>
    ensures { IfOk result (λ text. 0 < length names.now → length names.now ≤ most → AllByRecursion IsTypedName names.now → Spells (comma_list (says name_of) names.now) (string_bytes text)) }
{
    let count = names.len();
    if count == 0 {
        return Ok(String::new(alloc));
    }
    let mut text = name_at(alloc, names, 0)?;
    'names: for place in 1..count {
        if place >= most {
            push_more(alloc, &mut text, count - place)?;
            return Ok(text);
        }
        let word = name_at(alloc, names, place)?;
        push_word(&mut text, word.as_str())?;
    }
    Ok(text)
}

/// The masks of a group with commas between them; of more than so many the first, and how many
/// there are more.
fn masks_text(alloc: Global, masks: &[Mask], most: usize) -> Result<String, AllocError>
    ensures { IfOk result (λ text. 0 < length masks.now → length masks.now ≤ most → Spells (comma_list (says mask_of) masks.now) (string_bytes text)) }
{
    let [first, ..] = masks else {
        return Ok(String::new(alloc));
    };
    let mut text = mask_word(alloc, first)?;
    'masks: for place in 1..masks.len() {
        if place >= most {
            push_more(alloc, &mut text, masks.len() - place)?;
            return Ok(text);
        }
        let word = mask_word(alloc, &masks[place])?;
        push_word(&mut text, word.as_str())?;
    }
    Ok(text)
}

/// A rate, with its lengths if others than those that hold anyway.
fn rate_text(alloc: Global, qps: u16, v4: u8, v6: u8) -> Result<String, AllocError>
    ensures { IfOk result (λ text. string_bytes text ≡ rate_text qps v4 v6) }
{
    if v4 == V4_BITS && v6 == V6_BITS {
        return number_text(alloc, u64::from(qps));
    }
    format!(in alloc; "{qps},{v4},{v6}")
}

/// A word, and what is in parentheses after it.
pub(crate) fn bracketed(alloc: Global, word: &str, inner: &str) -> Result<String, AllocError>
    ensures { IfOk result (λ text. string_bytes text ≡ word.now ++ 40 ∷ (inner.now ++ 41 ∷ [])) }
{
    format!(in alloc; "{word}({inner})")
}

/// What the selector of an And is.
fn law_of_and(what: &Term)
    ensures { AndIs what.now }
{
    match what {
        Term::And(_) => {}
        _ => {}
    }
}

/// What the selector of an Or is.
fn law_of_or(what: &Term)
    ensures { OrIs what.now }
{
    match what {
        Term::Or(_) => {}
        _ => {}
    }
}

/// A term. Of a set of more than so many members the first are written, and how many there are
/// more.
#[cycle(term_text)]
pub fn term_text(alloc: Global, what: &Term, most: usize) -> Result<String, AllocError>
    ensures { IfOk result (λ text. IsTyped most (selector_of what.now) → Spells (term (selector_of what.now)) (string_bytes text)) }
{
    match what {
        Term::All => String::from_str(alloc, "all"),
        Term::Suffix(names) => {
            let inner = names_text(alloc, names, most)?;
            bracketed(alloc, "suffix", inner.as_str())
        }
        Term::Masks(group) => {
            let inner = masks_text(alloc, group.as_slice(), most)?;
            bracketed(alloc, "masks", inner.as_str())
        }
        Term::Qtype(qtype) => {
            let inner = type_word(alloc, *qtype)?;
            bracketed(alloc, "qtype", inner.as_str())
        }
        Term::And(members) => {
            law_of_and(what);
            let inner = terms_text(alloc, members.as_slice(), most)?;
            bracketed(alloc, "and", inner.as_str())
        }
        Term::Or(members) => {
            law_of_or(what);
            let inner = terms_text(alloc, members.as_slice(), most)?;
            bracketed(alloc, "or", inner.as_str())
        }
        Term::Not(inside) => {
            let inner = term_text(alloc, inside, most)?;
            bracketed(alloc, "not", inner.as_str())
        }
        Term::MaxQps(qps, v4, v6) => {
            let inner = rate_text(alloc, *qps, *v4, *v6)?;
            bracketed(alloc, "maxqps", inner.as_str())
        }
    }
}

/// Terms with commas between them.
#[cycle(term_text)]
fn terms_text(alloc: Global, members: &[Term], most: usize) -> Result<String, AllocError>
    ensures { IfOk result (λ text. AreTyped most (selectors_of members.now) → IsSome (selectors_of members.now) → Spells (terms (selectors_of members.now)) (string_bytes text)) }
{
    let [first, ..] = members else {
        return Ok(String::new(alloc));
    };
    let mut text = term_text(alloc, first, most)?;
    'members: for place in 1..members.len() {
        let word = term_text(alloc, &members[place], most)?;
        push_word(&mut text, word.as_str())?;
    }
    Ok(text)
}
