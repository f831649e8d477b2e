//! Reading which options the keys of a cache leave out.

ghost use Rattle.std.specs.Prelude.{◌≡◌, codes};
ghost use Rattle.lb_command.specs.declared.fault.FaultKind.TheVariants.{BadNumber};
ghost use Rattle.lb_command.specs.Reading.{Reads, due, listed, taken};
ghost use Rattle.lb_command.specs.Skips.{code_list_at, skips_at, stated_skips_at};
ghost use Rattle.lb_command.specs.Values.{word_number};

use crate::fault::Unread;
use crate::words::Words;
use arrayvec::ArrayVec;
use lb_cache::{MAX_SKIPS, Skips};

/// The codes of a line, repeats among them.
type Stated = ArrayVec<u16, MAX_SKIPS>;

/// The greatest OPTION-CODE (RFC 6891 section 6.1.2).
const MAX_CODE: u64 = 65_535;

/// Takes codes with commas between them.
fn stated_codes(words: &mut Words<'_>) -> Result<Stated, Unread>
    ensures { Reads (λ stated. stated.items) result words.new (listed (due BadNumber word_number) (taken (codes ",")) (λ s. s) 16 words.old) }
{
    let mut stated = Stated::new();
    'codes: for _ in 0..MAX_SKIPS {
        stated.push(words.number(MAX_CODE)? as u16);
        if !words.takes(b",") {
            return Ok(stated);
        }
    }
    let token = words.peek();
    let _ = words.number(MAX_CODE)?;
    Err(token.is_too_many())
}

/// `CODE{,CODE}`
#[tactic(auto, unfolding(crate::specs::Skips::code_list_at))]
fn code_list(words: &mut Words<'_>) -> Result<Skips, Unread>
    ensures { Reads (λ skips. skips) result words.new (code_list_at words.old) }
{
    let stated = stated_codes(words)?;
    Ok(Skips::from_codes(stated.as_slice()))
}

/// `none | CODE{,CODE}`
#[tactic(auto, unfolding(crate::specs::Skips::stated_skips_at))]
fn stated_skips(words: &mut Words<'_>) -> Result<Skips, Unread>
    ensures { Reads (λ skips. skips) result words.new (stated_skips_at words.old) }
{
    if words.takes(b"none") {
        return Ok(Skips::none());
    }
    code_list(words)
}

/// `[skip none | skip CODE{,CODE}]`
#[tactic(auto, unfolding(crate::specs::Skips::skips_at))]
pub(crate) fn cache_skips(words: &mut Words<'_>) -> Result<Skips, Unread>
    ensures { Reads (λ skips. skips) result words.new (skips_at words.old) }
{
    if !words.takes(b"skip") {
        return Ok(Skips::cookie());
    }
    stated_skips(words)
}
