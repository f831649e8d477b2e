//! Options of a server.

ghost use Rattle.std.specs.Prelude.{◌≡◌, ◌++◌, ◌∷◌, ◌≤◌, IfOk, OnOk, codes, string_bytes};
ghost use Rattle.std.specs.Fmt.{decimal};
ghost use Rattle.lb_command.specs.Grammar.{options};
ghost use Rattle.lb_typed.specs.Options.{choices_of, fall_choice, lanes_choice, order_choice, pool_choices, resolve_choice, rise_choice};
ghost use Rattle.lb_typed.specs.Pieces.{Follows};

use crate::words::{joined, law_of_u8, law_of_u16, pool_word};
use lb_core::CheckSpec;
use lb_servers::{LaneCount, PoolName, ServerSpec};
use std::alloc::{AllocError, Global};
use std::num::NonZeroU8;

/// A word and a number, with a space before each.
fn numbered(alloc: Global, word: &str, number: u64) -> Result<String, AllocError>
    ensures { IfOk result (λ text. string_bytes text ≡ 32 ∷ (word.now ++ 32 ∷ decimal number)) }
{
    format!(in alloc; " {word} {number}")
}

/// The order of a server, unless it is 1.
fn order_option(alloc: Global, order: u16) -> Result<String, AllocError>
    ensures { IfOk result (λ text. Follows (options (order_choice order)) (string_bytes text)) }
{
    if order == 1 {
        return Ok(String::new(alloc));
    }
    law_of_u16(order);
    numbered(alloc, "order", u64::from(order))
}

/// The lanes of a server are 1 to 8.
fn law_of_lanes(lanes: LaneCount)
    ensures least { 1 ≤ lanes }
    ensures most { lanes ≤ 8 }
{
    let _lanes = lanes.get();
}

/// The lanes of a server, unless there is one.
fn lanes_option(alloc: Global, lanes: LaneCount) -> Result<String, AllocError>
    ensures { IfOk result (λ text. Follows (options (lanes_choice lanes)) (string_bytes text)) }
{
    let number = lanes.get();
    if number == 1 {
        return Ok(String::new(alloc));
    }
    law_of_lanes(lanes);
    numbered(alloc, "lanes", u64::from(number))
}

/// After how many failures a server goes down, unless it is one.
fn fall_option(alloc: Global, fall: NonZeroU8) -> Result<String, AllocError>
    ensures { IfOk result (λ text. Follows (options (fall_choice fall)) (string_bytes text)) }
{
    let number = fall.get();
    if number == 1 {
        return Ok(String::new(alloc));
    }
    law_of_u8(number);
    numbered(alloc, "fall", u64::from(number))
}

/// After how many successes a server comes up, unless it is one.
fn rise_option(alloc: Global, rise: NonZeroU8) -> Result<String, AllocError>
    ensures { IfOk result (λ text. Follows (options (rise_choice rise)) (string_bytes text)) }
{
    let number = rise.get();
    if number == 1 {
        return Ok(String::new(alloc));
    }
    law_of_u8(number);
    numbered(alloc, "rise", u64::from(number))
}

/// Whether the name of a probe has to be resolved, if it has to be.
fn resolve_option(must: bool) -> &'static str
    ensures { Follows (options (resolve_choice must)) result.now }
{
    if must { " resolve" } else { "" }
}

/// Puts the option of a pool after a text.
fn push_pool(text: &mut String, name: &str) -> Result<(), AllocError>
    ensures { OnOk result (string_bytes text.new ≡ string_bytes text.old ++ 32 ∷ (codes "pool" ++ 32 ∷ name.now)) }
{
    text.push_str(" pool ")?;
    text.push_str(name)
}

/// The pools of a server.
fn pools_option(alloc: Global, names: &[PoolName]) -> Result<String, AllocError>
    ensures { IfOk result (λ text. Follows (options (pool_choices names.now)) (string_bytes text)) }
{
    let mut text = String::new(alloc);
    'names: for place in 0..names.len() {
        push_pool(&mut text, pool_word(&names[place]))?;
    }
    Ok(text)
}

/// The options of a server, those left out that hold anyway.
pub(crate) fn options_text(
    alloc: Global,
    spec: &ServerSpec,
    check: &CheckSpec,
) -> Result<String, AllocError>
    ensures { IfOk result (λ text. Follows (options (choices_of spec.now check.now)) (string_bytes text)) }
{
    let order = order_option(alloc, spec.order)?;
    let lanes = lanes_option(alloc, spec.lanes)?;
    let fall = fall_option(alloc, check.fall)?;
    let rise = rise_option(alloc, check.rise)?;
    let resolve = resolve_option(check.must_resolve);
    let pools = pools_option(alloc, spec.pools.as_slice())?;
    let text = joined(alloc, resolve, pools.as_str())?;
    let text = joined(alloc, rise.as_str(), text.as_str())?;
    let text = joined(alloc, fall.as_str(), text.as_str())?;
    let text = joined(alloc, lanes.as_str(), text.as_str())?;
    joined(alloc, order.as_str(), text.as_str())
}
