//! Commands.

ghost use Rattle.std.specs.Prelude.{◌≡◌, ◌<◌, ◌≤◌, ◌^◌, IfOk, length, string_bytes};
ghost use Rattle.lb_cache.specs.declared.cached.Covered.TheVariants as covereds;
ghost use Rattle.lb_step.specs.declared.command.Command.TheVariants as commands;
ghost use Rattle.lb_command.specs.Grammar.{◌▷◌, Allowed, AllowedAction, IsCommand, action, comma_list, command, covered, says, skips, term};
ghost use Rattle.lb_cache.specs.Skips.{each_once};
ghost use Rattle.lb_command.specs.Reading.{max_line};
ghost use Rattle.lb_command.specs.Values.{word_number};
ghost use Rattle.lb_typed.specs.Pieces.{Follows, Spells};
ghost use Rattle.lb_typed.specs.Typed.{AreLimits, CanBeTyped, HasTypedNames, IsTypedAction, IsTypedCovered, IsTypedName};
ghost use Rattle.lb_typed.specs.Words.{Types};

use crate::actions::action_text;
use crate::addrs::addr_word;
use crate::options::options_text;
use crate::terms::{push_word, term_text};
use crate::words::{
    ident_word, joined, law_of_u16, law_of_u64, mode_word, name_word, number_text, policy_word,
    pool_word, spaced, type_word,
};
use lb_cache::{Covered, MaxEntries, MaxTtl, Shards, Skips};
use lb_chain::Action;
use lb_core::{CheckSpec, Command, StatedRule, Timeout};
use lb_name::Name;
use lb_servers::{Ident, Mode, Policy, PoolName, ServerSpec};
use lb_terms::MAX_SET;
use lb_wire::{RecordType, RuleId};
use std::alloc::{AllocError, Global};

/// A rule, as it comes after `rule add`.
fn rule_text(alloc: Global, rule: &StatedRule) -> Result<String, AllocError>
    ensures { IfOk result (λ text. HasTypedNames rule.now.term → IsTypedAction rule.now.action → Spells (term rule.now.term ▷ action rule.now.action) (string_bytes text)) }
{
    let term = term_text(alloc, rule.term.as_term(), MAX_SET)?;
    let action = action_text(alloc, &rule.action)?;
    spaced(alloc, term.as_str(), action.as_str())
}

fn rule_add(alloc: Global, place: Option<usize>, rule: &StatedRule) -> Result<String, AllocError>
    ensures { IfOk result (λ text. CanBeTyped (commands.RuleAdd place rule.now) → Spells (command (commands.RuleAdd place rule.now)) (string_bytes text)) }
{
    let text = rule_text(alloc, rule)?;
    match place {
        None => spaced(alloc, "rule add", text.as_str()),
        Some(place) => {
            law_of_u64(place as u64);
            let number = number_text(alloc, place as u64)?;
            let at = spaced(alloc, "rule add at", number.as_str())?;
            spaced(alloc, at.as_str(), text.as_str())
        }
    }
}

fn rule_remove(alloc: Global, id: RuleId) -> Result<String, AllocError>
    ensures { IfOk result (λ text. Spells (command (commands.RuleRemove id)) (string_bytes text)) }
{
    law_of_u64(id.0);
    let number = number_text(alloc, id.0)?;
    spaced(alloc, "rule remove", number.as_str())
}

fn rule_move(alloc: Global, id: RuleId, place: usize) -> Result<String, AllocError>
    ensures { IfOk result (λ text. Spells (command (commands.RuleMove id place)) (string_bytes text)) }
{
    law_of_u64(id.0);
    law_of_u64(place as u64);
    let number = number_text(alloc, id.0)?;
    let place = number_text(alloc, place as u64)?;
    let numbers = spaced(alloc, number.as_str(), place.as_str())?;
    spaced(alloc, "rule move", numbers.as_str())
}

fn server_add(alloc: Global, spec: &ServerSpec, check: &CheckSpec) -> Result<String, AllocError>
    ensures { IfOk result (λ text. Spells (command (commands.ServerAdd spec.now check.now)) (string_bytes text)) }
{
    let options = options_text(alloc, spec, check)?;
    law_of_u16(spec.port.get());
    let port = number_text(alloc, u64::from(spec.port.get()))?;
    let port = joined(alloc, port.as_str(), options.as_str())?;
    let addr = addr_word(alloc, &spec.addr)?;
    let at = spaced(alloc, addr.as_str(), port.as_str())?;
    let named = spaced(alloc, ident_word(&spec.name), at.as_str())?;
    spaced(alloc, "server add", named.as_str())
}

fn server_remove(alloc: Global, name: &Ident) -> Result<String, AllocError>
    ensures { IfOk result (λ text. Spells (command (commands.ServerRemove name.now)) (string_bytes text)) }
{
    spaced(alloc, "server remove", ident_word(name))
}

fn server_mode(alloc: Global, name: &Ident, mode: Mode) -> Result<String, AllocError>
    ensures { IfOk result (λ text. Spells (command (commands.ServerMode name.now mode)) (string_bytes text)) }
{
    let named = spaced(alloc, ident_word(name), mode_word(mode))?;
    spaced(alloc, "server mode", named.as_str())
}

fn pool_add(alloc: Global, name: &PoolName) -> Result<String, AllocError>
    ensures { IfOk result (λ text. Spells (command (commands.PoolAdd name.now)) (string_bytes text)) }
{
    spaced(alloc, "pool add", pool_word(name))
}

fn pool_policy(alloc: Global, name: &PoolName, policy: Policy) -> Result<String, AllocError>
    ensures { IfOk result (λ text. Spells (command (commands.PoolPolicy name.now policy)) (string_bytes text)) }
{
    let named = spaced(alloc, pool_word(name), policy_word(policy))?;
    spaced(alloc, "pool policy", named.as_str())
}

/// The codes that a cache skips, after a space, unless it skips Cookie alone.
fn skips_text(alloc: Global, listed: &Skips) -> Result<String, AllocError>
    ensures { IfOk result (λ text. each_once listed.now ≡ listed.now → Follows (skips listed.now) (string_bytes text)) }
{
    let codes = listed.as_slice();
    if codes.is_empty() {
        return String::from_str(alloc, " skip none");
    }
    if let [10] = codes {
        return Ok(String::new(alloc));
    }
    let codes = codes_word(alloc, codes)?;
    joined(alloc, " skip ", codes.as_str())
}

/// Codes with commas between them.
pub fn codes_word(alloc: Global, codes: &[u16]) -> Result<String, AllocError>
    ensures { IfOk result (λ text. 0 < length codes.now → Spells (comma_list (says word_number) codes.now) (string_bytes text)) }
{
    let [first, ..] = codes else {
        return Ok(String::new(alloc));
    };
    let mut text = code_word(alloc, *first)?;
    'codes: for place in 1..codes.len() {
        let word = code_word(alloc, codes[place])?;
        push_word(&mut text, word.as_str())?;
    }
    Ok(text)
}

fn code_word(alloc: Global, code: u16) -> Result<String, AllocError>
    ensures { IfOk result (λ text. Types word_number code (string_bytes text)) }
{
    law_of_u16(code);
    number_text(alloc, u64::from(code))
}

fn cache_attach(
    alloc: Global,
    name: &PoolName,
    limits: (MaxEntries, Shards, MaxTtl),
    listed: &Skips,
) -> Result<String, AllocError>
    ensures { IfOk result (λ text. each_once listed.now ≡ listed.now → Spells (command (commands.CacheAttach name.now limits.0 limits.1 limits.2 listed.now)) (string_bytes text)) }
{
    let (max, shards, max_ttl) = limits;
    law_of_limits(max, shards, max_ttl);
    let listed = skips_text(alloc, listed)?;
    let ttl = number_text(alloc, u64::from(max_ttl.get()))?;
    let ttl = joined(alloc, ttl.as_str(), listed.as_str())?;
    let shards = number_text(alloc, u64::from(shards.get()))?;
    let shards = spaced(alloc, shards.as_str(), ttl.as_str())?;
    let max = number_text(alloc, u64::from(max.get()))?;
    let max = spaced(alloc, max.as_str(), shards.as_str())?;
    let named = spaced(alloc, pool_word(name), max.as_str())?;
    spaced(alloc, "cache attach", named.as_str())
}

/// The limits of a cache are in range.
fn law_of_limits(max: MaxEntries, shards: Shards, max_ttl: MaxTtl)
    ensures { AreLimits max shards max_ttl }
{
    let _max = max.get();
    let _shards = shards.get();
    let _ttl = max_ttl.get();
}

fn cache_detach(alloc: Global, name: &PoolName) -> Result<String, AllocError>
    ensures { IfOk result (λ text. Spells (command (commands.CacheDetach name.now)) (string_bytes text)) }
{
    spaced(alloc, "cache detach", pool_word(name))
}

/// The name that an expunge covers, with the type if it has one.
fn named_text(alloc: Global, name: &Name, qtype: Option<RecordType>) -> Result<String, AllocError>
    ensures { IfOk result (λ text. IsTypedName name.now → Spells (covered (covereds.Name name.now qtype)) (string_bytes text)) }
{
    let name = name_word(alloc, name)?;
    match qtype {
        None => spaced(alloc, "name", name.as_str()),
        Some(qtype) => {
            let qtype = type_word(alloc, qtype)?;
            let name = spaced(alloc, name.as_str(), qtype.as_str())?;
            spaced(alloc, "name", name.as_str())
        }
    }
}

/// What an expunge covers.
fn covered_text(alloc: Global, what: &Covered) -> Result<String, AllocError>
    ensures { IfOk result (λ text. IsTypedCovered what.now → Spells (covered what.now) (string_bytes text)) }
{
    match what {
        Covered::Name(name, qtype) => named_text(alloc, name, *qtype),
        Covered::Suffix(name) => {
            let name = name_word(alloc, name)?;
            spaced(alloc, "suffix", name.as_str())
        }
        Covered::All => String::from_str(alloc, "all"),
    }
}

fn expunge(alloc: Global, name: &PoolName, what: &Covered) -> Result<String, AllocError>
    ensures { IfOk result (λ text. IsTypedCovered what.now → Spells (command (commands.Expunge name.now what.now)) (string_bytes text)) }
{
    let what = covered_text(alloc, what)?;
    let named = spaced(alloc, pool_word(name), what.as_str())?;
    spaced(alloc, "expunge", named.as_str())
}

/// A timeout is in range.
fn law_of_timeout(timeout: Timeout)
    ensures least { 1 ≤ timeout }
    ensures most { timeout ≤ 60000 }
{
    let _millis = timeout.as_millis();
}

fn set_timeout(alloc: Global, timeout: Timeout) -> Result<String, AllocError>
    ensures { IfOk result (λ text. Spells (command (commands.SetTimeout timeout)) (string_bytes text)) }
{
    law_of_timeout(timeout);
    let millis = number_text(alloc, u64::from(timeout.as_millis()))?;
    spaced(alloc, "timeout", millis.as_str())
}

/// A command as a piece of a line.
pub(crate) fn command_text(alloc: Global, what: &Command) -> Result<String, AllocError>
    ensures { IfOk result (λ text. CanBeTyped what.now → Spells (command what.now) (string_bytes text)) }
{
    match what {
        Command::RuleAdd(place, rule) => rule_add(alloc, *place, rule),
        Command::RuleRemove(id) => rule_remove(alloc, *id),
        Command::RuleMove(id, place) => rule_move(alloc, *id, *place),
        Command::ServerAdd(spec, check) => server_add(alloc, spec, check),
        Command::ServerRemove(name) => server_remove(alloc, name),
        Command::ServerMode(name, mode) => server_mode(alloc, name, *mode),
        Command::PoolAdd(name) => pool_add(alloc, name),
        Command::PoolPolicy(name, policy) => pool_policy(alloc, name, *policy),
        Command::CacheAttach(name, max, shards, max_ttl, listed) => {
            cache_attach(alloc, name, (*max, *shards, *max_ttl), listed)
        }
        Command::CacheDetach(name) => cache_detach(alloc, name),
        Command::Expunge(name, what) => expunge(alloc, name, what),
        Command::SetTimeout(timeout) => set_timeout(alloc, *timeout),
        Command::Show => String::from_str(alloc, "show"),
    }
}

/// Addresses of an answer are at most eight.
fn law_of_action(what: &Action<PoolName>)
    ensures { AllowedAction what.now }
{
    if let Action::Spoof(addrs) = what {
        let _ = addrs.as_slice();
    }
}

/// A command is within the limits.
pub(crate) fn law_of_command(what: &Command)
    ensures { CanBeTyped what.now → Allowed what.now }
{
    match what {
        Command::RuleAdd(_, rule) => {
            let _ = rule.term.as_term();
            law_of_action(&rule.action);
        }
        _ => {}
    }
}

/// A command as the line that an operator would type: it is read as this command, if its names and
/// its response code can be typed and the line is at most as long as one may be. What cannot be
/// typed is `?` in it. What a command would say anyway is left out. The one error is lack of
/// memory.
pub fn command_line(alloc: Global, what: &Command) -> Result<String, AllocError>
    ensures { IfOk result (λ text. CanBeTyped what.now → length (string_bytes text) ≤ max_line → IsCommand (string_bytes text) what.now) }
{
    law_of_command(what);
    command_text(alloc, what)
}
