//! Reading commands.

ghost use Rattle.std.specs.Prelude.{◌≡◌, IfOk};
ghost use Rattle.lb_command.specs.Commands.{behind_extent, by_name_at, by_suffix_at, cache_at, cache_attach_at, cache_detach_at, cache_verb_words, command_at, command_of, command_whole, expunge_at, extent_words, place_at, pool_add_at, pool_at, pool_policy_at, pool_verb_words, rule_add_at, rule_at, rule_move_at, rule_remove_at, rule_verb_words, server_add_at, server_at, server_mode_at, server_remove_at, server_verb_words, timeout_at, verb_words};
ghost use Rattle.lb_command.specs.Reading.{Answers, Gives, Reads, ReadsAs};
ghost use Rattle.lb_command.specs.Grammar.{IsCommand};
ghost use Rattle.lb_step.specs.declared.command.Command.{Command};
ghost use Rattle.lb_command.specs.Values.{looked_up};

use crate::actions::action;
use crate::fault::{CommandFault, FaultKind, MAX_LINE, Unread};
use crate::options::server_options;
use crate::parts::{
    addr, ident, max_entries, max_ttl, mode, name, optional_type, policy, pool, port, shards,
    timeout,
};
use crate::skips::cache_skips;
use crate::terms::checked_term;
use crate::values::look_up;
use crate::words::Words;
use lb_cache::{Covered, Skips};
use lb_core::{CheckSpec, Command, StatedRule};
use lb_servers::{PoolNames, ServerSpec};
use lb_wire::RuleId;
use std::alloc::Global;

/// The word that begins a command.
#[derive(Clone, Copy, Debug, PartialEq, Eq)]
enum Verb {
    Rule,
    Server,
    Pool,
    Cache,
    Expunge,
    Timeout,
    Show,
}

/// The words that begin commands.
const VERBS: [(Verb, &str); 7] = [
    (Verb::Rule, "rule"),
    (Verb::Server, "server"),
    (Verb::Pool, "pool"),
    (Verb::Cache, "cache"),
    (Verb::Expunge, "expunge"),
    (Verb::Timeout, "timeout"),
    (Verb::Show, "show"),
];

/// What is done with a rule.
#[derive(Clone, Copy, Debug, PartialEq, Eq)]
enum RuleVerb {
    Add,
    Remove,
    Move,
}

/// The words after `rule`.
const RULE_VERBS: [(RuleVerb, &str); 3] = [
    (RuleVerb::Add, "add"),
    (RuleVerb::Remove, "remove"),
    (RuleVerb::Move, "move"),
];

/// What is done with a server.
#[derive(Clone, Copy, Debug, PartialEq, Eq)]
enum ServerVerb {
    Add,
    Remove,
    Mode,
}

/// The words after `server`.
const SERVER_VERBS: [(ServerVerb, &str); 3] = [
    (ServerVerb::Add, "add"),
    (ServerVerb::Remove, "remove"),
    (ServerVerb::Mode, "mode"),
];

/// What is done with a pool.
#[derive(Clone, Copy, Debug, PartialEq, Eq)]
enum PoolVerb {
    Add,
    Policy,
}

/// The words after `pool`.
const POOL_VERBS: [(PoolVerb, &str); 2] = [(PoolVerb::Add, "add"), (PoolVerb::Policy, "policy")];

/// What is done with a cache.
#[derive(Clone, Copy, Debug, PartialEq, Eq)]
enum CacheVerb {
    Attach,
    Detach,
}

/// The words after `cache`.
const CACHE_VERBS: [(CacheVerb, &str); 2] = [
    (CacheVerb::Attach, "attach"),
    (CacheVerb::Detach, "detach"),
];

/// How much of a cache is expunged.
#[derive(Clone, Copy, Debug, PartialEq, Eq)]
enum Extent {
    Name,
    Suffix,
    All,
}

/// The words after the pool of `expunge`.
const EXTENTS: [(Extent, &str); 3] = [
    (Extent::Name, "name"),
    (Extent::Suffix, "suffix"),
    (Extent::All, "all"),
];

/// What a word begins.
fn verb_of(text: &[u8]) -> Option<Verb>
    ensures { result ≡ looked_up verb_words text.now }
{
    look_up(&VERBS, text)
}

/// What a word after `rule` says.
fn rule_verb_of(text: &[u8]) -> Option<RuleVerb>
    ensures { result ≡ looked_up rule_verb_words text.now }
{
    look_up(&RULE_VERBS, text)
}

/// What a word after `server` says.
fn server_verb_of(text: &[u8]) -> Option<ServerVerb>
    ensures { result ≡ looked_up server_verb_words text.now }
{
    look_up(&SERVER_VERBS, text)
}

/// What a word after `pool` says.
fn pool_verb_of(text: &[u8]) -> Option<PoolVerb>
    ensures { result ≡ looked_up pool_verb_words text.now }
{
    look_up(&POOL_VERBS, text)
}

/// What a word after `cache` says.
fn cache_verb_of(text: &[u8]) -> Option<CacheVerb>
    ensures { result ≡ looked_up cache_verb_words text.now }
{
    look_up(&CACHE_VERBS, text)
}

/// How much a word after the pool of `expunge` says.
fn extent_of(text: &[u8]) -> Option<Extent>
    ensures { result ≡ looked_up extent_words text.now }
{
    look_up(&EXTENTS, text)
}

/// `[at PLACE]`
#[tactic(auto, unfolding(crate::specs::Commands::place_at))]
fn read_place(words: &mut Words<'_>) -> Result<Option<usize>, Unread>
    ensures { Reads (λ place. place) result words.new (place_at words.old) }
{
    if !words.takes(b"at") {
        return Ok(None);
    }
    Ok(Some(words.number(u64::MAX)? as usize))
}

/// `[at PLACE] TERM ACTION`
#[tactic(auto, unfolding(crate::specs::Commands::rule_add_at))]
fn read_rule_add(alloc: Global, words: &mut Words<'_>) -> Result<Command, Unread>
    ensures { Reads (λ command. command) result words.new (rule_add_at words.old) }
{
    let place = read_place(words)?;
    let term = checked_term(alloc, words)?;
    let action = action(alloc, words)?;
    Ok(Command::RuleAdd(place, StatedRule { term, action }))
}

/// `ID`
#[tactic(auto, unfolding(crate::specs::Commands::rule_remove_at))]
fn read_rule_remove(words: &mut Words<'_>) -> Result<Command, Unread>
    ensures { Reads (λ command. command) result words.new (rule_remove_at words.old) }
{
    let id = words.number(u64::MAX)?;
    Ok(Command::RuleRemove(RuleId(id)))
}

/// `ID PLACE`
#[tactic(auto, unfolding(crate::specs::Commands::rule_move_at))]
fn read_rule_move(words: &mut Words<'_>) -> Result<Command, Unread>
    ensures { Reads (λ command. command) result words.new (rule_move_at words.old) }
{
    let id = words.number(u64::MAX)?;
    let place = words.number(u64::MAX)? as usize;
    Ok(Command::RuleMove(RuleId(id), place))
}

/// What stands after `rule`.
#[tactic(auto, unfolding(crate::specs::Commands::rule_at))]
fn read_rule(alloc: Global, words: &mut Words<'_>) -> Result<Command, Unread>
    ensures { Reads (λ command. command) result words.new (rule_at words.old) }
{
    let token = words.next();
    let Some(verb) = rule_verb_of(token.text) else {
        return Err(token.fault(FaultKind::UnknownWord));
    };
    match verb {
        RuleVerb::Add => read_rule_add(alloc, words),
        RuleVerb::Remove => read_rule_remove(words),
        RuleVerb::Move => read_rule_move(words),
    }
}

/// `SNAME ADDR PORT` and its options.
#[tactic(auto, unfolding(crate::specs::Commands::server_add_at))]
fn read_server_add(alloc: Global, words: &mut Words<'_>) -> Result<Command, Unread>
    ensures { Reads (λ command. command) result words.new (server_add_at words.old) }
{
    let name = ident(words)?;
    let addr = addr(words)?;
    let port = port(words)?;
    let options = server_options(alloc, words)?;
    let Some(pools) = PoolNames::from_vec(options.pools) else {
        unreachable!()
    };
    let spec = ServerSpec {
        name,
        addr,
        port,
        order: options.order,
        pools,
        lanes: options.lanes,
    };
    let check = CheckSpec {
        fall: options.fall,
        rise: options.rise,
        must_resolve: options.resolve,
    };
    Ok(Command::ServerAdd(spec, check))
}

/// `SNAME`
#[tactic(auto, unfolding(crate::specs::Commands::server_remove_at))]
fn read_server_remove(words: &mut Words<'_>) -> Result<Command, Unread>
    ensures { Reads (λ command. command) result words.new (server_remove_at words.old) }
{
    let name = ident(words)?;
    Ok(Command::ServerRemove(name))
}

/// `SNAME up|down|auto`
#[tactic(auto, unfolding(crate::specs::Commands::server_mode_at))]
fn read_server_mode(words: &mut Words<'_>) -> Result<Command, Unread>
    ensures { Reads (λ command. command) result words.new (server_mode_at words.old) }
{
    let name = ident(words)?;
    let mode = mode(words)?;
    Ok(Command::ServerMode(name, mode))
}

/// What stands after `server`.
#[tactic(auto, unfolding(crate::specs::Commands::server_at))]
fn read_server(alloc: Global, words: &mut Words<'_>) -> Result<Command, Unread>
    ensures { Reads (λ command. command) result words.new (server_at words.old) }
{
    let token = words.next();
    let Some(verb) = server_verb_of(token.text) else {
        return Err(token.fault(FaultKind::UnknownWord));
    };
    match verb {
        ServerVerb::Add => read_server_add(alloc, words),
        ServerVerb::Remove => read_server_remove(words),
        ServerVerb::Mode => read_server_mode(words),
    }
}

/// `PNAME`
#[tactic(auto, unfolding(crate::specs::Commands::pool_add_at))]
fn read_pool_add(words: &mut Words<'_>) -> Result<Command, Unread>
    ensures { Reads (λ command. command) result words.new (pool_add_at words.old) }
{
    let pool = pool(words)?;
    Ok(Command::PoolAdd(pool))
}

/// `PNAME firstAvailable|leastOutstanding|roundrobin`
#[tactic(auto, unfolding(crate::specs::Commands::pool_policy_at))]
fn read_pool_policy(words: &mut Words<'_>) -> Result<Command, Unread>
    ensures { Reads (λ command. command) result words.new (pool_policy_at words.old) }
{
    let pool = pool(words)?;
    let policy = policy(words)?;
    Ok(Command::PoolPolicy(pool, policy))
}

/// What stands after `pool`.
#[tactic(auto, unfolding(crate::specs::Commands::pool_at))]
fn read_pool(words: &mut Words<'_>) -> Result<Command, Unread>
    ensures { Reads (λ command. command) result words.new (pool_at words.old) }
{
    let token = words.next();
    let Some(verb) = pool_verb_of(token.text) else {
        return Err(token.fault(FaultKind::UnknownWord));
    };
    match verb {
        PoolVerb::Add => read_pool_add(words),
        PoolVerb::Policy => read_pool_policy(words),
    }
}

/// `PNAME MAX SHARDS MAXTTL [skip none | skip CODE{,CODE}]`
#[tactic(auto, unfolding(crate::specs::Commands::cache_attach_at))]
fn read_cache_attach(words: &mut Words<'_>) -> Result<Command, Unread>
    ensures { Reads (λ command. command) result words.new (cache_attach_at words.old) }
{
    let pool = pool(words)?;
    let max = max_entries(words)?;
    let shards = shards(words)?;
    let max_ttl = max_ttl(words)?;
    let skips = cache_skips(words)?;
    Ok(Command::CacheAttach(pool, max, shards, max_ttl, skips))
}

/// `PNAME`
#[tactic(auto, unfolding(crate::specs::Commands::cache_detach_at))]
fn read_cache_detach(words: &mut Words<'_>) -> Result<Command, Unread>
    ensures { Reads (λ command. command) result words.new (cache_detach_at words.old) }
{
    let pool = pool(words)?;
    Ok(Command::CacheDetach(pool))
}

/// What stands after `cache`.
#[tactic(auto, unfolding(crate::specs::Commands::cache_at))]
fn read_cache(words: &mut Words<'_>) -> Result<Command, Unread>
    ensures { Reads (λ command. command) result words.new (cache_at words.old) }
{
    let token = words.next();
    let Some(verb) = cache_verb_of(token.text) else {
        return Err(token.fault(FaultKind::UnknownWord));
    };
    match verb {
        CacheVerb::Attach => read_cache_attach(words),
        CacheVerb::Detach => read_cache_detach(words),
    }
}

/// `NAME [TYPE]`
#[tactic(auto, unfolding(crate::specs::Commands::by_name_at))]
fn read_by_name(words: &mut Words<'_>) -> Result<Covered, Unread>
    ensures { Reads (λ covered. covered) result words.new (by_name_at words.old) }
{
    let name = name(words)?;
    let qtype = optional_type(words)?;
    Ok(Covered::Name(name, qtype))
}

/// `NAME`
#[tactic(auto, unfolding(crate::specs::Commands::by_suffix_at))]
fn read_by_suffix(words: &mut Words<'_>) -> Result<Covered, Unread>
    ensures { Reads (λ covered. covered) result words.new (by_suffix_at words.old) }
{
    let name = name(words)?;
    Ok(Covered::Suffix(name))
}

/// What is covered, after the word that begins it.
fn read_covered(extent: Extent, words: &mut Words<'_>) -> Result<Covered, Unread>
    ensures { Reads (λ covered. covered) result words.new (behind_extent extent words.old) }
{
    match extent {
        Extent::Name => read_by_name(words),
        Extent::Suffix => read_by_suffix(words),
        Extent::All => Ok(Covered::All),
    }
}

/// What stands after `expunge`.
#[tactic(auto, unfolding(crate::specs::Commands::expunge_at))]
fn read_expunge(words: &mut Words<'_>) -> Result<Command, Unread>
    ensures { Reads (λ command. command) result words.new (expunge_at words.old) }
{
    let pool = pool(words)?;
    let token = words.next();
    let Some(extent) = extent_of(token.text) else {
        return Err(token.fault(FaultKind::UnknownWord));
    };
    let covered = read_covered(extent, words)?;
    Ok(Command::Expunge(pool, covered))
}

/// `MS`
#[tactic(auto, unfolding(crate::specs::Commands::timeout_at))]
fn read_timeout(words: &mut Words<'_>) -> Result<Command, Unread>
    ensures { Reads (λ command. command) result words.new (timeout_at words.old) }
{
    let timeout = timeout(words)?;
    Ok(Command::SetTimeout(timeout))
}

/// Takes a command.
#[tactic(auto, unfolding(crate::specs::Commands::command_at))]
pub(crate) fn command(alloc: Global, words: &mut Words<'_>) -> Result<Command, Unread>
    ensures { Reads (λ command. command) result words.new (command_at words.old) }
{
    let token = words.next();
    let Some(verb) = verb_of(token.text) else {
        return Err(token.fault(FaultKind::UnknownWord));
    };
    match verb {
        Verb::Rule => read_rule(alloc, words),
        Verb::Server => read_server(alloc, words),
        Verb::Pool => read_pool(words),
        Verb::Cache => read_cache(words),
        Verb::Expunge => read_expunge(words),
        Verb::Timeout => read_timeout(words),
        Verb::Show => Ok(Command::Show),
    }
}

/// Takes a command and sees that nothing stands after it.
#[tactic(auto, unfolding(crate::specs::Commands::command_whole))]
fn whole_command(alloc: Global, words: &mut Words<'_>) -> Result<Command, Unread>
    ensures { Gives result (command_whole words.old) }
{
    let command = command(alloc, words)?;
    words.end()?;
    Ok(command)
}

/// Reads a line as a command: the command, or the first fault with its place. The line is of at most 300,000 bytes.
pub fn read_command(alloc: Global, line: &str) -> Result<Command, CommandFault>
    ensures read { Answers result (command_of line.now) }
    // what is read is in the grammar
    ensures found { IfOk result (λ command. IsCommand line.now command) }
    // what is in the grammar is read
    ensures only { (command : Command) → IsCommand line.now command → ReadsAs result command }
{
    let line = line.as_bytes();
    if line.len() > MAX_LINE {
        return Err(CommandFault::too_long());
    }
    let mut words = Words::new(line);
    match whole_command(alloc, &mut words) {
        Ok(command) => Ok(command),
        Err(Unread::Fault(fault)) => Err(fault),
        Err(Unread::NoMemory(refused)) => Err(words.no_memory(refused)),
    }
}
