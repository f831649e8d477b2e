//! Commands.

ghost use Rattle.std.specs.Prelude.{◌≡◌, ◌≤◌, ℕ, IsTrue, Ok, Err, Option, Result, option_map};
ghost use Rattle.lb_servers.specs.Park.{added_pool, changed_pool};
ghost use Rattle.lb_servers.specs.Pool.{pool_named, with_policy};
ghost use Rattle.lb_step.specs.Plain.{plain_of, upstreams_of};
ghost use Rattle.lb_step.specs.Upstream.{added_checked, backends_of, put_into, removed_checked, Upstreams};
ghost use Rattle.lb_step.specs.Edit.{action_by, attached_to, detached_from, edit_of, expunged_from, place_or_end, pool_edited, rule_by, server_by, server_edited, upstream_edited, upstream_told, MayLackAt, Lacks};
ghost use Rattle.lb_step.specs.Answer.{marked};
ghost use Rattle.lb_step.specs.declared.command.Command.TheVariants.{RuleAdd, RuleRemove, RuleMove};
ghost use Rattle.lb_step.specs.declared.answer.Answer.TheVariants.{Refused};
ghost use Rattle.lb_step.specs.declared.answer.EditFault.TheVariants.{Rules, Servers};
ghost use Rattle.lb_step.specs.declared.answer.Note.TheVariants as notes;
ghost use Rattle.lb_step.specs.declared.answer.Answer.{Answer};

use crate::answer::{Answer, EditFault, Note};
use crate::boxed::BoxedCommand;
use crate::cache_spec::CacheSpec;
use crate::check::CheckSpec;
use crate::command::{Command, StatedRule};
use crate::upstream::Upstream;
use lb_cache::Covered;
use lb_chain::{Action, Chain, ChainFault, Rule, seen_twice};
use lb_servers::{Ident, Mode, ParkFault, Policy, PoolName, ServerSpec};
use lb_wire::{PoolId, RuleId};
use std::alloc::Global;

/// Carries out the command of an event, or refuses it. The command is large, so it leaves its own
/// memory here alone, and not where other events pass.
pub(crate) fn edit(
    alloc: Global,
    chain: &mut Chain,
    upstream: &mut Upstream,
    moment: u64,
    command: BoxedCommand,
) -> Answer
    requires { chain.old.moment ≤ moment }
    ensures moment { chain.new.moment ≤ moment }
    ensures edit { (plain_of moment chain.new upstream.new, result) ≡ edit_of (marked result) (plain_of moment chain.old upstream.old) command }
    ensures mark { IsTrue (marked result) → MayLackAt (plain_of moment chain.old upstream.old) command }
{
    carry_out(alloc, chain, upstream, moment, command.into_inner())
}

/// Carries out a command, or refuses it.
fn carry_out(
    alloc: Global,
    chain: &mut Chain,
    upstream: &mut Upstream,
    moment: u64,
    command: Command,
) -> Answer
    requires { chain.old.moment ≤ moment }
    ensures moment { chain.new.moment ≤ moment }
    ensures edit { (plain_of moment chain.new upstream.new, result) ≡ edit_of (marked result) (plain_of moment chain.old upstream.old) command }
    ensures mark { IsTrue (marked result) → MayLackAt (plain_of moment chain.old upstream.old) command }
{
    match command {
        Command::RuleAdd(place, rule) => add_rule(chain, upstream, moment, place, rule),
        Command::RuleRemove(id) => remove_rule(chain, upstream, moment, id),
        Command::RuleMove(id, place) => move_rule(chain, upstream, moment, id, place),
        Command::ServerAdd(spec, check) => add_server(upstream, spec, check),
        Command::ServerRemove(name) => remove_server(upstream, &name),
        Command::ServerMode(name, mode) => set_mode(upstream, &name, mode),
        Command::PoolAdd(name) => add_pool(upstream, name),
        Command::PoolPolicy(name, policy) => set_policy(upstream, name, policy),
        Command::CacheAttach(name, max, shards, max_ttl, skips) => {
            let spec = CacheSpec {
                max,
                shards,
                max_ttl,
                skips,
            };
            attach_cache(alloc, upstream, &name, spec)
        }
        Command::CacheDetach(name) => detach_cache(upstream, &name),
        Command::Expunge(name, covered) => expunge(upstream, &name, &covered),
        Command::Show => Answer::Edited(Note::Shown(upstream.totals(chain.len()))),
        Command::SetTimeout(timeout) => {
            upstream.set_timeout(timeout);
            Answer::Edited(Note::TimeoutSet(timeout))
        }
    }
}

/// Adds a rule at a place, or after the others, where the pool that it names is there.
fn add_rule(
    chain: &mut Chain,
    upstream: &Upstream,
    moment: u64,
    place: Option<usize>,
    rule: StatedRule,
) -> Answer
    requires { chain.old.moment ≤ moment }
    ensures moment { chain.new.moment ≤ moment }
    ensures edit { (plain_of moment chain.new upstream.now, result) ≡ edit_of (marked result) (plain_of moment chain.old upstream.now) (RuleAdd place rule) }
    ensures mark { IsTrue (marked result) → MayLackAt (plain_of moment chain.old upstream.now) (RuleAdd place rule) }
{
    let Some(rule) = rule_of(upstream, rule) else {
        return servers_refused(ParkFault::NoSuchPool);
    };
    let place = place_or_end(place, chain);
    // A law, which does nothing.
    seen_twice();
    match chain.add(place, rule) {
        Ok(id) => Answer::Edited(Note::RuleAdded(id)),
        Err(fault) => rules_refused(fault),
    }
}

/// The rule that a command states, its pool by number; None where the pool is not there.
fn rule_of(upstream: &Upstream, rule: StatedRule) -> Option<Rule>
    ensures { result ≡ rule_by (pool_named upstream.now.pools) rule }
{
    let StatedRule { term, action } = rule;
    let action = action_of(upstream, &action)?;
    Some(Rule { term, action })
}

/// The action that a command states, its pool by number; None where the pool is not there.
fn action_of(upstream: &Upstream, action: &Action<PoolName>) -> Option<Action<PoolId>>
    ensures { result ≡ action_by (pool_named upstream.now.pools) action.now }
{
    let pool = match action.pool() {
        Some(name) => upstream.pool_named(name),
        None => None,
    };
    action.with_pool(pool)
}

/// The place that a rule is added at: if none is stated, after the others.
fn place_or_end(place: Option<usize>, chain: &Chain) -> usize
    ensures { result ≡ place_or_end place chain.now.rules }
{
    match place {
        Some(place) => place,
        None => chain.len(),
    }
}

/// Removes a rule.
fn remove_rule(chain: &mut Chain, upstream: &Upstream, moment: u64, id: RuleId) -> Answer
    requires { chain.old.moment ≤ moment }
    ensures moment { chain.new.moment ≤ moment }
    ensures edit { (plain_of moment chain.new upstream.now, result) ≡ edit_of (marked result) (plain_of moment chain.old upstream.now) (RuleRemove id) }
    ensures mark { IsTrue (marked result) → MayLackAt (plain_of moment chain.old upstream.now) (RuleRemove id) }
{
    // A law, which does nothing.
    seen_twice();
    match chain.remove(id) {
        Ok(()) => Answer::Edited(Note::RuleRemoved(id)),
        Err(fault) => rules_refused(fault),
    }
}

/// Moves a rule to a place.
fn move_rule(
    chain: &mut Chain,
    upstream: &Upstream,
    moment: u64,
    id: RuleId,
    place: usize,
) -> Answer
    requires { chain.old.moment ≤ moment }
    ensures moment { chain.new.moment ≤ moment }
    ensures edit { (plain_of moment chain.new upstream.now, result) ≡ edit_of (marked result) (plain_of moment chain.old upstream.now) (RuleMove id place) }
    ensures mark { IsTrue (marked result) → MayLackAt (plain_of moment chain.old upstream.now) (RuleMove id place) }
{
    // A law, which does nothing.
    seen_twice();
    match chain.move_to(id, place) {
        Ok(()) => Answer::Edited(Note::RuleMoved(id)),
        Err(fault) => rules_refused(fault),
    }
}

/// A refusal by the list of rules.
fn rules_refused(fault: ChainFault) -> Answer
    ensures { result ≡ Refused (Rules fault) }
{
    Answer::Refused(EditFault::Rules(fault))
}

/// A refusal by the table of servers and pools.
fn servers_refused(fault: ParkFault) -> Answer
    ensures { result ≡ Refused (Servers fault) }
{
    Answer::Refused(EditFault::Servers(fault))
}

/// Adds a server, whose health is judged so.
fn add_server(upstream: &mut Upstream, spec: ServerSpec, check: CheckSpec) -> Answer
    ensures edit { (upstream.new, result) ≡ upstream_told notes.ServerAdded (added_checked (marked result) upstream.old spec check) }
    ensures mark { IsTrue (marked result) → Lacks (λ mark. upstream_told notes.ServerAdded (added_checked mark upstream.old spec check)) }
{
    match upstream.add_server(spec, check) {
        Ok(id) => Answer::Edited(Note::ServerAdded(id)),
        Err(fault) => servers_refused(fault),
    }
}

/// Removes the server with a name.
fn remove_server(upstream: &mut Upstream, name: &Ident) -> Answer
    ensures { (upstream.new, result) ≡ server_edited notes.ServerRemoved removed_checked upstream.old (server_by upstream.old name.now) }
{
    let Some(id) = upstream.server_named(name) else {
        return servers_refused(ParkFault::NoSuchServer);
    };
    match upstream.remove_server(id) {
        Ok(()) => Answer::Edited(Note::ServerRemoved(id)),
        Err(fault) => servers_refused(fault),
    }
}

/// Puts the server with a name into a mode.
fn set_mode(upstream: &mut Upstream, name: &Ident, mode: Mode) -> Answer
    ensures { (upstream.new, result) ≡ server_edited (λ id. notes.ServerMode id mode) (put_into mode) upstream.old (server_by upstream.old name.now) }
{
    let Some(id) = upstream.server_named(name) else {
        return servers_refused(ParkFault::NoSuchServer);
    };
    match upstream.set_mode(id, mode) {
        Ok(()) => Answer::Edited(Note::ServerMode(id, mode)),
        Err(fault) => servers_refused(fault),
    }
}

/// Adds a pool.
fn add_pool(upstream: &mut Upstream, name: PoolName) -> Answer
    ensures edit { (upstream.new, result) ≡ upstream_edited (λ _. notes.PoolAdded name) upstream.old (added_pool (marked result) (backends_of upstream.old) name) }
    ensures mark { IsTrue (marked result) → Lacks (λ mark. upstream_edited (λ _. notes.PoolAdded name) upstream.old (added_pool mark (backends_of upstream.old) name)) }
{
    let told = name.copy();
    match upstream.add_pool(name) {
        Ok(_) => Answer::Edited(Note::PoolAdded(told)),
        Err(fault) => servers_refused(fault),
    }
}

/// Gives the pool with a name a policy.
fn set_policy(upstream: &mut Upstream, name: PoolName, policy: Policy) -> Answer
    ensures { (upstream.new, result) ≡ pool_edited (notes.PoolPolicy name policy) (changed_pool (with_policy policy)) upstream.old (pool_named upstream.old.pools name) }
{
    let Some(pool) = upstream.pool_named(&name) else {
        return servers_refused(ParkFault::NoSuchPool);
    };
    match upstream.set_policy(pool, policy) {
        Ok(()) => Answer::Edited(Note::PoolPolicy(name, policy)),
        Err(fault) => servers_refused(fault),
    }
}

/// Gives the pool with a name a new cache.
fn attach_cache(alloc: Global, upstream: &mut Upstream, name: &PoolName, spec: CacheSpec) -> Answer
    ensures edit { (upstream.new, result) ≡ attached_to (marked result) upstream.old spec.max spec.max_ttl spec.skips (pool_named upstream.old.pools name.now) }
    ensures mark { IsTrue (marked result) → Lacks (λ mark. attached_to mark upstream.old spec.max spec.max_ttl spec.skips (pool_named upstream.old.pools name.now)) }
{
    let Some(pool) = upstream.pool_named(name) else {
        return servers_refused(ParkFault::NoSuchPool);
    };
    match upstream.attach_cache(alloc, pool, spec) {
        Ok(id) => Answer::Edited(Note::CacheAttached(id)),
        Err(fault) => servers_refused(fault),
    }
}

/// Takes the cache off the pool with a name.
fn detach_cache(upstream: &mut Upstream, name: &PoolName) -> Answer
    ensures { (upstream.new, result) ≡ detached_from upstream.old (pool_named upstream.old.pools name.now) }
{
    let Some(pool) = upstream.pool_named(name) else {
        return servers_refused(ParkFault::NoSuchPool);
    };
    match upstream.detach_cache(pool) {
        Some(id) => Answer::Edited(Note::CacheDetached(id)),
        None => Answer::Refused(EditFault::NoCache),
    }
}

/// Expunges the cache of the pool with a name.
fn expunge(upstream: &mut Upstream, name: &PoolName, covered: &Covered) -> Answer
    ensures { (upstream.new, result) ≡ expunged_from upstream.old covered.now (pool_named upstream.old.pools name.now) }
{
    let Some(pool) = upstream.pool_named(name) else {
        return servers_refused(ParkFault::NoSuchPool);
    };
    match upstream.cache_of(pool) {
        Some(id) => Answer::Edited(Note::Expunged(upstream.expunge(id, covered))),
        None => Answer::Refused(EditFault::NoCache),
    }
}
