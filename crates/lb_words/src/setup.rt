//! What stands now, as lines of a setup file.

use crate::lines::Lines;
use crate::lists::{listener_text, name_with};
use crate::rules::stated;
use crate::texts::pool_of;
use crate::told::{Backend, Shown, Store, Told};
use lb_chain::Rule;
use lb_command::Listener;
use lb_core::{CheckSpec, Command, FIRST_TIMEOUT, StatedRule, Timeout};
use lb_servers::{Mode, Policy, Pool, PoolName, PoolNames, ServerSpec};
use lb_typed::command_line;
use std::alloc::{AllocError, Global};

/// The commands that give from an empty balancer what stands now, but for numbers, after the lines
/// of the setup file that listen and state the log's limit. What a command would say anyway is left
/// out.
pub(crate) fn setup<S: Shown>(
    alloc: Global,
    shown: &S,
    listeners: &[Listener],
    log: u32,
) -> Result<String, AllocError> {
    let told = shown.told(alloc)?;
    let mut lines = Lines::new(alloc);
    beside(alloc, &mut lines, listeners, log)?;
    parts(alloc, &mut lines, &told)?;
    for place in 0..told.totals.rules {
        if let Some((_, rule, _)) = shown.rule_at(alloc, place)? {
            rule_line(alloc, &mut lines, rule, told.pools.as_slice())?;
        }
    }
    lines.ended()
}

/// The lines of a setup file that are no commands.
fn beside(
    alloc: Global,
    lines: &mut Lines,
    listeners: &[Listener],
    log: u32,
) -> Result<(), AllocError> {
    for listener in listeners {
        let at = listener_text(alloc, listener)?;
        let line = format!(in alloc; "listen {at}")?;
        lines.add(line.as_str())?;
    }
    let line = format!(in alloc; "log {log}")?;
    lines.add(line.as_str())
}

/// The commands that give all but the rules.
fn parts(alloc: Global, lines: &mut Lines, told: &Told) -> Result<(), AllocError> {
    if told.timeout != FIRST_TIMEOUT
        && let Some(timeout) = Timeout::from_millis(told.timeout)
    {
        add(alloc, lines, Command::SetTimeout(timeout))?;
    }
    pools(alloc, lines, told.pools.as_slice())?;
    for backend in &told.servers {
        server(alloc, lines, backend, told.pools.as_slice())?;
    }
    for store in &told.caches {
        cache(alloc, lines, told, store)?;
    }
    Ok(())
}

/// Adds a command as a line.
fn add(alloc: Global, lines: &mut Lines, command: Command) -> Result<(), AllocError> {
    let line = command_line(alloc, &command)?;
    lines.add(line.as_str())
}

/// The commands that add pools and give them policies.
fn pools(alloc: Global, lines: &mut Lines, pools: &[Pool]) -> Result<(), AllocError> {
    for pool in pools {
        if let PoolName::Named(_) = &pool.name {
            add(alloc, lines, Command::PoolAdd(pool.name.copy()))?;
        }
        if pool.policy != Policy::LeastOutstanding {
            let command = Command::PoolPolicy(pool.name.copy(), pool.policy);
            add(alloc, lines, command)?;
        }
    }
    Ok(())
}

/// The commands that add a server and give it a mode.
fn server(
    alloc: Global,
    lines: &mut Lines,
    backend: &Backend,
    pools: &[Pool],
) -> Result<(), AllocError> {
    let server = &backend.loaded.server;
    let spec = ServerSpec {
        name: server.name.copy(),
        addr: server.addr,
        port: server.port,
        order: server.order,
        pools: pools_of(alloc, backend, pools)?,
        lanes: server.lanes,
    };
    let command = Command::ServerAdd(spec, check_of(backend));
    add(alloc, lines, command)?;
    if server.mode == Mode::Auto {
        return Ok(());
    }
    let command = Command::ServerMode(server.name.copy(), server.mode);
    add(alloc, lines, command)
}

/// How the health of a server is judged.
fn check_of(backend: &Backend) -> CheckSpec {
    match &backend.check {
        Some(check) => CheckSpec {
            fall: check.health.fall(),
            rise: check.health.rise(),
            must_resolve: check.must_resolve,
        },
        None => CheckSpec::default(),
    }
}

/// The pools of a server, or no pool if it stands in the default pool alone.
fn pools_of(alloc: Global, backend: &Backend, pools: &[Pool]) -> Result<PoolNames, AllocError> {
    let own = backend.loaded.server.pools.as_slice();
    if own.len() == 1 && own.iter().all(|pool| pool.0 == 0) {
        return Ok(PoolNames::none(alloc));
    }
    let mut names = Vec::with_capacity(alloc, own.len())?;
    for pool in own {
        if let Some(name) = pool_of(pools, *pool) {
            names.push(name.copy())?;
        }
    }
    Ok(PoolNames::from_vec(names).unwrap_or(PoolNames::none(alloc)))
}

/// The command that attaches a cache.
fn cache(alloc: Global, lines: &mut Lines, told: &Told, store: &Store) -> Result<(), AllocError> {
    let Some(pool) = name_with(told, store) else {
        return Ok(());
    };
    let skips = store.skips.copy();
    let command = Command::CacheAttach(pool.copy(), store.max, store.shards, store.max_ttl, skips);
    add(alloc, lines, command)
}

/// The command that adds a rule. There is none if its pool is newer than these pools.
fn rule_line(
    alloc: Global,
    lines: &mut Lines,
    rule: Rule,
    pools: &[Pool],
) -> Result<(), AllocError> {
    let Some(action) = stated(&rule.action, pools) else {
        return Ok(());
    };
    let rule = StatedRule {
        term: rule.term,
        action,
    };
    add(alloc, lines, Command::RuleAdd(None, rule))
}
