//! The passes of a walk: memory taken for them, and then counted.

ghost use Rattle.std.specs.Prelude.{◌≡◌, ◌≤◌, OnErr, OnOk, true, if◌then◌else◌};
ghost use Rattle.std.specs.List.{All};
ghost use Rattle.lb_limits.specs.Window.{reserved_at, passed_at};
ghost use Rattle.lb_chain.specs.Counting.{LimitersReady, IsReady, PartlyReserved, RulesReady, SomeReserved, changed_limits, changed_rule, changed_rules, counted, has_pass as has_pass_of};
ghost use Rattle.lb_chain.specs.Places.{places_of};

use crate::numbered::Numbered;
use crate::walked::Passed;
use lb_limits::Limiter;
use lb_wire::{Addr, RuleId};
use std::alloc::AllocError;

/// Whether the passes have one of a limiter of a rule.
fn has_pass(passes: &[Passed], rule: RuleId, limiter: usize) -> bool
    ensures { result ≡ has_pass_of passes.now rule limiter }
{
    passes.iter().any(|p| p.rule.0 == rule.0 && usize::from(p.limiter) == limiter)
}

/// Takes memory for a query, where the limiter is to count it.
fn reserve_one(limiter: &mut Limiter, wanted: bool, addr: &Addr, now: u64) -> Result<(), AllocError>
    requires { limiter.old.moment ≤ now }
    ensures ok { OnOk result (limiter.new ≡ (if wanted then reserved_at limiter.old addr.now now else limiter.old)) }
    ensures err { OnErr result (limiter.new ≡ limiter.old) }
{
    if wanted {
        limiter.reserve(addr, now)?;
    }
    Ok(())
}

/// Takes memory for those limiters of a rule that have a pass.
fn reserve_limits(
    limits: &mut Vec<Limiter>,
    passes: &[Passed],
    rule: RuleId,
    addr: &Addr,
    now: u64,
) -> Result<(), AllocError>
    requires { All (λ l. l.moment ≤ now) limits.old.items }
    ensures ok { OnOk result (limits.new.items ≡ changed_limits (λ l. reserved_at l addr.now now) passes.now rule 0 limits.old.items) }
    ensures partly { SomeReserved passes.now addr.now now rule 0 limits.old.items limits.new.items }
{
    for at in 0..limits.len() {
        let wanted = has_pass(passes, rule, at);
        reserve_one(&mut limits[at], wanted, addr, now)?;
    }
    Ok(())
}

/// Takes memory for those of a rule's limiters that have a pass.
fn reserve_rule(
    numbered: &mut Numbered,
    passes: &[Passed],
    addr: &Addr,
    now: u64,
) -> Result<(), AllocError>
    requires { All (λ l. l.moment ≤ now) numbered.old.limits }
    ensures ok { OnOk result (numbered.new ≡ changed_rule (λ l. reserved_at l addr.now now) passes.now numbered.old) }
    ensures id { numbered.new.id ≡ numbered.old.id }
    ensures rule { numbered.new.rule ≡ numbered.old.rule }
    ensures partly { SomeReserved passes.now addr.now now numbered.old.id 0 numbered.old.limits numbered.new.limits }
{
    reserve_limits(&mut numbered.limits.items, passes, numbered.id, addr, now)
}

/// Takes memory for the passes; only the rules at the places have limiters.
pub(crate) fn reserve_rules(
    rules: &mut Vec<Numbered>,
    places: &[usize],
    passes: &[Passed],
    addr: &Addr,
    now: u64,
) -> Result<(), AllocError>
    requires moments { All (λ n. All (λ l. l.moment ≤ now) n.limits) rules.old.items }
    requires places { places.now ≡ places_of rules.old.items }
    ensures ok { OnOk result (rules.new.items ≡ changed_rules (λ l. reserved_at l addr.now now) passes.now rules.old.items) }
    ensures partly { PartlyReserved passes.now addr.now now rules.old.items rules.new.items }
{
    for at in places {
        reserve_rule(&mut rules[*at], passes, addr, now)?;
    }
    Ok(())
}

/// Counts a query, where the limiter is to.
fn pass_one(limiter: &mut Limiter, wanted: bool, addr: &Addr, now: u64)
    requires moment { limiter.old.moment ≤ now }
    requires ready { wanted ≡ true → IsReady addr.now now limiter.old }
    ensures { limiter.new ≡ (if wanted then passed_at limiter.old addr.now now else limiter.old) }
{
    if wanted {
        limiter.pass(addr, now);
    }
}

/// Counts a query in those limiters of a rule that have a pass.
fn pass_limits(limits: &mut Vec<Limiter>, passes: &[Passed], rule: RuleId, addr: &Addr, now: u64)
    requires moments { All (λ l. l.moment ≤ now) limits.old.items }
    requires ready { LimitersReady passes.now addr.now now rule 0 limits.old.items }
    ensures { limits.new.items ≡ changed_limits (λ l. passed_at l addr.now now) passes.now rule 0 limits.old.items }
{
    for at in 0..limits.len() {
        let wanted = has_pass(passes, rule, at);
        pass_one(&mut limits[at], wanted, addr, now);
    }
}

/// Counts a query in those of a rule's limiters that have a pass.
fn pass_rule(numbered: &mut Numbered, passes: &[Passed], addr: &Addr, now: u64)
    requires moments { All (λ l. l.moment ≤ now) numbered.old.limits }
    requires ready { LimitersReady passes.now addr.now now numbered.old.id 0 numbered.old.limits }
    ensures { numbered.new ≡ changed_rule (λ l. passed_at l addr.now now) passes.now numbered.old }
{
    pass_limits(&mut numbered.limits.items, passes, numbered.id, addr, now);
}

/// Counts the passes; only the rules at the places have limiters.
pub(crate) fn pass_rules(
    rules: &mut Vec<Numbered>,
    places: &[usize],
    passes: &[Passed],
    addr: &Addr,
    now: u64,
)
    requires moments { All (λ n. All (λ l. l.moment ≤ now) n.limits) rules.old.items }
    requires places { places.now ≡ places_of rules.old.items }
    requires ready { RulesReady passes.now addr.now now rules.old.items }
    ensures { rules.new.items ≡ counted passes.now addr.now now rules.old.items }
{
    for at in places {
        pass_rule(&mut rules[*at], passes, addr, now);
    }
}
