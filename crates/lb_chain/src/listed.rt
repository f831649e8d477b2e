//! Rules as they are listed.

ghost use Rattle.std.specs.Prelude.{◌≡◌, ◌≤◌, ◌++◌, IfOk, OnOk, length, map};
ghost use Rattle.std.specs.List.{All, filter};
ghost use Rattle.lb_chain.specs.Listed.{counted_from, counts_at, listed_of};
ghost use Rattle.lb_chain.specs.Seen.{seen_rule, seen_rules};

use crate::numbered::Numbered;
use crate::rule::Rule;
use lb_limits::{Limiter, Pass, WINDOW};
use lb_wire::RuleId;
use std::alloc::{AllocError, Global};
use std::marker::Model;

/// A pass that one of a rule's limiters holds.
#[derive(Clone, Copy, Debug, PartialEq, Eq)]
pub struct RulePass {
    /// The number of the limiter in the rule, from 0 and from the left.
    pub limiter: u8,
    pub pass: Pass,
}

/// The passes that a rule's limiters hold: by limiter, then in the limiter's order. A contract sees them as the list.
#[derive(Debug, Drop)]
pub struct RulePasses {
    pub(crate) items: Vec<RulePass>,
}

impl Model for RulePasses {
    ghost use Rattle.std.specs.Prelude.{List};
    ghost use Rattle.lb_chain.specs.declared.listed.RulePass.{RulePass};

    ghost Value = { List RulePass };

    ghost view = { λ p. p.items.items };
}

impl RulePass {
    /// Whether it counts at a moment.
    fn is_recent(&self, now: u64) -> bool
        ensures { result ≡ counts_at now self.now }
    {
        now.saturating_sub(self.pass.moment) < WINDOW
    }
}

impl RulePasses {
    /// The passes, in order.
    pub fn as_slice(&self) -> &[RulePass]
        ensures { result.now ≡ self.now }
    {
        self.items.as_slice()
    }

    /// Equal passes. The one error is lack of memory.
    fn copy(&self, alloc: Global) -> Result<RulePasses, AllocError>
        ensures { IfOk result (λ copy. copy ≡ self.now) }
    {
        Ok(RulePasses {
            items: Vec::from_slice(alloc, self.items.as_slice())?,
        })
    }

    /// Drops the passes that do not count at a moment.
    fn keep_recent(&mut self, now: u64)
        ensures { self.new ≡ filter (counts_at now) self.old }
    {
        self.items.retain(|p| p.is_recent(now));
    }
}

/// A rule of the list, with its number and the passes that its limiters hold.
#[derive(Debug, Drop)]
pub struct Listed {
    pub id: RuleId,
    pub rule: Rule,
    pub passes: RulePasses,
}

impl Listed {
    /// An equal rule of the list. The one error is lack of memory.
    pub fn copy(&self, alloc: Global) -> Result<Listed, AllocError>
        ensures { IfOk result (λ copy. copy ≡ self.now) }
    {
        Ok(Listed {
            id: self.id,
            rule: self.rule.copy(alloc)?,
            passes: self.passes.copy(alloc)?,
        })
    }
}

/// Puts the passes of the limiter with this number after the others.
fn list_passes(all: &mut Vec<RulePass>, limiter: u8, passes: &[Pass]) -> Result<(), AllocError>
    ensures { OnOk result (all.new.items ≡ all.old.items ++ map (λ pass. record { limiter = limiter; pass = pass }) passes.now) }
{
    for pass in passes {
        all.push(RulePass {
            limiter,
            pass: *pass,
        })?;
    }
    Ok(())
}

/// The passes of a rule's limiters.
fn list_limits(alloc: Global, limits: &[Limiter]) -> Result<Vec<RulePass>, AllocError>
    requires { length limits.now ≤ 16 }
    ensures { IfOk result (λ all. all.items ≡ counted_from 0 limits.now) }
{
    let mut all = Vec::new(alloc);
    for at in 0..limits.len() {
        let passes = limits[at].list(alloc)?;
        list_passes(&mut all, at as u8, passes.as_slice())?;
    }
    Ok(all)
}

/// A rule as it is listed.
fn list_rule(alloc: Global, numbered: &Numbered) -> Result<Listed, AllocError>
    requires { length numbered.now.limits ≤ 16 }
    ensures { IfOk result (λ listed. listed ≡ listed_of numbered.now) }
{
    Ok(Listed {
        id: numbered.id,
        rule: numbered.rule.copy(alloc)?,
        passes: RulePasses {
            items: list_limits(alloc, numbered.limits.as_slice())?,
        },
    })
}

/// A rule as it is listed, with the passes that count at a moment.
fn list_rule_at(alloc: Global, numbered: &Numbered, now: u64) -> Result<Listed, AllocError>
    requires { length numbered.now.limits ≤ 16 }
    ensures { IfOk result (λ listed. listed ≡ listed_of (seen_rule now numbered.now)) }
{
    let mut listed = list_rule(alloc, numbered)?;
    listed.passes.keep_recent(now);
    Ok(listed)
}

/// The rules as they are listed.
pub(crate) fn list_rules(alloc: Global, rules: &[Numbered]) -> Result<Vec<Listed>, AllocError>
    requires { All (λ n. length n.limits ≤ 16) rules.now }
    ensures { IfOk result (λ list. list.items ≡ map listed_of rules.now) }
{
    let mut list = Vec::with_capacity(alloc, rules.len())?;
    for numbered in rules {
        list.push(list_rule(alloc, numbered)?)?;
    }
    Ok(list)
}

/// The rules as they are listed, with the passes that count at a moment.
pub(crate) fn list_rules_at(
    alloc: Global,
    rules: &[Numbered],
    now: u64,
) -> Result<Vec<Listed>, AllocError>
    requires { All (λ n. length n.limits ≤ 16) rules.now }
    ensures { IfOk result (λ list. list.items ≡ map listed_of (seen_rules now rules.now)) }
{
    let mut seen = Vec::with_capacity(alloc, rules.len())?;
    for numbered in rules {
        seen.push(list_rule_at(alloc, numbered, now)?)?;
    }
    Ok(seen)
}
