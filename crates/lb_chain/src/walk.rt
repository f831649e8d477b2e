//! The walk of a query through the rules.

ghost use Rattle.std.specs.Prelude.{◌≡◌, ◌≤◌, ◌+◌, ◌++◌, false, IsTrue, length, map, None, Some, true};
ghost use Rattle.lb_wire.specs.declared.addr.Addr.{Addr as AddrValue};
ghost use Rattle.lb_wire.specs.declared.query.QueryView.{QueryView as ViewValue};
ghost use Rattle.std.specs.List.{All, list_any};
ghost use Rattle.lb_wire.specs.Answer.{fits_type as fits_type_of};
ghost use Rattle.lb_terms.specs.Truth.{limiters_of};
ghost use Rattle.lb_chain.specs.Edits.{limiters_in};
ghost use Rattle.lb_chain.specs.FirstAsked.{may_hold};
ghost use Rattle.lb_chain.specs.Offers.{AreOffers, terms_of};
ghost use Rattle.lb_chain.specs.Walk.{answers as answers_of, ending_of as ending_of_action, is_no_recurse as is_no_recurse_of, is_skip_cache as is_skip_cache_of, no_rule, passes_of, truth_of, walk_of, IsHeld};

use crate::action::Action;
use crate::numbered::Numbered;
use crate::offers::Offers;
use crate::walked::{Passed, PassedList, Verdict, Walked};
use lb_terms::{CheckedTerm, Term, holds};
use lb_wire::{Addr, Class, Kind, PoolId, QueryView, RecordType, RuleId, fits_type};

/// A query as the rules see it: its parts, the address that it came from, its transport, and the
/// moment in milliseconds.
#[derive(Debug, Drop)]
pub(crate) struct Arrival<'a> {
    pub(crate) view: &'a QueryView,
    pub(crate) addr: &'a Addr,
    pub(crate) kind: Kind,
    pub(crate) moment: u64,
}

/// Whether one of the addresses answers a question of this type.
fn one_fits(qtype: RecordType, addrs: &[Addr]) -> bool
    ensures { result ≡ list_any (fits_type_of qtype.0) addrs.now }
{
    addrs.iter().any(|addr| fits_type(qtype, addr))
}

/// Whether one of the addresses answers the question.
fn answers(view: &QueryView, addrs: &[Addr]) -> bool
    ensures { result ≡ answers_of view.now addrs.now }
{
    view.qclass.0 == Class::IN.0 && one_fits(view.qtype, addrs)
}

/// Whether an action ends the walk for a query of this transport. If so, its verdict is written
/// where it is to stand, as a verdict has many octets; else nothing is written.
fn ends(action: &Action<PoolId>, arrival: &Arrival<'_>, verdict: &mut Verdict) -> bool
    ensures ended { IsTrue result → ending_of_action action.now arrival.now.view.now arrival.now.kind ≡ Some verdict.new }
    ensures open { result ≡ false → ending_of_action action.now arrival.now.view.now arrival.now.kind ≡ None }
    ensures unwritten { result ≡ false → verdict.new ≡ verdict.old }
{
    match action {
        Action::Allow => *verdict = Verdict::Allow,
        Action::Drop => *verdict = Verdict::Drop,
        Action::Rcode(rcode) => *verdict = Verdict::Rcode(*rcode),
        Action::Pool(pool) => *verdict = Verdict::Pool(*pool),
        Action::Tc => match arrival.kind {
            Kind::Datagram => *verdict = Verdict::Tc,
            Kind::Stream => return false,
        },
        Action::Spoof(addrs) => {
            if !answers(arrival.view, addrs.as_slice()) {
                return false;
            }
            *verdict = Verdict::Spoof(*addrs);
        }
        Action::None => return false,
        Action::NoRecurse => return false,
        Action::SkipCache => return false,
    }
    true
}

fn is_no_recurse(action: &Action<PoolId>) -> bool
    ensures { result ≡ is_no_recurse_of action.now }
{
    match action {
        Action::NoRecurse => true,
        _ => false,
    }
}

fn is_skip_cache(action: &Action<PoolId>) -> bool
    ensures { result ≡ is_skip_cache_of action.now }
{
    match action {
        Action::SkipCache => true,
        _ => false,
    }
}

/// Puts the limiters of a rule with these numbers after the others.
fn add_passes(passes: &mut PassedList, rule: RuleId, limiters: &[u8])
    requires { length passes.old + length limiters.now ≤ 16 }
    ensures { passes.new ≡ passes.old ++ map (λ at. record { rule = rule; limiter = at }) limiters.now }
{
    for limiter in limiters {
        passes.items.push(Passed {
            rule,
            limiter: *limiter,
        });
    }
}

/// Whether the term is a set alone, so that it holds where it may hold.
fn is_set(term: &CheckedTerm) -> bool
    ensures { (view : ViewValue) (addr : AddrValue) → IsTrue result → may_hold term.now view addr ≡ true → IsHeld term.now view addr }
{
    match term.as_term() {
        Term::Suffix(_) | Term::Masks(_) => true,
        _ => false,
    }
}

/// Whether a rule holds of a query, if it may hold by what it asks first. Those of its limiters
/// that count the query are added to the passes.
fn test_rule(n: &Numbered, arrival: &Arrival<'_>, passes: &mut PassedList) -> bool
    requires may { may_hold n.now.rule.term arrival.now.view.now arrival.now.addr.now ≡ true }
    requires limiters { length n.now.limits ≡ limiters_of n.now.rule.term }
    requires moments { All (λ l. l.moment ≤ arrival.now.moment) n.now.limits }
    requires room { length passes.old + length n.now.limits ≤ 16 }
    ensures truth { result ≡ truth_of n.now arrival.now.view.now arrival.now.addr.now arrival.now.moment }
    ensures passes { passes.new ≡ passes.old ++ passes_of n.now arrival.now.view.now arrival.now.addr.now arrival.now.moment }
{
    if is_set(&n.rule.term) {
        return true;
    }
    let tested = holds(
        &n.rule.term,
        arrival.view,
        arrival.addr,
        n.limits.as_slice(),
        arrival.moment,
    );
    add_passes(passes, n.id, tested.passes.as_slice());
    tested.truth
}

/// Walks the rules for a query. Those alone are tested that may hold by what they ask first, as no
/// other changes anything.
pub(crate) fn walk_rules(
    rules: &[Numbered],
    offers: &Offers,
    arrival: &Arrival<'_>,
    walked: &mut Walked,
)
    requires begun { walked.old ≡ no_rule }
    requires limiters { All (λ n. length n.limits ≡ limiters_of n.rule.term) rules.now }
    requires few { limiters_in rules.now ≤ 16 }
    requires moments { All (λ n. All (λ l. l.moment ≤ arrival.now.moment) n.limits) rules.now }
    requires offers { AreOffers offers.now (terms_of rules.now) }
    ensures { walked.new ≡ walk_of rules.now arrival.now.view.now arrival.now.addr.now arrival.now.kind arrival.now.moment }
{
    let mut ahead = offers.ahead();
    'rules: while let Some(place) = offers.next(&mut ahead, arrival.view, arrival.addr) {
        let n = &rules[place];
        walked.tests += 1;
        if test_rule(n, arrival, &mut walked.passes) {
            if ends(&n.rule.action, arrival, &mut walked.verdict) {
                walked.rule = Some(n.id);
                return;
            }
            walked.no_recurse |= is_no_recurse(&n.rule.action);
            walked.skip_cache |= is_skip_cache(&n.rule.action);
        }
    }
}
