//! Edits of the list of rules.

ghost use Rattle.std.specs.Prelude.{◌≡◌, ◌≤◌, ◌<◌, IfSome, OnErr, OnOk, length, vec_len, slice_get};
ghost use Rattle.std.specs.List.{All, insert};
ghost use Rattle.lb_chain.specs.Offers.{AreOffers, terms_of};
ghost use Rattle.lb_chain.specs.Edits.{numbered_of, place_of as place_of_id, put_again};
ghost use Rattle.lb_terms.specs.Truth.{limiters_of};

use crate::limiters::Limiters;
use crate::numbered::Numbered;
use crate::offers::Offers;
use crate::rule::Rule;
use lb_terms::new_limiters;
use lb_wire::RuleId;
use std::alloc::AllocError;

/// The place of the rule with a number.
pub(crate) fn place_of(rules: &[Numbered], id: RuleId) -> Option<usize>
    ensures place { result ≡ place_of_id id rules.now }
    ensures within { IfSome result (λ at. at < length rules.now) }
{
    rules.iter().position(|n| n.id.0 == id.0)
}

/// Puts a rule with this number at a place, with limiters that have counted nothing and with indexes for the sets within its
/// term, and offers it. If memory is lacking the rules stay as they were, and so does what is offered.
pub(crate) fn insert_rule(
    rules: &mut Vec<Numbered>,
    offers: &mut Offers,
    place: usize,
    id: u64,
    mut rule: Rule,
) -> Result<(), AllocError>
    requires offers { AreOffers offers.old (terms_of rules.old.items) }
    requires place { place ≤ vec_len rules.old }
    requires few { vec_len rules.old ≤ 4096 }
    ensures ok { OnOk result (rules.new.items ≡ insert rules.old.items place (numbered_of id rule)) }
    ensures count { OnOk result (length (numbered_of id rule).limits ≡ limiters_of rule.term) }
    ensures moments { OnOk result (All (λ l. l.moment ≡ 0) (numbered_of id rule).limits) }
    ensures err { OnErr result (rules.new.items ≡ rules.old.items) }
    ensures offers { AreOffers offers.new (terms_of rules.new.items) }
{
    rule.term.index_sets()?;
    let items = new_limiters(*rules.allocator(), &rule.term)?;
    rules.reserve(1)?;
    offers.insert(rules.as_slice(), place, &rule.term)?;
    // The room was taken before.
    rules
        .insert(
            place,
            Numbered {
                id: RuleId(id),
                rule,
                limits: Limiters { items },
            },
        )
        .unwrap();
    Ok(())
}

/// Offers a rule at another place, which counts in the list without it, and at its own no more. If memory is lacking it is
/// offered as it was.
fn move_offer(
    offers: &mut Offers,
    rules: &[Numbered],
    at: usize,
    place: usize,
) -> Result<(), AllocError>
    requires offers { AreOffers offers.old (terms_of rules.now) }
    requires at { at < length rules.now }
    requires place { place < length rules.now }
    requires few { length rules.now ≤ 4096 }
    ensures ok { OnOk result (AreOffers offers.new (terms_of (put_again rules.now at place (slice_get rules.now at)))) }
    ensures err { OnErr result (AreOffers offers.new (terms_of rules.now)) }
{
    let term = &rules[at].rule.term;
    if at < place {
        offers.insert(rules, place + 1, term)?;
        offers.remove(at, term);
    } else {
        offers.insert(rules, place, term)?;
        offers.remove(at + 1, term);
    }
    Ok(())
}

/// Takes the rule at one place out and puts it at another, which counts in the list without it, and offers it there. Where
/// memory is lacking the rules stay as they were, and so does what is offered.
pub(crate) fn move_rule(
    rules: &mut Vec<Numbered>,
    offers: &mut Offers,
    at: usize,
    place: usize,
) -> Result<(), AllocError>
    requires offers { AreOffers offers.old (terms_of rules.old.items) }
    requires at { at < vec_len rules.old }
    requires place { place < vec_len rules.old }
    requires few { vec_len rules.old ≤ 4096 }
    ensures ok { OnOk result (rules.new.items ≡ put_again rules.old.items at place (slice_get rules.old.items at)) }
    ensures err { OnErr result (rules.new.items ≡ rules.old.items) }
    ensures offers { AreOffers offers.new (terms_of rules.new.items) }
{
    move_offer(offers, rules.as_slice(), at, place)?;
    let numbered = rules.remove(at);
    // The place that it left is room enough.
    rules.insert(place, numbered).unwrap();
    Ok(())
}
