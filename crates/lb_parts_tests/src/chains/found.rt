//! Rules that are found by what they ask first, and sets within terms, by values worked out by
//! hand.

use super::{Clock, Does, EXAMPLE, Ending, UNTOUCHED, Walk, action, gives, rule_of};
use crate::rows::held;
use crate::terms::Op::{And, Blocks, Masks, Not, Numbered, Or, Qtype, Suffix, Suffixes};
use crate::terms::{ONE_QPS, Op, sound};
use Edit::{Adds, Moves};
use Ending::{Allow, Dropped, Forwarded, Refused, Truncated};
use lb_chain::{Passed, Rule, Walked};
use lb_masks::parse_addr;
use lb_name::Name;
use lb_wire::{Kind, PoolId, RecordType, RuleId, read_query};
use std::alloc::Global;
use std::test::Fail;

const A: RecordType = RecordType::A;

const AAAA: RecordType = RecordType::AAAA;

const MX: RecordType = RecordType::MX;

const TXT: RecordType = RecordType::TXT;

const POOLED: Ending = Forwarded(PoolId(3));

/// A rule: the words of its term, and what it does.
type Line = (&'static [Op], Does);

/// A query by a datagram: its name, its type and where it comes from.
type Query = (&'static str, RecordType, &'static str);

/// What a walk comes to: the rule that ends it, 0 where none does; how; how many rules it tests;
/// and the limiters that count.
type Found = (u64, Ending, usize, &'static [Passed]);

/// Walks the rules for a query at 1,500.
fn walk(clock: &Clock, query: &Query) -> Result<Walked, Fail> {
    let (name, qtype, addr) = query;
    let mut view = read_query(EXAMPLE)?;
    view.name = Name::parse_text(name)?;
    view.qtype = *qtype;
    let addr = parse_addr(addr).ok_or("no address")?;
    Ok(clock.walk_for(&view, &addr, Kind::Datagram, 1500))
}

/// Whether a walk comes to this.
fn is_found(clock: &Clock, query: &Query, found: &Found) -> Result<bool, Fail> {
    let (rule, ending, tests, passes) = *found;
    let walked = walk(clock, query)?;
    let wanted = Walk {
        rule,
        ending,
        passes,
        ..UNTOUCHED
    };
    Ok(gives(&walked, &wanted) && walked.tests == tests)
}

/// Whether walks come to what stands beside their queries.
fn are_found(clock: &Clock, rows: &[(Query, Found)]) -> Result<(), Fail> {
    for (row, (query, found)) in rows.iter().enumerate() {
        held(row, is_found(clock, query, found)?)?;
    }
    Ok(())
}

fn rule(alloc: Global, ops: &[Op], does: Does) -> Result<Rule, Fail> {
    let action = action(does)?;
    let term = sound(alloc, ops)?;
    Ok(Rule { term, action })
}

/// Adds a rule behind the others.
fn append(alloc: Global, clock: &mut Clock, ops: &[Op], does: Does) -> Result<(), Fail> {
    let place = clock.chain.len();
    let _id = clock.add(place, rule(alloc, ops, does)?)?;
    Ok(())
}

/// A chain of these rules, which have the numbers from 1 on.
fn chain_of(alloc: Global, lines: &[Line]) -> Result<Clock, Fail> {
    let mut clock = Clock::new(alloc);
    for (ops, does) in lines {
        append(alloc, &mut clock, ops, *does)?;
    }
    Ok(clock)
}

/// 300 rules, of which each odd one refuses the names under x1.example, x3.example and so on by its
/// number, and each even one drops those under example; and one that drops all.
fn long_chain(alloc: Global) -> Result<Clock, Fail> {
    let mut clock = Clock::new(alloc);
    for number in 1..=300 {
        if number % 2 == 1 {
            append(alloc, &mut clock, &[Numbered(number, number)], Does::Refuse)?;
        } else {
            append(alloc, &mut clock, &[Suffix("example")], Does::Drop)?;
        }
    }
    append(alloc, &mut clock, &[Op::All], Does::Drop)?;
    Ok(clock)
}

/// Rules whose sets do not have the name are not tested.
const LONG: &[(Query, Found)] = &[
    (("b.test", A, "192.0.2.1"), (301, Dropped, 1, &[])),
    (("x1.example", A, "192.0.2.1"), (1, Refused, 1, &[])),
    (("a.x1.example", A, "192.0.2.1"), (1, Refused, 1, &[])),
    // rule 2 ends what has a rule of its own only after it
    (("a.x3.example", A, "192.0.2.1"), (2, Dropped, 1, &[])),
    (("x299.example", A, "192.0.2.1"), (2, Dropped, 1, &[])),
    (("example", A, "192.0.2.1"), (2, Dropped, 1, &[])),
];

#[test]
fn a_name_meets_its_own_rules_alone(rt: HostRuntime) -> Result<(), Fail> {
    are_found(&long_chain(rt.alloc())?, LONG)
}

/// Rules with sets that none of them asks first, each large enough for an index of its own.
const WITHIN: &[Line] = &[
    (&[Qtype(A), Numbered(1, 70), And], Does::Allow),
    (&[Numbered(1, 70), Qtype(MX), Or], Does::Refuse),
    (&[Blocks(40), Not], Does::Drop),
];

/// Each of the rules is tested up to the one that ends the walk.
const SETS: &[(Query, Found)] = &[
    // the first of the names, the last of them, and one after the last
    (("a.x1.example", A, "10.1.2.3"), (1, Allow, 1, &[])),
    (("X70.EXAMPLE", A, "10.1.2.3"), (1, Allow, 1, &[])),
    (("x71.example", A, "10.1.2.3"), (0, Allow, 3, &[])),
    (("x1.example", AAAA, "10.1.2.3"), (2, Refused, 2, &[])),
    (("b.x70.example", AAAA, "10.1.2.3"), (2, Refused, 2, &[])),
    (("x71.example", MX, "10.1.2.3"), (2, Refused, 2, &[])),
    (("example", AAAA, "10.1.2.3"), (0, Allow, 3, &[])),
    // the last block of each family, and what lies beside them
    (("b.test", A, "10.39.255.255"), (0, Allow, 3, &[])),
    (("b.test", A, "10.40.0.0"), (3, Dropped, 3, &[])),
    (("b.test", A, "2001:db8:2::"), (0, Allow, 3, &[])),
    (("b.test", A, "2001:db8:40:ffff::1"), (0, Allow, 3, &[])),
    (("b.test", A, "2001:db8:39::1"), (3, Dropped, 3, &[])),
    // an IPv4 address within one of IPv6 is another one
    (("b.test", A, "::ffff:a01:203"), (3, Dropped, 3, &[])),
];

#[test]
fn sets_within_terms(rt: HostRuntime) -> Result<(), Fail> {
    are_found(&chain_of(rt.alloc(), WITHIN)?, SETS)
}

/// Rules that ask for a set first, and others between them.
const MIXED: &[Line] = &[
    (&[Suffix("a.example")], Does::Allow),
    (&[Qtype(MX)], Does::Refuse),
    (&[Masks("10.0.0.0/8")], Does::Drop),
    (&[ONE_QPS], Does::Tc),
    (
        &[Suffix("b.example"), Qtype(TXT), Or],
        Does::Pool(PoolId(3)),
    ),
    (&[Masks("2001:db8::/32")], Does::Allow),
    (&[Masks("192.0.2.0/24"), Not], Does::Refuse),
    (&[Suffix("com"), ONE_QPS, And], Does::Nothing),
    (&[Suffix("com")], Does::Drop),
];

/// The limiter of rule 4 counts a query, and so does that of rule 8.
const BY_4: &[Passed] = &[Passed {
    rule: RuleId(4),
    limiter: 0,
}];

const BY_4_AND_8: &[Passed] = &[
    Passed {
        rule: RuleId(4),
        limiter: 0,
    },
    Passed {
        rule: RuleId(8),
        limiter: 0,
    },
];

/// Walks once a query for example.com of 192.0.2.1 is counted.
const KINDS: &[(Query, Found)] = &[
    (("a.example", MX, "10.0.0.1"), (1, Allow, 1, &[])),
    (("b.example", MX, "10.0.0.1"), (2, Refused, 1, &[])),
    (("b.example", A, "10.0.0.1"), (3, Dropped, 2, &[])),
    // over the rate, and the first one of another address
    (("b.example", A, "192.0.2.1"), (4, Truncated, 2, &[])),
    (("b.example", A, "192.0.2.2"), (5, POOLED, 3, BY_4)),
    (("c.example", TXT, "2001:db8::1"), (5, POOLED, 3, BY_4)),
    (("c.example", A, "2001:db8::1"), (6, Allow, 4, BY_4)),
    (("c.com", A, "2001:db9::1"), (7, Refused, 4, BY_4)),
    (("c.com", A, "192.0.2.2"), (9, Dropped, 6, BY_4_AND_8)),
    // rule 8 asks for a name first, and its limiter counts no other one
    (("c.example", A, "192.0.2.2"), (0, Allow, 4, BY_4)),
];

#[test]
fn rules_that_ask_for_no_set_between_others(rt: HostRuntime) -> Result<(), Fail> {
    let mut clock = chain_of(rt.alloc(), MIXED)?;
    let walked = clock.comes(1000)?;
    held(KINDS.len(), walked.passes.as_slice() == BY_4_AND_8)?;
    are_found(&clock, KINDS)
}

/// An edit of a chain.
#[derive(Clone, Copy)]
enum Edit {
    /// A rule is added at a place, and gets this number.
    Adds(usize, Line, u64),
    /// The rule with a number is moved to a place.
    Moves(u64, usize),
}

/// Whether a chain takes an edit; it does not where it is refused memory.
fn takes(alloc: Global, clock: &mut Clock, edit: Edit) -> Result<bool, Fail> {
    Ok(match edit {
        Edit::Adds(place, (ops, does), id) => {
            clock.add(place, rule(alloc, ops, does)?) == Ok(RuleId(id))
        }
        Edit::Moves(id, place) => clock.shift(id, place) == Ok(()),
    })
}

/// Queries whose walks show the edits.
const FOUR: &[Query] = &[
    ("a.x1.example", A, "192.0.2.1"),
    ("a.example.com", A, "10.1.0.1"),
    ("b.test", MX, "2001:db8:4::1"),
    ("b.test", TXT, "192.0.2.1"),
];

/// Of each of the four walks the rule that ends it, 0 where none does, and how many rules it tests.
type Ends = &'static [(u64, usize)];

/// Edits, each with what the four walks come to after it.
const EDITS: &[(Edit, Ends)] = &[
    (
        Adds(0, (&[Numbered(1, 3)], Does::Refuse), 1),
        &[(1, 1), (0, 0), (0, 0), (0, 0)],
    ),
    (
        Adds(1, (&[Blocks(4)], Does::Drop), 2),
        &[(1, 1), (2, 1), (2, 1), (0, 0)],
    ),
    // no limiter has counted anything
    (
        Adds(0, (&[Qtype(MX), ONE_QPS, Not, And], Does::Allow), 3),
        &[(1, 2), (2, 2), (3, 1), (0, 1)],
    ),
    // so many names have an index of their own
    (
        Adds(1, (&[Suffixes(65), Qtype(TXT), Or], Does::Tc), 4),
        &[(1, 3), (4, 2), (3, 1), (4, 2)],
    ),
    // from 3, 4, 1, 2 to 4, 1, 2, 3, to 1, 4, 2, 3 and to 2, 1, 4, 3
    (Moves(3, 3), &[(1, 2), (4, 1), (2, 2), (4, 1)]),
    (Moves(1, 0), &[(1, 1), (4, 1), (2, 2), (4, 1)]),
    (Moves(2, 0), &[(1, 1), (2, 1), (2, 1), (4, 1)]),
];

/// Whether each of the four walks ends so.
fn are_ends(clock: &Clock, ends: &[(u64, usize)]) -> Result<bool, Fail> {
    for (query, (rule, tests)) in FOUR.iter().zip(ends) {
        let walked = walk(clock, query)?;
        if rule_of(&walked) != *rule || walked.tests != *tests {
            return Ok(false);
        }
    }
    Ok(true)
}

/// Whether a chain takes an edit. Where it is refused memory, the walks have to end as before, and
/// the edit comes again.
fn is_edited(
    alloc: Global,
    clock: &mut Clock,
    edit: Edit,
    before: &[(u64, usize)],
) -> Result<bool, Fail> {
    Ok(takes(alloc, clock, edit)? || (are_ends(clock, before)? && takes(alloc, clock, edit)?))
}

/// With `rt try --test --fail-alloc N` a rule has no memory, which ends the test, or an edit is
/// refused.
#[test]
fn a_refused_edit_changes_no_walk(rt: HostRuntime) -> Result<(), Fail> {
    let mut clock = Clock::new(rt.alloc());
    let mut before: Ends = &[(0, 0); 4];
    for (row, (edit, after)) in EDITS.iter().enumerate() {
        let edited = is_edited(rt.alloc(), &mut clock, *edit, before)?;
        held(row, edited && are_ends(&clock, after)?)?;
        before = after;
    }
    Ok(())
}
