//! Runs of many events: more queries than a lane has IDs, than two have, and each octet of a query
//! and of its reply with each value. What is wanted follows from the rules for IDs and lanes; where
//! single steps are the measure, they are made of a balancer of their own.

use crate::lines::{QUERY, REPLY, TOLD, event, events, held, played, tell};
use crate::tests::are_as_steps;
use lb_core::{Answer, Balancer, Event, LocalReason, run};
use lb_wire::Kind;
use std::alloc::Global;
use std::test::Fail;

/// How many IDs a lane has.
const IDS: usize = 65_536;

/// A query with the word 0.
const QUERY_0: &str =
    "query 1000 7 udp 192.0.2.1 0 123401000001000000000000076578616d706c6503636f6d0000010001";

/// Whether a query was sent by the lanes of server 1 in their order, each with its IDs in their
/// order, or, after so many, found each ID taken: then it is answered with ServFail (RFC 1035
/// section 4.1.1), QR and RA.
fn is_in_order(place: usize, many: usize, answer: &Answer) -> bool {
    match answer {
        Answer::Forward(server, lane, id, _) => {
            place < many
                && server.0 == 1
                && lane.kind == Kind::Datagram
                && usize::from(lane.number) == place / IDS
                && usize::from(*id) == place % IDS
        }
        Answer::Local(bytes, LocalReason::LaneFull) => {
            place == many && matches!(bytes.as_slice(), [0x12, 0x34, 0x81, 0x82, ..])
        }
        _ => false,
    }
}

/// A run of one query with the word 0 more than so many, which fill the lanes of server 1.
fn fill(alloc: Global, balancer: &mut Balancer, many: usize) -> Result<(), Fail> {
    let events = events(alloc, &[QUERY_0], many.saturating_add(1))?;
    match run(alloc, balancer, events) {
        Ok(answers) => expect_filled(many, answers.as_slice()),
        Err((refused, _)) => Err(Fail::from(refused)),
    }
}

fn expect_filled(many: usize, answers: &[Answer]) -> Result<(), Fail> {
    for (place, answer) in answers.iter().enumerate() {
        held(place, is_in_order(place, many, answer))?;
    }
    held(many, answers.len() == many.saturating_add(1))
}

/// A lane's IDs are all taken by 65,536 queries. The next one is refused, and the pool's turn is
/// counted all the same: by 65,537 turns a further query goes to the second of two servers.
#[test]
fn a_lane_takes_65_536_queries(rt: HostRuntime) -> Result<(), Fail> {
    played(rt.alloc(), full_lane)
}

fn full_lane(alloc: Global, balancer: &mut Balancer) -> Result<(), Fail> {
    tell(alloc, balancer, "edit 0 server add s1 127.0.0.1 5301")?;
    tell(alloc, balancer, "edit 0 pool policy - roundrobin")?;
    fill(alloc, balancer, IDS)?;
    tell(alloc, balancer, "edit 0 server add s2 127.0.0.1 5302")?;
    let answer = tell(alloc, balancer, QUERY)?;
    held(
        IDS,
        matches!(answer, Answer::Forward(server, ..) if server.0 == 2),
    )
}

/// Two lanes take 131,072 queries, lane 0 first, as the word of each is 0.
#[test]
fn two_lanes_take_131_072_queries(rt: HostRuntime) -> Result<(), Fail> {
    played(rt.alloc(), full_lanes)
}

fn full_lanes(alloc: Global, balancer: &mut Balancer) -> Result<(), Fail> {
    tell(
        alloc,
        balancer,
        "edit 0 server add s1 127.0.0.1 5301 lanes 2",
    )?;
    fill(alloc, balancer, 2 * IDS)
}

/// A run of more than 1,000 events answers as single steps do.
#[test]
fn a_run_of_a_thousand_events_answers_as_single_steps_do(rt: HostRuntime) -> Result<(), Fail> {
    held(0, are_as_steps(rt.alloc(), a_thousand)?)
}

/// The events of `TOLD`, 25 times.
fn a_thousand(alloc: Global) -> Result<Vec<Event>, Fail> {
    events(alloc, TOLD, 25)
}

/// Each octet of a query, and of its reply, with each of its 256 values: a run answers as single
/// steps do.
#[test]
fn a_run_over_replaced_octets_answers_as_single_steps_do(rt: HostRuntime) -> Result<(), Fail> {
    held(0, are_as_steps(rt.alloc(), replaced)?)
}

/// A server, a cache, and `QUERY` and `REPLY` with each octet replaced, the query before each reply
/// as it is.
fn replaced(alloc: Global) -> Result<Vec<Event>, Fail> {
    let first = [
        "edit 0 server add s1 127.0.0.1 5301",
        "edit 0 cache attach - 100 4 86400",
    ];
    let mut events = events(alloc, &first, 1)?;
    push_replaced(alloc, &mut events, &[], QUERY)?;
    push_replaced(alloc, &mut events, &[QUERY], REPLY)?;
    Ok(events)
}

/// Puts a line after some events with each octet of its message replaced, each after the events of
/// other lines.
fn push_replaced(
    alloc: Global,
    events: &mut Vec<Event>,
    before: &[&str],
    line: &str,
) -> Result<(), Fail> {
    let Some((words, digits)) = line.rsplit_once(' ') else {
        return Err(Fail::from("a line without a message"));
    };
    for place in 0..digits.len() / 2 {
        let (Some(front), Some(rest)) = (digits.get(..2 * place), digits.get(2 * place + 2..))
        else {
            return Err(Fail::from("digits that do not pair"));
        };
        for value in 0..=u8::MAX {
            for before in before {
                events.push(event(alloc, before)?)?;
            }
            let line = format!(in alloc; "{words} {front}{value:02x}{rest}")?;
            events.push(event(alloc, line.as_str())?)?;
        }
    }
    Ok(())
}
