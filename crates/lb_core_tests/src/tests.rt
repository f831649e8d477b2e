//! What lines of `lb replay` cannot say of a balancer: equal values and copies, what an answer's
//! line leaves out, snapshots, runs, and lack of memory. Answers that are wanted were written out
//! by hand from RFC 1035.
//!
//! The rows at the end are for refused allocations: `rt try --test --fail-alloc N`. What lacked
//! memory is told again and then gets the answer that it gets with ample memory, so that nothing
//! was changed by it. A reply that was not kept for lack of memory ends its row: the query is gone,
//! and the next one is forwarded. Other lack of memory ends a test with an error, and no assertion
//! fails by it.

use crate::lines::{QUERY, REPLY, TOLD, event, events, held, lacks_memory, played, step, tell};
use lb_command::{answer_line, note_text};
use lb_core::{Answer, Balancer, DropReason, Event, LocalReason, Plain, run};
use lb_wire::{Addr, Kept, MAX_MESSAGE, Origin, RuleId};
use std::alloc::{AllocError, Global};
use std::test::Fail;

/// A copy of each event is equal to it and to none before it.
#[test]
fn equal_events(rt: HostRuntime) -> Result<(), Fail> {
    let events = told(rt.alloc())?;
    expect_equal_events(rt.alloc(), events.as_slice())
}

/// The events of `TOLD`.
fn told(alloc: Global) -> Result<Vec<Event>, Fail> {
    events(alloc, TOLD, 1)
}

fn expect_equal_events(alloc: Global, events: &[Event]) -> Result<(), Fail> {
    for (place, event) in events.iter().enumerate() {
        let first = events.iter().position(|other| other.equals(event));
        held(
            place,
            first == Some(place) && is_event_copied(alloc, event)?,
        )?;
    }
    Ok(())
}

/// Whether an event is equal to its copy, and its command too.
fn is_event_copied(alloc: Global, event: &Event) -> Result<bool, AllocError> {
    let copy = event.copy(alloc).or_else(|_refused| event.copy(alloc))?;
    Ok(event.equals(&copy) && has_equal_command(event, &copy))
}

/// Whether two events have equal commands, or none.
fn has_equal_command(event: &Event, other: &Event) -> bool {
    match (event, other) {
        (Event::Edit { command, .. }, Event::Edit { command: other, .. }) => {
            command.get().equals(other.get())
        }
        _ => true,
    }
}

/// A copy of each answer is equal to it and to none before it, one that is written into room that
/// was taken before too. Its note is its whole line, or the first word of it.
#[test]
fn equal_answers_and_notes(rt: HostRuntime) -> Result<(), Fail> {
    let answers = played(rt.alloc(), answers)?;
    expect_equal_answers(rt.alloc(), answers.as_slice())
}

fn expect_equal_answers(alloc: Global, answers: &[Answer]) -> Result<(), Fail> {
    for (place, answer) in answers.iter().enumerate() {
        let first = answers.iter().position(|other| other.equals(answer));
        let is_so = first == Some(place) && is_copied(alloc, answer)? && is_noted(alloc, answer)?;
        held(place, is_so)?;
    }
    Ok(())
}

/// Whether an answer is equal to its copies.
fn is_copied(alloc: Global, answer: &Answer) -> Result<bool, AllocError> {
    Ok(is_copied_anew(alloc, answer)? && is_copied_into(alloc, answer)?)
}

fn is_copied_anew(alloc: Global, answer: &Answer) -> Result<bool, AllocError> {
    let copy = answer.copy(alloc).or_else(|_refused| answer.copy(alloc))?;
    Ok(copy.equals(answer))
}

fn is_copied_into(alloc: Global, answer: &Answer) -> Result<bool, AllocError> {
    let room = Vec::with_capacity(alloc, MAX_MESSAGE)?;
    match too_much(alloc) {
        Err(refused) => Ok(answer.copy_into(room, refused).equals(answer)),
        Ok(_) => Ok(false),
    }
}

/// More memory than any machine has: it is refused.
fn too_much(alloc: Global) -> Result<Vec<u8>, AllocError> {
    Vec::with_capacity(alloc, usize::MAX)
}

/// Whether the note of an answer is its line, or the first word of its line where it is of no edit.
fn is_noted(alloc: Global, answer: &Answer) -> Result<bool, AllocError> {
    let line = answer_line(alloc, answer)?;
    let note = note_text(alloc, answer)?;
    let wanted = match answer {
        Answer::Edited(_) | Answer::Refused(_) => line.as_str(),
        _ => first_word(line.as_str()),
    };
    Ok(note.as_str() == wanted)
}

fn first_word(line: &str) -> &str {
    match line.split_once(' ') {
        Some((word, _)) => word,
        None => line,
    }
}

/// The answers of a balancer to the lines of `TOLD`.
fn answers(alloc: Global, balancer: &mut Balancer) -> Result<Vec<Answer>, Fail> {
    let mut answers = Vec::new(alloc);
    for line in TOLD {
        answers.push(tell(alloc, balancer, line)?)?;
    }
    Ok(answers)
}

/// A run gives the answers that single steps give of a balancer that began equal. If memory was
/// lacking for the answers' room, the events come back, and are run then.
#[test]
fn a_run_answers_as_single_steps_do(rt: HostRuntime) -> Result<(), Fail> {
    let stepped = played(rt.alloc(), answers)?;
    let run = run_of(rt.alloc(), told(rt.alloc())?)?;
    expect_equal(run.as_slice(), stepped.as_slice())
}

fn expect_equal(run: &[Answer], stepped: &[Answer]) -> Result<(), Fail> {
    if run.iter().any(lacks_memory) {
        return Err(Fail::from("memory was lacking"));
    }
    held(0, are_equal(run, stepped))
}

/// Whether a new balancer answers a run of such events as another one answers single steps.
pub(crate) fn are_as_steps<F: Fn(Global) -> Result<Vec<Event>, Fail>>(
    alloc: Global,
    events: F,
) -> Result<bool, Fail>
    requires { F.IsAlwaysCallable events }
{
    let stepped = steps_of(alloc, events(alloc)?)?;
    let run = run_of(alloc, events(alloc)?)?;
    Ok(are_equal(run.as_slice(), stepped.as_slice()))
}

fn are_equal(answers: &[Answer], others: &[Answer]) -> bool {
    answers.len() == others.len()
        && answers
            .iter()
            .zip(others)
            .all(|(answer, other)| answer.equals(other))
}

/// The answers of a new balancer to single steps.
fn steps_of(alloc: Global, events: Vec<Event>) -> Result<Vec<Answer>, Fail> {
    played(alloc, move |alloc, balancer| {
        let mut answers = Vec::new(alloc);
        for event in events {
            answers.push(step(balancer, event))?;
        }
        Ok(answers)
    })
}

/// The answers of a new balancer to a run. If there was no room for them, the events came back, and
/// are run again.
fn run_of(alloc: Global, events: Vec<Event>) -> Result<Vec<Answer>, Fail> {
    let many = events.len();
    played(alloc, move |alloc, balancer| {
        match run(alloc, balancer, events) {
            Ok(answers) => Ok(answers),
            Err((_, back)) if back.len() == many => run_again(alloc, balancer, back),
            Err(_) => Err(Fail::from("events that did not come back")),
        }
    })
}

fn run_again(
    alloc: Global,
    balancer: &mut Balancer,
    events: Vec<Event>,
) -> Result<Vec<Answer>, Fail> {
    match run(alloc, balancer, events) {
        Ok(answers) => Ok(answers),
        Err(_) => Err(Fail::from("no room for answers the second time")),
    }
}

/// Where a query comes from: of this, an answer's line says the slot alone.
const ORIGIN: Origin = Origin {
    front: 3,
    slot: 7,
    source: Addr::V6([0x20, 1, 0xd, 0xb8, 0, 0, 0, 0, 0, 0, 0, 0, 0, 0, 0, 7]),
    port: 5353,
};

/// `QUERY` from there, to a balancer; whether it is sent.
fn is_sent(alloc: Global, balancer: &mut Balancer) -> Result<bool, Fail> {
    match event(alloc, QUERY)? {
        Event::Query {
            now,
            kind,
            word,
            bytes,
            ..
        } => {
            let query = Event::Query {
                now,
                origin: ORIGIN,
                kind,
                word,
                bytes,
            };
            Ok(matches!(step(balancer, query), Answer::Forward(..)))
        }
        _ => Ok(false),
    }
}

/// Whom the answer to a line goes to.
fn client(alloc: Global, balancer: &mut Balancer, line: &str) -> Result<Option<Origin>, Fail> {
    match tell(alloc, balancer, line)? {
        Answer::Deliver(client, _, _) | Answer::Expired(client, _) => Ok(Some(client)),
        _ => Ok(None),
    }
}

/// A reply, and a query that is given up, go back to where the query came from.
fn expect_client(alloc: Global, balancer: &mut Balancer) -> Result<(), Fail> {
    expect(alloc, balancer, SERVER)?;
    for (row, line) in [REPLY, "tick 4000"].into_iter().enumerate() {
        let is_sent = is_sent(alloc, balancer)?;
        held(
            row,
            is_sent && client(alloc, balancer, line)? == Some(ORIGIN),
        )?;
    }
    Ok(())
}

/// The first rule does not end the walk, the second one drops, the third one answers.
const RULES: &[Line] = &[
    ("edit 0 rule add all none", "edited rule 1 added"),
    ("edit 0 rule add qtype(AAAA) drop", "edited rule 2 added"),
    (
        "edit 0 rule add qtype(A) rcode(REFUSED)",
        "edited rule 3 added",
    ),
];

/// The rule that the answer to a line says.
fn rule(alloc: Global, balancer: &mut Balancer, line: &str) -> Result<Option<RuleId>, Fail> {
    match tell(alloc, balancer, line)? {
        Answer::Dropped(DropReason::Rule(id)) | Answer::Local(_, LocalReason::Rule(id)) => {
            Ok(Some(id))
        }
        _ => Ok(None),
    }
}

/// An answer says which rule it comes from.
fn expect_rules(alloc: Global, balancer: &mut Balancer) -> Result<(), Fail> {
    play_on(alloc, balancer, RULES)?;
    held(0, rule(alloc, balancer, QUERY_AAAA)? == Some(RuleId(2)))?;
    held(1, rule(alloc, balancer, QUERY)? == Some(RuleId(3)))
}

/// An answer's line leaves out all of the client but its slot, and the number of the rule.
#[test]
fn answers_say_more_than_their_lines(rt: HostRuntime) -> Result<(), Fail> {
    played(rt.alloc(), expect_more)
}

fn expect_more(alloc: Global, balancer: &mut Balancer) -> Result<(), Fail> {
    expect_client(alloc, balancer)?;
    expect_rules(alloc, balancer)
}

/// `QUERY` for AAAA.
const QUERY_AAAA: &str =
    "query 1000 7 udp 192.0.2.1 16 123401000001000000000000076578616d706c6503636f6d00001c0001";

/// What a snapshot tells after a reply was kept.
#[test]
fn snapshot(rt: HostRuntime) -> Result<(), Fail> {
    let plain = played(rt.alloc(), snapshot_of_kept)?;
    held(0, is_of_kept(&plain))
}

fn is_of_kept(plain: &Plain) -> bool {
    plain.moment() == 2000
        && plain.timeout() == 2000
        && plain.next_rule() == 1
        && plain.next_server() == 2
        && plain.next_cache() == 2
        && plain.rules().is_empty()
        && plain.servers().len() == 1
        && plain.checks().len() == 1
        && plain.pools().len() == 1
        && plain.caches().len() == 1
        && plain.outstanding().is_empty()
        && matches!(plain.kept(), [kept] if kept.reply.life == 300)
}

/// A snapshot of a balancer that keeps a reply.
fn snapshot_of_kept(alloc: Global, balancer: &mut Balancer) -> Result<Plain, Fail> {
    keep_reply(alloc, balancer)?;
    Ok(taken(alloc, balancer)?)
}

/// A snapshot. If memory was lacking for it, it is taken once more.
fn taken(alloc: Global, balancer: &Balancer) -> Result<Plain, AllocError> {
    balancer
        .snapshot(alloc)
        .or_else(|_refused| balancer.snapshot(alloc))
}

/// Has a balancer keep a reply.
fn keep_reply(alloc: Global, balancer: &mut Balancer) -> Result<(), Fail> {
    for (line, _) in KEPT {
        if is_not_kept(&tell(alloc, balancer, line)?) {
            return Err(Fail::from("a reply that is not kept"));
        }
    }
    // A law, which does nothing.
    balancer.law_of_health();
    Ok(())
}

/// Whether memory was lacking for keeping a reply.
fn is_not_kept(answer: &Answer) -> bool {
    matches!(answer, Answer::Deliver(_, _, Kept::NoMemory))
}

/// A line, and the line of its answer.
type Line = (&'static str, &'static str);

const SERVER: Line = (
    "edit 0 server add s1 127.0.0.1 5301",
    "edited server 1 added",
);

/// A reply is kept for a day at most.
const KEPT: &[Line] = &[
    SERVER,
    (
        "edit 0 cache attach - 100 4 86400",
        "edited cache 1 attached",
    ),
    (QUERY, SENT_TO_1),
    (
        REPLY,
        "deliver 7 yes 123481800001000100000000076578616d706c6503636f6d0000010001c00c000100010000012c0004c0000201",
    ),
];

const SENT_TO_1: &str =
    "forward 1 udp 16 001001000001000000000000076578616d706c6503636f6d0000010001";

const SENT_TO_2: &str =
    "forward 2 udp 16 001001000001000000000000076578616d706c6503636f6d0000010001";

/// A reply that is kept answers the next query.
#[test]
fn lacking_memory_a_reply_is_delivered(rt: HostRuntime) -> Result<(), Fail> {
    play(rt.alloc(), KEPT)
}

/// If memory is lacking for a rule, no number is given. If it is lacking for a query, no pass, no
/// turn and no outstanding query is counted: a pass more would have the third query's answer come
/// at the second, a turn would send it to the other server, and an entry would take its ID.
const LIMITED: &[Line] = &[
    SERVER,
    (
        "edit 0 server add s2 127.0.0.1 5302",
        "edited server 2 added",
    ),
    (
        "edit 0 pool policy - roundrobin",
        "edited pool - policy roundrobin",
    ),
    ("edit 0 rule add maxqps(2) drop", "edited rule 1 added"),
    (QUERY, SENT_TO_1),
    (QUERY, SENT_TO_2),
    (QUERY, "dropped rule"),
];

#[test]
fn lacking_memory_a_query_counts_nothing(rt: HostRuntime) -> Result<(), Fail> {
    play(rt.alloc(), LIMITED)
}

/// If memory is lacking for an edit, it changes nothing.
const EDITED: &[Line] = &[
    ("edit 0 pool add p1", "edited pool p1 added"),
    (
        "edit 0 server add s1 127.0.0.1 5301 pool p1",
        "edited server 1 added",
    ),
    (
        "edit 0 cache attach p1 100 4 86400",
        "edited cache 1 attached",
    ),
    (
        "edit 0 rule add suffix(example.com) allow",
        "edited rule 1 added",
    ),
    (
        "edit 0 rule add maxqps(1) spoof(192.0.2.7)",
        "edited rule 2 added",
    ),
    (QUERY, SERV_FAIL),
    ("edit 0 rule move 2 0", "edited rule 2 moved"),
    (QUERY, SERV_FAIL),
    (
        QUERY,
        "local rule 123481800001000100000000076578616d706c6503636f6d0000010001c00c000100010000003c0004c0000207",
    ),
    (
        "edit 0 show",
        "edited rules 2 servers 1 pools 2 caches 1 outstanding 0 kept 0",
    ),
];

#[test]
fn lacking_memory_an_edit_changes_nothing(rt: HostRuntime) -> Result<(), Fail> {
    play(rt.alloc(), EDITED)
}

/// The line of the answer to `QUERY` where there is no server.
const SERV_FAIL: &str = "local noserver 123481820001000000000000076578616d706c6503636f6d0000010001";

/// Tells a new balancer the lines of a row, and compares the answers.
fn play(alloc: Global, row: &[Line]) -> Result<(), Fail> {
    played(alloc, move |alloc, balancer| play_on(alloc, balancer, row))
}

fn play_on(alloc: Global, balancer: &mut Balancer, row: &[Line]) -> Result<(), Fail> {
    for line in row {
        if !expect(alloc, balancer, *line)? {
            // The query whose reply came last is gone, and the next one is forwarded.
            expect(alloc, balancer, (REPLY, "ignored unknown"))?;
            expect(alloc, balancer, (QUERY, SENT_TO_1))?;
            return Ok(());
        }
    }
    Ok(())
}

/// Tells a balancer a line, and compares the answer. Whether the row goes on: not after a reply
/// that was not kept for lack of memory.
fn expect(alloc: Global, balancer: &mut Balancer, (line, wanted): Line) -> Result<bool, Fail> {
    let answer = tell(alloc, balancer, line)?;
    let told = answer_line(alloc, &answer)?;
    if told.as_str().starts_with("deliver 7 nomemory ") {
        return Ok(false);
    }
    if told.as_str() != wanted {
        return Err(Fail::new(format_args!("{told} in place of {wanted}")));
    }
    Ok(true)
}
