//! Requests that wait, and the answers that are handed to them.

use crate::rows::held;
use futures::channel::oneshot::Canceled;
use futures::executor::block_on;
use futures::future::poll_immediate;
use lb_doh::{Brought, DohBody, HttpPosts, Requests, Ticket, Waiting, carrying, read_request};
use lb_loops_io::{Posts, Why};
use lb_wire::{Addr, MAX_MESSAGE, Octets, Origin};
use std::alloc::{AllocError, AllocGlobal, Global};
use std::io;
use std::random::RandomSource;
use std::sync::{Arc, Mutex, Wait};
use std::test::Fail;
use std::thread::{Threads, join};

/// No request waits.
fn none(alloc: Global) -> Result<Arc<Requests>, AllocError> {
    Ok(Arc::new(alloc, Mutex::new(Waiting::new(alloc)))?)
}

/// Where the request with this number came from.
fn from(number: u64) -> Origin {
    Origin {
        front: 2,
        slot: number,
        source: Addr::V4([192, 0, 2, 9]),
        port: 4_242,
    }
}

/// These octets, as those of a message; none where they are too many for one.
fn octets(alloc: Global, bytes: &[u8]) -> Result<Octets, AllocError> {
    if bytes.len() > MAX_MESSAGE {
        return Ok(Octets::from_vec(Vec::new(alloc)));
    }
    Ok(Octets::from_vec(Vec::from_slice(alloc, bytes)?))
}

/// Hands an answer to the request of a number.
fn hand<R: Wait>(
    rt: &R,
    alloc: Global,
    requests: &Arc<Requests>,
    number: u64,
    bytes: &[u8],
) -> Result<Result<(), Why>, AllocError> {
    let answer = octets(alloc, bytes)?;
    let mut posts = HttpPosts::new(rt, alloc, Arc::try_clone(requests)?);
    Ok(posts.hand(from(number), &answer))
}

/// Whether no request waits under the numbers from 1 to this.
fn is_empty<R: Wait>(rt: &R, requests: &Requests, last: u64) -> bool {
    (1..=last).all(|number| requests.lock(rt).leave(number).is_none())
}

/// Whether an answer of these octets is there at the first look.
fn is_there<R: Wait + RandomSource + AllocGlobal>(
    rt: &R,
    brought: Brought,
    bytes: &[u8],
) -> io::Result<bool> {
    Ok(match block_on(rt, poll_immediate(brought))? {
        Some(Ok(answer)) => answer.as_slice() == bytes,
        _ => false,
    })
}

/// Answers of so many requests, one after the other, each before its request looks: whether each was there, and under the next number.
fn answered_at_once<R: Wait + RandomSource + AllocGlobal + Copy + Drop>(
    rt: R,
    requests: &Arc<Requests>,
    many: u64,
) -> io::Result<bool> {
    let alloc = rt.alloc();
    for number in 1..=many {
        let Ok((ticket, brought)) = Ticket::taken(rt, alloc, Arc::try_clone(requests)?) else {
            return Ok(false);
        };
        if ticket.number() != number {
            return Ok(false);
        }
        let handed = hand(&rt, alloc, requests, number, b"answer")?;
        if handed.is_err() || !is_there(&rt, brought, b"answer")? {
            return Ok(false);
        }
    }
    Ok(true)
}

#[test]
fn answers_before_the_first_look(rt: HostRuntime) -> Result<(), Fail> {
    let requests = none(rt.alloc())?;
    held(0, answered_at_once(rt, &requests, 100_000)?)?;
    held(1, is_empty(&rt, &requests, 100_000))
}

/// A client that leaves before its answer comes: what is said to the answer.
fn answered_late<R: Wait + Copy + Drop>(
    rt: R,
    alloc: Global,
    requests: &Arc<Requests>,
) -> Result<Option<Result<(), Why>>, AllocError> {
    let Ok((ticket, brought)) = Ticket::taken(rt, alloc, Arc::try_clone(requests)?) else {
        return Ok(None);
    };
    let number = ticket.number();
    drop(ticket);
    drop(brought);
    Ok(Some(hand(&rt, alloc, requests, number, b"answer")?))
}

#[test]
fn a_client_that_leaves(rt: HostRuntime) -> Result<(), Fail> {
    let alloc = rt.alloc();
    let requests = none(alloc)?;
    held(
        0,
        answered_late(rt, alloc, &requests)? == Some(Err(Why::Gone)),
    )?;
    held(1, is_empty(&rt, &requests, 1))?;
    // Its number is given to no other.
    held(2, answered_second(rt, &requests)?)?;
    held(3, is_empty(&rt, &requests, 2))
}

/// Whether the request after one that left has number 2, and gets its own answer.
fn answered_second<R: Wait + RandomSource + AllocGlobal + Copy + Drop>(
    rt: R,
    requests: &Arc<Requests>,
) -> io::Result<bool> {
    let alloc = rt.alloc();
    let Ok((ticket, brought)) = Ticket::taken(rt, alloc, Arc::try_clone(requests)?) else {
        return Ok(false);
    };
    let stray = hand(&rt, alloc, requests, 1, b"stray")?;
    let handed = hand(&rt, alloc, requests, 2, b"answer")?;
    let is_handed = stray == Err(Why::Gone) && handed == Ok(()) && ticket.number() == 2;
    Ok(is_handed && is_there(&rt, brought, b"answer")?)
}

/// Whether an answer that another thread brings is there for a request that waits for it.
fn answered_by_another<R: Threads + Wait + RandomSource + AllocGlobal + Sync + Copy + Drop>(
    rt: R,
    requests: &Arc<Requests>,
) -> io::Result<bool> {
    let alloc = rt.alloc();
    let Ok((ticket, brought)) = Ticket::taken(rt, alloc, Arc::try_clone(requests)?) else {
        return Ok(false);
    };
    let number = ticket.number();
    let posts = HttpPosts::new(&rt, alloc, Arc::try_clone(requests)?);
    let answer = octets(alloc, b"answer")?;
    let (handed, seen) = side_by_side(&rt, posts, from(number), answer, brought);
    let is_answer = match seen? {
        Ok(answer) => answer.as_slice() == b"answer".as_slice(),
        Err(_) => false,
    };
    Ok(handed == Ok(()) && is_answer)
}

/// Hands an answer in one thread, and waits for it in another.
fn side_by_side<R: Threads + Wait + RandomSource + AllocGlobal + Sync>(
    rt: &R,
    mut posts: HttpPosts<'_, R>,
    origin: Origin,
    answer: Octets,
    brought: Brought,
) -> (Result<(), Why>, io::Result<Result<Octets, Canceled>>) {
    join(
        rt,
        move || posts.hand(origin, &answer),
        move || block_on(rt, brought),
    )
}

#[test]
fn an_answer_of_another_thread(rt: HostRuntime) -> Result<(), Fail> {
    let requests = none(rt.alloc())?;
    held(0, answered_by_another(rt, &requests)?)?;
    held(1, is_empty(&rt, &requests, 1))
}

/// A POST of a header, from its head to its answer, with no desk between: its status, or None where its connection ends. An answer that comes
/// for it is the header with the mark of responses.
fn post<R: Wait + RandomSource + AllocGlobal + Copy + Drop>(
    rt: R,
    requests: &Arc<Requests>,
) -> Option<u16> {
    let alloc = rt.alloc();
    let body = octets(alloc, b"\xfb\xff\0\0\0\0\0\0\0\0\0\0").ok()?;
    let media = "application/dns-message";
    let read = read_request(alloc, "POST", "/dns-query", "", media, DohBody::Whole(body));
    let message = match read {
        Ok(message) => message,
        Err(fault) => return Some(fault.status()),
    };
    let (ticket, brought) = Ticket::taken(rt, alloc, Arc::try_clone(requests).ok()?).ok()?;
    drop(message);
    let answer = b"\xfb\xff\x80\0\0\0\0\0\0\0\0\0";
    let handed = hand(&rt, alloc, requests, ticket.number(), answer).ok()?;
    handed.ok()?;
    match block_on(&rt, poll_immediate(brought)) {
        Ok(Some(Ok(answer))) => Some(carrying(answer).status),
        _ => None,
    }
}

#[test]
fn a_post_with_memory_refused(rt: HostRuntime) -> Result<(), Fail> {
    let Ok(requests) = none(rt.alloc()) else {
        return Ok(());
    };
    let status = post(rt, &requests);
    held(0, matches!(status, Some(200 | 503) | None))?;
    held(1, is_empty(&rt, &requests, 1))
}
