//! Messages: what no line of a replay says of them. The octets were worked out by hand from RFC
//! 1035 section 4.1 and RFC 6891 section 6.1, or come from other programs; rows/ has what lines
//! say.

mod captured;
mod printed;

use super::rows::{held, too_much};
use captured::CAPTURED;
use lb_wire::{Kind, MAX_MESSAGE, Octets, Survey, key_of, read_query, read_reply, survey};
use std::alloc::{AllocError, Global};
use std::test::Fail;

/// The octets that hexadecimal digits spell.
fn octets(alloc: Global, digits: &str) -> Result<Vec<u8>, Fail> {
    Ok(hex::decode(alloc, digits)?)
}

/// A query for example.com with NSID, a cookie and padding of two octets, and an octet after the
/// record.
const WITH_OPTIONS: &str =
    "123401000001000000000001076578616d706c6503636f6d0000010001000029100000008000001600030000000a00080102030405060708000c00020000ff";

/// Its key without the cookie and the padding.
const KEY: &str =
    "01000001000000000001076578616d706c6503636f6d0000010001000029100000008000000400030000ff";

/// Whether the key of a query without options of these codes is these octets, and its copy too.
fn is_key(
    alloc: Global,
    query: &[u8],
    kind: Kind,
    skips: &[u16],
    wanted: &[u8],
) -> Result<bool, Fail> {
    let view = read_query(query)?;
    if query.len() > MAX_MESSAGE {
        return Ok(false);
    }
    let key = key_of(alloc, query, &view, kind, skips)?;
    let copy = key.copy(alloc).or_else(|_refused| key.copy(alloc))?;
    let same = copy.octets.as_slice() == wanted && copy.octets.equals(&key.octets);
    Ok(same && key.kind == kind && copy.kind == kind)
}

#[test]
fn keys(rt: HostRuntime) -> Result<(), Fail> {
    let alloc = rt.alloc();
    let query = octets(alloc, WITH_OPTIONS)?;
    let key = octets(alloc, KEY)?;
    for (row, kind) in [Kind::Datagram, Kind::Stream].into_iter().enumerate() {
        let is_so = is_key(alloc, query.as_slice(), kind, &[12, 10], key.as_slice())?;
        held(row, is_so)?;
    }
    Ok(())
}

/// Whether so many octets, which are no more than a message may have, are copied into room that was
/// taken before for the longest message, and keep no more room than they need.
fn is_copied(alloc: Global, octets: Vec<u8>) -> Result<bool, AllocError> {
    let len = octets.len();
    if len > MAX_MESSAGE {
        return Ok(false);
    }
    let octets = Octets::from_vec(octets);
    let room = Vec::with_capacity(alloc, MAX_MESSAGE)?;
    let copy = match too_much(alloc) {
        Err(refused) => octets.copy_into(room, refused),
        Ok(_) => return Ok(false),
    };
    let equal = copy.equals(&octets);
    let copy = copy.into_vec();
    Ok(equal && copy.len() == len && copy.capacity() == len)
}

#[test]
fn octets_in_room_taken_before(rt: HostRuntime) -> Result<(), Fail> {
    for (row, len) in [0, 3, MAX_MESSAGE].into_iter().enumerate() {
        let octets = Vec::from_elem(rt.alloc(), 7, len)?;
        held(row, is_copied(rt.alloc(), octets)?)?;
    }
    Ok(())
}

/// The least time to live of a reply, and the least one of its answers, which no line shows.
#[test]
fn least_times_to_live(rt: HostRuntime) -> Result<(), Fail> {
    for (row, (reply, least_all, least_answer)) in CAPTURED.iter().enumerate() {
        let reply = octets(rt.alloc(), reply)?;
        let wanted = Survey {
            least_all: *least_all,
            least_answer: *least_answer,
        };
        held(row, survey(reply.as_slice()) == Some(wanted))?;
    }
    Ok(())
}

/// How many of some messages are queries, are replies, and have a survey.
#[derive(Clone, Copy)]
struct Counts {
    queries: u32,
    replies: u32,
    surveys: u32,
}

/// Counts a message.
fn count(counts: &mut Counts, bytes: &[u8]) {
    if read_query(bytes).is_ok() {
        counts.queries = counts.queries.saturating_add(1);
    }
    if read_reply(bytes).is_ok() {
        counts.replies = counts.replies.saturating_add(1);
    }
    if survey(bytes).is_some() {
        counts.surveys = counts.surveys.saturating_add(1);
    }
}

/// Counts the messages in which the octet at a place takes each of its 256 values.
fn count_at(counts: &mut Counts, bytes: &mut [u8], place: usize) {
    for octet in 0..=u8::MAX {
        if let Some(there) = bytes.get_mut(place) {
            *there = octet;
        }
        count(counts, bytes);
    }
}

/// Whether these are the counts of all places.
fn has_counts(alloc: Global, text: &str, wanted: Counts) -> Result<bool, Fail> {
    let mut counts = Counts {
        queries: 0,
        replies: 0,
        surveys: 0,
    };
    let bytes = octets(alloc, text)?;
    for place in 0..bytes.len() {
        let mut changed = octets(alloc, text)?;
        count_at(&mut counts, changed.as_mut_slice(), place);
    }
    Ok(
        counts.queries == wanted.queries
            && counts.replies == wanted.replies
            && counts.surveys == wanted.surveys,
    )
}

/// Queries for example.com A IN, without an OPT and with one that has DO. Each octet takes each of
/// its 256 values. The counts are worked out by hand: a value of an ID, a flag but QR, a letter, a
/// type, a class or a TTL leaves a query; QR does not. Of a count's two octets and of RDLENGTH's
/// only the value that stands there does, and ARCOUNT 0 besides. The first length octet may also be
/// 11, since the name then ends at the same zero octet, and 0 where no record has to stand after
/// it; the second one may be 0.
const REPLACED: &[(&str, Counts)] = &[
    (
        "123401000001000000000000076578616d706c6503636f6d0000010001",
        Counts {
            queries: 4494,
            replies: 128,
            surveys: 4622,
        },
    ),
    (
        "123401000001000000000001076578616d706c6503636f6d00000100010000291000000080000000",
        Counts {
            queries: 6545,
            replies: 128,
            surveys: 6673,
        },
    ),
];

#[test]
fn each_octet_replaced(rt: HostRuntime) -> Result<(), Fail> {
    for (row, (text, counts)) in REPLACED.iter().enumerate() {
        held(row, has_counts(rt.alloc(), text, *counts)?)?;
    }
    Ok(())
}
