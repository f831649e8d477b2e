//! Streams in pieces, and what waits to be written.

ghost use Rattle.std.specs.Prelude.{length, ◌≤◌};
ghost use Rattle.lb_wire.specs.Octets.{max_message};

use lb_loops::{Framer, Message, Outgoing, frame};
use std::alloc::{AllocError, Global};
use std::process::Abort;
use std::test::Fail;

/// Two messages of twelve octets, each after its length.
const STREAM: &[u8] =
    b"\x00\x0c\x00\x01\x01\x00\x00\x00\x00\x00\x00\x00\x00\x00\x00\x0c\x00\x02\x02\x00\x00\x00\x00\x00\x00\x00\x00\x00";

/// The two.
const MESSAGES: &[&[u8]] = &[
    b"\x00\x01\x01\x00\x00\x00\x00\x00\x00\x00\x00\x00",
    b"\x00\x02\x02\x00\x00\x00\x00\x00\x00\x00\x00\x00",
];

/// The messages of the stream, fed in the pieces that end before these places, and how many octets
/// are held then.
fn fed(alloc: Global, ends: &[usize]) -> Result<(Vec<Message>, usize), AllocError> {
    let mut framer = Framer::new(alloc);
    let mut messages = Vec::new(alloc);
    let mut begin = 0;
    for end in ends {
        if let Some(piece) = STREAM.get(begin..*end) {
            for message in feed(&mut framer, piece)? {
                messages.push(message)?;
            }
        }
        begin = *end;
    }
    Ok((messages, framer.len()))
}

/// Feeds a piece. If memory was lacking, it is fed once more.
fn feed(framer: &mut Framer, piece: &[u8]) -> Result<Vec<Message>, AllocError> {
    match framer.feed(piece) {
        Ok(messages) => Ok(messages),
        Err(_refused) => framer.feed(piece),
    }
}

/// A message after its length. If memory was lacking, it is asked for once more.
fn framed(alloc: Global, message: &[u8]) -> Result<Vec<u8>, AllocError>
    requires { length message.now ≤ max_message }
{
    match frame(alloc, message) {
        Ok(octets) => Ok(octets),
        Err(_refused) => frame(alloc, message),
    }
}

/// Puts octets after what is to be written. If memory was lacking, they are put there once more.
fn push(outgoing: &mut Outgoing, octets: &[u8]) -> Result<(), AllocError> {
    match outgoing.push(octets) {
        Ok(()) => Ok(()),
        Err(_refused) => outgoing.push(octets),
    }
}

/// Whether these are the two messages.
fn are_both(messages: &[Message]) -> bool {
    messages.len() == MESSAGES.len()
        && messages
            .iter()
            .zip(MESSAGES)
            .all(|(message, wanted)| message.as_slice() == *wanted)
}

/// In one piece, cut after the octets 1 and 20, and octet by octet.
#[test]
fn cut_streams(rt: HostRuntime) -> Result<(), Fail> {
    expect_both(&rt, &[28], "in one piece")?;
    expect_both(&rt, &[1, 20, 28], "in three pieces")?;
    let ends = octet_ends(rt.alloc())?;
    expect_both(&rt, ends.as_slice(), "by octets")?;
    expect_first(&rt, &[1, 20, 27])
}

/// Both messages come of these pieces, and nothing is held.
fn expect_both<T: Abort + AllocGlobal>(rt: &T, ends: &[usize], what: &str) -> Result<(), Fail> {
    let fed = fed(rt.alloc(), ends)?;
    assert!(rt; are_both(fed.0.as_slice()) && fed.1 == 0, "{what}");
    Ok(())
}

/// One message comes of these pieces, and the second but for its last octet is held.
fn expect_first<T: Abort + AllocGlobal>(rt: &T, ends: &[usize]) -> Result<(), Fail> {
    let short = fed(rt.alloc(), ends)?;
    assert!(rt;
        short.0.len() == 1 && short.1 == 13,
        "without the last octet"
    );
    Ok(())
}

/// The ends of pieces of one octet each.
fn octet_ends(alloc: Global) -> Result<Vec<usize>, AllocError> {
    let mut ends = Vec::new(alloc);
    for end in 1..=STREAM.len() {
        ends.push(end)?;
    }
    Ok(ends)
}

/// A message of the greatest length comes out as it went in, and what was written of it is gone.
#[test]
fn framed_messages(rt: HostRuntime) -> Result<(), Fail> {
    let mut outgoing = Outgoing::new(rt.alloc());
    expect_written(&rt, &mut outgoing)?;
    let longest = Vec::from_elem(rt.alloc(), 7u8, 65_535)?;
    let octets = framed(rt.alloc(), longest.as_slice())?;
    expect_whole(&rt, octets.as_slice(), longest.as_slice())
}

fn expect_written<T: Abort + AllocGlobal>(rt: &T, outgoing: &mut Outgoing) -> Result<(), Fail> {
    push(outgoing, framed(rt.alloc(), MESSAGES[0])?.as_slice())?;
    assert!(rt; outgoing.as_slice() == &STREAM[..14]);
    outgoing.advance(14);
    assert!(rt; outgoing.len() == 0, "something is left");
    Ok(())
}

/// These octets are fed at once, and this message comes out.
fn expect_whole<T: Abort + AllocGlobal>(rt: &T, octets: &[u8], longest: &[u8]) -> Result<(), Fail> {
    let mut framer = Framer::new(rt.alloc());
    let messages = feed(&mut framer, octets)?;
    let are_whole = messages.len() == 1 && framer.len() == 0;
    assert!(rt; are_whole && messages[0].as_slice() == longest);
    Ok(())
}
