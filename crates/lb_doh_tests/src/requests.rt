//! Requests, by values worked out by hand from RFC 8484 and RFC 4648.

use crate::rows::held;
use lb_doh_message::{DohBody, DohFault, read_request};
use lb_wire::{MAX_MESSAGE, Octets};
use std::alloc::{AllocError, Global};
use std::test::Fail;

/// A query for www.example.com (RFC 8484 section 4.1.1).
const WWW: &[u8] = b"\0\0\x01\0\0\x01\0\0\0\0\0\0\x03www\x07example\x03com\0\0\x01\0\x01";

/// A header, with an ID that has both symbols that base64url has of its own.
const HEADER: &[u8] = b"\xfb\xff\0\0\0\0\0\0\0\0\0\0";

/// The same, and an octet.
const THIRTEEN: &[u8] = b"\xfb\xff\0\0\0\0\0\0\0\0\0\0\0";

/// The media type of DNS messages.
const DNS: &str = "application/dns-message";

/// Requests whose body is passed over: method, path, query; their message, or their status.
const REQUESTS: &[(&str, &str, &str, Result<&[u8], u16>)] = &[
    (
        "GET",
        "/dns-query",
        "dns=AAABAAABAAAAAAAAA3d3dwdleGFtcGxlA2NvbQAAAQAB",
        Ok(WWW),
    ),
    ("GET", "/dns-query", "dns=-_8AAAAAAAAAAAAA", Ok(HEADER)),
    // Padding.
    (
        "GET",
        "/dns-query",
        "dns=AAABAAABAAAAAAAAA3d3dwdleGFtcGxlA2NvbQAAAQAB=",
        Err(400),
    ),
    ("GET", "/dns-query", "dns=-_8AAAAAAAAAAAAAAA==", Err(400)),
    // Bits after the last octet.
    ("GET", "/dns-query", "dns=-_8AAAAAAAAAAAAAAA", Ok(THIRTEEN)),
    ("GET", "/dns-query", "dns=-_8AAAAAAAAAAAAAAB", Err(400)),
    ("GET", "/dns-query", "dns=-_8AAAAAAAAAAAAAA", Err(400)),
    // Another alphabet: a plus is a space in a form, and 2B is one.
    ("GET", "/dns-query", "dns=+/8AAAAAAAAAAAAA", Err(400)),
    ("GET", "/dns-query", "dns=%2B%2F8AAAAAAAAAAAAA", Err(400)),
    // What is percent-encoded.
    ("GET", "/dns-query", "%64ns=-_8AAAAAAAAAAAA%41", Ok(HEADER)),
    (
        "GET",
        "/dns-query",
        "d%6E%73=%2d%5F8AAAAAAAAAAAAA",
        Ok(HEADER),
    ),
    ("GET", "/dns-query", "d%6ns=-_8AAAAAAAAAAAAA", Err(400)),
    ("GET", "/dns-query", "dns=-_8AAAAAAAAAAAAA%4", Err(400)),
    // Variables.
    (
        "GET",
        "/dns-query",
        "a=b&dns=-_8AAAAAAAAAAAAA&dnss=c&&e",
        Ok(HEADER),
    ),
    (
        "GET",
        "/dns-query",
        "dns=-_8AAAAAAAAAAAAA&dns=-_8AAAAAAAAAAAAA",
        Err(400),
    ),
    ("GET", "/dns-query", "dns=-_8AAAAAAAAAAAAA&%64ns=", Err(400)),
    ("GET", "/dns-query", "DNS=-_8AAAAAAAAAAAAA", Err(400)),
    ("GET", "/dns-query", "dns", Err(400)),
    ("GET", "/dns-query", "a=b", Err(400)),
    ("GET", "/dns-query", "", Err(400)),
    // Eleven octets, and a response.
    ("GET", "/dns-query", "dns=-_8AAAAAAAAAAAA", Err(400)),
    ("GET", "/dns-query", "dns=-_-AAAAAAAAAAAAA", Err(400)),
    // Methods and paths.
    ("PUT", "/dns-query", "dns=-_8AAAAAAAAAAAAA", Err(405)),
    ("HEAD", "/dns-query", "dns=-_8AAAAAAAAAAAAA", Err(405)),
    ("get", "/dns-query", "dns=-_8AAAAAAAAAAAAA", Err(405)),
    ("", "/dns-query", "", Err(405)),
    ("PUT", "/", "", Err(404)),
    ("GET", "/", "dns=-_8AAAAAAAAAAAAA", Err(404)),
    ("GET", "/dns-query/", "dns=-_8AAAAAAAAAAAAA", Err(404)),
    ("GET", "", "dns=-_8AAAAAAAAAAAAA", Err(404)),
    ("POST", "/", "", Err(404)),
    ("POST", "/dns-query", "", Err(415)),
];

/// POSTs: media type, body; their message, or their status.
const POSTS: &[(&str, &[u8], Result<&[u8], u16>)] = &[
    (DNS, WWW, Ok(WWW)),
    (
        " Application/DNS-message\t; charset=utf-8",
        HEADER,
        Ok(HEADER),
    ),
    ("application/dns-message;", HEADER, Ok(HEADER)),
    ("application/dns-message x", HEADER, Err(415)),
    ("application/dns-messages", HEADER, Err(415)),
    ("application/dns-messag", HEADER, Err(415)),
    ("text/plain", HEADER, Err(415)),
    ("text/plain", b"", Err(415)),
    (DNS, b"\xfb\xff\0\0\0\0\0\0\0\0\0", Err(400)),
    (DNS, b"", Err(400)),
    (DNS, b"\xfb\xff\x80\0\0\0\0\0\0\0\0\0", Err(400)),
    (
        DNS,
        b"\xfb\xff\x7f\0\0\0\0\0\0\0\0\0",
        Ok(b"\xfb\xff\x7f\0\0\0\0\0\0\0\0\0"),
    ),
];

/// Whether a request is read so.
fn is_read(read: &Result<Vec<u8>, DohFault>, wanted: Result<&[u8], u16>) -> bool {
    match (read, wanted) {
        (Ok(message), Ok(octets)) => message.as_slice() == octets,
        (Err(fault), Err(status)) => fault.status() == status,
        _ => false,
    }
}

/// What a request is read as whose body is too long. If memory was lacking, it is read once more.
fn read_long(alloc: Global, method: &str, path: &str, query: &str) -> Result<Vec<u8>, DohFault> {
    let read = read_request(alloc, method, path, query, "", DohBody::TooLong);
    if is_lacking(&read) {
        return read_request(alloc, method, path, query, "", DohBody::TooLong);
    }
    read
}

/// Whether memory was lacking.
fn is_lacking(read: &Result<Vec<u8>, DohFault>) -> bool {
    matches!(read, Err(fault) if fault.status() == 503)
}

#[test]
fn requests(rt: HostRuntime) -> Result<(), Fail> {
    let alloc = rt.alloc();
    for (row, (method, path, query, wanted)) in REQUESTS.iter().enumerate() {
        held(
            row,
            is_read(&read_long(alloc, method, path, query), *wanted),
        )?;
    }
    Ok(())
}

/// What a POST is read as. If memory was lacking, it is read once more.
fn read_post(
    alloc: Global,
    media: &str,
    body: &[u8],
) -> Result<Result<Vec<u8>, DohFault>, AllocError> {
    let read = read_post_once(alloc, media, body)?;
    if is_lacking(&read) {
        return read_post_once(alloc, media, body);
    }
    Ok(read)
}

/// What a POST is read as. Its query is passed over.
fn read_post_once(
    alloc: Global,
    media: &str,
    body: &[u8],
) -> Result<Result<Vec<u8>, DohFault>, AllocError> {
    if body.len() > MAX_MESSAGE {
        return Ok(read_request(alloc, "POST", "/dns-query", "", media, DohBody::TooLong));
    }
    let octets = Octets::from_vec(Vec::from_slice(alloc, body)?);
    Ok(read_request(
        alloc,
        "POST",
        "/dns-query",
        "dns=&dns=",
        media,
        DohBody::Whole(octets),
    ))
}

#[test]
fn posts(rt: HostRuntime) -> Result<(), Fail> {
    for (row, (media, body, wanted)) in POSTS.iter().enumerate() {
        held(row, is_read(&read_post(rt.alloc(), media, body)?, *wanted))?;
    }
    Ok(())
}

/// A POST of so many octets, all 0: how many are read, or its status.
fn long_post(alloc: Global, octets: usize) -> Result<Result<usize, u16>, AllocError> {
    let body = vec![in alloc; 0u8; octets]?;
    Ok(counted(read_post(alloc, DNS, body.as_slice())?))
}

/// How many octets were read, or the status.
fn counted(read: Result<Vec<u8>, DohFault>) -> Result<usize, u16> {
    match read {
        Ok(message) => Ok(message.len()),
        Err(fault) => Err(fault.status()),
    }
}

/// A GET whose value is so many of these texts: how many octets are read, or its status.
fn long_get(alloc: Global, text: &str, texts: usize) -> Result<Result<usize, u16>, AllocError> {
    let mut query = String::from_str(alloc, "dns=")?;
    for _ in 0..texts {
        query.push_str(text)?;
    }
    Ok(counted(read_long(alloc, "GET", "/dns-query", query.as_str())))
}

/// GETs whose value is so many of a text: how many octets are read, or their status.
const LONG: &[(&str, usize, Result<usize, u16>)] = &[
    // Up to the most that a usual query has, and beyond.
    ("A", 683, Ok(512)),
    ("A", 684, Ok(513)),
    ("A", 686, Ok(514)),
    ("%41", 228, Ok(171)),
    ("%41", 684, Ok(513)),
    ("%41", 686, Ok(514)),
    // Up to the most that a message has, and one octet more.
    ("A", 87_380, Ok(65_535)),
    ("A", 87_381, Err(400)),
    ("A", 87_382, Err(400)),
    ("%41", 87_380, Ok(65_535)),
    ("%41", 87_382, Err(400)),
];

#[test]
fn long_requests(rt: HostRuntime) -> Result<(), Fail> {
    let alloc = rt.alloc();
    for (row, (text, texts, wanted)) in LONG.iter().enumerate() {
        held(row, long_get(alloc, text, *texts)? == *wanted)?;
    }
    held(100, long_post(alloc, 65_535)? == Ok(65_535))?;
    held(101, long_post(alloc, 65_536)? == Err(413))
}
