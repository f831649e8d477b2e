//! Responses, by values worked out by hand from RFC 8484 section 5.1.

use crate::rows::held;
use lb_core::{Answer, DropReason, LocalReason};
use lb_doh_message::{DohFault, DohResponse, refused, response_of, unavailable};
use lb_wire::{Addr, Kept, MAX_MESSAGE, Octets, Origin, RuleId};
use std::alloc::{AllocError, Global};
use std::test::Fail;

/// A reply for example.com with one address, which lives for 300 seconds.
const REPLY: &[u8] =
    b"\x12\x34\x81\x80\0\x01\0\x01\0\0\0\0\x07example\x03com\0\0\x01\0\x01\xc0\x0c\0\x01\0\x01\0\0\x01\x2c\0\x04\xc0\0\x02\x01";

/// ServFail for example.com.
const FAILED: &[u8] = b"\x12\x34\x81\x82\0\x01\0\0\0\0\0\0\x07example\x03com\0\0\x01\0\x01";

/// A reply with addresses that live for 300 and for 60 seconds, a server name for 20, and an OPT whose TTL reads as 5.
const THREE_SECTIONS: &[u8] =
    b"\x12\x34\x81\x80\0\x01\0\x02\0\x01\0\x01\x07example\x03com\0\0\x01\0\x01\xc0\x0c\0\x01\0\x01\0\0\x01\x2c\0\x04\xc0\0\x02\x01\xc0\x0c\0\x01\0\x01\0\0\0\x3c\0\x04\xc0\0\x02\x02\xc0\x0c\0\x02\0\x01\0\0\0\x14\0\x02\xc0\x0c\0\0\x29\x04\xd0\0\0\0\x05\0\0";

/// A reply with an address that lives for 300 seconds and an OPT in its answer section, whose TTL reads as 5.
const OPT_AMONG_ANSWERS: &[u8] =
    b"\x12\x34\x81\x80\0\x01\0\x02\0\0\0\0\x07example\x03com\0\0\x01\0\x01\xc0\x0c\0\x01\0\x01\0\0\x01\x2c\0\x04\xc0\0\x02\x01\0\0\x29\x04\xd0\0\0\0\x05\0\0";

/// No such name: no answer, and an SOA that lives for 60 seconds.
const NO_NAME: &[u8] =
    b"\x12\x34\x81\x83\0\x01\0\0\0\x01\0\0\x07example\x03com\0\0\x01\0\x01\xc0\x0c\0\x06\0\x01\0\0\0\x3c\0\x16\0\0\0\0\0\x01\0\0\0\x02\0\0\0\x03\0\0\0\x04\0\0\0\x05";

/// Where a query came from.
const ORIGIN: Origin = Origin {
    front: 2,
    slot: 7,
    source: Addr::V4([192, 0, 2, 9]),
    port: 4_242,
};

/// What kind of answer has these octets.
#[derive(Clone, Copy)]
enum Form {
    Local,
    Deliver,
    Expired,
    NoMemory,
}

/// Answers with octets, and how many seconds they may be kept.
const CARRIED: &[(Form, &[u8], u32)] = &[
    (Form::Local, REPLY, 300),
    (Form::Local, FAILED, 0),
    (Form::Local, b"", 0),
    (Form::Deliver, REPLY, 300),
    (Form::Deliver, THREE_SECTIONS, 60),
    (Form::Deliver, OPT_AMONG_ANSWERS, 300),
    (Form::Deliver, NO_NAME, 0),
    (Form::Expired, FAILED, 0),
    (Form::Expired, REPLY, 300),
    (Form::NoMemory, FAILED, 0),
    (Form::NoMemory, REPLY, 300),
];

/// The response to an answer of this form.
fn response_to(alloc: Global, form: Form, bytes: &[u8]) -> Result<Option<DohResponse>, AllocError> {
    if bytes.len() > MAX_MESSAGE {
        return Ok(None);
    }
    let octets = Octets::from_vec(Vec::from_slice(alloc, bytes)?);
    Ok(Some(match form {
        Form::Local => response_of(Answer::Local(octets, LocalReason::Hit)),
        Form::Deliver => response_of(Answer::Deliver(ORIGIN, octets, Kept::Yes)),
        Form::Expired => response_of(Answer::Expired(ORIGIN, octets)),
        Form::NoMemory => response_of(Answer::NoMemory(octets)),
    }))
}

/// Whether a response is 200 with these octets, and may be kept so long.
fn is_carried(response: Option<DohResponse>, bytes: &[u8], age: u32) -> bool {
    let Some(
        DohResponse {
            status,
            max_age,
            body: Some(body),
        },
    ) = response
    else {
        return false;
    };
    status == 200 && max_age == age && body.as_slice() == bytes
}

#[test]
fn answers_with_octets(rt: HostRuntime) -> Result<(), Fail> {
    for (row, (form, bytes, age)) in CARRIED.iter().enumerate() {
        let response = response_to(rt.alloc(), *form, bytes)?;
        held(row, is_carried(response, bytes, *age))?;
    }
    Ok(())
}

/// Queries that are dropped, and their status.
const DROPPED: &[(DropReason, u16)] = &[
    (DropReason::Rule(RuleId(1)), 403),
    (DropReason::Short, 400),
    (DropReason::NotQuery, 400),
];

/// Faults, and their status.
const FAULTS: &[(DohFault, u16)] = &[
    (DohFault::NotFound, 404),
    (DohFault::BadMethod, 405),
    (DohFault::BadMedia, 415),
    (DohFault::TooLong, 413),
    (DohFault::BadRequest, 400),
];

/// Whether a response has this status and no body.
fn is_bare(response: DohResponse, status: u16) -> bool {
    response.status == status && response.max_age == 0 && response.body.is_none()
}

#[test]
fn answers_without_octets(_rt: HostRuntime) -> Result<(), Fail> {
    for (row, (why, status)) in DROPPED.iter().enumerate() {
        held(row, is_bare(response_of(Answer::Dropped(*why)), *status))?;
    }
    for (row, (fault, status)) in FAULTS.iter().enumerate() {
        held(row, is_bare(refused(*fault), *status))?;
    }
    held(100, is_bare(unavailable(), 503))
}
