//! What an answer becomes.

ghost use Rattle.std.specs.Prelude.{◌≡◌};
ghost use Rattle.lb_doh_message.specs.Fault.{fault_status};
ghost use Rattle.lb_doh_message.specs.Response.{Carries, IsReturned, Responds, bare, status_of};

use crate::fault::DohFault;
use lb_core::{Answer, DropReason};
use lb_wire::{Octets, survey};

/// A response: its status (RFC 9110 section 15), how many seconds it may be kept (RFC 8484 section 5.1), and its body, a message, which a
/// response of another status than 200 has not.
#[derive(Debug, Drop)]
pub struct DohResponse {
    pub status: u16,
    pub max_age: u32,
    pub body: Option<Octets>,
}

/// The response to a query with this answer.
pub fn response_of(answer: Answer) -> DohResponse
    requires { IsReturned answer }
    ensures { Responds answer result }
{
    match answer {
        Answer::Dropped(why) => without_body(drop_status(why)),
        Answer::Local(octets, _) => carrying(octets),
        Answer::Deliver(_, octets, _) => carrying(octets),
        Answer::Expired(_, octets) => carrying(octets),
        Answer::NoMemory(octets) => carrying(octets),
        Answer::Forward(..)
        | Answer::Quiet
        | Answer::Ignored(_)
        | Answer::Edited(_)
        | Answer::Refused(_) => unreachable!(),
    }
}

/// The response that carries a message, which was answered or handed on: 200, with the message's own life.
pub fn carrying(octets: Octets) -> DohResponse
    ensures { Carries octets result }
{
    let max_age = match survey(octets.as_slice()) {
        Some(survey) => survey.least_answer.unwrap_or(0),
        None => 0,
    };
    DohResponse {
        status: 200,
        max_age,
        body: Some(octets),
    }
}

/// The response to a request that has no message.
pub fn refused(fault: DohFault) -> DohResponse
    ensures { result ≡ bare (fault_status fault) }
{
    without_body(fault.status())
}

/// The response to a request that the balancer took no event of: 503.
pub fn unavailable() -> DohResponse
    ensures { result ≡ bare 503 }
{
    without_body(503)
}

/// The status of a query that is dropped.
fn drop_status(why: DropReason) -> u16
    ensures { result ≡ status_of why }
{
    match why {
        DropReason::Rule(_) => 403,
        DropReason::Short | DropReason::NotQuery => 400,
    }
}

/// A response without a body.
fn without_body(status: u16) -> DohResponse
    ensures { result ≡ bare status }
{
    DohResponse {
        status,
        max_age: 0,
        body: None,
    }
}
