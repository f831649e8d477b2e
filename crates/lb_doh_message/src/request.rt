//! What a request asks.

ghost use Rattle.std.specs.Prelude.{IfOk, MatchBool, vec_len, ◌≡◌, ◌≢◌, ◌≤◌};
ghost use Rattle.lb_wire.specs.Octets.{max_message};
ghost use Rattle.lb_doh_message.specs.Request.{Reads, ReadsBody, ReadsHead, get, post, the_path};

use crate::fault::DohFault;
use crate::media::is_dns_media;
use crate::message::{is_query_like, read_value};
use crate::variable::only_value;
use lb_wire::Octets;
use std::alloc::Global;

/// The body of a request.
#[derive(Debug, Drop)]
pub enum DohBody {
    /// It came whole.
    Whole(Octets),
    /// It has over 65,535 octets.
    TooLong,
}

/// What the head of a request says.
#[derive(Debug, Drop)]
pub enum DohHead {
    /// The message of a GET.
    Message(Octets),
    /// The message of a POST is its body, which is to be read.
    Body,
}

/// The message of a request, or the first fault that applies. The body of a GET is ignored, and the
/// query of a POST. Memory is taken for the message of a GET alone.
pub fn read_request(
    alloc: Global,
    method: &str,
    path: &str,
    query: &str,
    media: &str,
    body: DohBody,
) -> Result<Vec<u8>, DohFault>
    ensures reads { Reads method.now path.now query.now media.now body result }
    ensures short { IfOk result (λ message. vec_len message ≤ max_message) }
{
    match read_head(alloc, method, path, query, media) {
        Ok(DohHead::Message(message)) => Ok(message.into_vec()),
        Ok(DohHead::Body) => match read_body(body) {
            Ok(message) => Ok(message.into_vec()),
            Err(fault) => Err(fault),
        },
        Err(fault) => Err(fault),
    }
}

/// What the head of a request says, or the first fault that applies. The query of a POST is
/// ignored. Memory is taken for the message of a GET alone.
pub fn read_head(
    alloc: Global,
    method: &str,
    path: &str,
    query: &str,
    media: &str,
) -> Result<DohHead, DohFault>
    ensures { ReadsHead method.now path.now query.now media.now result }
{
    if !is_the_path(path) {
        return Err(DohFault::NotFound);
    }
    if is_post(method) {
        if is_dns_media(media.as_bytes()) {
            Ok(DohHead::Body)
        } else {
            Err(DohFault::BadMedia)
        }
    } else if is_get(method) {
        read_get(alloc, query)
    } else {
        Err(DohFault::BadMethod)
    }
}

/// The message of a POST whose head is in order, or the first fault that applies. It takes no
/// memory.
pub fn read_body(body: DohBody) -> Result<Octets, DohFault>
    ensures { ReadsBody body result }
{
    let DohBody::Whole(octets) = body else {
        return Err(DohFault::TooLong);
    };
    if !is_query_like(octets.as_slice()) {
        return Err(DohFault::BadRequest);
    }
    Ok(octets)
}

fn is_the_path(path: &str) -> bool
    ensures { MatchBool result (path.now ≡ the_path) (path.now ≢ the_path) }
{
    path == "/dns-query"
}

fn is_post(method: &str) -> bool
    ensures { MatchBool result (method.now ≡ post) (method.now ≢ post) }
{
    method == "POST"
}

fn is_get(method: &str) -> bool
    ensures { MatchBool result (method.now ≡ get) (method.now ≢ get) }
{
    method == "GET"
}

/// What the head of a GET says.
fn read_get(alloc: Global, query: &str) -> Result<DohHead, DohFault>
    ensures { (media : _) → ReadsHead get the_path query.now media result }
{
    match only_value(query.as_bytes()) {
        Some(value) => match read_value(alloc, value) {
            Ok(message) => Ok(DohHead::Message(Octets::from_vec(message))),
            Err(fault) => Err(fault),
        },
        None => Err(DohFault::BadRequest),
    }
}
