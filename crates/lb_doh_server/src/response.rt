//! Responses as hyper sends them.

ghost use Rattle.std.specs.Prelude.{IfErr, IfOk, None, OnOk, Some, codes, decimal, string_bytes, ◌++◌, ◌≡◌};
ghost use Rattle.http.specs.Response.{body_of, head_of};
ghost use Rattle.http_header.specs.HeaderMap.{append};
ghost use Rattle.lb_doh_server.specs.Response.{IsBuilt, IsUnbuilt};

use crate::cut::Cut;
use bytes::Bytes;
use http::{HeaderName, HeaderValue, Response, StatusCode, header};
use http_body_util::Full;
use itoa::Buffer;
use lb_doh::DohResponse;
use std::alloc::{AllocError, Global};

/// A response, with its octets in one piece or none.
pub(crate) type HttpResponse = Response<Full<Bytes>>;

/// The response with its header lines. One with a message has its media type and how long it may be kept; another has no body, and that of a
/// method that is not served says which are.
pub(crate) fn built(alloc: Global, response: DohResponse) -> Result<HttpResponse, Cut>
    ensures response { IfOk result (IsBuilt response) }
    ensures cut { IfErr result IsUnbuilt }
{
    let DohResponse {
        status,
        max_age,
        body,
    } = response;
    match body {
        Some(octets) => with_message(alloc, status, max_age, octets.into_vec()),
        None => without_body(alloc, status),
    }
}

/// How many octets `max-age=` has with a number of seconds, which has ten digits at most.
const MAX_AGE: usize = 18;

/// For how many seconds a response may be kept, as Cache-Control says it (RFC 9111 section
/// 5.2.2.1). Its room is taken at once. The one error is lack of memory.
fn max_age_text(alloc: Global, seconds: u32) -> Result<String, AllocError>
    ensures { IfOk result (λ text. string_bytes text ≡ codes "max-age=" ++ decimal seconds) }
{
    let mut digits = Buffer::new();
    let mut text = String::with_capacity(alloc, MAX_AGE)?;
    text.push_str("max-age=")?;
    text.push_str(digits.format(seconds))?;
    Ok(text)
}

/// Adds a header line to a response, as its last.
fn with_line(response: &mut HttpResponse, name: HeaderName, value: HeaderValue) -> Result<(), Cut>
    ensures head { OnOk result (head_of response.new ≡ record (head_of response.old) { headers = append (head_of response.old).headers name value }) }
    ensures body { OnOk result (body_of response.new ≡ body_of response.old) }
    ensures cut { IfErr result IsUnbuilt }
{
    match response.headers_mut().append(name, value) {
        Ok(_) => Ok(()),
        Err(error) => Err(Cut::from(http::Error::from(error))),
    }
}

/// A response with a message, which may be kept so many seconds (RFC 8484 section 5.1).
fn with_message(
    alloc: Global,
    status: u16,
    max_age: u32,
    message: Vec<u8>,
) -> Result<HttpResponse, Cut>
    ensures response { IfOk result (IsBuilt (record { status = status; max_age = max_age; body = Some message.items })) }
    ensures cut { IfErr result IsUnbuilt }
{
    let body = match Bytes::from_vec(message) {
        Ok(body) => body,
        Err(refused) => return Err(Cut::from(AllocError::from(refused))),
    };
    let mut response = Response::new(alloc, Full::new(body));
    *response.status_mut() = StatusCode::from_u16(status).map_err(http::Error::from)?;
    let media = HeaderValue::from_static("application/dns-message");
    with_line(&mut response, header::CONTENT_TYPE, media)?;
    let text = max_age_text(alloc, max_age)?;
    let kept = HeaderValue::from_string(text).map_err(http::Error::from)?;
    with_line(&mut response, header::CACHE_CONTROL, kept)?;
    Ok(response)
}

/// A response without a body. hyper says that its length is 0.
fn without_body(alloc: Global, status: u16) -> Result<HttpResponse, Cut>
    ensures response { IfOk result (IsBuilt (record { status = status; max_age = 0; body = None })) }
    ensures cut { IfErr result IsUnbuilt }
{
    let nothing = Full::new(Bytes::from_static(b""));
    let response = Response::builder(alloc).status(status);
    if status == 405 {
        return Ok(response.header(header::ALLOW, "GET, POST").body(nothing)?);
    }
    Ok(response.body(nothing)?)
}
