//! The responses.

ghost use Rattle.std.specs.Prelude.{IfSome, ◌≡◌};
ghost use Rattle.http.specs.Response.{head_of};
ghost use Rattle.lb_metrics.specs.Asked.{HasStatus};

use crate::asked::Asked;
use crate::page::Page;
use bytes::Bytes;
use http::{HeaderValue, Response, StatusCode, header};
use http_body_util::Full;
use std::alloc::Global;

/// A response, with its body in one piece or none.
pub(crate) type HttpResponse = Response<Full<Bytes>>;

/// The response to what is asked for. Without memory for it, or without a page, it is 503.
pub(crate) fn response_to<P: Page>(alloc: Global, asked: Asked, page: Option<&P>) -> HttpResponse
    ensures { HasStatus asked (head_of result).status }
{
    let response = match asked {
        Asked::Page => with_page(alloc, page),
        Asked::OtherPath => Some(bare(alloc, StatusCode::NOT_FOUND)),
        Asked::OtherMethod => not_allowed(alloc),
    };
    match response {
        Some(response) => response,
        None => bare(alloc, StatusCode::SERVICE_UNAVAILABLE),
    }
}

/// A response with the page, as Prometheus reads it (its text format, version 0.0.4).
fn with_page<P: Page>(alloc: Global, page: Option<&P>) -> Option<HttpResponse>
    ensures { IfSome result (λ response. (head_of response).status ≡ 200) }
{
    let text = page?.page().ok()?;
    let body = Bytes::from_vec(text.into_bytes()).ok()?;
    let mut response = Response::new(alloc, Full::new(body));
    let kind = HeaderValue::from_static("text/plain; version=0.0.4; charset=utf-8");
    match response.headers_mut().append(header::CONTENT_TYPE, kind) {
        Ok(_) => Some(response),
        Err(_) => None,
    }
}

/// The response to a method that the page does not have, with those that it has (RFC 9110 section
/// 15.5.6).
fn not_allowed(alloc: Global) -> Option<HttpResponse>
    ensures { IfSome result (λ response. (head_of response).status ≡ 405) }
{
    let mut response = bare(alloc, StatusCode::METHOD_NOT_ALLOWED);
    let allowed = HeaderValue::from_static("GET, HEAD");
    match response.headers_mut().append(header::ALLOW, allowed) {
        Ok(_) => Some(response),
        Err(_) => None,
    }
}

/// A response with a status and no body. It takes no memory.
fn bare(alloc: Global, status: StatusCode) -> HttpResponse
    ensures { (head_of result).status ≡ status }
{
    let mut response = Response::new(alloc, Full::new(Bytes::from_static(b"")));
    *response.status_mut() = status;
    response
}
