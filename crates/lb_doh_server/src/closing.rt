//! Responses that say that their connection closes after them (RFC 9112 section 9.6). A client that
//! sent further requests knows then that they get no response.

ghost use Rattle.std.specs.Prelude.{◌≡◌, ◌==◌, ◌||◌, IfErr, IfOk};
ghost use Rattle.http.specs.Response.{head_of};
ghost use Rattle.lb_doh_server.specs.Answering.{Outcome};
ghost use Rattle.lb_doh_server.specs.Closing.{ClosesBy, SaysClose, is_too_long, leaves_body};
ghost use Rattle.lb_doh_server.specs.Response.{IsUnbuilt};

use crate::cut::Cut;
use crate::heads::First;
use crate::response::HttpResponse;
use futures::Future;
use futures::task::{Context, Poll};
use http::{HeaderValue, header};

/// A request that is answered, and whether its connection closes after the response.
#[derive(Drop)]
pub(crate) struct Closing<F> {
    pub(crate) answering: F,
    pub(crate) closes: bool,
}

/// Whether a request leaves its body unread, of which so many octets are left, if that is known.
/// hyper then closes the connection, unless all of the body came with the head. A body does not
/// tell that, so each such connection closes.
pub(crate) fn leaves_body(left: Option<u64>, first: &First) -> bool
    ensures { result ≡ leaves_body left first.now }
{
    match first {
        First::Body => false,
        First::Message(_) | First::Refused(_) => left != Some(0),
    }
}

/// The status of a response to a body that is too long.
const TOO_LONG: u16 = 413;

/// Whether a response says that a body was too long: what is left of that body is not read.
fn is_too_long(response: &HttpResponse) -> bool
    ensures { result ≡ (head_of response.now).status == 413 }
{
    response.status().as_u16() == TOO_LONG
}

/// The response with the header line that says that the connection closes.
fn saying_close(mut response: HttpResponse) -> Result<HttpResponse, Cut>
    ensures closing { IfOk result (SaysClose response) }
    ensures cut { IfErr result IsUnbuilt }
{
    let close = HeaderValue::from_static("close");
    match response.headers_mut().append(header::CONNECTION, close) {
        Ok(_) => Ok(response),
        Err(error) => Err(Cut::from(http::Error::from(error))),
    }
}

impl<F: Future<Output = Result<HttpResponse, Cut>>> Future for Closing<F> {
    type Output = Result<HttpResponse, Cut>;

    ghost can_poll = { λ c. F.can_poll c.answering };

    ghost needs = { λ c. F.needs c.answering };

    ghost gives = { λ c outcome.
        (inner : Outcome) × F.gives c.answering inner × ClosesBy (c.closes || is_too_long inner) inner outcome };

    fn poll(&mut self, cx: &mut Context<'_>) -> Poll<Result<HttpResponse, Cut>> {
        match self.answering.poll(cx) {
            Poll::Ready(Ok(response)) if self.closes || is_too_long(&response) => {
                Poll::Ready(saying_close(response))
            }
            polled => polled,
        }
    }
}
