//! What a connection is answered by.

ghost use Rattle.std.specs.Prelude.{IsOkAnd, IsSomeAnd};
ghost use Rattle.http.specs.Response.{head_of};
ghost use Rattle.lb_metrics.specs.Asked.{IsAnswered};

use crate::asked::asked_by;
use crate::page::Page;
use crate::response::{HttpResponse, response_to};
use futures::future;
use futures::future::Ready;
use http::Request;
use hyper::body::Incoming;
use hyper::service::Service;
use std::alloc::Global;
use std::convert::Infallible;
use std::sync::Arc;

/// The service of one connection.
#[derive(Drop)]
pub(crate) struct Metrics<P: Page> {
    pub(crate) alloc: Global,
    /// The page; none if it has too many readers.
    pub(crate) page: Option<Arc<P>>,
}

impl<P: Page, I: Drop> Service<Request<Incoming<I>>> for Metrics<P> {
    type Response = HttpResponse;

    type Error = Infallible;

    type Future = Ready<Result<HttpResponse, Infallible>>;

    ghost calls = { λ _ request future. IsSomeAnd future.0
        (λ given. IsOkAnd given (λ response. IsAnswered request (head_of response).status)) };

    fn call(&self, request: Request<Incoming<I>>) -> Self::Future {
        future::ok(self.response_for(&request))
    }
}

impl<P: Page> Metrics<P> {
    /// The response to a request.
    fn response_for<B>(&self, request: &Request<B>) -> HttpResponse
        ensures { IsAnswered request.now (head_of result).status }
    {
        let asked = asked_by(request.method().as_str(), request.uri().path());
        response_to(self.alloc, asked, self.page.as_deref())
    }
}
