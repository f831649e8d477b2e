//! A request from its head to its response.

ghost use Rattle.std.specs.Prelude.{◌≡◌, ◌⊎◌, IfErr, IfOk, IfSome, List, MatchOption, None, Ok, Err, Option, Result, Some, ℕ};
ghost use Rattle.futures.specs.Poll.{IfReady, OnPending};
ghost use Rattle.futures.specs.Task.{Covers, Keeps};
ghost use Rattle.http.specs.Request.{body_of};
ghost use Rattle.hyper.specs.Incoming.{size_left};
ghost use Rattle.lb_doh_message.specs.declared.fault.DohFault.{DohFault};
ghost use Rattle.lb_doh_server.specs.Answering.{Comes, FromAnswer, FromBody, FromMessage, FromRead, Gives, GivesBody, IsAskedFor, IsBody, IsSaidUnder, IsUnasked, ReadsOctets, Says, StandsAt, lost_in, origin_of};
ghost use Rattle.lb_doh_server.specs.Closing.{BeginsRequest};
ghost use Rattle.lb_doh_server.specs.declared.cut.Cut.TheVariants as cuts;

use crate::closing::{Closing, leaves_body};
use crate::cut::Cut;
use crate::heads::{Client, First, first_of};
use crate::late::{is_over, seconds_from_now};
use crate::response::{HttpResponse, built};
use crate::shared::Shared;
use futures::Future;
use futures::task::{Context, Poll};
use http::Request;
use http_body::Body;
use http_body_util::combinators::Collect;
use http_body_util::{BodyExt, Collected, Limited, LimitedError};
use hyper::body::Incoming;
use hyper::service::Service;
use lb_doh::{
    Asker, Brought, DohBody, DohFault, DohResponse, Ticket, carrying, read_body, refused,
    unavailable,
};
use lb_loops_io::{Outside, Taker, Waker};
use lb_wire::{MAX_MESSAGE, Octets};
use std::alloc::Global;
use std::mem;
use std::sync::{Arc, Wait};
use std::time::Clock;
use tokio::time::Sleep;

/// How many seconds a body may take to come.
const BODY_SECONDS: u64 = 10;

/// The least room of a message, in octets: an answer from the cache is written in its query's room.
/// A message over UDP may be as long (RFC 1035 section 4.2.1).
const MESSAGE_ROOM: usize = 512;

/// The service of one connection.
#[derive(Drop)]
pub(crate) struct Front<R, T: Taker, O: Outside, W: Waker> {
    pub(crate) rt: R,
    pub(crate) alloc: Global,
    pub(crate) client: Client,
    pub(crate) shared: Option<Arc<Shared<T, O, W>>>,
}

/// What a request ends with: its response, or the end of its connection.
type Ended = Result<HttpResponse, Cut>;

/// What a request waits for.
#[derive(Drop)]
enum Stage<R: Wait + Drop> {
    /// Its body, and the time for it once that has begun.
    Body(Option<Sleep>),
    /// Its answer, with its place among those that wait.
    Answer(Brought, Ticket<R>),
    /// Nothing: its message is there.
    Message(Octets),
    /// Nothing: it is refused.
    Refused(DohFault),
    /// It was answered.
    Over,
}

/// A request that is read or waits for its answer.
#[derive(Drop)]
pub(crate) struct Answering<R: Wait + Drop, T: Taker, O: Outside, W: Waker, F> {
    rt: R,
    alloc: Global,
    client: Client,
    shared: Option<Arc<Shared<T, O, W>>>,
    reading: Option<F>,
    stage: Stage<R>,
}

/// What comes of asking the desk.
enum Asked<R: Wait + Drop> {
    Response(HttpResponse),
    Waits(Brought, Ticket<R>),
}

impl<R, T, O, W, I> Service<Request<Incoming<I>>> for Front<R, T, O, W>
where
    R: Wait + Clock + Copy + Drop,
    T: Taker,
    O: Outside,
    W: Waker,
    I: Drop,
{
    type Response = HttpResponse;

    type Error = Cut;

    type Future = Closing<Answering<R, T, O, W, Collect<Limited<Incoming<I>>>>>;

    ghost calls = { λ front request closing.
        (closing.answering.client ≡ front.client)
        × BeginsRequest request (size_left (body_of request).kind) closing.answering.stage closing.closes };

    fn call(&self, request: Request<Incoming<I>>) -> Self::Future {
        let size = request.body().size_hint();
        let first = first_of(self.alloc, &request, size.lower());
        let closes = leaves_body(size.exact(), &first);
        let stage = stage_of(first);
        let reading = Limited::new(request.into_body(), MAX_MESSAGE).collect(self.alloc);
        let answering = Answering {
            rt: self.rt,
            alloc: self.alloc,
            client: self.client,
            shared: shared_again(&self.shared),
            reading: Some(reading),
            stage,
        };
        Closing { answering, closes }
    }
}

/// One more hold of what the connections share, if there is one.
fn shared_again<S>(shared: &Option<Arc<S>>) -> Option<Arc<S>> {
    match shared {
        Some(shared) => Arc::try_clone(shared).ok(),
        None => None,
    }
}

/// What a request waits for first.
fn stage_of<R: Wait + Drop>(first: First) -> Stage<R>
    ensures { StandsAt first result }
{
    match first {
        First::Message(message) => Stage::Message(message),
        First::Body => Stage::Body(None),
        First::Refused(fault) => Stage::Refused(fault),
    }
}

/// How many queries found the outbox full, by the front's part of the desk.
fn lost_by<T: Taker, O: Outside, W: Waker>(asker: &Option<Asker<T, O, W>>) -> u64
    ensures { result ≡ lost_in asker.now }
{
    match asker {
        Some(asker) => asker.lost(),
        None => 0,
    }
}

impl<R: Wait + Clock + Copy + Drop, T: Taker, O: Outside, W: Waker, F> Answering<R, T, O, W, F> {
    /// What comes of a body: the message, or why there is none.
    fn message_of<E: Drop>(
        &self,
        body: Result<Collected, LimitedError<E>>,
    ) -> Result<Result<Octets, DohFault>, Cut>
        ensures { Comes body result }
    {
        let bytes = match body {
            Ok(collected) => collected.to_bytes()?,
            Err(LimitedError::LengthLimit) => return Ok(Err(DohFault::TooLong)),
            Err(LimitedError::Body(_)) => return Err(Cut::Body),
        };
        self.read_octets(bytes.as_slice())
    }

    /// What the octets of a body are read as.
    fn read_octets(&self, bytes: &[u8]) -> Result<Result<Octets, DohFault>, Cut>
        ensures read { IfOk result (ReadsOctets bytes.now) }
        ensures cut { IfErr result (λ cut. cut ≡ cuts.NoMemory) }
    {
        if bytes.len() > MAX_MESSAGE {
            return Ok(Err(DohFault::TooLong));
        }
        let mut octets = Vec::with_capacity(self.alloc, bytes.len().max(MESSAGE_ROOM))?;
        octets.extend_from_slice(bytes)?;
        Ok(read_body(DohBody::Whole(Octets::from_vec(octets))))
    }

    /// Asks the desk. The request stands among those that wait before its message goes there.
    fn ask(&self, message: Octets) -> Result<Asked<R>, Cut>
        ensures asked { IfOk result (IsAskedFor self.now.client message) }
        ensures cut { IfErr result IsUnasked }
    {
        let Some(shared) = &self.shared else {
            return Ok(Asked::Response(built(self.alloc, unavailable())?));
        };
        let requests = Arc::try_clone(&shared.requests)?;
        let (ticket, brought) = Ticket::taken(self.rt, self.alloc, requests)?;
        match self.said_to(shared, ticket.number(), message) {
            Some(response) => Ok(Asked::Response(built(self.alloc, response)?)),
            None => Ok(Asked::Waits(brought, ticket)),
        }
    }

    /// What the desk says to a message that is asked under this number. The front's part of it is behind its lock.
    fn said_to(&self, shared: &Shared<T, O, W>, number: u64, message: Octets) -> Option<DohResponse>
        ensures { IsSaidUnder self.now.client message number result }
    {
        let mut asker = shared.asker.lock(&self.rt);
        let before = lost_by(&asker);
        let said = self.said_by(&mut asker, number, message);
        if lost_by(&asker) != before {
            shared.sends.fill();
        }
        said
    }

    /// What this part of the desk says to a message that is asked under this number; 503 where it was given back. None: the request waits.
    fn said_by(
        &self,
        asker: &mut Option<Asker<T, O, W>>,
        number: u64,
        message: Octets,
    ) -> Option<DohResponse>
        ensures { Says (origin_of self.now.client number) message asker.old asker.new result }
    {
        match asker {
            Some(asker) => asker.ask(&self.rt, self.client.origin(number), message),
            None => Some(unavailable()),
        }
    }

    /// The time for the rest of a body, if there is one to be had.
    fn limit(&self) -> Option<Sleep> {
        let shared = self.shared.as_ref()?;
        seconds_from_now(&self.rt, &shared.timers, BODY_SECONDS)
    }
}

impl<R, T, O, W, F, E> Answering<R, T, O, W, F>
where
    R: Wait + Clock + Copy + Drop,
    T: Taker,
    O: Outside,
    W: Waker,
    F: Future<Output = Result<Collected, LimitedError<E>>>,
    E: Drop,
{
    /// Reads the body on, for which there is so much time. Once it has come, goes on with what it is read as.
    fn poll_body(&mut self, late: Option<Sleep>, cx: &mut Context<'_>) -> Poll<Ended>
        requires { IfSome self.old.reading F.can_poll }
        ensures value { IfReady result (GivesBody F.gives self.old.client self.old.reading) }
        ensures again { OnPending result (IfSome self.new.reading F.can_poll) }
        ensures same { OnPending result ((x : _) → Gives F.gives self.new.client self.new.reading self.new.stage x → GivesBody F.gives self.old.client self.old.reading x) }
        ensures registered { OnPending result (Covers cx.new (λ _. ⊥)) }
        ensures kept { Keeps cx.old cx.new }
    {
        let Some(reading) = &mut self.reading else {
            return Poll::Ready(Err(Cut::Body));
        };
        match reading.poll(cx) {
            Poll::Ready(body) => {
                self.reading = None;
                let read = self.message_of(body);
                self.poll_read(read, cx)
            }
            Poll::Pending => self.wait_for_body(late, cx),
        }
    }

    /// Waits for the rest of a body that was polled, unless it takes too long.
    fn wait_for_body(&mut self, mut late: Option<Sleep>, cx: &mut Context<'_>) -> Poll<Ended>
        requires registered { Covers cx.old (λ _. ⊥) }
        ensures value { IfReady result (λ x. x ≡ Err cuts.Body) }
        ensures waits { OnPending result ((self.new.client ≡ self.old.client) × (self.new.reading ≡ self.old.reading) × IsBody self.new.stage) }
        ensures registered { OnPending result (Covers cx.new (λ _. ⊥)) }
        ensures kept { Keeps cx.old cx.new }
    {
        if late.is_none() {
            late = self.limit();
        }
        if is_over(&mut late, cx) {
            return Poll::Ready(Err(Cut::Body));
        }
        self.stage = Stage::Body(late);
        Poll::Pending
    }

    /// Goes on with what a body was read as.
    fn poll_read(
        &mut self,
        read: Result<Result<Octets, DohFault>, Cut>,
        cx: &mut Context<'_>,
    ) -> Poll<Ended>
        requires { IfSome self.old.reading F.can_poll }
        ensures value { IfReady result (FromRead self.old.client read) }
        ensures again { OnPending result (IfSome self.new.reading F.can_poll) }
        ensures same { OnPending result ((x : _) → Gives F.gives self.new.client self.new.reading self.new.stage x → FromRead self.old.client read x) }
        ensures registered { OnPending result (Covers cx.new (λ _. ⊥)) }
        ensures kept { Keeps cx.old cx.new }
    {
        match read {
            Ok(Ok(message)) => self.poll_message(message, cx),
            Ok(Err(fault)) => Poll::Ready(built(self.alloc, refused(fault))),
            Err(cut) => Poll::Ready(Err(cut)),
        }
    }

    /// Asks the desk for a message, and waits for the answer where there is none at once.
    fn poll_message(&mut self, message: Octets, cx: &mut Context<'_>) -> Poll<Ended>
        requires { IfSome self.old.reading F.can_poll }
        ensures value { IfReady result (FromMessage self.old.client message) }
        ensures again { OnPending result (IfSome self.new.reading F.can_poll) }
        ensures same { OnPending result ((x : _) → Gives F.gives self.new.client self.new.reading self.new.stage x → FromMessage self.old.client message x) }
        ensures registered { OnPending result (Covers cx.new (λ _. ⊥)) }
        ensures kept { Keeps cx.old cx.new }
    {
        match self.ask(message) {
            Ok(Asked::Response(response)) => Poll::Ready(Ok(response)),
            Ok(Asked::Waits(brought, ticket)) => self.poll_answer(brought, ticket, cx),
            Err(cut) => Poll::Ready(Err(cut)),
        }
    }

    /// Looks whether the answer was brought, and waits for it where it was not.
    fn poll_answer(
        &mut self,
        mut brought: Brought,
        ticket: Ticket<R>,
        cx: &mut Context<'_>,
    ) -> Poll<Ended>
        requires { IfSome self.old.reading F.can_poll }
        ensures value { IfReady result FromAnswer }
        ensures again { OnPending result (IfSome self.new.reading F.can_poll) }
        ensures same { OnPending result ((x : _) → Gives F.gives self.new.client self.new.reading self.new.stage x → FromAnswer x) }
        ensures registered { OnPending result (Covers cx.new (λ _. ⊥)) }
        ensures kept { Keeps cx.old cx.new }
    {
        match brought.poll(cx) {
            Poll::Ready(Ok(octets)) => Poll::Ready(built(self.alloc, carrying(octets))),
            Poll::Ready(Err(_)) => Poll::Ready(Err(Cut::Unanswered)),
            Poll::Pending => {
                self.stage = Stage::Answer(brought, ticket);
                Poll::Pending
            }
        }
    }
}

impl<R, T, O, W, F, E> Future for Answering<R, T, O, W, F>
where
    R: Wait + Clock + Copy + Drop,
    T: Taker,
    O: Outside,
    W: Waker,
    F: Future<Output = Result<Collected, LimitedError<E>>>,
    E: Drop,
{
    type Output = Result<HttpResponse, Cut>;

    ghost can_poll = { λ a. IfSome a.reading F.can_poll };

    ghost gives = { λ a. Gives F.gives a.client a.reading a.stage };

    fn poll(&mut self, cx: &mut Context<'_>) -> Poll<Ended> {
        match mem::replace(&mut self.stage, Stage::Over) {
            Stage::Body(late) => self.poll_body(late, cx),
            Stage::Message(message) => self.poll_message(message, cx),
            Stage::Answer(brought, ticket) => self.poll_answer(brought, ticket, cx),
            Stage::Refused(fault) => Poll::Ready(built(self.alloc, refused(fault))),
            Stage::Over => Poll::Ready(Err(Cut::Unanswered)),
        }
    }
}
