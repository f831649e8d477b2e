//! The connections of the listeners.

ghost use Rattle.std.specs.Prelude.{IfOk, ◌≡◌};
ghost use Rattle.futures.specs.Task.{Keeps};

use crate::answering::Front;
use crate::heads::Client;
use crate::late::{is_over, seconds_from_now};
use crate::paced::Paced;
use crate::shared::Shared;
use bytes::Bytes;
use futures::Future;
use futures::channel::oneshot;
use futures::executor::TaskSet;
use futures::task::{Context, Poll};
use http_body_util::Full;
use hyper::rt::TokioTimer;
use hyper::server::conn::http1;
use hyper::server::conn::http1::Connection;
use lb_loops_io::{Outside, Taker, Waker};
use lb_sends::{Clients, Closing, Refusal, Sends};
use std::alloc::{AllocError, Global};
use std::net::SocketAddr;
use std::sync::{Arc, Wait};
use std::time::Clock;
use tokio::net::{TcpListener, TcpStream};
use tokio::sync::{OwnedSemaphorePermit, Semaphore};
use tokio::time::{Handle, Sleep};

/// What makes the future of a connection.
pub trait Make: Drop {
    type Served: Future<Output = ()>;

    /// The future of a connection of a client, which has one of the places. The one error is lack
    /// of memory.
    fn make(
        &self,
        socket: TcpStream,
        client: Client,
        place: OwnedSemaphorePermit,
    ) -> Result<Self::Served, AllocError>
        ensures { IfOk result Self.Served.can_poll };

    /// Notes that a connection of this making is served from now on.
    fn entered(&self);

    /// Notes a client that was closed at once, as no place was left for it.
    fn turned_away(&self);
}

/// A connection that is served, and its place. Whatever ends it is counted at most.
#[derive(Drop)]
pub struct Served<F> {
    /// In a block of its own, as what runs a future makes room for it several times a turn.
    connection: Box<F>,
    place: OwnedSemaphorePermit,
    /// Where it is counted that the client left, if it is counted.
    sends: Option<Arc<Sends>>,
}

impl<F: Future> Served<F> {
    /// A connection that has this place, and where it is counted that its client left, if it is
    /// counted. The one error is lack of memory.
    pub fn new(
        alloc: Global,
        connection: F,
        place: OwnedSemaphorePermit,
        sends: Option<Arc<Sends>>,
    ) -> Result<Served<F>, AllocError>
        requires { F.can_poll connection }
        ensures polls { IfOk result (λ served. F.can_poll served.connection.value) }
        ensures has { IfOk result (λ served. (served.place ≡ place) × (served.sends ≡ sends)) }
    {
        Ok(Served {
            connection: Box::new(alloc, connection)?,
            place,
            sends,
        })
    }
}

impl<F: Future<Output = hyper::Result<()>>> Future for Served<F> {
    type Output = ();

    ghost can_poll = { λ s. F.can_poll s.connection.value };

    fn poll(&mut self, cx: &mut Context<'_>) -> Poll<()> {
        match self.connection.poll(cx) {
            Poll::Ready(ended) => {
                if let Some(sends) = &self.sends {
                    note_end(sends.http(), &ended);
                }
                Poll::Ready(())
            }
            Poll::Pending => Poll::Pending,
        }
    }
}

/// Counts that a client left, and whether its connection was closed because it sent no head for as
/// long as one may take.
fn note_end(clients: &Clients, ended: &hyper::Result<()>) {
    if let Err(error) = ended
        && error.is_timeout()
    {
        clients.close(Closing::Idle);
    }
    clients.leave();
}

/// Makes connections of HTTP/1.1.
#[derive(Drop)]
pub(crate) struct Maker<R: Clock + Copy, T: Taker, O: Outside, W: Waker> {
    pub(crate) rt: R,
    pub(crate) alloc: Global,
    pub(crate) shared: Arc<Shared<T, O, W>>,
    pub(crate) http: http1::Builder<TokioTimer<R>>,
    /// Where clients are counted.
    pub(crate) sends: Arc<Sends>,
}

impl<R: Wait + Clock + Copy + Drop, T: Taker, O: Outside, W: Waker> Make for Maker<R, T, O, W> {
    type Served = Served<
        Connection<Paced<R, TcpStream>, Front<R, T, O, W>, Full<Bytes>, TokioTimer<R>>,
    >;

    fn make(
        &self,
        socket: TcpStream,
        client: Client,
        place: OwnedSemaphorePermit,
    ) -> Result<Self::Served, AllocError> {
        let front = Front {
            rt: self.rt,
            alloc: self.alloc,
            client,
            shared: Arc::try_clone(&self.shared).ok(),
        };
        let sends = Arc::try_clone(&self.sends).ok();
        let socket = Paced::new(self.rt, self.shared.timers.clone().ok(), socket, sends);
        let sends = Arc::try_clone(&self.sends).ok();
        let connection = self.http.serve_connection(socket, front);
        Served::new(self.alloc, connection, place, sends)
    }

    fn entered(&self) {
        self.sends.http().enter();
    }

    fn turned_away(&self) {
        self.sends.http().refuse(Refusal::Full);
    }
}

/// Takes in the clients of the listeners until it is told to end. Each has one of the places while
/// its connection stands. A client that finds no place, or no memory for its connection, is closed
/// at once; the others stay.
#[derive(Drop)]
pub(crate) struct Accepting<'a, R: Clock, M: Make> {
    pub(crate) rt: &'a R,
    pub(crate) timers: Handle,
    pub(crate) listeners: Vec<(u8, TcpListener)>,
    pub(crate) maker: M,
    pub(crate) places: Arc<Semaphore>,
    /// Until when the listeners are left alone, after one of them could not take a client in.
    pub(crate) late: Option<Sleep>,
    /// What tells it to end: that this is sent, or that its sender is dropped.
    pub(crate) end: oneshot::Receiver<()>,
    /// The connections that stand.
    pub(crate) tasks: &'a TaskSet<M::Served>,
}

/// Why a connection is not served.
#[derive(Debug, Drop)]
enum Unserved {
    /// Memory was lacking for its future.
    NoMemory,
    /// The tasks take no further one: memory was lacking, or they end.
    NotTaken,
}

impl From<AllocError> for Unserved {
    ghost use Rattle.std.specs.Prelude.{◌≡◌};
    ghost use Rattle.lb_doh_server.specs.declared.connections.Unserved.TheVariants as unserved;

    ghost from_gives = { λ _ fault. fault ≡ unserved.NoMemory };

    fn from(_refused: AllocError) -> Unserved {
        Unserved::NoMemory
    }
}

/// How many seconds the listeners are left alone after one of them could not take a client in.
const RETRY_SECONDS: u64 = 1;

/// What listeners have.
#[derive(Drop)]
enum Next {
    /// A client, with the place of its listener.
    Client(u8, TcpStream, SocketAddr),
    /// No client waits: the task is woken by the next one.
    Nobody,
    /// A client waits for whom the system has no descriptor, or no memory. It does not wake the task.
    Failed,
}

/// The next client of some listeners, if there is one that can be taken in.
fn next_client(listeners: &mut Vec<(u8, TcpListener)>, cx: &mut Context<'_>) -> Next
    ensures { Keeps cx.old cx.new }
{
    let mut next = Next::Nobody;
    for (place, listener) in listeners.iter_mut() {
        match listener.poll_accept(cx) {
            Poll::Ready(Ok((socket, end))) => return Next::Client(*place, socket, end),
            Poll::Ready(Err(_)) => next = Next::Failed,
            Poll::Pending => {}
        }
    }
    next
}

impl<R: Clock, M: Make> Accepting<'_, R, M> {
    /// One of the places, if one is left.
    fn place(&self) -> Option<OwnedSemaphorePermit> {
        let places = Arc::try_clone(&self.places).ok()?;
        Semaphore::try_acquire_owned(places).ok()
    }

    /// Serves a client that has one of the places from now on.
    fn serve_in(
        &self,
        place: OwnedSemaphorePermit,
        socket: TcpStream,
        client: Client,
    ) -> Result<(), Unserved> {
        let served = self.maker.make(socket, client, place)?;
        match self.tasks.spawn(served) {
            Ok(()) => Ok(()),
            Err(_) => Err(Unserved::NotTaken),
        }
    }

    /// Serves a client from now on, if there is a place for it.
    fn serve(&self, listener: u8, socket: TcpStream, end: SocketAddr) {
        let Some(place) = self.place() else {
            self.maker.turned_away();
            return;
        };
        let client = Client::at(listener, end);
        // One that is not served is closed.
        if self.serve_in(place, socket, client).is_ok() {
            self.maker.entered();
        }
    }

    /// Whether the listeners are left alone, after one of them could not take a client in. The task
    /// is woken once that is over. If the clock or memory gives no time, they are not left alone.
    fn rests(&mut self, cx: &mut Context<'_>) -> bool
        ensures { Keeps cx.old cx.new }
    {
        if self.late.is_none() {
            self.late = seconds_from_now(self.rt, &self.timers, RETRY_SECONDS);
        }
        if self.late.is_some() && !is_over(&mut self.late, cx) {
            return true;
        }
        self.late = None;
        false
    }
}

impl<R: Clock, M: Make> Future for Accepting<'_, R, M> {
    type Output = ();

    fn poll(&mut self, cx: &mut Context<'_>) -> Poll<()> {
        if self.end.poll(cx).is_ready() {
            return Poll::Ready(());
        }
        match next_client(&mut self.listeners, cx) {
            Next::Client(place, socket, end) => {
                self.serve(place, socket, end);
                cx.yield_now()
            }
            Next::Nobody => Poll::Pending,
            Next::Failed => {
                if self.rests(cx) {
                    return Poll::Pending;
                }
                cx.yield_now()
            }
        }
    }
}
