//! The loops in their threads, and the console, the front of DNS on HTTP and the service of metrics
//! each in one of its own.

ghost use Rattle.std.specs.Thread.{IsSend, IsSync};

use crate::console::Console;
use crate::gate::OpenGate;
use crate::halt::Halt;
use crate::hears::Hears;
use crate::notices::say_last;
use futures::channel::oneshot;
use lb_doh_server::{FrontEnded, FrontFault, FrontParts, run_front};
use lb_loops::{
    ClockParts, DatagramParts, Datagrams, Ended, LoopFault, Outside, Parts, Posts, StreamParts,
    Streams, Taker, Waker, run_loops,
};
use lb_metrics::{MetricsParts, Page, metrics_cross_threads, run_metrics};
use lb_recent::rings_cross_threads;
use lb_sends::sends_cross_threads;
use lb_sockets::{PollWaker, wakers_are_shared};
use mio;
use std::alloc::Global;
use std::net::{Net, TcpListener, TcpStream};
use std::random::RandomSource;
use std::sync::Wait;
use std::thread::{Threads, join};
use std::time::Clock;

/// Tells the console and the services by HTTP that the loops have ended.
#[derive(Drop)]
pub(crate) struct Over {
    /// Wakes the console.
    pub(crate) waker: mio::Waker,
    /// Ends the front of DNS on HTTP.
    pub(crate) http: oneshot::Sender<()>,
    /// Ends the service of metrics.
    pub(crate) page: oneshot::Sender<()>,
}

impl Over {
    /// Tells them. Who has ended already hears nothing of it.
    fn tell(self) {
        let Over { waker, http, page } = self;
        let _ = waker.wake();
        let _ = http.send(());
        let _ = page.send(());
    }
}

/// What the loops are made of: each has sockets of its own, and handlers and sources of one kind.
pub(crate) type LoopParts<D, S, T, O, P> = Parts<
    DatagramParts<D, T, O>,
    T,
    StreamParts<S, T, O, P>,
    ClockParts<D, T, O, P>,
    OpenGate,
    PollWaker,
>;

/// What the loops leave, or why one ended by itself.
pub(crate) type LoopsEnd<T> = Result<Ended<T, T, T>, LoopFault>;

/// What the front of DNS on HTTP leaves, or why it ended by itself.
pub(crate) type FrontEnd<T> = Result<FrontEnded<T>, FrontFault>;

/// The front of DNS on HTTP, and what ends the loops if it ends by itself.
#[derive(Drop)]
pub(crate) struct Fronting<T, O> {
    pub(crate) parts: FrontParts<T, O, PollWaker>,
    pub(crate) halt: Halt,
}

/// The services by HTTP: the front of DNS, and that of metrics, if there is one.
#[derive(Drop)]
pub(crate) struct Services<T, O, G> {
    pub(crate) front: Fronting<T, O>,
    pub(crate) metrics: Option<MetricsParts<G>>,
}

/// Runs the loops of `parts`, and beside them the console and the services by HTTP, each in a
/// thread of its own. Once the loops have ended, the others are told.
#[tactic(auto, using(crate::proofs::Crosses::console_send, crate::proofs::Crosses::services_send))]
pub(crate) fn run_beside<
    'a,
    R: Threads
        + Wait
        + Net<Listener = TcpListener, Stream = TcpStream>
        + Clock
        + RandomSource
        + Sync,
    D: Datagrams + Send,
    S: Streams + Send,
    T: Hears + Send,
    O: Outside + Send,
    P: Posts + Send,
    G: Page + Send,
>(
    rt: &R,
    alloc: Global,
    parts: LoopParts<D, S, T, O, P>,
    over: Over,
    console: Console<'a, R, T, O>,
    services: Services<T, O, G>,
) -> (LoopsEnd<T>, (Console<'a, R, T, O>, FrontEnd<T>)) {
    // Laws, which do nothing.
    wakers_are_shared();
    rings_cross_threads();
    sends_cross_threads();
    join(
        rt,
        move ||
            requires parts { IsSync R.row × IsSend D.row × IsSend S.row × IsSend T.row × IsSend O.row × IsSend P.row }
        { run_them(rt, alloc, parts, over) },
        move || run_asked(rt, alloc, console, services),
    )
}

/// Runs the loops, and tells the others once they have ended.
fn run_them<
    R: Threads + Wait + Sync,
    D: Datagrams + Send,
    S: Streams + Send,
    T: Taker + Send,
    O: Outside + Send,
    P: Posts + Send,
>(rt: &R, alloc: Global, parts: LoopParts<D, S, T, O, P>, over: Over) -> LoopsEnd<T> {
    // A law, which does nothing.
    wakers_are_shared();
    let ended = run_loops(rt, alloc, parts);
    over.tell();
    ended
}

/// Runs the console and the services by HTTP, each in a thread of its own.
#[tactic(auto, using(crate::proofs::Crosses::console_send, crate::proofs::Crosses::services_send))]
fn run_asked<
    'a,
    R: Threads
        + Wait
        + Net<Listener = TcpListener, Stream = TcpStream>
        + Clock
        + RandomSource
        + Sync,
    T: Hears + Send,
    O: Outside + Send,
    G: Page + Send,
>(
    rt: &R,
    alloc: Global,
    console: Console<'a, R, T, O>,
    services: Services<T, O, G>,
) -> (Console<'a, R, T, O>, FrontEnd<T>) {
    // Laws, which do nothing.
    wakers_are_shared();
    rings_cross_threads();
    sends_cross_threads();
    join(
        rt,
        move || console.run(),
        move ||
            requires parts { IsSync R.row × IsSend T.row × IsSend O.row × IsSend G.row }
        { run_services(rt, alloc, services) },
    )
}

/// Runs the front, and the service of metrics, if there is one, in a thread of its own. If that
/// ends by itself, a sentence says so, and serving goes on without it.
#[tactic(auto, using(crate::proofs::Crosses::front_send))]
fn run_services<
    R: Threads
        + Wait
        + Net<Listener = TcpListener, Stream = TcpStream>
        + Clock
        + RandomSource
        + Sync,
    T: Taker + Send,
    O: Outside + Send,
    G: Page + Send,
>(rt: &R, alloc: Global, services: Services<T, O, G>) -> FrontEnd<T> {
    // Laws, which do nothing.
    wakers_are_shared();
    sends_cross_threads();
    metrics_cross_threads::<G>();
    let Services { front, metrics } = services;
    let Some(metrics) = metrics else {
        return run_http(rt, alloc, front);
    };
    let (ended, ()) = join(
        rt,
        move ||
            requires parts { IsSync R.row × IsSend T.row × IsSend O.row }
        { run_http(rt, alloc, front) },
        move ||
            requires parts { IsSync R.row × IsSend G.row }
        { run_page(rt, alloc, metrics) },
    );
    ended
}

/// Runs the service of metrics.
fn run_page<
    R: Wait + Net<Listener = TcpListener, Stream = TcpStream> + Clock + RandomSource,
    G: Page,
>(rt: &R, alloc: Global, metrics: MetricsParts<G>) {
    if run_metrics((rt, alloc), alloc, metrics).is_err() {
        say_last(alloc, "the page of metrics is served no longer");
    }
}

/// Runs the front. If it ends by itself, the loops end too.
fn run_http<
    R: Wait + Net<Listener = TcpListener, Stream = TcpStream> + Clock + RandomSource,
    T: Taker,
    O: Outside,
>(rt: &R, alloc: Global, front: Fronting<T, O>) -> FrontEnd<T> {
    let Fronting { parts, halt } = front;
    let ended = run_front((rt, alloc), alloc, parts);
    if ended.is_err() {
        halt.halt();
    }
    ended
}
