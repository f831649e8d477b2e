//! The front, in a thread.

ghost use Rattle.std.specs.Prelude.{IfOk, IsSome, None, Ok, length, ◌<◌, ◌≡◌};

use crate::connections::{Accepting, Make, Maker};
use crate::cut::FrontFault;
use crate::shared::Shared;
use futures::channel::oneshot;
use hyper::rt::TokioTimer;
use hyper::server::conn::http1;
use hyper::server::conn::http1::Builder;
use lb_doh::{Asker, Requests};
use lb_loops_io::{Outside, Taker, Waker};
use lb_outbox::Sender;
use lb_sends::Sends;
use std::alloc::{AllocError, AllocGlobal, Global};
use std::hash::RandomState;
use std::net::Net;
use std::random::RandomSource;
use std::sync::{Arc, Mutex, Wait};
use std::time::{Clock, Duration};
use std::{io, net};
use tokio::net::TcpListener;
use tokio::reactor::Handle;
use tokio::runtime::LocalRuntime;
use tokio::sync::Semaphore;
use tokio::time;

/// The most octets of a head, and how much of a body hyper holds.
const HEAD: usize = 65_536;

/// How many seconds a head may take to come, and a connection may be idle.
const HEAD_SECONDS: u64 = 10;

/// How many connections stand at most, whatever a front is made of.
const CONNECTIONS: usize = 1_024;

/// How many milliseconds a runtime of HTTP, and so its connections, may go on once it is to end.
pub const END_MILLISECONDS: u64 = 300;

/// A socket that listens, with the place of its listen line.
#[derive(Drop)]
pub struct Bound {
    pub place: u8,
    pub socket: net::TcpListener,
}

/// What the front is made of.
#[derive(Drop)]
pub struct FrontParts<T, O, W> {
    /// Its listeners, which may be bound by whoever makes them.
    pub listeners: Vec<Bound>,
    /// Its runtime, of `front_runtime`; it makes one where there is none.
    pub runtime: Option<LocalRuntime>,
    /// Its event handler.
    pub taker: T,
    /// Sender one of the outbox.
    pub sender: Sender,
    /// Its source of moments and words.
    pub outside: O,
    /// Wakes the loop of streams.
    pub streams: W,
    /// The requests that wait.
    pub requests: Arc<Requests>,
    /// How many clients are connected at most. More than 1,024 count as 1,024.
    pub clients: usize,
    /// Where clients are counted.
    pub sends: Arc<Sends>,
    /// What ends the front: that this is sent, or that its sender is dropped.
    pub end: oneshot::Receiver<()>,
}

/// What the front leaves: its event handler, and its sender.
#[derive(Drop)]
pub struct FrontEnded<T> {
    pub taker: T,
    pub sender: Sender,
}

/// A runtime for these listeners; none where nothing listens. It takes descriptors: made before any
/// client is answered, it finds them, where a process may have few.
pub fn front_runtime<R: Clock + Net + RandomSource + AllocGlobal>(
    rt: &R,
    listeners: &[Bound],
) -> Result<Option<LocalRuntime>, FrontFault>
    ensures none { length listeners.now ≡ 0 → result ≡ Ok None }
    ensures some { 0 < length listeners.now → IfOk result (λ runtime. IsSome runtime) }
{
    if listeners.is_empty() {
        return Ok(None);
    }
    Ok(Some(LocalRuntime::new(rt)?))
}

/// Serves DNS on HTTP until it is told to end. Then the connections that stand, and the requests
/// that wait, have 300 ms, and end. Where nothing listens, it ends at once.
pub fn run_front<
    R: Wait + Clock + Net + RandomSource + AllocGlobal + Copy + Drop,
    T: Taker,
    O: Outside,
    W: Waker,
>(rt: R, alloc: Global, parts: FrontParts<T, O, W>) -> Result<FrontEnded<T>, FrontFault>
    ensures none { length parts.listeners.items ≡ 0 → result ≡ Ok (record { taker = parts.taker; sender = parts.sender }) }
{
    if parts.listeners.is_empty() {
        let FrontParts { taker, sender, .. } = parts;
        return Ok(FrontEnded { taker, sender });
    }
    serve_by(rt, alloc, parts)
}

/// Serves by what a front is made of until it is told to end.
fn serve_by<
    R: Wait + Clock + Net + RandomSource + AllocGlobal + Copy + Drop,
    T: Taker,
    O: Outside,
    W: Waker,
>(rt: R, alloc: Global, parts: FrontParts<T, O, W>) -> Result<FrontEnded<T>, FrontFault> {
    let FrontParts {
        listeners,
        runtime,
        taker,
        sender,
        outside,
        streams,
        requests,
        clients,
        sends,
        end,
    } = parts;
    let asker = Asker::new(taker, sender, outside, streams);
    let mut runtime = runtime_of(&rt, runtime)?;
    let shared = shared_by(alloc, runtime.handle().time(), asker, requests, &sends)?;
    let listeners = registered(alloc, listeners, runtime.handle().reactor())?;
    sends.http().bound(clients.min(CONNECTIONS) as u64);
    let admission = (listeners, clients);
    serve_shared(rt, alloc, &mut runtime, admission, end, (&shared, sends))?;
    ended(&rt, &shared)
}

/// The runtime, which is made where there is none, with the time that its end may take.
fn runtime_of<R: Clock + Net + RandomSource + AllocGlobal>(
    rt: &R,
    runtime: Option<LocalRuntime>,
) -> io::Result<LocalRuntime> {
    let mut runtime = match runtime {
        Some(runtime) => runtime,
        None => LocalRuntime::new(rt)?,
    };
    runtime.set_shutdown_timeout(Some(Duration::from_millis(END_MILLISECONDS)));
    Ok(runtime)
}

/// What the connections share.
fn shared_by<T: Taker, O: Outside, W: Waker>(
    alloc: Global,
    timers: &time::Handle,
    asker: Asker<T, O, W>,
    requests: Arc<Requests>,
    sends: &Arc<Sends>,
) -> Result<Arc<Shared<T, O, W>>, FrontFault> {
    let timers = timers.clone()?;
    let sends = Arc::try_clone(sends)?;
    Ok(Arc::new(
        alloc,
        Shared {
            asker: Mutex::new(Some(asker)),
            requests,
            sends,
            timers,
        },
    )?)
}

/// Listeners, each with its place, and how many clients are connected at most.
pub type Admission = (Vec<(u8, TcpListener)>, usize);

/// Serves the connections of the listeners, which share this and are counted there, until it is
/// told to end.
fn serve_shared<
    R: Wait + Clock + Net + RandomSource + AllocGlobal + Copy + Drop,
    T: Taker,
    O: Outside,
    W: Waker,
>(
    rt: R,
    alloc: Global,
    runtime: &mut LocalRuntime,
    admission: Admission,
    end: oneshot::Receiver<()>,
    shared: (&Arc<Shared<T, O, W>>, Arc<Sends>),
) -> Result<(), FrontFault> {
    let maker = maker_of(rt, alloc, runtime.handle().time(), shared)?;
    serve_connections(&rt, alloc, runtime, admission, end, maker)
}

/// Serves the connections of the listeners until it is told to end: until `end` is sent, or its
/// sender is dropped. More than 1,024 clients count as 1,024. Of what `maker` makes of a connection
/// nothing is said here.
pub fn serve_connections<R: Wait + Clock + Net + RandomSource + AllocGlobal, M: Make>(
    rt: &R,
    alloc: Global,
    runtime: &mut LocalRuntime,
    admission: Admission,
    end: oneshot::Receiver<()>,
    maker: M,
) -> Result<(), FrontFault> {
    let (listeners, clients) = admission;
    let places = Semaphore::new(alloc, clients.min(CONNECTIONS))?;
    let places = Arc::new(alloc, places)?;
    let timers = runtime.handle().time().clone()?;
    let tasks = runtime.task_set(rt)?;
    let accepting = Accepting {
        rt,
        timers,
        late: None,
        listeners,
        maker,
        places,
        end,
        tasks: &tasks,
    };
    Ok(runtime.block_on_with(rt, &tasks, accepting)?)
}

/// What makes connections that share this and are counted there.
fn maker_of<R: Clock + RandomSource + Copy + Drop, T: Taker, O: Outside, W: Waker>(
    rt: R,
    alloc: Global,
    timers: &time::Handle,
    shared: (&Arc<Shared<T, O, W>>, Arc<Sends>),
) -> Result<Maker<R, T, O, W>, FrontFault> {
    let (shared, sends) = shared;
    let http = settings(rt, alloc, timers.clone()?, HEAD_SECONDS)?;
    Ok(Maker {
        rt,
        alloc,
        shared: Arc::try_clone(shared)?,
        http,
        sends,
    })
}

/// What a front leaves whose connections have ended.
fn ended<R: Wait, T: Taker, O: Outside, W: Waker>(
    rt: &R,
    shared: &Shared<T, O, W>,
) -> Result<FrontEnded<T>, FrontFault> {
    let asker = shared.asker.lock(rt).take();
    match asker {
        Some(asker) => {
            let (taker, sender) = asker.into_parts();
            Ok(FrontEnded { taker, sender })
        }
        None => Err(FrontFault::Held),
    }
}

/// How connections are served. A head may take so many seconds to come, and a connection may be
/// idle for as long.
pub fn settings<R: Clock + RandomSource + Copy + Drop>(
    rt: R,
    alloc: Global,
    timers: time::Handle,
    head_seconds: u64,
) -> io::Result<Builder<TokioTimer<R>>> {
    let timer = TokioTimer::new(rt, timers);
    let mut http = Builder::new(alloc, RandomState::new(&rt)?).timer(timer);
    http.max_buf_size(HEAD);
    http.auto_date_header(false);
    // A client may close its side after its request.
    http.half_close(true);
    http.header_read_timeout(Some(Duration::from_secs(head_seconds)));
    Ok(http)
}

/// The listeners, with their reactor.
fn registered(
    alloc: Global,
    listeners: Vec<Bound>,
    handle: &Handle,
) -> io::Result<Vec<(u8, TcpListener)>> {
    let mut registered = Vec::with_capacity(alloc, listeners.len())?;
    for Bound { place, socket } in listeners {
        registered.push((place, TcpListener::from_std(socket, handle)?))?;
    }
    Ok(registered)
}
