//! What runs at a desk, and what it is made of.

ghost use Rattle.std.specs.Prelude.{IfOk, ◌≡◌};
ghost use Rattle.lb_program_serve.specs.Listening.{AreFronts};

use crate::console::{Console, ConsoleSockets};
use crate::descriptors::Clients;
use crate::desk::Plan;
use crate::fault::Fault;
use crate::gate::OpenGate;
use crate::halt::Halt;
use crate::handlers::{Handlers, OtherSeats, callers};
use crate::hears::Hears;
use crate::listening::{Listening, fronts};
use crate::operator::Operator;
use crate::pages::DeskPage;
use crate::shared::{LoopTables, Shared, shared_by};
use crate::sockets::{BoundSockets, Devices, Sockets};
use crate::switches::Switches;
use crate::threads::{Fronting, LoopParts, Over, Services};
use futures::channel::oneshot;
use lb_command::Listener;
use lb_desk::{CloseFault, Desk, Naming, Seat};
use lb_doh::{HttpPosts, Requests};
use lb_doh_server::{Bound, FrontParts, front_runtime};
use lb_loops::{
    Caller, ClockParts, DatagramParts, Parts, Receiver, Roster, Sender, Service, StreamParts,
};
use lb_metrics::{MetricsParts, Page, metrics_runtime};
use lb_program::ServerPlace;
use lb_recent::Rings;
use lb_sends::Sends;
use lb_sockets::{PollWaker, SystemOutside, TcpSockets, UdpSockets};
use lb_words::Words;
use mio;
use mio::net::TcpListener;
use std::alloc::{AllocError, Global};
use std::net;
use std::net::Net;
use std::random::RandomSource;
use std::sync::{Arc, Mutex, Wait};
use std::time::Clock;

/// What the loops are made of.
pub(crate) type Loops<'a, R, T> = LoopParts<
    UdpSockets<'a, R>,
    TcpSockets<'a, R>,
    T,
    SystemOutside<'a, R>,
    HttpPosts<'a, R>,
>;

/// The console.
pub(crate) type OwnConsole<'a, R, T> = Console<'a, R, T, SystemOutside<'a, R>>;

/// The services by HTTP.
pub(crate) type OwnServices<'a, R, T, G> = Services<T, SystemOutside<'a, R>, G>;

/// What runs, with handlers of events of one kind, and a page of metrics of another.
#[derive(Drop)]
pub(crate) struct Runners<'a, R: Wait + Net + Clock + RandomSource, T: Hears, G> {
    pub(crate) loops: Loops<'a, R, T>,
    pub(crate) console: OwnConsole<'a, R, T>,
    /// What tells the console and the services that the loops have ended.
    pub(crate) over: Over,
    pub(crate) services: OwnServices<'a, R, T, G>,
}

/// What runs at a desk.
pub(crate) type DeskRunners<'a, R, J> = Runners<'a, R, Caller<'a, R, J>, DeskPage<'a, R, J>>;

/// The runtime, and the allocator.
pub(crate) type Context<'a, R> = (&'a R, Global);

/// What the loops, the console and the services by HTTP are made of at a desk. The seats are taken
/// out of their list.
pub(crate) fn runners_at<'a, J: Naming, R: Wait + Net + Clock + RandomSource>(
    cx: Context<'a, R>,
    desk: &'a Desk<J>,
    seats: &mut Vec<Seat<J>>,
    plan: &Plan,
    listening: Listening,
) -> Result<DeskRunners<'a, R, J>, Fault>
    ensures { IfOk result (λ p. AreFronts p.loops.streams.fronts.items p.loops.clock.fronts.items plan.now.setup.listeners) }
{
    let Some(others) = OtherSeats::taken(seats) else {
        return Err(Fault::Closing(CloseFault::MissingSeat));
    };
    let (shared, rings) = shared_by(cx.1, plan, seats.len())?;
    let handlers = callers(cx, desk, seats, others, (&rings, &shared.sends))?;
    let page = page_of(cx, desk, plan, &shared.sends)?;
    prepared(cx, plan, (handlers, page), (shared, rings), listening)
}

/// What writes the page of metrics, if there is to be one.
fn page_of<'a, J: Naming, R: Clock>(
    cx: Context<'a, R>,
    desk: &'a Desk<J>,
    plan: &Plan,
    sends: &Arc<Sends>,
) -> Result<Option<DeskPage<'a, R, J>>, AllocError> {
    if plan.switches.metrics.is_none() {
        return Ok(None);
    }
    // A page lists no query, so its words have no ring.
    let rings = Rings::made(cx.1, 0, 0)?;
    let words = words_of(cx, plan, sends, rings)?;
    Ok(Some(DeskPage {
        rt: cx.0,
        desk,
        words,
    }))
}

/// The words of the console, with these rings of the last queries.
fn words_of<R: Clock>(
    cx: Context<'_, R>,
    plan: &Plan,
    sends: &Arc<Sends>,
    rings: Rings,
) -> Result<Words, AllocError> {
    let (rt, alloc) = cx;
    let (lines, log) = (plan.setup.listeners(), plan.setup.log());
    Words::new(rt, alloc, lines, log, rings, Arc::try_clone(sends)?)
}

/// What the loops are made of besides their handlers of events.
#[derive(Drop)]
struct OfLoops<'a, R: Wait + Net + Clock + RandomSource> {
    streams: TcpSockets<'a, R>,
    clock: UdpSockets<'a, R>,
    tables: LoopTables,
    /// What listens at each place of the listen lines, for the loop of streams and for the clock.
    fronts: (Vec<Service>, Vec<Service>),
    posts: (HttpPosts<'a, R>, HttpPosts<'a, R>),
    jobs: (Sender, Receiver),
    outside: SystemOutside<'a, R>,
    halt: Halt,
    roster: Arc<Mutex<Roster>>,
    sends: Arc<Sends>,
    /// For how many milliseconds a client over TCP may send no query, if that is limited.
    idle: Option<u64>,
}

impl<'a, R: Wait + Net + Clock + RandomSource> OfLoops<'a, R> {
    /// The loops, with the parts of those of datagrams, and the handlers of events of the two
    /// others.
    fn with<T>(self, rows: RowWithRoom<'a, R, T>, takers: (T, T)) -> Loops<'a, R, T>
        ensures { (result.streams.fronts ≡ self.entry.fronts.0) × (result.clock.fronts ≡ self.entry.fronts.1) }
    {
        let OfLoops {
            streams,
            clock,
            tables,
            fronts,
            posts,
            jobs,
            outside,
            halt,
            roster,
            sends,
            idle,
        } = self;
        let (of_streams, of_clock) = takers;
        let (stream_fronts, clock_fronts) = fronts;
        let (stream_posts, clock_posts) = posts;
        let (sender, receiver) = jobs;
        let (datagrams, takers) = rows;
        let streams = StreamParts {
            sockets: streams,
            table: tables.table,
            roster: tables.streams,
            receiver,
            fronts: stream_fronts,
            posts: stream_posts,
            taker: of_streams,
            outside: outside.beside(),
            idle,
        };
        let clock = ClockParts {
            sockets: clock,
            probes: tables.probes,
            roster: tables.clock,
            sender,
            fronts: clock_fronts,
            posts: clock_posts,
            taker: of_clock,
            outside,
        };
        Parts {
            datagrams,
            takers,
            streams,
            clock,
            roster,
            gate: OpenGate,
            sends,
            stop: halt.stop,
            datagrams_wakers: halt.datagrams,
            streams_waker: halt.streams,
            clock_waker: halt.clock,
        }
    }
}

/// The sockets of the loops of datagrams, and a roster for each.
type Rows<'a, R> = (Vec<UdpSockets<'a, R>>, Vec<Roster>);

/// What the loops of datagrams are made of.
type DatagramRow<'a, R, T> = Vec<DatagramParts<UdpSockets<'a, R>, T, SystemOutside<'a, R>>>;

/// The same, and room for their handlers when they have ended.
type RowWithRoom<'a, R, T> = (DatagramRow<'a, R, T>, Vec<T>);

/// What the loops of datagrams are made of, each of its sockets, its roster and its handler.
fn row_of<'a, R: Wait + Net + Clock + RandomSource, T: Drop>(
    alloc: Global,
    rows: Rows<'a, R>,
    mut takers: Vec<T>,
    outside: &SystemOutside<'a, R>,
) -> Result<RowWithRoom<'a, R, T>, AllocError> {
    let (mut sockets, mut rosters) = rows;
    let mut row = Vec::with_capacity(alloc, takers.len())?;
    for _ in 0..takers.len() {
        if let Some(taker) = takers.pop()
            && let Some(sockets) = sockets.pop()
            && let Some(roster) = rosters.pop()
        {
            let outside = outside.beside();
            row.push(DatagramParts {
                sockets,
                roster,
                taker,
                outside,
            })
            .map_err(AllocError::from)?;
        }
    }
    // Its handlers are out of it, and its room is there.
    Ok((row, takers))
}

/// What the console is made of besides its handler of events.
#[derive(Drop)]
struct OfConsole<'a, R: Clock + RandomSource> {
    sockets: ConsoleSockets,
    words: Words,
    roster: Arc<Mutex<Roster>>,
    outside: SystemOutside<'a, R>,
    halt: Halt,
}

impl<'a, R: Wait + Net + Clock + RandomSource> OfConsole<'a, R> {
    /// The console, with its handler of events.
    fn with<T: Hears>(
        self,
        cx: Context<'a, R>,
        servers: &[ServerPlace],
        taker: T,
    ) -> OwnConsole<'a, R, T> {
        let (rt, alloc) = cx;
        let operator = Operator::new(alloc, self.words, taker, self.outside, servers, self.roster);
        Console::new(rt, alloc, self.sockets, operator, self.halt)
    }
}

/// What the front of DNS on HTTP is made of besides its listeners and its handler of events.
#[derive(Drop)]
struct OfFront<'a, R: Clock + RandomSource> {
    sender: Sender,
    outside: SystemOutside<'a, R>,
    /// What wakes the loop of streams.
    streams: PollWaker,
    requests: Arc<Requests>,
    clients: usize,
    sends: Arc<Sends>,
    end: oneshot::Receiver<()>,
    halt: Halt,
}

impl<'a, R: Wait + Net + Clock + RandomSource> OfFront<'a, R> {
    /// The front, with its listeners and its handler of events.
    fn with<T: Drop>(
        self,
        cx: Context<'a, R>,
        listeners: Vec<Bound>,
        taker: T,
    ) -> Result<Fronting<T, SystemOutside<'a, R>>, Fault> {
        let runtime = front_runtime(&cx, listeners.as_slice()).map_err(Fault::Front)?;
        let parts = FrontParts {
            runtime,
            listeners,
            taker,
            sender: self.sender,
            outside: self.outside,
            streams: self.streams,
            requests: self.requests,
            clients: self.clients,
            sends: self.sends,
            end: self.end,
        };
        Ok(Fronting {
            parts,
            halt: self.halt,
        })
    }
}

/// The service of metrics, if it has a listener and a page.
fn metrics_at<R: Net + Clock + RandomSource, G: Page>(
    cx: Context<'_, R>,
    listener: Option<net::TcpListener>,
    page: Option<G>,
    end: oneshot::Receiver<()>,
) -> Result<Option<MetricsParts<G>>, Fault> {
    let (Some(listener), Some(page)) = (listener, page) else {
        return Ok(None);
    };
    Ok(Some(MetricsParts {
        listener,
        runtime: metrics_runtime(&cx)?,
        page,
        end,
    }))
}

/// What several parts need a hold on: the words of the console, its sockets and what wakes it, what
/// listens at each place of the listen lines for two loops, what wakes the loop of streams, the
/// roster, and the counts of failed sends.
#[derive(Drop)]
struct Tools {
    words: Words,
    console: ConsoleSockets,
    waker: mio::Waker,
    fronts: (Vec<Service>, Vec<Service>),
    streams: PollWaker,
    roster: Arc<Mutex<Roster>>,
    sends: Arc<Sends>,
}

impl Tools {
    /// Those that serve by a plan. The errors are the system's, and lack of memory.
    fn made<R: Net + Clock>(
        cx: Context<'_, R>,
        plan: &Plan,
        common: (&Shared, Rings),
        consoles: Vec<TcpListener>,
        sockets: &Sockets<'_, R>,
    ) -> Result<Tools, Fault>
        ensures { IfOk result (λ tools. AreFronts tools.fronts.0.items tools.fronts.1.items plan.now.setup.listeners) }
    {
        let (shared, rings) = common;
        let (console, waker) = console_of(cx, consoles)?;
        let (streams, roster, sends) = holds_of(shared, sockets)?;
        let words = words_of(cx, plan, &shared.sends, rings)?;
        let fronts = fronts_for_two(cx.1, plan.setup.listeners())?;
        Ok(Tools {
            words,
            console,
            waker,
            fronts,
            streams,
            roster,
            sends,
        })
    }
}

/// The sockets of the console, and what wakes it.
fn console_of<R: Net>(
    cx: Context<'_, R>,
    consoles: Vec<TcpListener>,
) -> Result<(ConsoleSockets, mio::Waker), Fault> {
    let (rt, alloc) = cx;
    let console = ConsoleSockets::made(rt, alloc, consoles)?;
    let waker = console.waker()?;
    Ok((console, waker))
}

/// What wakes the loop of streams, and references to the roster and to the counts of failed sends.
type Holds = (PollWaker, Arc<Mutex<Roster>>, Arc<Sends>);

/// What wakes the loop of streams, and references to what is shared.
fn holds_of<R: Net + Clock>(shared: &Shared, sockets: &Sockets<'_, R>) -> Result<Holds, Fault> {
    Ok((
        sockets.streams.waker()?,
        Arc::try_clone(&shared.roster)?,
        Arc::try_clone(&shared.sends)?,
    ))
}

/// The fronts of these lines, for two loops.
fn fronts_for_two(
    alloc: Global,
    lines: &[Listener],
) -> Result<(Vec<Service>, Vec<Service>), AllocError>
    ensures { IfOk result (λ r. AreFronts r.0.items r.1.items lines.now) }
{
    Ok((fronts(alloc, lines)?, fronts(alloc, lines)?))
}

/// For how many milliseconds a client over TCP may send no query, if that is limited.
fn idle_of(switches: &Switches) -> Option<u64> {
    switches
        .idle
        .map(|seconds| u64::from(seconds).saturating_mul(1_000))
}

/// What is made without a handler of events.
#[derive(Drop)]
struct Made<'a, R: Wait + Net + Clock + RandomSource> {
    rows: Rows<'a, R>,
    loops: OfLoops<'a, R>,
    console: OfConsole<'a, R>,
    front: OfFront<'a, R>,
    over: Over,
    /// What ends the service of metrics.
    page_end: oneshot::Receiver<()>,
}

impl<'a, R: Wait + Net + Clock + RandomSource> Made<'a, R> {
    /// What serves by a plan, with what threads share, and these devices and tools.
    fn of(plan: &Plan, shared: Shared, devices: Devices<'a, R>, tools: Tools) -> Made<'a, R>
        ensures { result.loops.fronts ≡ tools.fronts }
    {
        let Devices {
            sockets,
            halts,
            ties,
            posts,
            outside,
        } = devices;
        let front = OfFront {
            sender: ties.front,
            outside: outside.beside(),
            streams: tools.streams,
            requests: shared.requests,
            clients: Clients::beside(plan).http as usize,
            sends: tools.sends,
            end: ties.http_end,
            halt: halts.front,
        };
        let console = OfConsole {
            sockets: tools.console,
            words: tools.words,
            roster: tools.roster,
            outside: outside.beside(),
            halt: halts.console,
        };
        let loops = OfLoops {
            streams: sockets.streams,
            clock: sockets.clock,
            tables: shared.tables,
            fronts: tools.fronts,
            posts,
            jobs: (ties.clock, ties.receiver),
            outside,
            halt: halts.loops,
            roster: shared.roster,
            sends: shared.sends,
            idle: idle_of(&plan.switches),
        };
        Made {
            rows: (sockets.datagrams, shared.rosters),
            loops,
            console,
            front,
            over: Over {
                waker: tools.waker,
                http: ties.of_http,
                page: ties.of_page,
            },
            page_end: ties.page_end,
        }
    }

    /// The same, of what listens. The errors are the system's, and lack of memory.
    fn by(
        cx: Context<'a, R>,
        plan: &Plan,
        common: (Shared, Rings),
        bound: BoundSockets,
        consoles: Vec<TcpListener>,
    ) -> Result<Made<'a, R>, Fault>
        ensures { IfOk result (λ made. AreFronts made.loops.fronts.0.items made.loops.fronts.1.items plan.now.setup.listeners) }
    {
        let (shared, rings) = common;
        let devices = Devices::made(cx, bound, plan, &shared)?;
        let tools = Tools::made(cx, plan, (&shared, rings), consoles, &devices.sockets)?;
        Ok(Made::of(plan, shared, devices, tools))
    }
}

/// What the loops, the console and the services by HTTP are made of, with these handlers of events
/// and this page of metrics, if there is one.
fn prepared<'a, R: Wait + Net + Clock + RandomSource, T: Hears, G: Page>(
    cx: Context<'a, R>,
    plan: &Plan,
    own: (Handlers<T>, Option<G>),
    common: (Shared, Rings),
    listening: Listening,
) -> Result<Runners<'a, R, T, G>, Fault>
    ensures { IfOk result (λ p. AreFronts p.loops.streams.fronts.items p.loops.clock.fronts.items plan.now.setup.listeners) }
{
    let Listening {
        datagrams,
        beside,
        streams,
        http,
        consoles,
        metrics,
    } = listening;
    let made = Made::by(cx, plan, common, (datagrams, beside, streams), consoles)?;
    assembled(cx, plan.servers.as_slice(), own, (http, metrics), made)
}

/// The listeners of the services by HTTP: of DNS, and of metrics, if it has one.
type Listeners = (Vec<Bound>, Option<net::TcpListener>);

/// The same, of what was made without a handler of events.
fn assembled<'a, R: Wait + Net + Clock + RandomSource, T: Hears, G: Page>(
    cx: Context<'a, R>,
    servers: &[ServerPlace],
    own: (Handlers<T>, Option<G>),
    listeners: Listeners,
    made: Made<'a, R>,
) -> Result<Runners<'a, R, T, G>, Fault>
    ensures { IfOk result (λ p. (p.loops.streams.fronts ≡ made.entry.loops.fronts.0) × (p.loops.clock.fronts ≡ made.entry.loops.fronts.1)) }
{
    let (handlers, page) = own;
    let Handlers {
        datagrams,
        streams,
        clock,
        console,
        front,
    } = handlers;
    let Made {
        rows,
        loops,
        console: of_console,
        front: of_front,
        over,
        page_end,
    } = made;
    let of_http = (of_front, front, page, page_end);
    match rest_of(cx, rows, datagrams, &loops.outside, listeners, of_http) {
        Ok((rows, services)) => Ok(Runners {
            loops: loops.with(rows, (streams, clock)),
            console: of_console.with(cx, servers, console),
            over,
            services,
        }),
        Err(fault) => Err(fault),
    }
}

/// What the services by HTTP are made of: the front's parts and its handler of events, the page of
/// metrics, if there is one, and what ends its service.
type OfHttp<'a, R, T, G> = (OfFront<'a, R>, T, Option<G>, oneshot::Receiver<()>);

/// What the loops of datagrams are made of, and the services by HTTP.
fn rest_of<'a, R: Wait + Net + Clock + RandomSource, T: Hears, G: Page>(
    cx: Context<'a, R>,
    rows: Rows<'a, R>,
    takers: Vec<T>,
    outside: &SystemOutside<'a, R>,
    listeners: Listeners,
    of_http: OfHttp<'a, R, T, G>,
) -> Result<(RowWithRoom<'a, R, T>, OwnServices<'a, R, T, G>), Fault> {
    let rows = row_of(cx.1, rows, takers, outside)?;
    Ok((rows, services_of(cx, listeners, of_http)?))
}

/// The services by HTTP.
fn services_of<'a, R: Wait + Net + Clock + RandomSource, T: Drop, G: Page>(
    cx: Context<'a, R>,
    listeners: Listeners,
    of_http: OfHttp<'a, R, T, G>,
) -> Result<OwnServices<'a, R, T, G>, Fault> {
    let (http, listener) = listeners;
    let (front, taker, page, page_end) = of_http;
    let metrics = metrics_at(cx, listener, page, page_end)?;
    let front = front.with(cx, http, taker)?;
    Ok(Services { front, metrics })
}
