//! The desk that the threads of serving call, and its closing.

ghost use Rattle.std.specs.Prelude.{Err, IfErr, IfOk, List, OnOk, Option, ◌≡◌, ◌≤◌, ℕ};
ghost use Rattle.std.specs.Io.KnownBytes.{Appends};
ghost use Rattle.lb_step.specs.Snapshot.{snapshot_of};
ghost use Rattle.lb_program_serve.specs.Serving.{Closes, Fails, Served, ServedOnceClosed, output_end, ready_text};

use crate::crew::OTHER_SEATED;
use crate::fault::Fault;
use crate::handlers::Handlers;
use crate::hears::Hears;
use crate::listening::Listening;
use crate::log::{LogFile, keep};
use crate::pages::pages_cross_threads;
use crate::parts::{Context, OwnConsole, Runners, runners_at};
use crate::switches::{MOST_LOOPS, Switches};
use crate::threads::{FrontEnd, LoopsEnd, run_beside};
use lb_core::Balancer;
use lb_desk::{Desk, Naming, Seat};
use lb_doh::posts_cross_threads;
use lb_loops::{Caller, Ended, callers_cross_threads};
use lb_metrics::Page;
use lb_program::{ServerPlace, Setup, closed_line, write_line};
use lb_sockets::{
    moments_cross_threads, sockets_cross_threads, streams_cross_threads, wakers_are_shared,
};
use mio::net::TcpStream;
use std::alloc::{AllocError, Global};
use std::io::Write;
use std::marker::Brand;
use std::net::{Net, TcpListener};
use std::random::RandomSource;
use std::sync::Wait;
use std::sync::ledger::Blank;
use std::thread::Threads;
use std::time::Clock;
use std::{io, net};

/// What a setup file states, the servers of the balancer that it leaves, and what the switches ask
/// for.
#[derive(Drop)]
pub(crate) struct Plan {
    pub(crate) setup: Setup,
    pub(crate) servers: Vec<ServerPlace>,
    pub(crate) switches: Switches,
}

/// A plan, the sockets that listen, and the file to which the log is written once it was found
/// true.
#[derive(Drop)]
pub(crate) struct Ready<L> {
    pub(crate) plan: Plan,
    pub(crate) listening: Listening,
    pub(crate) log: Option<LogFile<L>>,
}

/// What threads leave: their handlers of events, and the console's client that said stop.
#[derive(Drop)]
struct Left<T> {
    handlers: Handlers<T>,
    client: Option<TcpStream>,
}

/// Serves by a balancer and what its setup file states, with sockets that listen, until the console
/// says stop: `ready` is written first, and last how many calls the desk had.
pub(crate) fn serve_at_desk<
    R: Threads
        + Wait
        + Net<Listener = TcpListener, Stream = net::TcpStream>
        + Clock
        + RandomSource
        + Sync,
    W: Write,
    L: Write + Drop,
>(rt: &R, alloc: Global, balancer: Balancer, ready: Ready<L>, output: &mut W) -> Result<(), Fault>
    ensures { Served (snapshot_of balancer) ready.plan.setup.log (W.contents output.old) (W.contents output.new) result }
{
    let seats = seats_of(ready.plan.switches.loops);
    let blank = Blank::new(u64::from(seats));
    serve_named::<Brand, R, W, L>((rt, alloc), blank, balancer, seats, ready, output)
}

/// How many seats there are with so many loops of datagrams: at most as many as a desk has.
fn seats_of(loops: u8) -> u8
    ensures { (1 ≤ result) × (result ≤ 64) }
{
    OTHER_SEATED + loops.min(MOST_LOOPS)
}

fn serve_named<
    J: Naming + Send + Sync,
    R: Threads
        + Wait
        + Net<Listener = TcpListener, Stream = net::TcpStream>
        + Clock
        + RandomSource
        + Sync,
    W: Write,
    L: Write + Drop,
>(
    cx: Context<'_, R>,
    blank: Blank,
    balancer: Balancer,
    count: u8,
    ready: Ready<L>,
    output: &mut W,
) -> Result<(), Fault>
    requires name { blank.name ≡ J.name }
    requires parts { (blank.parts ≡ J.parts) × (J.parts ≡ J.seats) }
    requires seats { J.seats ≡ count }
    requires some { (1 ≤ count) × (count ≤ 64) }
    requires limit { J.limit ≡ ready.plan.setup.log }
    requires opening { J.opening ≡ snapshot_of balancer }
    ensures { Served J.opening J.limit (W.contents output.old) (W.contents output.new) result }
{
    let (rt, alloc) = cx;
    let limit = u64::from(ready.plan.setup.log());
    let (desk, mut seats) = Desk::<J>::made(alloc, blank, balancer, limit, count)?;
    let Ready {
        plan,
        listening,
        log,
    } = ready;
    let given = (&plan, listening);
    match run_at_desk((rt, alloc), &desk, &mut seats, given, output) {
        Ok(client) => close(alloc, desk, seats, client, log, output),
        Err(fault) => Err(fault),
    }
}

/// Puts the seats of these handlers into a list. The one error is lack of memory.
fn gather<J: Naming, R: Wait>(
    seats: &mut Vec<Seat<J>>,
    handlers: Handlers<Caller<'_, R, J>>,
) -> Result<(), AllocError> {
    let Handlers {
        datagrams,
        streams,
        clock,
        console,
        front,
    } = handlers;
    for caller in datagrams {
        put(seats, caller)?;
    }
    put(seats, streams)?;
    put(seats, clock)?;
    put(seats, console)?;
    put(seats, front)
}

/// Puts the seat of a handler into a list.
fn put<J: Naming, R: Wait>(
    seats: &mut Vec<Seat<J>>,
    caller: Caller<'_, R, J>,
) -> Result<(), AllocError> {
    seats.push(caller.into_seat()).map_err(AllocError::from)
}

/// Closes the desk, leaves its log in the file that is asked for, and reports how many calls it
/// had: on the output, and to the client that said stop.
fn close<J: Naming, W: Write, L: Write + Drop>(
    alloc: Global,
    desk: Desk<J>,
    seats: Vec<Seat<J>>,
    client: Option<TcpStream>,
    log: Option<LogFile<L>>,
    output: &mut W,
) -> Result<(), Fault>
    ensures { (old : Option (List ℕ)) → Appends old (W.contents output.old) ready_text → Served J.opening J.limit old (W.contents output.new) result }
{
    match counted(alloc, desk, seats, log) {
        Ok(count) => tell_closed(count, client, output),
        Err(fault) => Err(fault),
    }
}

/// How many calls a desk had that is closed with these seats. Its log is written to the file.
fn counted<J: Naming, L: Write + Drop>(
    alloc: Global,
    desk: Desk<J>,
    seats: Vec<Seat<J>>,
    log: Option<LogFile<L>>,
) -> Result<u64, Fault>
    ensures closes { IfOk result (λ count. Closes J.opening J.limit count) }
{
    match desk.close(seats) {
        Ok(audit) => {
            keep(alloc, log, audit.log.as_slice());
            Ok(audit.count)
        }
        Err(fault) => Err(Fault::Closing(fault)),
    }
}

/// Reports how many calls there were. It takes no memory, so that it is reported however little
/// there is.
fn tell_closed<W: Write>(count: u64, client: Option<TcpStream>, output: &mut W) -> Result<(), Fault>
    ensures { ServedOnceClosed count (W.contents output.old) (W.contents output.new) result }
{
    let line = closed_line(count);
    if let Some(mut client) = client {
        let _ = client.write(line.as_slice());
    }
    told(write_line(output, line.as_slice()))
}

/// An output that fails ends serving.
fn told(written: io::Result<()>) -> Result<(), Fault>
    ensures { result ≡ output_end written }
{
    match written {
        Ok(()) => Ok(()),
        Err(error) => Err(Fault::Output(error)),
    }
}

/// Runs the loops, the console and the front until serving ends, and gives the client that said
/// stop. The seats are taken out of their list, and come into it again.
fn run_at_desk<
    'a,
    J: Naming + Send + Sync,
    R: Threads
        + Wait
        + Net<Listener = TcpListener, Stream = net::TcpStream>
        + Clock
        + RandomSource
        + Sync,
    W: Write,
>(
    cx: Context<'a, R>,
    desk: &'a Desk<J>,
    seats: &mut Vec<Seat<J>>,
    given: (&Plan, Listening),
    output: &mut W,
) -> Result<Option<TcpStream>, Fault>
    ensures ready { OnOk result (Appends (W.contents output.old) (W.contents output.new) ready_text) }
    ensures ended { IfErr result (λ fault. Served J.opening J.limit (W.contents output.old) (W.contents output.new) (Err fault)) }
{
    // Laws, which do nothing.
    callers_cross_threads::<J, R>();
    pages_cross_threads::<J, R>();
    let (plan, listening) = given;
    let runners = match runners_at(cx, desk, seats, plan, listening) {
        Ok(runners) => runners,
        Err(fault) => return Err(fault),
    };
    let Left { handlers, client } = match run_prepared(cx, runners, output) {
        Ok(left) => left,
        Err(fault) => return Err(fault),
    };
    match gather(seats, handlers) {
        Ok(()) => Ok(client),
        Err(refused) => Err(Fault::from(refused)),
    }
}

/// Tells that clients are answered from now on, and runs the loops, the console and the services by
/// HTTP.
fn run_prepared<
    'a,
    R: Threads
        + Wait
        + Net<Listener = TcpListener, Stream = net::TcpStream>
        + Clock
        + RandomSource
        + Sync,
    W: Write,
    T: Hears + Send,
    G: Page + Send,
>(cx: Context<'a, R>, runners: Runners<'a, R, T, G>, output: &mut W) -> Result<Left<T>, Fault>
    ensures ready { OnOk result (Appends (W.contents output.old) (W.contents output.new) ready_text) }
    ensures ended { IfErr result (Fails (W.contents output.old) (W.contents output.new)) }
{
    match write_line(output, b"ready\n") {
        Ok(()) => left_of(cx, runners),
        Err(error) => Err(Fault::Output(error)),
    }
}

/// What the loops, the console and the front leave that run now.
fn left_of<
    'a,
    R: Threads
        + Wait
        + Net<Listener = TcpListener, Stream = net::TcpStream>
        + Clock
        + RandomSource
        + Sync,
    T: Hears + Send,
    G: Page + Send,
>(cx: Context<'a, R>, runners: Runners<'a, R, T, G>) -> Result<Left<T>, Fault> {
    let (loops, (console, front)) = run(cx, runners);
    left_by(loops, console, front)
}

/// What has run.
type Ran<'a, R, T> = (LoopsEnd<T>, (OwnConsole<'a, R, T>, FrontEnd<T>));

/// Runs the loops, the console and the services by HTTP. It stands alone, so that the search for
/// what lets them cross to threads ends.
fn run<
    'a,
    R: Threads
        + Wait
        + Net<Listener = TcpListener, Stream = net::TcpStream>
        + Clock
        + RandomSource
        + Sync,
    T: Hears + Send,
    G: Page + Send,
>(cx: Context<'a, R>, runners: Runners<'a, R, T, G>) -> Ran<'a, R, T> {
    // Laws, which do nothing.
    sockets_cross_threads::<R>();
    streams_cross_threads::<R>();
    moments_cross_threads::<R>();
    wakers_are_shared();
    posts_cross_threads::<R>();
    let Runners {
        loops,
        console,
        over,
        services,
    } = runners;
    run_beside(cx.0, cx.1, loops, over, console, services)
}

/// What the loops, the console and the front leave; the first fault of theirs, if one ended by
/// itself: of the loops, of the front, and then of the console.
fn left_by<'a, R: Wait + Net + Clock + RandomSource, T: Hears>(
    ended: LoopsEnd<T>,
    console: OwnConsole<'a, R, T>,
    front: FrontEnd<T>,
) -> Result<Left<T>, Fault> {
    let (console, client, fault) = console.into_parts();
    let Ended {
        datagrams,
        streams,
        clock,
        ..
    } = ended.map_err(Fault::Loops)?;
    let front = front.map_err(Fault::Front)?.taker;
    match fault {
        Some(fault) => Err(fault),
        None => Ok(Left {
            handlers: Handlers {
                datagrams,
                streams,
                clock,
                console,
                front,
            },
            client,
        }),
    }
}
