//! `lb serve`.

ghost use Rattle.std.specs.Prelude.{IfOk, List, Option, Result, ◌≡◌, ℕ};
ghost use Rattle.std.specs.declared.io.Error.{Error};
ghost use Rattle.lb_step.specs.Snapshot.{snapshot_of};
ghost use Rattle.lb_program.specs.Faults.{Tells, stop_text};
ghost use Rattle.lb_program.specs.Servers.{server_places};
ghost use Rattle.lb_program.specs.declared.faults.Stop.TheVariants.{Input};
ghost use Rattle.lb_program_serve.specs.Fault.{fault_status, fault_text};
ghost use Rattle.lb_program_serve.specs.Serving.{EndsServe, Says, Served, TellsBehind, serve_status, serve_text};

use crate::crew::{spare_threads, threads_of};
use crate::desk::{Plan, Ready, serve_at_desk};
use crate::fault::Fault;
use crate::listening::listen;
use crate::log;
use crate::sentences::Sentences;
use crate::switches::{Switches, limits_streams, loops_of, metrics_of};
use lb_core::Balancer;
use lb_program::{Ended, Setup, Stop, places, read_setup, write_line};
use std::alloc::Global;
use std::env::Env;
use std::fs::Files;
use std::io;
use std::io::Write;
use std::net::{Net, TcpListener, TcpStream};
use std::random::RandomSource;
use std::sync::Wait;
use std::thread::Threads;
use std::time::Clock;

/// Serves by a setup file's text: its commands are applied to an empty balancer, its addresses are
/// bound, `ready` is written, and clients are answered until the console says stop; then `closed N`
/// is written, N being how many calls the balancer had. Gives the exit status: 0; 1 after a line
/// that does not read, or whose edit is refused; 3 if the system does not give what is needed,
/// or memory is refused; 4 if the calls' log differs from what the callers kept. What ended it
/// early is reported in one line on `faults`, after sentences that begin with `lb: `.
pub fn serve<
    R: Files
        + Threads
        + Wait
        + Net<Listener = TcpListener, Stream = TcpStream>
        + Clock
        + RandomSource
        + AllocGlobal
        + Env
        + Sync,
    W: Write,
    F: Write,
>(rt: &R, text: &str, output: &mut W, faults: &mut F) -> u8
    ensures { (told : Result (Unit {0}) Error) × EndsServe text.now (W.contents output.old) (W.contents output.new) (F.contents faults.old) (F.contents faults.new) result told }
{
    serve_told(rt, rt.alloc(), text, output, faults).status
}

/// The same, and whether what ended it early was reported.
pub fn serve_told<
    R: Files
        + Threads
        + Wait
        + Net<Listener = TcpListener, Stream = TcpStream>
        + Clock
        + RandomSource
        + Env
        + Sync,
    W: Write,
    F: Write,
>(rt: &R, alloc: Global, text: &str, output: &mut W, faults: &mut F) -> Ended
    ensures { EndsServe text.now (W.contents output.old) (W.contents output.new) (F.contents faults.old) (F.contents faults.new) result.status result.told }
{
    let (setup, balancer) = match read_setup(alloc, text) {
        Ok(read) => read,
        Err(stop) => return Ended::tell(Err(stop), faults),
    };
    warn(rt, alloc, text, (&setup, &balancer), faults);
    let end = serve_by(rt, alloc, text, setup, balancer, output);
    tell(alloc, end, faults)
}

/// Binds the addresses of a setup file's text, and serves by what it states.
fn serve_by<
    R: Files
        + Threads
        + Wait
        + Net<Listener = TcpListener, Stream = TcpStream>
        + Clock
        + RandomSource
        + Env
        + Sync,
    W: Write,
>(
    rt: &R,
    alloc: Global,
    text: &str,
    setup: Setup,
    balancer: Balancer,
    output: &mut W,
) -> Result<(), Fault>
    ensures { Served (snapshot_of balancer) setup.log (W.contents output.old) (W.contents output.new) result }
{
    match ready(rt, alloc, text, setup, &balancer) {
        Ok(ready) => serve_at_desk(rt, alloc, balancer, ready, output),
        Err(fault) => Err(fault),
    }
}

/// What is there before a setup file is served: the servers of the balancer that it leaves, what
/// the switches ask for, threads for that, and the addresses of its text, which are bound then.
fn ready<R: Net<Listener = TcpListener, Stream = TcpStream> + Env + Files + Threads>(
    rt: &R,
    alloc: Global,
    text: &str,
    setup: Setup,
    balancer: &Balancer,
) -> Result<Ready<R::File>, Fault>
    ensures setup { IfOk result (λ ready. ready.plan.setup ≡ setup) }
    ensures servers { IfOk result (λ ready. ready.plan.servers.items ≡ server_places balancer.now) }
{
    let servers = places(alloc, balancer)?;
    let switches = Switches::read(rt, alloc)?;
    let threads = threads_of(switches.loops, switches.metrics.is_some());
    spare_threads(rt, alloc, threads)?;
    let listening = listen(
        rt,
        alloc,
        text,
        setup.listeners(),
        switches.loops,
        switches.metrics,
    )?;
    let log = log::made(rt, alloc, text, &switches)?;
    Ok(Ready {
        plan: Plan {
            setup,
            servers,
            switches,
        },
        listening,
        log,
    })
}

/// Reports what an operator should know before the program serves. If that can't be reported, it is
/// not.
fn warn<R: Env + Threads, F: Write>(
    rt: &R,
    alloc: Global,
    text: &str,
    left: (&Setup, &Balancer),
    faults: &mut F,
)
    ensures { Says (F.contents faults.old) (F.contents faults.new) }
{
    let (setup, _) = left;
    let mut sentences = Sentences::none(alloc);
    let metrics = metrics_of(rt).unwrap_or(None);
    let loops = loops_of(rt).unwrap_or(1);
    let _ = sentences.warn(alloc, text, left, loops, metrics.is_some());
    let _ = sentences.warn_of_metrics(alloc, metrics);
    if !limits_streams(rt) {
        let _ = sentences.warn_of_streams(alloc, setup);
    }
    let _ = sentences.warn_of_words(alloc, rt);
    let _ = write_line(faults, sentences.as_bytes());
}

/// Reports what ended serving, in a sentence and the text of its status; nothing if the console
/// said stop.
fn tell<F: Write>(alloc: Global, end: Result<(), Fault>, faults: &mut F) -> Ended
    ensures status { result.status ≡ serve_status end }
    ensures told { (first : Option (List ℕ)) → Says first (F.contents faults.old) → TellsBehind first (F.contents faults.new) (serve_text end) result.told }
{
    match end {
        Ok(()) => Ended {
            status: 0,
            told: Ok(()),
        },
        Err(fault) => tell_fault(alloc, fault, faults),
    }
}

/// Tells a fault that ended serving.
fn tell_fault<F: Write>(alloc: Global, fault: Fault, faults: &mut F) -> Ended
    ensures status { result.status ≡ fault_status fault }
    ensures told { (mid : Option (List ℕ)) × Says (F.contents faults.old) mid × Tells mid (F.contents faults.new) (fault_text fault) result.told }
{
    explain(alloc, &fault, faults);
    Ended {
        status: fault.status(),
        told: write_line(faults, fault.text().as_bytes()),
    }
}

/// Reports what an operator should know of a fault. If that can't be reported, it is not.
fn explain<F: Write>(alloc: Global, fault: &Fault, faults: &mut F)
    ensures { Says (F.contents faults.old) (F.contents faults.new) }
{
    let mut sentences = Sentences::none(alloc);
    let _ = sentences.explain(alloc, fault);
    let _ = write_line(faults, sentences.as_bytes());
}

/// Tells that a setup file can't be read: in a sentence, and the text of its status.
pub fn tell_unreadable<F: Write>(
    alloc: Global,
    file: &str,
    error: io::Error,
    faults: &mut F,
) -> Ended
    ensures status { result.status ≡ 3 }
    ensures told { (mid : Option (List ℕ)) × Says (F.contents faults.old) mid × Tells mid (F.contents faults.new) (stop_text (Input error)) result.told }
{
    say_unreadable(alloc, file, &error, faults);
    Ended::tell(Err(Stop::Input(error)), faults)
}

/// Reports why a file is not read. If that can't be reported, it is not.
fn say_unreadable<F: Write>(alloc: Global, file: &str, error: &io::Error, faults: &mut F)
    ensures { Says (F.contents faults.old) (F.contents faults.new) }
{
    let mut sentences = Sentences::none(alloc);
    let _ = sentences.unreadable(alloc, file, error);
    let _ = write_line(faults, sentences.as_bytes());
}
