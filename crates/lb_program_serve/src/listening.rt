//! What the lines of a setup file listen with, each at its place.

ghost use Rattle.std.specs.Prelude.{IfOk, map, ◌≡◌};
ghost use Rattle.lb_program_serve.specs.Listening as spec;

use crate::fault::Fault;
use crate::switches::Switch;
use lb_command::{Listener, Protocol, begins_listen};
use lb_doh_server::Bound;
use lb_loops::{Endpoint, Service};
use lb_sockets::{
    BindFault, ListenSockets, Share, TcpListeners, listener_at, listeners, std_listener_at,
    stream_listeners,
};
use mio::net::TcpListener;
use std::alloc::{AllocError, Global};
use std::net;
use std::net::Net;
use std::sync::Arc;

/// The sockets that listen.
#[derive(Drop)]
pub(crate) struct Listening {
    /// Those of the first loop of datagrams.
    pub(crate) datagrams: Arc<ListenSockets>,
    /// Those of each further one.
    pub(crate) beside: Vec<Arc<ListenSockets>>,
    pub(crate) streams: TcpListeners,
    pub(crate) http: Vec<Bound>,
    pub(crate) consoles: Vec<TcpListener>,
    /// That of the service of metrics, if there is to be one.
    pub(crate) metrics: Option<net::TcpListener>,
}

/// Binds all addresses of a setup file's lines, which this text has, with sockets of datagrams for
/// so many loops, and the one of the service of metrics, if there is one. If the system refuses an
/// address, or if no line listens, it is an error and none stays bound.
pub(crate) fn listen<N: Net>(
    net: &N,
    alloc: Global,
    text: &str,
    lines: &[Listener],
    loops: u8,
    metrics: Option<Endpoint>,
) -> Result<Listening, Fault> {
    if lines.is_empty() {
        return Err(Fault::NoListener);
    }
    match bound(net, alloc, lines, loops) {
        Ok(mut listening) => {
            listening.metrics = metrics_listener(net, metrics)?;
            Ok(listening)
        }
        Err(fault) => Err(refused(text, fault)),
    }
}

/// The listener of the service of metrics, if there is to be one.
fn metrics_listener<N: Net>(
    net: &N,
    end: Option<Endpoint>,
) -> Result<Option<net::TcpListener>, Fault> {
    let Some(end) = end else {
        return Ok(None);
    };
    match std_listener_at(net, 0, end) {
        Ok(listener) => Ok(Some(listener)),
        Err(fault) => Err(refused_for_metrics(fault)),
    }
}

/// The fault of the switch whose address was not bound.
fn refused_for_metrics(fault: BindFault) -> Fault {
    match fault {
        BindFault::Bind { error, .. } => Fault::Switch(Switch::MetricsListener(error.kind())),
        BindFault::NoMemory => Fault::Bind(0, fault),
    }
}

/// Binds the addresses of the lines.
fn bound<N: Net>(
    net: &N,
    alloc: Global,
    lines: &[Listener],
    loops: u8,
) -> Result<Listening, BindFault> {
    let datagrams = ends(alloc, lines, Protocol::Udp)?;
    let streams = ends(alloc, lines, Protocol::Tcp)?;
    let share = if loops > 1 {
        Share::First
    } else {
        Share::Alone
    };
    Ok(Listening {
        datagrams: listeners(net, alloc, datagrams.as_slice(), share)?,
        beside: listeners_beside(net, alloc, datagrams.as_slice(), loops)?,
        streams: stream_listeners(net, alloc, streams.as_slice())?,
        http: fronts_of_http(net, alloc, lines)?,
        consoles: consoles(net, alloc, lines)?,
        metrics: None,
    })
}

/// The listeners of each loop of datagrams after the first.
fn listeners_beside<N: Net>(
    net: &N,
    alloc: Global,
    ends: &[Option<Endpoint>],
    loops: u8,
) -> Result<Vec<Arc<ListenSockets>>, BindFault> {
    let mut beside = Vec::with_capacity(alloc, usize::from(loops))?;
    for _ in 1..loops {
        beside.push(listeners(net, alloc, ends, Share::Beside)?)?;
    }
    Ok(beside)
}

/// The listeners for DNS on HTTP.
fn fronts_of_http<N: Net>(
    net: &N,
    alloc: Global,
    lines: &[Listener],
) -> Result<Vec<Bound>, BindFault> {
    let mut fronts = Vec::with_capacity(alloc, lines.len())?;
    for (place, line) in lines.iter().enumerate() {
        if line.protocol == Protocol::Doh {
            let socket = std_listener_at(net, place, end_of(line))?;
            // At most eight lines listen.
            let place = u8::try_from(place).unwrap_or(u8::MAX);
            fronts.push(Bound { place, socket })?;
        }
    }
    Ok(fronts)
}

/// The listeners of the console.
fn consoles<N: Net>(
    net: &N,
    alloc: Global,
    lines: &[Listener],
) -> Result<Vec<TcpListener>, BindFault> {
    let mut consoles = Vec::with_capacity(alloc, lines.len())?;
    for (place, line) in lines.iter().enumerate() {
        if line.protocol == Protocol::Console {
            consoles.push(listener_at(net, place, end_of(line))?)?;
        }
    }
    Ok(consoles)
}

/// The fault of an address that was not bound, with the number of its line.
fn refused(text: &str, fault: BindFault) -> Fault {
    match fault {
        BindFault::Bind { place, .. } => Fault::Bind(line_of(text, place), fault),
        BindFault::NoMemory => Fault::Bind(0, fault),
    }
}

/// The end that a line listens at.
fn end_of(line: &Listener) -> Endpoint
    ensures { result ≡ spec.end_of line.now }
{
    Endpoint {
        addr: line.addr,
        port: line.port.get(),
    }
}

/// The ends of the lines of a protocol, each at its place; those of others have none.
fn ends(
    alloc: Global,
    lines: &[Listener],
    protocol: Protocol,
) -> Result<Vec<Option<Endpoint>>, AllocError>
    ensures { IfOk result (λ ends. ends.items ≡ map (spec.end_by protocol) lines.now) }
{
    lines
        .iter()
        .map(|line| end_by(protocol, line))
        .collect(alloc)
}

/// The end of a line, if it is of this protocol.
fn end_by(protocol: Protocol, line: &Listener) -> Option<Endpoint>
    ensures { result ≡ spec.end_by protocol line.now }
{
    if line.protocol == protocol {
        Some(end_of(line))
    } else {
        None
    }
}

/// What listens at each place. The one error is lack of memory.
pub(crate) fn fronts(alloc: Global, lines: &[Listener]) -> Result<Vec<Service>, AllocError>
    ensures { IfOk result (λ fronts. fronts.items ≡ map spec.service_of lines.now) }
{
    lines.iter().map(service_of).collect(alloc)
}

fn service_of(line: &Listener) -> Service
    ensures { result ≡ spec.service_of line.now }
{
    match line.protocol {
        Protocol::Udp => Service::Datagram,
        Protocol::Tcp => Service::Stream,
        Protocol::Doh => Service::Http,
        Protocol::Console => Service::Console,
    }
}

/// The number, from 1, of the line that listens with so many such lines before it.
pub(crate) fn line_of(text: &str, place: usize) -> u64 {
    let mut number = 0u64;
    let mut before = 0usize;
    for line in text.lines() {
        number = number.saturating_add(1);
        if begins_listen(line) {
            if before == place {
                return number;
            }
            before = before.wrapping_add(1);
        }
    }
    number
}
