//! The service of metrics, in a thread.

use crate::page::Page;
use crate::service::Metrics;
use bytes::Bytes;
use futures::channel::oneshot;
use http_body_util::Full;
use hyper::rt::TokioTimer;
use hyper::server::conn::http1::{Builder, Connection};
use lb_doh_server::{
    Client, END_MILLISECONDS, FrontFault, Make, Paced, Served, serve_connections, settings,
};
use std::alloc::{AllocError, AllocGlobal, Global};
use std::net::Net;
use std::random::RandomSource;
use std::sync::{Arc, Wait};
use std::time::{Clock, Duration};
use std::{io, net};
use tokio::net::{TcpListener, TcpStream};
use tokio::runtime::LocalRuntime;
use tokio::sync::OwnedSemaphorePermit;
use tokio::time;

/// How many connections stand at most.
const CONNECTIONS: usize = 8;

/// How many seconds a head may take to come, and a connection may be idle.
const HEAD_SECONDS: u64 = 1;

/// What the service of metrics is made of.
#[derive(Drop)]
pub struct MetricsParts<P> {
    /// Its listener.
    pub listener: net::TcpListener,
    /// Its runtime, of `metrics_runtime`.
    pub runtime: LocalRuntime,
    /// What writes the page.
    pub page: P,
    /// What ends the service: that this is sent, or that its sender is dropped.
    pub end: oneshot::Receiver<()>,
}

/// A runtime for the service. It takes descriptors: made before any client is answered, it finds
/// them, where a process may have few.
pub fn metrics_runtime<R: Clock + Net + RandomSource + AllocGlobal>(
    rt: &R,
) -> io::Result<LocalRuntime> {
    LocalRuntime::new(rt)
}

/// Serves the page until it is told to end. At most eight connections stand; a further one is closed
/// at once.
pub fn run_metrics<R: Wait + Clock + Net + RandomSource + AllocGlobal + Copy + Drop, P: Page>(
    rt: R,
    alloc: Global,
    parts: MetricsParts<P>,
) -> Result<(), FrontFault> {
    let MetricsParts {
        listener,
        mut runtime,
        page,
        end,
    } = parts;
    runtime.set_shutdown_timeout(Some(Duration::from_millis(END_MILLISECONDS)));
    let maker = maker_of(rt, alloc, runtime.handle().time(), page)?;
    let mut listeners = Vec::with_capacity(alloc, 1)?;
    listeners.push((
        0,
        TcpListener::from_std(listener, runtime.handle().reactor())?,
    ))?;
    serve_connections(
        &rt,
        alloc,
        &mut runtime,
        (listeners, CONNECTIONS),
        end,
        maker,
    )
}

/// Makes connections that are answered with a page.
#[derive(Drop)]
struct Maker<R: Clock + Copy, P: Page> {
    rt: R,
    alloc: Global,
    page: Arc<P>,
    timers: time::Handle,
    http: Builder<TokioTimer<R>>,
}

/// What makes connections that are answered with this page.
fn maker_of<R: Clock + RandomSource + Copy + Drop, P: Page>(
    rt: R,
    alloc: Global,
    timers: &time::Handle,
    page: P,
) -> Result<Maker<R, P>, FrontFault> {
    Ok(Maker {
        rt,
        alloc,
        page: Arc::new(alloc, page)?,
        timers: timers.clone()?,
        http: settings(rt, alloc, timers.clone()?, HEAD_SECONDS)?,
    })
}

impl<R: Clock + Copy + Drop, P: Page> Make for Maker<R, P> {
    type Served = Served<Connection<Paced<R, TcpStream>, Metrics<P>, Full<Bytes>, TokioTimer<R>>>;

    fn make(
        &self,
        socket: TcpStream,
        _client: Client,
        place: OwnedSemaphorePermit,
    ) -> Result<Self::Served, AllocError> {
        let service = Metrics {
            alloc: self.alloc,
            page: Arc::try_clone(&self.page).ok(),
        };
        let socket = Paced::new(self.rt, self.timers.clone().ok(), socket, None);
        let connection = self.http.serve_connection(socket, service);
        Served::new(self.alloc, connection, place, None)
    }

    fn entered(&self) {}

    fn turned_away(&self) {}
}
