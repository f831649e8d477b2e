//! The system's sockets of streams.

ghost use Rattle.std.specs.Prelude.{IfOk, ◌≡◌};
ghost use Rattle.lb_sockets.specs.Told.{nothing};

use crate::arrivals::Arrivals;
use crate::fronts::TcpListeners;
use crate::pieces::Intake;
use crate::told::Told;
use crate::waker::PollWaker;
use crate::watch::Watch;
use lb_loops_io::{Accepted, Endpoint, Read, Ready, Streams, WaitFailed, Why};
use lb_sends::Sends;
use std::alloc::{AllocError, Global};
use std::io;
use std::io::ErrorKind;
use std::net::Net;
use std::sync::Arc;

/// How many clients of streams may be connected at a time.
#[derive(Clone, Copy, Debug, PartialEq, Eq)]
pub struct Limits {
    /// In all: others wait until one of them has left.
    pub clients: usize,
    /// Of one source, which is an IPv4 address or an IPv6 network of 64 bits, if that is bounded: a
    /// further one is closed at once and counted.
    pub of_source: Option<usize>,
}

/// The system's sockets of streams of a loop: its listeners, and at most 4,096 connections by the
/// numbers that the loop gives them, of which no two that are open may be equal modulo 4,096. All
/// that they need but the octets of a piece is taken at the start.
#[derive(Drop)]
pub struct TcpSockets<'a, R: Net> {
    rt: &'a R,
    watch: Watch,
    arrivals: Arrivals,
    intake: Intake,
    told: Told,
}

impl<'a, R: Net> TcpSockets<'a, R> {
    /// Sockets that take in the clients of these listeners within these limits. A client that is
    /// closed for its source is counted here. The errors are the system's, and refused memory.
    pub fn listening(
        rt: &'a R,
        alloc: Global,
        listeners: TcpListeners,
        limits: Limits,
        sends: Arc<Sends>,
    ) -> io::Result<TcpSockets<'a, R>>
        ensures told { IfOk result (λ s. s.told ≡ nothing) }
    {
        let watch = Watch::made(rt, alloc)?;
        listeners.watched_by(&watch)?;
        Ok(TcpSockets {
            rt,
            watch,
            arrivals: Arrivals::made(alloc, listeners, limits, sends)?,
            intake: Intake::made(alloc)?,
            told: Told::made(alloc)?,
        })
    }

    /// What ends a wait of these sockets.
    pub fn waker(&self) -> io::Result<PollWaker> {
        self.watch.waker()
    }

    /// How often a device failed (up to 2^64-1, where the count stays).
    pub fn failures(&self) -> u64
        ensures { result ≡ self.now.told.failures }
    {
        self.told.failures()
    }
}

/// Whether an error says that there is nothing to read now.
fn is_nothing(error: &io::Error) -> bool {
    matches!(error.kind(), ErrorKind::WouldBlock | ErrorKind::Interrupted)
}

/// Whether an error says that the peer takes no more.
fn is_gone(error: &io::Error) -> bool {
    matches!(
        error.kind(),
        ErrorKind::BrokenPipe
            | ErrorKind::ConnectionReset
            | ErrorKind::ConnectionRefused
            | ErrorKind::ConnectionAborted
    )
}

impl<R: Net> Streams for TcpSockets<'_, R> {
    ghost told = { λ s. s.told };

    fn ready(&mut self) -> Ready {
        if self.watch.is_look_due() {
            // What fails here, a wait tells.
            let _ = self.watch.wait(0);
            self.arrivals.note_all(self.watch.events());
        }
        self.arrivals.next()
    }

    fn resume(&mut self, connection: u64) {
        self.arrivals.resume(connection);
    }

    fn accept(&mut self, connection: u64) -> Result<Accepted, AllocError> {
        self.told.asked();
        match self.arrivals.welcome(&self.watch, connection) {
            Ok(Some((front, from))) => {
                self.told.came(connection, front, from);
                Ok(Accepted::Client(front, from))
            }
            Ok(None) => Ok(Accepted::Nothing),
            Err(_) => {
                self.told.failed();
                Ok(Accepted::Failed)
            }
        }
    }

    fn turn_away(&mut self) -> Accepted {
        self.told.asked();
        match self.arrivals.dismiss() {
            Ok(Some((front, from))) => {
                self.told.turned(front, from);
                Accepted::Client(front, from)
            }
            Ok(None) => Accepted::Nothing,
            Err(_) => {
                self.told.failed();
                Accepted::Failed
            }
        }
    }

    fn dial(&mut self, connection: u64, to: Endpoint) -> Result<(), Why> {
        match self.arrivals.begin(self.rt, &self.watch, connection, to) {
            Ok(()) => {
                self.told.dialed(connection, to);
                Ok(())
            }
            Err(_) => {
                self.told.failed();
                Err(Why::Device)
            }
        }
    }

    fn read_from(&mut self, connection: u64) -> Result<Read, AllocError> {
        self.told.asked();
        if let Err(refused) = self.intake.prepare() {
            self.told.lacked(connection);
            return Err(refused);
        }
        match self.arrivals.read(connection, &mut self.intake) {
            Ok(Some(octets)) => {
                self.told.gave(connection, &octets);
                Ok(Read::Piece(octets))
            }
            Ok(None) => {
                self.told.ended(connection);
                Ok(Read::Ended)
            }
            Err(error) if is_nothing(&error) => Ok(Read::Nothing),
            Err(_) => {
                self.told.failed_at(connection);
                Ok(Read::Failed)
            }
        }
    }

    fn write_to(&mut self, connection: u64, octets: &[u8]) -> Result<usize, Why> {
        match self.arrivals.write(connection, octets) {
            Ok(count) => {
                let (taken, _) = octets.split_at(count);
                self.told.took(connection, taken);
                Ok(count)
            }
            Err(error) if is_gone(&error) => {
                self.told.gone(connection);
                Err(Why::Gone)
            }
            Err(_) => {
                self.told.failed_at(connection);
                Err(Why::Device)
            }
        }
    }

    fn close(&mut self, connection: u64) {
        self.arrivals.close(connection);
    }

    fn wait(&mut self, at_most: u64) -> Result<(), WaitFailed> {
        let waited = self.watch.wait(self.arrivals.patience(at_most));
        self.arrivals.note_all(self.watch.events());
        self.arrivals.feed();
        waited
    }
}
