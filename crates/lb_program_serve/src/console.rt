//! The console: one client after the other, each asked by lines.

use crate::client::{Client, Progress};
use crate::fault::Fault;
use crate::halt::Halt;
use crate::hears::Hears;
use crate::notices::Notices;
use crate::operator::Operator;
use lb_loops::Outside;
use mio::event::Event;
use mio::net::{TcpListener, TcpStream};
use mio::unix::SourceFd;
use mio::{Events, Interest, Poll, Registry, Token, Waker};
use std::alloc::Global;
use std::io;
use std::io::ErrorKind;
use std::net::Net;
use std::os::fd::AsRawFd;
use std::sync::Wait;
use std::time::{Clock, Duration, Instant};

/// What wakes the console.
const WAKE: Token = Token(0);

const LISTENER: Token = Token(1);

const CLIENT: Token = Token(2);

/// The most events that one look gives.
const EVENTS: usize = 8;

/// How long a client that types no line is served if another one waits, in milliseconds.
const PATIENCE: u64 = 5_000;

/// How long a client is served of which no line reads if another one waits, in milliseconds.
const FAULTS: u64 = 60_000;

/// How long to wait before a client is asked for again that could not be taken in, in milliseconds.
const AGAIN: u64 = 100;

/// How long to wait before more of the memory of expunged replies is given back, in milliseconds.
const SWEEP: u64 = 2;

/// What the console waits with, and its listeners.
#[derive(Drop)]
pub(crate) struct ConsoleSockets {
    poll: Poll,
    events: Events,
    /// A descriptor that is kept back.
    spare: Option<Registry>,
    listeners: Vec<TcpListener>,
}

impl ConsoleSockets {
    /// Those that listen with these. The errors are the system's, and lack of memory.
    pub(crate) fn made<N: Net>(
        net: &N,
        alloc: Global,
        listeners: Vec<TcpListener>,
    ) -> io::Result<ConsoleSockets> {
        let poll = Poll::new(net)?;
        for listener in &listeners {
            watch(&poll, listener, LISTENER)?;
        }
        Ok(ConsoleSockets {
            spare: poll.registry().try_clone().ok(),
            poll,
            events: Events::with_capacity(alloc, EVENTS)?,
            listeners,
        })
    }

    /// What ends the console's wait.
    pub(crate) fn waker(&self) -> io::Result<Waker> {
        Waker::new(self.poll.registry(), WAKE)
    }
}

/// The console's thread: its listeners, the client that is served, and what answers its lines.
#[derive(Drop)]
pub(crate) struct Console<'a, R: Wait + Clock, T: Hears, O: Outside> {
    rt: &'a R,
    alloc: Global,
    poll: Poll,
    events: Events,
    /// A descriptor that is kept back, so that a client can be taken in where no other is to be
    /// had.
    spare: Option<Registry>,
    listeners: Vec<TcpListener>,
    client: Option<Client>,
    /// The client that comes after it, if it was taken in already.
    next: Option<TcpStream>,
    /// When the client last ended a line that reads, or came.
    since: Option<Instant>,
    /// When the client last ended a line, or came.
    typed: Option<Instant>,
    /// Whether another client may wait.
    has_others: bool,
    /// Whether memory of expunged replies may have to be given back.
    has_trash: bool,
    operator: Operator<T, O>,
    notices: Notices,
    halt: Halt,
    /// What ended it but a client's word or the loops.
    fault: Option<Fault>,
}

impl<'a, R: Wait + Clock, T: Hears, O: Outside> Console<'a, R, T, O> {
    /// One that listens with these sockets.
    pub(crate) fn new(
        rt: &'a R,
        alloc: Global,
        sockets: ConsoleSockets,
        operator: Operator<T, O>,
        halt: Halt,
    ) -> Console<'a, R, T, O> {
        let ConsoleSockets {
            poll,
            events,
            spare,
            listeners,
        } = sockets;
        Console {
            rt,
            alloc,
            poll,
            events,
            spare,
            listeners,
            client: None,
            next: None,
            since: None,
            typed: None,
            has_others: true,
            has_trash: false,
            operator,
            notices: Notices::new(alloc),
            halt,
            fault: None,
        }
    }

    /// The handler of events, the client that said stop, and what ended the console by itself.
    pub(crate) fn into_parts(self) -> (T, Option<TcpStream>, Option<Fault>) {
        let Console {
            client,
            operator,
            fault,
            ..
        } = self;
        (
            operator.into_taker(),
            client.map(Client::into_stream),
            fault,
        )
    }

    /// Serves clients until one says stop or the loops have ended; the loops end too. It gives
    /// itself back.
    pub(crate) fn run(mut self) -> Console<'a, R, T, O> {
        if let Err(fault) = self.serve() {
            self.fault = Some(fault);
        }
        self.halt.halt();
        self
    }

    /// Serves clients until serving ends.
    fn serve(&mut self) -> Result<(), Fault> {
        let rt = self.rt;
        for _ in rt.forever() {
            if self.halt.is_over() {
                return Ok(());
            }
            self.notices.look(rt, &mut self.operator)?;
            self.serve_on()?;
        }
        unreachable!()
    }

    /// The next thing that can be done: a step with the client, or to take one in, or to wait.
    fn serve_on(&mut self) -> Result<(), Fault> {
        let Some(client) = &mut self.client else {
            return self.take_in();
        };
        match client.step(self.rt, &mut self.operator)? {
            Progress::Went => Ok(()),
            Progress::Answered => {
                if let Some(words) = client.take_edit() {
                    self.notices.say(words.as_str());
                    self.halt.rouse_clock();
                }
                self.has_trash = true;
                self.note_answer()
            }
            Progress::Faulted => self.look_round(),
            Progress::Blocked => self.wait_for_client(),
            Progress::Ended => {
                // Its last line may have been carried out, and memory refused for the answer.
                self.has_trash = true;
                self.dismiss();
                Ok(())
            }
            Progress::Stop => {
                self.halt.halt();
                Ok(())
            }
        }
    }

    /// Takes in a client that waits, or waits for one.
    fn take_in(&mut self) -> Result<(), Fault> {
        if let Some(stream) = self.next.take() {
            return self.welcome(stream);
        }
        match self.admitted() {
            Ok(stream) => self.welcome(stream),
            Err(error) if error.kind() == ErrorKind::WouldBlock => {
                self.has_others = false;
                self.wait(None)
            }
            // The client left while it waited, or no descriptor is to be had: no further edge tells
            // of it.
            Err(_) => self.wait(Some(Duration::from_millis(AGAIN))),
        }
    }

    /// A client that waits. Where one could not be taken in, the descriptor that is kept back is
    /// given up for it.
    fn admitted(&mut self) -> io::Result<TcpStream> {
        let first = accepted(self.listeners.as_slice());
        if !is_refused(&first) {
            return first;
        }
        self.spare = None;
        accepted(self.listeners.as_slice())
    }

    /// Serves a client from now on. If the system or memory is lacking for it, it is closed.
    fn welcome(&mut self, stream: TcpStream) -> Result<(), Fault> {
        let _ = stream.set_nodelay(true);
        if watch(&self.poll, &stream, CLIENT).is_ok() {
            self.client = Client::new(self.alloc, stream).ok();
        }
        if self.client.is_none() {
            self.dismiss();
        }
        self.look_for_next();
        self.note_answer()
    }

    /// Looks whether another client waits, and takes it in to be served next: the arrival of the
    /// one that is served says nothing of others.
    fn look_for_next(&mut self) {
        match accepted(self.listeners.as_slice()) {
            Ok(stream) => {
                self.next = Some(stream);
                self.has_others = true;
            }
            Err(error) => self.has_others = error.kind() != ErrorKind::WouldBlock,
        }
    }

    /// Notes that the client ended a line that reads now, or came.
    fn note_answer(&mut self) -> Result<(), Fault> {
        let now = Instant::now(self.rt)?;
        self.since = Some(now);
        self.typed = Some(now);
        Ok(())
    }

    /// Waits for the client. If another one waits, it is closed once it has typed no line for five
    /// seconds.
    fn wait_for_client(&mut self) -> Result<(), Fault> {
        if !self.has_others {
            return self.wait(None);
        }
        let left = self.left(self.typed, PATIENCE)?;
        if left.is_zero() {
            self.dismiss();
            return Ok(());
        }
        self.wait(Some(left))
    }

    /// Looks whether another client waits, for which this one is closed if no line of it has read
    /// for a minute: one whose lines do not read may always have a next one to be answered.
    fn look_round(&mut self) -> Result<(), Fault> {
        self.typed = Some(Instant::now(self.rt)?);
        self.wait(Some(Duration::from_millis(0)))?;
        if self.has_others && self.left(self.since, FAULTS)?.is_zero() {
            self.dismiss();
        }
        Ok(())
    }

    /// How much is left of so many milliseconds from this moment on.
    fn left(&self, since: Option<Instant>, patience: u64) -> Result<Duration, Fault> {
        let patience = Duration::from_millis(patience);
        match since {
            Some(since) => Ok(patience.saturating_sub(since.elapsed(self.rt)?)),
            None => Ok(Duration::from_millis(0)),
        }
    }

    /// Closes the connection of the client, and keeps a descriptor back again.
    fn dismiss(&mut self) {
        self.client = None;
        self.spare = self.poll.registry().try_clone().ok();
    }

    /// Gives back some of the memory of expunged replies, if there may be some.
    fn sweep(&mut self) {
        if self.has_trash {
            self.has_trash = self.operator.taker().sweep();
        }
    }

    /// How long it is until something is to be done that no socket tells of.
    fn until_next(&self) -> Result<Duration, Fault> {
        let look = self.notices.left(self.rt)?;
        if self.has_trash {
            return Ok(look.min(Duration::from_millis(SWEEP)));
        }
        Ok(look)
    }

    /// Waits until something comes, or for so long, or until something is to be done.
    fn wait(&mut self, at_most: Option<Duration>) -> Result<(), Fault> {
        self.sweep();
        let next = self.until_next()?;
        let at_most = match at_most {
            Some(at_most) => at_most.min(next),
            None => next,
        };
        match self.poll.poll(&mut self.events, Some(at_most)) {
            Err(error) if error.kind() != ErrorKind::Interrupted => return Err(Fault::System(
                error,
            )),
            _ => {}
        }
        self.has_others |= self.events.iter().any(is_listeners);
        Ok(())
    }
}

/// A client that waits at one of these. With none, the error is the first but `WouldBlock`, or
/// that.
fn accepted(listeners: &[TcpListener]) -> io::Result<TcpStream> {
    let mut none = io::Error::from(ErrorKind::WouldBlock);
    for listener in listeners {
        match listener.accept() {
            Ok((stream, _)) => return Ok(stream),
            Err(error) if error.kind() == ErrorKind::WouldBlock => {}
            Err(error) => none = error,
        }
    }
    Err(none)
}

/// Whether a client may wait that could not be taken in.
fn is_refused(accepted: &io::Result<TcpStream>) -> bool {
    match accepted {
        Ok(_) => false,
        Err(error) => error.kind() != ErrorKind::WouldBlock,
    }
}

/// Whether a client came.
fn is_listeners(event: &Event) -> bool {
    event.token() == LISTENER
}

/// Has a socket told.
fn watch<S: AsRawFd>(poll: &Poll, socket: &S, token: Token) -> io::Result<()> {
    let descriptor = socket.as_raw_fd();
    poll.registry().register(
        &mut SourceFd(&descriptor),
        token,
        Interest::READABLE | Interest::WRITABLE,
    )
}
