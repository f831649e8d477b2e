//! What a turn of a loop did, line by line.

ghost use Rattle.std.specs.Prelude.{◌≡◌};

use crate::reported::Reported;
use lb_core::{Answer, Event};
use lb_desk::DeskFault;
use lb_outbox::Job;
use lb_wire::{Octets, ServerId};
use std::alloc::AllocError;

/// What an event came from.
#[derive(Clone, Copy, Debug, PartialEq, Eq)]
pub enum Source {
    /// The sockets of datagrams.
    Datagrams,
    /// The connection with this number.
    Connection(u64),
    /// The passing of time.
    Clock,
    /// The probe of this server that was sent with this word.
    Probe(ServerId, u16),
}

/// Which way a message went.
#[derive(Clone, Copy, Debug, PartialEq, Eq)]
pub enum Way {
    /// A socket of datagrams took it.
    Datagram,
    /// It stands after what the connection with this number is to write.
    Connection(u64),
    /// The outbox took it.
    Outbox,
    /// A waiting HTTP request took it.
    Post,
}

/// Why a send failed: the first of these that applies.
#[derive(Clone, Copy, Debug, PartialEq, Eq)]
pub enum Why {
    /// The server is not in the roster.
    NoServer,
    /// The loop has no way there: the connection or the request had ended, or there is no such listener.
    Gone,
    /// More octets would wait to be written than a connection may have.
    Limit,
    /// The outbox was full.
    Full,
    /// A device failed.
    Device,
    /// Memory was lacking.
    NoMemory,
}

impl From<AllocError> for Why {
    ghost use Rattle.std.specs.Prelude.{◌≡◌};
    ghost use Rattle.lb_loops_io.specs.declared.report.Why.TheVariants as whys;

    ghost from_gives = { λ _ e. e ≡ whys.NoMemory };

    fn from(_refused: AllocError) -> Why {
        Why::NoMemory
    }
}

/// What came of a send.
#[derive(Clone, Copy, Debug, PartialEq, Eq)]
pub enum Sending {
    /// There was nothing to send.
    Nothing,
    /// The message went this way.
    Done(Way),
    Failed(Why),
}

/// What came of an event.
#[derive(Debug, Drop)]
pub enum Outcome {
    Answered(Answer),
    /// The desk took no event; with ServFail for a query that reads, in its own octets.
    Fault(DeskFault, Option<Octets>),
}

/// One line of a report.
#[derive(Debug, Drop)]
pub enum Line {
    /// An event with its source, what came of it, and what came of its send.
    Event(Source, Reported, Outcome, Sending),
    /// A job of another loop, and what came of its send.
    Job(Job, Sending),
    /// A probe of a server with this word, which is its own send.
    Probe(ServerId, u16, Sending),
}

/// Which device failed.
#[derive(Clone, Copy, Debug, PartialEq, Eq)]
pub enum DeviceFault {
    Sockets,
    /// The clock or the source of random words.
    Outside,
}

/// What a turn did.
#[derive(Debug, Drop)]
pub struct Report {
    pub lines: Vec<Line>,
    /// The first device fault of the turn.
    pub device: Option<DeviceFault>,
    /// Whether a gate held an event.
    pub is_held: bool,
    /// The event that a gate held, where it was made of a datagram, which is read but once.
    pub held: Option<Event>,
}
