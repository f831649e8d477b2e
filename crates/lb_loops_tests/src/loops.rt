//! Four loops in threads of their own, over sockets in memory and a desk: two of datagrams, that of
//! streams, and the clock.

use crate::callers::{AtDesk, has_ruled, is_raised};
use lb_chain::Action;
use lb_core::{Answer, Event};
use lb_desk::{Desk, DeskFault, Naming, Seat, desks_cross_threads};
use lb_loops::{
    ClockParts, Connections, Datagram, DatagramParts, Ended, Endpoint, Gate, LoopFault, Outbox,
    Parts, Probes, Receiver, Roster, Sender, Service, Socket, StreamParts, Taker, Waker, frame,
    run_loops,
};
use lb_memory::{
    Failing, MemoryDatagrams, MemoryOutside, MemoryPosts, MemoryStreams, Moments, Packets,
    Requests, StreamFailing, Wires,
};
use lb_sends::Sends;
use lb_wire::{Addr, Kind, Octets, Rcode};
use std::alloc::{AllocError, Global};
use std::collections::VecDeque;
use std::sync::atomic::{AtomicBool, AtomicU64, Ordering};
use std::sync::{Arc, Mutex, Wait};
use std::thread::Threads;
use std::time::Clock;

/// Where the client of datagrams of both loops is, and that of streams.
const CLIENT: Endpoint = Endpoint {
    addr: Addr::V4([192, 0, 2, 1]),
    port: 4000,
};

/// Queries for example.com A IN, with RD, and their answers Refused.
const FIRST: &[u8] =
    b"\xaa\xaa\x01\x00\x00\x01\x00\x00\x00\x00\x00\x00\x07example\x03com\x00\x00\x01\x00\x01";

const FIRST_REFUSED: &[u8] =
    b"\xaa\xaa\x81\x85\x00\x01\x00\x00\x00\x00\x00\x00\x07example\x03com\x00\x00\x01\x00\x01";

const BOTH: &[u8] =
    b"\x00\x1d\xbb\xbb\x01\x00\x00\x01\x00\x00\x00\x00\x00\x00\x07example\x03com\x00\x00\x01\x00\x01\x00\x1d\xcc\xcc\x01\x00\x00\x01\x00\x00\x00\x00\x00\x00\x07example\x03com\x00\x00\x01\x00\x01";

const BOTH_REFUSED: &[u8] =
    b"\x00\x1d\xbb\xbb\x81\x85\x00\x01\x00\x00\x00\x00\x00\x00\x07example\x03com\x00\x00\x01\x00\x01\x00\x1d\xcc\xcc\x81\x85\x00\x01\x00\x00\x00\x00\x00\x00\x07example\x03com\x00\x00\x01\x00\x01";

/// What the four queries wait for, and what ends the loops.
#[derive(Drop)]
struct Order {
    /// How many queries by datagrams are at their gates.
    datagrams: AtomicU64,
    /// Both are, each in its loop.
    is_asked: AtomicBool,
    /// The second query by the stream is.
    is_second: AtomicBool,
    /// How many queries by datagrams were answered.
    told: AtomicU64,
    /// Both were.
    is_answered: AtomicBool,
    /// How many queries by the stream were at their gate.
    streams: AtomicU64,
    /// How many queries were answered.
    answers: AtomicU64,
}

/// Passes each query only once another one is as far as it has to be; or nothing.
#[derive(Drop)]
struct InTurn<'a, R: Wait + Clock> {
    rt: &'a R,
    order: &'a Order,
    is_open: bool,
}

impl<R: Wait + Clock> Gate for InTurn<'_, R> {
    fn pass(&self, event: &Event) -> bool {
        if !self.is_open {
            return false;
        }
        match event {
            Event::Query {
                kind: Kind::Datagram,
                ..
            } => {
                if self.order.datagrams.fetch_add(1, Ordering::SeqCst) == 1 {
                    self.order.is_asked.store(true, Ordering::SeqCst);
                }
                is_raised(self.rt, &self.order.is_asked)
                    && is_raised(self.rt, &self.order.is_second)
            }
            Event::Query { .. } if self.order.streams.fetch_add(1, Ordering::SeqCst) == 0 => {
                is_raised(self.rt, &self.order.is_asked)
            }
            Event::Query { .. } => {
                self.order.is_second.store(true, Ordering::SeqCst);
                is_raised(self.rt, &self.order.is_answered)
            }
            _ => true,
        }
    }
}

/// Hands events to the desk, and tells how many queries were answered. The fourth one ends the
/// loops.
#[derive(Drop)]
struct Answering<'a, R: Wait, J: Naming> {
    rt: &'a R,
    desk: &'a Desk<J>,
    seat: Seat<J>,
    order: &'a Order,
    stop: &'a AtomicBool,
}

impl<'a, R: Wait, J: Naming> Answering<'a, R, J> {
    fn told(&self, kind: Option<Kind>) {
        let Some(kind) = kind else {
            return;
        };
        if kind == Kind::Datagram && self.order.told.fetch_add(1, Ordering::SeqCst) == 1 {
            self.order.is_answered.store(true, Ordering::SeqCst);
        }
        if self.order.answers.fetch_add(1, Ordering::SeqCst) == 3 {
            self.stop.store(true, Ordering::SeqCst);
        }
    }

    fn into_seat(self) -> Seat<J> {
        let Answering { seat, .. } = self;
        seat
    }
}

impl<'a, R: Wait, J: Naming> Taker for Answering<'a, R, J> {
    ghost use Rattle.std.specs.Prelude.{List, map};
    ghost use Rattle.lb_loops.specs.Caller.{pairs_of};

    ghost answered = { λ h. h.seat.calls };

    ghost pairs = { λ h. pairs_of h.seat.receipts };

    fn take(&mut self, event: Event) -> Result<Answer, (DeskFault, Event)> {
        let kind = kind_of(&event);
        let answer = self.desk.call(self.rt, &mut self.seat, event)?;
        self.told(kind);
        Ok(answer)
    }
}

/// How a query came.
fn kind_of(event: &Event) -> Option<Kind> {
    match event {
        Event::Query { kind, .. } => Some(*kind),
        _ => None,
    }
}

/// Wakes nobody: sockets in memory do not wait.
#[derive(Clone, Copy, Drop)]
struct NoWaker;

impl Waker for NoWaker {
    fn wake(&self) {}
}

/// What the loops and the test share.
#[derive(Drop)]
struct Shared {
    wires: Arc<Mutex<Wires>>,
    moments: Arc<Mutex<Moments>>,
    packets: TwoPackets,
    order: Order,
    stop: Arc<AtomicBool>,
}

/// The datagrams of the first loop, and those of the second.
#[derive(Drop)]
struct TwoPackets {
    first: Arc<Mutex<Packets>>,
    beside: Arc<Mutex<Packets>>,
}

impl TwoPackets {
    /// A query comes to each.
    fn new<R: Wait>(rt: &R, alloc: Global) -> Result<TwoPackets, AllocError> {
        Ok(TwoPackets {
            first: first_packets(rt, alloc)?,
            beside: first_packets(rt, alloc)?,
        })
    }
}

impl Order {
    /// Nobody is at a gate, and nothing is answered.
    fn new() -> Order {
        Order {
            datagrams: AtomicU64::new(0),
            is_asked: AtomicBool::new(false),
            is_second: AtomicBool::new(false),
            told: AtomicU64::new(0),
            is_answered: AtomicBool::new(false),
            streams: AtomicU64::new(0),
            answers: AtomicU64::new(0),
        }
    }
}

impl Shared {
    /// A query by a datagram to each of two loops, and two by a stream.
    fn new<R: Wait>(rt: &R, alloc: Global) -> Result<Shared, AllocError> {
        Ok(Shared {
            wires: wires(rt, alloc)?,
            moments: Arc::new(alloc, Mutex::new(Moments::new(1, 0, 16, 0)))?,
            packets: TwoPackets::new(rt, alloc)?,
            order: Order::new(),
            stop: Arc::new(alloc, AtomicBool::new(false))?,
        })
    }

    fn outside<'a, R: Wait>(&self, rt: &'a R) -> Result<MemoryOutside<'a, R>, AllocError> {
        Ok(MemoryOutside::new(rt, Arc::try_clone(&self.moments)?))
    }

    /// Whether the four answers went out, each once, by the loop that took its query, and the
    /// stream's in their order.
    fn are_answered<R: Wait>(&self, rt: &R) -> bool {
        is_first_told(rt, &self.packets.first)
            && is_first_told(rt, &self.packets.beside)
            && self.wires.lock(rt).taken(1) == BOTH_REFUSED
    }
}

/// A connection by which two queries come.
fn wires<R: Wait>(rt: &R, alloc: Global) -> Result<Arc<Mutex<Wires>>, AllocError> {
    let wires = Arc::new(alloc, Mutex::new(Wires::new(alloc)))?;
    both_come(rt, alloc, &wires)?;
    Ok(wires)
}

fn both_come<R: Wait>(rt: &R, alloc: Global, wires: &Mutex<Wires>) -> Result<(), AllocError> {
    let piece = Octets::from_vec(Vec::from_slice(alloc, BOTH)?);
    let mut wires = wires.lock(rt);
    wires.come(1, CLIENT)?;
    wires.piece(1, piece)
}

/// Datagrams, of which one comes.
fn first_packets<R: Wait>(rt: &R, alloc: Global) -> Result<Arc<Mutex<Packets>>, AllocError> {
    let packets = Arc::new(alloc, Mutex::new(Packets::new(alloc)))?;
    first_comes(rt, alloc, &packets)?;
    Ok(packets)
}

/// A query comes by a datagram.
fn first_comes<R: Wait>(rt: &R, alloc: Global, packets: &Mutex<Packets>) -> Result<(), AllocError> {
    let bytes = Octets::from_vec(Vec::from_slice(alloc, FIRST)?);
    packets.lock(rt).coming.push_back(Datagram {
        socket: Socket::Listener(0),
        peer: CLIENT,
        bytes,
    })?;
    Ok(())
}

/// Whether its answer went out, once.
fn is_first_told<R: Wait>(rt: &R, packets: &Mutex<Packets>) -> bool {
    let packets = packets.lock(rt);
    let [datagram] = packets.taken.as_slice() else {
        return false;
    };
    datagram.peer.is(CLIENT) && datagram.bytes.as_slice() == FIRST_REFUSED
}

/// Whether the loops do what they have to, from four seats of a desk that answers each query
/// Refused: answer four queries that wait for one another at their gates, and end; or end because
/// their gate holds the first event.
pub(crate) fn are_loops_done<J: Naming + Send + Sync, R: Threads + Wait + Clock + Sync>(
    rt: &R,
    alloc: Global,
    desk: &Desk<J>,
    seats: &mut Vec<Seat<J>>,
    is_open: bool,
) -> Result<bool, AllocError> {
    if !is_ruled(rt, alloc, desk, seats) {
        return Ok(false);
    }
    let shared = Shared::new(rt, alloc)?;
    match run_at_desk(rt, alloc, desk, &shared, seats, is_open)? {
        Ok(()) => Ok(is_open && shared.are_answered(rt)),
        Err(fault) => Ok(!is_open && fault == LoopFault::Held),
    }
}

/// Whether the desk refuses each query from now on.
fn is_ruled<J: Naming, R: Wait>(
    rt: &R,
    alloc: Global,
    desk: &Desk<J>,
    seats: &mut Vec<Seat<J>>,
) -> bool {
    match seats.first_mut() {
        Some(seat) => {
            let refused = Action::Rcode(Rcode::Refused);
            has_ruled(alloc, &mut AtDesk { rt, desk, seat }, 0, refused)
        }
        None => false,
    }
}

/// Runs the loops from seats, which come back if they end well.
fn run_at_desk<J: Naming + Send + Sync, R: Threads + Wait + Clock + Sync>(
    rt: &R,
    alloc: Global,
    desk: &Desk<J>,
    shared: &Shared,
    seats: &mut Vec<Seat<J>>,
    is_open: bool,
) -> Result<Result<(), LoopFault>, AllocError> {
    let Some(takers) = takers_by(rt, desk, shared, seats) else {
        return Ok(Err(LoopFault::NoMemory));
    };
    match run(rt, alloc, parts_of(rt, alloc, shared, takers, is_open)?) {
        Ok(ended) => come_back(seats, ended),
        Err(fault) => Ok(Err(fault)),
    }
}

/// The handlers of the loops: of those of datagrams, of that of streams, and of the clock.
#[derive(Drop)]
struct Takers<T> {
    first: T,
    beside: T,
    streams: T,
    clock: T,
}

/// Handlers by four seats, if there are so many.
fn takers_by<'a, J: Naming, R: Wait>(
    rt: &'a R,
    desk: &'a Desk<J>,
    shared: &'a Shared,
    seats: &mut Vec<Seat<J>>,
) -> Option<Takers<Answering<'a, R, J>>> {
    Some(Takers {
        first: answering_by(rt, desk, shared, seats.pop()?),
        beside: answering_by(rt, desk, shared, seats.pop()?),
        streams: answering_by(rt, desk, shared, seats.pop()?),
        clock: answering_by(rt, desk, shared, seats.pop()?),
    })
}

fn answering_by<'a, J: Naming, R: Wait>(
    rt: &'a R,
    desk: &'a Desk<J>,
    shared: &'a Shared,
    seat: Seat<J>,
) -> Answering<'a, R, J> {
    Answering {
        rt,
        desk,
        seat,
        order: &shared.order,
        stop: &shared.stop,
    }
}

/// Puts the seats back from which the loops called, or reports a fault if handlers are missing.
fn come_back<R: Wait, J: Naming>(
    seats: &mut Vec<Seat<J>>,
    ended: Ended<Answering<'_, R, J>, Answering<'_, R, J>, Answering<'_, R, J>>,
) -> Result<Result<(), LoopFault>, AllocError> {
    let Ended {
        datagrams,
        streams,
        clock,
        ..
    } = ended;
    let is_whole = datagrams.len() == 2;
    seats.push(streams.into_seat())?;
    seats.push(clock.into_seat())?;
    for taker in datagrams {
        seats.push(taker.into_seat())?;
    }
    Ok(if is_whole {
        Ok(())
    } else {
        Err(LoopFault::NoMemory)
    })
}

/// A loop of datagrams of a test.
type Datagramming<'a, R, T> = DatagramParts<MemoryDatagrams<'a, R>, T, MemoryOutside<'a, R>>;

/// The loop of streams.
type Streaming<'a, R, T> = StreamParts<
    MemoryStreams<'a, R>,
    T,
    MemoryOutside<'a, R>,
    MemoryPosts<'a, R>,
>;

/// The loop of the clock.
type Clocking<'a, R, T> = ClockParts<
    MemoryDatagrams<'a, R>,
    T,
    MemoryOutside<'a, R>,
    MemoryPosts<'a, R>,
>;

/// What the loops of a test are made of.
type TestParts<'a, R, T> = Parts<
    Datagramming<'a, R, T>,
    T,
    Streaming<'a, R, T>,
    Clocking<'a, R, T>,
    InTurn<'a, R>,
    NoWaker,
>;

/// What a loop of datagrams, or the clock, is made of that every loop needs: sockets, a roster, and
/// moments.
#[derive(Drop)]
struct Room<'a, R: Wait> {
    sockets: MemoryDatagrams<'a, R>,
    roster: Roster,
    outside: MemoryOutside<'a, R>,
}

fn room_over<'a, R: Wait>(
    rt: &'a R,
    alloc: Global,
    shared: &Shared,
    packets: &Arc<Mutex<Packets>>,
) -> Result<Room<'a, R>, AllocError> {
    Ok(Room {
        sockets: sockets(rt, alloc, packets)?,
        roster: Roster::made(alloc)?,
        outside: shared.outside(rt)?,
    })
}

impl<'a, R: Wait> Room<'a, R> {
    fn with<T>(self, taker: T) -> Datagramming<'a, R, T> {
        DatagramParts {
            sockets: self.sockets,
            roster: self.roster,
            taker,
            outside: self.outside,
        }
    }
}

/// What the loop of streams is made of besides its handler and the jobs.
#[derive(Drop)]
struct StreamRoom<'a, R: Wait> {
    sockets: MemoryStreams<'a, R>,
    table: Connections,
    roster: Roster,
    fronts: Vec<Service>,
    posts: MemoryPosts<'a, R>,
    outside: MemoryOutside<'a, R>,
}

impl<'a, R: Wait> StreamRoom<'a, R> {
    fn made(rt: &'a R, alloc: Global, shared: &Shared) -> Result<StreamRoom<'a, R>, AllocError> {
        let wires = Arc::try_clone(&shared.wires)?;
        Ok(StreamRoom {
            sockets: MemoryStreams::new(rt, alloc, wires, StreamFailing::default()),
            table: Connections::made(alloc)?,
            roster: Roster::made(alloc)?,
            fronts: fronts(alloc)?,
            posts: posts(rt, alloc)?,
            outside: shared.outside(rt)?,
        })
    }

    fn with<T>(self, receiver: Receiver, taker: T) -> Streaming<'a, R, T> {
        StreamParts {
            sockets: self.sockets,
            table: self.table,
            roster: self.roster,
            receiver,
            fronts: self.fronts,
            posts: self.posts,
            taker,
            outside: self.outside,
            idle: None,
        }
    }
}

/// What the loop of the clock is made of besides its handler and its end of the outbox. It has no
/// socket of its own.
#[derive(Drop)]
struct ClockRoom<'a, R: Wait> {
    room: Room<'a, R>,
    probes: Probes,
    fronts: Vec<Service>,
    posts: MemoryPosts<'a, R>,
}

impl<'a, R: Wait> ClockRoom<'a, R> {
    fn made(rt: &'a R, alloc: Global, shared: &Shared) -> Result<ClockRoom<'a, R>, AllocError> {
        let none = Arc::new(alloc, Mutex::new(Packets::new(alloc)))?;
        Ok(ClockRoom {
            room: room_over(rt, alloc, shared, &none)?,
            probes: Probes::made(alloc)?,
            fronts: fronts(alloc)?,
            posts: posts(rt, alloc)?,
        })
    }

    fn with<T>(self, sender: Sender, taker: T) -> Clocking<'a, R, T> {
        let ClockRoom {
            room,
            probes,
            fronts,
            posts,
        } = self;
        ClockParts {
            sockets: room.sockets,
            probes,
            roster: room.roster,
            sender,
            fronts,
            posts,
            taker,
            outside: room.outside,
        }
    }
}

/// What the loops have of their own.
#[derive(Drop)]
struct Rooms<'a, R: Wait> {
    first: Room<'a, R>,
    beside: Room<'a, R>,
    streams: StreamRoom<'a, R>,
    clock: ClockRoom<'a, R>,
}

impl<'a, R: Wait> Rooms<'a, R> {
    fn made(rt: &'a R, alloc: Global, shared: &Shared) -> Result<Rooms<'a, R>, AllocError> {
        Ok(Rooms {
            first: room_over(rt, alloc, shared, &shared.packets.first)?,
            beside: room_over(rt, alloc, shared, &shared.packets.beside)?,
            streams: StreamRoom::made(rt, alloc, shared)?,
            clock: ClockRoom::made(rt, alloc, shared)?,
        })
    }
}

/// What the loops have in common.
#[derive(Drop)]
struct Common {
    roster: Arc<Mutex<Roster>>,
    sends: Arc<Sends>,
    stop: Arc<AtomicBool>,
    wakers: Vec<NoWaker>,
    sender: Sender,
    receiver: Receiver,
}

impl Common {
    fn made(alloc: Global, shared: &Shared) -> Result<Common, AllocError> {
        let (_, sender, receiver) = Outbox::made(alloc, 4)?;
        Ok(Common {
            roster: Arc::new(alloc, Mutex::new(Roster::made(alloc)?))?,
            sends: Arc::new(alloc, Sends::made(alloc, 0)?)?,
            stop: Arc::try_clone(&shared.stop)?,
            wakers: Vec::from_slice(alloc, &[NoWaker, NoWaker])?,
            sender,
            receiver,
        })
    }
}

/// Two loops of datagrams.
fn row_of<'a, R: Wait, T: Drop>(
    alloc: Global,
    first: Datagramming<'a, R, T>,
    beside: Datagramming<'a, R, T>,
) -> Result<Vec<Datagramming<'a, R, T>>, AllocError> {
    let mut row = Vec::with_capacity(alloc, 2)?;
    row.push(first).map_err(AllocError::from)?;
    row.push(beside).map_err(AllocError::from)?;
    Ok(row)
}

/// What the loops are made of, with these handlers.
fn parts_of<'a, R: Wait + Clock, T: Drop>(
    rt: &'a R,
    alloc: Global,
    shared: &'a Shared,
    takers: Takers<T>,
    is_open: bool,
) -> Result<TestParts<'a, R, T>, AllocError> {
    let rooms = Rooms::made(rt, alloc, shared)?;
    let common = Common::made(alloc, shared)?;
    let room = Vec::with_capacity(alloc, 2)?;
    let (first, beside) = (
        rooms.first.with(takers.first),
        rooms.beside.with(takers.beside),
    );
    Ok(Parts {
        takers: room,
        datagrams: row_of(alloc, first, beside)?,
        streams: rooms.streams.with(common.receiver, takers.streams),
        clock: rooms.clock.with(common.sender, takers.clock),
        roster: common.roster,
        gate: InTurn {
            rt,
            order: &shared.order,
            is_open,
        },
        sends: common.sends,
        stop: common.stop,
        datagrams_wakers: common.wakers,
        streams_waker: NoWaker,
        clock_waker: NoWaker,
    })
}

/// Runs loops of these parts. It stands alone, so that the search for what lets them cross to
/// threads ends.
fn run<'a, J: Naming + Send + Sync, R: Threads + Wait + Clock + Sync>(
    rt: &'a R,
    alloc: Global,
    parts: TestParts<'a, R, Answering<'a, R, J>>,
) -> Result<Ended<Answering<'a, R, J>, Answering<'a, R, J>, Answering<'a, R, J>>, LoopFault> {
    // A law, which does nothing.
    desks_cross_threads::<J>();
    run_loops(rt, alloc, parts)
}

fn sockets<'a, R: Wait>(
    rt: &'a R,
    alloc: Global,
    packets: &Arc<Mutex<Packets>>,
) -> Result<MemoryDatagrams<'a, R>, AllocError> {
    Ok(MemoryDatagrams::new(
        rt,
        alloc,
        1,
        VecDeque::new(alloc),
        Arc::try_clone(packets)?,
        Failing::default(),
    ))
}

fn posts<'a, R: Wait>(rt: &'a R, alloc: Global) -> Result<MemoryPosts<'a, R>, AllocError> {
    let requests = Arc::new(alloc, Mutex::new(Requests::new(alloc)))?;
    Ok(MemoryPosts::new(rt, alloc, requests))
}

/// One listener of datagrams and one of streams.
fn fronts(alloc: Global) -> Result<Vec<Service>, AllocError> {
    Vec::from_slice(alloc, &[Service::Datagram, Service::Stream])
}
