//! The handlers of events of the threads, each by a seat of its own at a desk.

use crate::parts::Context;
use lb_desk::{Desk, Naming, Seat};
use lb_loops::Caller;
use lb_recent::{Ring, Rings};
use lb_sends::Sends;
use std::alloc::AllocError;
use std::sync::{Arc, Wait};

/// How many threads end queries besides those of the loops of datagrams: those of the two other
/// loops, and that of the front.
pub(crate) const OTHER_RINGS: usize = 3;

/// The seats that threads call from besides those of the loops of datagrams.
#[derive(Drop)]
pub(crate) struct OtherSeats<J: Naming> {
    pub(crate) streams: Seat<J>,
    pub(crate) clock: Seat<J>,
    pub(crate) console: Seat<J>,
    pub(crate) front: Seat<J>,
}

impl<J: Naming> OtherSeats<J> {
    /// The last four of these seats, out of their list. None if there are fewer.
    pub(crate) fn taken(seats: &mut Vec<Seat<J>>) -> Option<OtherSeats<J>> {
        Some(OtherSeats {
            streams: seats.pop()?,
            clock: seats.pop()?,
            console: seats.pop()?,
            front: seats.pop()?,
        })
    }
}

/// The handlers of events: of the loops, of the console, and of the front of DNS on HTTP.
#[derive(Drop)]
pub(crate) struct Handlers<T> {
    pub(crate) datagrams: Vec<T>,
    pub(crate) streams: T,
    pub(crate) clock: T,
    pub(crate) console: T,
    pub(crate) front: T,
}

/// Where queries are noted that end, and how long servers took to reply.
type Notes<'b> = (&'b Rings, &'b Arc<Sends>);

/// What a handler notes: the queries that end by its calls in a ring, if any are noted, and how
/// long servers took to reply, by its place.
#[derive(Drop)]
struct Noting {
    ring: Option<Arc<Ring>>,
    sends: Arc<Sends>,
    place: usize,
}

impl Noting {
    /// What the handler at a place notes. The one error is lack of memory.
    fn at(notes: Notes<'_>, place: usize) -> Result<Noting, AllocError> {
        let (rings, sends) = notes;
        let ring = if rings.room() == 0 {
            None
        } else {
            rings.ring(place)?
        };
        Ok(Noting {
            ring,
            sends: Arc::try_clone(sends)?,
            place,
        })
    }

    /// The handler that calls a desk from a seat, and notes this.
    fn handler<'a, J: Naming, R: Wait>(
        self,
        rt: &'a R,
        desk: &'a Desk<J>,
        seat: Seat<J>,
    ) -> Caller<'a, R, J> {
        let Noting { ring, sends, place } = self;
        Caller::noting(rt, desk, seat, ring).timing(sends, place)
    }
}

/// What the handlers of the loop of streams, of the clock and of the front note, after those of so
/// many loops of datagrams.
fn notings(notes: Notes<'_>, loops: usize) -> Result<(Noting, Noting, Noting), AllocError> {
    Ok((
        Noting::at(notes, loops)?,
        Noting::at(notes, loops.saturating_add(1))?,
        Noting::at(notes, loops.saturating_add(2))?,
    ))
}

/// The handlers of events of the loops, of the console and of the front, each by a seat of its own.
/// The console's ends no query. The seats of the loops of datagrams are taken out of their list.
/// The one error is lack of memory.
pub(crate) fn callers<'a, J: Naming, R: Wait>(
    cx: Context<'a, R>,
    desk: &'a Desk<J>,
    seats: &mut Vec<Seat<J>>,
    others: OtherSeats<J>,
    notes: Notes<'_>,
) -> Result<Handlers<Caller<'a, R, J>>, AllocError> {
    let (of_streams, of_clock, of_front) = notings(notes, seats.len())?;
    let datagrams = callers_of_datagrams(cx, desk, seats, notes)?;
    let (rt, _) = cx;
    Ok(Handlers {
        datagrams,
        streams: of_streams.handler(rt, desk, others.streams),
        clock: of_clock.handler(rt, desk, others.clock),
        console: Caller::new(rt, desk, others.console),
        front: of_front.handler(rt, desk, others.front),
    })
}

/// The handlers of events of the loops of datagrams, one by each of these seats, which are taken
/// out of their list.
fn callers_of_datagrams<'a, J: Naming, R: Wait>(
    cx: Context<'a, R>,
    desk: &'a Desk<J>,
    seats: &mut Vec<Seat<J>>,
    notes: Notes<'_>,
) -> Result<Vec<Caller<'a, R, J>>, AllocError> {
    let (rt, alloc) = cx;
    let mut takers = Vec::with_capacity(alloc, seats.len())?;
    for place in 0..seats.len() {
        let noting = Noting::at(notes, place)?;
        if let Some(seat) = seats.pop() {
            takers
                .push(noting.handler(rt, desk, seat))
                .map_err(AllocError::from)?;
        }
    }
    Ok(takers)
}
