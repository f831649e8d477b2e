//! The desk of a scene. There is one function that has a desk, and one that picks its name (its folder in proofs/ says so).

ghost use Rattle.std.specs.Prelude.{◌≡◌};
ghost use Rattle.lb_step.specs.Snapshot.{snapshot_of};

use crate::fault::Fault;
use crate::handler::Handler;
use crate::loops::with_datagrams;
use crate::stage::Stage;
use lb_core::Balancer;
use lb_desk::{Desk, Naming, Seat};
use lb_loops::Caller;
use std::alloc::{AllocError, Global};
use std::marker::Brand;
use std::sync::Wait;
use std::sync::ledger::Blank;

/// How many seats the desk has: of the three loops, and of the console.
const SEATS: u8 = 4;

/// How many calls the desk's log has at most.
const LIMIT: u64 = 1_000;

/// Plays the lines of a scene at a new desk, and closes it.
pub(crate) fn play_at_desk<R: Wait>(
    stage: &mut Stage<'_, R>,
    lines: &[String],
) -> Result<(), Fault> {
    let balancer = Balancer::new(stage.alloc)?;
    let count = play_at::<Brand, R>(stage.alloc, Blank::new(4), balancer, stage, lines)?;
    stage.told.number("closed ", count);
    stage.told.put("\n");
    stage.told.room()
}

/// Plays the lines. How many calls the desk had.
fn play_at<J: Naming, R: Wait>(
    alloc: Global,
    blank: Blank,
    balancer: Balancer,
    stage: &mut Stage<'_, R>,
    lines: &[String],
) -> Result<u64, Fault>
    requires name { blank.name ≡ J.name }
    requires parts { (blank.parts ≡ J.parts) × (J.parts ≡ J.seats) }
    requires seats { J.seats ≡ 4 }
    requires limit { J.limit ≡ 1000 }
    requires opening { J.opening ≡ snapshot_of balancer }
{
    let (desk, mut seats) = Desk::<J>::made(alloc, blank, balancer, LIMIT, SEATS)?;
    let played = play_from(&desk, &mut seats, stage, lines);
    let count = close(desk, seats);
    played?;
    count
}

/// Closes a desk. How many calls it had.
fn close<J: Naming>(desk: Desk<J>, seats: Vec<Seat<J>>) -> Result<u64, Fault> {
    match desk.close(seats) {
        Ok(audit) => Ok(audit.count),
        Err(_) => Err(Fault::Audit),
    }
}

/// Plays the lines with a handler for each seat, and puts the seats back.
fn play_from<'d, 'a: 'd, J: Naming, R: Wait>(
    desk: &'d Desk<J>,
    seats: &mut Vec<Seat<J>>,
    stage: &mut Stage<'a, R>,
    lines: &[String],
) -> Result<(), Fault> {
    let mut handlers = handlers_at(desk, seats, stage)?;
    let played = with_datagrams(&mut handlers, stage, lines);
    for _ in 0..SEATS {
        if let Some(handler) = handlers.pop() {
            seats.push(handler.into_taker().into_seat())?;
        }
    }
    played
}

/// The handlers that call a desk from its seats.
type Handlers<'d, R, J> = Vec<Handler<'d, R, Caller<'d, R, J>>>;

fn handlers_at<'d, 'a: 'd, J: Naming, R: Wait>(
    desk: &'d Desk<J>,
    seats: &mut Vec<Seat<J>>,
    stage: &Stage<'a, R>,
) -> Result<Handlers<'d, R, J>, AllocError> {
    let mut handlers = Vec::with_capacity(stage.alloc, usize::from(SEATS))?;
    for _ in 0..SEATS {
        if let Some(seat) = seats.pop() {
            let caller = Caller::new(stage.rt, desk, seat);
            handlers.push(Handler::new(caller, stage.heard()?))?;
        }
    }
    Ok(handlers)
}
