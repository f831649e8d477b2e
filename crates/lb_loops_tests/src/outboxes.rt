//! Outboxes: full, empty, ended, and between threads.

ghost use Rattle.std.specs.Prelude.{IfOk, IfSome, ◌∷◌, [], ◌≡◌};
ghost use Rattle.lb_outbox.specs.declared.rule.SenderId.TheVariants.{One, Two};

use lb_loops::{Job, Outbox, Receiver, Sender, Settled, finish};
use lb_wire::{Addr, Octets, Origin};
use std::alloc::{AllocError, Global};
use std::process::Abort;
use std::sync::Wait;
use std::test::Fail;
use std::thread::{Threads, join, sleep};
use std::time::{Clock, Duration};

/// An empty message to the client of this number, by the listener of this place. It takes no
/// memory.
fn job(alloc: Global, front: u8, slot: u64) -> Job {
    let origin = Origin {
        front,
        slot,
        source: Addr::V4([192, 0, 2, 1]),
        port: 5353,
    };
    Job::ToClient(origin, Octets::from_vec(Vec::new(alloc)))
}

/// The place and the number of a job.
fn marks_of(job: &Job) -> Option<(u8, u64)> {
    match job {
        Job::ToClient(origin, _) => Some((origin.front, origin.slot)),
        Job::ToServer(..) => None,
    }
}

/// An outbox with room for two jobs. If memory was lacking, it is asked for once more.
fn made(alloc: Global) -> Result<(Sender, Sender, Receiver), AllocError>
    ensures one { IfOk result (λ r. (r.0.id ≡ One) × (r.0.sent ≡ [])) }
    ensures two { IfOk result (λ r. (r.1.id ≡ Two) × (r.1.sent ≡ [])) }
    ensures same { IfOk result (λ r. (r.0.outbox ≡ r.2.outbox) × (r.1.outbox ≡ r.2.outbox)) }
{
    match Outbox::made(alloc, 2) {
        Ok(made) => Ok(made),
        Err(_refused) => Outbox::made(alloc, 2),
    }
}

/// The third job comes back, and the receiver gets the two and no more.
#[test]
fn a_full_outbox(rt: HostRuntime) -> Result<(), Fail> {
    let (mut one, mut two, mut receiver) = made(rt.alloc())?;
    expect_full(&rt, &mut one, &mut two)?;
    expect_room(&rt, &mut two, &mut receiver)
}

fn expect_full<R: Abort + AllocGlobal + Wait>(
    rt: &R,
    one: &mut Sender,
    two: &mut Sender,
) -> Result<(), Fail> {
    assert!(rt; takes(rt, one, job(rt.alloc(), 1, 1)));
    assert!(rt; takes(rt, one, job(rt.alloc(), 1, 2)));
    assert_eq!(rt; back(rt, one, job(rt.alloc(), 1, 3)), Some((1, 3)));
    assert_eq!(rt; back(rt, two, job(rt.alloc(), 2, 1)), Some((2, 1)));
    Ok(())
}

fn expect_room<R: Abort + AllocGlobal + Wait>(
    rt: &R,
    two: &mut Sender,
    receiver: &mut Receiver,
) -> Result<(), Fail> {
    assert_eq!(rt; received(rt, receiver), Some((1, 1)));
    assert_eq!(rt; received(rt, receiver), Some((1, 2)));
    assert!(rt; receiver.receive(rt).is_none());
    assert!(rt; takes(rt, two, job(rt.alloc(), 2, 1)));
    Ok(())
}

/// Whether a job is sent.
fn takes<R: Wait>(rt: &R, sender: &mut Sender, job: Job) -> bool {
    sender.send(rt, job).is_ok()
}

/// The marks of a job that comes back.
fn back<R: Wait>(rt: &R, sender: &mut Sender, job: Job) -> Option<(u8, u64)> {
    let back = sender.send(rt, job).err();
    back.as_ref().and_then(marks_of)
}

/// The marks of a job that is received.
fn received<R: Wait>(rt: &R, receiver: &mut Receiver) -> Option<(u8, u64)> {
    let job = receiver.receive(rt);
    job.as_ref().and_then(marks_of)
}

/// Two jobs of the first sender, none of the second. It is proved here that an ended outbox shows
/// just these.
fn ended<R: Wait>(
    rt: &R,
    one: Sender,
    two: Sender,
    receiver: Receiver,
    a: Job,
    b: Job,
) -> Option<Settled>
    requires fresh { (one.sent ≡ []) × (two.sent ≡ []) }
    requires ids { (one.id ≡ One) × (two.id ≡ Two) }
    requires same { (one.outbox ≡ receiver.outbox) × (two.outbox ≡ receiver.outbox) }
    ensures { IfSome result (λ s. (s.one ≡ a ∷ b ∷ []) × (s.two ≡ [])) }
{
    let mut one = one;
    match one.send(rt, a) {
        Ok(()) => {}
        Err(_) => return None,
    }
    match one.send(rt, b) {
        Ok(()) => {}
        Err(_) => return None,
    }
    Some(finish(one, two, receiver))
}

#[test]
fn an_ended_outbox(rt: HostRuntime) -> Result<(), Fail> {
    let (one, two, receiver) = made(rt.alloc())?;
    let (a, b) = (job(rt.alloc(), 1, 1), job(rt.alloc(), 1, 2));
    assert!(rt; ended(&rt, one, two, receiver, a, b).is_some());
    Ok(())
}

/// How many jobs each sender sends.
const JOBS: u64 = 100_000;

/// How often in a row a thread finds the queue full, or empty, before it gives up.
const WAITS: u32 = 10_000;

/// Sends the jobs in order, each as soon as there is room. Whether all were sent.
fn are_sent<R: Wait + Clock>(rt: &R, alloc: Global, mut sender: Sender, front: u8) -> bool {
    for slot in 1..=JOBS {
        if !is_sent(rt, &mut sender, job(alloc, front, slot)) {
            return false;
        }
    }
    true
}

fn is_sent<R: Wait + Clock>(rt: &R, sender: &mut Sender, job: Job) -> bool {
    let mut job = job;
    for _ in 0..WAITS {
        match sender.send(rt, job) {
            Ok(()) => return true,
            Err(back) => job = back,
        }
        sleep(rt, Duration::from_micros(100));
    }
    false
}

/// Receives the jobs of both senders. Whether each sender's came in order, and none was lost.
fn are_received<R: Wait + Clock>(rt: &R, mut receiver: Receiver) -> bool {
    let (mut ones, mut twos) = (0u64, 0u64);
    for _ in 0..2 * JOBS {
        match next(rt, &mut receiver) {
            Some((1, slot)) if slot == ones.wrapping_add(1) => ones = slot,
            Some((2, slot)) if slot == twos.wrapping_add(1) => twos = slot,
            _ => return false,
        }
    }
    ones == JOBS && twos == JOBS
}

fn next<R: Wait + Clock>(rt: &R, receiver: &mut Receiver) -> Option<(u8, u64)> {
    for _ in 0..WAITS {
        if let Some(job) = receiver.receive(rt) {
            return marks_of(&job);
        }
        sleep(rt, Duration::from_micros(100));
    }
    None
}

/// Two threads send, and a third receives.
#[test]
fn three_threads_share_an_outbox(rt: HostRuntime) -> Result<(), Fail> {
    let (one, two, receiver) = Outbox::made(rt.alloc(), 64)?;
    assert!(rt; are_carried(&rt, rt.alloc(), one, two, receiver));
    Ok(())
}

fn are_carried<R: Threads + Wait + Clock + Sync>(
    rt: &R,
    alloc: Global,
    one: Sender,
    two: Sender,
    receiver: Receiver,
) -> bool {
    let (are_all_sent, are_all_received) = join(
        rt,
        move || are_both_sent(rt, alloc, one, two),
        move || are_received(rt, receiver),
    );
    are_all_sent && are_all_received
}

fn are_both_sent<R: Threads + Wait + Clock + Sync>(
    rt: &R,
    alloc: Global,
    one: Sender,
    two: Sender,
) -> bool {
    let (ones, twos) = join(
        rt,
        move || are_sent(rt, alloc, one, 1),
        move || are_sent(rt, alloc, two, 2),
    );
    ones && twos
}
