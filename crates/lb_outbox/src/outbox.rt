//! An outbox, and its two senders and its receiver.

ghost use Rattle.std.specs.Prelude.{[], IfErr, IfNone, IfOk, IfSome, List, OnErr, OnOk, true, ◌++◌, ◌∷◌, ◌≡◌, ◌≢◌, ◌≤◌};
ghost use Rattle.std.specs.Arc.{arc_value};
ghost use Rattle.crossbeam_queue.specs.Passes.{IsPassOf};
ghost use Rattle.lb_outbox.specs.Outbox.{known, sent_by};
ghost use Rattle.lb_outbox.specs.Rule.{alone, jobs_of, delivery, part_of, receiving};
ghost use Rattle.lb_outbox.specs.declared.rule.Delivery.{Delivery};
ghost use Rattle.lb_outbox.specs.declared.rule.SenderId.{SenderId};
ghost use Rattle.lb_outbox.specs.declared.rule.SenderId.TheVariants.{One, Two};

use crate::job::Job;
use crate::rule::{
    CutOne, CutTwo, Delivery, InOrder, Joined, Received, SenderId, Sent, Total, View,
};
use crossbeam_queue::{Pass, RuledArrayQueue};
use std::alloc::{AllocError, Global};
use std::marker::Model;
use std::sync::{Arc, Wait};

type Queue = RuledArrayQueue<Delivery, View, InOrder>;

/// A bounded queue of jobs, from two loops to a third.
pub struct Outbox;

/// One of the two senders of an outbox. A contract sees what it has sent.
#[derive(Drop)]
pub struct Sender {
    queue: Arc<Queue>,
    pass: Pass<Delivery, View>,
    id: SenderId,
    ghost passing: { IsPassOf (arc_value queue) pass },
    ghost acting: { known pass ≡ alone id (part_of id (known pass)) },
    ghost may: { (part_of id (known pass)).sends ≡ true },
}

impl Model for Sender {
    ghost use Rattle.lb_outbox.specs.Outbox.{Sending, known};
    ghost use Rattle.lb_outbox.specs.Rule.{part_of};

    ghost Value = { Sending };

    ghost view = { λ s. record { outbox = s.pass.table_id; id = s.id; sent = (part_of s.id (known s.pass)).sent } };
}

/// The receiver of an outbox. A contract sees what it has received.
#[derive(Drop)]
pub struct Receiver {
    queue: Arc<Queue>,
    pass: Pass<Delivery, View>,
    ghost passing: { IsPassOf (arc_value queue) pass },
    ghost acting: { known pass ≡ receiving (known pass).received },
}

impl Model for Receiver {
    ghost use Rattle.lb_outbox.specs.Outbox.{Receiving, known};

    ghost Value = { Receiving };

    ghost view = { λ r. record { outbox = r.pass.table_id; received = (known r.pass).received } };
}

/// What is left of an outbox whose senders and receiver have ended. A contract sees what each sender has sent, and what was received.
#[derive(Drop)]
pub struct Settled {
    pass: Pass<Delivery, View>,
}

impl Model for Settled {
    ghost use Rattle.lb_outbox.specs.Outbox.{Settling, known};

    ghost Value = { Settling };

    ghost view = { λ s. record { one = (known s.pass).one.sent; two = (known s.pass).two.sent; received = (known s.pass).received } };
}

impl Outbox {
    /// The two senders and the receiver of a queue of so many jobs. The one error is lack of memory.
    pub fn made(alloc: Global, capacity: usize) -> Result<(Sender, Sender, Receiver), AllocError>
        requires capacity { (1 ≤ capacity) × (capacity ≤ 4096) }
        ensures one { IfOk result (λ r. (r.0.id ≡ One) × (r.0.sent ≡ [])) }
        ensures two { IfOk result (λ r. (r.1.id ≡ Two) × (r.1.sent ≡ [])) }
        ensures receiver { IfOk result (λ r. r.2.received ≡ []) }
        ensures same { IfOk result (λ r. (r.0.outbox ≡ r.2.outbox) × (r.1.outbox ≡ r.2.outbox)) }
    {
        let (queue, mut rest) = Queue::ruled(alloc, capacity)?;
        let one = queue.another::<CutOne>(&mut rest);
        let two = queue.another::<CutTwo>(&mut rest);
        let queue = Arc::new(alloc, queue)?;
        let ones = Arc::try_clone(&queue)?;
        let twos = Arc::try_clone(&queue)?;
        Ok((
            Sender {
                queue: ones,
                pass: one,
                id: SenderId::One,
            },
            Sender {
                queue: twos,
                pass: two,
                id: SenderId::Two,
            },
            Receiver { queue, pass: rest },
        ))
    }
}

impl Sender {
    /// Puts a job after the others. Where the queue is full it comes back, and nothing has changed.
    pub fn send<R: Wait>(&mut self, rt: &R, job: Job) -> Result<(), Job>
        ensures sent { OnOk result (self.new ≡ record self.old { sent = self.old.sent ++ job ∷ [] }) }
        ensures full { IfErr result (λ back. back ≡ job) }
        ensures same { OnErr result (self.new ≡ self.old) }
    {
        let delivery = Delivery { from: self.id, job };
        match self.queue.push_as::<Sent, R>(rt, &mut self.pass, delivery) {
            Ok(()) => Ok(()),
            Err(Delivery { from: _, job }) => Err(job),
        }
    }
}

impl Sender {
    /// Whether there is room for so many jobs, or, in a smaller queue, no job waits. Others may
    /// send and receive meanwhile.
    pub fn has_room<R: Wait>(&mut self, rt: &R, jobs: usize) -> bool
        ensures same { self.new ≡ self.old }
    {
        let waiting = self.queue.len_as::<Sent, R>(rt, &mut self.pass);
        let capacity = self.queue.capacity();
        capacity - waiting >= capacity.min(jobs)
    }
}

impl Receiver {
    /// Takes the job that stands first. None where there is none, and nothing has changed.
    pub fn receive<R: Wait>(&mut self, rt: &R) -> Option<Job>
        ensures received { IfSome result (λ job. (from : SenderId) × (self.new ≡ record self.old { received = self.old.received ++ delivery from job ∷ [] })) }
        ensures same { IfNone result (self.new ≡ self.old) }
    {
        match self.queue.pop_as::<Received, R>(rt, &mut self.pass) {
            Some(Delivery { from: _, job }) => Some(job),
            None => None,
        }
    }
}

/// Ends an outbox. What was received, followed by what still lies in the queue, is of each sender what that sender has sent, in its order:
/// each job was received once, or is still queued. What is queued goes with the queue.
pub fn finish(one: Sender, two: Sender, receiver: Receiver) -> Settled
    requires same { (one.outbox ≡ receiver.outbox) × (two.outbox ≡ receiver.outbox) }
    ensures apart { one.id ≢ two.id }
    ensures sent { (sent_by one.id result ≡ one.sent) × (sent_by two.id result ≡ two.sent) }
    ensures received { result.received ≡ receiver.received }
    ensures settled { (queued : List Delivery) × ((s : SenderId) → jobs_of s (result.received ++ queued) ≡ sent_by s result) }
{
    let Receiver { queue, mut pass } = receiver;
    let Sender { pass: ones, .. } = one;
    let Sender { pass: twos, .. } = two;
    queue.absorb::<Joined>(&mut pass, ones);
    queue.absorb::<Joined>(&mut pass, twos);
    queue.learn_as::<Total>(&mut pass);
    Settled { pass }
}
