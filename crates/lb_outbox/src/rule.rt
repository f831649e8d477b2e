//! The rule of the queue, and how it is split among its two senders and its receiver (the kit's ruled bounded queue). Nothing here is
//! run: the types say what a step of the queue changes.

use crate::job::Job;
use crossbeam_queue::protocol::{Join, Lesson, Outcome, Protocol, Split};
use std::collections::LinkedList;

/// A sender of an outbox: the first is the HTTP front's, the second the clock's.
#[derive(Clone, Copy, Debug, PartialEq, Eq)]
pub enum SenderId {
    One,
    Two,
}

/// A job, with the sender that it came from.
#[derive(Debug, Drop)]
pub struct Delivery {
    pub from: SenderId,
    pub job: Job,
}

/// A sender's part in what a pass knows: whether it may send, and what it has sent.
pub struct Part {
    pub sends: bool,
    pub sent: LinkedList<Job>,
}

/// What a pass knows: what it may do as each sender, whether it may receive, what it has received, and whether two that send as one were
/// ever joined. No value of it is made.
pub struct View {
    pub one: Part,
    pub two: Part,
    pub receives: bool,
    pub received: LinkedList<Delivery>,
    pub is_torn: bool,
}

/// What was received and then what the queue holds, cut to one sender, is what that sender sent.
pub struct InOrder;

impl Protocol<Delivery, View> for InOrder {
    ghost use Rattle.lb_outbox.specs.Rule.{Delivers, whole};

    ghost holds = { Delivers };

    ghost first = { whole };
}

/// Takes the first sender out of a pass.
pub struct CutOne;

impl Split<View> for CutOne {
    ghost use Rattle.lb_outbox.specs.Rule.{alone, idle, part_of, with_part};
    ghost use Rattle.lb_outbox.specs.declared.rule.SenderId.TheVariants.{One};

    ghost left = { λ v. with_part One idle v };

    ghost right = { λ v. alone One (part_of One v) };
}

/// Takes the second sender out of a pass.
pub struct CutTwo;

impl Split<View> for CutTwo {
    ghost use Rattle.lb_outbox.specs.Rule.{alone, idle, part_of, with_part};
    ghost use Rattle.lb_outbox.specs.declared.rule.SenderId.TheVariants.{Two};

    ghost left = { λ v. with_part Two idle v };

    ghost right = { λ v. alone Two (part_of Two v) };
}

/// Takes a sender in again.
pub struct Joined;

impl Join<View> for Joined {
    ghost use Rattle.lb_outbox.specs.Rule.{joined, nobody};

    ghost both = { joined };

    ghost spent = { nobody };
}

/// A send: the sender's list grows by the job.
pub struct Sent;

impl Outcome<Delivery, View> for Sent {
    ghost use Rattle.std.specs.Prelude.{◌≡◌};
    ghost use Rattle.lb_outbox.specs.Rule.{sent_more};

    ghost then = { λ v x w. w ≡ sent_more x.from x.job v };
}

impl Lesson<Delivery, View> for Sent {
    ghost use Rattle.std.specs.Prelude.{⊤};

    ghost fact = { λ v items. ⊤ };
}

/// A receive: the receiver's list grows by the delivery.
pub struct Received;

impl Outcome<Delivery, View> for Received {
    ghost use Rattle.std.specs.Prelude.{◌≡◌};
    ghost use Rattle.lb_outbox.specs.Rule.{received_more};

    ghost then = { λ v x w. w ≡ received_more x v };
}

impl Lesson<Delivery, View> for Received {
    ghost use Rattle.std.specs.Prelude.{⊤};

    ghost fact = { λ v items. ⊤ };
}

/// Whoever has every part knows all.
pub struct Total;

impl Lesson<Delivery, View> for Total {
    ghost use Rattle.lb_outbox.specs.Rule.{IsSettled};

    ghost fact = { λ v items. IsSettled v items };
}
