//! Which desk a book, a seat or a desk is of.

ghost use Rattle.std.specs.Prelude.{ℕ, ◌<◌, ◌≡◌};
ghost use Rattle.lb_step.specs.Plain.{empty};
ghost use Rattle.lb_step.specs.Snapshot.{Snapshot, snapshot_of};

use std::marker::{Brand, PhantomData};
use std::sync::ledger::Ledger;

/// The name of a desk: a type that each program picks for it, so that no seat of one desk can be lent to another. The ledger that
/// counts its calls has this name too.
pub trait Naming: Ledger {
    /// How many seats the desk has.
    ghost seats: { ℕ };

    /// How many calls its log has at most.
    ghost limit: { ℕ };

    /// The snapshot of its balancer when it was made.
    ghost opening: { Snapshot };
}

impl Naming for Brand {
    ghost seats = { 0 };

    ghost limit = { 0 };

    ghost opening = { snapshot_of empty };
}

/// That the ledger of a desk has a part for each of its seats, of which there is one at least. It takes no octet: a field of its own,
/// as the toolchain refuses what is said of a ledger beside a field that holds one.
#[derive(Drop)]
pub(crate) struct Parted<J: Naming> {
    of: PhantomData<J>,
    ghost parted: { (J.parts ≡ J.seats) × (0 < J.seats) },
}

impl<J: Naming> Parted<J> {
    /// For a desk of which it is known.
    pub(crate) fn new() -> Parted<J>
        requires { (J.parts ≡ J.seats) × (0 < J.seats) }
    {
        Parted { of: PhantomData }
    }

    /// A law, which says it. It does nothing.
    pub(crate) fn law_of_parts(&self)
        ensures parts { J.parts ≡ J.seats }
        ensures some { 0 < J.seats }
    {
        // Read, so that what it keeps true is at hand.
        let _ = &self.of;
    }
}
