//! Seats: the right of one caller to call a desk, with the receipts of its calls.

ghost use Rattle.std.specs.Prelude.{length, vec_len, ◌<◌, ◌≡◌, ◌≤◌, []};

use crate::book::Receipts;
use crate::entry::{Receipt, SeatId};
use crate::naming::Naming;
use std::alloc::Global;
use std::marker::Model;
use std::sync::ledger::Share;

/// A caller's account at the book: all that a call changes there for its caller. It is the number
/// of the caller's seat, its share in the count of calls, and its receipts.
#[derive(Drop)]
pub struct Account<J: Naming> {
    pub(crate) number: SeatId,
    pub(crate) share: Share<J>,
    pub(crate) receipts: Receipts,
}

/// The right of one caller to call a desk. A contract sees its number at the desk, how many of its
/// calls were answered, and its receipts: those of its calls that the log has, in order.
#[derive(Drop)]
pub struct Seat<J: Naming> {
    pub(crate) account: Account<J>,
    pub(crate) calls: u64,
    ghost part: { account.share.parts ≡ 1 },
    ghost counted: { account.share.amount ≡ calls },
    ghost seated: { account.number.0 < J.seats },
    ghost fewer: { vec_len account.receipts.kept ≤ calls },
}

impl<J: Naming> Model for Seat<J> {
    ghost use Rattle.lb_desk.specs.Seat.{Seated};

    ghost Value = { Seated };

    ghost use Rattle.lb_terms.specs.contracts.term.CheckedTerm as contract;
    ghost use Rattle.std.specs.Coded.{codes};

    ghost coded = { Prim.hlevel (codes, contract.the_row.coded) };

    ghost view = { λ s. record { number = s.account.number; calls = s.calls; receipts = s.account.receipts.kept.items } };
}

impl<J: Naming> Seat<J> {
    /// A seat without calls.
    pub(crate) fn new(alloc: Global, number: SeatId, share: Share<J>) -> Seat<J>
        requires share { (share.parts ≡ 1) × (share.amount ≡ 0) }
        requires seat { number.0 < J.seats }
        ensures { result ≡ record { number = number; calls = 0; receipts = [] } }
    {
        let account = Account {
            number,
            share,
            receipts: Receipts::new(alloc),
        };
        Seat { account, calls: 0 }
    }

    /// A law: it has no more receipts than calls. It does nothing.
    pub fn law_of_receipts(&self)
        ensures { length self.now.receipts ≤ self.now.calls }
    {
        // Read, so that what the seat keeps true is at hand.
        let _ = self.account.receipts.kept.len();
    }

    /// Its number at the desk.
    pub fn number(&self) -> SeatId
        ensures { result ≡ self.now.number }
    {
        self.account.number
    }

    /// How many of its calls were answered.
    pub fn calls(&self) -> u64
        ensures { result ≡ self.now.calls }
    {
        self.calls
    }

    /// The receipts of those that the log has, in order.
    pub fn receipts(&self) -> &[Receipt]
        ensures { result.now ≡ self.now.receipts }
    {
        self.account.receipts.kept.as_slice()
    }
}
