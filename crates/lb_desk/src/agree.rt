//! Whether the receipts of seats are the log's entries.

ghost use Rattle.std.specs.Prelude.{All, IfSome, IsNone, IsTrue, List, length, take, ◌++◌, ◌<◌, ◌^◌, ◌≡◌, ◌≢◌, ◌≤◌};
ghost use Rattle.lb_desk.specs.declared.entry.Receipt.{Receipt};
ghost use Rattle.lb_desk.specs.Entry.{receipt, receipt_at, receipts_of};

use crate::entry::{LogEntry, Receipt, SeatId};
use crate::naming::Naming;
use crate::seat::Seat;

/// Whether the receipts of each seat are its entries of the log.
pub(crate) fn all_agree<J: Naming>(log: &[LogEntry], seats: &[Seat<J>]) -> bool
    requires { length log.now < 2 ^ 63 }
    ensures equal { IsTrue result → All (λ s. s.receipts ≡ receipts_of s.number log.now) seats.now }
    ensures found { All (λ s. s.receipts ≡ receipts_of s.number log.now) seats.now → IsTrue result }
{
    for seat in seats {
        if !agrees(log, seat.number(), seat.receipts()) {
            return false;
        }
    }
    true
}

/// Whether the receipts are the entries of a seat, in order.
fn agrees(log: &[LogEntry], seat: SeatId, receipts: &[Receipt]) -> bool
    requires { length log.now < 2 ^ 63 }
    ensures equal { IsTrue result → receipts.now ≡ receipts_of seat log.now }
    ensures found { receipts.now ≡ receipts_of seat log.now → IsTrue result }
{
    let mut next = 0;
    for place in 0..log.len() {
        match past(&log[place], place as u64, seat, receipts, next) {
            Some(after) => next = after,
            None => return false,
        }
    }
    next == receipts.len()
}

/// The place after the receipt of an entry; the same place where the entry is of another seat. None where the receipts do not
/// have it next.
fn past(
    entry: &LogEntry,
    place: u64,
    seat: SeatId,
    receipts: &[Receipt],
    next: usize,
) -> Option<usize>
    requires { next ≤ length receipts.now }
    ensures within { IfSome result (λ after. after ≤ length receipts.now) }
    ensures found { IfSome result (λ after. take after receipts.now ≡ take next receipts.now ++ receipt_at seat place entry.now) }
    ensures lost { IsNone result → (rest : List Receipt) → receipts.now ≢ take next receipts.now ++ receipt_at seat place entry.now ++ rest }
{
    if entry.seat != seat {
        return Some(next);
    }
    if next < receipts.len() && is_receipt(&receipts[next], place, entry) {
        return Some(next + 1);
    }
    None
}

/// Whether a receipt is that of the entry at a place.
fn is_receipt(kept: &Receipt, place: u64, entry: &LogEntry) -> bool
    ensures equal { IsTrue result → kept.now ≡ receipt place entry.now.event entry.now.answer }
    ensures found { kept.now ≡ receipt place entry.now.event entry.now.answer → IsTrue result }
{
    kept.place == place && kept.event.equals(&entry.event) && kept.answer.equals(&entry.answer)
}
