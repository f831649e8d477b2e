//! The desk: one balancer under one lock, called from many threads, with a log of which it is proved that it is true.
#![tactic(auto)]

mod agree;
mod audit;
mod book;
mod desk;
mod entry;
mod fault;
mod laws;
mod naming;
mod seat;
mod spare;

pub use audit::Audit;
pub use book::{Answered, Book, Receipts, Ticket};
pub use desk::Desk;
pub use entry::{LogEntry, Receipt, SeatId};
pub use fault::{CloseFault, DeskFault};
pub use laws::desks_cross_threads;
pub use naming::Naming;
pub use seat::{Account, Seat};
