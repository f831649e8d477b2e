//! The last queries that ended: each thread notes those that its calls ended in a ring of its own, behind a lock of its own, and the
//! console reads all rings. No answer depends on them.
#![tactic(auto)]

mod laws;
mod question;
mod record;
mod ring;

pub use laws::rings_cross_threads;
pub use question::{NAME_ROOM, Question};
pub use record::{Before, Record};
pub use ring::{Ring, Rings};
