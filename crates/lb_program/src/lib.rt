//! What the program `lb` does: it replays lines of events over one balancer, and reads and checks setup files. Input, output and standard
//! error are whatever reads and writes.
#![tactic(auto)]

mod checking;
mod faults;
mod input;
mod line;
mod output;
mod replaying;
mod servers;
mod setup;
mod shown;

pub use checking::{check, check_input};
pub use faults::{Ended, Stop, closed_line};
pub use input::FullCount;
pub use output::write_line;
pub use replaying::{replay, replay_told};
pub use servers::{ServerPlace, place_of, places};
pub use setup::{Setup, read_setup};
