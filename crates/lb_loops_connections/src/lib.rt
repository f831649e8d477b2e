//! The connections of a loop of streams by their numbers: what came of each and was not taken yet, and what each is to write.
#![tactic(auto)]

mod connection;
mod table;
mod taking;
mod writing;

pub use connection::Connection;
pub use table::{Connections, Route};
pub use taking::First;
