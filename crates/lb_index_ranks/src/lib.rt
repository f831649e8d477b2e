//! Ranks that are filed under keys, in the order of the keys.
#![tactic(auto)]

mod block;
mod blocks;
mod chunk;
mod cursor;
mod edits;
mod filed;
mod front;
mod key;
mod least;
mod ranks;
mod spot;

pub use cursor::Cursor;
pub use least::lesser;
pub use ranks::Ranks;
