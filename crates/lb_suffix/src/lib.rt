//! Ranks that are filed under names: the least of those at or above a name, and all of those at or below it.
#![tactic(auto)]

mod index;
mod key;
mod over;
mod under;

pub use index::{SuffixIndex, equal_where_same};
pub use key::{NameKey, key_of, put_key};
pub use under::Under;
