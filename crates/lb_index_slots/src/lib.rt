//! Values in numbered slots, in chunks that stay where they are: making room for one more copies none of them.
#![tactic(auto)]

mod chunk;
mod slots;

pub use slots::Slots;
