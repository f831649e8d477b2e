//! Rate windows: how many queries each masked address had within the last 1,000 milliseconds, and whether one more is
//! over the rate.
#![tactic(auto)]

mod boxed;
mod bucket;
mod buckets;
mod laws;
mod limiter;
mod moments;
mod order;
mod pass;
mod reserved;
mod ticks;

pub use laws::{
    passed_are_passes, put_is_there, recent_are_passes, recent_twice, reserving_keeps_matches,
};
pub use limiter::Limiter;
pub use moments::WINDOW;
pub use pass::Pass;
