//! Times after which a client is waited for no longer.

ghost use Rattle.futures.specs.Task.{Keeps};

use futures::Future;
use futures::task::Context;
use std::time::{Clock, Duration, Instant};
use tokio::time::{Handle, Sleep};

/// The time that ends so many seconds from now. `None` if the clock or memory does not give it.
pub(crate) fn seconds_from_now<R: Clock>(rt: &R, timers: &Handle, seconds: u64) -> Option<Sleep> {
    let now = Instant::now(rt).ok()?;
    let end = now.checked_add(Duration::from_secs(seconds))?;
    timers.sleep_until(end).ok()
}

/// Whether a time is over. If it is not, the task is woken when it is.
pub(crate) fn is_over(late: &mut Option<Sleep>, cx: &mut Context<'_>) -> bool
    ensures { Keeps cx.old cx.new }
{
    match late {
        Some(sleep) => sleep.poll(cx).is_ready(),
        None => false,
    }
}
