//! The threads that serving needs.

use crate::fault::Fault;
use std::alloc::Global;
use std::hint::spin_loop;
use std::sync::Arc;
use std::sync::atomic::{AtomicBool, Ordering};
use std::thread::{Threads, spawn};

/// How many threads with a seat of the desk there are besides those of datagrams: that of streams, of
/// the clock, of the console, and of DNS on HTTP.
pub(crate) const OTHER_SEATED: u8 = 4;

/// How many times a thread that is made as a trial looks whether it may end. After that it ends in
/// any case.
const LOOKS: u32 = 10_000_000;

/// How many threads serve by so many loops of datagrams, with the service of metrics or without.
pub(crate) fn threads_of(loops: u8, has_metrics: bool) -> u8 {
    OTHER_SEATED
        .saturating_add(loops)
        .saturating_add(u8::from(has_metrics))
}

/// Makes so many threads at the same time, and lets them end. If the system does not give them,
/// that is found before anything is served. Otherwise two parts could run one after the other.
pub(crate) fn spare_threads<R: Threads>(rt: &R, alloc: Global, count: u8) -> Result<(), Fault> {
    let is_over = Arc::new(alloc, AtomicBool::new(false))?;
    let mut made = Vec::with_capacity(alloc, usize::from(count))?;
    for _ in 0..count {
        let may_end = Arc::try_clone(&is_over)?;
        match spawn(rt, move || stand(&may_end)) {
            Ok(thread) => made.push(thread)?,
            Err(_refused) => {
                is_over.store(true, Ordering::SeqCst);
                return Err(Fault::NoThreads(count));
            }
        }
    }
    is_over.store(true, Ordering::SeqCst);
    for thread in made {
        thread.join(rt);
    }
    Ok(())
}

/// Stands until it may end.
fn stand(may_end: &AtomicBool) {
    for _ in 0..LOOKS {
        if may_end.load(Ordering::SeqCst) {
            return;
        }
        spin_loop();
    }
}
