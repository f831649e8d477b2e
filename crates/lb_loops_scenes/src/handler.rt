//! The event handler of a scene's loop.

use lb_core::{Answer, Event};
use lb_desk::DeskFault;
use lb_loops::Taker;
use std::alloc::Global;
use std::collections::VecDeque;
use std::sync::atomic::{AtomicBool, Ordering};
use std::sync::{Arc, Mutex, Wait};

/// What handlers share with whoever plays a scene.
#[derive(Drop)]
pub(crate) struct Heard<'a, R: Wait> {
    pub(crate) rt: &'a R,
    pub(crate) alloc: Global,
    /// Whether the desk takes no event.
    pub(crate) is_full: &'a AtomicBool,
    /// Copies of the events that were handed in, as a report has none of their octets.
    pub(crate) events: Arc<Mutex<VecDeque<Event>>>,
}

/// Hands events to another handler, or refuses them as a desk whose count is full does.
#[derive(Drop)]
pub(crate) struct Handler<'a, R: Wait, T: Taker> {
    taker: T,
    heard: Heard<'a, R>,
}

impl<'a, R: Wait, T: Taker> Handler<'a, R, T> {
    pub(crate) fn new(taker: T, heard: Heard<'a, R>) -> Handler<'a, R, T> {
        Handler { taker, heard }
    }

    /// The other handler, when the loop has ended.
    pub(crate) fn into_taker(self) -> T {
        let Handler { taker, .. } = self;
        taker
    }
}

impl<R: Wait, T: Taker> Taker for Handler<'_, R, T> {
    ghost answered = { λ h. T.answered h.taker };

    ghost pairs = { λ h. T.pairs h.taker };

    fn take(&mut self, event: Event) -> Result<Answer, (DeskFault, Event)> {
        if let Ok(copy) = event.copy(self.heard.alloc) {
            let _ = self.heard.events.lock(self.heard.rt).push_back(copy);
        }
        if self.heard.is_full.load(Ordering::SeqCst) {
            return Err((DeskFault::CountFull, event));
        }
        self.taker.take(event)
    }
}
