//! Places that wait for their turn.

ghost use Rattle.std.specs.Prelude.{◌≤◌};
ghost use Rattle.std.specs.VecDeque.{deque_capacity};

use lb_loops_io::MAX_CONNECTIONS;
use std::alloc::{AllocError, Global};
use std::collections::VecDeque;

/// Places of connections that wait for their turn, in the order in which they came, each once. Room for all is taken at the start.
#[derive(Drop)]
pub(crate) struct Queue {
    places: VecDeque<usize>,
    /// Of each place whether it waits.
    waits: Vec<bool>,
    ghost roomy: { 4096 ≤ deque_capacity places },
}

impl Queue {
    /// None waits. The one error is lack of memory.
    pub(crate) fn made(alloc: Global) -> Result<Queue, AllocError> {
        Ok(Queue {
            places: VecDeque::with_capacity(alloc, MAX_CONNECTIONS)?,
            waits: Vec::from_elem(alloc, false, MAX_CONNECTIONS)?,
        })
    }

    /// How many wait.
    pub(crate) fn len(&self) -> usize {
        self.places.len()
    }

    /// Puts a place after the others, where it does not wait yet.
    pub(crate) fn put(&mut self, place: usize) {
        if self.places.len() < MAX_CONNECTIONS && set(&mut self.waits, place) {
            self.places.push_back_reserved(place);
        }
    }

    /// The place that waits longest; it waits no more.
    pub(crate) fn next(&mut self) -> Option<usize> {
        let place = self.places.pop_front()?;
        if let Some(waits) = self.waits.get_mut(place) {
            *waits = false;
        }
        Some(place)
    }
}

/// Sets the flag of a place; whether it was not set.
fn set(flags: &mut [bool], place: usize) -> bool {
    match flags.get_mut(place) {
        Some(flag) => {
            let is_new = !*flag;
            *flag = true;
            is_new
        }
        None => false,
    }
}
