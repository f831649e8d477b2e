//! Counts of what was asked and answered, beside the plain state.

ghost use Rattle.std.specs.Prelude.{◌≡◌, ◌<◌, ◌+◌, ◌==◌, ℕ};
ghost use Rattle.lb_step.specs.Counts.{answer_count, count_at, event_count, front_of, front_place, is_place, one_if, place_of, places, AreRaised};

use crate::answer::Answer;
use crate::count::{Count, NAMED};
use crate::event::Event;

/// How many listeners a query may name.
const FRONTS: usize = 256;

/// Counts of events and answers, and of the queries of each listener. A contract sees them as one list, each count at its place.
/// At 2^64-1 a count stays.
#[derive(Clone, Copy, Debug, PartialEq, Eq)]
pub struct Counts {
    items: [u64; NAMED + FRONTS],
}

/// What an event is counted as, before it is answered.
#[derive(Clone, Copy, Debug, PartialEq, Eq)]
pub(crate) struct Came {
    count: Count,
    /// The listener by which a query came.
    front: Option<u8>,
}

impl Came {
    /// That of an event.
    #[inline(always)]
    pub(crate) fn of(event: &Event) -> Came
        ensures count { result.count ≡ event_count event.now }
        ensures front { result.front ≡ front_of event.now }
    {
        Came {
            count: Count::of_event(event),
            front: match event {
                Event::Query { origin, .. } => Some(origin.front),
                _ => None,
            },
        }
    }
}

impl Counts {
    /// All are 0.
    pub fn new() -> Counts
        ensures { (place : ℕ) → count_at place result.items ≡ 0 }
    {
        Counts {
            items: [0; NAMED + FRONTS],
        }
    }

    /// One that has a name.
    pub fn get(&self, count: Count) -> u64
        ensures { result ≡ count_at (place_of count) self.now.items }
    {
        self.items[count.place()]
    }

    /// How many queries came by a listener.
    pub fn of_front(&self, front: u8) -> u64
        ensures { result ≡ count_at (front_place front) self.now.items }
    {
        self.items[NAMED + usize::from(front)]
    }

    /// Counts an event and its answer. The one place where a count is raised.
    #[inline(always)]
    pub(crate) fn count(&mut self, came: Came, answer: &Answer)
        ensures { AreRaised (λ place. one_if (place_of came.count == place) + one_if (is_place came.front place) + one_if (place_of (answer_count answer.now) == place)) self.old.items self.new.items }
    {
        self.raise(came.count.place());
        if let Some(front) = came.front {
            self.raise(NAMED + usize::from(front));
        }
        self.raise(Count::of_answer(answer).place());
    }

    /// Raises the one at a place.
    #[inline(always)]
    fn raise(&mut self, at: usize)
        requires { at < places }
        ensures { AreRaised (λ place. one_if (at == place)) self.old.items self.new.items }
    {
        self.items[at] = self.items[at].saturating_add(1);
    }
}
