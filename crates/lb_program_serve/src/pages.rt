//! The page of metrics of a desk.

ghost use denote.Ref.{NamedLft};
ghost use Rattle.std.specs.Thread.{IsSend};
ghost use Rattle.lb_program_serve.specs.contracts.pages.DeskPage as page;

use lb_desk::{Desk, Naming, desks_cross_threads};
use lb_metrics::Page;
use lb_recent::rings_cross_threads;
use lb_sends::sends_cross_threads;
use lb_words::Words;
use std::alloc::AllocError;
use std::sync::Wait;
use std::time::Clock;

/// What writes the page of metrics of a desk.
#[derive(Drop)]
pub(crate) struct DeskPage<'a, R, J: Naming> {
    pub(crate) rt: &'a R,
    pub(crate) desk: &'a Desk<J>,
    pub(crate) words: Words,
}

impl<R: Wait + Clock, J: Naming> Page for DeskPage<'_, R, J> {
    fn page(&self) -> Result<String, AllocError> {
        self.words.metrics(self.rt, self.desk)
    }
}

/// What writes the page of a desk may go to another thread, if the runtime may be shared by
/// threads. A law, which does nothing.
pub(crate) fn pages_cross_threads<J: Naming, R: Sync>()
    ensures { (a : NamedLft) → IsSend (page.the_row a R.row J.row (record { seats = J.seats; limit = J.limit; opening = J.opening }) (record { name = J.name; parts = J.parts })) }
{
    desks_cross_threads::<J>();
    rings_cross_threads();
    sends_cross_threads();
}
