//! What the connections share.

use lb_doh::{Asker, Requests};
use lb_loops_io::{Outside, Taker, Waker};
use lb_sends::Sends;
use std::sync::{Arc, Mutex};
use tokio::time::Handle;

/// What the connections share: the front's part of the desk, behind its lock; the requests that wait; and timers.
#[derive(Drop)]
pub(crate) struct Shared<T: Taker, O: Outside, W: Waker> {
    /// It is taken before the desk's lock, and before that of the requests never.
    pub(crate) asker: Mutex<Option<Asker<T, O, W>>>,
    pub(crate) requests: Arc<Requests>,
    /// Where it is counted that a query found the outbox full.
    pub(crate) sends: Arc<Sends>,
    pub(crate) timers: Handle,
}
