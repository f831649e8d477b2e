//! A place among the requests that wait.

ghost use Rattle.std.specs.Prelude.{◌≡◌, IfOk};
ghost use Rattle.lb_doh.specs.Ticket.{IsPlace};

use crate::fault::EnterFault;
use crate::posts::Requests;
use futures::channel::oneshot;
use lb_wire::Octets;
use std::alloc::Global;
use std::marker::Model;
use std::sync::{Arc, Wait};

/// A request's place among those that wait. Dropped, the request waits no longer: it was answered, or its client has left. A contract sees
/// its number.
pub struct Ticket<R: Wait> {
    rt: R,
    requests: Arc<Requests>,
    number: u64,
}

impl<R: Wait> Model for Ticket<R> {
    ghost use Rattle.std.specs.Prelude.{ℕ};

    ghost Value = { ℕ };

    ghost view = { λ t. t.number };
}

impl<R: Wait + Drop> Drop for Ticket<R> {
    fn drop(self) {
        let Ticket {
            rt,
            requests,
            number,
        } = self;
        let gone = requests.lock(&rt).leave(number);
        drop(gone);
    }
}

/// What brings a request its answer, seen by the request: it is ready with the answer, or with an error where none will come.
pub type Brought = oneshot::Receiver<Octets>;

impl<R: Wait + Drop> Ticket<R> {
    /// A place after the others, under the next number, and what its answer will come by. It is to be taken before the request's message
    /// goes to the desk, as another thread may bring the answer at once.
    pub fn taken(
        rt: R,
        alloc: Global,
        requests: Arc<Requests>,
    ) -> Result<(Ticket<R>, Brought), EnterFault>
        ensures { IfOk result (λ taken. IsPlace taken.0 taken.1) }
    {
        let (bringer, brought) = oneshot::channel(alloc)?;
        let number = requests.lock(&rt).enter(bringer)?;
        Ok((
            Ticket {
                rt,
                requests,
                number,
            },
            brought,
        ))
    }

    /// The number.
    pub fn number(&self) -> u64
        ensures { result ≡ self.now }
    {
        self.number
    }
}
