//! The requests that wait for an answer.

ghost use Rattle.std.specs.Prelude.{[], ◌≡◌};
ghost use Rattle.lb_doh.specs.Waiting.{Enters, waits_under, without};

use crate::fault::EnterFault;
use std::alloc::Global;
use std::collections::BTreeMap;
use std::marker::Model;

/// The requests that wait for an answer, each under its number, with what wakes it. Numbers are given once, from 1 on. A contract sees the
/// number that was given last, and a list.
#[derive(Drop)]
pub struct Waiting<W> {
    last: u64,
    requests: BTreeMap<u64, W>,
}

impl<W> Model for Waiting<W> {
    ghost use Rattle.lb_doh.specs.Waiting.{Waits, are_given, waits_code};

    ghost Value = { Waits W };

    ghost coded = { waits_code W.code };

    ghost view = { λ w. record { last = w.last; requests = w.requests.entries } };

    ghost invariant = { λ w. are_given w.last w.requests.entries };
}

impl<W: Drop> Waiting<W> {
    /// None waits, and no number was given. It takes no memory.
    pub fn new(alloc: Global) -> Waiting<W>
        ensures { result ≡ record { last = 0; requests = [] } }
    {
        Waiting {
            last: 0,
            requests: BTreeMap::new(alloc),
        }
    }

    /// Puts a request after the others, under the next number. The errors are lack of memory, and that no number is left; nothing has
    /// changed then.
    pub fn enter(&mut self, waker: W) -> Result<u64, EnterFault>
        ensures { Enters self.old waker self.new result }
    {
        let Some(number) = self.last.checked_add(1) else {
            return Err(EnterFault::NoNumber);
        };
        self.requests.insert(number, waker)?;
        self.last = number;
        Ok(number)
    }

    /// Takes the request of a number out; None where none waits under it.
    pub fn leave(&mut self, number: u64) -> Option<W>
        ensures found { result ≡ waits_under number self.old.requests }
        ensures gone { self.new ≡ record self.old { requests = without number self.old.requests } }
    {
        self.requests.remove(&number)
    }
}
