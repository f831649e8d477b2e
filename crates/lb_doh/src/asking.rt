//! The front's part of the desk.

ghost use Rattle.std.specs.Prelude.{[], OnOk, ◌++◌, ◌∷◌, ◌≡◌, ◌⊎◌};
ghost use Rattle.lb_doh.specs.Asking.{Asks, Puts};

use crate::next::{Next, next_of, query_of};
use lb_core::{Answer, Event};
use lb_doh_message::{DohResponse, unavailable};
use lb_loops_io::{Outside, Taker, Waker};
use lb_outbox::{Job, Sender};
use lb_wire::{Octets, Origin};
use std::marker::Model;
use std::sync::Wait;

/// The front's part of the desk: its event handler, its sender of the outbox, its source of moments and words, and what wakes the loop of
/// streams. It stands behind one lock for all connections, which is taken before the desk's. A contract sees what each tells.
#[derive(Drop)]
pub struct Asker<T: Taker, O: Outside, W: Waker> {
    taker: T,
    sender: Sender,
    outside: O,
    streams: W,
    /// How many jobs found the outbox full.
    lost: u64,
}

impl<T: Taker, O: Outside, W: Waker> Model for Asker<T, O, W> {
    ghost use Rattle.lb_doh.specs.Asking.{Asking};

    ghost Value = { Asking };

    ghost use Rattle.lb_terms.specs.contracts.term.CheckedTerm as contract;
    ghost use Rattle.std.specs.Coded.{codes};

    ghost coded = { Prim.hlevel (codes, contract.the_row.coded) };

    ghost view = { λ a. record { outbox = a.sender; lost = a.lost; answered = T.answered a.taker; pairs = T.pairs a.taker; said = O.said a.outside; failures = O.failures a.outside } };
}

impl<T: Taker, O: Outside, W: Waker> Asker<T, O, W> {
    /// Asks by this handler and this source, and sends by this sender to the loop of streams.
    pub fn new(taker: T, sender: Sender, outside: O, streams: W) -> Asker<T, O, W>
        ensures outbox { result.outbox ≡ sender }
        ensures lost { result.lost ≡ 0 }
        ensures desk { (result.answered ≡ T.answered taker) × (result.pairs ≡ T.pairs taker) }
        ensures outside { (result.said ≡ O.said outside) × (result.failures ≡ O.failures outside) }
    {
        Asker {
            taker,
            sender,
            outside,
            streams,
            lost: 0,
        }
    }

    /// The handler and the sender, when the front has ended.
    pub fn into_parts(self) -> (T, Sender)
        ensures desk { (T.answered result.0 ≡ self.answered) × (T.pairs result.0 ≡ self.pairs) }
        ensures outbox { result.1 ≡ self.outbox }
    {
        let Asker { taker, sender, .. } = self;
        (taker, sender)
    }

    /// Asks the desk for a request's message. What it gives is the request's response; where there is none, the request waits for the answer
    /// that is handed to it.
    pub fn ask<R: Wait>(&mut self, rt: &R, origin: Origin, message: Octets) -> Option<DohResponse>
        ensures { Asks origin message self.old self.new result }
    {
        let Some((now, word)) = self.outside.ask() else {
            return Some(unavailable());
        };
        let answer = match self.taker.take(query_of(now, word, origin, message)) {
            Ok(answer) => answer,
            Err(_) => return Some(unavailable()),
        };
        match next_of(answer) {
            Next::Respond(response) => Some(response),
            Next::Send(job) => {
                self.put(rt, job);
                None
            }
        }
    }

    /// How many queries found the outbox full.
    pub fn lost(&self) -> u64
        ensures { result ≡ self.now.lost }
    {
        self.lost
    }

    /// Has the loop of streams send a job. If the outbox is full, the job is dropped and counted: its
    /// query ends by expiry.
    fn put<R: Wait>(&mut self, rt: &R, job: Job)
        ensures { Puts job self.old self.new }
    {
        if self.sender.send(rt, job).is_ok() {
            self.streams.wake();
        } else {
            self.lost = self.lost.saturating_add(1);
        }
    }
}
