//! Events as reports have them.

ghost use Rattle.std.specs.Prelude.{◌≡◌};
ghost use Rattle.lb_loops_io.specs.Head.{head_of, logged};

use crate::head::Head;
use http_server::Log;
use lb_core::Event;
use std::fmt::{Debug, Error, Formatter, Write};
use std::marker::Model;

/// An event as a report has it. A contract sees the whole event: what it was stands for proofs
/// alone, and takes no memory. A program has what reports are read for.
#[derive(Drop)]
pub struct Reported {
    head: Head,
    log: Log<Event, bool>,
    ghost is: { head ≡ head_of (logged log.items) },
}

impl Model for Reported {
    ghost use Rattle.lb_step.specs.declared.event.Event.{Event};
    ghost use Rattle.lb_loops_io.specs.Head.{logged};

    ghost Value = { Event };

    ghost use Rattle.lb_terms.specs.contracts.term.CheckedTerm as contract;
    ghost use Rattle.std.specs.Coded.{codes};

    ghost coded = { Prim.hlevel (codes, contract.the_row.coded) };

    ghost view = { λ r. logged r.log.items };
}

impl Reported {
    /// What a report has of an event.
    #[inline(always)]
    pub fn of(event: &Event) -> Reported
        ensures { result ≡ event.now }
    {
        Reported {
            head: Head::of(event),
            log: Log::new().and(event, &true),
        }
    }

    /// What reports are read for.
    #[inline(always)]
    pub fn head(&self) -> Head
        ensures { result ≡ head_of self.now }
    {
        self.head
    }
}

impl Debug for Reported {
    fn fmt<W: Write>(&self, f: &mut Formatter<W>) -> Result<(), Error> {
        self.head.fmt(f)
    }
}
