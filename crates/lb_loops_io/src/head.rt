//! What reports are read for of an event.

ghost use Rattle.std.specs.Prelude.{◌≡◌};
ghost use Rattle.lb_loops_io.specs.Head.{head_of};

use lb_core::Event;
use lb_wire::{Origin, ServerId};

/// Of an event what reports are read for.
#[derive(Clone, Copy, Debug, PartialEq, Eq)]
pub enum Head {
    /// A query of this origin.
    Query(Origin),
    /// A reply of a server.
    Reply,
    /// A tick at this moment, in milliseconds.
    Tick(u64),
    /// A result of a probe at this moment, in milliseconds: of this server, and whether it was well.
    HealthResult(u64, ServerId, bool),
    /// An operator's command.
    Edit,
}

impl Head {
    /// That of an event.
    #[inline(always)]
    pub(crate) fn of(event: &Event) -> Head
        ensures { result ≡ head_of event.now }
    {
        match event {
            Event::Query { origin, .. } => Head::Query(*origin),
            Event::Reply { .. } => Head::Reply,
            Event::Tick { now } => Head::Tick(*now),
            Event::HealthResult { now, server, ok } => Head::HealthResult(*now, *server, *ok),
            Event::Edit { .. } => Head::Edit,
        }
    }
}
