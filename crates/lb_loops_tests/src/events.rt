//! Events for calls.

use lb_chain::Action;
use lb_core::{BoxedCommand, Command, Event, StatedRule};
use lb_servers::PoolName;
use lb_terms::Term;
use lb_wire::{Addr, Kind, Octets, Origin};
use std::alloc::{AllocError, Global};

/// example.com A IN, with RD.
const QUERY: &[u8] =
    b"\x12\x34\x01\x00\x00\x01\x00\x00\x00\x00\x00\x00\x07example\x03com\x00\x00\x01\x00\x01";

/// The query at a moment.
pub(crate) fn query(alloc: Global, now: u64) -> Result<Event, AllocError> {
    Ok(Event::Query {
        now,
        origin: Origin {
            front: 0,
            slot: 7,
            source: Addr::V4([192, 0, 2, 1]),
            port: 5353,
        },
        kind: Kind::Datagram,
        word: 16,
        bytes: Octets::from_vec(Vec::from_slice(alloc, QUERY)?),
    })
}

/// The edit that adds a rule for every query.
pub(crate) fn rule_for_all(alloc: Global, now: u64, action: Action<PoolName>) -> Option<Event> {
    let term = Term::All.checked().ok()?;
    let command = Command::RuleAdd(None, StatedRule { term, action });
    Some(Event::Edit {
        now,
        command: BoxedCommand::new(alloc, command).ok()?,
    })
}
