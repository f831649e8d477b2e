//! Where servers are.

ghost use Rattle.std.specs.Prelude.{[], IfOk, IsErr, None, OnErr, OnOk, Some, if◌then◌else◌, length, option_map, slice_get, vec_capacity, vec_len, ◌==◌, ◌↔◌, ◌≡◌, ◌≤◌};
ghost use Rattle.lb_loops_io.specs.Roster.{AreApart, most_servers, next_version, others, place_in};
ghost use Rattle.lb_loops_io.specs.declared.roster.Listed.{Listed};
ghost use Rattle.lb_wire.specs.declared.ids.ServerId.{ServerId};

use crate::endpoint::Endpoint;
use lb_servers::{MAX_SERVERS, Mode};
use lb_wire::ServerId;
use std::alloc::{AllocError, Global};
use std::marker::Model;
use thiserror::Error;

/// Where a server is, and what the loops have to know of it.
#[derive(Clone, Copy, Debug, PartialEq, Eq)]
pub struct Place {
    /// Its address and port.
    pub at: Endpoint,
    pub mode: Mode,
    /// Whether a probe's answer has to name an address.
    pub must_resolve: bool,
}

/// A server, and where it is.
#[derive(Clone, Copy, Debug)]
pub(crate) struct Listed {
    pub(crate) server: ServerId,
    pub(crate) place: Place,
}

/// Why a server is not taken in: 256 others stand.
#[derive(Clone, Copy, Debug, PartialEq, Eq, Error)]
#[error("the roster is full")]
pub struct RosterFull;

/// Where servers are. A contract sees how often it was changed, and the servers, each once. It has room for 256.
#[derive(Drop)]
pub struct Roster {
    version: u64,
    listed: Vec<Listed>,
    ghost roomy: { most_servers ≤ vec_capacity listed },
    ghost few: { vec_len listed ≤ most_servers },
    ghost apart: { ∥ AreApart listed.items ∥₁ },
}

impl Model for Roster {
    ghost use Rattle.lb_loops_io.specs.Roster.{Rostered};

    ghost Value = { Rostered };

    ghost view = { λ r. record { version = r.version; listed = r.listed.items } };
}

impl Roster {
    /// No servers. It has room for 256; the one error is lack of memory.
    pub fn made(alloc: Global) -> Result<Roster, AllocError>
        ensures { IfOk result (λ roster. roster ≡ record { version = 0; listed = [] }) }
    {
        Ok(Roster {
            version: 0,
            listed: Vec::with_capacity(alloc, MAX_SERVERS)?,
        })
    }

    /// Puts a server at a place, which takes that of an earlier one. Refused where 256 other servers stand, and then nothing has changed.
    pub fn put(&mut self, server: ServerId, place: Place) -> Result<(), RosterFull>
        ensures put { OnOk result ((s : ServerId) → place_in s self.new.listed ≡ (if server.0 == s.0 then Some place else place_in s self.old.listed)) }
        ensures version { OnOk result (self.new.version ≡ next_version self.old.version) }
        ensures full { IsErr result ↔ (length (others server self.old.listed) ≡ most_servers) }
        ensures same { OnErr result (self.new ≡ self.old) }
    {
        take_out(&mut self.listed, server);
        if self.listed.len() == MAX_SERVERS {
            return Err(RosterFull);
        }
        self.listed.push_reserved(Listed { server, place });
        self.version = self.version.wrapping_add(1);
        Ok(())
    }

    /// Takes a server out, if it is there.
    pub fn remove(&mut self, server: ServerId)
        ensures removed { (s : ServerId) → place_in s self.new.listed ≡ (if server.0 == s.0 then None else place_in s self.old.listed) }
        ensures version { self.new.version ≡ next_version self.old.version }
    {
        take_out(&mut self.listed, server);
        self.version = self.version.wrapping_add(1);
    }

    /// Where a server is: the last place put for it and not removed.
    pub fn get(&self, server: ServerId) -> Option<Place>
        ensures { result ≡ place_in server self.now.listed }
    {
        self.listed
            .iter()
            .find(|listed| listed.server.0 == server.0)
            .map(|listed| listed.place)
    }

    /// How many servers there are.
    pub fn len(&self) -> usize
        ensures { result ≡ length self.now.listed }
    {
        self.listed.len()
    }

    /// The server at a place of the list, from 0, and where it is. None after the last one.
    pub fn nth(&self, index: usize) -> Option<(ServerId, Place)>
        ensures { result ≡ option_map (λ (l : Listed). (l.server, l.place)) (slice_get self.now.listed index) }
    {
        match self.listed.get(index) {
            Some(listed) => Some((listed.server, listed.place)),
            None => None,
        }
    }

    /// How often it was changed; 2^64-1 is followed by 0. Two copies of one roster with one version are equal.
    pub fn version(&self) -> u64
        ensures { result ≡ self.now.version }
    {
        self.version
    }

    /// Becomes equal to another one, in the room that it has.
    pub fn copy_from(&mut self, other: &Roster)
        ensures { self.new ≡ other.now }
    {
        self.listed.clear();
        let Ok(()) = self.listed.extend_from_slice(other.listed.as_slice()) else {
            unreachable!();
        };
        self.version = other.version;
    }

    /// A law: each server stands once, and there are 256 at most. It does nothing.
    pub fn law_of_roster(&self)
        ensures few { length self.now.listed ≤ most_servers }
        ensures apart { ∥ AreApart self.now.listed ∥₁ }
    {
        // Read, so that what the roster keeps true is at hand.
        let _ = self.listed.len();
    }
}

/// Takes a server out of a list.
fn take_out(listed: &mut Vec<Listed>, server: ServerId)
    ensures items { listed.new.items ≡ others server listed.old.items }
    ensures room { vec_capacity listed.new ≡ vec_capacity listed.old }
    ensures bound { vec_len listed.new ≤ vec_len listed.old }
{
    listed.retain(|l| l.server.0 != server.0);
}
