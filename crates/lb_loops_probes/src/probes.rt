//! The servers that are probed.

ghost use Rattle.std.specs.Prelude.{[], IfNone, IfOk, IfSome, List, None, Some, filter, length, slice_get, true, vec_capacity, ◌++◌, ◌∷◌, ◌≡◌, ◌≤◌, ◌⊎◌};
ghost use Rattle.std.specs.List.{list_any, position};
ghost use Rattle.lb_loops_io.specs.declared.roster.Listed.{Listed};
ghost use Rattle.lb_loops_probes.specs.Probes.{AnswersProbe, AreFresh, AreProbed, Each, Follows, Here, IsAsked, IsDue, IsOver, IsQuietFor, IsTimely, Unheard, begun, ended, is_of, most_probed, place_of, stands};
ghost use Rattle.lb_loops_probes.specs.declared.watched.Watched.{Watched};

use crate::watched::{PROBE_PERIOD, Waits, Watched};
use lb_loops_io::{Datagram, Place, Roster, Socket};
use lb_servers::MAX_SERVERS;
use lb_wire::ServerId;
use std::alloc::{AllocError, Global};
use std::marker::Model;

/// Servers that are probed: of each where it is, when its next probe is due, and the probe that is under way. Room for 256.
#[derive(Drop)]
pub struct Probes {
    watched: Vec<Watched>,
    /// The version of the roster that the servers were taken from.
    version: Option<u64>,
    ghost roomy: { 256 ≤ vec_capacity watched },
}

impl Model for Probes {
    ghost use Rattle.lb_loops_probes.specs.Probes.{Probed};

    ghost Value = { Probed };

    ghost view = { λ p. record { version = p.version; watched = p.watched.items } };
}

/// A datagram that answers a probe: the place of its server, that server, and the probe.
#[derive(Clone, Copy, Debug)]
pub struct Answered {
    pub index: usize,
    pub watched: Watched,
    pub waits: Waits,
}

/// A server whose next probe is due: its place among the servers that are probed, that server, and
/// where the roster has it.
#[derive(Clone, Copy, Debug)]
pub struct Due {
    pub index: usize,
    pub watched: Watched,
    pub place: Place,
}

impl Probes {
    /// No server is probed. It has room for 256; the one error is lack of memory.
    pub fn made(alloc: Global) -> Result<Probes, AllocError>
        ensures { IfOk result (λ probes. probes ≡ record { version = None; watched = [] }) }
    {
        Ok(Probes {
            watched: Vec::with_capacity(alloc, MAX_SERVERS)?,
            version: None,
        })
    }

    /// How many servers are probed.
    pub fn len(&self) -> usize
        ensures { result ≡ length self.now.watched }
    {
        self.watched.len()
    }

    /// The server at a place, with its probe, where that is over at this moment.
    pub fn over_at(&self, index: usize, now: u64) -> Option<(Watched, Waits)>
        ensures some { IfSome result (λ r. (slice_get self.now.watched index ≡ Some r.0) × (r.0.waits ≡ Some r.1) × IsOver now r.1) }
        ensures none { IfNone result (Here (IsTimely now) index self.now.watched) }
    {
        let watched = self.watched.get(index)?;
        let waits = watched.over(now)?;
        Some((*watched, waits))
    }

    /// The server at a place, and where it is, if its next probe is due at this moment.
    pub fn due_at(&self, roster: &Roster, index: usize, now: u64) -> Option<Due>
        ensures some { IfSome result (λ due. (slice_get self.now.watched due.index ≡ Some due.watched) × IsDue roster.now.listed now due.watched due.place) }
        ensures at { IfSome result (λ due. due.index ≡ index) }
        ensures none { IfNone result (Here (IsAsked roster.now.listed now) index self.now.watched) }
    {
        let watched = self.watched.get(index)?;
        let place = watched.due(roster, now)?;
        Some(Due {
            index,
            watched: *watched,
            place,
        })
    }

    /// For how long from this moment on no probe is over and none is due, at most so many milliseconds.
    pub fn quiet_for(&self, roster: &Roster, now: u64, at_most: u64) -> u64
        ensures within { result ≤ at_most }
        ensures quiet { Each (IsQuietFor roster.now.listed now result) self.now.watched }
    {
        let mut quiet = at_most;
        for index in 0..self.watched.len() {
            quiet = lesser(quiet, self.quiet_at(roster, index, now));
        }
        quiet
    }

    /// The same of the server at a place; where there is none, as long as one likes.
    fn quiet_at(&self, roster: &Roster, index: usize, now: u64) -> u64
        ensures { Here (IsQuietFor roster.now.listed now result) index self.now.watched }
    {
        match self.watched.get(index) {
            Some(watched) => watched.quiet_for(roster, now),
            None => u64::MAX,
        }
    }

    /// The servers become those of the roster, where that was changed: one that left, or is at another end, goes, and one that came
    /// begins anew at this moment.
    pub fn follow(&mut self, roster: &Roster, now: u64)
        ensures { Follows roster.now now self.old self.new }
    {
        if self.version == Some(roster.version()) {
            return;
        }
        self.version = Some(roster.version());
        keep_standing(&mut self.watched, roster);
        admit_all(&mut self.watched, roster, now);
    }

    /// The server whose probe this datagram answers at this moment, with its place.
    pub fn answered(&self, datagram: &Datagram, now: u64) -> Option<Answered>
        ensures some { IfSome result (AnswersProbe now datagram.now self.now.watched) }
        ensures none { IfNone result (Unheard now datagram.now self.now.watched) }
    {
        let index = place_of(self.watched.as_slice(), datagram.socket)?;
        let watched = self.watched.get(index)?;
        let waits = watched.answered(datagram, now)?;
        Some(Answered {
            index,
            watched: *watched,
            waits,
        })
    }

    /// The probe of the server at a place ends.
    pub fn end(&mut self, index: usize, watched: Watched)
        requires there { slice_get self.old.watched index ≡ Some watched }
        ensures { self.new ≡ ended self.old index watched }
    {
        self.watched[index] = Watched {
            waits: None,
            ..watched
        };
    }

    /// A probe of a server that was due was sent at this moment with this word, or could not be, in
    /// a turn that began at the first moment. The next one is due a second after the turn began.
    pub fn begin(&mut self, due: Due, turn: u64, stamp: (u64, u16), is_sent: bool)
        requires there { slice_get self.old.watched due.index ≡ Some due.watched }
        ensures { self.new ≡ begun self.old due.index due.watched due.place turn (stamp.0, stamp.1) is_sent }
    {
        let (now, word) = stamp;
        self.watched[due.index] = Watched {
            server: due.watched.server,
            at: due.place.at,
            must_resolve: due.place.must_resolve,
            next: turn.saturating_add(PROBE_PERIOD),
            waits: Some(Waits {
                word,
                sent: now,
                is_sent,
            }),
        };
    }
}

/// The lesser of two.
fn lesser(a: u64, b: u64) -> u64
    ensures first { result ≤ a }
    ensures second { result ≤ b }
{
    a.min(b)
}

/// The place of the server whose socket this is.
fn place_of(watched: &[Watched], socket: Socket) -> Option<usize>
    ensures { result ≡ place_of socket watched.now }
{
    match socket {
        Socket::Listener(_) => None,
        Socket::Server(server, _, _) => index_of(watched, server),
    }
}

/// The place of a server.
fn index_of(watched: &[Watched], server: ServerId) -> Option<usize>
    ensures { result ≡ position (is_of server) watched.now }
{
    watched.iter().position(|w| w.server.0 == server.0)
}

/// Whether a server is among these.
fn is_probed(watched: &[Watched], server: ServerId) -> bool
    ensures { result ≡ list_any (is_of server) watched.now }
{
    watched.iter().any(|w| w.server.0 == server.0)
}

/// Those that are not in the roster at their end any more go.
fn keep_standing(watched: &mut Vec<Watched>, roster: &Roster)
    ensures items { watched.new.items ≡ filter (stands roster.now.listed) watched.old.items }
    ensures room { vec_capacity watched.new ≡ vec_capacity watched.old }
{
    watched.retain(|w| stands(roster, w));
}

/// Whether the roster has a server at the end that is probed.
fn stands(roster: &Roster, watched: &Watched) -> bool
    ensures { result ≡ stands roster.now.listed watched.now }
{
    match roster.get(watched.server) {
        Some(place) => place.at.is(watched.at),
        None => false,
    }
}

/// The servers of the roster that are not here yet begin.
fn admit_all(watched: &mut Vec<Watched>, roster: &Roster, now: u64)
    requires room { 256 ≤ vec_capacity watched.old }
    ensures fresh { (fresh : List Watched) × (watched.new.items ≡ watched.old.items ++ fresh) × AreFresh now roster.now.listed watched.old.items fresh }
    ensures all { AreProbed (length roster.now.listed) roster.now.listed watched.new.items }
    ensures room { vec_capacity watched.new ≡ vec_capacity watched.old }
{
    for index in 0..roster.len() {
        admit(watched, roster, index, now);
    }
}

/// The server at a place of the roster begins, where it is not here yet and there is room: its first probe is due at a moment of the next
/// second that its number tells.
fn admit(watched: &mut Vec<Watched>, roster: &Roster, index: usize, now: u64)
    requires room { 256 ≤ vec_capacity watched.old }
    ensures fresh { (fresh : List Watched) × (watched.new.items ≡ watched.old.items ++ fresh) × AreFresh now roster.now.listed watched.old.items fresh }
    ensures here { (l : Listed) → slice_get roster.now.listed index ≡ Some l → (most_probed ≤ length watched.new.items) ⊎ (list_any (is_of l.server) watched.new.items ≡ true) }
    ensures room { vec_capacity watched.new ≡ vec_capacity watched.old }
{
    let Some((server, _place)) = roster.nth(index) else {
        return;
    };
    if is_probed(watched.as_slice(), server) || watched.len() >= MAX_SERVERS {
        return;
    }
    let Some(place) = roster.get(server) else {
        return;
    };
    watched.push_reserved(Watched {
        server,
        at: place.at,
        must_resolve: place.must_resolve,
        next: now.saturating_add(server.0 % 256 * PROBE_PERIOD / 256),
        waits: None,
    });
}
