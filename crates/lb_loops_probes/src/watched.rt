//! A server that is probed.

ghost use Rattle.std.specs.Prelude.{IfNone, IfSome, IsTrue, Some, false, nat_le, true, ◌+◌, ◌<◌, ◌≡◌, ◌≤◌, ℕ};
ghost use Rattle.lb_loops_probes.specs.Probes.{Answers, IsAsked, IsDue, IsOver, IsQuietFor, IsTimely, Misses, is_by, is_open, second};

use lb_health::judge;
use lb_loops_io::{Datagram, Endpoint, Place, Roster, SECOND, Socket};
use lb_servers::Mode;
use lb_wire::ServerId;

/// How long a probe waits for its answer, and how long it is from one probe of a server to the next,
/// in milliseconds.
pub(crate) const PROBE_PERIOD: u64 = SECOND;

/// A probe that is under way: its ID, the moment at which it was sent, in milliseconds, and whether it could be sent.
#[derive(Clone, Copy, Debug)]
pub struct Waits {
    pub word: u16,
    pub sent: u64,
    pub is_sent: bool,
}

/// A server that is probed: where it is, whether an answer has to name an address, when its next probe is due, and the probe that is
/// under way.
#[derive(Clone, Copy, Debug)]
pub struct Watched {
    pub server: ServerId,
    pub at: Endpoint,
    pub must_resolve: bool,
    pub next: u64,
    pub waits: Option<Waits>,
}

impl Waits {
    /// Whether the probe may still be answered at this moment.
    fn is_open(self, now: u64) -> bool
        ensures { result ≡ is_open now (Some self) }
    {
        self.is_sent && !self.is_late(now)
    }

    /// Whether the probe was sent a second or more before this moment.
    fn is_late(self, now: u64) -> bool
        ensures { result ≡ nat_le (self.sent + second) now }
    {
        now.saturating_sub(self.sent) >= PROBE_PERIOD
    }

    /// Whether the probe is over at this moment: it could not be sent, or it has waited for a second.
    fn is_over(self, now: u64) -> bool
        ensures over { IsTrue result → IsOver now self }
        ensures open { result ≡ false → is_open now (Some self) ≡ true }
    {
        !self.is_sent || self.is_late(now)
    }

    /// For how long from this moment on the probe is not over.
    fn open_for(self, now: u64) -> u64
        ensures { (moment : ℕ) → now ≤ moment → moment < now + result → is_open moment (Some self) ≡ true }
    {
        if self.is_sent {
            self.sent.saturating_add(PROBE_PERIOD).saturating_sub(now)
        } else {
            0
        }
    }
}

impl Watched {
    /// The probe that is under way, where it is over at this moment.
    pub(crate) fn over(&self, now: u64) -> Option<Waits>
        ensures some { IfSome result (λ waits. (self.now.waits ≡ Some waits) × IsOver now waits) }
        ensures none { IfNone result (IsTimely now self.now) }
    {
        let waits = self.waits?;
        if waits.is_over(now) {
            Some(waits)
        } else {
            None
        }
    }

    /// The probe that a datagram answers at this moment, where it does.
    pub(crate) fn answered(&self, datagram: &Datagram, now: u64) -> Option<Waits>
        ensures answers { IfSome result (λ waits. (self.now.waits ≡ Some waits) × Answers now datagram.now self.now) }
        ensures misses { IfNone result (Misses now datagram.now self.now) }
    {
        let waits = self.waits?;
        if !self.is_by(datagram.socket) || !self.at.is(datagram.peer) || !waits.is_open(now) {
            return None;
        }
        if judge(datagram.bytes.as_slice(), waits.word, self.must_resolve) {
            Some(waits)
        } else {
            None
        }
    }

    /// Whether a socket is the first one of this server, made for its end.
    fn is_by(&self, socket: Socket) -> bool
        ensures { result ≡ is_by socket self.now }
    {
        match socket {
            Socket::Listener(_) => false,
            Socket::Server(server, upstream, at) => {
                upstream == 0 && server.0 == self.server.0 && self.at.is(at)
            }
        }
    }

    /// The place of the server when its next probe is due: where the roster has it in mode auto.
    pub(crate) fn due(&self, roster: &Roster, now: u64) -> Option<Place>
        ensures some { IfSome result (λ place. IsDue roster.now.listed now self.now place) }
        ensures none { IfNone result (IsAsked roster.now.listed now self.now) }
    {
        if self.waits.is_some() || now < self.next {
            return None;
        }
        let place = roster.get(self.server)?;
        match place.mode {
            Mode::Auto => Some(place),
            Mode::Up | Mode::Down => None,
        }
    }

    /// For how long from this moment on its probe is not over, and its next one is not due.
    pub(crate) fn quiet_for(&self, roster: &Roster, now: u64) -> u64
        ensures { IsQuietFor roster.now.listed now result self.now }
    {
        match self.waits {
            Some(waits) => waits.open_for(now),
            None => self.rests_for(roster, now),
        }
    }

    /// For how long from this moment on its next probe is not due. None of a server that is not in mode auto ever is.
    fn rests_for(&self, roster: &Roster, now: u64) -> u64
        ensures { (moment : ℕ) (place : Place) → now ≤ moment → moment < now + result → IsDue roster.now.listed moment self.now place → ⊥ }
    {
        let is_auto = match roster.get(self.server) {
            Some(place) => matches!(place.mode, Mode::Auto),
            None => false,
        };
        if is_auto {
            self.next.saturating_sub(now)
        } else {
            u64::MAX
        }
    }
}
