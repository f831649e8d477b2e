//! What the loops share.

ghost use Rattle.std.specs.Prelude.{◌≡◌, ◌≤◌};
ghost use Rattle.lb_loops.specs.Fault.{end_behind};

use crate::fault::{LoopFault, ends};
use crate::last_sent::LastSent;
use lb_loops_clock::ClockLoop;
use lb_loops_io::{Datagrams, Outside, Posts, Report, Roster, Taker, Waker};
use lb_sends::Sends;
use std::sync::atomic::{AtomicBool, Ordering};
use std::sync::{Arc, Mutex, Wait};

/// How long the clock waits while a query may be outstanding, in milliseconds.
const TICK: u64 = 10;

/// How long it waits at most while none can be, in milliseconds.
const REST: u64 = 1_000;

/// What the loops share: where servers are, the gate, the flag that ends them, whether a query may
/// be outstanding, the counts of failed sends and of probes, and what wakes each.
#[derive(Drop)]
pub(crate) struct Around<G, W: Waker> {
    pub(crate) roster: Arc<Mutex<Roster>>,
    pub(crate) gate: G,
    pub(crate) stop: Arc<AtomicBool>,
    pub(crate) sent: LastSent,
    pub(crate) sends: Arc<Sends>,
    pub(crate) datagrams: Vec<W>,
    pub(crate) streams: W,
    pub(crate) clock: W,
}

impl<G, W: Waker> Around<G, W> {
    /// Whether the loops are to end.
    pub(crate) fn is_over(&self) -> bool {
        self.stop.load(Ordering::SeqCst)
    }

    /// Ends all loops: the flag first, and then each that waits is woken.
    pub(crate) fn end(&self) {
        self.stop.store(true, Ordering::SeqCst);
        for waker in self.datagrams.iter() {
            waker.wake();
        }
        self.streams.wake();
        self.clock.wake();
    }

    /// Copies where servers are, if that was changed. The lock is let go before a turn begins.
    pub(crate) fn follow<R: Wait>(&self, rt: &R, copy: &mut Roster) {
        let roster = self.roster.lock(rt);
        if roster.version() != copy.version() {
            copy.copy_from(&roster);
        }
    }

    /// Whether a loop goes on after a turn. Its queries that were sent on and that are over are
    /// noted, and its failed sends and probes are counted. If one was sent on, a clock that rests
    /// is woken, so that the query's end is not reported late.
    pub(crate) fn behind(&self, report: &Report) -> Result<(), LoopFault>
        ensures { result ≡ end_behind report.now.is_held report.now.device }
    {
        let goes_on = ends(report);
        self.sends.note(&report.lines);
        if self.sent.note(&report.lines) {
            self.clock.wake();
        }
        goes_on
    }

    /// How long the clock waits after a turn with a tick at a moment, in milliseconds: 10 while a
    /// query may be outstanding. Otherwise until something of its probes is due or over, between 10
    /// and 1,000.
    pub(crate) fn patience<S: Datagrams, P: Posts, T: Taker, O: Outside>(
        &self,
        part: &ClockLoop<S, P, T, O>,
        roster: &Roster,
        ticked: Option<u64>,
    ) -> u64
        ensures { (10 ≤ result) × (result ≤ 1000) }
    {
        match ticked {
            Some(now) if self.sent.may_rest(now) => part.quiet_for(roster, now, REST).max(TICK),
            _ => TICK,
        }
    }
}
