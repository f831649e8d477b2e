//! Whether a query may be outstanding.

ghost use Rattle.std.specs.Prelude.{filter, length, ◌≡◌};
ghost use Rattle.lb_loops.specs.LastSent.{is_over, is_sent_on, is_within};

use lb_core::Answer;
use lb_loops_io::{KEPT_AFTER_QUERY, Line, Outcome};
use lb_outbox::Job;
use std::sync::atomic::{AtomicBool, AtomicU64, Ordering};

/// For how long after the last query that was sent on the clock looks for queries that are due, in
/// milliseconds, if each is known to be over: a server that is asked ten times a second and more is
/// not worth a rest between. If not, it looks for `KEPT_AFTER_QUERY`.
const FRESH: u64 = 100;

/// How many queries were sent on and how many are over, and when one was last sent on, so that the
/// clock may rest while none can be outstanding. The loops that send queries on note it here; the
/// clock looks.
#[derive(Debug, Drop)]
pub(crate) struct LastSent {
    sent: AtomicU64,
    over: AtomicU64,
    /// Whether a query was sent on since the clock looked last.
    is_new: AtomicBool,
    /// The moment in milliseconds, and one, at which the clock last saw that; 0 where it never did.
    seen: AtomicU64,
    /// Whether the clock rests, or is about to.
    rests: AtomicBool,
}

impl LastSent {
    /// No query was sent on.
    pub(crate) fn none() -> LastSent {
        LastSent {
            sent: AtomicU64::new(0),
            over: AtomicU64::new(0),
            is_new: AtomicBool::new(false),
            seen: AtomicU64::new(0),
            rests: AtomicBool::new(false),
        }
    }

    /// Notes what the lines of a turn say, and reports whether the clock is to be woken: a query
    /// was sent on while it rests.
    pub(crate) fn note(&self, lines: &[Line]) -> bool {
        let (sent, over) = counts(lines);
        if over > 0 {
            self.over.fetch_add(over as u64, Ordering::SeqCst);
        }
        if sent == 0 {
            return false;
        }
        self.sent.fetch_add(sent as u64, Ordering::SeqCst);
        self.is_new.store(true, Ordering::SeqCst);
        self.rests.load(Ordering::SeqCst)
    }

    /// Whether the clock may rest from this moment on, as no query can be outstanding. That it
    /// rests is told before it is looked once more whether a query was sent on: who sends one on
    /// notes that before it looks whether the clock rests.
    pub(crate) fn may_rest(&self, moment: u64) -> bool {
        if self.is_new.swap(false, Ordering::SeqCst) {
            self.seen.store(moment.saturating_add(1), Ordering::SeqCst);
        }
        let sent = self.sent.load(Ordering::SeqCst);
        let span = if self.over.load(Ordering::SeqCst) >= sent {
            FRESH
        } else {
            KEPT_AFTER_QUERY
        };
        let may_rest = !is_within(self.seen.load(Ordering::SeqCst), moment, span);
        if may_rest {
            // A query of the HTTP front that found the outbox full is over and was never noted; one
            // that was noted may be over unseen.
            self.over.store(sent, Ordering::SeqCst);
        }
        self.rests.store(may_rest, Ordering::SeqCst);
        may_rest && !self.is_new.load(Ordering::SeqCst)
    }
}

/// Whether a query was sent on, by the stamp of its moment, and less than so many milliseconds
/// before another moment.
fn is_within(stamp: u64, moment: u64, span: u64) -> bool
    ensures { result ≡ is_within stamp moment span }
{
    stamp != 0 && moment.saturating_sub(stamp) < span
}

/// How many queries were sent on by these lines, and how many are over by them.
fn counts(lines: &[Line]) -> (usize, usize)
    ensures sent { result.0 ≡ length (filter is_sent_on lines.now) }
    ensures over { result.1 ≡ length (filter is_over lines.now) }
{
    let (mut sent, mut over) = (0, 0);
    for line in lines {
        if is_sent_on(line) {
            sent += 1;
        }
        if is_over(line) {
            over += 1;
        }
    }
    (sent, over)
}

/// Whether a query was sent on by a line: it was answered so, or came as a job of another loop.
fn is_sent_on(line: &Line) -> bool
    ensures { result ≡ is_sent_on line.now }
{
    match line {
        Line::Event(_, _, Outcome::Answered(Answer::Forward(..)), _) => true,
        Line::Job(Job::ToServer(..), _) => true,
        _ => false,
    }
}

/// Whether a query is over by a line: its client was answered, or it was given up.
fn is_over(line: &Line) -> bool
    ensures { result ≡ is_over line.now }
{
    matches!(
        line,
        Line::Event(
            _,
            _,
            Outcome::Answered(Answer::Deliver(..) | Answer::Expired(..)),
            _
        )
    )
}
