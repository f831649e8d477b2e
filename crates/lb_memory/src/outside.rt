//! Moments and random words in memory.

ghost use Rattle.std.specs.Prelude.{◌≡◌};

use http_server::Log;
use lb_loops_io::Outside;
use std::sync::{Arc, Mutex, Wait};

/// What a test and a source of moments share.
#[derive(Clone, Copy, Debug, Drop)]
pub struct Moments {
    /// The next moment, in milliseconds.
    pub now: u64,
    /// How much later each further one is.
    pub step: u64,
    /// The next word. Each further one is one more.
    pub word: u16,
    /// The ask of this number, counted from 1, fails; 0 is none.
    pub failing: u64,
    /// How often was asked.
    asks: u64,
}

impl Moments {
    /// Moments from this one on, each so much later than the one before, and words from this one on. The ask of this number fails; 0 is none.
    pub fn new(now: u64, step: u64, word: u16, failing: u64) -> Moments {
        Moments {
            now,
            step,
            word,
            failing,
            asks: 0,
        }
    }

    /// The next moment and word, or none where the ask fails.
    fn next(&mut self) -> Option<(u64, u16)> {
        self.asks = self.asks.wrapping_add(1);
        if self.asks == self.failing {
            return None;
        }
        let next = (self.now, self.word);
        self.now = self.now.saturating_add(self.step);
        self.word = self.word.wrapping_add(1);
        Some(next)
    }
}

/// A source of moments and words in memory.
#[derive(Drop)]
pub struct MemoryOutside<'a, R: Wait> {
    rt: &'a R,
    moments: Arc<Mutex<Moments>>,
    failures: u64,
    said: Log<u64, u16>,
}

impl<'a, R: Wait> MemoryOutside<'a, R> {
    /// Says what these moments are.
    pub fn new(rt: &'a R, moments: Arc<Mutex<Moments>>) -> MemoryOutside<'a, R> {
        MemoryOutside {
            rt,
            moments,
            failures: 0,
            said: Log::new(),
        }
    }
}

impl<R: Wait> Outside for MemoryOutside<'_, R> {
    ghost said = { λ o. o.said.items };

    ghost failures = { λ o. o.failures };

    #[inline(always)]
    fn ask(&mut self) -> Option<(u64, u16)> {
        let next = self.moments.lock(self.rt).next();
        match next {
            Some((now, word)) => {
                self.said = self.said.and(&now, &word);
                Some((now, word))
            }
            None => {
                self.failures = self.failures.saturating_add(1);
                None
            }
        }
    }
}
