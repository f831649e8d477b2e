//! The system's moments and random words.

ghost use Rattle.std.specs.Prelude.{[], IfOk, ◌≡◌};

use http_server::Log;
use lb_loops_io::Outside;
use std::io;
use std::random::RandomSource;
use std::time::{Clock, Instant};

/// The octets of a block of words: the most that the system gives in one call.
const BLOCK: usize = 256;

/// The words of a block.
const WORDS: usize = 128;

/// Moments in milliseconds since it was made, by the clock that never goes back, and words from the system's random source, of which it
/// takes 128 at a time.
#[derive(Drop)]
pub struct SystemOutside<'a, R: Clock + RandomSource> {
    rt: &'a R,
    start: Instant,
    block: [u8; BLOCK],
    /// How many words of the block were said.
    used: usize,
    failures: u64,
    said: Log<u64, u16>,
}

impl<'a, R: Clock + RandomSource> SystemOutside<'a, R> {
    /// Moments from 0 on. The one error is the clock's.
    pub fn new(rt: &'a R) -> io::Result<SystemOutside<'a, R>>
        ensures { IfOk result (λ o. (o.said.items ≡ []) × (o.failures ≡ 0)) }
    {
        Ok(SystemOutside::since(rt, Instant::now(rt)?))
    }

    /// Another source, whose moments are counted from the same start; it has its own words.
    pub fn beside(&self) -> SystemOutside<'a, R>
        ensures none { (result.said.items ≡ []) × (result.failures ≡ 0) }
        ensures start { result.start ≡ self.now.start }
    {
        SystemOutside::since(self.rt, self.start)
    }

    fn since(rt: &'a R, start: Instant) -> SystemOutside<'a, R>
        ensures none { (result.said.items ≡ []) × (result.failures ≡ 0) }
        ensures start { result.start ≡ start }
    {
        SystemOutside {
            rt,
            start,
            block: [0; BLOCK],
            used: WORDS,
            failures: 0,
            said: Log::new(),
        }
    }

    /// How often the clock or the source of words failed (up to 2^64-1, where the count stays).
    pub fn failures(&self) -> u64
        ensures { result ≡ self.now.failures }
    {
        self.failures
    }

    /// The milliseconds since the start.
    fn moment(&self) -> io::Result<u64> {
        let past = self.start.elapsed(self.rt)?.as_millis();
        Ok(u64::try_from(past).unwrap_or(u64::MAX))
    }

    /// The next word of the block. A block that was used up is filled anew first; where that fails, the next word asks for it again.
    fn word(&mut self) -> io::Result<u16>
        ensures { (self.new.said ≡ self.old.said) × (self.new.failures ≡ self.old.failures) }
    {
        if self.used >= WORDS {
            self.rt.fill_bytes(&mut self.block)?;
            self.used = 0;
        }
        let at = self.used * 2;
        let word = u16::from_be_bytes([self.block[at], self.block[at + 1]]);
        self.used += 1;
        Ok(word)
    }

    /// A moment and a word, of which nothing is told yet.
    fn stamp(&mut self) -> io::Result<(u64, u16)>
        ensures { (self.new.said ≡ self.old.said) × (self.new.failures ≡ self.old.failures) }
    {
        let now = self.moment()?;
        let word = self.word()?;
        Ok((now, word))
    }
}

impl<R: Clock + RandomSource> Outside for SystemOutside<'_, R> {
    ghost said = { λ o. o.said.items };

    ghost failures = { λ o. o.failures };

    fn ask(&mut self) -> Option<(u64, u16)> {
        match self.stamp() {
            Ok((now, word)) => {
                self.said = self.said.and(&now, &word);
                Some((now, word))
            }
            Err(_) => {
                self.failures = self.failures.saturating_add(1);
                None
            }
        }
    }
}
