//! Sentences on standard error while it serves.

use crate::hears::Hears;
use crate::operator::Operator;
use lb_loops::Outside;
use libc;
use libc::types::pollfd;
use std::alloc::{AllocError, Global};
use std::io;
use std::time::{Clock, Duration, Instant};

/// The descriptor of standard error.
const STANDARD_ERROR: i32 = 2;

/// The most sentences in a second.
const MOST: u32 = 10;

/// The most bytes of a sentence, with its line feed.
const LONGEST: usize = 512;

/// How long it takes to the next look, in milliseconds.
const EACH: u64 = 1_000;

/// What is said while it serves: what a look at the desk shows each second, and what the console
/// carries out. A standard error that takes nothing holds nobody up: what it does not take at once
/// is counted, and left out.
#[derive(Debug, Drop)]
pub(crate) struct Notices {
    alloc: Global,
    /// When it last looked.
    looked: Option<Instant>,
    /// How many sentences were said since then, and how many were left out.
    said: u32,
    left_out: u64,
}

impl Notices {
    /// Nothing was said yet. It takes no memory.
    pub(crate) fn new(alloc: Global) -> Notices {
        Notices {
            alloc,
            looked: None,
            said: 0,
            left_out: 0,
        }
    }

    /// How long it is to the next look.
    pub(crate) fn left<R: Clock>(&self, rt: &R) -> io::Result<Duration> {
        let each = Duration::from_millis(EACH);
        match &self.looked {
            Some(looked) => Ok(each.saturating_sub(looked.elapsed(rt)?)),
            None => Ok(Duration::from_millis(0)),
        }
    }

    /// Looks, if it is time, and says what changed.
    pub(crate) fn look<R: Clock, T: Hears, O: Outside>(
        &mut self,
        rt: &R,
        operator: &mut Operator<T, O>,
    ) -> io::Result<()> {
        if !self.left(rt)?.is_zero() {
            return Ok(());
        }
        self.looked = Some(Instant::now(rt)?);
        self.said = 0;
        // If memory is refused, the next look says what is left.
        match self.say_changes(operator) {
            Ok(()) => {}
            Err(refused) => self.leave_out(refused),
        }
        Ok(())
    }

    /// Says how many sentences were left out, and what changed. The one error is lack of memory.
    fn say_changes<T: Hears, O: Outside>(
        &mut self,
        operator: &mut Operator<T, O>,
    ) -> Result<(), AllocError> {
        let left_out = self.left_out;
        if left_out > 0 && takes() {
            let words = format!(in self.alloc; "sentences left out: {left_out}")?;
            self.left_out = 0;
            self.say(words.as_str());
        }
        for words in &operator.changes()? {
            self.say(words.as_str());
        }
        Ok(())
    }

    /// Says a sentence, if standard error takes it now.
    pub(crate) fn say(&mut self, words: &str) {
        if self.said >= MOST || !takes() {
            self.left_out = self.left_out.saturating_add(1);
            return;
        }
        match self.line(words) {
            Ok(line) => {
                let _ = libc::write(STANDARD_ERROR, line.as_slice());
                self.said = self.said.saturating_add(1);
            }
            Err(refused) => self.leave_out(refused),
        }
    }

    /// Leaves a sentence out for which memory was refused.
    fn leave_out(&mut self, _refused: AllocError) {
        self.left_out = self.left_out.saturating_add(1);
    }

    /// A sentence with its line feed, cut where it would be too long.
    fn line(&self, words: &str) -> Result<Vec<u8>, AllocError> {
        let line = format!(in self.alloc; "lb: {words}")?;
        let mut bytes = line.into_bytes();
        bytes.truncate(LONGEST - 1);
        bytes.push(b'\n')?;
        Ok(bytes)
    }
}

/// Says a sentence when nothing is served any more, if standard error takes it and there is memory
/// for it.
pub(crate) fn say_last(alloc: Global, words: &str) {
    Notices::new(alloc).say(words);
}

/// Whether standard error takes a sentence now.
fn takes() -> bool {
    let mut asked = [pollfd {
        fd: STANDARD_ERROR,
        events: libc::net::POLLOUT,
        revents: 0,
    }];
    libc::net::poll(&mut asked, 0) == 1 && asked[0].revents == libc::net::POLLOUT
}
