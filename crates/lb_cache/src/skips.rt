//! The codes of the EDNS options that a cache's keys leave out.

ghost use Rattle.std.specs.Prelude.{◌≡◌, ◌+◌, ◌<◌, ◌≤◌, [], ◌∷◌, IsTrue, length};
ghost use Rattle.lb_cache.specs.Skips.{added, cookie, each_once};

use arrayvec::ArrayVec;
use std::marker::Model;

/// The most codes that a cache lists.
pub const MAX_SKIPS: usize = 16;

/// The option Cookie (RFC 7873 section 4).
const COOKIE: u16 = 10;

/// The codes of the EDNS options that a cache's keys leave out: 16 at most, each once, in the order
/// written. A contract sees it as the list of them.
#[derive(Debug, Drop)]
pub struct Skips {
    codes: ArrayVec<u16, MAX_SKIPS>,
}

impl Model for Skips {
    ghost use Rattle.std.specs.Prelude.{List, ℕ};

    ghost Value = { List ℕ };

    ghost view = { λ s. s.codes.items };
}

impl Skips {
    /// No code.
    pub fn none() -> Skips
        ensures { result ≡ [] }
    {
        Skips {
            codes: ArrayVec::new(),
        }
    }

    /// Cookie alone: the list of a cache for which none is stated.
    pub fn cookie() -> Skips
        ensures { result ≡ cookie }
    {
        let mut skips = Skips::none();
        skips.add(COOKIE);
        skips
    }

    /// Sixteen codes at most, in the order written. One that is repeated stands at its first place.
    pub fn from_codes(codes: &[u16]) -> Skips
        requires { length codes.now ≤ 16 }
        ensures { result ≡ each_once codes.now }
    {
        let mut skips = Skips::none();
        for code in codes {
            skips.add(*code);
        }
        skips
    }

    /// Adds a code after the others, unless it is listed already.
    fn add(&mut self, code: u16)
        requires { length self.old < 16 }
        ensures list { self.new ≡ added code self.old }
        ensures few { length self.new ≤ length self.old + 1 }
    {
        if !self.as_slice().contains(&code) {
            self.codes.push(code);
        }
    }

    /// The codes.
    pub fn as_slice(&self) -> &[u16]
        ensures codes { result.now ≡ self.now }
        ensures few { length result.now ≤ 16 }
    {
        self.codes.as_slice()
    }

    /// An equal value. It takes no memory.
    pub fn copy(&self) -> Skips
        ensures { result ≡ self.now }
    {
        let mut codes: ArrayVec<u16, MAX_SKIPS> = ArrayVec::new();
        match codes.try_extend_from_slice(self.as_slice()) {
            Ok(()) => Skips { codes },
            Err(_) => unreachable!(),
        }
    }

    /// Whether two lists are equal.
    pub fn equals(&self, other: &Skips) -> bool
        ensures equal { IsTrue result → self.now ≡ other.now }
        ensures found { self.now ≡ other.now → IsTrue result }
    {
        self.as_slice() == other.as_slice()
    }
}
