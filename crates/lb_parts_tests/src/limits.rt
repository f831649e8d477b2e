//! Limiters, by values worked out by hand: what they list, and what they keep of many queries.

use super::rows::held;
use lb_limits::{Limiter, Pass};
use lb_wire::Addr;
use std::alloc::{AllocError, Global};
use std::marker::Model;
use std::test::Fail;

const ONE: Addr = Addr::V4([192, 0, 2, 1]);

const LOW: Addr = Addr::V4([10, 255, 0, 0]);

const SIX: Addr = Addr::V6([0; 16]);

/// A limiter and the latest moment that it was told; an earlier one counts as that.
#[derive(Drop)]
struct Clock {
    limiter: Limiter,
    now: u64,
}

impl Model for Clock {
    ghost use Rattle.std.specs.Prelude.{ℕ, ◌≤◌};

    ghost Value = { ℕ };

    ghost view = { λ c. c.now };

    ghost invariant = { λ c. c.limiter.moment ≤ c.now };
}

/// A new limiter of so many queries a second, of addresses with so many first bits in common.
fn limiter(alloc: Global, qps: u16, v4: u8, v6: u8) -> Result<Clock, Fail> {
    if qps < 1 || qps > 1000 || v4 > 32 || v6 > 128 {
        return Err(Fail::from("no such rate"));
    }
    let limiter = Limiter::new(alloc, qps, v4, v6)?;
    Ok(Clock { limiter, now: 0 })
}

impl Clock {
    /// Counts a query where it does not match, and tells whether it does.
    fn comes(&mut self, addr: &Addr, now: u64) -> Result<bool, AllocError> {
        let now = if now < self.now { self.now } else { now };
        self.limiter.reserve(addr, now)?;
        self.now = now;
        let over = self.limiter.would_match(addr, now);
        if !over {
            self.limiter.pass(addr, now);
        }
        Ok(over)
    }
}

/// The source and the moment of queries, for a rate of 2 of IPv4 addresses with 24 bits in common.
const QUERIES: &[(Addr, u64)] = &[
    (ONE, 1000),
    (SIX, 1400),
    (ONE, 1500),
    // over the rate; a millisecond later the pass at 1,000 is out
    (ONE, 1999),
    (ONE, 2000),
    (LOW, 2001),
];

/// The list of their passes: by source, IPv4 first, and then by moment.
const PASSES: &[Pass] = &[
    Pass {
        source: LOW,
        moment: 2001,
    },
    Pass {
        source: Addr::V4([192, 0, 2, 0]),
        moment: 1500,
    },
    Pass {
        source: Addr::V4([192, 0, 2, 0]),
        moment: 2000,
    },
    Pass {
        source: SIX,
        moment: 1400,
    },
];

/// Whether these are the passes that a limiter lists, in order.
fn lists(alloc: Global, clock: &Clock, passes: &[Pass]) -> Result<bool, AllocError> {
    let limiter = &clock.limiter;
    let list = limiter.list(alloc).or_else(|_refused| limiter.list(alloc))?;
    Ok(list.as_slice() == passes && clock.limiter.len() == passes.len())
}

#[test]
fn windows_and_lists(rt: HostRuntime) -> Result<(), Fail> {
    let mut clock = limiter(rt.alloc(), 2, 24, 128)?;
    for (source, now) in QUERIES {
        let _over = clock.comes(source, *now)?;
    }
    held(0, lists(rt.alloc(), &clock, PASSES)?)
}

/// How many of so many queries match that come from an address each, four a millisecond.
fn over_of_fresh(clock: &mut Clock, queries: u32) -> Result<u32, AllocError> {
    let mut over = 0u32;
    for query in 0..queries {
        // An odd factor, so that each number comes once.
        let number = query.wrapping_mul(2_654_435_761);
        let source = Addr::V4(number.to_be_bytes());
        over = over.saturating_add(u32::from(clock.comes(&source, u64::from(query / 4))?));
    }
    Ok(over)
}

/// A million addresses in 250 seconds: those that are out leave room, and the test ends in time
/// only if what is kept of them is given up.
#[test]
fn fresh_addresses_leave_little_behind(rt: HostRuntime) -> Result<(), Fail> {
    let mut clock = limiter(rt.alloc(), 1, 32, 128)?;
    let over = over_of_fresh(&mut clock, 1_000_000)?;
    held(0, over == 0 && clock.limiter.len() == 4000)
}
