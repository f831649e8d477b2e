//! Limiters.

ghost use Rattle.std.specs.Prelude.{◌≡◌, ◌≤◌, ◌&&◌, ◌||◌, ◌==◌, nat_le, Contains, IfOk, OnErr, OnOk, false, length};
ghost use Rattle.lb_limits.specs.Ticks.{IsTally, live_at};
ghost use Rattle.lb_limits.specs.Window.{ArePasses, source_of, limits_of, matches, max_live, passed_at, reserved_at};

use crate::boxed::Boxed;
use crate::buckets;
use crate::pass::Pass;
use crate::reserved::put_key;
use crate::ticks::Ticks;
use lb_masks::masked;
use lb_wire::Addr;
use std::alloc::{AllocError, Global};
use std::marker::Model;

/// A limiter: it counts the queries of each masked address within the last 1,000 milliseconds. A query is counted in
/// two steps: `reserve` takes the memory, and `pass` counts it.
#[derive(Debug, Drop)]
pub struct Limiter {
    qps: u16,
    v4: u8,
    v6: u8,
    // In milliseconds: the latest that it was given.
    moment: u64,
    // In the order of addresses. What no longer counts may still stand there; the view leaves it out.
    buckets: Vec<Boxed>,
    // The last moments of all addresses, so that no walk over the buckets is needed to count the live ones.
    ticks: Ticks,
    // Masked, each once; each has room for one pass more.
    reserved: Vec<Addr>,
    // The place to look from for addresses that are no longer live.
    cursor: usize,
}

impl Model for Limiter {
    ghost use Rattle.lb_limits.specs.Window.{Limits};
    ghost use Rattle.lb_limits.specs.Buckets.{held_at};
    ghost use Rattle.lb_limits.specs.Limiter.{IsLimiter};

    ghost Value = { Limits };

    ghost view = { λ l. record { qps = l.qps; v4 = l.v4; v6 = l.v6; moment = l.moment; passes = held_at l.moment l.buckets.items; reserved = l.reserved.items } };

    ghost invariant = { λ l. IsLimiter l.qps l.v4 l.v6 l.moment l.buckets.items l.ticks l.reserved.items };
}

/// Where so many other addresses have passes that count, one that has none matches.
const MAX_LIVE: u32 = 4096;

/// Whether an address with so many passes that count is over the rate. The others are counted only where it has none.
fn is_over(qps: u16, count: usize, ticks: &Ticks, now: u64) -> bool
    requires { IsTally ticks.now }
    ensures { result ≡ (nat_le qps count || (count == 0 && nat_le max_live (live_at now ticks.now.list.items))) }
{
    count >= usize::from(qps) || count == 0 && ticks.live(now) >= MAX_LIVE
}

impl Limiter {
    /// A limiter that has counted nothing, for so many queries a second from addresses with as many first bits in common.
    pub fn new(alloc: Global, qps: u16, v4: u8, v6: u8) -> Result<Limiter, AllocError>
        requires some { 1 ≤ qps }
        requires few { qps ≤ 1000 }
        requires v4 { v4 ≤ 32 }
        requires v6 { v6 ≤ 128 }
        ensures { IfOk result (λ limiter. limiter ≡ limits_of qps v4 v6) }
    {
        Ok(Limiter {
            qps,
            v4,
            v6,
            moment: 0,
            buckets: Vec::new(alloc),
            ticks: Ticks::new(alloc),
            reserved: Vec::new(alloc),
            cursor: 0,
        })
    }

    /// Whether a query that comes now, in milliseconds, is over the rate.
    pub fn would_match(&self, addr: &Addr, now: u64) -> bool
        requires { self.now.moment ≤ now }
        ensures { result ≡ matches self.now addr.now now }
    {
        let key = masked(*addr, self.v4, self.v6);
        let count = buckets::window_count(&key, now, self.buckets.as_slice());
        is_over(self.qps, count, &self.ticks, now)
    }

    /// Takes the memory for one query of the address, and gives up the passes that no longer count.
    pub fn reserve(&mut self, addr: &Addr, now: u64) -> Result<(), AllocError>
        requires { self.old.moment ≤ now }
        ensures ok { OnOk result (self.new ≡ reserved_at self.old addr.now now) }
        ensures reserved { OnOk result (Contains self.new.reserved (source_of self.new addr.now)) }
        ensures err { OnErr result (self.new ≡ self.old) }
    {
        let reserved = self.reserved.as_slice();
        self.cursor = buckets::give_up(&mut self.buckets, self.cursor, reserved, self.moment);
        let key = masked(*addr, self.v4, self.v6);
        self.ticks.make_room()?;
        buckets::make_room(&mut self.buckets, key, self.qps, self.moment)?;
        put_key(&mut self.reserved, key)?;
        self.moment = now;
        Ok(())
    }

    /// Counts a query. It takes no memory.
    pub fn pass(&mut self, addr: &Addr, now: u64)
        requires moment { self.old.moment ≤ now }
        requires reserved { Contains self.old.reserved (source_of self.old addr.now) }
        requires within { matches self.old addr.now now ≡ false }
        ensures { self.new ≡ passed_at self.old addr.now now }
    {
        let key = masked(*addr, self.v4, self.v6);
        let last = buckets::add_pass(&mut self.buckets, &key, now);
        self.ticks.pass(last, now);
        self.reserved.clear();
        buckets::sweep_many(&mut self.buckets, self.reserved.as_slice(), now);
        self.moment = now;
    }

    /// How many passes it holds; some may no longer count.
    pub fn len(&self) -> usize
        ensures { result ≡ length self.now.passes }
    {
        buckets::count(self.buckets.as_slice(), self.moment)
    }

    /// A law: the passes that it holds are by source, IPv4 first and then by octets, and then by moment; each counts at the
    /// latest moment that it was given; and no address has more of them than the rate. It does nothing.
    pub fn law_of_list(&self)
        ensures { ArePasses self.now }
    {
        // Read, so that what the limiter keeps true is at hand.
        let _moment = self.moment;
    }

    /// The passes that it holds, in the order of `law_of_list`. The one error is lack of memory.
    pub fn list(&self, alloc: Global) -> Result<Vec<Pass>, AllocError>
        ensures { IfOk result (λ list. list.items ≡ self.now.passes) }
    {
        buckets::list(alloc, self.buckets.as_slice(), self.moment)
    }
}
