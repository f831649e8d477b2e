//! The passes of one masked address.

ghost use Rattle.std.specs.Prelude.{◌≡◌, ◌+◌, ◌≤◌, ◌<◌, [], ◌∷◌, ◌++◌, length, map, ℕ, IfOk, OnOk};
ghost use Rattle.std.specs.List.Sorted.{IsNonDecreasing};
ghost use Rattle.circular_buffer.specs.Buffer.{last_item};
ghost use Rattle.lb_limits.specs.Moments.{ends_recent, recent_of};
ghost use Rattle.lb_limits.specs.Buckets.{IsBucket, IsRated, bucket_passes, pass_of};

use crate::moments::{is_recent, recent_count};
use crate::pass::Pass;
use circular_buffer::HeapCircularBuffer;
use lb_wire::Addr;
use std::alloc::{AllocError, Global};

/// How many moments a new bucket has room for.
const FIRST_PLACES: usize = 4;

/// The moments of one masked address, oldest first. Some may no longer count.
#[derive(Debug, Drop)]
pub(crate) struct Bucket {
    pub(crate) source: Addr,
    pub(crate) moments: HeapCircularBuffer<u64>,
}

impl Bucket {
    /// A bucket with no moment, for so many passes a second.
    pub(crate) fn new(alloc: Global, source: Addr, qps: u16) -> Result<Bucket, AllocError>
        ensures source { IfOk result (λ b. b.source ≡ source) }
        ensures moments { IfOk result (λ b. b.moments.items ≡ []) }
        ensures room { IfOk result (λ b. 0 < b.moments.capacity) }
        ensures few { IfOk result (λ b. b.moments.capacity ≤ qps + 1) }
    {
        let places = FIRST_PLACES.min(usize::from(qps) + 1);
        let moments = HeapCircularBuffer::with_capacity(alloc, places)?;
        Ok(Bucket { source, moments })
    }

    /// How many of its moments count.
    pub(crate) fn recent(&self, now: u64) -> usize
        requires { IsNonDecreasing self.now.moments.items }
        ensures count { result ≡ length (recent_of now self.now.moments.items) }
        ensures within { result ≤ length self.now.moments.items }
    {
        // All together they are fewer than 2^63, so the sum below fits.
        let _len = self.moments.len();
        let (front, back) = self.moments.as_slices();
        recent_count(front, now) + recent_count(back, now)
    }

    /// Whether its last moment counts.
    pub(crate) fn ends_recent(&self, now: u64) -> bool
        ensures { result ≡ ends_recent now (last_item self.now.moments.items) }
    {
        match self.moments.back() {
            Some(moment) => is_recent(now, *moment),
            None => false,
        }
    }

    /// Gives up the moments that no longer count.
    fn forget(&mut self, now: u64)
        requires { IsNonDecreasing self.old.moments.items }
        ensures source { self.new.source ≡ self.old.source }
        ensures moments { self.new.moments.items ≡ recent_of now self.old.moments.items }
        ensures places { self.new.moments.capacity ≡ self.old.moments.capacity }
    {
        let recent = self.recent(now);
        self.moments.truncate_front(recent);
    }

    /// Makes more room, one place more than the rate at most.
    fn widen(&mut self, qps: u16) -> Result<(), AllocError>
        requires places { length self.old.moments.items ≤ self.old.moments.capacity }
        requires few { self.old.moments.capacity ≤ qps }
        ensures source { self.new.source ≡ self.old.source }
        ensures moments { self.new.moments.items ≡ self.old.moments.items }
        ensures few { self.new.moments.capacity ≤ qps + 1 }
        ensures more { self.old.moments.capacity ≤ self.new.moments.capacity }
        ensures room { OnOk result (self.old.moments.capacity < self.new.moments.capacity) }
    {
        let places = self.moments.capacity();
        self.moments
            .resize((places * 2 + 1).min(usize::from(qps) + 1))
    }

    /// Where all its places are taken, gives up the moments that no longer count.
    fn trim(&mut self, qps: u16, now: u64)
        requires bucket { IsBucket now self.old }
        requires rated { IsRated qps now self.old }
        ensures source { self.new.source ≡ self.old.source }
        ensures bucket { IsBucket now self.new }
        ensures rated { IsRated qps now self.new }
        ensures few { self.new.moments.capacity ≤ length self.new.moments.items → self.new.moments.capacity ≤ qps }
        ensures same { (later : ℕ) → now ≤ later → recent_of later self.new.moments.items ≡ recent_of later self.old.moments.items }
        ensures more { self.old.moments.capacity + length self.new.moments.items ≤ self.new.moments.capacity + length self.old.moments.items }
    {
        if self.moments.is_full() {
            self.forget(now);
        }
    }

    /// Takes the room for one moment.
    pub(crate) fn make_room(&mut self, qps: u16, now: u64) -> Result<(), AllocError>
        requires bucket { IsBucket now self.old }
        requires rated { IsRated qps now self.old }
        ensures source { self.new.source ≡ self.old.source }
        ensures bucket { IsBucket now self.new }
        ensures rated { IsRated qps now self.new }
        ensures same { (later : ℕ) → now ≤ later → recent_of later self.new.moments.items ≡ recent_of later self.old.moments.items }
        ensures more { self.old.moments.capacity + length self.new.moments.items ≤ self.new.moments.capacity + length self.old.moments.items }
        ensures room { OnOk result (length self.new.moments.items < self.new.moments.capacity) }
    {
        self.trim(qps, now);
        if self.moments.is_full() {
            return self.widen(qps);
        }
        Ok(())
    }

    /// Adds a moment, and returns the one that was the last.
    pub(crate) fn add(&mut self, now: u64) -> Option<u64>
        requires { length self.old.moments.items < self.old.moments.capacity }
        ensures last { result ≡ last_item self.old.moments.items }
        ensures source { self.new.source ≡ self.old.source }
        ensures moments { self.new.moments.items ≡ self.old.moments.items ++ now ∷ [] }
        ensures places { self.new.moments.capacity ≡ self.old.moments.capacity }
    {
        let last = self.moments.back().copied();
        self.moments.push_back(now);
        last
    }

    /// Adds its moments that count to a list of passes.
    pub(crate) fn list(&self, now: u64, passes: &mut Vec<Pass>) -> Result<(), AllocError>
        ensures { OnOk result (passes.new.items ≡ passes.old.items ++ bucket_passes now self.now) }
    {
        let (front, back) = self.moments.as_slices();
        list_moments(self.source, front, now, passes)?;
        list_moments(self.source, back, now, passes)
    }
}

/// Adds the moments that count to a list of passes.
fn list_moments(
    source: Addr,
    moments: &[u64],
    now: u64,
    passes: &mut Vec<Pass>,
) -> Result<(), AllocError>
    ensures { OnOk result (passes.new.items ≡ passes.old.items ++ map (pass_of source) (recent_of now moments.now)) }
{
    for moment in moments {
        if is_recent(now, *moment) {
            passes.push(Pass {
                source,
                moment: *moment,
            })?;
        }
    }
    Ok(())
}
