//! A bucket in memory of its own, so that a list of many buckets is moved as quickly as one of numbers.

ghost use Rattle.std.specs.Prelude.{◌≡◌, ◌+◌, ◌≤◌, ◌<◌, [], ◌∷◌, ◌++◌, length, ℕ, IfOk, OnOk};
ghost use Rattle.std.specs.List.Sorted.{IsNonDecreasing};
ghost use Rattle.circular_buffer.specs.Buffer.{last_item};
ghost use Rattle.lb_limits.specs.Moments.{ends_recent, recent_of};
ghost use Rattle.lb_limits.specs.Buckets.{IsBucket, IsRated, bucket_passes};

use crate::bucket::Bucket;
use crate::pass::Pass;
use lb_wire::Addr;
use std::alloc::{AllocError, Global};
use std::marker::Model;

/// A bucket. Each call is the one of `Bucket`.
#[derive(Debug, Drop)]
pub(crate) struct Boxed {
    bucket: Box<Bucket>,
}

impl Model for Boxed {
    ghost use Rattle.lb_limits.specs.declared.bucket.Bucket.{Bucket};

    ghost Value = { Bucket };

    ghost view = { λ b. b.bucket.value };
}

impl Boxed {
    /// A bucket with no moment, for so many passes a second.
    pub(crate) fn new(alloc: Global, source: Addr, qps: u16) -> Result<Boxed, AllocError>
        ensures source { IfOk result (λ b. b.source ≡ source) }
        ensures moments { IfOk result (λ b. b.moments.items ≡ []) }
        ensures room { IfOk result (λ b. 0 < b.moments.capacity) }
        ensures few { IfOk result (λ b. b.moments.capacity ≤ qps + 1) }
    {
        let bucket = Box::new(alloc, Bucket::new(alloc, source, qps)?)?;
        Ok(Boxed { bucket })
    }

    /// Its masked address.
    pub(crate) fn source(&self) -> &Addr
        ensures { result.now ≡ self.now.source }
    {
        &self.bucket.source
    }

    /// How many of its moments count.
    pub(crate) fn recent(&self, now: u64) -> usize
        requires { IsNonDecreasing self.now.moments.items }
        ensures count { result ≡ length (recent_of now self.now.moments.items) }
        ensures within { result ≤ length self.now.moments.items }
    {
        self.bucket.recent(now)
    }

    /// Whether its last moment counts.
    pub(crate) fn ends_recent(&self, now: u64) -> bool
        ensures { result ≡ ends_recent now (last_item self.now.moments.items) }
    {
        self.bucket.ends_recent(now)
    }

    /// Takes the room for one moment.
    pub(crate) fn make_room(&mut self, qps: u16, now: u64) -> Result<(), AllocError>
        requires bucket { IsBucket now self.old }
        requires rated { IsRated qps now self.old }
        ensures source { self.new.source ≡ self.old.source }
        ensures bucket { IsBucket now self.new }
        ensures rated { IsRated qps now self.new }
        ensures same { (later : ℕ) → now ≤ later → recent_of later self.new.moments.items ≡ recent_of later self.old.moments.items }
        ensures more { self.old.moments.capacity + length self.new.moments.items ≤ self.new.moments.capacity + length self.old.moments.items }
        ensures room { OnOk result (length self.new.moments.items < self.new.moments.capacity) }
    {
        self.bucket.make_room(qps, now)
    }

    /// Adds a moment, and returns the one that was the last.
    pub(crate) fn add(&mut self, now: u64) -> Option<u64>
        requires { length self.old.moments.items < self.old.moments.capacity }
        ensures last { result ≡ last_item self.old.moments.items }
        ensures source { self.new.source ≡ self.old.source }
        ensures moments { self.new.moments.items ≡ self.old.moments.items ++ now ∷ [] }
        ensures places { self.new.moments.capacity ≡ self.old.moments.capacity }
    {
        self.bucket.add(now)
    }

    /// Adds its moments that count to a list of passes.
    pub(crate) fn list(&self, now: u64, passes: &mut Vec<Pass>) -> Result<(), AllocError>
        ensures { OnOk result (passes.new.items ≡ passes.old.items ++ bucket_passes now self.now) }
    {
        self.bucket.list(now, passes)
    }
}
