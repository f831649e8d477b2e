//! The buckets of all addresses, in the order of addresses.

ghost use Rattle.std.specs.Prelude.{◌≡◌, ◌+◌, ◌≤◌, ◌<◌, ◌^◌, ℕ, true, false, cond, drop, length, IfOk, IfSome, OnOk};
ghost use Rattle.std.specs.List.{All, list_any};
ghost use Rattle.lb_wire.specs.declared.addr.Addr.{Addr};
ghost use Rattle.lb_limits.specs.Order.{same_addr};
ghost use Rattle.lb_limits.specs.Window.{max_live, put_pass};
ghost use Rattle.lb_limits.specs.Moments.{is_recent, ends_recent};
ghost use Rattle.lb_limits.specs.Buckets.{Ascends, IsHeld, IsIdleAt, IsPlace, IsRated, Keeps, Leaves, begins, free_of, held_at, live_count, many, pass_of, stays, window_count};

use crate::boxed::Boxed;
use crate::order::{is_below, same_addr};
use crate::pass::Pass;
use crate::reserved::has_addr;
use lb_wire::Addr;
use std::alloc::{AllocError, Global};

/// Where there are more buckets than this beside those that are reserved, all that are neither live nor reserved are
/// given up.
const MANY: usize = 8192;

/// At how many buckets a reservation looks whether they are still needed.
const LOOKS: usize = 8;

/// The place of a masked address.
fn place_of(key: &Addr, buckets: &[Boxed]) -> usize
    requires { Ascends buckets.now }
    ensures { IsPlace key.now result buckets.now }
{
    buckets.partition_point(|bucket| is_below(key, bucket.source()))
}

/// Whether the bucket at a place is that of a masked address.
fn is_at(key: &Addr, place: usize, buckets: &[Boxed]) -> bool
    ensures found { result ≡ begins key.now (drop place buckets.now) }
    ensures within { result ≡ true → place < length buckets.now }
{
    match buckets.get(place) {
        Some(bucket) => same_addr(key, bucket.source()),
        None => false,
    }
}

/// How many passes of a masked address count.
pub(crate) fn window_count(key: &Addr, now: u64, buckets: &[Boxed]) -> usize
    requires { IsHeld now buckets.now }
    ensures { result ≡ window_count key.now now buckets.now }
{
    let place = place_of(key, buckets);
    if is_at(key, place, buckets) {
        buckets[place].recent(now)
    } else {
        0
    }
}

/// Puts an empty bucket at the place of a masked address that has none.
fn open(
    buckets: &mut Vec<Boxed>,
    place: usize,
    key: Addr,
    qps: u16,
    moment: u64,
) -> Result<(), AllocError>
    requires held { IsHeld moment buckets.old.items }
    requires rated { All (IsRated qps moment) buckets.old.items }
    requires place { IsPlace key place buckets.old.items }
    requires new { begins key (drop place buckets.old.items) ≡ false }
    ensures keeps { Keeps moment buckets.old.items buckets.new.items }
    ensures rated { All (IsRated qps moment) buckets.new.items }
    ensures few { length buckets.new.items ≤ length buckets.old.items + 1 }
    ensures rooms { (other : Addr) → 0 < free_of other buckets.old.items → 0 < free_of other buckets.new.items }
    ensures room { OnOk result (0 < free_of key buckets.new.items) }
{
    let bucket = Boxed::new(*buckets.allocator(), key, qps)?;
    buckets.insert(place, bucket)?;
    Ok(())
}

/// Takes the room for one moment in the bucket of a masked address.
fn widen(
    buckets: &mut Vec<Boxed>,
    place: usize,
    key: &Addr,
    qps: u16,
    moment: u64,
) -> Result<(), AllocError>
    requires held { IsHeld moment buckets.old.items }
    requires rated { All (IsRated qps moment) buckets.old.items }
    requires place { IsPlace key.now place buckets.old.items }
    requires within { place < length buckets.old.items }
    requires found { begins key.now (drop place buckets.old.items) ≡ true }
    ensures keeps { Keeps moment buckets.old.items buckets.new.items }
    ensures rated { All (IsRated qps moment) buckets.new.items }
    ensures few { length buckets.new.items ≤ length buckets.old.items }
    ensures rooms { (other : Addr) → 0 < free_of other buckets.old.items → 0 < free_of other buckets.new.items }
    ensures room { OnOk result (0 < free_of key.now buckets.new.items) }
{
    buckets[place].make_room(qps, moment)
}

/// Takes the room for one moment of a masked address.
pub(crate) fn make_room(
    buckets: &mut Vec<Boxed>,
    key: Addr,
    qps: u16,
    moment: u64,
) -> Result<(), AllocError>
    requires held { IsHeld moment buckets.old.items }
    requires rated { All (IsRated qps moment) buckets.old.items }
    ensures keeps { Keeps moment buckets.old.items buckets.new.items }
    ensures rated { All (IsRated qps moment) buckets.new.items }
    ensures few { length buckets.new.items ≤ length buckets.old.items + 1 }
    ensures rooms { (other : Addr) → 0 < free_of other buckets.old.items → 0 < free_of other buckets.new.items }
    ensures room { OnOk result (0 < free_of key buckets.new.items) }
{
    let place = place_of(&key, buckets.as_slice());
    if is_at(&key, place, buckets.as_slice()) {
        widen(buckets, place, &key, qps, moment)
    } else {
        open(buckets, place, key, qps, moment)
    }
}

/// Whether a sweep keeps a bucket: its last moment counts, or there is room reserved in it.
fn stays(bucket: &Boxed, reserved: &[Addr], moment: u64) -> bool
    ensures { result ≡ stays reserved.now moment bucket.now }
{
    bucket.ends_recent(moment) || has_addr(bucket.source(), reserved)
}

/// Gives up the buckets of addresses that have no moment that counts and no room reserved.
fn sweep(buckets: &mut Vec<Boxed>, reserved: &[Addr], moment: u64)
    requires held { IsHeld moment buckets.old.items }
    requires crowd { live_count moment buckets.old.items ≤ max_live }
    ensures left { Leaves reserved.now moment buckets.old.items buckets.new.items }
    ensures few { length buckets.new.items ≤ max_live + length reserved.now }
{
    buckets.retain(|bucket| stays(bucket, reserved, moment));
}

/// Gives up all such buckets where there are many.
pub(crate) fn sweep_many(buckets: &mut Vec<Boxed>, reserved: &[Addr], moment: u64)
    requires held { IsHeld moment buckets.old.items }
    requires crowd { live_count moment buckets.old.items ≤ max_live }
    ensures left { Leaves reserved.now moment buckets.old.items buckets.new.items }
    ensures few { length buckets.new.items ≤ many + length reserved.now }
{
    if buckets.len() > MANY + reserved.len() {
        sweep(buckets, reserved, moment);
    }
}

/// The place of the first such bucket between two places.
fn idle_between(
    buckets: &[Boxed],
    start: usize,
    end: usize,
    reserved: &[Addr],
    moment: u64,
) -> Option<usize>
    requires { end ≤ length buckets.now }
    ensures { IfSome result (λ place. IsIdleAt reserved.now moment place buckets.now) }
{
    for place in start..end {
        if !stays(&buckets[place], reserved, moment) {
            return Some(place);
        }
    }
    None
}

/// Looks at a few buckets from a place on, gives up the first such one, and returns the place to look from next.
fn give_up_one(buckets: &mut Vec<Boxed>, from: usize, reserved: &[Addr], moment: u64) -> usize
    requires { IsHeld moment buckets.old.items }
    ensures { Leaves reserved.now moment buckets.old.items buckets.new.items }
{
    let start = if from < buckets.len() { from } else { 0 };
    let end = buckets.len().min(start + LOOKS);
    match idle_between(buckets.as_slice(), start, end, reserved, moment) {
        Some(place) => {
            buckets.remove(place);
            place
        }
        None if end < buckets.len() => end,
        None => 0,
    }
}

/// Gives up one such bucket near a place, or all of them where there are many. Returns the place to look from next.
pub(crate) fn give_up(
    buckets: &mut Vec<Boxed>,
    from: usize,
    reserved: &[Addr],
    moment: u64,
) -> usize
    requires held { IsHeld moment buckets.old.items }
    requires crowd { live_count moment buckets.old.items ≤ max_live }
    ensures left { Leaves reserved.now moment buckets.old.items buckets.new.items }
    ensures few { length buckets.new.items ≤ many + length reserved.now }
{
    let next = give_up_one(buckets, from, reserved, moment);
    sweep_many(buckets, reserved, moment);
    next
}

/// Adds a pass to the bucket of its address.
fn add_at(buckets: &mut Vec<Boxed>, place: usize, key: &Addr, now: u64) -> Option<u64>
    requires held { IsHeld now buckets.old.items }
    requires place { IsPlace key.now place buckets.old.items }
    requires room { 0 < free_of key.now buckets.old.items }
    ensures held { IsHeld now buckets.new.items }
    ensures passes { held_at now buckets.new.items ≡ put_pass (pass_of key.now now) (held_at now buckets.old.items) }
    ensures few { length buckets.new.items ≡ length buckets.old.items }
    ensures rated { (qps : ℕ) → window_count key.now now buckets.old.items < qps → All (IsRated qps now) buckets.old.items → All (IsRated qps now) buckets.new.items }
    ensures live { (later : ℕ) → live_count later buckets.new.items + cond (ends_recent later result) 1 0 ≡ live_count later buckets.old.items + cond (is_recent later now) 1 0 }
    ensures last { IfSome result (λ m. live_count (m + 1000) buckets.old.items < live_count (m + 999) buckets.old.items) }
    ensures first { ends_recent now result ≡ false → window_count key.now now buckets.old.items ≡ 0 }
{
    buckets[place].add(now)
}

/// Adds a pass, and returns the moment of the last one of its address.
pub(crate) fn add_pass(buckets: &mut Vec<Boxed>, key: &Addr, now: u64) -> Option<u64>
    requires held { IsHeld now buckets.old.items }
    requires room { 0 < free_of key.now buckets.old.items }
    ensures held { IsHeld now buckets.new.items }
    ensures passes { held_at now buckets.new.items ≡ put_pass (pass_of key.now now) (held_at now buckets.old.items) }
    ensures few { length buckets.new.items ≡ length buckets.old.items }
    ensures rated { (qps : ℕ) → window_count key.now now buckets.old.items < qps → All (IsRated qps now) buckets.old.items → All (IsRated qps now) buckets.new.items }
    ensures live { (later : ℕ) → live_count later buckets.new.items + cond (ends_recent later result) 1 0 ≡ live_count later buckets.old.items + cond (is_recent later now) 1 0 }
    ensures last { IfSome result (λ m. live_count (m + 1000) buckets.old.items < live_count (m + 999) buckets.old.items) }
    ensures first { ends_recent now result ≡ false → window_count key.now now buckets.old.items ≡ 0 }
{
    let place = place_of(key, buckets.as_slice());
    add_at(buckets, place, key, now)
}

/// How many passes count.
pub(crate) fn count(buckets: &[Boxed], moment: u64) -> usize
    requires held { IsHeld moment buckets.now }
    requires fits { length (held_at moment buckets.now) < 2 ^ 63 }
    ensures { result ≡ length (held_at moment buckets.now) }
{
    let mut count = 0;
    for bucket in buckets {
        count += bucket.recent(moment);
    }
    count
}

/// The passes that count, in order.
pub(crate) fn list(alloc: Global, buckets: &[Boxed], moment: u64) -> Result<Vec<Pass>, AllocError>
    ensures { IfOk result (λ list. list.items ≡ held_at moment buckets.now) }
{
    let mut passes = Vec::new(alloc);
    for bucket in buckets {
        bucket.list(moment, &mut passes)?;
    }
    Ok(passes)
}
