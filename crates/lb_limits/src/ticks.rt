//! The milliseconds in which addresses had their last passes, with how many addresses had them then: they tell how many
//! addresses are live. One that no longer counts may still stand there.

ghost use Rattle.std.specs.Prelude.{◌≡◌, ◌+◌, ◌≤◌, ◌<◌, ℕ, true, cond, IfSome, OnOk, [], drop, length};
ghost use Rattle.std.specs.List.{All, filter};
ghost use Rattle.lb_limits.specs.Moments.{ends_recent, is_recent};
ghost use Rattle.lb_limits.specs.Window.{max_live};
ghost use Rattle.lb_limits.specs.Ticks.{HasRoom, IsTally, IsTickPlace, Rises, address_count, live_at, moments_of};

use crate::moments::is_recent;
use std::alloc::{AllocError, Global};

/// A millisecond in which addresses had their last passes.
#[derive(Clone, Copy, Debug)]
pub(crate) struct LastPasses {
    pub(crate) moment: u64,
    // How many addresses.
    pub(crate) addresses: u32,
}

/// Such milliseconds, each once, ascending.
#[derive(Debug, Drop)]
pub(crate) struct Ticks {
    pub(crate) list: Vec<LastPasses>,
    // The addresses of all of them together.
    pub(crate) total: u32,
}

impl Ticks {
    /// No address had a pass.
    pub(crate) fn new(alloc: Global) -> Ticks
        ensures list { result.list.items ≡ [] }
        ensures total { result.total ≡ 0 }
    {
        Ticks {
            list: Vec::new(alloc),
            total: 0,
        }
    }

    /// How many addresses are live.
    pub(crate) fn live(&self, now: u64) -> u32
        requires { IsTally self.now }
        ensures { result ≡ live_at now self.now.list.items }
    {
        self.total - out_of(self.list.as_slice(), now)
    }

    /// Takes the room for one more.
    pub(crate) fn make_room(&mut self) -> Result<(), AllocError>
        ensures list { self.new.list.items ≡ self.old.list.items }
        ensures total { self.new.total ≡ self.old.total }
        ensures more { HasRoom self.old → HasRoom self.new }
        ensures room { OnOk result (HasRoom self.new) }
    {
        self.list.reserve(1)
    }

    /// Gives up those that no longer count.
    fn forget(&mut self, now: u64)
        requires { IsTally self.old }
        ensures tally { IsTally self.new }
        ensures recent { All (λ m. is_recent now m ≡ true) (moments_of self.new.list.items) }
        ensures past { (most : ℕ) → All (λ m. m ≤ most) (moments_of self.old.list.items) → All (λ m. m ≤ most) (moments_of self.new.list.items) }
        ensures live { (later : ℕ) → now ≤ later → live_at later self.new.list.items ≡ live_at later self.old.list.items }
        ensures room { HasRoom self.old → HasRoom self.new }
    {
        self.total = self.live(now);
        let place = recent_from(self.list.as_slice(), now);
        let left = self.list.len() - place;
        self.list.rotate_left(place);
        self.list.truncate(left);
    }

    /// One address fewer had its last pass at a moment.
    fn lower(&mut self, moment: u64)
        requires tally { IsTally self.old }
        requires there { live_at (moment + 1000) self.old.list.items < live_at (moment + 999) self.old.list.items }
        ensures tally { IsTally self.new }
        ensures moments { moments_of self.new.list.items ≡ moments_of self.old.list.items }
        ensures live { (later : ℕ) → live_at later self.new.list.items + cond (is_recent later moment) 1 0 ≡ live_at later self.old.list.items }
        ensures room { HasRoom self.old → HasRoom self.new }
    {
        let place = place_of(self.list.as_slice(), moment);
        self.list[place].addresses -= 1;
        self.total -= 1;
    }

    /// One address more had its last pass now.
    fn raise(&mut self, now: u64)
        requires tally { IsTally self.old }
        requires past { All (λ m. m ≤ now) (moments_of self.old.list.items) }
        requires recent { All (λ m. is_recent now m ≡ true) (moments_of self.old.list.items) }
        requires crowd { self.old.total < max_live }
        requires room { HasRoom self.old }
        ensures tally { IsTally self.new }
        ensures past { All (λ m. m ≤ now) (moments_of self.new.list.items) }
        ensures live { (later : ℕ) → live_at later self.new.list.items ≡ live_at later self.old.list.items + cond (is_recent later now) 1 0 }
    {
        let place = place_of(self.list.as_slice(), now);
        if place < self.list.len() {
            self.list[place].addresses += 1;
        } else {
            self.list
                .push(LastPasses {
                    moment: now,
                    addresses: 1,
                })
                .unwrap();
        }
        self.total += 1;
    }

    /// Where the last pass of an address counts, takes it back.
    fn take_back(&mut self, last: Option<u64>, now: u64)
        requires tally { IsTally self.old }
        requires there { IfSome last (λ m. is_recent now m ≡ true → live_at (m + 1000) self.old.list.items < live_at (m + 999) self.old.list.items) }
        ensures tally { IsTally self.new }
        ensures moments { moments_of self.new.list.items ≡ moments_of self.old.list.items }
        ensures live { (later : ℕ) → now ≤ later → live_at later self.new.list.items + cond (ends_recent later last) 1 0 ≡ live_at later self.old.list.items }
        ensures room { HasRoom self.old → HasRoom self.new }
    {
        if let Some(moment) = last {
            if is_recent(now, moment) {
                self.lower(moment);
            }
        }
    }

    /// Puts now in the place of the last moment of an address, where it had one.
    pub(crate) fn pass(&mut self, last: Option<u64>, now: u64)
        requires tally { IsTally self.old }
        requires past { All (λ m. m ≤ now) (moments_of self.old.list.items) }
        requires there { IfSome last (λ m. is_recent now m ≡ true → live_at (m + 1000) self.old.list.items < live_at (m + 999) self.old.list.items) }
        requires crowd { live_at now self.old.list.items < max_live + cond (ends_recent now last) 1 0 }
        requires room { HasRoom self.old }
        ensures tally { IsTally self.new }
        ensures past { All (λ m. m ≤ now) (moments_of self.new.list.items) }
        ensures live { (later : ℕ) → now ≤ later → live_at later self.new.list.items + cond (ends_recent later last) 1 0 ≡ live_at later self.old.list.items + cond (is_recent later now) 1 0 }
    {
        self.take_back(last, now);
        self.forget(now);
        self.raise(now);
    }
}

/// The place of a moment.
fn place_of(ticks: &[LastPasses], moment: u64) -> usize
    requires { Rises (moments_of ticks.now) }
    ensures { IsTickPlace moment result (moments_of ticks.now) }
{
    ticks.partition_point(|tick| tick.moment < moment)
}

/// The place of the first one that counts.
fn recent_from(ticks: &[LastPasses], now: u64) -> usize
    requires { Rises (moments_of ticks.now) }
    ensures within { result ≤ length ticks.now }
    ensures rest { drop result ticks.now ≡ filter (λ tick. is_recent now tick.moment) ticks.now }
{
    ticks.partition_point(|tick| !is_recent(now, tick.moment))
}

/// How many addresses had their last passes in milliseconds that no longer count.
fn out_of(ticks: &[LastPasses], now: u64) -> u32
    requires order { Rises (moments_of ticks.now) }
    requires fits { address_count ticks.now ≤ max_live }
    ensures { result + live_at now ticks.now ≡ address_count ticks.now }
{
    let mut out = 0;
    for tick in ticks {
        if is_recent(now, tick.moment) {
            return out;
        }
        out += tick.addresses;
    }
    out
}
