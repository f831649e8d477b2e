//! Caches: what no line of a replay says of them, as lists of what they keep. rows/ has what lines
//! say.

ghost use Rattle.std.specs.Prelude.{◌≡◌, ◌<◌, [], ◌∷◌, IfOk, IsTrue};
ghost use Rattle.std.specs.List.{AllByRecursion};
ghost use Rattle.lb_cache.specs.Caches.{name_of_key};

use super::rows::held;
use Kind::{Datagram, Stream};
use lb_cache::{
    AttachedCache, Cache, CachedReply, Caches, Covered, MaxEntries, MaxTtl, Shards, Skips,
};
use lb_wire::{CacheId, Kept, Key, Kind, MAX_MESSAGE, Octets};
use std::alloc::{AllocError, Global};
use std::test::Fail;

/// The header of a query without its ID: RD, and one question.
const HEADER: &[u8] = &[1, 0, 0, 1, 0, 0, 0, 0, 0, 0];

const EXAMPLE: &[u8] = b"\x07example\x03com\x00";

const WWW: &[u8] = b"\x03www\x07example\x03com\x00";

/// Queries: how they came, the name that they ask for on the wire, and the type; and the lives in
/// seconds of their replies.
const LIVES: &[(Kind, &[u8], u8, u32)] = &[
    (Stream, EXAMPLE, 1, 1),
    (Datagram, EXAMPLE, 28, 2),
    (Datagram, WWW, 1, 3),
    (Datagram, EXAMPLE, 1, 4),
];

/// The key of a query of class IN.
fn key(alloc: Global, kind: Kind, name: &[u8], rtype: u8) -> Result<Key, Fail> {
    let mut octets = Vec::from_slice(alloc, HEADER)?;
    octets.extend_from_slice(name)?;
    octets.extend_from_slice([0, rtype, 0, 1].as_slice())?;
    if octets.len() > MAX_MESSAGE {
        return Err(Fail::from("too long a message"));
    }
    Ok(Key {
        kind,
        octets: Octets::from_vec(octets),
    })
}

/// A cache of so many replies at most.
fn cache(alloc: Global, max: u32) -> Result<Cache, Fail>
    ensures { IfOk result (λ cache. cache.replies ≡ []) }
{
    let max = MaxEntries::new(max).ok_or("no such size")?;
    let shards = Shards::new(4).ok_or("no such number of shards")?;
    let ttl = MaxTtl::new(86_400).ok_or("no such life")?;
    Ok(Cache::new(alloc, max, shards, ttl, Skips::cookie())?)
}

/// Keeps a reply of one octet from moment 2,000 on.
fn put(cache: &mut Cache, key: Key, life: u32) -> Result<(), Fail> {
    match cache.put(key, &[0], life, 2000) {
        Kept::Yes => Ok(()),
        Kept::NoMemory => Err(Fail::from("no memory")),
        _ => Err(Fail::from("not kept")),
    }
}

/// Whether the replies of a list have these lives, in order.
fn are_lives(list: &[CachedReply], lives: &[u32]) -> bool {
    for (reply, life) in list.iter().zip(lives) {
        if reply.life != *life {
            return false;
        }
    }
    list.len() == lives.len()
}

/// Puts the replies of `LIVES` into a cache.
fn fill(alloc: Global, cache: &mut Cache) -> Result<(), Fail> {
    for (kind, name, rtype, life) in LIVES {
        let under = key(alloc, *kind, name, *rtype)?;
        put(cache, under, *life)?;
    }
    Ok(())
}

/// Whether the list is by transport and then by octets.
fn is_in_order(alloc: Global, cache: &Cache) -> Result<bool, AllocError> {
    let list = cache.list(alloc).or_else(|_refused| cache.list(alloc))?;
    Ok(are_lives(list.as_slice(), &[3, 4, 2, 1]))
}

/// The age of the reply for example.com at a second.
fn age_at(alloc: Global, cache: &Cache, moment: u64) -> Result<u64, Fail> {
    let under = key(alloc, Datagram, EXAMPLE, 1)?;
    let hit = cache.look(&under, moment).ok_or("no such reply")?;
    Ok(u64::from(hit.secs))
}

/// Whether so many replies are dead at a moment, and so many are left once they are purged.
fn is_purged(cache: &mut Cache, moment: u64, dead: usize, left: usize) -> bool {
    cache.purge_dead(moment) == dead && cache.len() == left
}

/// Whether a cache has the limits with which it was made.
fn has_limits(cache: &Cache) -> bool {
    cache.max().get() == 10 && cache.max_ttl().get() == 86_400 && cache.skips() == [10].as_slice()
}

/// What holds of a cache with the replies of `LIVES`.
fn lists_and_purges(alloc: Global, cache: &mut Cache) -> Result<(), Fail> {
    held(0, is_in_order(alloc, cache)?)?;
    held(1, age_at(alloc, cache, 1000)? == 0)?;
    held(2, is_purged(cache, 2999, 0, 4))?;
    held(3, is_purged(cache, 3000, 1, 3))?;
    held(4, has_limits(cache))
}

/// The list is by transport and then by octets. A reply is found at a moment before its own, which
/// no run of lines has. The dead are purged and counted.
#[test]
fn by_transport_and_then_by_octets(rt: HostRuntime) -> Result<(), Fail> {
    let mut cache = cache(rt.alloc(), 10)?;
    fill(rt.alloc(), &mut cache)?;
    lists_and_purges(rt.alloc(), &mut cache)
}

/// What stands after the header without its ID of a query for example.com, type A and class IN.
const ASKED: [u8; 27] = [
    1, 0, 0, 1, 0, 0, 0, 0, 0, 0, 7, 101, 120, 97, 109, 112, 108, 101, 3, 99, 111, 109, 0, 0, 1, 0,
    1,
];

/// A reply to it without records: ID 7, QR 1.
const REPLY: [u8; 29] = [
    0, 7, 128, 0, 0, 1, 0, 0, 0, 0, 0, 0, 7, 101, 120, 97, 109, 112, 108, 101, 3, 99, 111, 109, 0,
    0, 1, 0, 1,
];

/// The key of that query.
fn asked(alloc: Global, kind: Kind) -> Result<Key, AllocError>
    ensures { IfOk result (λ key. name_of_key key ≡ (101 ∷ 120 ∷ 97 ∷ 109 ∷ 112 ∷ 108 ∷ 101 ∷ []) ∷ (99 ∷ 111 ∷ 109 ∷ []) ∷ []) }
{
    Ok(Key {
        kind,
        octets: Octets::from_vec(Vec::from_slice(alloc, ASKED.as_slice())?),
    })
}

/// Keeps that reply in a cache under a key of that query, for a second.
fn keep(caches: &mut Caches, id: u64, key: Key, now: u64) -> Option<Kept>
    requires { name_of_key key ≡ (101 ∷ 120 ∷ 97 ∷ 109 ∷ 112 ∷ 108 ∷ 101 ∷ []) ∷ (99 ∷ 111 ∷ 109 ∷ []) ∷ [] }
{
    let cache = caches.with_id(CacheId(id))?;
    Some(caches.keep(&cache, &key, REPLY.as_slice(), 1, now))
}

/// Whether a number is greater than those of these caches.
fn is_next(caches: &[AttachedCache], id: CacheId) -> bool
    ensures { IsTrue result → AllByRecursion (λ c. c.id.0 < id.0) caches.now }
{
    caches.iter().all(|cache| cache.id.0 < id.0)
}

/// Attaches a new cache for so many replies, in the place of another one.
fn attach(
    alloc: Global,
    caches: &mut Caches,
    id: u64,
    max: u32,
    old: Option<CacheId>,
) -> Result<(), Fail> {
    let cache = cache(alloc, max)?;
    if !is_next(caches.list(alloc)?.as_slice(), CacheId(id)) {
        return Err(Fail::from("not the next number"));
    }
    Ok(caches.attach(old, CacheId(id), cache)?)
}

/// Whether that reply is kept from moment 0 on.
fn keeps(alloc: Global, caches: &mut Caches, id: u64, kind: Kind) -> Result<bool, Fail> {
    match keep(caches, id, asked(alloc, kind)?, 0) {
        Some(Kept::NoMemory) => Err(Fail::from("no memory")),
        Some(kept) => Ok(kept == Kept::Yes),
        None => Ok(false),
    }
}

/// Whether these are the numbers of the attached caches, and those of the caches that keep a reply.
fn are_listed(
    alloc: Global,
    caches: &Caches,
    numbers: &[u64],
    keepers: &[u64],
) -> Result<bool, AllocError> {
    let list = caches.list(alloc)?;
    for (cache, id) in list.iter().zip(numbers) {
        if cache.id.0 != *id {
            return Ok(false);
        }
    }
    let kept = caches.kept_list(alloc)?;
    for (reply, id) in kept.iter().zip(keepers) {
        if reply.cache.0 != *id {
            return Ok(false);
        }
    }
    Ok(
        list.len() == numbers.len()
            && caches.len() == numbers.len()
            && kept.len() == keepers.len()
            && caches.kept_len() == keepers.len() as u128,
    )
}

/// Two caches come, and others in their place, and one goes.
fn come_and_go(alloc: Global, caches: &mut Caches) -> Result<(), Fail> {
    attach(alloc, caches, 1, 10, None)?;
    attach(alloc, caches, 2, 1, None)?;
    held(0, keeps(alloc, caches, 2, Datagram)?)?;
    held(1, keeps(alloc, caches, 1, Stream)?)?;
    held(2, keeps(alloc, caches, 1, Datagram)?)?;
    held(3, are_listed(alloc, caches, &[1, 2], &[1, 1, 2])?)?;
    held(4, caches.expunge(CacheId(3), &Covered::All) == 0)?;
    attach(alloc, caches, 3, 5, Some(CacheId(2)))?;
    held(5, are_listed(alloc, caches, &[1, 3], &[1, 1])?)?;
    caches.detach(CacheId(1));
    held(6, are_listed(alloc, caches, &[3], &[])?)
}

/// Caches are listed by number, and what they keep by cache. One that is not there keeps nothing.
#[test]
fn two_caches(rt: HostRuntime) -> Result<(), Fail> {
    let mut caches = Caches::new(rt.alloc());
    come_and_go(rt.alloc(), &mut caches)
}

/// The cache with a number keeps so many replies at most, each for a day at most.
#[test]
fn numbers_of_a_cache(rt: HostRuntime) -> Result<(), Fail> {
    let mut caches = Caches::new(rt.alloc());
    attach(rt.alloc(), &mut caches, 3, 5, None)?;
    held(0, caches.with_id(CacheId(4)).is_none())?;
    let cache = caches.with_id(CacheId(3)).ok_or("no such cache")?;
    held(
        1,
        cache.max.get() == 5
            && cache.max_ttl.get() == 86_400
            && cache.skips.as_slice() == [10].as_slice(),
    )
}

/// Codes stand in the order written, each at its first place.
#[test]
fn codes_once(rt: HostRuntime) -> Result<(), Fail> {
    let skips = Skips::from_codes(&[10, 8, 10, 65535, 8]);
    held(0, skips.as_slice() == [10, 8, 65535].as_slice())?;
    held(1, skips.copy().equals(&skips))?;
    held(2, !skips.equals(&Skips::cookie()))
}
