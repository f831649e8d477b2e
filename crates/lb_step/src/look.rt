//! Look-up: a query is answered by a reply that its pool's cache keeps, where one lives.

ghost use Rattle.std.specs.Prelude.{◌≡◌, ◌≤◌, ◌&&◌, ◌==◌, not, Bool, None, IfOk, IfErr, OnErr, drop, length, vec_capacity, vec_len, List, ℕ};
ghost use Rattle.std.specs.List.{AllByRecursion};
ghost use Rattle.lb_name.specs.Name.{labels_of, lower_name, IsSame};
ghost use Rattle.lb_wire.specs.Aging.{Outlives};
ghost use Rattle.lb_wire.specs.Flags.{opcode_of};
ghost use Rattle.lb_wire.specs.Key.{key_octets, key_of_message};
ghost use Rattle.lb_wire.specs.Message.{Message, Lays};
ghost use Rattle.lb_wire.specs.Octets.{max_message};
ghost use Rattle.lb_wire.specs.Opt.{opts};
ghost use Rattle.lb_wire.specs.Query.{IsQuery, Views, view_of};
ghost use Rattle.lb_cache.specs.Caches.{name_of_key, skips_of, IsKeepable};
ghost use Rattle.lb_step.specs.Noted.{cache_asked as cache_asked_spec};
ghost use Rattle.lb_step.specs.Look.{may_use as may_use_spec, octets_sent, parts_sent, Hits, PoolAnswers};
ghost use Rattle.lb_step.specs.declared.answer.Answer.TheVariants.{Local};
ghost use Rattle.lb_step.specs.declared.answer.LocalReason.TheVariants as locals;

use crate::answer::{Answer, LocalReason};
use crate::asked::{Asked, Routed};
use crate::forward::forward;
use crate::lacking::Lacking;
use crate::upstream::Upstream;
use lb_cache::Hit;
use lb_wire::{
    CacheId, Key, Kind, Octets, Opcode, QueryView, age, clear_rd, cleared_is_laid,
    codes_need_an_opt, key_has_name, key_of, one_message, respell, restore_id,
};
use std::alloc::{AllocError, Global};

/// Answers a query by a pool: by a reply that its cache keeps, or by one of its servers. If memory
/// is refused for the key, the answer or the entry, nothing changes and the query's bytes come back
/// with what was refused.
pub(crate) fn answer_by_pool(
    alloc: Global,
    upstream: &mut Upstream,
    asked: &Asked,
    bytes: Vec<u8>,
    view: &QueryView,
    routed: Routed,
    looked: &mut Option<CacheId>,
) -> Result<Answer, (Lacking, Vec<u8>)>
    requires looked { looked.old ≡ None }
    requires view { (m : Message) × Lays bytes.items m × IsQuery m × (view.now ≡ view_of m) }
    requires short { vec_len bytes ≤ max_message }
    ensures looked { IfOk result (λ _. looked.new ≡ cache_asked_spec upstream.old view.now routed) }
    ensures answers { IfOk result (λ answer. PoolAnswers upstream.old asked.now bytes.items view.now routed answer upstream.new) }
    ensures back { IfErr result (λ back. back.1.items ≡ bytes.items) }
    ensures unchanged { OnErr result (upstream.new ≡ upstream.old) }
{
    let Some(cache) = cache_asked(upstream, view, &routed) else {
        return forward(alloc, upstream, asked, bytes, view, &routed, None);
    };
    *looked = Some(cache);
    let mut bytes = bytes;
    let octets = match key_to_send(
        alloc,
        upstream,
        cache,
        &mut bytes,
        view,
        asked.kind,
        routed.no_recurse,
    ) {
        Ok(octets) => octets,
        Err(error) => return Err((Lacking::from(error), bytes)),
    };
    let key = Key {
        kind: asked.kind,
        octets,
    };
    if let Some(hit) = upstream.look(cache, &key, asked.moment) {
        return hit_answer(bytes, &hit, &key, view);
    }
    forward(
        alloc,
        upstream,
        asked,
        bytes,
        view,
        &routed,
        Some((cache, key)),
    )
}

/// The cache that a query is looked up in, if it may use one and its pool has one.
#[inline(always)]
fn cache_asked(upstream: &Upstream, view: &QueryView, routed: &Routed) -> Option<CacheId>
    ensures { result ≡ cache_asked_spec upstream.now view.now routed.now }
{
    if !may_use(view, routed) {
        return None;
    }
    upstream.cache_of(routed.pool)
}

/// Whether a query may use a cache.
fn may_use(view: &QueryView, routed: &Routed) -> bool
    ensures { result ≡ may_use_spec view.now routed.now }
{
    view.flags.opcode() == Opcode::Query && !routed.skip_cache
}

/// The octets of the key of the message to be sent, by the list of a cache. The query's octets come
/// out as they went in. The octets alone are handed on, as each move of a `Key` copies its padding
/// too.
fn key_to_send(
    alloc: Global,
    upstream: &Upstream,
    cache: CacheId,
    bytes: &mut Vec<u8>,
    view: &QueryView,
    kind: Kind,
    no_recurse: bool,
) -> Result<Octets, AllocError>
    requires view { (m : Message) × Lays bytes.old.items m × IsQuery m × (view.now ≡ view_of m) }
    requires short { vec_len bytes.old ≤ max_message }
    ensures key { IfOk result (λ octets. (m : Message) → Lays bytes.old.items m → octets ≡ key_octets (skips_of cache upstream.now.caches) (parts_sent no_recurse m)) }
    ensures name { IfOk result (λ octets. labels_of (drop 10 octets) ≡ lower_name view.now.name) }
    ensures unchanged { bytes.new.items ≡ bytes.old.items }
{
    key_of_sent(alloc, upstream, cache, bytes, view, kind, no_recurse)
}

/// The octets of the key of the message that these octets are sent as, by the list of a cache. They
/// come out as they went in.
fn key_of_sent(
    alloc: Global,
    upstream: &Upstream,
    cache: CacheId,
    bytes: &mut [u8],
    view: &QueryView,
    kind: Kind,
    no_recurse: bool,
) -> Result<Octets, AllocError>
    requires view { (m : Message) × Lays bytes.old m × IsQuery m × (view.now ≡ view_of m) }
    requires short { length bytes.old ≤ max_message }
    ensures key { IfOk result (λ octets. (m : Message) → Lays bytes.old m → octets ≡ key_octets (skips_of cache upstream.now.caches) (parts_sent no_recurse m)) }
    ensures name { IfOk result (λ octets. labels_of (drop 10 octets) ≡ lower_name view.now.name) }
    ensures unchanged { bytes.new ≡ bytes.old }
{
    // Laws, which do nothing.
    cleared_is_laid();
    key_has_name();
    let flags = [bytes[2], bytes[3]];
    clear_if(bytes, no_recurse);
    let key = key_by_list(alloc, upstream, cache, bytes, view, kind);
    bytes[2..4].copy_from_slice(&flags);
    let Key { octets, .. } = key?;
    Ok(octets)
}

/// The key of these octets, by the list of a cache. Without an OPT no code matters, so the list is
/// looked up only for a query with one. The two calls stand apart, so that whether there is one is
/// asked once.
#[inline(always)]
fn key_by_list(
    alloc: Global,
    upstream: &Upstream,
    cache: CacheId,
    bytes: &[u8],
    view: &QueryView,
    kind: Kind,
) -> Result<Key, AllocError>
    requires view { (m : Message) × Lays bytes.now m × (length (opts m.records) ≤ 1) × Views view.now m }
    requires short { length bytes.now ≤ max_message }
    ensures { IfOk result (λ key. (m : Message) → Lays bytes.now m → key ≡ key_of_message (skips_of cache upstream.now.caches) kind m) }
{
    // Laws, which do nothing.
    codes_need_an_opt();
    one_message();
    if view.opt.is_none() {
        return key_of(alloc, bytes, view, kind, &[]);
    }
    key_of(alloc, bytes, view, kind, upstream.skips_of(cache))
}

/// Clears RD in a query if a rule says so.
#[inline(always)]
fn clear_if(bytes: &mut [u8], no_recurse: bool)
    requires long { 4 ≤ length bytes.old }
    ensures { bytes.new ≡ octets_sent no_recurse bytes.old }
{
    if no_recurse {
        clear_rd(bytes);
    }
}

/// A kept reply as the client of a query gets it, in the query's own memory. If more is refused, the
/// query's bytes come back with what was refused.
fn hit_answer(
    bytes: Vec<u8>,
    hit: &Hit<'_>,
    key: &Key,
    view: &QueryView,
) -> Result<Answer, (Lacking, Vec<u8>)>
    requires keepable { IsKeepable key.now hit.now.bytes.now hit.now.secs }
    requires name { name_of_key key.now ≡ lower_name view.now.name }
    requires short { length hit.now.bytes.now ≤ max_message }
    ensures answer { IfOk result (λ answer. (octets : List ℕ) × Hits view.now hit.now.bytes.now hit.now.secs octets × (answer ≡ Local octets locals.Hit)) }
    ensures back { IfErr result (λ back. back.1.items ≡ bytes.items) }
{
    let mut bytes = bytes;
    if let Err(error) = bytes.reserve(hit.bytes.len().saturating_sub(bytes.len())) {
        return Err((Lacking::from(error), bytes));
    }
    let mut octets = filled_with(bytes, hit.bytes);
    answer_as(&mut octets, hit.secs, view);
    Ok(Answer::Local(Octets::from_vec(octets), LocalReason::Hit))
}

/// A list with these octets in the place of its own. It has room for them, so it takes no memory.
fn filled_with(mut list: Vec<u8>, octets: &[u8]) -> Vec<u8>
    requires room { length octets.now ≤ vec_capacity list }
    ensures { result.items ≡ octets.now }
{
    list.clear();
    match list.extend_from_slice(octets) {
        Ok(()) => list,
        Err(_) => unreachable!(),
    }
}

/// Makes the octets of a kept reply those of a query's answer, so many seconds later: with its ID,
/// and its spelling of the question name.
fn answer_as(octets: &mut [u8], secs: u32, view: &QueryView)
    requires { (m : Message) × Lays octets.old m × IsSame m.name view.now.name × AllByRecursion (Outlives secs) m.records }
    ensures { Hits view.now octets.old secs octets.new }
{
    age(octets, secs);
    respell(octets, &view.name);
    restore_id(octets, view.id);
}
