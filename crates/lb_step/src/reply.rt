//! The life of a reply.

ghost use Rattle.std.specs.Prelude.{◌≡◌, ◌≤◌, ◌==◌, IsTrue, IfSome, length, vec_len, Result};
ghost use Rattle.lb_wire.specs.BigEndian.{number_at};
ghost use Rattle.lb_wire.specs.Octets.{max_message};
ghost use Rattle.lb_wire.specs.Belongs.{AsksSame};
ghost use Rattle.lb_wire.specs.Reply.{ReadsReply, Replies};
ghost use Rattle.lb_wire.specs.declared.reply.ReplyView.{ReplyView};
ghost use Rattle.lb_wire.specs.declared.reply.ReplyFault.{ReplyFault};
ghost use Rattle.lb_step.specs.Noted.{reply_served};
ghost use Rattle.lb_step.specs.Upstream.{IsAsked};
ghost use Rattle.lb_step.specs.Reply.{only_caches, spelled_for, Keeps, KeepsAndDelivers, MayKeep, ReplySteps};
ghost use Rattle.lb_step.specs.Answer.{marked};
ghost use Rattle.lb_cache.specs.Caches.{name_of_key};
ghost use Rattle.lb_step.specs.Forward.{with_id};
ghost use Rattle.lb_cache.specs.Cache.{lacks};
ghost use Rattle.lb_name.specs.Name.{lower_name};
ghost use Rattle.lb_wire.specs.Message.{Message, Lays};

use crate::answer::{Answer, IgnoreReason};
use crate::lifetime::lifetime;
use crate::noted::Served;
use crate::upstream::Upstream;
use lb_cache::Caches;
use lb_name::{Name, splits_back};
use lb_table::Entry;
use lb_wire::{
    CacheId, Kept, Key, Lane, Octets, ReplyFault, ReplyView, ServerId, least_is_outlived,
    none_is_outlived, read_reply, respell, restore_id,
};

/// Answers a reply, step by step: it is read, the query that waits for it is found, the reply is
/// held against its question and kept if that may be, its client gets it, and the query goes.
pub(crate) fn answer_reply(
    upstream: &mut Upstream,
    moment: u64,
    server: ServerId,
    lane: Lane,
    bytes: Octets,
    served: &mut Option<Served>,
) -> Answer
    ensures step { (reading : Result ReplyView ReplyFault) × ReadsReply bytes reading × ReplySteps (marked result) upstream.old server lane moment bytes reading result upstream.new }
    ensures mark { IsTrue (marked result) → MayKeep upstream.old server lane moment bytes }
    ensures served { (reading : Result ReplyView ReplyFault) × ReadsReply bytes reading × (served.new ≡ reply_served result upstream.old.outstanding server lane reading) }
{
    *served = None;
    let bytes = bytes.into_vec();
    let view = match read_reply(bytes.as_slice()) {
        Ok(view) => view,
        Err(ReplyFault::Short) => return Answer::Ignored(IgnoreReason::Short),
        Err(ReplyFault::NotReply) => return Answer::Ignored(IgnoreReason::NotReply),
    };
    upstream.deliver((server, lane), moment, bytes, &view, served)
}

/// Keeps a reply if that may be, and delivers it to the client of its query.
pub(crate) fn keep_and_deliver(
    caches: &mut Caches,
    moment: u64,
    bytes: Vec<u8>,
    view: &ReplyView,
    entry: &Entry,
) -> Answer
    requires reads { Replies bytes.items view.now }
    requires short { vec_len bytes ≤ max_message }
    requires asked { IsAsked entry.now }
    requires same { view.now.questions ≡ 1 → AsksSame view.now.question entry.now.name }
    ensures { KeepsAndDelivers (only_caches caches.old) moment bytes.items view.now entry.now result (only_caches caches.new) }
{
    // A law, which does nothing.
    splits_back();
    let kept = keep(caches, moment, bytes.as_slice(), view, &entry.cache);
    let id = query_id(entry.asked.as_slice());
    let octets = delivered(bytes, view, &entry.name, id);
    Answer::Deliver(entry.origin, octets, kept)
}

/// Keeps a reply in the cache that its query asked, if that is still attached, for as long as it
/// lives.
fn keep(
    caches: &mut Caches,
    moment: u64,
    bytes: &[u8],
    view: &ReplyView,
    ask: &Option<(CacheId, Key)>,
) -> Kept
    requires reads { Replies bytes.now view.now }
    requires short { length bytes.now ≤ max_message }
    requires key { IfSome ask.now (λ ask. (m : Message) → Lays bytes.now m → lower_name m.name ≡ name_of_key ask.1) }
    ensures kept { Keeps (lacks result) (only_caches caches.old) moment bytes.now view.now ask.now result caches.new.kept }
    ensures others { caches.new.caches ≡ caches.old.caches }
{
    // Laws, which do nothing.
    least_is_outlived();
    none_is_outlived();
    let Some((id, key)) = ask else {
        return Kept::No;
    };
    let Some(cache) = caches.with_id(*id) else {
        return Kept::No;
    };
    let life = lifetime(bytes, view, cache.max_ttl, cache.skips.as_slice());
    if life == 0 {
        return Kept::No;
    }
    caches.keep(&cache, key, bytes, life, moment)
}

/// The reply as the client of a query gets it, in the reply's own bytes.
fn delivered(mut bytes: Vec<u8>, view: &ReplyView, name: &Name, id: u16) -> Octets
    requires reads { Replies bytes.items view.now }
    requires short { vec_len bytes ≤ max_message }
    requires same { view.now.questions ≡ 1 → AsksSame view.now.question name.now }
    ensures { result ≡ with_id id (spelled_for (view.now.questions == 1) name.now bytes.items) }
{
    if view.questions == 1 {
        respell(&mut bytes, name);
    }
    restore_id(&mut bytes, id);
    Octets::from_vec(bytes)
}

/// The ID of a query (RFC 1035 section 4.1.1).
fn query_id(asked: &[u8]) -> u16
    requires { 2 ≤ length asked.now }
    ensures { result ≡ number_at asked.now 0 }
{
    u16::from_be_bytes([asked[0], asked[1]])
}
