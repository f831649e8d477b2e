//! Forwarding: a server is picked for a query, and the query is sent to it under an ID that is free there.

ghost use Rattle.std.specs.Prelude.{◌≡◌, ◌≤◌, IfOk, IfErr, IfSome, OnErr, OnOk, length, vec_len, List, ℕ, Result};
ghost use Rattle.lb_name.specs.Name.{lower_name};
ghost use Rattle.lb_wire.specs.Message.{Message, Lays};
ghost use Rattle.lb_wire.specs.Numbers.{rcode_number};
ghost use Rattle.lb_wire.specs.Answer.{refusal_of};
ghost use Rattle.lb_wire.specs.Octets.{max_message};
ghost use Rattle.lb_wire.specs.Query.{IsQuery, view_of};
ghost use Rattle.lb_cache.specs.Caches.{name_of_key};
ghost use Rattle.lb_step.specs.Forward.{entry_of as entry_of_spec, Forwards, sent_of, with_id};
ghost use Rattle.lb_step.specs.declared.answer.Answer.TheVariants.{Local};
ghost use Rattle.lb_step.specs.Upstream.{Upstreams};

use crate::answer::{Answer, LocalReason};
use crate::asked::{Asked, Routed};
use crate::lacking::Lacking;
use crate::upstream::Upstream;
use lb_table::{EnterFault, Entry, Place, Waiting};
use lb_wire::{
    CacheId, Key, Lane, Octets, QueryView, Rcode, ServerId, answer_in_place, clear_rd, restore_id,
};
use std::alloc::Global;

/// Answers a query by a server of a pool; it asked this of a cache. Where memory is refused for its entry, nothing changes and the
/// query's bytes come back with what was refused.
pub(crate) fn forward(
    alloc: Global,
    upstream: &mut Upstream,
    asked: &Asked,
    bytes: Vec<u8>,
    view: &QueryView,
    routed: &Routed,
    ask: Option<(CacheId, Key)>,
) -> Result<Answer, (Lacking, Vec<u8>)>
    requires view { (m : Message) × Lays bytes.items m × IsQuery m × (view.now ≡ view_of m) }
    requires short { vec_len bytes ≤ max_message }
    requires key { IfSome ask (λ ask. name_of_key ask.1 ≡ lower_name view.now.name) }
    ensures forwards { IfOk result (λ answer. Forwards upstream.old asked.now bytes.items view.now routed.now ask answer upstream.new) }
    ensures back { IfErr result (λ back. back.1.items ≡ bytes.items) }
    ensures unchanged { OnErr result (upstream.new ≡ upstream.old) }
{
    let Some(server) = upstream.pick(routed.pool) else {
        return Ok(refused(bytes, view, Rcode::ServFail, LocalReason::NoServer));
    };
    let target = Target {
        server,
        timeout: upstream.timeout(),
    };
    let kept = match Vec::from_slice(alloc, bytes.as_slice()) {
        Ok(kept) => Octets::from_vec(kept),
        Err(error) => return Err((Lacking::from(error), bytes)),
    };
    let waiting = target.waiting(asked, kept, view, ask);
    match upstream.send(routed.pool, asked.kind, asked.word, waiting) {
        Ok((lane, id)) => Ok(Answer::Forward(
            server,
            lane,
            id,
            message(bytes, routed.no_recurse, id),
        )),
        Err(fault) => match fault {
            EnterFault::LaneFull => {
                Ok(refused(bytes, view, Rcode::ServFail, LocalReason::LaneFull))
            }
            EnterFault::NoMemory => Err((Lacking::by_table(fault), bytes)),
        },
    }
}

/// The server that a query is sent to, and how long it waits for the reply, in milliseconds.
#[derive(Debug, Drop)]
struct Target {
    server: ServerId,
    timeout: u32,
}

impl Target {
    /// What is kept of a query until its reply, its octets as they came in among it. Its place has
    /// no lane and no ID yet.
    fn waiting(
        &self,
        asked: &Asked,
        kept: Octets,
        view: &QueryView,
        ask: Option<(CacheId, Key)>,
    ) -> Waiting
        ensures place { result.place.server ≡ self.now.server }
        ensures entry { (ups : Upstreams) → ups.timeout ≡ self.now.timeout → result.entry ≡ entry_of_spec ups asked.now kept view.now ask }
    {
        let unplaced = Lane {
            kind: asked.kind,
            number: 0,
        };
        Waiting {
            place: Place {
                server: self.server,
                lane: unplaced,
                id: 0,
            },
            entry: Entry {
                origin: asked.origin,
                asked: kept,
                name: view.name.copy(),
                qtype: view.qtype,
                qclass: view.qclass,
                began: asked.moment,
                timeout: self.timeout,
                cache: ask,
            },
        }
    }
}

/// The message to be sent, in the query's own bytes: with this ID, and with RD 0 where a rule says so.
fn message(mut bytes: Vec<u8>, no_recurse: bool, id: u16) -> Octets
    requires header { 12 ≤ length bytes.items }
    requires short { vec_len bytes ≤ max_message }
    ensures { result ≡ with_id id (sent_of no_recurse bytes.items) }
{
    if no_recurse {
        clear_rd(&mut bytes);
    }
    restore_id(&mut bytes, id);
    Octets::from_vec(bytes)
}

/// The refusal with this RCODE, in the query's own bytes.
pub(crate) fn refused(
    mut bytes: Vec<u8>,
    view: &QueryView,
    rcode: Rcode,
    why: LocalReason,
) -> Answer
    requires view { (m : Message) × Lays bytes.items m × IsQuery m × (view.now ≡ view_of m) }
    requires short { vec_len bytes ≤ max_message }
    ensures { result ≡ Local (refusal_of view.now (rcode_number rcode)) why }
{
    answer_in_place(&mut bytes, view, rcode);
    Answer::Local(Octets::from_vec(bytes), why)
}
