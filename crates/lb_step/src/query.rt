//! The life of a query.

ghost use Rattle.std.specs.Prelude.{◌≡◌, ◌≤◌, true, IsTrue, IfOk, IfErr, OnErr, vec_len, List, ℕ, Result, None};
ghost use Rattle.lb_wire.specs.Answer.{truncated_of, spoofed_of};
ghost use Rattle.lb_wire.specs.Message.{Message, Lays};
ghost use Rattle.lb_wire.specs.Octets.{max_message};
ghost use Rattle.lb_wire.specs.Query.{Reads, IsQuery, view_of};
ghost use Rattle.lb_wire.specs.declared.query.QueryView.{QueryView};
ghost use Rattle.lb_wire.specs.declared.query.QueryFault.{QueryFault};
ghost use Rattle.lb_step.specs.Plain.{plain_of};
ghost use Rattle.lb_step.specs.Forward.{failure_of};
ghost use Rattle.lb_step.specs.Query.{is_transfer as is_transfer_of, takes_memory, takes_room, to_pool, walked_of, AnswersByRules, AnswersQuery, Decides, MayLack};
ghost use Rattle.lb_step.specs.Answer.{marked};
ghost use Rattle.lb_step.specs.Noted.{asked_by, no_note, pool_asked, query_noted, rules_noted};
ghost use Rattle.lb_step.specs.declared.answer.Answer.TheVariants.{Local, NoMemory};
ghost use Rattle.lb_step.specs.declared.answer.LocalReason.TheVariants as locals;
ghost use Rattle.lb_chain.specs.declared.walked.Verdict.TheVariants.{Allow};

use crate::answer::{Answer, DropReason, LocalReason};
use crate::asked::{Asked, Routed};
use crate::forward::refused;
use crate::lacking::Lacking;
use crate::look::answer_by_pool;
use crate::noted::Noted;
use crate::upstream::Upstream;
use lb_chain::{Addrs, Chain, Verdict, Walked, first_to_end_decides, seen_walks};
use lb_wire::{
    CacheId, Octets, PoolId, QueryFault, QueryView, Rcode, RecordType, RuleId, answer_in_place,
    formerr_in_place, read_query, spoofed, truncated_in_place,
};
use std::alloc::Global;

/// Answers a query, step by step: it is read, transfers are refused, the rules are walked, room is taken for what
/// follows, the passes are counted, and the verdict answers or names the pool whose cache or server is to.
pub(crate) fn answer_query(
    alloc: Global,
    chain: &mut Chain,
    upstream: &mut Upstream,
    asked: &Asked,
    bytes: Octets,
    noted: &mut Noted,
) -> Answer
    requires noted { noted.old ≡ no_note }
    requires moment { chain.old.moment ≤ asked.now.moment }
    ensures moment { chain.new.moment ≤ asked.now.moment }
    ensures step { AnswersQuery (plain_of asked.now.moment chain.old upstream.old) asked.now bytes result (plain_of asked.now.moment chain.new upstream.new) }
    ensures mark { IsTrue (marked result) → (view : QueryView) × MayLack (plain_of asked.now.moment chain.old upstream.old) asked.now bytes view }
    ensures noted { (reading : Result QueryView QueryFault) × Reads bytes reading × (noted.new ≡ query_noted (marked result) (plain_of asked.now.moment chain.old upstream.old) asked.now reading) }
{
    let mut bytes = bytes.into_vec();
    let view = match read_query(bytes.as_slice()) {
        Ok(view) => view,
        Err(QueryFault::Short) => return Answer::Dropped(DropReason::Short),
        Err(QueryFault::NotQuery) => return Answer::Dropped(DropReason::NotQuery),
        Err(QueryFault::Malformed) => {
            formerr_in_place(&mut bytes);
            return Answer::Local(Octets::from_vec(bytes), LocalReason::Malformed);
        }
    };
    if is_transfer(view.qtype) {
        return refused(bytes, &view, Rcode::Refused, LocalReason::Transfer);
    }
    answer_by_rules(alloc, chain, upstream, asked, bytes, &view, noted)
}

/// Whether a type asks for a zone transfer, whatever the class (RFC 5936, RFC 1995).
fn is_transfer(qtype: RecordType) -> bool
    ensures { result ≡ is_transfer_of qtype.0 }
{
    qtype.0 == RecordType::AXFR.0 || qtype.0 == RecordType::IXFR.0
}

/// Answers a query by the rules. Room for its passes and its answer, or its entry, is taken before anything is counted.
fn answer_by_rules(
    alloc: Global,
    chain: &mut Chain,
    upstream: &mut Upstream,
    asked: &Asked,
    bytes: Vec<u8>,
    view: &QueryView,
    noted: &mut Noted,
) -> Answer
    requires view { (m : Message) × Lays bytes.items m × IsQuery m × (view.now ≡ view_of m) }
    requires short { vec_len bytes ≤ max_message }
    requires noted { noted.old ≡ no_note }
    requires moment { chain.old.moment ≤ asked.now.moment }
    ensures moment { chain.new.moment ≤ asked.now.moment }
    ensures step { AnswersByRules (plain_of asked.now.moment chain.old upstream.old) asked.now bytes.items view.now result (plain_of asked.now.moment chain.new upstream.new) }
    ensures mark { IsTrue (marked result) → takes_memory (walked_of (plain_of asked.now.moment chain.old upstream.old) asked.now view.now) ≡ true }
    ensures noted { noted.new ≡ rules_noted (marked result) (plain_of asked.now.moment chain.old upstream.old) asked.now view.now }
{
    // Laws, which do nothing.
    seen_walks();
    first_to_end_decides();
    let (source, now) = (&asked.origin.source, asked.moment);
    let mut walked = Walked::begun();
    chain.walk_into(view, source, asked.kind, now, &mut walked);
    if let Err(error) = chain.reserve(&walked, source, now) {
        return no_memory(Lacking::from(error), bytes, view);
    }
    let mut looked = None;
    match decide(alloc, upstream, asked, bytes, view, &walked, &mut looked) {
        Ok(answer) => {
            chain.pass(&walked, source, now);
            noted.rule = walked.rule;
            noted.cache = looked;
            answer
        }
        Err((lacking, bytes)) => no_memory(lacking, bytes, view),
    }
}

/// The pool of the queries that no rule sends elsewhere.
const DEFAULT_POOL: PoolId = PoolId(0);

/// Answers a query by the rule that ended its walk, or by the default pool where none did. Where memory is refused, nothing
/// changes and the query's bytes come back with what was refused.
fn decide(
    alloc: Global,
    upstream: &mut Upstream,
    asked: &Asked,
    bytes: Vec<u8>,
    view: &QueryView,
    walked: &Walked,
    looked: &mut Option<CacheId>,
) -> Result<Answer, (Lacking, Vec<u8>)>
    requires view { (m : Message) × Lays bytes.items m × IsQuery m × (view.now ≡ view_of m) }
    requires short { vec_len bytes ≤ max_message }
    requires allow { walked.now.rule ≡ None → walked.now.verdict ≡ Allow }
    requires looked { looked.old ≡ None }
    ensures looked { IfOk result (λ _. looked.new ≡ asked_by upstream.old view.now walked.now (pool_asked walked.now.rule walked.now.verdict)) }
    ensures decides { IfOk result (λ answer. Decides upstream.old asked.now bytes.items view.now walked.now answer upstream.new) }
    ensures back { IfErr result (λ back. back.1.items ≡ bytes.items) }
    ensures takes { IfErr result (λ _. takes_room walked.now.verdict ≡ true) }
    ensures unchanged { OnErr result (upstream.new ≡ upstream.old) }
{
    let Some(rule) = walked.rule else {
        let routed = to_pool(walked, DEFAULT_POOL);
        return answer_by_pool(alloc, upstream, asked, bytes, view, routed, looked);
    };
    match &walked.verdict {
        Verdict::Allow => {
            let routed = to_pool(walked, DEFAULT_POOL);
            answer_by_pool(alloc, upstream, asked, bytes, view, routed, looked)
        }
        Verdict::Pool(pool) => {
            let routed = to_pool(walked, *pool);
            answer_by_pool(alloc, upstream, asked, bytes, view, routed, looked)
        }
        Verdict::Drop => Ok(Answer::Dropped(DropReason::Rule(rule))),
        Verdict::Rcode(rcode) => Ok(refused(bytes, view, *rcode, LocalReason::Rule(rule))),
        Verdict::Tc => Ok(truncated(bytes, view, rule)),
        Verdict::Spoof(addrs) => spoof(alloc, bytes, view, addrs, rule),
    }
}

/// A pool that is to answer a query, and what the rules before said.
fn to_pool(walked: &Walked, pool: PoolId) -> Routed
    ensures { result ≡ to_pool walked.now pool }
{
    Routed {
        pool,
        no_recurse: walked.no_recurse,
        skip_cache: walked.skip_cache,
    }
}

/// The truncated answer, in the query's own bytes.
fn truncated(mut bytes: Vec<u8>, view: &QueryView, rule: RuleId) -> Answer
    requires view { (m : Message) × Lays bytes.items m × IsQuery m × (view.now ≡ view_of m) }
    requires short { vec_len bytes ≤ max_message }
    ensures { result ≡ Local (truncated_of view.now) (locals.Rule rule) }
{
    truncated_in_place(&mut bytes, view);
    Answer::Local(Octets::from_vec(bytes), LocalReason::Rule(rule))
}

/// The answer with addresses; the query's bytes, where the memory for it is refused.
fn spoof(
    alloc: Global,
    bytes: Vec<u8>,
    view: &QueryView,
    addrs: &Addrs,
    rule: RuleId,
) -> Result<Answer, (Lacking, Vec<u8>)>
    requires { (m : Message) × Lays bytes.items m × IsQuery m × (view.now ≡ view_of m) }
    ensures answer { IfOk result (λ answer. answer ≡ Local (spoofed_of view.now addrs.now) (locals.Rule rule)) }
    ensures back { IfErr result (λ back. back.1.items ≡ bytes.items) }
{
    match spoofed(alloc, bytes.as_slice(), view, addrs.as_slice()) {
        Ok(answer) => Ok(Answer::Local(Octets::from_vec(answer), LocalReason::Rule(rule))),
        Err(error) => Err((Lacking::from(error), bytes)),
    }
}

/// The answer where memory was refused: ServFail, in the query's own bytes. No other function makes one.
fn no_memory(_lacking: Lacking, mut bytes: Vec<u8>, view: &QueryView) -> Answer
    requires view { (m : Message) × Lays bytes.items m × IsQuery m × (view.now ≡ view_of m) }
    requires short { vec_len bytes ≤ max_message }
    ensures { result ≡ NoMemory (failure_of view.now) }
{
    answer_in_place(&mut bytes, view, Rcode::ServFail);
    Answer::NoMemory(Octets::from_vec(bytes))
}
