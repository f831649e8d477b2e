//! Parts of a line that are one word.

ghost use Rattle.std.specs.Prelude.{◌≤◌, IfOk};
ghost use Rattle.lb_command.specs.declared.fault.FaultKind.TheVariants.{BadAddress, BadHex, BadName, BadNumber, UnknownWord};
ghost use Rattle.lb_command.specs.Reading.{Reads, due, optional};
ghost use Rattle.lb_command.specs.Terms.{type_at};
ghost use Rattle.lb_command.specs.Values.{addr_of, count_of, hex_of, ident_of, in_range, kind_of, lane_of, mask_of, mode_of, name_of, outcome_of, policy_of, pool_of, port_of, protocol_of, rcode_of, type_of};

use crate::fault::{FaultKind, Unread};
use crate::setup::Protocol;
use crate::values::{
    addr_of, count_of, entries_of, hex_of, ident_of, in_range, kind_of, lane_count_of, lane_of,
    mask_of, max_ttl_of, mode_of, name_of, outcome_of, policy_of, pool_of, port_of, protocol_of,
    shards_of, timeout_of, type_kind, type_of,
};
use crate::words::Words;
use lb_cache::{MaxEntries, MaxTtl, Shards};
use lb_core::Timeout;
use lb_masks::Mask;
use lb_name::Name;
use lb_servers::{Ident, LaneCount, Mode, Policy, PoolName};
use lb_wire::{Addr, Kind, Lane, Octets, Rcode, RecordType};
use std::alloc::Global;
use std::num::{NonZeroU8, NonZeroU16};

/// Takes the name of a server.
pub(crate) fn ident(words: &mut Words<'_>) -> Result<Ident, Unread>
    ensures { Reads (λ name. name) result words.new (due BadName ident_of words.old) }
{
    let token = words.next();
    ident_of(token.text).ok_or(token.fault(FaultKind::BadName))
}

/// Takes the name of a pool.
pub(crate) fn pool(words: &mut Words<'_>) -> Result<PoolName, Unread>
    ensures { Reads (λ name. name) result words.new (due BadName pool_of words.old) }
{
    let token = words.next();
    pool_of(token.text).ok_or(token.fault(FaultKind::BadName))
}

/// Takes a domain name.
pub(crate) fn name(words: &mut Words<'_>) -> Result<Name, Unread>
    ensures { Reads (λ name. name) result words.new (due BadName name_of words.old) }
{
    let token = words.next();
    name_of(token.text).ok_or(token.fault(FaultKind::BadName))
}

/// Takes an address.
pub(crate) fn addr(words: &mut Words<'_>) -> Result<Addr, Unread>
    ensures { Reads (λ addr. addr) result words.new (due BadAddress addr_of words.old) }
{
    let token = words.next();
    addr_of(token.text).ok_or(token.fault(FaultKind::BadAddress))
}

/// Takes a mask.
pub(crate) fn mask(words: &mut Words<'_>) -> Result<Mask, Unread>
    ensures { Reads (λ mask. mask) result words.new (due BadAddress mask_of words.old) }
{
    let token = words.next();
    mask_of(token.text).ok_or(token.fault(FaultKind::BadAddress))
}

/// Takes a number that is within these bounds.
pub(crate) fn number_in(words: &mut Words<'_>, low: u32, high: u32) -> Result<u32, Unread>
    ensures read { Reads (λ n. n) result words.new (due BadNumber (in_range low high) words.old) }
    ensures fits { IfOk result (λ n. n ≤ high) }
{
    let token = words.next();
    in_range(token.text, low, high).ok_or(token.fault(FaultKind::BadNumber))
}

/// Takes a number from 1 to 255.
pub(crate) fn count(words: &mut Words<'_>) -> Result<NonZeroU8, Unread>
    ensures { Reads (λ n. n) result words.new (due BadNumber count_of words.old) }
{
    let token = words.next();
    count_of(token.text).ok_or(token.fault(FaultKind::BadNumber))
}

/// Takes a port.
pub(crate) fn port(words: &mut Words<'_>) -> Result<NonZeroU16, Unread>
    ensures { Reads (λ n. n) result words.new (due BadNumber port_of words.old) }
{
    let token = words.next();
    port_of(token.text).ok_or(token.fault(FaultKind::BadNumber))
}

/// Takes how many replies a cache keeps at most.
pub(crate) fn max_entries(words: &mut Words<'_>) -> Result<MaxEntries, Unread>
    ensures { Reads (λ max. max) result words.new (due BadNumber (in_range 1 1000000) words.old) }
{
    let token = words.next();
    entries_of(token.text).ok_or(token.fault(FaultKind::BadNumber))
}

/// Takes how many lanes of each transport a server has.
pub(crate) fn lane_count(words: &mut Words<'_>) -> Result<LaneCount, Unread>
    ensures { Reads (λ lanes. lanes) result words.new (due BadNumber (in_range 1 8) words.old) }
{
    let token = words.next();
    lane_count_of(token.text).ok_or(token.fault(FaultKind::BadNumber))
}

/// Takes a lane.
pub(crate) fn lane(words: &mut Words<'_>) -> Result<Lane, Unread>
    ensures { Reads (λ lane. lane) result words.new (due UnknownWord lane_of words.old) }
{
    let token = words.next();
    lane_of(token.text).ok_or(token.fault(FaultKind::UnknownWord))
}

/// Takes over how many shards a cache spreads its replies.
pub(crate) fn shards(words: &mut Words<'_>) -> Result<Shards, Unread>
    ensures { Reads (λ shards. shards) result words.new (due BadNumber (in_range 1 64) words.old) }
{
    let token = words.next();
    shards_of(token.text).ok_or(token.fault(FaultKind::BadNumber))
}

/// Takes the longest life of a reply in a cache.
pub(crate) fn max_ttl(words: &mut Words<'_>) -> Result<MaxTtl, Unread>
    ensures { Reads (λ max_ttl. max_ttl) result words.new (due BadNumber (in_range 1 604800) words.old) }
{
    let token = words.next();
    max_ttl_of(token.text).ok_or(token.fault(FaultKind::BadNumber))
}

/// Takes how long a query waits for its reply.
pub(crate) fn timeout(words: &mut Words<'_>) -> Result<Timeout, Unread>
    ensures { Reads (λ timeout. timeout) result words.new (due BadNumber (in_range 1 60000) words.old) }
{
    let token = words.next();
    timeout_of(token.text).ok_or(token.fault(FaultKind::BadNumber))
}

/// Takes a type.
pub(crate) fn record_type(words: &mut Words<'_>) -> Result<RecordType, Unread>
    ensures { Reads (λ qtype. qtype) result words.new (type_at words.old) }
{
    let token = words.next();
    type_of(token.text).ok_or(token.fault(type_kind(token.text)))
}

/// Takes a type, where one comes.
pub(crate) fn optional_type(words: &mut Words<'_>) -> Result<Option<RecordType>, Unread>
    ensures { Reads (λ qtype. qtype) result words.new (optional type_of words.old) }
{
    let Some(qtype) = type_of(words.peek().text) else {
        return Ok(None);
    };
    let _ = words.next();
    Ok(Some(qtype))
}

/// Takes a response code.
pub(crate) fn rcode(words: &mut Words<'_>) -> Result<Rcode, Unread>
    ensures { Reads (λ rcode. rcode) result words.new (due UnknownWord rcode_of words.old) }
{
    let token = words.next();
    Rcode::from_name(token.text).ok_or(token.fault(FaultKind::UnknownWord))
}

/// Takes the mode of a server.
pub(crate) fn mode(words: &mut Words<'_>) -> Result<Mode, Unread>
    ensures { Reads (λ mode. mode) result words.new (due UnknownWord mode_of words.old) }
{
    let token = words.next();
    mode_of(token.text).ok_or(token.fault(FaultKind::UnknownWord))
}

/// Takes the policy of a pool.
pub(crate) fn policy(words: &mut Words<'_>) -> Result<Policy, Unread>
    ensures { Reads (λ policy. policy) result words.new (due UnknownWord policy_of words.old) }
{
    let token = words.next();
    policy_of(token.text).ok_or(token.fault(FaultKind::UnknownWord))
}

/// Takes a transport.
pub(crate) fn kind(words: &mut Words<'_>) -> Result<Kind, Unread>
    ensures { Reads (λ kind. kind) result words.new (due UnknownWord kind_of words.old) }
{
    let token = words.next();
    kind_of(token.text).ok_or(token.fault(FaultKind::UnknownWord))
}

/// Takes whether a probe was answered as it should be.
pub(crate) fn outcome(words: &mut Words<'_>) -> Result<bool, Unread>
    ensures { Reads (λ ok. ok) result words.new (due UnknownWord outcome_of words.old) }
{
    let token = words.next();
    outcome_of(token.text).ok_or(token.fault(FaultKind::UnknownWord))
}

/// Takes what clients are listened to by.
pub(crate) fn protocol(words: &mut Words<'_>) -> Result<Protocol, Unread>
    ensures { Reads (λ protocol. protocol) result words.new (due UnknownWord protocol_of words.old) }
{
    let token = words.next();
    protocol_of(token.text).ok_or(token.fault(FaultKind::UnknownWord))
}

/// Takes octets.
pub(crate) fn octets(alloc: Global, words: &mut Words<'_>) -> Result<Octets, Unread>
    ensures { Reads (λ octets. octets) result words.new (due BadHex hex_of words.old) }
{
    let token = words.next();
    hex_of(alloc, token.text)?.ok_or(token.fault(FaultKind::BadHex))
}
