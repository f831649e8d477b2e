//! What a word says: names, addresses, masks, numbers, octets, and the words of tables.

ghost use Rattle.std.specs.Prelude.{◌≡◌, ◌≤◌, ◌*◌, ◌/◌, IfOk, IfSome, None, Some, if◌then◌else◌, length, map, option_map};
ghost use Rattle.std.specs.List.{list_all};
ghost use Rattle.std.specs.Result.{result_ok};
ghost use Rattle.hex.specs.Hex.{decode_of};
ghost use Rattle.lb_wire.specs.Octets.{max_message};
ghost use Rattle.lb_command.specs.Line.{is_word_byte};
ghost use Rattle.lb_command.specs.Values.{addr_of, count_of, hex_of, ident_of, in_range, kind_of, lane_of, looked_up, mask_of, mode_of, name_of, outcome_of, policy_of, pool_of, port_of, protocol_of, type_kind, type_of, worded};

use crate::answers::{kind_word, mode_word, policy_word};
use crate::fault::FaultKind;
use crate::setup::Protocol;
use crate::words::is_word_byte;
use lb_cache::{MaxEntries, MaxTtl, Shards};
use lb_core::Timeout;
use lb_masks::{Mask, decimal_up_to, parse_addr};
use lb_name::Name;
use lb_servers::{Ident, LaneCount, Mode, Policy, PoolName};
use lb_wire::{Addr, Kind, Lane, MAX_MESSAGE, Octets, RecordType};
use std::alloc::{AllocError, Global};
use std::num::{NonZeroU8, NonZeroU16};
use std::str::from_utf8;

/// The greatest number that is looked at where a lesser one is due.
const MAX_NUMBER: u64 = 4_294_967_295;

/// The length of a transport's word.
const KIND_LENGTH: usize = 3;

/// The last lane of a transport.
const LAST_LANE: u64 = 7;

/// The modes of a server.
const MODES: [Mode; 3] = [Mode::Up, Mode::Down, Mode::Auto];

/// The policies of a pool.
const POLICIES: [Policy; 3] = [
    Policy::FirstAvailable,
    Policy::LeastOutstanding,
    Policy::RoundRobin,
];

/// The transports.
const KINDS: [Kind; 2] = [Kind::Datagram, Kind::Stream];

/// Whether a probe was answered as it should be.
const OUTCOMES: [(bool, &str); 2] = [(true, "ok"), (false, "fail")];

/// What clients are listened to by.
const PROTOCOLS: [(Protocol, &str); 4] = [
    (Protocol::Udp, "udp"),
    (Protocol::Tcp, "tcp"),
    (Protocol::Doh, "doh"),
    (Protocol::Console, "console"),
];

/// What a word says by a table.
pub(crate) fn look_up<T: Copy>(table: &[(T, &str)], text: &[u8]) -> Option<T>
    ensures { result ≡ looked_up (map worded table.now) text.now }
{
    for (value, word) in table {
        if word.as_bytes() == text {
            return Some(*value);
        }
    }
    None
}

/// The mode that a word names.
pub(crate) fn mode_of(text: &[u8]) -> Option<Mode>
    ensures { result ≡ mode_of text.now }
{
    MODES
        .iter()
        .find(|mode| mode_word(**mode).as_bytes() == text)
        .copied()
}

/// The policy that a word names.
pub(crate) fn policy_of(text: &[u8]) -> Option<Policy>
    ensures { result ≡ policy_of text.now }
{
    POLICIES
        .iter()
        .find(|policy| policy_word(**policy).as_bytes() == text)
        .copied()
}

/// The transport that a word names.
pub(crate) fn kind_of(text: &[u8]) -> Option<Kind>
    ensures { result ≡ kind_of text.now }
{
    KINDS
        .iter()
        .find(|kind| kind_word(**kind).as_bytes() == text)
        .copied()
}

/// The lane that a word names: a transport, and after a slash the lane's number if it is not lane 0.
pub(crate) fn lane_of(text: &[u8]) -> Option<Lane>
    ensures { result ≡ lane_of text.now }
{
    if text.len() > KIND_LENGTH && text[KIND_LENGTH] == b'/' {
        let (_, number) = text.split_at(KIND_LENGTH + 1);
        let (kind, _) = text.split_at(KIND_LENGTH);
        let kind = kind_of(kind)?;
        let number = decimal_up_to(number, LAST_LANE)? as u8;
        return Some(Lane { kind, number });
    }
    let kind = kind_of(text)?;
    Some(Lane { kind, number: 0 })
}

/// Whether a word says that a probe was answered as it should be.
pub(crate) fn outcome_of(text: &[u8]) -> Option<bool>
    ensures { result ≡ outcome_of text.now }
{
    look_up(&OUTCOMES, text)
}

/// The protocol that a word names.
pub(crate) fn protocol_of(text: &[u8]) -> Option<Protocol>
    ensures { result ≡ protocol_of text.now }
{
    look_up(&PROTOCOLS, text)
}

/// Whether all bytes are those of a word.
fn is_word(text: &[u8]) -> bool
    ensures { result ≡ list_all is_word_byte text.now }
{
    text.iter().all(|byte| is_word_byte(*byte))
}

/// The word as a text; none where a byte is none of a word.
fn word_text(text: &[u8]) -> Option<&str>
    ensures { option_map (λ s. s.now) result ≡ (if list_all is_word_byte text.now then Some text.now else None) }
{
    if !is_word(text) {
        return None;
    }
    match from_utf8(text) {
        Ok(text) => Some(text),
        Err(_) => unreachable!(),
    }
}

/// The name of a server or a pool that a word is.
pub(crate) fn ident_of(text: &[u8]) -> Option<Ident>
    ensures { result ≡ ident_of text.now }
{
    Ident::parse(word_text(text)?)
}

/// The name of a pool: `-` is the default pool.
pub(crate) fn pool_of(text: &[u8]) -> Option<PoolName>
    ensures { result ≡ pool_of text.now }
{
    if text == b"-".as_slice() {
        return Some(PoolName::Default);
    }
    Some(PoolName::Named(ident_of(text)?))
}

/// The domain name that a word spells.
pub(crate) fn name_of(text: &[u8]) -> Option<Name>
    ensures { result ≡ name_of text.now }
{
    Name::parse_text(word_text(text)?).ok()
}

/// The address that a word spells.
pub(crate) fn addr_of(text: &[u8]) -> Option<Addr>
    ensures { result ≡ addr_of text.now }
{
    parse_addr(word_text(text)?)
}

/// The mask that a word spells.
pub(crate) fn mask_of(text: &[u8]) -> Option<Mask>
    ensures { result ≡ mask_of text.now }
{
    Mask::parse(word_text(text)?).ok()
}

/// The type that a word names, or whose number it is.
pub(crate) fn type_of(text: &[u8]) -> Option<RecordType>
    ensures { result ≡ type_of text.now }
{
    if let Some(rtype) = RecordType::from_name(text) {
        return Some(rtype);
    }
    let number = decimal_up_to(text, 65_535)?;
    Some(RecordType(number as u16))
}

/// What is wrong with a word that is no type.
pub(crate) fn type_kind(text: &[u8]) -> FaultKind
    ensures { result ≡ type_kind text.now }
{
    match text {
        [byte, ..] if byte.is_ascii_digit() => FaultKind::BadNumber,
        _ => FaultKind::UnknownWord,
    }
}

/// The number that a word spells, where it is within these bounds.
pub(crate) fn in_range(text: &[u8], low: u32, high: u32) -> Option<u32>
    ensures value { result ≡ in_range low high text.now }
    ensures within { IfSome result (λ number. number ≤ high) }
{
    let number = decimal_up_to(text, MAX_NUMBER)? as u32;
    if low <= number && number <= high {
        Some(number)
    } else {
        None
    }
}

/// A number from 1 to 255, as a word says it.
pub(crate) fn count_of(text: &[u8]) -> Option<NonZeroU8>
    ensures { result ≡ count_of text.now }
{
    NonZeroU8::new(decimal_up_to(text, 255)? as u8)
}

/// A port, 1 to 65,535, as a word says it.
pub(crate) fn port_of(text: &[u8]) -> Option<NonZeroU16>
    ensures { result ≡ port_of text.now }
{
    NonZeroU16::new(decimal_up_to(text, 65_535)? as u16)
}

/// How many replies a cache keeps at most, as a word says it.
pub(crate) fn entries_of(text: &[u8]) -> Option<MaxEntries>
    ensures { result ≡ in_range 1 1000000 text.now }
{
    MaxEntries::new(decimal_up_to(text, MAX_NUMBER)? as u32)
}

/// How many lanes of each transport a server has, 1 to 8, as a word says it.
pub(crate) fn lane_count_of(text: &[u8]) -> Option<LaneCount>
    ensures { result ≡ in_range 1 8 text.now }
{
    LaneCount::new(in_range(text, 1, 8)? as u8)
}

/// Over how many shards a cache spreads its replies, as a word says it.
pub(crate) fn shards_of(text: &[u8]) -> Option<Shards>
    ensures { result ≡ in_range 1 64 text.now }
{
    Shards::new(decimal_up_to(text, MAX_NUMBER)? as u32)
}

/// The longest life of a reply in a cache, as a word says it, in seconds.
pub(crate) fn max_ttl_of(text: &[u8]) -> Option<MaxTtl>
    ensures { result ≡ in_range 1 604800 text.now }
{
    MaxTtl::new(decimal_up_to(text, MAX_NUMBER)? as u32)
}

/// How long a query waits for its reply, as a word says it, in milliseconds.
pub(crate) fn timeout_of(text: &[u8]) -> Option<Timeout>
    ensures { result ≡ in_range 1 60000 text.now }
{
    Timeout::from_millis(decimal_up_to(text, MAX_NUMBER)? as u32)
}

/// The octets that hexadecimal digits of either case spell, or `-` for none. The one error is lack of memory.
pub(crate) fn hex_of(alloc: Global, text: &[u8]) -> Result<Option<Octets>, AllocError>
    ensures { IfOk result (λ octets. octets ≡ hex_of text.now) }
{
    if text == b"-".as_slice() {
        return Ok(Some(Octets::from_vec(Vec::new(alloc))));
    }
    if text.is_empty() || text.len() > 2 * MAX_MESSAGE {
        return Ok(None);
    }
    if text.len() % 2 != 0 {
        return Ok(None);
    }
    pairs_of(alloc, text)
}

/// The octets that pairs of hexadecimal digits spell, in room that is taken first. The one error is lack of memory.
fn pairs_of(alloc: Global, text: &[u8]) -> Result<Option<Octets>, AllocError>
    requires pairs { length text.now ≡ 2 * (length text.now / 2) }
    requires short { length text.now / 2 ≤ max_message }
    ensures { IfOk result (λ octets. octets ≡ result_ok (decode_of text.now)) }
{
    let mut bytes = Vec::from_elem(alloc, 0u8, text.len() / 2)?;
    match hex::decode_to_slice(text, bytes.as_mut_slice()) {
        Ok(()) => Ok(Some(Octets::from_vec(bytes))),
        Err(_) => Ok(None),
    }
}
