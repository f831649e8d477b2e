//! Words for values.

ghost use Rattle.std.specs.Prelude.{◌≡◌, ◌++◌, ◌∷◌, ◌<◌, ◌^◌, IfOk, IfSome, string_bytes, true};
ghost use Rattle.std.specs.Fmt.{decimal};
ghost use Rattle.lb_name.specs.Text.{has_name_bytes};
ghost use Rattle.lb_name.specs.Name.{IsName};
ghost use Rattle.lb_command.specs.Answers.{lane_text};
ghost use Rattle.lb_command.specs.Values.{ident_of, kind_of, lane_of, mode_of, name_of, outcome_of, policy_of, pool_of, rcode_of, type_of};
ghost use Rattle.lb_typed.specs.Words.{IsShort, IsShortened, IsTypedCode, Types};

use lb_name::Name;
use lb_servers::{Ident, Mode, Policy, PoolName};
use lb_wire::{Kind, Lane, Rcode, RecordType};
use std::alloc::{AllocError, Global};

/// What the text of a name is without the dot at its end, if it is more than a dot.
fn short_of(text: &[u8]) -> Option<&[u8]>
    ensures { IfSome result (λ front. IsShort front.now text.now) }
{
    let (dot, front) = text.split_last()?;
    let (last, _) = front.split_last()?;
    if *dot != b'.' || *last == b'.' {
        return None;
    }
    Some(front)
}

/// The text of a name without the dot at its end, if it is more than a dot.
fn shortened(text: &str) -> &str
    ensures { IsShortened result.now text.now }
{
    if let Some(front) = short_of(text.as_bytes())
        && let Ok(short) = str::from_utf8(front)
    {
        return short;
    }
    text
}

/// A name, without the dot at its end. The root is a dot. A name with an octet that cannot be typed
/// is `?`.
pub(crate) fn name_word(alloc: Global, name: &Name) -> Result<String, AllocError>
    ensures { IfOk result (λ text. has_name_bytes name.now ≡ true → Types name_of name.now (string_bytes text)) }
{
    lb_name::text_round_trip();
    law_of_name(name);
    let Some(whole) = name.write_text() else {
        return String::from_str(alloc, "?");
    };
    String::from_str(alloc, shortened(whole.as_str()))
}

/// The name of a server.
pub(crate) fn ident_word(name: &Ident) -> &str
    ensures { Types ident_of name.now result.now }
{
    name.law_of_idents();
    name.as_str()
}

/// The name of a pool; `-` is the default one.
pub fn pool_word(name: &PoolName) -> &str
    ensures { Types pool_of name.now result.now }
{
    match name {
        PoolName::Default => "-",
        PoolName::Named(name) => ident_word(name),
    }
}

/// The mode of a server.
pub fn mode_word(mode: Mode) -> &'static str
    ensures { Types mode_of mode result.now }
{
    match mode {
        Mode::Up => "up",
        Mode::Down => "down",
        Mode::Auto => "auto",
    }
}

/// The policy of a pool.
pub fn policy_word(policy: Policy) -> &'static str
    ensures { Types policy_of policy result.now }
{
    match policy {
        Policy::FirstAvailable => "firstAvailable",
        Policy::LeastOutstanding => "leastOutstanding",
        Policy::RoundRobin => "roundrobin",
    }
}

/// The transport of a query.
pub(crate) fn kind_word(kind: Kind) -> &'static str
    ensures { Types kind_of kind result.now }
{
    match kind {
        Kind::Datagram => "udp",
        Kind::Stream => "tcp",
    }
}

/// How a probe ended.
pub(crate) fn outcome_word(ok: bool) -> &'static str
    ensures { Types outcome_of ok result.now }
{
    if ok { "ok" } else { "fail" }
}

/// The RCODE of a rule's answer. One that cannot be typed is `?`.
pub(crate) fn rcode_word(rcode: Rcode) -> &'static str
    ensures { IsTypedCode rcode → Types rcode_of rcode result.now }
{
    match rcode {
        Rcode::NoError => "NOERROR",
        Rcode::FormErr => "FORMERR",
        Rcode::ServFail => "SERVFAIL",
        Rcode::NXDomain => "NXDOMAIN",
        Rcode::NotImp => "NOTIMP",
        Rcode::Refused => "REFUSED",
        _ => "?",
    }
}

/// The name of a type, if it has one that can be typed.
fn type_name(qtype: RecordType) -> Option<&'static str>
    ensures { IfSome result (λ name. Types type_of qtype name.now) }
{
    match qtype.0 {
        1 => Some("A"),
        2 => Some("NS"),
        5 => Some("CNAME"),
        6 => Some("SOA"),
        12 => Some("PTR"),
        15 => Some("MX"),
        16 => Some("TXT"),
        28 => Some("AAAA"),
        33 => Some("SRV"),
        255 => Some("ANY"),
        _ => None,
    }
}

/// A number.
pub(crate) fn number_text(alloc: Global, number: u64) -> Result<String, AllocError>
    ensures { IfOk result (λ text. string_bytes text ≡ decimal number) }
{
    format!(in alloc; "{number}")
}

/// A text, a space, and another text.
pub(crate) fn spaced(alloc: Global, first: &str, second: &str) -> Result<String, AllocError>
    ensures { IfOk result (λ text. string_bytes text ≡ first.now ++ 32 ∷ second.now) }
{
    format!(in alloc; "{first} {second}")
}

/// A text, and another one right after it.
pub(crate) fn joined(alloc: Global, first: &str, second: &str) -> Result<String, AllocError>
    ensures { IfOk result (λ text. string_bytes text ≡ first.now ++ second.now) }
{
    format!(in alloc; "{first}{second}")
}

/// A number of 8 bits is within them.
pub(crate) fn law_of_u8(number: u8)
    ensures { number < 2 ^ 8 }
{}

/// A number of 64 bits is within them.
pub(crate) fn law_of_u64(number: u64)
    ensures { number < 2 ^ 64 }
{}

/// A number of 16 bits is within them.
pub(crate) fn law_of_u16(number: u16)
    ensures { number < 2 ^ 16 }
{}

/// A type: its name, or its number.
pub fn type_word(alloc: Global, qtype: RecordType) -> Result<String, AllocError>
    ensures { IfOk result (λ text. Types type_of qtype (string_bytes text)) }
{
    match type_name(qtype) {
        Some(name) => String::from_str(alloc, name),
        None => {
            law_of_u16(qtype.0);
            number_text(alloc, u64::from(qtype.0))
        }
    }
}

/// The bytes of a lane: its transport, and its number if that is not 0.
fn lane_text(alloc: Global, lane: Lane) -> Result<String, AllocError>
    ensures { IfOk result (λ text. string_bytes text ≡ lane_text lane) }
{
    let kind = kind_word(lane.kind);
    let number = lane.number;
    if number == 0 {
        return String::from_str(alloc, kind);
    }
    format!(in alloc; "{kind}/{number}")
}

/// A lane of a server: its transport, and its number if that is not 0.
pub(crate) fn lane_word(alloc: Global, lane: Lane) -> Result<String, AllocError>
    ensures { IfOk result (λ text. lane.number < 8 → Types lane_of lane (string_bytes text)) }
{
    lane_text(alloc, lane)
}

/// A name is one.
fn law_of_name(name: &Name)
    ensures { IsName name.now }
{
    let own = name.copy();
    let _ = own.as_wire();
}
