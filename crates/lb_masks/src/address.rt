//! Addresses as texts (RFC 4291 section 2.2): dotted IPv4 addresses, and IPv6 addresses of groups, where one `::` may
//! stand for groups of zeros.

ghost use Rattle.std.specs.Prelude.{◌≡◌, ◌+◌, ◌<◌, ◌≤◌, IfSome, IfNone, Some, List, ℕ, length, option_map};
ghost use Rattle.lb_masks.specs.Text.{v4_of, v6_of, gap_place, side, filled, addr_of_text};

use crate::form::{Form, MAX_OCTETS, spelled};
use arrayvec::ArrayVec;
use lb_wire::Addr;

/// What stands between two groups.
const COLON: u8 = b':';

/// The bytes of a `::`.
const GAP_BYTES: usize = 2;

/// The octets of one group: a `::` stands for one at least.
const GROUP_OCTETS: usize = 2;

/// The address that four decimal numbers between dots spell.
fn v4(text: &[u8]) -> Option<Addr>
    ensures { result ≡ v4_of text.now }
{
    let octets = spelled(text, Form::Dotted)?;
    match octets.as_slice() {
        [a, b, c, d] => Some(Addr::V4([*a, *b, *c, *d])),
        _ => None,
    }
}

/// The place of the first `::`.
fn gap_place(text: &[u8]) -> Option<usize>
    ensures place { result ≡ gap_place text.now }
    ensures within { IfSome result (λ place. place + 2 ≤ length text.now) }
{
    for place in 1..text.len() {
        if text[place - 1] == COLON && text[place] == COLON {
            return Some(place - 1);
        }
    }
    None
}

/// The octets of the groups on one side of a `::`, where nothing may stand too.
fn side(text: &[u8]) -> Option<ArrayVec<u8, MAX_OCTETS>>
    ensures found { IfSome result (λ octets. side text.now ≡ Some octets.items) }
    ensures none { IfNone result ((all : List ℕ) → side text.now ≡ Some all → 16 < length all) }
{
    if text.is_empty() {
        return Some(ArrayVec::new());
    }
    spelled(text, Form::Colons)
}

/// The address of the octets before and after a `::`, with zeros between them. None where no group is left for it.
fn filled(before: &[u8], behind: &[u8]) -> Option<Addr>
    ensures { result ≡ filled (Some before.now) (Some behind.now) }
{
    if before.len() > MAX_OCTETS || before.len() + behind.len() + GROUP_OCTETS > MAX_OCTETS {
        return None;
    }
    let mut octets = [0; MAX_OCTETS];
    octets[..before.len()].copy_from_slice(before);
    octets[MAX_OCTETS - behind.len()..].copy_from_slice(behind);
    Some(Addr::V6(octets))
}

/// The address of the groups before and after a `::`.
fn around(before: &[u8], behind: &[u8]) -> Option<Addr>
    ensures { result ≡ filled (side before.now) (side behind.now) }
{
    let before = side(before)?;
    let behind = side(behind)?;
    filled(before.as_slice(), behind.as_slice())
}

/// The address that eight groups spell, or fewer with one `::` in the place of the others.
fn v6(text: &[u8]) -> Option<Addr>
    ensures { result ≡ v6_of text.now }
{
    match gap_place(text) {
        None => match spelled(text, Form::Colons)?.into_inner() {
            Ok(octets) => Some(Addr::V6(octets)),
            Err(_) => None,
        },
        Some(place) => {
            let (before, behind) = text.split_at(place);
            let (_, behind) = behind.split_at(GAP_BYTES);
            around(before, behind)
        }
    }
}

/// The address that the bytes spell.
pub(crate) fn addr_of(text: &[u8]) -> Option<Addr>
    ensures { result ≡ addr_of_text text.now }
{
    match v4(text) {
        Some(addr) => Some(addr),
        None => v6(text),
    }
}

/// The address that a text spells: four decimal numbers between dots, with no leading zeros, or eight groups of one to
/// four hexadecimal digits between colons, where one `::` may stand for one or more groups of zeros (RFC 4291 section
/// 2.2, its forms 1 and 2). A dotted tail, a zone, brackets and spaces are refused.
pub fn parse_addr(text: &str) -> Option<Addr>
    ensures { result ≡ addr_of_text text.now }
{
    addr_of(text.as_bytes())
}
