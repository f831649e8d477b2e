//! Addresses and masks.

ghost use Rattle.std.specs.Prelude.{◌≡◌, ◌++◌, ◌∷◌, [], IfOk, IsTrue, length, string_bytes};
ghost use Rattle.std.specs.List.{list_all};
ghost use Rattle.std.specs.Fmt.{decimal};
ghost use Rattle.hex.specs.Hex.{IsBytes, encode_lower};
ghost use Rattle.lb_masks.specs.Mask.{prefix_of, width};
ghost use Rattle.lb_command.specs.Line.{is_word_byte};
ghost use Rattle.lb_command.specs.Values.{mask_of};
ghost use Rattle.lb_typed.specs.Addrs.{AreOctets, TypesAddr, dotted, grouped, is_other};
ghost use Rattle.lb_typed.specs.Words.{Types};

use lb_masks::{Mask, masked, parse_addr};
use lb_wire::Addr;
use std::alloc::{AllocError, Global};

/// Whether a byte can be in a word.
fn is_word_byte(byte: u8) -> bool
    ensures { result ≡ is_word_byte byte }
{
    byte >= 0x21 && byte <= 0x7e && byte != b'(' && byte != b')' && byte != b','
}

/// Whether a text is one word.
fn is_word(text: &[u8]) -> bool
    ensures { result ≡ list_all is_word_byte text.now }
{
    text.iter().all(|byte| is_word_byte(*byte))
}

/// Whether no byte of a text is `/`.
fn has_no_slash(text: &[u8]) -> bool
    ensures { result ≡ list_all (is_other 47) text.now }
{
    text.iter().all(|byte| *byte != b'/')
}

/// Whether a text is a word that is read as this address.
fn is_read_as(text: &str, addr: &Addr) -> bool
    ensures { IsTrue result → TypesAddr addr.now text.now }
{
    let bytes = text.as_bytes();
    !bytes.is_empty() && is_word(bytes) && has_no_slash(bytes) && parse_addr(text) == Some(*addr)
}

/// The octets of an IPv4 address as decimal numbers with dots between them.
fn dotted(alloc: Global, octets: &[u8; 4]) -> Result<String, AllocError>
    ensures { IfOk result (λ text. string_bytes text ≡ dotted octets.now) }
{
    let [a, b, c, d] = *octets;
    format!(in alloc; "{a}.{b}.{c}.{d}")
}

/// Two octets as four hexadecimal digits.
fn group(alloc: Global, high: u8, low: u8) -> Result<String, AllocError>
    ensures { IfOk result (λ text. string_bytes text ≡ encode_lower (high ∷ low ∷ [])) }
{
    hex::encode(alloc, &[high, low])
}

/// Pairs of octets as four hexadecimal digits each, with colons between them.
#[cycle(grouped)]
fn grouped(alloc: Global, octets: &[u8]) -> Result<String, AllocError>
    ensures { IfOk result (λ text. string_bytes text ≡ grouped octets.now) }
{
    let [high, low, others @ ..] = octets else {
        return Ok(String::new(alloc));
    };
    let first = group(alloc, *high, *low)?;
    if others.is_empty() {
        return Ok(first);
    }
    let others = grouped(alloc, others)?;
    format!(in alloc; "{first}:{others}")
}

/// An IPv4 address has four octets.
fn law_of_four(octets: &[u8; 4])
    ensures { length octets.now ≡ 4 }
{
    let _len = octets.len();
}

/// An IPv6 address has sixteen octets.
fn law_of_sixteen(octets: &[u8; 16])
    ensures { length octets.now ≡ 16 }
{
    let _len = octets.len();
}

/// Each octet is below 256.
pub(crate) fn law_of_octets(octets: &[u8])
    ensures { IsBytes octets.now }
{
    for octet in octets {
        let _octet = *octet;
    }
}

/// An address, as short as it can be. An IPv6 address has its longest run of groups of zeros, of
/// several the first, as `::`, even if it is one group, and no part of it is written in decimal.
pub fn addr_word(alloc: Global, addr: &Addr) -> Result<String, AllocError>
    ensures { IfOk result (λ text. TypesAddr addr.now (string_bytes text)) }
{
    match addr {
        Addr::V4(octets) => {
            law_of_four(octets);
            law_of_octets(octets);
            dotted(alloc, octets)
        }
        Addr::V6(octets) => {
            law_of_sixteen(octets);
            law_of_octets(octets);
            let text = shortest(alloc, octets)?;
            if is_read_as(text.as_str(), addr) {
                return Ok(text);
            }
            grouped(alloc, octets)
        }
    }
}

/// The groups of an IPv6 address.
fn groups_of(octets: &[u8; 16]) -> [u16; 8] {
    let mut groups = [0u16; 8];
    for at in 0..8usize {
        groups[at] = u16::from(octets[2 * at]) * 256 + u16::from(octets[2 * at + 1]);
    }
    groups
}

/// Where the longest run of groups of zeros begins and ends; of several the first.
fn longest_zeros(groups: &[u16; 8]) -> (usize, usize) {
    let (mut best, mut end) = (8usize, 8usize);
    let mut from = 0usize;
    for at in 0..8usize {
        let next = at.saturating_add(1);
        if groups[at] != 0 {
            from = next;
            continue;
        }
        let len = next.saturating_sub(from);
        if len > end.saturating_sub(best) {
            best = from;
            end = next;
        }
    }
    (best, end)
}

/// An IPv6 address as short as it can be.
fn shortest(alloc: Global, octets: &[u8; 16]) -> Result<String, AllocError> {
    let groups = groups_of(octets);
    let (from, end) = longest_zeros(&groups);
    let mut text = String::new(alloc);
    for at in 0..8usize {
        if at == from {
            text.push_str("::")?;
        }
        if at >= from && at < end {
            continue;
        }
        if at > 0 && at != end {
            text.push_str(":")?;
        }
        let group = groups[at];
        let digits = format!(in alloc; "{group:x}")?;
        text.push_str(digits.as_str())?;
    }
    Ok(text)
}

/// How many bits an address has.
fn width(addr: &Addr) -> u8
    ensures { result ≡ width addr.now }
{
    match addr {
        Addr::V4(_) => 32,
        Addr::V6(_) => 128,
    }
}

/// The bytes of a mask: its address, and its length if that is not the whole address.
fn with_length(alloc: Global, addr: &str, length: u8) -> Result<String, AllocError>
    ensures { IfOk result (λ text. string_bytes text ≡ addr.now ++ 47 ∷ decimal length) }
{
    format!(in alloc; "{addr}/{length}")
}

/// The octets of an address are below 256, and so many.
fn law_of_addr(addr: &Addr)
    ensures { AreOctets addr.now }
{
    match addr {
        Addr::V4(octets) => law_of_octets(octets),
        Addr::V6(octets) => law_of_octets(octets),
    }
}

/// A mask is the one of its network and its length, as the bits past its length are 0.
fn law_of_mask(mask: &Mask)
    ensures { prefix_of mask.now.len mask.now.network ≡ mask.now }
{
    let network = mask.network();
    let length = mask.length();
    let kept = masked(network, length.min(32), length);
    law_of_addr(&network);
    law_of_addr(&kept);
}

/// A mask. The length of a whole address is left out.
pub(crate) fn mask_word(alloc: Global, mask: &Mask) -> Result<String, AllocError>
    ensures { IfOk result (λ text. Types mask_of mask.now (string_bytes text)) }
{
    law_of_mask(mask);
    let network = mask.network();
    let length = mask.length();
    let addr = addr_word(alloc, &network)?;
    if length == width(&network) {
        return Ok(addr);
    }
    with_length(alloc, addr.as_str(), length)
}
