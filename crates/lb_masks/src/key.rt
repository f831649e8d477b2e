//! The key of a mask.

ghost use Rattle.std.specs.Prelude.{◌≡◌, ◌<◌, ◌≤◌, ◌*◌, ◌∷◌, ℕ, length, slice_index, IfSome};
ghost use Rattle.std.specs.Option.{IfNone};
ghost use Rattle.lb_masks.specs.Bits.{octets_of, KeepsBits, OneFamily};
ghost use Rattle.lb_masks.specs.Mask.{width};
ghost use Rattle.lb_masks.specs.Key.{kind_at, key_of as key_of_mask, IsKeyOver, IsMask};
ghost use Rattle.lb_masks.specs.Kinds.{mark_of as mark_of_mask, IsMarkOver};

use crate::marks::mark_at;
use crate::mask::{Mask, masked};
use arrayvec::ArrayVec;
use lb_wire::Addr;
use std::marker::Model;

/// How many kinds of mask there are of IPv4: those of IPv6 follow them.
const V4_KINDS: u8 = 33;

/// How many kinds of mask there are of both families.
const KINDS: u8 = 162;

/// How many octets a key may have: one for the kind, and those of an IPv6 address.
const ROOM: usize = 17;

/// The key of a mask, in the room of the longest. A contract sees it as the list of its octets.
#[derive(Debug, Drop)]
pub(crate) struct MaskKey {
    octets: ArrayVec<u8, ROOM>,
}

impl Model for MaskKey {
    ghost use Rattle.std.specs.Prelude.{List, ℕ};

    ghost Value = { List ℕ };

    ghost view = { λ k. k.octets.items };
}

impl MaskKey {
    /// The octets.
    pub(crate) fn as_slice(&self) -> &[u8]
        ensures { result.now ≡ self.now }
    {
        self.octets.as_slice()
    }
}

/// Octets are below 256. It is a law, and does nothing.
fn are_small(octets: &[u8])
    ensures { (i : ℕ) → slice_index octets.now i < 256 }
{}

/// An address has octets, 4 or 16. It is a law, and does nothing.
fn has_octets(addr: &Addr)
    ensures small { (i : ℕ) → slice_index (octets_of addr.now) i < 256 }
    ensures sized { 8 * length (octets_of addr.now) ≡ width addr.now }
{
    match addr {
        Addr::V4(octets) => are_small(octets),
        Addr::V6(octets) => are_small(octets),
    }
}

/// The kind of a mask: its family and its length in one octet.
fn kind_at(network: &Addr, length: u8) -> u8
    requires { length ≤ width network.now }
    ensures { result ≡ kind_at network.now length }
{
    match network {
        Addr::V4(_) => length,
        Addr::V6(_) => V4_KINDS + length,
    }
}

/// The kind of a mask.
pub(crate) fn kind_of(mask: &Mask) -> u8
    ensures kind { result ≡ kind_at mask.now.network mask.now.len }
    ensures within { mask.now.len ≤ width mask.now.network }
    ensures small { result < 162 }
{
    kind_at(&mask.network(), mask.length())
}

/// The length of the masks of a kind, where they are of the family of the address.
fn length_of(kind: u8, addr: &Addr) -> Option<u8>
    ensures within { IfSome result (λ length. length ≤ width addr.now) }
    ensures kind { IfSome result (λ length. kind ≡ kind_at addr.now length) }
    ensures none { IfNone result ((len : ℕ) → len ≤ width addr.now → kind ≡ kind_at addr.now len → ⊥) }
{
    match addr {
        Addr::V4(_) => { if kind < V4_KINDS { Some(kind) } else { None } }
        Addr::V6(_) => {
            if V4_KINDS <= kind && kind < KINDS {
                Some(kind - V4_KINDS)
            } else {
                None
            }
        }
    }
}

/// The network of the address under masks of so many bits.
fn network_of(addr: &Addr, length: u8) -> Addr
    requires { length ≤ width addr.now }
    ensures { OneFamily (KeepsBits length) addr.now result }
{
    match addr {
        Addr::V4(_) => masked(*addr, length, 0),
        Addr::V6(_) => masked(*addr, 0, length),
    }
}

/// The octets of an address.
fn octets_of(addr: &Addr) -> &[u8]
    ensures octets { result.now ≡ octets_of addr.now }
    ensures sized { 8 * length result.now ≡ width addr.now }
{
    // A law, which does nothing.
    has_octets(addr);
    match addr {
        Addr::V4(octets) => octets.as_slice(),
        Addr::V6(octets) => octets.as_slice(),
    }
}

/// The mark of a mask: that of its network.
pub(crate) fn mark_of(mask: &Mask) -> u8
    ensures { result ≡ mark_of_mask mask.now }
{
    mark_at(octets_of(&mask.network()), mask.length())
}

/// The mark of the one mask of a kind that covers the address, where the kind is of the address's family. It costs less than the
/// key of that mask.
pub(crate) fn mark_over(kind: u8, addr: &Addr) -> Option<u8>
    ensures some { IfSome result (λ mark. IsMarkOver kind addr.now mark) }
    ensures none { IfNone result ((len : ℕ) → len ≤ width addr.now → kind ≡ kind_at addr.now len → ⊥) }
{
    let length = length_of(kind, addr)?;
    // A law, which does nothing.
    has_octets(addr);
    Some(mark_at(octets_of(addr), length))
}

/// A kind and the octets after it.
fn key_at(kind: u8, network: &Addr) -> MaskKey
    ensures { result ≡ kind ∷ octets_of network.now }
{
    let mut octets = ArrayVec::new();
    octets.push(kind);
    let put = match network {
        Addr::V4(network) => octets.try_extend_from_slice(network),
        Addr::V6(network) => octets.try_extend_from_slice(network),
    };
    if put.is_err() {
        unreachable!();
    }
    MaskKey { octets }
}

/// The key of a mask: its kind and its network.
pub(crate) fn key_of(mask: &Mask) -> MaskKey
    ensures key { result ≡ key_of_mask mask.now }
    ensures mask { IsMask mask.now }
{
    let network = mask.network();
    // A law, which does nothing.
    has_octets(&network);
    key_at(kind_of(mask), &network)
}

/// The key of the one mask of a kind that covers the address, where the kind is of the address's family.
pub(crate) fn key_over(kind: u8, addr: &Addr) -> Option<MaskKey>
    ensures some { IfSome result (λ key. IsKeyOver kind addr.now key) }
    ensures none { IfNone result ((len : ℕ) → len ≤ width addr.now → kind ≡ kind_at addr.now len → ⊥) }
{
    let length = length_of(kind, addr)?;
    let network = network_of(addr, length);
    // A law, which does nothing.
    has_octets(&network);
    Some(key_at(kind, &network))
}
