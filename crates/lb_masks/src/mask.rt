//! Masks, and addresses under a length.

ghost use Rattle.std.specs.Prelude.{◌≡◌, ◌≤◌, ◌↔◌, ℕ, IsTrue};
ghost use Rattle.lb_masks.specs.Bits.{octets_of, bit_of, KeepsBits, OneFamily};
ghost use Rattle.lb_masks.specs.Mask.{width, masked_at, masked_of, len_for, prefix_of, prefix_within, Covers};
ghost use Rattle.lb_masks.specs.Text.{mask_of_text};

use crate::address::addr_of;
use crate::bits::{keep_bits, same_bits};
use crate::fault::MaskFault;
use crate::form::first_piece;
use crate::number::decimal_up_to;
use lb_wire::Addr;
use std::marker::Model;

/// The bits of an IPv4 address.
const V4_BITS: u8 = 32;

/// The bits of an IPv6 address.
const V6_BITS: u8 = 128;

/// What stands between an address and a length.
const SLASH: u8 = b'/';

/// How many bits an address of the family has.
fn width(addr: &Addr) -> u8
    ensures { result ≡ width addr.now }
{
    match addr {
        Addr::V4(_) => V4_BITS,
        Addr::V6(_) => V6_BITS,
    }
}

/// The address with its bits past the first so many cleared.
fn first_bits(addr: Addr, count: u8) -> Addr
    ensures value { result ≡ masked_at count addr }
    ensures bits { OneFamily (KeepsBits count) addr result }
{
    match addr {
        Addr::V4(octets) => {
            let mut kept = [0; 4];
            keep_bits(&octets, usize::from(count), &mut kept);
            Addr::V4(kept)
        }
        Addr::V6(octets) => {
            let mut kept = [0; 16];
            keep_bits(&octets, usize::from(count), &mut kept);
            Addr::V6(kept)
        }
    }
}

/// The address with its bits past the first `v4` cleared, or past the first `v6` where it is an IPv6 address.
pub fn masked(addr: Addr, v4: u8, v6: u8) -> Addr
    requires v4 { v4 ≤ 32 }
    requires v6 { v6 ≤ 128 }
    ensures value { result ≡ masked_of v4 v6 addr }
    // the first bits are those of the address, and all others are 0
    ensures bits { OneFamily (KeepsBits (len_for v4 v6 addr)) addr result }
{
    match addr {
        Addr::V4(_) => first_bits(addr, v4),
        Addr::V6(_) => first_bits(addr, v6),
    }
}

/// A mask: an address and a length (RFC 4632 section 3.1, RFC 4291 section 2.3). It covers the addresses of its family
/// that agree with it in as many first bits. A contract sees it as its prefix, whose bits past the length are 0.
#[derive(Clone, Copy, Debug, PartialEq, Eq)]
pub struct Mask {
    address: Addr,
    bits: u8,
}

impl Model for Mask {
    ghost use Rattle.lb_masks.specs.Mask.{Prefix, IsPrefix};

    ghost Value = { Prefix };

    ghost view = { λ m. record { network = m.address; len = m.bits } };

    ghost invariant = { λ m. IsPrefix (record { network = m.address; len = m.bits }) };

    ghost inverse = { λ p. record { address = p.network; bits = p.len } };
}

impl Mask {
    /// The mask of an address with its bits past the length cleared.
    fn under(addr: Addr, length: u8) -> Mask
        requires { length ≤ width addr }
        ensures { result ≡ prefix_of length addr }
    {
        Mask {
            address: first_bits(addr, length),
            bits: length,
        }
    }

    /// The mask of an address with its bits past the length cleared. None where the address has fewer bits.
    pub fn new(addr: Addr, length: u8) -> Option<Mask>
        ensures { result ≡ prefix_within length addr }
    {
        if length > width(&addr) {
            return None;
        }
        Some(Mask::under(addr, length))
    }

    /// The mask that a text spells: an address as `parse_addr` reads it, or one, `/` and a decimal length of at most
    /// its bits; bits past the length are cleared (RFC 4632 section 3.1, RFC 4291 section 2.3). With no `/` all bits
    /// count. The address is tested first.
    pub fn parse(text: &str) -> Result<Mask, MaskFault>
        ensures { result ≡ mask_of_text text.now }
    {
        let (front, digits) = first_piece(text.as_bytes(), SLASH);
        let Some(addr) = addr_of(front) else {
            return Err(MaskFault::BadAddress);
        };
        let Some(digits) = digits else {
            let length = width(&addr);
            return Ok(Mask::under(addr, length));
        };
        match decimal_up_to(digits, u64::from(width(&addr))) {
            Some(length) => Ok(Mask::under(addr, length as u8)),
            None => Err(MaskFault::BadLength),
        }
    }

    /// The network address: the bits past the length are 0.
    pub fn network(&self) -> Addr
        ensures address { result ≡ self.now.network }
        ensures cleared { (k : ℕ) → self.now.len ≤ k → bit_of (octets_of result) k ≡ 0 }
    {
        self.address
    }

    /// How many first bits count, at most 32 or 128.
    pub fn length(&self) -> u8
        ensures length { result ≡ self.now.len }
        ensures within { result ≤ width self.now.network }
    {
        self.bits
    }

    /// Whether the mask covers the address. A mapped IPv4 address is an IPv6 address here.
    pub fn covers(&self, addr: &Addr) -> bool
        ensures { IsTrue result ↔ Covers self.now addr.now }
    {
        match (&self.address, addr) {
            (Addr::V4(network), Addr::V4(octets)) => {
                same_bits(network, octets, usize::from(self.bits))
            }
            (Addr::V6(network), Addr::V6(octets)) => {
                same_bits(network, octets, usize::from(self.bits))
            }
            _ => false,
        }
    }
}
