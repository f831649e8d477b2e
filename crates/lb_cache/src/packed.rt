//! Kept replies in one block of octets each.

ghost use Rattle.std.specs.Prelude.{◌≡◌, ◌+◌, ◌<◌, ◌≤◌, ◌++◌, ◌^◌, length, IfOk, IfSome, option_map};
ghost use Rattle.lb_wire.specs.Octets.{max_message};
ghost use Rattle.lb_cache.specs.Reply.{end_of, hit_of, lives};

use crate::reply::{CachedReply, Hit};
use lb_wire::{Key, Kind, Octets};
use std::alloc::{AllocError, Global};
use std::marker::Model;

/// A kept reply as the slots have it: its octets stand after those of its key. A contract sees the reply.
#[derive(Debug, Drop)]
pub(crate) struct Packed {
    octets: Vec<u8>,
    /// When it came, in milliseconds.
    moment: u64,
    /// How long it lives from then on, in seconds.
    life: u32,
    /// How many of the octets are the key's.
    key_len: u16,
    kind: Kind,
}

impl Model for Packed {
    ghost use Rattle.lb_cache.specs.declared.reply.CachedReply.{CachedReply};
    ghost use Rattle.lb_cache.specs.Packed.{IsPacked, unpacked};

    ghost Value = { CachedReply };

    ghost view = { λ p. unpacked p.kind p.octets.items p.key_len p.moment p.life };

    ghost invariant = { λ p. IsPacked p.octets.items p.key_len };
}

/// These octets and those after them in one block, which is as long as they are. The one error is lack of memory.
fn joined(alloc: Global, first: &[u8], second: &[u8]) -> Result<Vec<u8>, AllocError>
    requires first { length first.now ≤ max_message }
    requires second { length second.now ≤ max_message }
    ensures { IfOk result (λ octets. octets.items ≡ first.now ++ second.now) }
{
    let mut octets = Vec::with_capacity(alloc, first.len() + second.len())?;
    octets.extend_from_slice(first)?;
    octets.extend_from_slice(second)?;
    Ok(octets)
}

impl Packed {
    /// A reply with these octets under its key. The one error is lack of memory.
    pub(crate) fn new(
        alloc: Global,
        key: &Key,
        bytes: &[u8],
        life: u32,
        now: u64,
    ) -> Result<Packed, AllocError>
        requires { length bytes.now ≤ max_message }
        ensures { IfOk result (λ r. r ≡ record { key = key.now; bytes = bytes.now; moment = now; life = life }) }
    {
        let first = key.octets.as_slice();
        let octets = joined(alloc, first, bytes)?;
        Ok(Packed {
            octets,
            moment: now,
            life,
            key_len: first.len() as u16,
            kind: key.kind,
        })
    }

    /// The transport of its key.
    pub(crate) fn kind(&self) -> Kind
        ensures { result ≡ self.now.key.kind }
    {
        self.kind
    }

    /// The octets of its key.
    pub(crate) fn key_octets(&self) -> &[u8]
        ensures octets { result.now ≡ self.now.key.octets }
        ensures short { length result.now ≤ max_message }
    {
        &self.octets[..self.key_len as usize]
    }

    /// The reply's octets.
    pub(crate) fn bytes(&self) -> &[u8]
        ensures octets { result.now ≡ self.now.bytes }
        ensures short { length result.now ≤ max_message }
    {
        &self.octets[self.key_len as usize..]
    }

    /// The reply with blocks of its own. The one error is lack of memory.
    pub(crate) fn to_reply(&self, alloc: Global) -> Result<CachedReply, AllocError>
        ensures { IfOk result (λ reply. reply ≡ self.now) }
    {
        let octets = Vec::from_slice(alloc, self.key_octets())?;
        let bytes = Vec::from_slice(alloc, self.bytes())?;
        Ok(CachedReply {
            key: Key {
                kind: self.kind,
                octets: Octets::from_vec(octets),
            },
            bytes: Octets::from_vec(bytes),
            moment: self.moment,
            life: self.life,
        })
    }

    /// When the reply is dead, in milliseconds: never where its life ends after all moments.
    pub(crate) fn end(&self) -> Option<u64>
        ensures { result ≡ end_of self.now }
    {
        self.moment.checked_add(1000 * u64::from(self.life))
    }

    /// Whether the reply lives at a moment, in milliseconds.
    pub(crate) fn lives(&self, now: u64) -> bool
        ensures value { result ≡ lives now self.now }
        // a number after a reference has a range where it is read
        ensures fits { self.now.life < 2 ^ 32 }
    {
        u128::from(now) < u128::from(self.moment) + 1000 * u128::from(self.life)
    }

    /// What is found of the reply while it lives.
    pub(crate) fn hit(&self, now: u64) -> Option<Hit<'_>>
        ensures found { option_map (λ hit. (hit.bytes.now, hit.secs)) result ≡ hit_of now self.now }
        ensures short { IfSome result (λ hit. length hit.bytes.now ≤ max_message) }
    {
        if !self.lives(now) {
            return None;
        }
        let secs = now.saturating_sub(self.moment) / 1000;
        Some(Hit {
            bytes: self.bytes(),
            secs: secs as u32,
        })
    }
}
