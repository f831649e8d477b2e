//! The addresses of an answer that a rule states.

ghost use Rattle.std.specs.Prelude.{◌≡◌, ◌<◌, ◌≤◌, IfSome, IfNone, IsTrue, length, nat_le, ◌&&◌, Some, None, if◌then◌else◌};

use lb_wire::Addr;
use std::marker::Model;

/// The most addresses of a spoofed answer.
pub const MAX_ADDRS: usize = 8;

/// 1 to 8 addresses, in order. A contract sees them as the list.
#[derive(Clone, Copy, Debug)]
pub struct Addrs {
    // Those past the count are never read.
    items: [Addr; MAX_ADDRS],
    count: usize,
}

impl Model for Addrs {
    ghost use Rattle.std.specs.Prelude.{List, length, take};
    ghost use Rattle.lb_wire.specs.declared.addr.Addr.{Addr};
    ghost use Rattle.lb_chain.specs.Addrs.{IsAddrs, padded};

    ghost Value = { List Addr };

    ghost view = { λ a. take a.count a.items };

    ghost inverse = { λ addrs. record { items = padded addrs; count = length addrs } };

    ghost inverse_ok = { λ a h i. record { items = h.places i; count = h.used i } };

    ghost invariant = { λ a. IsAddrs a.items a.count };
}

impl Addrs {
    /// These addresses. None where there are none, or more than 8.
    pub fn from_slice(addrs: &[Addr]) -> Option<Addrs>
        ensures { result ≡ (if nat_le 1 (length addrs.now) && nat_le (length addrs.now) 8 then Some addrs.now else None) }
    {
        if addrs.is_empty() || addrs.len() > MAX_ADDRS {
            return None;
        }
        let mut items = [Addr::V4([0; 4]); MAX_ADDRS];
        items[..addrs.len()].copy_from_slice(addrs);
        Some(Addrs {
            items,
            count: addrs.len(),
        })
    }

    /// The addresses, in order.
    pub fn as_slice(&self) -> &[Addr]
        ensures addresses { result.now ≡ self.now }
        ensures some { 1 ≤ length self.now }
        ensures few { length self.now ≤ 8 }
    {
        let (addrs, _) = self.items.split_at(self.count);
        addrs
    }

    /// Whether the addresses are equal, in order.
    pub fn equals(&self, other: &Addrs) -> bool
        ensures equal { IsTrue result → self.now ≡ other.now }
        ensures found { self.now ≡ other.now → IsTrue result }
    {
        self.as_slice() == other.as_slice()
    }
}
