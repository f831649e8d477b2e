//! The order of addresses: IPv4 first, and then by octets.

ghost use Rattle.std.specs.Prelude.{◌≡◌};
ghost use Rattle.std.specs.Ordering.{is_lt};
ghost use Rattle.lb_limits.specs.Order.{same_addr, cmp_addr};

use lb_wire::Addr;
use std::cmp::Ordering;

/// Whether two addresses are the same.
pub(crate) fn same_addr(a: &Addr, b: &Addr) -> bool
    ensures { result ≡ same_addr a.now b.now }
{
    match (a, b) {
        (Addr::V4(a), Addr::V4(b)) => a == b,
        (Addr::V6(a), Addr::V6(b)) => a == b,
        _ => false,
    }
}

/// IPv4 before IPv6, and within a family by octets.
fn cmp_addr(a: &Addr, b: &Addr) -> Ordering
    ensures { result ≡ cmp_addr a.now b.now }
{
    match (a, b) {
        (Addr::V4(a), Addr::V4(b)) => a.cmp(b),
        (Addr::V4(_), Addr::V6(_)) => Ordering::Less,
        (Addr::V6(_), Addr::V4(_)) => Ordering::Greater,
        (Addr::V6(a), Addr::V6(b)) => a.cmp(b),
    }
}

/// Whether an address stands before a masked address.
pub(crate) fn is_below(key: &Addr, source: &Addr) -> bool
    ensures { result ≡ is_lt (cmp_addr source.now key.now) }
{
    cmp_addr(source, key).is_lt()
}
