//! The masked addresses that room is reserved for.

ghost use Rattle.std.specs.Prelude.{◌≡◌, OnErr, OnOk};
ghost use Rattle.std.specs.List.{list_any};
ghost use Rattle.lb_limits.specs.Order.{same_addr};
ghost use Rattle.lb_limits.specs.Window.{put_key};

use crate::order::same_addr;
use lb_wire::Addr;
use std::alloc::AllocError;

/// Whether an address is among those given.
pub(crate) fn has_addr(addr: &Addr, addrs: &[Addr]) -> bool
    ensures { result ≡ list_any (same_addr addr.now) addrs.now }
{
    addrs.iter().any(|other| same_addr(addr, other))
}

/// Adds a masked address, once.
pub(crate) fn put_key(keys: &mut Vec<Addr>, key: Addr) -> Result<(), AllocError>
    ensures ok { OnOk result (keys.new.items ≡ put_key key keys.old.items) }
    ensures err { OnErr result (keys.new.items ≡ keys.old.items) }
{
    if !has_addr(&key, keys.as_slice()) {
        keys.push(key)?;
    }
    Ok(())
}
