//! Where servers are.

use lb_loops::{Endpoint, Place, Roster, RosterFull};
use lb_servers::Mode;
use lb_wire::{Addr, ServerId};
use std::process::Abort;
use std::test::Fail;

/// Where a server is.
const FIRST: Endpoint = Endpoint {
    addr: Addr::V4([127, 0, 0, 1]),
    port: 5301,
};

/// Where another one is.
const SECOND: Endpoint = Endpoint {
    addr: Addr::V4([127, 0, 0, 1]),
    port: 5302,
};

/// A server at this end.
fn place(at: Endpoint) -> Place {
    Place {
        at,
        mode: Mode::Auto,
        must_resolve: false,
    }
}

#[test]
fn servers_put_and_removed(rt: HostRuntime) -> Result<(), Fail> {
    let mut roster = Roster::made(rt.alloc())?;
    expect_put_and_removed(&rt, &mut roster)
}

fn expect_put_and_removed<T: Abort + AllocGlobal>(rt: &T, roster: &mut Roster) -> Result<(), Fail> {
    assert!(rt; roster.put(ServerId(1), place(FIRST)).is_ok());
    assert_eq!(rt; roster.get(ServerId(1)), Some(place(FIRST)));
    assert_eq!(rt; roster.get(ServerId(2)), None);
    roster.remove(ServerId(1));
    assert_eq!(rt; roster.get(ServerId(1)), None);
    Ok(())
}

#[test]
fn a_full_roster(rt: HostRuntime) -> Result<(), Fail> {
    let mut roster = Roster::made(rt.alloc())?;
    expect_filled(&rt, &mut roster)?;
    let mut copy = Roster::made(rt.alloc())?;
    expect_copied(&rt, &roster, &mut copy)
}

fn expect_filled<T: Abort + AllocGlobal>(rt: &T, roster: &mut Roster) -> Result<(), Fail> {
    for server in 1..=256u64 {
        assert!(rt;
            roster.put(ServerId(server), place(FIRST)).is_ok(),
            "{server}"
        );
    }
    assert_eq!(rt; roster.put(ServerId(257), place(SECOND)), Err(RosterFull));
    assert!(rt; roster.put(ServerId(7), place(SECOND)).is_ok());
    assert_eq!(rt; roster.get(ServerId(7)), Some(place(SECOND)));
    Ok(())
}

fn expect_copied<T: Abort + AllocGlobal>(
    rt: &T,
    roster: &Roster,
    copy: &mut Roster,
) -> Result<(), Fail> {
    copy.copy_from(roster);
    assert!(rt; copy.version() == roster.version() && copy.get(ServerId(256)).is_some());
    Ok(())
}
