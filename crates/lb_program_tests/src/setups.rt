//! What a setup file states beside the balancer.

use lb_command::Protocol;
use lb_core::Balancer;
use lb_program::{ServerPlace, Setup, place_of, places, read_setup};
use lb_servers::Mode;
use lb_wire::{Addr, ServerId};
use std::alloc::Global;

/// Two listeners, two lines of the log, and servers that are added, removed, put into a mode and added again.
const FILE: &str = "log 5
listen tcp 127.0.0.1 5301
server add s1 192.0.2.53 53
server add s2 192.0.2.54 5353 resolve
listen udp 127.0.0.1 5300
server remove s1
server mode s2 down
server add s1 192.0.2.55 54
log 6
";

/// Where a server is: its number, the last octet of its address, its port, its mode, and whether its probes have to resolve.
const SERVERS: &[(u64, u8, u16, Mode, bool)] = &[
    (2, 54, 5353, Mode::Down, true),
    (3, 55, 54, Mode::Auto, false),
];

const LISTENERS: &[(Protocol, u16)] = &[(Protocol::Tcp, 5301), (Protocol::Udp, 5300)];

/// What a text states, where it is read whole.
fn setup_of(alloc: Global, text: &str) -> Option<Setup> {
    match read_setup(alloc, text) {
        Ok((setup, _)) => Some(setup),
        Err(_) => None,
    }
}

/// What its commands leave, where it is read whole.
fn balancer_of(alloc: Global, text: &str) -> Option<Balancer> {
    match read_setup(alloc, text) {
        Ok((_, balancer)) => Some(balancer),
        Err(_) => None,
    }
}

fn has_listeners(setup: &Setup) -> bool {
    let listeners = setup.listeners();
    let all = listeners.iter().zip(LISTENERS.iter());
    let mut same = listeners.len() == LISTENERS.len();
    for (listener, (protocol, port)) in all {
        same = same && listener.protocol == *protocol && listener.port.get() == *port;
    }
    same
}

fn is_like(server: &ServerPlace, row: &(u64, u8, u16, Mode, bool)) -> bool {
    let (id, octet, port, mode, resolve) = row;
    server.id.0 == *id
        && server.addr == Addr::V4([192, 0, 2, *octet])
        && server.port.get() == *port
        && server.mode == *mode
        && server.must_resolve == *resolve
}

fn has_places(alloc: Global, balancer: &Balancer) -> bool {
    let Ok(servers) = places(alloc, balancer) else {
        return false;
    };
    let mut same = servers.len() == SERVERS.len();
    for (server, row) in servers.iter().zip(SERVERS.iter()) {
        same = same && is_like(server, row);
    }
    same
}

/// Each server is found by its number, and none by that of one that was removed.
fn has_each(balancer: &Balancer) -> bool {
    let mut same = place_of(balancer, ServerId(1)).is_none();
    for row in SERVERS {
        same = same
            && place_of(balancer, ServerId(row.0)).is_some_and(|server| is_like(&server, row));
    }
    same
}

#[test]
fn a_setup_file_is_stated_whole(rt: HostRuntime) {
    let setup = setup_of(rt.alloc(), FILE);
    assert!(rt; setup.as_ref().is_some_and(has_listeners));
    assert!(rt; setup.is_some_and(|setup| setup.log() == 6));
}

#[test]
fn servers_are_where_the_lines_say(rt: HostRuntime) {
    let alloc = rt.alloc();
    let balancer = balancer_of(alloc, FILE);
    assert!(rt; balancer.as_ref().is_some_and(has_each));
    assert!(rt; balancer.is_some_and(|balancer| has_places(alloc, &balancer)));
}

#[test]
fn the_log_holds_1000_calls_where_no_line_states_it(rt: HostRuntime) {
    let setup = setup_of(rt.alloc(), "listen udp 127.0.0.1 5300");
    assert!(rt; setup.is_some_and(|setup| setup.log() == 1000));
}
