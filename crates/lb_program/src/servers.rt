//! Where the servers of a balancer are, as what sends to them has to know it.

ghost use Rattle.std.specs.Prelude.{map, option_map, IfOk, ◌≡◌};
ghost use Rattle.std.specs.List.{find, list_any};
ghost use Rattle.lb_step.specs.Upstream.{server_of};
ghost use Rattle.lb_core.specs.Laws.{has_number};
ghost use Rattle.lb_program.specs.Servers.{has_to_resolve, placed, server_place, server_places};

use lb_core::{Balancer, Check};
use lb_servers::{LaneCount, Loaded, Mode, Server};
use lb_wire::{Addr, ServerId};
use std::alloc::{AllocError, Global};
use std::num::NonZeroU16;

/// Where a server is.
#[derive(Clone, Copy, Debug, PartialEq, Eq)]
pub struct ServerPlace {
    pub id: ServerId,
    pub addr: Addr,
    /// Its UDP and TCP port.
    pub port: NonZeroU16,
    pub mode: Mode,
    /// Whether a probe's name has to be resolved: NXDomain and Refused are failures too.
    pub must_resolve: bool,
    /// How many lanes of each transport it has.
    pub lanes: LaneCount,
}

/// Where the server with a number is, if the balancer has one.
pub fn place_of(balancer: &Balancer, id: ServerId) -> Option<ServerPlace>
    ensures { result ≡ server_place balancer.now id }
{
    match found(balancer.servers(), id) {
        Some(loaded) => Some(placed(balancer.checks(), &loaded.server)),
        None => None,
    }
}

/// Where the servers of a balancer are, by number. The one error is lack of memory.
pub fn places(alloc: Global, balancer: &Balancer) -> Result<Vec<ServerPlace>, AllocError>
    ensures { IfOk result (λ places. places.items ≡ server_places balancer.now) }
{
    all_placed(alloc, balancer.checks(), balancer.servers())
}

/// The server with a number.
fn found(servers: &[Loaded], id: ServerId) -> Option<&Loaded>
    ensures { option_map (λ l. l.now) result ≡ find (λ l. has_number id (server_of l)) servers.now }
{
    servers.iter().find(|loaded| loaded.server.id.0 == id.0)
}

/// Where each of these servers is.
fn all_placed(
    alloc: Global,
    checks: &[Check],
    servers: &[Loaded],
) -> Result<Vec<ServerPlace>, AllocError>
    ensures { IfOk result (λ places. places.items ≡ map (λ l. placed checks.now (server_of l)) servers.now) }
{
    let mut places = Vec::with_capacity(alloc, servers.len())?;
    for loaded in servers {
        places.push(placed(checks, &loaded.server))?;
    }
    Ok(places)
}

/// Where a server is, with what its health check says.
fn placed(checks: &[Check], server: &Server) -> ServerPlace
    ensures { result ≡ placed checks.now server.now }
{
    ServerPlace {
        id: server.id,
        addr: server.addr,
        port: server.port,
        mode: server.mode,
        must_resolve: resolves(checks, server.id),
        lanes: server.lanes,
    }
}

/// Whether one of these health checks is that of a server, and says that a probe's name has to be
/// resolved.
fn resolves(checks: &[Check], id: ServerId) -> bool
    ensures { result ≡ list_any (has_to_resolve id) checks.now }
{
    checks
        .iter()
        .any(|check| check.server.0 == id.0 && check.must_resolve)
}
