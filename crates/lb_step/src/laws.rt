//! What holds of every step. Each function is a law: its contract is the statement, and a call does
//! nothing but bring it to the caller's proof.

ghost use Rattle.std.specs.Thread.{IsSend, IsSync};
ghost use Rattle.lb_step.specs.Results.{HealthFollows};
ghost use Rattle.lb_step.specs.Routes.{PoolsAreFoundInRoutes};
ghost use Rattle.lb_step.specs.Snapshot.{EqualSnapshotsEqualStates};
ghost use Rattle.lb_step.specs.Step.{RefusalsChangeNothing, RoutesFollow};
ghost use Rattle.lb_step.specs.contracts.balancer.Balancer as balancer;
ghost use Rattle.lb_step.specs.contracts.event.Event as event;
ghost use Rattle.lb_step.specs.contracts.plain.Plain as plain;

use lb_chain::{chains_cross_threads, listed_alike_seen_alike, seen_twice};
use lb_health::last_of_a_row_from;
use lb_terms::terms_cross_threads;

/// An event that is refused, or that met lack of memory, changes nothing but the moment.
pub fn refusals_change_nothing()
    ensures { RefusalsChangeNothing }
{
    seen_twice();
}

/// Where queries go after an event follows from where they went before it, the event, what its octets read as, and its
/// answer: no server, no outstanding query and no kept reply has a part in it.
pub fn routes_follow()
    ensures { RoutesFollow }
{
    seen_twice();
}

/// A pool's number and its cache are found among the routes as in the list of pools.
pub fn pools_are_found_in_routes()
    ensures { PoolsAreFoundInRoutes }
{}

/// What is reported of a server's health after an event follows from what was reported before it, the event,
/// and its answer: the results given since the server was added. The answer says that it came up or
/// went down exactly at the last of a row of results.
pub fn health_follows()
    ensures { HealthFollows }
{
    last_of_a_row_from();
}

/// Equal snapshots are of equal states.
pub fn equal_snapshots_are_of_equal_states()
    ensures { EqualSnapshotsEqualStates }
{
    listed_alike_seen_alike();
}

/// A balancer and an event may go to another thread, and a snapshot may be shared with one.
pub fn balancers_cross_threads()
    ensures balancer { IsSend balancer.the_row }
    ensures event { IsSend event.the_field.row }
    ensures snapshot { IsSync plain.the_row }
{
    terms_cross_threads();
    chains_cross_threads();
}
