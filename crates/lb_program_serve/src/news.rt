//! What the loops learn of the servers.

ghost use Rattle.std.specs.Prelude.{◌≡◌};
ghost use Rattle.lb_program_serve.specs.News as spec;
ghost use Rattle.lb_program_serve.specs.News.{Has, Learns, Puts, Sets, Withdraws, news_of};

use lb_core::{Answer, Balancer, Note};
use lb_loops::{Endpoint, Place, Roster, RosterFull};
use lb_program::{self, ServerPlace};
use lb_wire::ServerId;

/// What the loops have to learn of an edit: where the server is now that it added, put into a mode
/// or removed. It has no `Drop`, and `tell` alone takes it, so that no edit is carried out of which
/// no roster learns.
#[derive(Debug)]
pub(crate) struct News {
    /// The server, and where the balancer has it, if it has it still.
    changed: Option<(ServerId, Option<ServerPlace>)>,
}

impl News {
    /// The news of a balancer's last step, which had this answer.
    pub(crate) fn of(balancer: &Balancer, answer: &Answer) -> News
        ensures { result.changed ≡ news_of balancer.now answer.now }
    {
        News {
            changed: match changed_server(answer) {
                Some(id) => Some((id, lb_program::place_of(balancer, id))),
                None => None,
            },
        }
    }

    /// Has a roster learn them, in place of what was announced of a server.
    pub(crate) fn tell(self, roster: &mut Roster, announced: Option<ServerId>)
        ensures { Learns announced self roster.old roster.new }
    {
        let News { changed } = self;
        withdraw(roster, announced);
        if let Some((id, place)) = changed {
            set(roster, id, place);
        }
    }
}

/// The server that an answer says was added, put into a mode or removed.
fn changed_server(answer: &Answer) -> Option<ServerId>
    ensures { result ≡ spec.changed_server answer.now }
{
    match answer {
        Answer::Edited(Note::ServerAdded(id) | Note::ServerRemoved(id) | Note::ServerMode(id, _)) =>
            Some(*id),
        _ => None,
    }
}

/// Takes a server that was announced out of a roster.
pub(crate) fn withdraw(roster: &mut Roster, announced: Option<ServerId>)
    ensures { Withdraws announced roster.old roster.new }
{
    if let Some(id) = announced {
        set(roster, id, None);
    }
}

/// Puts a server into a roster.
pub(crate) fn put(roster: &mut Roster, server: &ServerPlace)
    ensures { Puts server.now roster.old roster.new }
{
    set(roster, server.id, Some(*server));
}

/// Has a roster know where a server is, or that it is gone. A balancer has 256 servers at most, so
/// that there is room for each.
fn set(roster: &mut Roster, id: ServerId, place: Option<ServerPlace>)
    ensures { Sets id place roster.old roster.new }
{
    match place {
        Some(place) => match roster.put(id, place_of(&place)) {
            Ok(()) | Err(RosterFull) => {}
        },
        None => roster.remove(id),
    }
}

/// Where a server is, as the loops have to know it.
fn place_of(server: &ServerPlace) -> Place
    ensures { result ≡ spec.place_of server.now }
{
    Place {
        at: Endpoint {
            addr: server.addr,
            port: server.port.get(),
        },
        mode: server.mode,
        must_resolve: server.must_resolve,
    }
}
