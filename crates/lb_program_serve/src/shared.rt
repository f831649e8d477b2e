//! What the threads share, and the room that the loops need for as long as they run.

use crate::desk::Plan;
use crate::fault::Fault;
use crate::handlers::OTHER_RINGS;
use crate::operator::roster_of;
use crate::parts::Context;
use lb_doh::{HttpPosts, Requests, Waiting};
use lb_loops::{Connections, Probes, Roster};
use lb_program::ServerPlace;
use lb_recent::Rings;
use lb_sends::Sends;
use std::alloc::{AllocError, Global};
use std::sync::atomic::AtomicBool;
use std::sync::{Arc, Mutex, Wait};

/// What several threads share.
#[derive(Drop)]
pub(crate) struct Shared {
    /// Whether serving is to end.
    pub(crate) stop: Arc<AtomicBool>,
    pub(crate) roster: Arc<Mutex<Roster>>,
    /// The requests by HTTP that wait for their answers.
    pub(crate) requests: Arc<Requests>,
    /// The counts of failed sends and of probes.
    pub(crate) sends: Arc<Sends>,
    /// A copy of the roster for each loop of datagrams.
    pub(crate) rosters: Vec<Roster>,
    pub(crate) tables: LoopTables,
}

/// Room that the loops of streams and of the clock need for as long as they run: a copy of the
/// roster for each, the table of connections over TCP, and the servers that are probed.
#[derive(Drop)]
pub(crate) struct LoopTables {
    pub(crate) streams: Roster,
    pub(crate) clock: Roster,
    pub(crate) table: Connections,
    pub(crate) probes: Probes,
}

impl LoopTables {
    /// The one error is lack of memory.
    fn made(alloc: Global) -> Result<LoopTables, AllocError> {
        Ok(LoopTables {
            streams: Roster::made(alloc)?,
            clock: Roster::made(alloc)?,
            table: Connections::made(alloc)?,
            probes: Probes::made(alloc)?,
        })
    }
}

/// So many rosters without a server. The one error is lack of memory.
fn rosters(alloc: Global, many: usize) -> Result<Vec<Roster>, AllocError> {
    let mut rosters = Vec::with_capacity(alloc, many)?;
    for _ in 0..many {
        rosters.push(Roster::made(alloc)?)?;
    }
    Ok(rosters)
}

impl Shared {
    /// A roster of these servers; nothing waits yet. So many loops of datagrams hand in replies, and
    /// that of streams.
    fn made(alloc: Global, servers: &[ServerPlace], loops: usize) -> Result<Shared, Fault> {
        Ok(Shared {
            stop: Arc::new(alloc, AtomicBool::new(false))?,
            roster: Arc::new(alloc, Mutex::new(roster_of(alloc, servers)?))?,
            requests: Arc::new(alloc, Mutex::new(Waiting::new(alloc)))?,
            sends: Arc::new(alloc, Sends::made(alloc, loops.saturating_add(1))?)?,
            rosters: rosters(alloc, loops)?,
            tables: LoopTables::made(alloc)?,
        })
    }

    /// What hands answers to the requests by HTTP, for two loops.
    pub(crate) fn posts<'a, R: Wait>(
        &self,
        cx: Context<'a, R>,
    ) -> Result<(HttpPosts<'a, R>, HttpPosts<'a, R>), AllocError> {
        let (one, other) = (
            Arc::try_clone(&self.requests)?,
            Arc::try_clone(&self.requests)?,
        );
        Ok((
            HttpPosts::new(cx.0, cx.1, one),
            HttpPosts::new(cx.0, cx.1, other),
        ))
    }
}

/// What threads share that serve by a plan with so many loops of datagrams, and the rings of the
/// last queries.
pub(crate) fn shared_by(
    alloc: Global,
    plan: &Plan,
    loops: usize,
) -> Result<(Shared, Rings), Fault> {
    let rings = Rings::made(
        alloc,
        loops.saturating_add(OTHER_RINGS),
        plan.switches.recent,
    )?;
    Ok((Shared::made(alloc, plan.servers.as_slice(), loops)?, rings))
}
