//! The results of health checks.

ghost use Rattle.std.specs.Prelude.{◌≡◌};
ghost use Rattle.lb_step.specs.Health.{result_step};

use crate::answer::{Answer, IgnoreReason, Note};
use crate::upstream::Upstream;
use lb_health::Changed;
use lb_wire::ServerId;

/// Takes a result of a server, in whatever mode it is. It takes no memory.
pub(crate) fn answer_result(upstream: &mut Upstream, server: ServerId, ok: bool) -> Answer
    ensures { (upstream.new, result) ≡ result_step upstream.old server ok }
{
    match upstream.take_result(server, ok) {
        Some(Changed::No) => Answer::Quiet,
        Some(Changed::Up) => Answer::Edited(Note::ServerUp(server)),
        Some(Changed::Down) => Answer::Edited(Note::ServerDown(server)),
        None => Answer::Ignored(IgnoreReason::NoServer),
    }
}
