//! Queries that no server answered in time.

ghost use Rattle.std.specs.Prelude.{◌≡◌, Ok, option_map};
ghost use Rattle.lb_wire.specs.Query.{Reads};
ghost use Rattle.lb_wire.specs.declared.query.QueryView.{QueryView};
ghost use Rattle.lb_step.specs.declared.answer.Answer.TheVariants.{Expired};
ghost use Rattle.lb_step.specs.Expiry.{Expires};
ghost use Rattle.lb_step.specs.Forward.{failure_of};
ghost use Rattle.lb_step.specs.Noted.{served_at};
ghost use Rattle.lb_step.specs.Upstream.{IsAsked};
ghost use Rattle.lb_table.specs.Table.{due};

use crate::answer::Answer;
use crate::noted::Served;
use crate::upstream::Upstream;
use lb_table::Entry;
use lb_wire::{Octets, Rcode, answer_in_place, one_reading, read_query};

/// Ends the query of least deadline that is given up by this moment, of equal ones the one that was sent first. It takes no
/// memory.
pub(crate) fn answer_tick(
    upstream: &mut Upstream,
    moment: u64,
    served: &mut Option<Served>,
) -> Answer
    ensures expires { Expires upstream.old moment result upstream.new }
    ensures served { served.new ≡ option_map served_at (due moment upstream.old.outstanding) }
{
    match upstream.take_due(moment) {
        Some(waiting) => {
            *served = Some(Served::of(&waiting));
            expired(waiting.entry)
        }
        None => {
            *served = None;
            Answer::Quiet
        }
    }
}

/// ServFail for the client of a query, in the octets of the query as they came in.
fn expired(entry: Entry) -> Answer
    requires { IsAsked entry }
    ensures { (view : QueryView) × Reads entry.asked (Ok view) × (result ≡ Expired entry.origin (failure_of view)) }
{
    // A law, which does nothing.
    one_reading();
    let mut bytes = entry.asked.into_vec();
    match read_query(bytes.as_slice()) {
        Ok(view) => {
            answer_in_place(&mut bytes, &view, Rcode::ServFail);
            Answer::Expired(entry.origin, Octets::from_vec(bytes))
        }
        // an entry's octets read
        Err(_) => unreachable!(),
    }
}
