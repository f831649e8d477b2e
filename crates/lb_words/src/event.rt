//! What the answer to an event says.

ghost use Rattle.std.specs.Prelude.{◌≡◌};
ghost use Rattle.lb_step.specs.Answer.{marked};

use lb_chain::ChainFault;
use lb_core::{Answer, EditFault};
use lb_servers::ParkFault;
use lb_wire::Kept;

/// Whether an answer says that memory was refused.
pub fn has_lacked(answer: &Answer) -> bool
    ensures { result ≡ marked answer.now }
{
    match answer {
        Answer::NoMemory(_)
        | Answer::Deliver(_, _, Kept::NoMemory)
        | Answer::Refused(EditFault::Rules(ChainFault::NoMemory))
        | Answer::Refused(EditFault::Servers(ParkFault::NoMemory)) => true,
        _ => false,
    }
}
