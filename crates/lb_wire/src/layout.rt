//! The layout of a message after its question.

ghost use Rattle.std.specs.Prelude.{ℕ, ◌≤◌, List, length, IfSome, IfNone, drop};
ghost use Rattle.lb_wire.specs.Record.{Record, Holds};
ghost use Rattle.lb_wire.specs.Message.{count_of};
ghost use Rattle.lb_wire.specs.Layout.{IsLaid};

use crate::header::Header;
use crate::record::walk;
use crate::tally::Tally;
use lb_name::labels_go_on;

/// What the records of a message come to.
#[derive(Clone, Copy, Debug, PartialEq, Eq)]
pub struct Laid {
    /// Those of the answer section.
    pub(crate) answers: Tally,
    /// All of them.
    pub(crate) all: Tally,
}

/// Walks as many records as the header counts, from a place on, in one pass.
pub(crate) fn lay(bytes: &[u8], at: usize, header: Header) -> Option<Laid>
    requires { at ≤ length bytes.now }
    ensures found { IfSome result (λ laid. IsLaid header (drop at bytes.now) laid) }
    ensures none { IfNone result ((records : List Record) (rest : List ℕ) → Holds (count_of header) (drop at bytes.now) records rest → ⊥) }
{
    // a law: the call does nothing
    labels_go_on();
    let (answers, place) = walk(bytes, at, u32::from(header.answers))?;
    let others = u32::from(header.authorities) + u32::from(header.additionals);
    let (behind, _) = walk(bytes, place, others)?;
    Some(Laid {
        answers,
        all: answers.and(behind),
    })
}
