//! What is wrong with a term.

ghost use Rattle.std.specs.Prelude.{◌≡◌};
ghost use Rattle.lb_terms.specs.Fault.{fault_number};

use thiserror::Error;

/// Why a term is refused. `number` is the number that texts give it.
#[derive(Clone, Copy, Debug, PartialEq, Eq, Error)]
pub enum TermFault {
    /// Members of members to a depth over 16, where a term without members has depth 1.
    #[error("the term is nested too deep")]
    TooDeep,
    /// Over 64 terms in it, itself counted, or over 1,024 names or masks in a set.
    #[error("the term is too large")]
    TooLarge,
    /// An And or Or without members, or a set without names or masks.
    #[error("a part of the term has no member")]
    Empty,
    /// A rate that is not 1 to 1,000 queries a second, or a length over the bits of the address.
    #[error("a rate of the term is out of range")]
    BadRate,
}

impl TermFault {
    /// The number of the fault, 1 to 4.
    pub fn number(self) -> u8
        ensures { result ≡ fault_number self }
    {
        match self {
            TermFault::TooDeep => 1,
            TermFault::TooLarge => 2,
            TermFault::Empty => 3,
            TermFault::BadRate => 4,
        }
    }
}
