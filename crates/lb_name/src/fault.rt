//! What is wrong with a name.

ghost use Rattle.std.specs.Prelude.{◌≡◌};
ghost use Rattle.lb_name.specs.Fault.{fault_number};

use thiserror::Error;

/// Why octets or a text are no name. `number` is the number that texts give it.
#[derive(Clone, Copy, Debug, PartialEq, Eq, Error)]
pub enum NameFault {
    /// A label of a text has no byte.
    #[error("a label is empty")]
    EmptyLabel,
    /// A label has over 63 octets, or a length octet is 64 to 191.
    #[error("a label is longer than 63 octets")]
    LongLabel,
    /// The name has over 255 octets on the wire.
    #[error("the name is longer than 255 octets")]
    LongName,
    /// A text has a byte that is no letter, digit, `-`, `_` or `*`.
    #[error("a byte cannot stand in a name")]
    BadByte,
    /// A compression pointer (RFC 1035 section 4.1.4) stands where only labels may.
    #[error("a compression pointer stands in the name")]
    Pointer,
    /// The octets end before the name does.
    #[error("the name is cut off")]
    Cut,
}

impl NameFault {
    /// The number of the fault, 1 to 6.
    pub fn number(self) -> u8
        ensures { result ≡ fault_number self }
    {
        match self {
            NameFault::EmptyLabel => 1,
            NameFault::LongLabel => 2,
            NameFault::LongName => 3,
            NameFault::BadByte => 4,
            NameFault::Pointer => 5,
            NameFault::Cut => 6,
        }
    }
}
