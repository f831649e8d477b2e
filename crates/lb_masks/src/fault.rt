//! What is wrong with a mask.

ghost use Rattle.std.specs.Prelude.{◌≡◌};
ghost use Rattle.lb_masks.specs.Fault.{fault_number};

use thiserror::Error;

/// Why a text is no mask. `number` is the number that texts give it.
#[derive(Clone, Copy, Debug, PartialEq, Eq, Error)]
pub enum MaskFault {
    /// What stands before the first `/` is no address.
    #[error("the address is malformed")]
    BadAddress,
    /// What stands after it is no number, or one over the bits of the address.
    #[error("the length is no number of bits of the address")]
    BadLength,
}

impl MaskFault {
    /// The number of the fault, 1 or 2.
    pub fn number(self) -> u8
        ensures { result ≡ fault_number self }
    {
        match self {
            MaskFault::BadAddress => 1,
            MaskFault::BadLength => 2,
        }
    }
}
