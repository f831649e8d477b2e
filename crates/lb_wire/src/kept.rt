//! Whether a reply was kept.

use std::alloc::{AllocError, AllocFailed};

/// Whether the packet cache kept a reply.
#[derive(Clone, Copy, Debug, PartialEq, Eq)]
pub enum Kept {
    /// It is kept.
    Yes,
    /// It may not be kept.
    No,
    /// The cache is full of live replies.
    NoRoom,
    /// Memory was lacking.
    NoMemory,
}

impl From<AllocError> for Kept {
    ghost use Rattle.std.specs.Prelude.{◌≡◌};
    ghost use Rattle.lb_wire.specs.declared.kept.Kept.TheVariants as kept;

    ghost from_gives = { λ _ k. k ≡ kept.NoMemory };

    fn from(_refused: AllocError) -> Kept {
        Kept::NoMemory
    }
}

impl<T: Drop> From<AllocFailed<T>> for Kept {
    ghost use Rattle.std.specs.Prelude.{◌≡◌};
    ghost use Rattle.lb_wire.specs.declared.kept.Kept.TheVariants as kept;

    ghost from_gives = { λ _ k. k ≡ kept.NoMemory };

    fn from(refused: AllocFailed<T>) -> Kept {
        Kept::from(AllocError::from(refused))
    }
}
