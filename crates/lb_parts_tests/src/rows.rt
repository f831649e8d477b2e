//! What the tests of this crate fail with, and what is refused whatever the machine has.

use std::alloc::{AllocError, Global};
use std::test::Fail;

/// Lets a test go on where a row of its table, counted from 0, is as it is told, and else ends it.
pub(super) fn held(row: usize, holds: bool) -> Result<(), Fail> {
    if holds {
        Ok(())
    } else {
        Err(Fail::new(format_args!("row {row} is not so")))
    }
}

/// More memory than any machine has: it is refused, for calls that take the refusal.
pub(super) fn too_much(alloc: Global) -> Result<Vec<u8>, AllocError> {
    Vec::with_capacity(alloc, usize::MAX)
}
