//! What the tests of this crate fail with.

use std::test::Fail;

/// Lets a test go on where a row of its table, counted from 0, is as it is told, and else ends it.
pub(super) fn held(row: usize, holds: bool) -> Result<(), Fail> {
    if holds {
        Ok(())
    } else {
        Err(Fail::new(format_args!("row {row} is not so")))
    }
}
