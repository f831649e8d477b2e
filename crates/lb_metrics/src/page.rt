//! The page that is given.

use std::alloc::AllocError;

/// What writes the page.
pub trait Page: Drop {
    /// The page as it is now: lines, each with its line feed. The one error is lack of memory.
    fn page(&self) -> Result<String, AllocError>;
}
