//! Stores that nobody sees any more.

use crate::cache::SWEPT;
use crate::store::Store;
use std::alloc::Global;

/// Stores on their way out. Their memory is given back some replies at a time, so that no call
/// takes long.
#[derive(Debug, Drop)]
pub(crate) struct Trash {
    stores: Vec<Store>,
}

impl Trash {
    /// No store. It takes no memory.
    pub(crate) fn new(alloc: Global) -> Trash {
        Trash {
            stores: Vec::new(alloc),
        }
    }

    /// Puts a store aside. A small one goes at once, and so does one for which there is no room.
    pub(crate) fn add(&mut self, store: Store) {
        if store.is_small() {
            return;
        }
        if let Ok(()) = self.stores.reserve(1) {
            self.stores.push_reserved(store);
        }
    }

    /// Takes up to so many replies out. Gives a store that has none left.
    pub(crate) fn sweep(&mut self, most: usize) -> Option<Store> {
        if self.stores.last_mut()?.crumble(most) {
            return None;
        }
        self.stores.pop()
    }

    /// Gives back up to `SWEPT` replies, as each put does, and what is left of a store without any.
    pub(crate) fn give_back(&mut self) {
        let _empty = self.sweep(SWEPT);
    }

    /// Whether no store waits.
    pub(crate) fn is_empty(&self) -> bool {
        self.stores.is_empty()
    }
}
