//! Blocks of octets that are used again.

ghost use Rattle.std.specs.Prelude.{IfOk, length, ◌≡◌, ◌≤◌};
ghost use Rattle.lb_wire.specs.Octets.{max_message};

use lb_wire::Octets;
use std::alloc::{AllocError, Global};

/// How many blocks are kept.
const MOST: usize = 256;

/// The most octets of a block that is kept.
const LARGEST: usize = 4_096;

/// Blocks of octets that nobody wants any more, kept for the next ones: a loop frees in each turn as many as it takes. At most 256, each of at most
/// 4,096 octets.
#[derive(Drop)]
pub struct Rooms {
    alloc: Global,
    blocks: Vec<Vec<u8>>,
}

impl Rooms {
    /// No block. It takes no memory.
    pub fn new(alloc: Global) -> Rooms {
        Rooms {
            alloc,
            blocks: Vec::new(alloc),
        }
    }

    /// These octets, in a block that was kept, where there is one. The one error is lack of memory.
    #[inline(always)]
    pub fn copied(&mut self, octets: &[u8]) -> Result<Octets, AllocError>
        requires short { length octets.now ≤ max_message }
        ensures { IfOk result (λ copy. copy ≡ octets.now) }
    {
        let mut block = match self.blocks.pop() {
            Some(block) => block,
            None => Vec::new(self.alloc),
        };
        block.clear();
        block.extend_from_slice(octets)?;
        Ok(Octets::from_vec(block))
    }

    /// Keeps the block of octets that are not wanted any more, where there is a place for it.
    #[inline(always)]
    pub fn keep(&mut self, octets: Octets) {
        let block = octets.into_vec();
        if self.blocks.len() < MOST && (1..=LARGEST).contains(&block.capacity()) {
            let _ = self.blocks.push(block);
        }
    }
}
