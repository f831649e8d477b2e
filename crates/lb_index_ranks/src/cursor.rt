//! A walk over pairs in their order.

ghost use Rattle.std.specs.Prelude.{◌≡◌, ◌<◌, [], ◌++◌, drop, length, option_copied, option_map, slice_get};
ghost use Rattle.std.specs.List.{All};
ghost use Rattle.lb_index_ranks.specs.Cursor.{left_below, next_below as next_below_of};
ghost use Rattle.lb_index_ranks.specs.Chunk.{all_of, back_of, IsFilled, IsPlace};

use crate::block::Block;
use crate::chunk::Chunk;
use crate::filed::Filed;
use crate::key::Probe;
use crate::spot::{Spot, pair_at};
use std::marker::Model;

/// A walk over pairs in their order. A contract sees those that it has not passed as a list. It takes no memory.
#[derive(Debug, Drop)]
pub struct Cursor<'a> {
    chunks: &'a [Chunk],
    place: usize,
    /// The blocks after that of the chunks: none, where there are no chunks.
    others: &'a [Block],
}

impl<'a> Model for Cursor<'a> {
    ghost use Rattle.std.specs.Prelude.{◌<◌, ◌++◌, length, List};
    ghost use Rattle.std.specs.List.{All};
    ghost use Rattle.lb_index_ranks.specs.declared.filed.Filed.{Filed};
    ghost use Rattle.lb_index_ranks.specs.Chunk.{back_of, IsFilled, IsPlace};

    ghost Value = { List Filed };

    ghost view = { λ c. back_of (c.chunks.now ++ c.others.now) 0 c.place };

    ghost invariant = { λ c. All IsFilled (c.chunks.now ++ c.others.now) × IsPlace (c.chunks.now ++ c.others.now) 0 c.place × (0 < length c.others.now → 0 < length c.chunks.now) };
}

/// What a walk goes on with after a chunk: the others of its block, and if there are none the chunks of the next block.
fn behind<'a>(rest: &'a [Chunk], blocks: &'a [Block]) -> (&'a [Chunk], &'a [Block])
    requires { All IsFilled (rest.now ++ blocks.now) }
    ensures pairs { all_of (result.0.now ++ result.1.now) ≡ all_of (rest.now ++ blocks.now) }
    ensures filled { All IsFilled (result.0.now ++ result.1.now) }
    ensures some { 0 < length result.1.now → 0 < length result.0.now }
{
    if !rest.is_empty() {
        return (rest, blocks);
    }
    match blocks.split_first() {
        Some((block, others)) => (block.chunks(), others),
        None => (rest, blocks),
    }
}

impl<'a> Cursor<'a> {
    /// A walk over no pairs.
    pub(crate) fn none() -> Cursor<'a>
        ensures { result ≡ [] }
    {
        Cursor {
            chunks: &[],
            place: 0,
            others: &[],
        }
    }

    /// A walk from a place of the first chunk on, over the blocks after the chunks too.
    pub(crate) fn new(chunks: &'a [Chunk], place: usize, others: &'a [Block]) -> Cursor<'a>
        requires filled { All IsFilled (chunks.now ++ others.now) }
        requires place { IsPlace (chunks.now ++ others.now) 0 place }
        requires some { 0 < length chunks.now }
        ensures { result ≡ back_of (chunks.now ++ others.now) 0 place }
    {
        Cursor {
            chunks,
            place,
            others,
        }
    }

    /// The next pair.
    fn head(&self) -> Option<&Filed>
        ensures { option_copied result ≡ slice_get self.now 0 }
    {
        let spot = Spot {
            chunk: 0,
            place: self.place,
        };
        pair_at(self.chunks, spot)
    }

    /// Passes the next pair, where there is one.
    fn pass(&mut self)
        ensures { self.new ≡ drop 1 self.old }
    {
        let Some((chunk, rest)) = self.chunks.split_first() else {
            return;
        };
        if chunk.len() - self.place > 1 {
            self.place += 1;
        } else {
            let (chunks, others) = behind(rest, self.others);
            self.chunks = chunks;
            self.place = 0;
            self.others = others;
        }
    }

    /// Passes the next pair and gives its rank.
    pub fn next(&mut self) -> Option<u64>
        ensures rank { result ≡ option_map (λ f. f.rank) (slice_get self.old 0) }
        ensures left { self.new ≡ drop 1 self.old }
    {
        let rank = match self.head() {
            Some(filed) => filed.rank(),
            None => return None,
        };
        self.pass();
        Some(rank)
    }

    /// Passes the next pair and gives its rank, where its key stands before this one.
    pub fn next_below(&mut self, high: &[u8]) -> Option<u64>
        ensures rank { result ≡ next_below_of high.now self.old }
        ensures left { self.new ≡ left_below high.now self.old }
    {
        let filed = self.head()?;
        let end = Probe::of(high, 0);
        if !filed.is_before(&end) {
            return None;
        }
        let rank = filed.rank();
        self.pass();
        Some(rank)
    }
}
