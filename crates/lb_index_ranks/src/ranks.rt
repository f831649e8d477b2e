//! Ranks that are filed under keys.

ghost use Rattle.std.specs.Prelude.{◌≡◌, ◌<◌, ◌^◌, ◌++◌, [], length, IfSome, OnOk, OnErr};
ghost use Rattle.std.specs.Option.{IfNone};
ghost use Rattle.lb_index_ranks.specs.Filed.{filed_at, AreInOrder, HasBesides, HasBut, IsCutOut, IsFiledAt, IsFrom, TakesFirst, TakesLast};
ghost use Rattle.lb_index_ranks.specs.Least.{IsLeastFrom};

use crate::block::Block;
use crate::blocks::{cut_in, file_in, first_in, take_in, take_last_in, unfile_in, walk_in};
use crate::cursor::Cursor;
use crate::key::Probe;
use std::alloc::{AllocError, Global};
use std::marker::Model;

/// Ranks, each filed under a key. A contract sees them as the list of their pairs, by key and then
/// by rank.
#[derive(Debug, Drop)]
pub struct Ranks {
    blocks: Vec<Block>,
}

impl Model for Ranks {
    ghost use Rattle.std.specs.Prelude.{List};
    ghost use Rattle.std.specs.List.{All};
    ghost use Rattle.lb_index_ranks.specs.declared.filed.Filed.{Filed};
    ghost use Rattle.lb_index_ranks.specs.Filed.{AreInOrder};
    ghost use Rattle.lb_index_ranks.specs.Chunk.{all_of, IsFilled};

    ghost Value = { List Filed };

    ghost view = { λ r. all_of r.blocks.items };

    ghost invariant = { λ r. AreInOrder (all_of r.blocks.items) × All IsFilled r.blocks.items };
}

impl Ranks {
    /// No ranks. It takes no memory.
    pub fn new(alloc: Global) -> Ranks
        ensures { result ≡ [] }
    {
        Ranks {
            blocks: Vec::new(alloc),
        }
    }

    /// Files a rank under a key, where it is not filed there already. The one error is lack of
    /// memory; it leaves all as it was.
    pub fn file(&mut self, key: &[u8], rank: u64) -> Result<(), AllocError>
        ensures ok { OnOk result (HasBesides self.old (filed_at key.now rank) self.new) }
        ensures err { OnErr result (self.new ≡ self.old) }
    {
        self.file_joined(key, &[], rank)
    }

    /// `file` under the key of two pieces.
    pub fn file_joined(&mut self, head: &[u8], tail: &[u8], rank: u64) -> Result<(), AllocError>
        ensures ok { OnOk result (HasBesides self.old (filed_at (head.now ++ tail.now) rank) self.new) }
        ensures err { OnErr result (self.new ≡ self.old) }
    {
        let at = Probe::joined(head, tail, rank);
        file_in(&mut self.blocks, &at)
    }

    /// Takes a rank from a key, where it is filed there. It takes no memory.
    pub fn unfile(&mut self, key: &[u8], rank: u64)
        ensures { HasBut self.old (filed_at key.now rank) self.new }
    {
        self.unfile_joined(key, &[], rank);
    }

    /// `unfile` from the key of two pieces.
    pub fn unfile_joined(&mut self, head: &[u8], tail: &[u8], rank: u64)
        ensures { HasBut self.old (filed_at (head.now ++ tail.now) rank) self.new }
    {
        let at = Probe::joined(head, tail, rank);
        unfile_in(&mut self.blocks, &at);
    }

    /// The least rank at or after a rank that is filed under the key. It takes no memory.
    pub fn next_at(&self, key: &[u8], from: u64) -> Option<u64>
        ensures { IsLeastFrom (IsFiledAt self.now key.now) from result }
    {
        self.next_joined(key, &[], from)
    }

    /// `next_at` for the key of two pieces.
    pub fn next_joined(&self, head: &[u8], tail: &[u8], from: u64) -> Option<u64>
        ensures { IsLeastFrom (IsFiledAt self.now (head.now ++ tail.now)) from result }
    {
        let at = Probe::joined(head, tail, from);
        let filed = first_in(self.blocks.as_slice(), &at)?;
        if filed.has_key(&at) {
            Some(filed.rank())
        } else {
            None
        }
    }

    /// A walk over the pairs from a key on. It takes no memory.
    pub fn walk_from(&self, low: &[u8]) -> Cursor<'_>
        ensures { IsFrom (filed_at low.now 0) self.now result }
    {
        let at = Probe::of(low, 0);
        walk_in(self.blocks.as_slice(), &at)
    }

    /// Takes the first pair out whose key stands at or after the one key and before the other, and
    /// gives its rank; none where no pair has such a key. It takes no memory.
    pub fn take_first(&mut self, low: &[u8], high: &[u8]) -> Option<u64>
        ensures { TakesFirst low.now high.now self.old result self.new }
    {
        let first = Probe::of(low, 0);
        let end = Probe::of(high, 0);
        take_in(&mut self.blocks, &first, &end)
    }

    /// Cuts out the pairs whose keys stand at or after the one key and before the other. Whole
    /// blocks move, so the time goes by the number of blocks. None if memory is lacking to part the
    /// two at the ends; then nothing has changed.
    pub fn cut(&mut self, low: &[u8], high: &[u8]) -> Option<Ranks>
        ensures cut { IfSome result (λ cut. IsCutOut (filed_at low.now 0) (filed_at high.now 0) self.old cut self.new) }
        ensures none { IfNone result (self.new ≡ self.old) }
    {
        let (from, to) = (Probe::of(low, 0), Probe::of(high, 0));
        let blocks = cut_in(&mut self.blocks, &from, &to)?;
        Some(Ranks { blocks })
    }

    /// Takes the last pair out and gives its rank; none where there is no pair. It takes no memory.
    pub fn take_last(&mut self) -> Option<u64>
        ensures { TakesLast self.old result self.new }
    {
        take_last_in(&mut self.blocks)
    }

    /// How many pairs there are, where that can be said in 64 bits. It counts them by chunks.
    pub fn len(&self) -> usize
        ensures { length self.now < 2 ^ 64 → result ≡ length self.now }
    {
        let mut len = 0usize;
        'all: for block in self.blocks.as_slice() {
            len = len.saturating_add(block.len());
        }
        len
    }

    /// The pairs stand in order, each before those after it. It is a law, and does nothing.
    pub fn stand_in_order(&self)
        ensures { AreInOrder self.now }
    {
        let _blocks = &self.blocks;
    }
}
