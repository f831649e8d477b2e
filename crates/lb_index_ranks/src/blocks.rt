//! What is looked for, put and taken among blocks.

ghost use Rattle.std.specs.Prelude.{◌≡◌, ◌<◌, length, ◌≤◌, ◌-◌, ◌++◌, drop, slice_get, take, option_copied, IsTrue, IfSome, OnOk, OnErr, IfOk};
ghost use Rattle.std.specs.List.{All, remove};
ghost use Rattle.std.specs.Option.{IfNone};
ghost use Rattle.lb_index_ranks.specs.Block.{back_in, front_in, IsFiledIn, IsUnfiledIn, place_in, TakesBelow};
ghost use Rattle.lb_index_ranks.specs.Chunk.{all_of, chunk_at, IsCutAt, IsFilled, IsPlace};
ghost use Rattle.lb_index_ranks.specs.Filed.{AreInOrder, IsCut, IsCutOut, TakesLast};

use crate::block::Block;
use crate::cursor::Cursor;
use crate::filed::Filed;
use crate::key::Probe;
use std::alloc::AllocError;

/// The block in which the pair that is looked for stands, or would stand.
fn block_of(blocks: &[Block], at: &Probe<'_>) -> usize
    requires order { AreInOrder (all_of blocks.now) }
    requires filled { All IsFilled blocks.now }
    ensures place { IsPlace blocks.now result (place_in at.now (chunk_at blocks.now result)) }
    ensures cut { IsCutAt at.now blocks.now result (place_in at.now (chunk_at blocks.now result)) }
{
    let Some((_, others)) = blocks.split_last() else {
        return 0;
    };
    others.partition_point(|block| block.ends_before(at))
}

/// The first pair that does not stand before the one that is looked for.
pub(crate) fn first_in<'a>(blocks: &'a [Block], at: &Probe<'_>) -> Option<&'a Filed>
    requires order { AreInOrder (all_of blocks.now) }
    requires filled { All IsFilled blocks.now }
    ensures { option_copied result ≡ slice_get (back_in at.now (all_of blocks.now)) 0 }
{
    blocks.get(block_of(blocks, at))?.first_from(at)
}

/// A walk over the pairs that do not stand before the one that is looked for.
pub(crate) fn walk_in<'a>(blocks: &'a [Block], at: &Probe<'_>) -> Cursor<'a>
    requires order { AreInOrder (all_of blocks.now) }
    requires filled { All IsFilled blocks.now }
    ensures { result ≡ back_in at.now (all_of blocks.now) }
{
    let (_, rest) = blocks.split_at(block_of(blocks, at));
    let Some((block, others)) = rest.split_first() else {
        return Cursor::none();
    };
    let (chunks, place) = block.walk_from(at);
    Cursor::new(chunks, place, others)
}

/// Divides a block, where it has more than one chunk. The pairs stay.
fn divide(blocks: &mut Vec<Block>, at: usize) -> Result<(), AllocError>
    requires within { at < length blocks.old.items }
    requires filled { All IsFilled blocks.old.items }
    ensures pairs { all_of blocks.new.items ≡ all_of blocks.old.items }
    ensures filled { All IsFilled blocks.new.items }
{
    blocks.reserve(1)?;
    let Some(upper) = blocks[at].divide()? else {
        return Ok(());
    };
    match blocks.insert(at + 1, upper) {
        Ok(()) => Ok(()),
        Err(_) => unreachable!(),
    }
}

/// Whether a block has as many chunks as it may have.
fn is_full(blocks: &[Block], at: usize) -> bool
    ensures { IsTrue result → at < length blocks.now }
{
    match blocks.get(at) {
        Some(block) => block.is_full(),
        None => false,
    }
}

/// The block in which the pair that is looked for is to stand; one that is full is divided before.
/// The pairs stay.
fn room_for(blocks: &mut Vec<Block>, at: &Probe<'_>) -> Result<usize, AllocError>
    requires order { AreInOrder (all_of blocks.old.items) }
    requires filled { All IsFilled blocks.old.items }
    ensures pairs { all_of blocks.new.items ≡ all_of blocks.old.items }
    ensures filled { All IsFilled blocks.new.items }
    ensures place { IfOk result (λ k. IsPlace blocks.new.items k (place_in at.now (chunk_at blocks.new.items k))) }
    ensures cut { IfOk result (λ k. IsCutAt at.now blocks.new.items k (place_in at.now (chunk_at blocks.new.items k))) }
{
    let here = block_of(blocks.as_slice(), at);
    if !is_full(blocks.as_slice(), here) {
        return Ok(here);
    }
    divide(blocks, here)?;
    Ok(block_of(blocks.as_slice(), at))
}

/// Files a pair in a block, or in a first one where there is none.
fn file_at(blocks: &mut Vec<Block>, here: usize, at: &Probe<'_>) -> Result<(), AllocError>
    requires order { AreInOrder (all_of blocks.old.items) }
    requires filled { All IsFilled blocks.old.items }
    requires place { IsPlace blocks.old.items here (place_in at.now (chunk_at blocks.old.items here)) }
    requires cut { IsCutAt at.now blocks.old.items here (place_in at.now (chunk_at blocks.old.items here)) }
    ensures ok { OnOk result (IsFiledIn at.now (front_in at.now (all_of blocks.old.items)) (back_in at.now (all_of blocks.old.items)) (all_of blocks.new.items)) }
    ensures err { OnErr result (all_of blocks.new.items ≡ all_of blocks.old.items) }
    ensures filled { All IsFilled blocks.new.items }
{
    if blocks.is_empty() {
        let block = Block::one(*blocks.allocator(), at)?;
        blocks.push(block)?;
        return Ok(());
    }
    blocks[here].file(at)
}

/// Files the pair that is looked for, where it is not there already.
pub(crate) fn file_in(blocks: &mut Vec<Block>, at: &Probe<'_>) -> Result<(), AllocError>
    requires order { AreInOrder (all_of blocks.old.items) }
    requires filled { All IsFilled blocks.old.items }
    ensures ok { OnOk result (IsFiledIn at.now (front_in at.now (all_of blocks.old.items)) (back_in at.now (all_of blocks.old.items)) (all_of blocks.new.items)) }
    ensures err { OnErr result (all_of blocks.new.items ≡ all_of blocks.old.items) }
    ensures filled { All IsFilled blocks.new.items }
{
    let here = room_for(blocks, at)?;
    file_at(blocks, here, at)
}

/// Gives a block up where it is empty. The pairs stay.
fn give_up_empty(blocks: &mut Vec<Block>, at: usize)
    requires within { at < length blocks.old.items }
    requires others { All IsFilled (remove blocks.old.items at) }
    ensures pairs { all_of blocks.new.items ≡ all_of blocks.old.items }
    ensures filled { All IsFilled blocks.new.items }
{
    if blocks[at].is_empty() {
        let _empty = blocks.remove(at);
    }
}

/// Takes the pair that is looked for out, where it is there, and its block with it where no pair is
/// left in that.
pub(crate) fn unfile_in(blocks: &mut Vec<Block>, at: &Probe<'_>)
    requires order { AreInOrder (all_of blocks.old.items) }
    requires filled { All IsFilled blocks.old.items }
    ensures taken { IsUnfiledIn at.now (front_in at.now (all_of blocks.old.items)) (back_in at.now (all_of blocks.old.items)) (all_of blocks.new.items) }
    ensures filled { All IsFilled blocks.new.items }
{
    let here = block_of(blocks.as_slice(), at);
    if here < blocks.len() {
        blocks[here].unfile(at);
        give_up_empty(blocks, here);
    }
}

/// Takes the first pair out that does not stand before the one but before the other, and its block
/// with it where no pair is left in that, and gives its rank; none where there is no such pair.
pub(crate) fn take_in(blocks: &mut Vec<Block>, low: &Probe<'_>, end: &Probe<'_>) -> Option<u64>
    requires order { AreInOrder (all_of blocks.old.items) }
    requires filled { All IsFilled blocks.old.items }
    ensures taken { TakesBelow end.now (front_in low.now (all_of blocks.old.items)) (back_in low.now (all_of blocks.old.items)) result (all_of blocks.new.items) }
    ensures filled { All IsFilled blocks.new.items }
{
    let here = block_of(blocks.as_slice(), low);
    if here >= blocks.len() {
        return None;
    }
    let rank = blocks[here].take_first(low, end);
    give_up_empty(blocks, here);
    rank
}

/// Parts the block in which the pair that is looked for stands or would stand, so that no block has
/// pairs that stand before it and others. The pairs stay.
fn part(blocks: &mut Vec<Block>, at: &Probe<'_>) -> Result<(), AllocError>
    requires order { AreInOrder (all_of blocks.old.items) }
    requires filled { All IsFilled blocks.old.items }
    ensures pairs { all_of blocks.new.items ≡ all_of blocks.old.items }
    ensures filled { All IsFilled blocks.new.items }
{
    let here = block_of(blocks.as_slice(), at);
    if here >= blocks.len() {
        return Ok(());
    }
    blocks.reserve(1)?;
    let Some(upper) = blocks[here].part(at)? else {
        return Ok(());
    };
    match blocks.insert(here + 1, upper) {
        Ok(()) => Ok(()),
        Err(_) => unreachable!(),
    }
}

/// The block that begins where the pair that is looked for stands, or would stand; none if the
/// place is inside a block.
fn edge(blocks: &[Block], at: &Probe<'_>) -> Option<usize>
    requires order { AreInOrder (all_of blocks.now) }
    requires filled { All IsFilled blocks.now }
    ensures within { IfSome result (λ k. k ≤ length blocks.now) }
    ensures cut { IfSome result (λ k. IsCut at.now (all_of (take k blocks.now)) (all_of (drop k blocks.now))) }
{
    let here = block_of(blocks, at);
    let Some(block) = blocks.get(here) else {
        return Some(here);
    };
    if !block.begins_before(at) {
        return Some(here);
    }
    if block.ends_before(at) {
        return Some(here + 1);
    }
    None
}

/// Takes the blocks from one up to another out.
fn take_blocks(blocks: &mut Vec<Block>, from: usize, to: usize) -> Result<Vec<Block>, AllocError>
    requires order { from ≤ to }
    requires within { to ≤ length blocks.old.items }
    ensures taken { IfOk result (λ cut. cut.items ≡ take (to - from) (drop from blocks.old.items)) }
    ensures left { OnOk result (blocks.new.items ≡ take from blocks.old.items ++ drop to blocks.old.items) }
    ensures err { OnErr result (blocks.new.items ≡ blocks.old.items) }
{
    let mut cut = Vec::with_capacity(*blocks.allocator(), to - from)?;
    'moved: for _ in from..to {
        cut.push_reserved(blocks.remove(from));
    }
    Ok(cut)
}

/// Cuts the pairs out that do not stand before the one but before the other: whole blocks, those at
/// the ends parted before. None if memory is lacking; then the pairs stay.
pub(crate) fn cut_in(
    blocks: &mut Vec<Block>,
    low: &Probe<'_>,
    end: &Probe<'_>,
) -> Option<Vec<Block>>
    requires order { AreInOrder (all_of blocks.old.items) }
    requires filled { All IsFilled blocks.old.items }
    ensures cut { IfSome result (λ cut. IsCutOut low.now end.now (all_of blocks.old.items) (all_of cut.items) (all_of blocks.new.items)) }
    ensures none { IfNone result (all_of blocks.new.items ≡ all_of blocks.old.items) }
    ensures filled { All IsFilled blocks.new.items }
    ensures cut_filled { IfSome result (λ cut. All IsFilled cut.items) }
{
    if let Err(_) = part(blocks, low) {
        return None;
    }
    if let Err(_) = part(blocks, end) {
        return None;
    }
    let from = edge(blocks.as_slice(), low)?;
    let to = edge(blocks.as_slice(), end)?;
    if to < from {
        return None;
    }
    match take_blocks(blocks, from, to) {
        Ok(cut) => Some(cut),
        Err(_) => None,
    }
}

/// Takes the last pair out, and its block with it where no pair is left in that, and gives its
/// rank.
pub(crate) fn take_last_in(blocks: &mut Vec<Block>) -> Option<u64>
    requires filled { All IsFilled blocks.old.items }
    ensures taken { TakesLast (all_of blocks.old.items) result (all_of blocks.new.items) }
    ensures filled { All IsFilled blocks.new.items }
{
    let last = blocks.len().checked_sub(1)?;
    let rank = blocks[last].take_last();
    give_up_empty(blocks, last);
    rank
}
