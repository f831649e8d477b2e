//! Some chunks in order.

ghost use Rattle.std.specs.Prelude.{◌≡◌, ◌<◌, ◌≤◌, ◌+◌, ◌^◌, ◌↔◌, [], ◌∷◌, ◌++◌, length, slice_get, option_copied, option_map, Some, IsTrue, IfSome, OnOk, OnErr, IfOk};
ghost use Rattle.std.specs.List.{All};
ghost use Rattle.std.specs.Option.{IfNone};
ghost use Rattle.lb_index_ranks.specs.Block.{back_in, front_in, IsBelow, IsFiledIn, IsUnfiledIn, TakesBelow};
ghost use Rattle.lb_index_ranks.specs.Chunk.{all_of, back_of, ends_before as ends_before_of, front_of, IsFence, IsFilled, IsPlace, IsTaken, rest_of};
ghost use Rattle.lb_index_ranks.specs.Filed.{AreInOrder, TakesLast};

use crate::chunk::Chunk;
use crate::edits::{part_at, put_at, room_at, take_at};
use crate::filed::Filed;
use crate::front::Front;
use crate::key::Probe;
use crate::spot::{Spot, is_below, pair_at, spot_of, stands_at};
use std::alloc::{AllocError, Global};
use std::cmp::Ordering;
use std::marker::Model;

/// The most chunks of a block.
const MAX_CHUNKS: usize = 256;

/// Some chunks in order. A contract sees the list of their pairs.
#[derive(Debug, Drop)]
pub(crate) struct Block {
    chunks: Vec<Chunk>,
    // The front of the last pair's key: a search among blocks reads a chunk only where it is equal
    // to that which is looked for.
    fence: Front,
}

impl Model for Block {
    ghost use Rattle.std.specs.Prelude.{List};
    ghost use Rattle.std.specs.List.{All};
    ghost use Rattle.lb_index_ranks.specs.declared.filed.Filed.{Filed};
    ghost use Rattle.lb_index_ranks.specs.Chunk.{all_of, IsFence, IsFilled};

    ghost Value = { List Filed };

    ghost view = { λ b. all_of b.chunks.items };

    ghost invariant = { λ b. All IsFilled b.chunks.items × IsFence b.fence (all_of b.chunks.items) };
}

/// The front of the last pair's key.
fn fence_of(chunks: &[Chunk]) -> Front
    requires { All IsFilled chunks.now }
    ensures { IsFence result (all_of chunks.now) }
{
    match chunks.split_last() {
        Some((chunk, _)) => chunk.fence(),
        None => Front::of(&[]),
    }
}

/// Whether the last pair stands before the pair that is looked for: the last chunk decides.
fn last_is_before(chunks: &[Chunk], at: &Probe<'_>) -> bool
    requires { All IsFilled chunks.now }
    ensures { result ≡ ends_before_of at.now (all_of chunks.now) }
{
    match chunks.split_last() {
        Some((chunk, _)) => chunk.ends_before(at),
        None => false,
    }
}

/// Whether no chunk stands after the one at a place.
fn is_last(chunks: &[Chunk], at: usize) -> bool
    ensures { IsTrue result ↔ (length chunks.now ≤ at + 1) }
{
    chunks.len().saturating_sub(at) <= 1
}

/// Puts a pair at a spot. The fence is made anew only where the last chunk changes, so that no
/// other put reads that one.
fn put_in(
    chunks: &mut Vec<Chunk>,
    fence: &mut Front,
    spot: Spot,
    filed: Filed,
) -> Result<(), AllocError>
    requires place { IsPlace chunks.old.items spot.chunk spot.place }
    requires filled { All IsFilled chunks.old.items }
    requires fence { IsFence fence.old (all_of chunks.old.items) }
    ensures ok { OnOk result (all_of chunks.new.items ≡ front_of chunks.old.items spot.chunk spot.place ++ filed ∷ back_of chunks.old.items spot.chunk spot.place) }
    ensures err { OnErr result (all_of chunks.new.items ≡ all_of chunks.old.items) }
    ensures filled { All IsFilled chunks.new.items }
    ensures fence { IsFence fence.new (all_of chunks.new.items) }
{
    let last = is_last(chunks.as_slice(), spot.chunk);
    put_at(chunks, spot, filed)?;
    if last {
        *fence = fence_of(chunks.as_slice());
    }
    Ok(())
}

/// Takes the pair at a spot out and gives its rank. The fence is made anew only where the last
/// chunk changes.
fn take_out(chunks: &mut Vec<Chunk>, fence: &mut Front, spot: Spot) -> u64
    requires taken { IsTaken chunks.old.items spot.chunk spot.place }
    requires filled { All IsFilled chunks.old.items }
    requires fence { IsFence fence.old (all_of chunks.old.items) }
    ensures rank { option_map (λ f. f.rank) (slice_get (back_of chunks.old.items spot.chunk spot.place) 0) ≡ Some result }
    ensures pairs { all_of chunks.new.items ≡ front_of chunks.old.items spot.chunk spot.place ++ rest_of chunks.old.items spot.chunk spot.place }
    ensures filled { All IsFilled chunks.new.items }
    ensures fence { IsFence fence.new (all_of chunks.new.items) }
{
    let last = is_last(chunks.as_slice(), spot.chunk);
    let rank = take_at(chunks, spot);
    if last {
        *fence = fence_of(chunks.as_slice());
    }
    rank
}

impl Block {
    /// A block of these chunks.
    fn of(chunks: Vec<Chunk>) -> Block
        requires { All IsFilled chunks.items }
        ensures { result ≡ all_of chunks.items }
    {
        let fence = fence_of(chunks.as_slice());
        Block { chunks, fence }
    }

    /// A block of one pair.
    pub(crate) fn one(alloc: Global, at: &Probe<'_>) -> Result<Block, AllocError>
        ensures { IfOk result (λ block. block ≡ at.now ∷ []) }
    {
        let filed = Filed::copied(alloc, at)?;
        let chunk = Chunk::one(alloc, filed)?;
        let mut chunks = Vec::new(alloc);
        chunks.push(chunk)?;
        Ok(Block::of(chunks))
    }

    /// How many pairs it has, where that can be said in 64 bits.
    pub(crate) fn len(&self) -> usize
        ensures { length self.now < 2 ^ 64 → result ≡ length self.now }
    {
        let mut len = 0usize;
        'chunks: for chunk in self.chunks.as_slice() {
            len = len.saturating_add(chunk.len());
        }
        len
    }

    /// Whether no pair is left.
    pub(crate) fn is_empty(&self) -> bool
        ensures { IsTrue result ↔ (self.now ≡ []) }
    {
        self.chunks.is_empty()
    }

    /// Whether it has as many chunks as it may have: no clause rests on when a block is divided.
    pub(crate) fn is_full(&self) -> bool {
        self.chunks.len() >= MAX_CHUNKS
    }

    /// Whether its last pair stands before the pair that is looked for.
    pub(crate) fn ends_before(&self, at: &Probe<'_>) -> bool
        ensures { result ≡ ends_before_of at.now self.now }
    {
        match at.order_of(&self.fence) {
            Ordering::Less => !self.chunks.is_empty(),
            Ordering::Equal => last_is_before(self.chunks.as_slice(), at),
            Ordering::Greater => false,
        }
    }

    /// Its chunks.
    pub(crate) fn chunks(&self) -> &[Chunk]
        ensures pairs { all_of result.now ≡ self.now }
        ensures filled { All IsFilled result.now }
    {
        self.chunks.as_slice()
    }

    /// The first pair that does not stand before the one that is looked for.
    pub(crate) fn first_from(&self, at: &Probe<'_>) -> Option<&Filed>
        requires { AreInOrder self.now }
        ensures { option_copied result ≡ slice_get (back_in at.now self.now) 0 }
    {
        let chunks = self.chunks.as_slice();
        pair_at(chunks, spot_of(chunks, at))
    }

    /// The chunks from the pair that is looked for on, and its place in the first of them.
    pub(crate) fn walk_from(&self, at: &Probe<'_>) -> (&[Chunk], usize)
        requires { AreInOrder self.now }
        ensures pairs { back_of result.0.now 0 result.1 ≡ back_in at.now self.now }
        ensures filled { All IsFilled result.0.now }
        ensures place { IsPlace result.0.now 0 result.1 }
        ensures some { 0 < length self.now → 0 < length result.0.now }
    {
        let chunks = self.chunks.as_slice();
        let spot = spot_of(chunks, at);
        let (_, chunks) = chunks.split_at(spot.chunk);
        (chunks, spot.place)
    }

    /// Files the pair that is looked for, where it is not there already.
    pub(crate) fn file(&mut self, at: &Probe<'_>) -> Result<(), AllocError>
        requires { AreInOrder self.old }
        ensures ok { OnOk result (IsFiledIn at.now (front_in at.now self.old) (back_in at.now self.old) self.new) }
        ensures err { OnErr result (self.new ≡ self.old) }
    {
        let spot = spot_of(self.chunks.as_slice(), at);
        if stands_at(self.chunks.as_slice(), spot, at) {
            return Ok(());
        }
        let filed = Filed::copied(*self.chunks.allocator(), at)?;
        let spot = room_at(&mut self.chunks, spot, at)?;
        put_in(&mut self.chunks, &mut self.fence, spot, filed)
    }

    /// Takes the pair that is looked for out, where it is there.
    pub(crate) fn unfile(&mut self, at: &Probe<'_>)
        requires { AreInOrder self.old }
        ensures { IsUnfiledIn at.now (front_in at.now self.old) (back_in at.now self.old) self.new }
    {
        let chunks = self.chunks.as_slice();
        let spot = spot_of(chunks, at);
        if stands_at(chunks, spot, at) {
            let _rank = take_out(&mut self.chunks, &mut self.fence, spot);
        }
    }

    /// Takes the first pair out that does not stand before the one but before the other, and gives
    /// its rank; none where there is no such pair.
    pub(crate) fn take_first(&mut self, low: &Probe<'_>, end: &Probe<'_>) -> Option<u64>
        requires { AreInOrder self.old }
        ensures { TakesBelow end.now (front_in low.now self.old) (back_in low.now self.old) result self.new }
    {
        let chunks = self.chunks.as_slice();
        let spot = spot_of(chunks, low);
        if !is_below(chunks, spot, end) {
            return None;
        }
        Some(take_out(&mut self.chunks, &mut self.fence, spot))
    }

    /// Divides it: the chunks from the middle on become a block of their own. None where it has one
    /// chunk alone.
    pub(crate) fn divide(&mut self) -> Result<Option<Block>, AllocError>
        ensures some { IfOk result (λ upper. IfSome upper (λ u. IsFilled self.new × IsFilled u × (self.old ≡ self.new ++ u))) }
        ensures none { IfOk result (λ upper. IfNone upper (self.new ≡ self.old)) }
        ensures err { OnErr result (self.new ≡ self.old) }
    {
        let half = self.chunks.len() / 2;
        if half == 0 {
            return Ok(None);
        }
        let upper = self.chunks.split_off(half)?;
        self.chunks.shrink_to_fit();
        self.fence = fence_of(self.chunks.as_slice());
        Ok(Some(Block::of(upper)))
    }

    /// Whether its first pair stands before the pair that is looked for.
    pub(crate) fn begins_before(&self, at: &Probe<'_>) -> bool
        ensures { IsTrue result ↔ IsBelow at.now self.now }
    {
        is_below(self.chunks.as_slice(), Spot { chunk: 0, place: 0 }, at)
    }

    /// Parts it: the pairs that do not stand before the one that is looked for become a block of
    /// their own. None if no pair stands before it, or all do.
    pub(crate) fn part(&mut self, at: &Probe<'_>) -> Result<Option<Block>, AllocError>
        requires { AreInOrder self.old }
        ensures some { IfOk result (λ upper. IfSome upper (λ u. IsFilled self.new × IsFilled u × (self.old ≡ self.new ++ u))) }
        ensures none { IfOk result (λ upper. IfNone upper (self.new ≡ self.old)) }
        ensures err { OnErr result (self.new ≡ self.old) }
    {
        let spot = spot_of(self.chunks.as_slice(), at);
        let cut = part_at(&mut self.chunks, spot)?;
        if cut == 0 || cut >= self.chunks.len() {
            return Ok(None);
        }
        let upper = self.chunks.split_off(cut)?;
        let kept = self.chunks.as_slice();
        self.fence = fence_of(kept);
        Ok(Some(Block::of(upper)))
    }

    /// Takes the last pair out, and gives its rank.
    pub(crate) fn take_last(&mut self) -> Option<u64>
        ensures { TakesLast self.old result self.new }
    {
        let chunk = self.chunks.len().checked_sub(1)?;
        let place = self.chunks[chunk].len().checked_sub(1)?;
        let spot = Spot { chunk, place };
        let rank = take_out(&mut self.chunks, &mut self.fence, spot);
        Some(rank)
    }
}
