//! What is put and taken among chunks.

ghost use Rattle.std.specs.Prelude.{◌≡◌, ◌<◌, ◌≤◌, ◌∷◌, ◌++◌, length, slice_get, option_map, Some, IsTrue, OnOk, OnErr, IfOk};
ghost use Rattle.std.specs.List.{All, remove};
ghost use Rattle.lb_index_ranks.specs.Chunk.{all_of, back_of, chunk_at, front_of, IsCutAt, IsFilled, IsPlace, IsTaken, max_pairs, rest_of};
ghost use Rattle.lb_index_ranks.specs.Filed.{AreInOrder};

use crate::chunk::Chunk;
use crate::filed::Filed;
use crate::key::Probe;
use crate::spot::{Spot, spot_of};
use std::alloc::AllocError;

/// Divides a full chunk. The pairs stay.
fn divide(chunks: &mut Vec<Chunk>, at: usize) -> Result<(), AllocError>
    requires within { at < length chunks.old.items }
    requires full { max_pairs ≤ length (chunk_at chunks.old.items at) }
    requires filled { All IsFilled chunks.old.items }
    ensures pairs { all_of chunks.new.items ≡ all_of chunks.old.items }
    ensures filled { All IsFilled chunks.new.items }
{
    chunks.reserve(1)?;
    let upper = chunks[at].divide()?;
    match chunks.insert(at + 1, upper) {
        Ok(()) => Ok(()),
        Err(_) => unreachable!(),
    }
}

/// Whether a chunk has as many pairs as it may have.
fn is_full(chunks: &[Chunk], at: usize) -> bool
    ensures { IsTrue result → (at < length chunks.now) × (max_pairs ≤ length (chunk_at chunks.now at)) }
{
    match chunks.get(at) {
        Some(chunk) => chunk.is_full(),
        None => false,
    }
}

/// Divides the chunk of a spot where it is full, and gives the spot of the pair that is looked for.
/// The pairs stay.
pub(crate) fn room_at(
    chunks: &mut Vec<Chunk>,
    spot: Spot,
    at: &Probe<'_>,
) -> Result<Spot, AllocError>
    requires order { AreInOrder (all_of chunks.old.items) }
    requires filled { All IsFilled chunks.old.items }
    requires place { IsPlace chunks.old.items spot.chunk spot.place }
    requires cut { IsCutAt at.now chunks.old.items spot.chunk spot.place }
    ensures pairs { all_of chunks.new.items ≡ all_of chunks.old.items }
    ensures filled { All IsFilled chunks.new.items }
    ensures place { IfOk result (λ s. IsPlace chunks.new.items s.chunk s.place) }
    ensures cut { IfOk result (λ s. IsCutAt at.now chunks.new.items s.chunk s.place) }
{
    if !is_full(chunks.as_slice(), spot.chunk) {
        return Ok(spot);
    }
    divide(chunks, spot.chunk)?;
    Ok(spot_of(chunks.as_slice(), at))
}

/// Puts a pair at a spot.
pub(crate) fn put_at(chunks: &mut Vec<Chunk>, spot: Spot, filed: Filed) -> Result<(), AllocError>
    requires place { IsPlace chunks.old.items spot.chunk spot.place }
    requires filled { All IsFilled chunks.old.items }
    ensures ok { OnOk result (all_of chunks.new.items ≡ front_of chunks.old.items spot.chunk spot.place ++ filed ∷ back_of chunks.old.items spot.chunk spot.place) }
    ensures err { OnErr result (all_of chunks.new.items ≡ all_of chunks.old.items) }
    ensures filled { All IsFilled chunks.new.items }
{
    if chunks.is_empty() {
        let chunk = Chunk::one(*chunks.allocator(), filed)?;
        chunks.push(chunk)?;
        return Ok(());
    }
    chunks[spot.chunk].put(spot.place, filed)
}

/// Gives a chunk up where it is empty. The pairs stay.
fn give_up_empty(chunks: &mut Vec<Chunk>, at: usize)
    requires within { at < length chunks.old.items }
    requires others { All IsFilled (remove chunks.old.items at) }
    ensures pairs { all_of chunks.new.items ≡ all_of chunks.old.items }
    ensures filled { All IsFilled chunks.new.items }
{
    if chunks[at].len() == 0 {
        let _empty = chunks.remove(at);
    }
}

/// Takes the pair at a spot out, and its chunk with it where no pair is left in that, and gives its
/// rank.
pub(crate) fn take_at(chunks: &mut Vec<Chunk>, spot: Spot) -> u64
    requires taken { IsTaken chunks.old.items spot.chunk spot.place }
    requires filled { All IsFilled chunks.old.items }
    ensures rank { option_map (λ f. f.rank) (slice_get (back_of chunks.old.items spot.chunk spot.place) 0) ≡ Some result }
    ensures pairs { all_of chunks.new.items ≡ front_of chunks.old.items spot.chunk spot.place ++ rest_of chunks.old.items spot.chunk spot.place }
    ensures filled { All IsFilled chunks.new.items }
{
    let rank = chunks[spot.chunk].take(spot.place);
    give_up_empty(chunks, spot.chunk);
    rank
}

/// Whether a spot stands between two pairs of a chunk.
fn is_inside(chunks: &[Chunk], spot: Spot) -> bool
    ensures { IsTrue result → (spot.chunk < length chunks.now) × (spot.place < length (chunk_at chunks.now spot.chunk)) × (0 < spot.place) }
{
    match chunks.get(spot.chunk) {
        Some(chunk) => 0 < spot.place && spot.place < chunk.len(),
        None => false,
    }
}

/// Parts the chunk of a spot there. The pairs stay.
fn part(chunks: &mut Vec<Chunk>, spot: Spot) -> Result<(), AllocError>
    requires within { spot.chunk < length chunks.old.items }
    requires place { spot.place < length (chunk_at chunks.old.items spot.chunk) }
    requires some { 0 < spot.place }
    requires filled { All IsFilled chunks.old.items }
    ensures pairs { all_of chunks.new.items ≡ all_of chunks.old.items }
    ensures filled { All IsFilled chunks.new.items }
{
    chunks.reserve(1)?;
    let upper = chunks[spot.chunk].part(spot.place)?;
    match chunks.insert(spot.chunk + 1, upper) {
        Ok(()) => Ok(()),
        Err(_) => unreachable!(),
    }
}

/// Parts the chunk of a spot there, if the spot is between two pairs, and gives the chunk that
/// begins there. The pairs stay.
pub(crate) fn part_at(chunks: &mut Vec<Chunk>, spot: Spot) -> Result<usize, AllocError>
    requires filled { All IsFilled chunks.old.items }
    ensures pairs { all_of chunks.new.items ≡ all_of chunks.old.items }
    ensures filled { All IsFilled chunks.new.items }
{
    if is_inside(chunks.as_slice(), spot) {
        part(chunks, spot)?;
    }
    if spot.place == 0 {
        Ok(spot.chunk)
    } else {
        Ok(spot.chunk.saturating_add(1))
    }
}
