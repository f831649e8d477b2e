//! Where a pair stands among chunks.

ghost use Rattle.std.specs.Prelude.{◌≡◌, slice_get, option_copied, IsSome, Some, IsTrue, ◌↔◌};
ghost use Rattle.std.specs.List.{All};
ghost use Rattle.lb_index_ranks.specs.Block.{IsBelow};
ghost use Rattle.lb_index_ranks.specs.Chunk.{all_of, back_of, IsCutAt, IsFilled, IsPlace, IsTaken};
ghost use Rattle.lb_index_ranks.specs.Filed.{AreInOrder};

use crate::chunk::Chunk;
use crate::filed::Filed;
use crate::key::Probe;

/// A place of a chunk.
#[derive(Clone, Copy, Debug)]
pub(crate) struct Spot {
    pub(crate) chunk: usize,
    pub(crate) place: usize,
}

/// Where the pair that is looked for stands, or would stand.
pub(crate) fn spot_of(chunks: &[Chunk], at: &Probe<'_>) -> Spot
    requires order { AreInOrder (all_of chunks.now) }
    requires filled { All IsFilled chunks.now }
    ensures place { IsPlace chunks.now result.chunk result.place }
    ensures cut { IsCutAt at.now chunks.now result.chunk result.place }
{
    let Some((_, others)) = chunks.split_last() else {
        return Spot { chunk: 0, place: 0 };
    };
    let chunk = others.partition_point(|chunk| chunk.ends_before(at));
    let Some(here) = chunks.get(chunk) else {
        unreachable!();
    };
    Spot {
        chunk,
        place: here.place_of(at),
    }
}

/// The pair at a spot.
pub(crate) fn pair_at(chunks: &[Chunk], spot: Spot) -> Option<&Filed>
    requires { IsPlace chunks.now spot.chunk spot.place }
    ensures pair { option_copied result ≡ slice_get (back_of chunks.now spot.chunk spot.place) 0 }
    ensures taken { IsSome result → IsTaken chunks.now spot.chunk spot.place }
{
    chunks.get(spot.chunk)?.get(spot.place)
}

/// Whether the pair that is looked for stands at the spot.
pub(crate) fn stands_at(chunks: &[Chunk], spot: Spot, at: &Probe<'_>) -> bool
    requires { IsPlace chunks.now spot.chunk spot.place }
    ensures pair { IsTrue result ↔ (slice_get (back_of chunks.now spot.chunk spot.place) 0 ≡ Some at.now) }
    ensures taken { IsTrue result → IsTaken chunks.now spot.chunk spot.place }
{
    match pair_at(chunks, spot) {
        Some(filed) => filed.is(at),
        None => false,
    }
}

/// Whether at the spot stands a pair that stands before the one that is looked for.
pub(crate) fn is_below(chunks: &[Chunk], spot: Spot, end: &Probe<'_>) -> bool
    requires { IsPlace chunks.now spot.chunk spot.place }
    ensures pair { IsTrue result ↔ IsBelow end.now (back_of chunks.now spot.chunk spot.place) }
    ensures taken { IsTrue result → IsTaken chunks.now spot.chunk spot.place }
{
    match pair_at(chunks, spot) {
        Some(filed) => filed.is_before(end),
        None => false,
    }
}
