//! The kinds of mask that are in use.

ghost use Rattle.std.specs.Prelude.{◌≡◌, ◌⊎◌, ◌↔◌, ◌<◌, ℕ, Contains, IsTrue, OnErr, OnOk, ◌==◌, nat_eq, filter, length, not, IfSome, position};
ghost use Rattle.std.specs.List.{IsDistinct};
ghost use Rattle.lb_masks.specs.Kinds.{numbers, HasKind, IsNoted, KeepsMarks};
ghost use Rattle.lb_masks.specs.Marks.{HasMark};

use lb_index_ranks::Ranks;
use std::alloc::AllocError;

/// The bits of a word of marks.
const WORD: u8 = 64;

/// A kind of mask that is in use, and marks of the networks of its masks: where the mark of a network is not among them, no mask of
/// the kind has that network. A mark stays when its mask goes, and costs a look then; with the last mask of the kind all go.
#[derive(Clone, Copy, Debug)]
pub(crate) struct MaskKind {
    pub(crate) number: u8,
    pub(crate) marks: [u64; 4],
}

impl MaskKind {
    /// A kind with no mark.
    fn new(number: u8) -> MaskKind
        ensures { result.number ≡ number }
    {
        MaskKind {
            number,
            marks: [0; 4],
        }
    }

    /// Whether it has the mark.
    pub(crate) fn has(&self, mark: u8) -> bool
        ensures { IsTrue result ↔ HasMark self.now.marks mark }
    {
        self.marks[usize::from(mark / WORD)] >> (mark % WORD) & 1 == 1
    }

    /// The kind with one mark more.
    fn with(self, mark: u8) -> MaskKind
        ensures number { result.number ≡ self.number }
        ensures own { HasMark result.marks mark }
        ensures kept { (m : ℕ) → HasMark self.marks m → HasMark result.marks m }
    {
        let mut marks = self.marks;
        marks[usize::from(mark / WORD)] |= 1 << (mark % WORD);
        MaskKind {
            number: self.number,
            marks,
        }
    }
}

/// Where a kind stands among others.
fn place_of(kinds: &[MaskKind], number: u8) -> Option<usize>
    ensures place { result ≡ position (λ k. k.number == number) kinds.now }
    ensures within { IfSome result (λ place. place < length kinds.now) }
{
    kinds.iter().position(|kind| kind.number == number)
}

/// Puts a kind among the others, where it is not there already, and a mark to it.
pub(crate) fn note(kinds: &mut Vec<MaskKind>, number: u8, mark: u8) -> Result<(), AllocError>
    ensures ok { OnOk result ((k : ℕ) → Contains (numbers kinds.new.items) k ↔ ((k ≡ number) ⊎ Contains (numbers kinds.old.items) k)) }
    ensures marked { OnOk result (IsNoted kinds.old.items number mark kinds.new.items) }
    ensures err { OnErr result (kinds.new.items ≡ kinds.old.items) }
    ensures once { IsDistinct nat_eq (numbers kinds.old.items) → IsDistinct nat_eq (numbers kinds.new.items) }
{
    match place_of(kinds.as_slice(), number) {
        Some(place) => kinds[place] = kinds[place].with(mark),
        None => kinds.push(MaskKind::new(number).with(mark))?,
    }
    Ok(())
}

/// Takes a kind from the others, and its marks.
fn forget(kinds: &mut Vec<MaskKind>, number: u8)
    ensures { kinds.new.items ≡ filter (λ k. not (k.number == number)) kinds.old.items }
{
    kinds.retain(|kind| kind.number != number);
}

/// Whether a rank is filed under a key of the kind.
fn has_kind(ranks: &Ranks, kind: u8) -> bool
    requires { kind < 255 }
    ensures { IsTrue result ↔ HasKind ranks.now kind }
{
    // A law, which does nothing.
    ranks.stand_in_order();
    let mut pairs = ranks.walk_from(&[kind]);
    pairs.next_below(&[kind + 1]).is_some()
}

/// Takes a kind from the others, where no rank is filed under a key of it.
pub(crate) fn forget_unused(kinds: &mut Vec<MaskKind>, number: u8, ranks: &Ranks)
    requires { number < 255 }
    ensures kinds { (k : ℕ) → Contains (numbers kinds.new.items) k ↔ (((k ≡ number → ⊥) ⊎ HasKind ranks.now number) × Contains (numbers kinds.old.items) k) }
    ensures marked { KeepsMarks kinds.old.items number ranks.now kinds.new.items }
    ensures once { IsDistinct nat_eq (numbers kinds.old.items) → IsDistinct nat_eq (numbers kinds.new.items) }
{
    if !has_kind(ranks, number) {
        forget(kinds, number);
    }
}
