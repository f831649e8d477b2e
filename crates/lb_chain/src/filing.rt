//! Ranks filed by what selectors ask first.

ghost use Rattle.std.specs.Prelude.{◌≡◌, OnErr, OnOk};
ghost use Rattle.lb_terms.specs.Selector.{selector_of};
ghost use Rattle.lb_chain.specs.FirstAsked.{at_masks, at_names, first_sets, loose_ranks, mask_pairs, name_pairs};
ghost use Rattle.lb_chain.specs.Filing.{AreTakenBack, AreWith, AreWithout, own_sets};

use crate::loose::Loose;
use lb_masks::{Mask, MaskIndex};
use lb_suffix::SuffixIndex;
use lb_terms::{CheckedTerm, Names, Term};
use std::alloc::AllocError;

/// The term, or the first member of nested Ands that has no member before it.
fn first_asked(term: &Term) -> &Term
    ensures { own_sets (selector_of result.now) ≡ first_sets (selector_of term.now) }
{
    match term {
        Term::And(terms) => match terms.as_slice() {
            [first, ..] => first_asked(first),
            [] => term,
        },
        _ => term,
    }
}

/// Takes a rank from each of these names.
fn unfile_names(names: &mut SuffixIndex, set: &Names, rank: u64)
    ensures { AreWithout names.old (at_names set.now rank) names.new }
{
    for at in 0..set.len() {
        let Some(name) = set.get(at) else {
            unreachable!();
        };
        names.unfile(&name, rank);
    }
}

/// Files a rank under each of these names. The one error is lack of memory; none of them is left then.
fn file_names(names: &mut SuffixIndex, set: &Names, rank: u64) -> Result<(), AllocError>
    ensures ok { OnOk result (AreWith names.old (at_names set.now rank) names.new) }
    ensures err { OnErr result (AreTakenBack names.old (at_names set.now rank) names.new) }
{
    for at in 0..set.len() {
        let Some(name) = set.get(at) else {
            unreachable!();
        };
        if let Err(refused) = names.file(&name, rank) {
            unfile_names(names, set, rank);
            return Err(refused);
        }
    }
    Ok(())
}

/// Takes a rank from each of these masks.
fn unfile_masks(masks: &mut MaskIndex, set: &[Mask], rank: u64)
    ensures { AreWithout masks.old (at_masks set.now rank) masks.new }
{
    for mask in set {
        masks.unfile(mask, rank);
    }
}

/// Files a rank under each of these masks. The one error is lack of memory; none of them is left then.
fn file_masks(masks: &mut MaskIndex, set: &[Mask], rank: u64) -> Result<(), AllocError>
    ensures ok { OnOk result (AreWith masks.old (at_masks set.now rank) masks.new) }
    ensures err { OnErr result (AreTakenBack masks.old (at_masks set.now rank) masks.new) }
{
    for mask in set {
        if let Err(refused) = masks.file(mask, rank) {
            unfile_masks(masks, set, rank);
            return Err(refused);
        }
    }
    Ok(())
}

/// Takes the rank of a selector from all that it asks first, or from the loose ones.
pub(crate) fn unfile(
    names: &mut SuffixIndex,
    masks: &mut MaskIndex,
    loose: &mut Loose,
    term: &CheckedTerm,
    rank: u64,
)
    ensures names { AreWithout names.old (name_pairs term.now rank) names.new }
    ensures masks { AreWithout masks.old (mask_pairs term.now rank) masks.new }
    ensures loose { AreWithout loose.old (loose_ranks term.now rank) loose.new }
{
    match first_asked(term.as_term()) {
        Term::Suffix(set) => unfile_names(names, set, rank),
        Term::Masks(group) => unfile_masks(masks, group.as_slice(), rank),
        _ => loose.unfile(rank),
    }
}

/// Files the rank of a selector under all that it asks first, or among the loose ones. The one error is lack of memory; it is
/// filed nowhere then.
pub(crate) fn file(
    names: &mut SuffixIndex,
    masks: &mut MaskIndex,
    loose: &mut Loose,
    term: &CheckedTerm,
    rank: u64,
) -> Result<(), AllocError>
    ensures names { OnOk result (AreWith names.old (name_pairs term.now rank) names.new) }
    ensures masks { OnOk result (AreWith masks.old (mask_pairs term.now rank) masks.new) }
    ensures loose { OnOk result (AreWith loose.old (loose_ranks term.now rank) loose.new) }
    ensures no_names { OnErr result (AreTakenBack names.old (name_pairs term.now rank) names.new) }
    ensures no_masks { OnErr result (AreTakenBack masks.old (mask_pairs term.now rank) masks.new) }
    ensures no_loose { OnErr result (AreTakenBack loose.old (loose_ranks term.now rank) loose.new) }
{
    match first_asked(term.as_term()) {
        Term::Suffix(set) => file_names(names, set, rank),
        Term::Masks(group) => file_masks(masks, group.as_slice(), rank),
        _ => loose.file(rank),
    }
}
