//! The indexes of netmasks and of suffixes, over pairs of a few masks and names with their ranks.

use super::rows::held;
use lb_masks::{Mask, MaskIndex};
use lb_name::Name;
use lb_suffix::SuffixIndex;
use lb_wire::Addr;
use std::alloc::Global;
use std::test::Fail;

/// Masks, each with the rank that is filed under it.
const MASKS: &[(&str, u64)] = &[("10.0.0.0/8", 5), ("10.1.0.0/16", 3)];

/// Addresses, the rank from which on one is looked for, and the least one that covers the address.
const COVERED: &[([u8; 4], u64, Option<u64>)] = &[
    ([10, 1, 2, 3], 0, Some(3)),
    ([10, 1, 2, 3], 4, Some(5)),
    ([10, 1, 2, 3], 6, None),
    ([10, 2, 0, 1], 0, Some(5)),
    ([11, 0, 0, 1], 0, None),
];

fn mask_index(alloc: Global) -> Result<MaskIndex, Fail> {
    let mut index = MaskIndex::new(alloc);
    for (text, rank) in MASKS {
        let mask = Mask::parse(text).ok().ok_or("no mask")?;
        index.file(&mask, *rank)?;
    }
    Ok(index)
}

fn covering(index: &MaskIndex, addr: [u8; 4], from: u64) -> Option<u64> {
    index.next(&Addr::V4(addr), from)
}

#[test]
fn masks_over_addresses(rt: HostRuntime) -> Result<(), Fail> {
    let index = mask_index(rt.alloc())?;
    for (row, (addr, from, wanted)) in COVERED.iter().enumerate() {
        held(row, covering(&index, *addr, *from) == *wanted)?;
    }
    Ok(())
}

/// Names, each with the rank that is filed under it: a name and one above it, and two others that
/// come and go.
const SUFFIXES: &[(&str, u64)] = &[("example.com", 7), ("com", 2)];

/// Names, the rank from which on one is looked for, and the least one filed at the name or above
/// it.
const ABOVE: &[(&str, u64, Option<u64>)] = &[
    ("a.example.com", 0, Some(2)),
    ("a.example.com", 3, Some(7)),
    ("A.EXAMPLE.COM", 3, Some(7)),
    ("a.example.com", 8, None),
    ("badexample.com", 3, None),
    ("org", 0, None),
];

fn name(text: &str) -> Result<Name, Fail> {
    Ok(Name::parse_text(text).ok().ok_or("no name")?)
}

fn suffix_index(alloc: Global, suffixes: &[(&str, u64)]) -> Result<SuffixIndex, Fail> {
    let mut index = SuffixIndex::new(alloc);
    for (text, rank) in suffixes {
        index.file(&name(text)?, *rank)?;
    }
    Ok(index)
}

fn above(index: &SuffixIndex, name: &Name, from: u64) -> Option<u64> {
    index.next(name, from)
}

#[test]
fn suffixes_above_names(rt: HostRuntime) -> Result<(), Fail> {
    let index = suffix_index(rt.alloc(), SUFFIXES)?;
    for (row, (text, from, wanted)) in ABOVE.iter().enumerate() {
        held(row, above(&index, &name(text)?, *from) == *wanted)?;
    }
    Ok(())
}

/// The sum of the ranks at a name and below it, and how many there are, of three at most.
fn under(index: &SuffixIndex, name: &Name) -> (u64, usize) {
    let mut walk = index.under(name);
    let mut sum = 0u64;
    let mut count = 0usize;
    for _ in 0..3 {
        if let Some(rank) = walk.next() {
            sum = sum.saturating_add(rank);
            count = count.saturating_add(1);
        }
    }
    (sum, count)
}

/// What stands at a name and below it is walked once each, and what is unfiled is found no more.
#[test]
fn suffixes_below_a_name(rt: HostRuntime) -> Result<(), Fail> {
    let mut index = suffix_index(rt.alloc(), &[("com", 2), ("a.com", 5)])?;
    held(0, under(&index, &name("com")?) == (7, 2))?;
    held(1, under(&index, &name("a.com")?) == (5, 1))?;
    held(2, under(&index, &name("b.com")?) == (0, 0))?;
    index.unfile(&name("com")?, 2);
    held(3, above(&index, &name("a.com")?, 0) == Some(5))?;
    held(4, under(&index, &name("com")?) == (5, 1))
}
