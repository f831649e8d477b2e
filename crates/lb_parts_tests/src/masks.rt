//! Netmasks: what no line of a replay says of them, by values worked out by hand. rows/ has what
//! lines say.

use super::rows::held;
use lb_masks::{Group, Mask, MaskFault};
use lb_wire::Addr;
use std::alloc::{AllocError, Global};
use std::test::Fail;

/// Texts that are no masks, with what is wrong with them and its number. An address is read before
/// a length.
const FAULTS: &[(&str, MaskFault, u8)] = &[
    ("", MaskFault::BadAddress, 1),
    ("1.2.3.4 ", MaskFault::BadAddress, 1),
    ("1.2.3.256/99", MaskFault::BadAddress, 1),
    ("10.0.0.0/8 ", MaskFault::BadLength, 2),
    ("10.0.0.0/33", MaskFault::BadLength, 2),
    ("::/129", MaskFault::BadLength, 2),
];

/// Whether this is wrong with a text, and has this number.
fn is_fault(text: &str, fault: MaskFault, number: u8) -> bool {
    Mask::parse(text) == Err(fault) && fault.number() == number
}

#[test]
fn texts_that_are_no_masks() -> Result<(), Fail> {
    for (row, (text, fault, number)) in FAULTS.iter().enumerate() {
        held(row, is_fault(text, *fault, *number))?;
    }
    Ok(())
}

/// The network and the length of a mask that was written with more bits.
#[test]
fn parts_of_a_mask() -> Result<(), Fail> {
    let mask = Mask::parse("192.0.2.255/25")?;
    let network = Addr::V4([192, 0, 2, 128]);
    held(0, mask.network() == network && mask.length() == 25)?;
    held(1, Mask::new(network, 25) == Some(mask))?;
    held(2, Mask::new(Addr::V6([0xff; 16]), 129).is_none())
}

/// The masks of a group.
const NETS: &[&str] = &["10.0.0.0/8", "192.0.2.1"];

/// The group of these masks.
fn group_of(alloc: Global, texts: &[&str]) -> Result<Group, Fail> {
    let mut masks = Vec::new(alloc);
    for text in texts {
        masks.push(Mask::parse(text)?)?;
    }
    Ok(Group::from_vec(masks))
}

/// Whether a copy of a group is equal to it, and has so many masks.
fn is_copied(alloc: Global, group: &Group, count: usize) -> Result<bool, AllocError> {
    let copy = group.copy(alloc)?;
    Ok(copy.equals(group) && copy.len() == count && copy.as_slice().len() == count)
}

#[test]
fn copies_of_groups(rt: HostRuntime) -> Result<(), Fail> {
    for (row, nets) in [NETS, &[]].iter().enumerate() {
        let group = group_of(rt.alloc(), nets)?;
        held(row, is_copied(rt.alloc(), &group, nets.len())?)?;
    }
    Ok(())
}
