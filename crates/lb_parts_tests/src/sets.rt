//! Sets of names: lists of them, copies, and lack of memory, by values worked out by hand.

use super::rows::held;
use lb_name::Name;
use lb_terms::Names;
use std::test::Fail;

/// Whether a list has a name at a place, and none after it.
fn ends_at(names: &Names, place: usize, name: &Name) -> bool {
    names.len() > place
        && names.get(names.len()).is_none()
        && names.get(place).is_some_and(|last| last.equals(name))
}

/// Whether a name comes to its place after the others. Where it is refused memory, they have to be
/// what they were, and it comes again.
fn is_put(names: &mut Names, name: &Name) -> bool {
    let place = names.len();
    let is_taken = names.push(name).is_ok()
        || (names.len() == place && names.get(place).is_none() && names.push(name).is_ok());
    is_taken && ends_at(names, place, name)
}

/// Names of several lengths: the least, one in both cases, and one of the longest labels.
const PUT: &[&str] = &[
    ".",
    "example.com",
    "EXAMPLE.com",
    "a23456789b123456789c123456789d123456789e123456789f123456789g123.example.org",
    "example.org",
];

/// With `rt try --test --fail-alloc N` a name is refused, and comes again. A copy of the list is
/// equal to it.
#[test]
fn a_refused_name_leaves_the_others(rt: HostRuntime) -> Result<(), Fail> {
    let mut names = Names::new(rt.alloc());
    for (row, text) in PUT.iter().enumerate() {
        let name = Name::parse_text(text)?;
        held(row, is_put(&mut names, &name) && names.covers(&name))?;
    }
    let copy = names.copy(rt.alloc())?;
    held(PUT.len(), names.len() == PUT.len() && copy.equals(&names))
}
