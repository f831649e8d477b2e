//! Blocks of octets that are used again.

use lb_loops_io::Rooms;
use lb_wire::MAX_MESSAGE;
use std::process::Abort;
use std::test::Fail;

/// With ample memory octets are copied: into a block of their own, and into one that was kept,
/// which had more, fewer or none.
#[test]
fn octets_are_copied(rt: HostRuntime) -> Result<(), Fail> {
    let mut rooms = Rooms::new(rt.alloc());
    expect_copy(&rt, &mut rooms, b"\x01\x02\x03\x04\x05\x06")?;
    expect_copy(&rt, &mut rooms, b"\x07\x08")?;
    expect_copy(&rt, &mut rooms, b"")?;
    expect_copy(&rt, &mut rooms, b"\x09\x0a\x0b\x0c\x0d\x0e\x0f\x10\x11\x12")
}

/// These octets are copied, and the block of the copy is kept.
fn expect_copy<T: Abort>(rt: &T, rooms: &mut Rooms, octets: &[u8]) -> Result<(), Fail> {
    let copy = rooms.copied(&octets[..octets.len().min(MAX_MESSAGE)])?;
    assert!(rt; copy.as_slice() == octets, "{octets:?}");
    rooms.keep(copy);
    Ok(())
}
