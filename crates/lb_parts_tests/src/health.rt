//! Probes and their answers, by values worked out by hand from RFC 1035 section 4.1; and a copy.

use super::rows::held;
use Changed::{Down, No};
use lb_health::{Changed, Health, judge, probe};
use std::num::NonZeroU8;
use std::test::Fail;

/// The probe with the ID 0x1234.
const PROBE: &[u8] =
    b"\x12\x34\x01\x00\x00\x01\x00\x00\x00\x00\x00\x00\x01a\x0croot-servers\x03net\x00\x00\x01\x00\x01";

/// The probe with QR, RD and RA 1, and NoError, ServFail and NXDomain.
const GOOD: &[u8] =
    b"\x12\x34\x81\x80\x00\x01\x00\x00\x00\x00\x00\x00\x01a\x0croot-servers\x03net\x00\x00\x01\x00\x01";

const FAILED: &[u8] =
    b"\x12\x34\x81\x82\x00\x01\x00\x00\x00\x00\x00\x00\x01a\x0croot-servers\x03net\x00\x00\x01\x00\x01";

const UNKNOWN: &[u8] =
    b"\x12\x34\x81\x83\x00\x01\x00\x00\x00\x00\x00\x00\x01a\x0croot-servers\x03net\x00\x00\x01\x00\x01";

/// Refused, without a question; and an octet short of a header.
const REFUSED: &[u8] = b"\x12\x34\x81\x85\x00\x00\x00\x00\x00\x00\x00\x00";

const SHORT: &[u8] = b"\x12\x34\x81\x85\x00\x00\x00\x00\x00\x00\x00";

#[test]
fn octets_of_a_probe() -> Result<(), Fail> {
    held(0, probe(0x1234).as_slice() == PROBE && PROBE.len() == 36)
}

/// Octets, the ID of the probe, and whether they are a good answer to it; and whether they are
/// where names have to be resolved.
const ANSWERS: &[(&[u8], u16, bool, bool)] = &[
    (GOOD, 0x1234, true, true),
    (FAILED, 0x1234, false, false),
    (UNKNOWN, 0x1234, true, false),
    (GOOD, 0x1235, false, false),
    (FAILED, 0x1235, false, false),
    (UNKNOWN, 0x1235, false, false),
    (PROBE, 0x1234, false, false),
    (REFUSED, 0x1234, true, false),
    (SHORT, 0x1234, false, false),
];

/// Whether octets are a good answer to the probe with an ID.
fn is_good(octets: &[u8], id: u16, must_resolve: bool) -> bool {
    judge(octets, id, must_resolve)
}

#[test]
fn answers_to_a_probe() -> Result<(), Fail> {
    for (row, (octets, id, good, resolved)) in ANSWERS.iter().enumerate() {
        held(row, is_good(octets, *id, false) == *good)?;
        held(row, is_good(octets, *id, true) == *resolved)?;
    }
    Ok(())
}

#[test]
fn a_copy_goes_on_by_itself() -> Result<(), Fail> {
    let two = NonZeroU8::new(2).ok_or("no such number")?;
    let mut health = Health::new(two, two);
    held(0, health.result(false) == No)?;
    let mut copy = health.copy();
    held(1, copy.result(false) == Down && !copy.is_up())?;
    held(2, health.is_up() && health.result(false) == Down)
}
