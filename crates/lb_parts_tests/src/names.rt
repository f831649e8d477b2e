//! Names: what no line of a replay says of them, by texts and octets worked out by hand from RFC
//! 1035 sections 2.3 and 3.1. rows/ has what lines say.

use super::rows::held;
use lb_name::{Name, NameFault};
use std::test::Fail;

const LABEL_64: &str = "aaaaaaaaaaaaaaaaaaaaaaaaaaaaaaaaaaaaaaaaaaaaaaaaaaaaaaaaaaaaaaaa";

/// 256 octets on the wire: three labels of 63, and one of 62.
const NAME_256: &str =
    "aaaaaaaaaaaaaaaaaaaaaaaaaaaaaaaaaaaaaaaaaaaaaaaaaaaaaaaaaaaaaaa.aaaaaaaaaaaaaaaaaaaaaaaaaaaaaaaaaaaaaaaaaaaaaaaaaaaaaaaaaaaaaaa.aaaaaaaaaaaaaaaaaaaaaaaaaaaaaaaaaaaaaaaaaaaaaaaaaaaaaaaaaaaaaaa.aaaaaaaaaaaaaaaaaaaaaaaaaaaaaaaaaaaaaaaaaaaaaaaaaaaaaaaaaaaaaa";

/// The same with a label after it that is none.
const NAME_256_BAD: &str =
    "aaaaaaaaaaaaaaaaaaaaaaaaaaaaaaaaaaaaaaaaaaaaaaaaaaaaaaaaaaaaaaa.aaaaaaaaaaaaaaaaaaaaaaaaaaaaaaaaaaaaaaaaaaaaaaaaaaaaaaaaaaaaaaa.aaaaaaaaaaaaaaaaaaaaaaaaaaaaaaaaaaaaaaaaaaaaaaaaaaaaaaaaaaaaaaa.aaaaaaaaaaaaaaaaaaaaaaaaaaaaaaaaaaaaaaaaaaaaaaaaaaaaaaaaaaaaaa.!";

/// Texts that are no names, with what is wrong with them and its number.
const FAULTS: &[(&str, NameFault, u8)] = &[
    ("", NameFault::EmptyLabel, 1),
    ("a..b", NameFault::EmptyLabel, 1),
    (LABEL_64, NameFault::LongLabel, 2),
    (NAME_256, NameFault::LongName, 3),
    ("a b", NameFault::BadByte, 4),
    ("caf\u{e9}.fr", NameFault::BadByte, 4),
    // a label's fault comes before the length of the name
    (NAME_256_BAD, NameFault::BadByte, 4),
];

#[test]
fn texts_and_their_faults() -> Result<(), Fail> {
    for (row, (text, fault, number)) in FAULTS.iter().enumerate() {
        let found = Name::parse_text(text).err();
        held(row, found == Some(*fault) && fault.number() == *number)?;
    }
    Ok(())
}

const WWW: &[u8] = b"\x03www\x07example\x03com\x00";

/// 256 octets.
const WIRE_256: &[u8] =
    b"\x3faaaaaaaaaaaaaaaaaaaaaaaaaaaaaaaaaaaaaaaaaaaaaaaaaaaaaaaaaaaaaaa\x3faaaaaaaaaaaaaaaaaaaaaaaaaaaaaaaaaaaaaaaaaaaaaaaaaaaaaaaaaaaaaaa\x3faaaaaaaaaaaaaaaaaaaaaaaaaaaaaaaaaaaaaaaaaaaaaaaaaaaaaaaaaaaaaaa\x3eaaaaaaaaaaaaaaaaaaaaaaaaaaaaaaaaaaaaaaaaaaaaaaaaaaaaaaaaaaaaaa\x00";

/// Octets, the place where a name is looked for, and where it ends.
const PLACES: &[(&[u8], usize, Result<usize, NameFault>)] = &[
    (WWW, 0, Ok(17)),
    (WWW, 4, Ok(17)),
    (WWW, 16, Ok(17)),
    (WWW, 17, Err(NameFault::Cut)),
    (WWW, 18, Err(NameFault::Cut)),
    (b"\xc0\x0c", 0, Err(NameFault::Pointer)),
    (b"\x01a", 0, Err(NameFault::Cut)),
    (b"\x40", 0, Err(NameFault::LongLabel)),
    (b"\x03www\xc0\x0c", 0, Err(NameFault::Pointer)),
    (WIRE_256, 0, Err(NameFault::LongName)),
];

/// Whether the name that is read, and the one that is passed, ends there.
fn ends(octets: &[u8], at: usize, end: Result<usize, NameFault>) -> bool {
    let read = match Name::read(octets, at) {
        Ok((_, end)) => Ok(end),
        Err(fault) => Err(fault),
    };
    read == end && Name::skip(octets, at) == end
}

#[test]
fn names_in_octets() -> Result<(), Fail> {
    for (row, (octets, at, end)) in PLACES.iter().enumerate() {
        held(row, ends(octets, *at, *end))?;
    }
    held(
        PLACES.len(),
        NameFault::Pointer.number() == 5 && NameFault::Cut.number() == 6,
    )
}

/// Equal names have one spelling; a copy is equal.
#[test]
fn equal_names() -> Result<(), Fail> {
    let name = Name::parse_text("example.COM")?;
    let other = Name::parse_text("EXAMPLE.com.")?;
    held(0, name.copy().equals(&name))?;
    held(1, name.same(&other) && !name.equals(&other))
}

/// The labels of www.Example.com, from the root.
const LABELS: &[(usize, Option<&[u8]>)] = &[
    (0, Some(b"com")),
    (1, Some(b"Example")),
    (2, Some(b"www")),
    (3, None),
];

#[test]
fn labels_from_the_root() -> Result<(), Fail> {
    let name = Name::parse_text("www.Example.com")?;
    for (row, (place, label)) in LABELS.iter().enumerate() {
        held(row, name.label_from_root(*place) == *label)?;
    }
    Ok(())
}

/// Names on the wire, and as text; none where a label has another byte, as a dot.
const TEXTS: &[(&[u8], Option<&str>)] = &[
    (b"\x03www\x07Example\x03com\x00", Some("www.Example.com.")),
    (b"\x00", Some(".")),
    (b"\x03a.b\x00", None),
];

/// Whether this is written of a name.
fn is_written(wire: &[u8], text: Option<&str>) -> bool {
    let Ok((name, _)) = Name::read(wire, 0) else {
        return false;
    };
    match (name.write_text(), text) {
        (Some(written), Some(text)) => written.as_str() == text,
        (None, None) => true,
        _ => false,
    }
}

#[test]
fn text_of_a_name() -> Result<(), Fail> {
    for (row, (wire, text)) in TEXTS.iter().enumerate() {
        held(row, is_written(wire, *text))?;
    }
    Ok(())
}
