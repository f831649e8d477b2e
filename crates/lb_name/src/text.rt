//! Names as text: labels of letters, digits, `-`, `_` and `*`, joined by dots (RFC 1035 sections 2.3.1 and 5.1).

ghost use Rattle.std.specs.Prelude.{◌≡◌, ◌+◌, ◌<◌, ◌≤◌, true, List, [], ◌∷◌, ◌++◌, length, position, MatchOption};
ghost use Rattle.std.specs.List.{list_all};
ghost use Rattle.arrayvec.specs.ArrayVec.{array_vec_len};
ghost use Rattle.arrayvec.specs.ArrayString.{array_string_len};
ghost use Rattle.lb_name.specs.Name.{wire_of, label_octets};
ghost use Rattle.lb_name.specs.Text.{is_name_byte, is_dot, cut_at_dots, pieces_left, is_dot_alone, without_end_dot, label_fault, first_fault, label_text};

use crate::fault::NameFault;
use crate::name::MAX_NAME;
use arrayvec::{ArrayString, ArrayVec};

/// What ends a label of a text.
const DOT: u8 = b'.';

/// The most octets of a label (RFC 1035 section 2.3.4).
const MAX_LABEL: usize = 63;

/// Whether the byte may stand in a label of a text.
fn is_name_byte(byte: u8) -> bool
    ensures { result ≡ is_name_byte byte }
{
    byte.is_ascii_alphanumeric() || byte == b'-' || byte == b'_' || byte == b'*'
}

/// Whether each octet of the label may stand in a text.
pub(crate) fn has_name_bytes(label: &[u8]) -> bool
    ensures { result ≡ list_all is_name_byte label.now }
{
    label.iter().all(|byte| is_name_byte(*byte))
}

/// What is wrong with a label of a text.
fn label_fault(label: &[u8]) -> Option<NameFault>
    ensures { result ≡ label_fault label.now }
{
    if label.is_empty() {
        return Some(NameFault::EmptyLabel);
    }
    if label.len() > MAX_LABEL {
        return Some(NameFault::LongLabel);
    }
    if !has_name_bytes(label) {
        return Some(NameFault::BadByte);
    }
    None
}

/// Whether the text is a dot and nothing else, the root.
pub(crate) fn is_dot_alone(text: &[u8]) -> bool
    ensures { result ≡ is_dot_alone text.now }
{
    text.len() == 1 && text[0] == DOT
}

/// The text without the dot that may end it.
pub(crate) fn without_end_dot(text: &[u8]) -> &[u8]
    ensures { result.now ≡ without_end_dot text.now }
{
    match text.split_last() {
        Some((&last, front)) if last == DOT => front,
        _ => text,
    }
}

/// Where the first dot of the text stands.
fn first_dot(text: &[u8]) -> Option<usize>
    ensures { result ≡ position is_dot text.now }
{
    text.iter().position(|byte| *byte == DOT)
}

/// The text up to its first dot, and what stands after that dot, where there is one.
fn first_piece(text: &[u8]) -> (&[u8], Option<&[u8]>)
    ensures pieces { cut_at_dots text.now ≡ result.0.now ∷ pieces_left result.1 }
    ensures whole { MatchOption result.1 (text.now ≡ result.0.now) (λ rest. text.now ≡ result.0.now ++ 46 ∷ rest.now) }
{
    match first_dot(text) {
        None => (text, None),
        Some(place) => {
            let (piece, rest) = text.split_at(place);
            let (_, rest) = rest.split_at(1);
            (piece, Some(rest))
        }
    }
}

/// The fault of the first label that has one.
pub(crate) fn text_fault(text: &[u8]) -> Option<NameFault>
    ensures { result ≡ first_fault (cut_at_dots text.now) }
{
    let mut left = Some(text);
    'labels: while let Some(text) = left {
        let (label, rest) = first_piece(text);
        if let Some(fault) = label_fault(label) {
            return Some(fault);
        }
        left = rest;
    }
    None
}

/// Appends a label as it stands on the wire.
fn push_label(wire: &mut ArrayVec<u8, MAX_NAME>, label: &[u8])
    requires short { length label.now < 64 }
    requires room { array_vec_len wire.old + 1 + length label.now ≤ 255 }
    ensures { wire.new.items ≡ wire.old.items ++ label_octets label.now }
{
    wire.push(label.len() as u8);
    match wire.try_extend_from_slice(label) {
        Ok(()) => (),
        Err(_) => unreachable!(),
    }
}

/// The labels of a text on the wire, and the root after them.
pub(crate) fn text_wire(text: &[u8]) -> ArrayVec<u8, MAX_NAME>
    requires labels { first_fault (cut_at_dots text.now) ≡ None }
    requires fits { length (wire_of (cut_at_dots text.now)) ≤ 255 }
    ensures { result.items ≡ wire_of (cut_at_dots text.now) }
{
    let mut wire: ArrayVec<u8, MAX_NAME> = ArrayVec::new();
    let mut left = Some(text);
    'labels: while let Some(text) = left {
        let (label, rest) = first_piece(text);
        push_label(&mut wire, label);
        left = rest;
    }
    wire.push(0);
    wire
}

/// Appends a label to a text, and the dot that ends it.
pub(crate) fn push_text(text: &mut ArrayString<255>, label: &[u8])
    requires bytes { list_all is_name_byte label.now ≡ true }
    requires room { array_string_len text.old + length label.now + 1 ≤ 255 }
    ensures { text.new.bytes ≡ text.old.bytes ++ label_text label.now }
{
    // name bytes are ASCII, so the label is text
    match str::from_utf8(label) {
        Ok(label) => {
            text.push_str(label);
            text.push_str(".");
        }
        Err(_) => unreachable!(),
    }
}
