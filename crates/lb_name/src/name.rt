//! A domain name.

ghost use Rattle.std.specs.Prelude.{◌≡◌, ℕ, ◌+◌, ◌<◌, ◌≤◌, ◌↔◌, List, ◌++◌, length, take, drop, map, reverse, slice_get, IsTrue, IfOk, IfErr, OnErr, option_map, if◌then◌else◌};
ghost use Rattle.std.specs.Char.{to_ascii_lowercase};
ghost use Rattle.lb_name.specs.Name.{wire_of, IsName, lower_name, IsSame, IsUnder};
ghost use Rattle.lb_name.specs.Reading.{Begins, Faults};
ghost use Rattle.lb_name.specs.Text.{name_of_text, has_name_bytes, text_of};

use crate::fault::NameFault;
use crate::kept::KeptName;
use crate::labels::{first_label, is_wire_under, label_at, label_count};
use crate::text::{
    has_name_bytes, is_dot_alone, push_text, text_fault, text_wire, without_end_dot,
};
use arrayvec::{ArrayString, ArrayVec};
use std::marker::Model;

/// The most octets of a name on the wire, its length octets and zero octet counted (RFC 1035 section 2.3.4).
pub const MAX_NAME: usize = 255;

/// The most bytes of a text of labels with no dot at its end: on the wire a length octet stands in the place of each
/// dot, one more before the first label, and a zero octet after the last.
const MAX_TEXT: usize = MAX_NAME - 2;

/// The first length octet that is none: a label has at most 63 octets (RFC 1035 section 2.3.4).
pub const LABEL_END: u8 = 64;

/// The first octet of a compression pointer: its top two bits are set (RFC 1035 section 4.1.4).
pub const POINTER: u8 = 192;

/// A domain name: its labels as they were spelled, at most 255 octets on the wire. A contract sees it as the list of
/// its labels.
#[derive(Debug, Drop)]
pub struct Name {
    pub(crate) wire: ArrayVec<u8, MAX_NAME>,
}

impl Model for Name {
    ghost use Rattle.std.specs.Prelude.{List, ℕ};
    ghost use Rattle.lb_name.specs.Name.{labels_of, IsWire};

    ghost Value = { List (List ℕ) };

    ghost view = { λ n. labels_of n.wire.items };

    ghost invariant = { λ n. IsWire n.wire.items };
}

/// How many octets the name at the front takes.
fn name_len(octets: &[u8]) -> Result<usize, NameFault>
    ensures found { IfOk result (λ len. (labels : List (List ℕ)) × IsName labels × (len ≤ length octets.now) × (take len octets.now ≡ wire_of labels)) }
    ensures fault { IfErr result (Faults octets.now) }
{
    let mut len = 0usize;
    loop {
        let Some(&octet) = octets.get(len) else {
            return Err(NameFault::Cut);
        };
        if octet == 0 {
            return Ok(len + 1);
        }
        if octet >= POINTER {
            return Err(NameFault::Pointer);
        }
        if octet >= LABEL_END {
            return Err(NameFault::LongLabel);
        }
        let next = len + 1 + usize::from(octet);
        if octets.len() < next {
            return Err(NameFault::Cut);
        }
        if next + 1 > MAX_NAME {
            return Err(NameFault::LongName);
        }
        len = next;
    }
}

/// The octets, of which a name has no more than its wire.
pub(crate) fn copied(octets: &[u8]) -> ArrayVec<u8, MAX_NAME>
    requires { length octets.now ≤ 255 }
    ensures { result.items ≡ octets.now }
{
    let mut wire: ArrayVec<u8, MAX_NAME> = ArrayVec::new();
    match wire.try_extend_from_slice(octets) {
        Ok(()) => wire,
        Err(_) => unreachable!(),
    }
}

impl Name {
    /// Reads the name that stands at a place of a message, and gives the place after it (RFC 1035 section 3.1). A
    /// compression pointer is a fault. It is total: a place past the end is `Cut`.
    pub fn read(octets: &[u8], at: usize) -> Result<(Name, usize), NameFault>
        // what is read stands there
        ensures found { IfOk result (λ read. (rest : List ℕ) × Begins (drop at octets.now) read.0 rest × (read.1 ≡ at + length (wire_of read.0))) }
        ensures within { IfOk result (λ read. read.1 ≤ length octets.now) }
        // what stands there is read
        ensures only { (labels : List (List ℕ)) (rest : List ℕ) → Begins (drop at octets.now) labels rest → IfOk result (λ read. read.0 ≡ labels) × IfErr result (λ _. ⊥) }
        // the fault is the first that applies
        ensures fault { IfErr result (Faults (drop at octets.now)) }
    {
        if octets.len() < at {
            return Err(NameFault::Cut);
        }
        let (_, there) = octets.split_at(at);
        let len = name_len(there)?;
        let (octets, _) = there.split_at(len);
        Ok((
            Name {
                wire: copied(octets),
            },
            at + len,
        ))
    }

    /// The place after the name that stands at a place of a message: what `read` gives, where the name itself is not
    /// wanted.
    pub fn skip(octets: &[u8], at: usize) -> Result<usize, NameFault>
        // what is passed stands there
        ensures found { IfOk result (λ end. (labels : List (List ℕ)) × (rest : List ℕ) × Begins (drop at octets.now) labels rest × (end ≡ at + length (wire_of labels))) }
        ensures within { IfOk result (λ end. end ≤ length octets.now) }
        // what stands there is passed
        ensures only { (labels : List (List ℕ)) (rest : List ℕ) → Begins (drop at octets.now) labels rest → IfOk result (λ end. end ≡ at + length (wire_of labels)) × IfErr result (λ _. ⊥) }
        // the fault is the first that applies
        ensures fault { IfErr result (Faults (drop at octets.now)) }
    {
        if octets.len() < at {
            return Err(NameFault::Cut);
        }
        let (_, there) = octets.split_at(at);
        let len = name_len(there)?;
        Ok(at + len)
    }

    /// The name that these octets are on the wire, where they are one. It takes no memory.
    #[inline(always)]
    pub fn of_wire(wire: &[u8]) -> Name
        requires { (labels : List (List ℕ)) × IsName labels × (wire.now ≡ wire_of labels) }
        ensures { (labels : List (List ℕ)) → IsName labels → wire.now ≡ wire_of labels → result ≡ labels }
    {
        Name { wire: copied(wire) }
    }

    /// Reads a text: labels of letters, digits, `-`, `_` and `*`, joined by dots (RFC 1035 section 2.3.1). One dot may
    /// end the last label, and `.` is the root (section 5.1). The fault is that of the first label that has one, and
    /// else `LongName` where the name has over 255 octets on the wire. It takes no memory.
    pub fn parse_text(text: &str) -> Result<Name, NameFault>
        ensures { result ≡ name_of_text text.now }
    {
        let text = text.as_bytes();
        if is_dot_alone(text) {
            return Ok(Name { wire: copied(&[0]) });
        }
        let text = without_end_dot(text);
        if let Some(fault) = text_fault(text) {
            return Err(fault);
        }
        if text.len() > MAX_TEXT {
            return Err(NameFault::LongName);
        }
        Ok(Name {
            wire: text_wire(text),
        })
    }

    /// The text of the name: a dot ends each label, and the root is `.` (RFC 1035 section 5.1); none where an octet is
    /// none of those that `parse_text` takes. It takes no memory.
    pub fn write_text(&self) -> Option<ArrayString<255>>
        ensures { option_map (λ text. text.bytes) result ≡ (if has_name_bytes self.now then Some (text_of self.now) else None) }
    {
        let mut wire = self.wire.as_slice();
        let mut text: ArrayString<255> = ArrayString::new();
        'labels: while let Some((label, rest)) = first_label(wire) {
            if !has_name_bytes(label) {
                return None;
            }
            push_text(&mut text, label);
            wire = rest;
        }
        if text.is_empty() {
            text.push_str(".");
        }
        Some(text)
    }

    /// The octets of the name on the wire.
    pub fn as_wire(&self) -> &[u8]
        ensures { result.now ≡ wire_of self.now }
    {
        self.wire.as_slice()
    }

    /// An equal name. It takes no memory.
    pub fn copy(&self) -> Name
        ensures { result ≡ self.now }
    {
        Name {
            wire: copied(self.wire.as_slice()),
        }
    }

    /// Whether the names are equal octet by octet, in the same case.
    pub fn equals(&self, other: &Name) -> bool
        ensures equal { IsTrue result → self.now ≡ other.now }
        ensures found { self.now ≡ other.now → IsTrue result }
    {
        let (ours, others) = (self.wire.as_slice(), other.wire.as_slice());
        ours == others
    }

    /// The name in lower case: ASCII letters alone change (RFC 1035 section 2.3.3).
    pub fn lower(&self) -> Name
        ensures { result ≡ lower_name self.now }
    {
        // a length octet is below 64, and `A` is 65: the whole wire can be lowered
        let mut wire = copied(self.wire.as_slice());
        wire.as_mut_slice().make_ascii_lowercase();
        Name { wire }
    }

    /// Whether the names are equal without regard to the case of ASCII letters (RFC 1035 section 2.3.3).
    pub fn same(&self, other: &Name) -> bool
        ensures { IsTrue result ↔ IsSame self.now other.now }
    {
        let (ours, others) = (self.wire.as_slice(), other.wire.as_slice());
        ours.eq_ignore_ascii_case(others)
    }

    /// Whether the name is the other or stands below it, without regard to case (RFC 1034 section 3.1). It compares
    /// whole labels: `badexample.com` does not stand below `example.com`.
    pub fn is_under(&self, other: &Name) -> bool
        ensures { IsTrue result ↔ IsUnder self.now other.now }
    {
        is_wire_under(self.wire.as_slice(), other.wire.as_slice())
    }

    /// Whether the name is the kept one or stands below it: as `is_under` says of the same names. It copies neither.
    pub fn is_under_kept(&self, suffix: &KeptName) -> bool
        ensures { IsTrue result ↔ IsUnder self.now suffix.now }
    {
        is_wire_under(self.wire.as_slice(), suffix.wire.as_slice())
    }

    /// The label at a place counted from the root, the last label at 0, or none where the name has fewer.
    pub fn label_from_root(&self, k: usize) -> Option<&[u8]>
        ensures { option_map (λ label. label.now) result ≡ slice_get (reverse self.now) k }
    {
        let wire = self.wire.as_slice();
        let count = label_count(wire);
        if count <= k {
            return None;
        }
        label_at(wire, count - 1 - k)
    }
}
