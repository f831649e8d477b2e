//! The key of a name.

ghost use Rattle.std.specs.Prelude.{◌≡◌, ◌++◌, ◌+◌, ◌-◌, ◌≤◌, List, [], ◌∷◌, length, drop, map, take, IfSome};
ghost use Rattle.std.specs.Char.{to_ascii_lowercase};
ghost use Rattle.std.specs.Option.{IfNone};
ghost use Rattle.lb_name.specs.Laws.{LabelsGoOn, SplitsBack};
ghost use Rattle.lb_name.specs.Name.{labels_of, lower_name, IsName, IsWire};
ghost use Rattle.lb_suffix.specs.Key.{end_of, key_of as key_of_name, reversed_octets, FirstOctets};

use lb_name::{LABEL_END, MAX_NAME, Name, labels_go_on, lowers_on_wire, splits_back};
use std::marker::Model;

/// How many octets a key has room for: those of a name, and the octet that stands after every label's length.
const ROOM: usize = MAX_NAME + 1;

/// The key of a name, in the room of a name. A contract sees it as the list of its octets.
#[derive(Debug, Drop)]
pub struct NameKey {
    octets: [u8; ROOM],
    start: usize,
}

impl Model for NameKey {
    ghost use Rattle.std.specs.Prelude.{List, ℕ, ◌-◌, ◌≤◌, ◌≡◌, drop, take};
    ghost use Rattle.lb_suffix.specs.Key.{end_of};

    ghost Value = { List ℕ };

    ghost view = { λ k. take (255 - k.start) (drop k.start k.octets) };

    ghost invariant = { λ k. (k.start ≤ 255) × (drop k.start k.octets ≡ end_of (take (255 - k.start) (drop k.start k.octets))) };
}

impl NameKey {
    /// The octets.
    pub fn as_slice(&self) -> &[u8]
        ensures octets { result.now ≡ self.now }
        ensures short { length result.now ≤ 255 }
    {
        let (key, _) = self.as_end().split_at(MAX_NAME - self.start);
        key
    }

    /// The octets of the first key that stands after all those that begin with this one.
    pub fn as_end(&self) -> &[u8]
        ensures { result.now ≡ end_of self.now }
    {
        let (_, end) = self.octets.split_at(self.start);
        end
    }
}

/// The first label of a name on the wire with its length, and the name after it; none of the root.
fn first_octets(wire: &[u8]) -> Option<(&[u8], &[u8])>
    requires { IsWire wire.now }
    ensures none { IfNone result (labels_of wire.now ≡ []) }
    ensures first { IfSome result (λ cut. FirstOctets wire.now cut.0.now cut.1.now) }
{
    // A law, which does nothing.
    splits_back();
    let Some(&len) = wire.first() else {
        return None;
    };
    if len == 0 {
        return None;
    }
    Some(wire.split_at(usize::from(len) + 1))
}

/// Puts these octets in front of a place.
fn put_before(octets: &mut [u8], place: usize, piece: &[u8])
    requires within { place ≤ length octets.old }
    requires room { length piece.now ≤ place }
    ensures octets { drop (place - length piece.now) octets.new ≡ piece.now ++ drop place octets.old }
    ensures len { length octets.new ≡ length octets.old }
{
    octets[place - piece.len()..place].copy_from_slice(piece);
}

/// Puts the labels of a name on the wire, from the root and each after its length, in front of a place, and gives the place
/// where they begin.
fn put_reversed(room: &mut [u8], end: usize, wire: &[u8]) -> usize
    requires name { IsWire wire.now }
    requires within { end ≤ length room.old }
    requires room { length wire.now ≤ end + 1 }
    ensures octets { drop result room.new ≡ reversed_octets (labels_of wire.now) ++ drop end room.old }
    ensures start { result ≤ end }
    ensures len { length room.new ≡ length room.old }
{
    let mut start = end;
    let mut wire = wire;
    'labels: while let Some((label, rest)) = first_octets(wire) {
        put_before(room, start, label);
        start -= label.len();
        wire = rest;
    }
    start
}

/// Lowers the octets from a place up to another.
fn lower_in_place(octets: &mut [u8], start: usize, end: usize)
    requires piece { start ≤ end }
    requires within { end ≤ length octets.old }
    ensures octets { drop start octets.new ≡ map to_ascii_lowercase (take (end - start) (drop start octets.old)) ++ drop end octets.old }
    ensures len { length octets.new ≡ length octets.old }
{
    octets[start..end].make_ascii_lowercase();
}

/// Puts the key of a name on the wire in front of a place, and gives the place where it begins. It takes no memory.
pub fn put_key(room: &mut [u8], end: usize, wire: &[u8]) -> usize
    requires name { IsWire wire.now }
    requires within { end ≤ length room.old }
    // a key has one octet less than its name on the wire
    requires room { length wire.now ≤ end + 1 }
    ensures key { drop result room.new ≡ key_of_name (labels_of wire.now) ++ drop end room.old }
    ensures start { result ≤ end }
    ensures len { length room.new ≡ length room.old }
    ensures name { IsName (lower_name (labels_of wire.now)) }
    ensures back { SplitsBack }
    ensures on { LabelsGoOn }
{
    // Three laws, which do nothing.
    splits_back();
    labels_go_on();
    lowers_on_wire();
    let start = put_reversed(room, end, wire);
    // A length octet is below 64, and `A` is 65: the whole key can be lowered.
    lower_in_place(room, start, end);
    start
}

/// The key of the name: its labels in lower case from the root, each after its length. So a name stands at or below another
/// exactly where its key begins with the other's. It takes no memory.
pub fn key_of(name: &Name) -> NameKey
    ensures key { result ≡ key_of_name name.now }
    ensures name { IsName (lower_name name.now) }
    ensures back { SplitsBack }
    ensures on { LabelsGoOn }
{
    // Two laws, which do nothing.
    splits_back();
    labels_go_on();
    let name = name.lower();
    let mut octets = [LABEL_END; ROOM];
    let start = put_reversed(&mut octets, MAX_NAME, name.as_wire());
    NameKey { octets, start }
}
