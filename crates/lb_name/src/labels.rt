//! The labels of a name on the wire (RFC 1035 section 3.1), from the first to the root.

ghost use Rattle.std.specs.Prelude.{◌≡◌, ◌↔◌, List, [], ◌∷◌, ◌++◌, length, slice_get, IfSome, IsTrue, option_map};
ghost use Rattle.std.specs.Option.{IfNone};
ghost use Rattle.lb_name.specs.Name.{labels_of, IsUnder, IsWire};

/// The first label of a name on the wire, and the name after it; none of the root.
pub(crate) fn first_label(wire: &[u8]) -> Option<(&[u8], &[u8])>
    requires { IsWire wire.now }
    ensures none { IfNone result (labels_of wire.now ≡ []) }
    ensures first { IfSome result (λ cut. labels_of wire.now ≡ cut.0.now ∷ labels_of cut.1.now) }
    ensures rest { IfSome result (λ cut. IsWire cut.1.now) }
    ensures parts { IfSome result (λ cut. wire.now ≡ length cut.0.now ∷ (cut.0.now ++ cut.1.now)) }
{
    let Some((&len, octets)) = wire.split_first() else {
        return None;
    };
    if len == 0 {
        return None;
    }
    Some(octets.split_at(usize::from(len)))
}

/// How many labels a name has.
pub(crate) fn label_count(wire: &[u8]) -> usize
    requires { IsWire wire.now }
    ensures { result ≡ length (labels_of wire.now) }
{
    let mut wire = wire;
    let mut count = 0;
    'labels: while let Some((_, rest)) = first_label(wire) {
        count += 1;
        wire = rest;
    }
    count
}

/// The label at a place counted from the front, or none where the name has fewer.
pub(crate) fn label_at(wire: &[u8], place: usize) -> Option<&[u8]>
    requires { IsWire wire.now }
    ensures { option_map (λ label. label.now) result ≡ slice_get (labels_of wire.now) place }
{
    let mut wire = wire;
    let mut left = place;
    'labels: while let Some((label, rest)) = first_label(wire) {
        if left == 0 {
            return Some(label);
        }
        left -= 1;
        wire = rest;
    }
    None
}

/// Whether a name is the other or stands below it, without regard to case (RFC 1034 section 3.1), by the octets of both on
/// the wire.
pub(crate) fn is_wire_under(name: &[u8], other: &[u8]) -> bool
    requires name { IsWire name.now }
    requires other { IsWire other.now }
    ensures { IsTrue result ↔ IsUnder (labels_of name.now) (labels_of other.now) }
{
    let mut left = name;
    'labels: while left.len() > other.len() {
        // the root is no longer than any name
        let Some((_, rest)) = first_label(left) else {
            unreachable!();
        };
        left = rest;
    }
    left.eq_ignore_ascii_case(other)
}
