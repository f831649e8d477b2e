//! Under what a key is filed, so that the keys of a name, and those of the names below it, stand together.

ghost use Rattle.std.specs.Prelude.{◌≡◌, ℕ, ◌≤◌, List, [], ◌∷◌, ◌++◌, None, Some, length};
ghost use Rattle.lb_name.specs.Laws.{LabelsGoOn, SplitsBack};
ghost use Rattle.lb_name.specs.Name.{labels_of, lower_name, IsName, IsWire};
ghost use Rattle.lb_suffix.specs.Key.{key_of as key_of_name};
ghost use Rattle.lb_cache.specs.Keys.{head_of as head_of_question, is_within};
ghost use Rattle.lb_cache.specs.Question.{asks_name, asks_under, question_of_key};

use crate::question::question_of;
use lb_name::{MAX_NAME, Name};
use lb_suffix::put_key;
use lb_wire::RecordType;
use std::marker::Model;

/// What stands after the labels of a name: a zero, the type, and a zero.
const TYPE: usize = 4;

/// The most octets that stand before those of a key.
const HEAD: usize = MAX_NAME + TYPE;

/// The first octet where a key has no question: no label has so many octets.
const NO_QUESTION: u8 = 255;

/// The first octet that stands after every label's length.
const PAST_LABELS: u8 = 64;

/// Octets that stand before those of a key, laid from the back, so that each is laid once. A contract sees them as a list.
#[derive(Debug, Drop)]
pub(crate) struct Head {
    octets: [u8; HEAD],
    start: usize,
}

impl Model for Head {
    ghost use Rattle.std.specs.Prelude.{List, ℕ, ◌≤◌, drop};

    ghost Value = { List ℕ };

    ghost view = { λ h. drop h.start h.octets };

    ghost invariant = { λ h. h.start ≤ 259 };
}

/// The keys that are filed at or after the one and before the other.
#[derive(Debug, Drop)]
pub(crate) struct Span {
    pub(crate) low: Head,
    pub(crate) high: Head,
}

impl Head {
    /// Room for octets, and none yet.
    #[inline(always)]
    pub(crate) fn empty() -> Head
        ensures { result ≡ [] }
    {
        Head {
            octets: [0; HEAD],
            start: HEAD,
        }
    }

    /// Lays the labels of a name on the wire from the root in lower case, each after its length, and
    /// these octets after them.
    #[inline(always)]
    fn lay(&mut self, wire: &[u8], tail: &[u8])
        requires name { IsWire wire.now }
        requires few { length tail.now ≤ 4 }
        ensures octets { self.new ≡ key_of_name (labels_of wire.now) ++ tail.now }
        ensures name { IsName (lower_name (labels_of wire.now)) }
        ensures back { SplitsBack }
        ensures on { LabelsGoOn }
    {
        let end = HEAD - tail.len();
        self.octets[end..].copy_from_slice(tail);
        self.start = put_key(&mut self.octets, end, wire);
    }

    /// Lays what stands before a key that has no question.
    fn lay_unasked(&mut self)
        ensures { self.new ≡ 255 ∷ [] }
    {
        *self = Head {
            octets: [NO_QUESTION; HEAD],
            start: HEAD - 1,
        };
    }

    /// Lays what stands before a key's octets where it is filed. It is laid in place, as each move of
    /// a head copies all of its room.
    #[inline(always)]
    pub(crate) fn lay_before(&mut self, octets: &[u8])
        ensures { self.new ≡ head_of_question (question_of_key octets.now) }
    {
        match question_of(octets) {
            Some((name, rtype)) => self.lay(
                name,
                &[0, (rtype / 256) as u8, (rtype % 256) as u8, 0],
            ),
            None => self.lay_unasked(),
        }
    }

    /// The labels of a name on the wire and these octets, as `lay` lays them.
    fn of(wire: &[u8], tail: &[u8]) -> Head
        requires name { IsWire wire.now }
        requires few { length tail.now ≤ 4 }
        ensures octets { result ≡ key_of_name (labels_of wire.now) ++ tail.now }
        ensures name { IsName (lower_name (labels_of wire.now)) }
        ensures back { SplitsBack }
        ensures on { LabelsGoOn }
    {
        let mut head = Head::empty();
        head.lay(wire, tail);
        head
    }

    /// The octets.
    pub(crate) fn as_slice(&self) -> &[u8]
        ensures { result.now ≡ self.now }
    {
        let (_, octets) = self.octets.split_at(self.start);
        octets
    }
}

impl Span {
    /// The keys that are filed under the labels of a name and these octets, where what follows stands before this.
    fn of(name: &Name, tail: &[u8], end: u8) -> Span
        requires { length tail.now ≤ 3 }
        ensures low { result.low ≡ key_of_name name.now ++ tail.now }
        ensures high { result.high ≡ (key_of_name name.now ++ tail.now) ++ end ∷ [] }
        ensures name { IsName (lower_name name.now) }
        ensures on { LabelsGoOn }
    {
        // of a name of one's own, and not of one that is lent, it is known that its octets are a name's
        let name = name.copy();
        let mut behind = [end; TYPE];
        behind[..tail.len()].copy_from_slice(tail);
        let (behind, _) = behind.split_at(tail.len() + 1);
        Span {
            low: Head::of(name.as_wire(), tail),
            high: Head::of(name.as_wire(), behind),
        }
    }

    /// The keys whose question has this name.
    pub(crate) fn of_name(name: &Name) -> Span
        ensures { (octets : List ℕ) → is_within result.low result.high octets ≡ asks_name name.now None (question_of_key octets) }
    {
        Span::of(name, &[], 1)
    }

    /// The keys whose question has this name and this type.
    pub(crate) fn of_type(name: &Name, rtype: RecordType) -> Span
        ensures { (octets : List ℕ) → is_within result.low result.high octets ≡ asks_name name.now (Some rtype) (question_of_key octets) }
    {
        let high = (rtype.0 / 256) as u8;
        let low = (rtype.0 % 256) as u8;
        Span::of(name, &[0, high, low], 1)
    }

    /// The keys whose question has this name or one below it.
    pub(crate) fn of_suffix(name: &Name) -> Span
        ensures { (octets : List ℕ) → is_within result.low result.high octets ≡ asks_under name.now (question_of_key octets) }
    {
        Span::of(name, &[], PAST_LABELS)
    }
}
