//! The first octets of a key in three numbers.

ghost use Rattle.std.specs.Prelude.{◌≡◌, ◌+◌, ◌≤◌, ◌++◌, drop, take, IsTrue, ◌↔◌, length};
ghost use Rattle.std.specs.Int.{from_be_bytes, w64};
ghost use Rattle.lb_index_ranks.specs.Front.{counted, front_cmp, front_from, front_octets as octets_of_key, front_of_key};

use std::cmp::Ordering;

/// How many octets of a key stand in its front.
pub(crate) const FRONT: usize = 23;

/// How many octets a front has: those of the key, and how many there are.
const OCTETS: usize = FRONT + 1;

/// The first 23 octets of a key, zeros where there are fewer, and how many there are, 24 where there are more, as three
/// numbers.
#[derive(Clone, Copy, Debug)]
pub(crate) struct Front {
    first: u64,
    second: u64,
    third: u64,
}

/// Puts octets over others from a place on.
fn put_at(octets: &mut [u8], place: usize, piece: &[u8])
    requires { place + length piece.now ≤ length octets.old }
    ensures { octets.new ≡ take place octets.old ++ (piece.now ++ drop (place + length piece.now) octets.old) }
{
    octets[place..place + piece.len()].copy_from_slice(piece);
}

/// How many octets of the key of two pieces stand in its front, one more where there are others.
fn count_of(head: &[u8], tail: &[u8]) -> u8
    ensures { result ≡ counted 23 (head.now ++ tail.now) }
{
    let len = head.len().saturating_add(tail.len());
    if len > FRONT { OCTETS as u8 } else { len as u8 }
}

/// The octets of the front of the key of two pieces, and how many there are.
fn octets_of(head: &[u8], tail: &[u8]) -> [u8; OCTETS]
    ensures { result ≡ octets_of_key (head.now ++ tail.now) }
{
    let mut octets = [0; OCTETS];
    let (first, _) = head.split_at(head.len().min(FRONT));
    let (second, _) = tail.split_at(tail.len().min(FRONT - first.len()));
    put_at(&mut octets, 0, first);
    put_at(&mut octets, first.len(), second);
    octets[FRONT] = count_of(head, tail);
    octets
}

/// The three numbers of octets.
fn front_from(octets: &[u8]) -> Front
    requires { length octets.now ≡ 24 }
    ensures { result ≡ front_from octets.now }
{
    let Some((first, rest)) = octets.split_first_chunk::<8>() else {
        unreachable!();
    };
    let Some((second, rest)) = rest.split_first_chunk::<8>() else {
        unreachable!();
    };
    let Some((third, _)) = rest.split_first_chunk::<8>() else {
        unreachable!();
    };
    Front {
        first: u64::from_be_bytes(*first),
        second: u64::from_be_bytes(*second),
        third: u64::from_be_bytes(*third),
    }
}

impl Front {
    /// The front of a key.
    pub(crate) fn of(key: &[u8]) -> Front
        ensures { result ≡ front_of_key key.now }
    {
        Front::joined(key, &[])
    }

    /// The front of the key of two pieces.
    pub(crate) fn joined(head: &[u8], tail: &[u8]) -> Front
        ensures { result ≡ front_of_key (head.now ++ tail.now) }
    {
        let octets = octets_of(head, tail);
        front_from(&octets)
    }

    /// The order of two fronts.
    pub(crate) fn order(&self, other: &Front) -> Ordering
        ensures { result ≡ front_cmp self.now other.now }
    {
        match self.first.cmp(&other.first) {
            Ordering::Equal => match self.second.cmp(&other.second) {
                Ordering::Equal => self.third.cmp(&other.third),
                order => order,
            },
            order => order,
        }
    }

    /// Whether it is the other.
    pub(crate) fn is(&self, other: &Front) -> bool
        ensures { IsTrue result ↔ (self.now ≡ other.now) }
    {
        self.first == other.first && self.second == other.second && self.third == other.third
    }
}
