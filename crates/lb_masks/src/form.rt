//! The two forms of an address's text: numbers between dots, and groups between colons (RFC 4291 section 2.2).

ghost use Rattle.std.specs.Prelude.{◌≡◌, ◌==◌, ◌<◌, position, List, [], ℕ, Some, ◌∷◌, ◌++◌, length, option_map, MatchOption, IfSome, IfNone};
ghost use Rattle.lb_masks.specs.Form.{cut_at, before, behind, mark_of, piece_octets, joined, spelled};
ghost use Rattle.std.specs.Option.{unwrap_or};

use crate::number::{decimal_octet, group};
use arrayvec::ArrayVec;

/// The most octets of an address.
pub(crate) const MAX_OCTETS: usize = 16;

/// How the octets of an address are written.
#[derive(Clone, Copy, Debug, PartialEq, Eq)]
pub(crate) enum Form {
    /// Each octet as a decimal number, dots between them.
    Dotted,
    /// Two octets each as a group of hexadecimal digits, colons between them.
    Colons,
}

impl Form {
    /// The byte between two pieces.
    fn mark(self) -> u8
        ensures { result ≡ mark_of self }
    {
        match self {
            Form::Dotted => b'.',
            Form::Colons => b':',
        }
    }
}

/// Where the first mark of the text stands.
fn first_mark(text: &[u8], mark: u8) -> Option<usize>
    ensures { result ≡ position (λ b. b == mark) text.now }
{
    text.iter().position(|byte| *byte == mark)
}

/// The text up to its first mark, and what stands after that mark, where there is one.
pub(crate) fn first_piece(text: &[u8], mark: u8) -> (&[u8], Option<&[u8]>)
    ensures before { result.0.now ≡ before mark text.now }
    ensures behind { option_map (λ rest. rest.now) result.1 ≡ behind mark text.now }
    ensures pieces { cut_at mark text.now ≡ result.0.now ∷ unwrap_or (option_map (λ rest. cut_at mark rest.now) result.1) [] }
    ensures shorter { IfSome result.1 (λ rest. length rest.now < length text.now) }
{
    match first_mark(text, mark) {
        None => (text, None),
        Some(place) => {
            let (piece, rest) = text.split_at(place);
            let (_, rest) = rest.split_at(1);
            (piece, Some(rest))
        }
    }
}

/// Appends the octets that a piece spells. None where it spells none, or there is no room.
fn push_piece(octets: &mut ArrayVec<u8, MAX_OCTETS>, form: Form, piece: &[u8]) -> Option<()>
    ensures pushed { IfSome result (λ _. joined (Some octets.old.items) (piece_octets form piece.now) ≡ Some octets.new.items) }
    ensures none { IfNone result ((all : List ℕ) → joined (Some octets.old.items) (piece_octets form piece.now) ≡ Some all → 16 < length all) }
{
    match form {
        Form::Dotted => octets.try_push(decimal_octet(piece)?).ok(),
        Form::Colons => octets
            .try_extend_from_slice(&group(piece)?.to_be_bytes())
            .ok(),
    }
}

/// The octets that the text spells. None where a piece spells none, or there are more than an address has.
pub(crate) fn spelled(text: &[u8], form: Form) -> Option<ArrayVec<u8, MAX_OCTETS>>
    ensures found { IfSome result (λ octets. spelled form text.now ≡ Some octets.items) }
    ensures none { IfNone result ((all : List ℕ) → spelled form text.now ≡ Some all → 16 < length all) }
{
    let mut octets: ArrayVec<u8, MAX_OCTETS> = ArrayVec::new();
    let mut left = Some(text);
    'pieces: while let Some(text) = left {
        let (piece, rest) = first_piece(text, form.mark());
        push_piece(&mut octets, form, piece)?;
        left = rest;
    }
    Some(octets)
}
