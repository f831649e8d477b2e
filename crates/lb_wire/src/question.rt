//! The question of a message.

ghost use Rattle.std.specs.Prelude.{◌≡◌, ℕ, ◌+◌, ◌≤◌, List, length, drop, IfSome, IfNone};
ghost use Rattle.lb_wire.specs.Message.{question_octets};
ghost use Rattle.lb_wire.specs.Question.{Asks};
ghost use Rattle.lb_wire.specs.declared.question.Question.{Question};

use crate::big_endian::read_u16;
use crate::record_type::{Class, RecordType};
use lb_name::Name;

/// A question (RFC 1035 section 4.1.2), its name as it was spelled.
///
/// ```text
///   0  1  2  3  4  5  6  7  8  9 10 11 12 13 14 15
/// +--+--+--+--+--+--+--+--+--+--+--+--+--+--+--+--+
/// /                     QNAME                     /
/// +--+--+--+--+--+--+--+--+--+--+--+--+--+--+--+--+
/// |                     QTYPE                     |
/// +--+--+--+--+--+--+--+--+--+--+--+--+--+--+--+--+
/// |                     QCLASS                    |
/// +--+--+--+--+--+--+--+--+--+--+--+--+--+--+--+--+
/// ```
#[derive(Debug, Drop)]
pub struct Question {
    pub name: Name,
    pub qtype: RecordType,
    pub qclass: Class,
}

/// How many octets stand after a question's name: QTYPE and QCLASS.
pub const AFTER_NAME: usize = 4;

/// The place after the question at a place: a name without a pointer, a type and a class.
pub(crate) fn skip_question(bytes: &[u8], at: usize) -> Option<usize>
    ensures found { IfSome result (λ end. (q : Question) × Asks (drop at bytes.now) q (drop end bytes.now) × (end ≡ at + length (question_octets q.name q.qtype q.qclass))) }
    ensures within { IfSome result (λ end. end ≤ length bytes.now) }
    ensures none { IfNone result ((q : Question) (rest : List ℕ) → Asks (drop at bytes.now) q rest → ⊥) }
{
    let Ok(place) = Name::skip(bytes, at) else {
        return None;
    };
    if bytes.len() - place < AFTER_NAME {
        return None;
    }
    Some(place + AFTER_NAME)
}

/// The question from a place up to the one after it, as `skip_question` gave that. Its name is laid where the question stands, once.
#[inline(always)]
pub(crate) fn question_to(bytes: &[u8], at: usize, end: usize) -> Question
    requires within { end ≤ length bytes.now }
    requires there { (q : Question) × Asks (drop at bytes.now) q (drop end bytes.now) × (end ≡ at + length (question_octets q.name q.qtype q.qclass)) }
    ensures asks { Asks (drop at bytes.now) result (drop end bytes.now) }
    ensures long { end ≡ at + length (question_octets result.name result.qtype result.qclass) }
{
    let place = end - AFTER_NAME;
    let (_, there) = bytes.split_at(at);
    let (name, _) = there.split_at(place - at);
    Question {
        name: Name::of_wire(name),
        qtype: RecordType(read_u16(bytes, place)),
        qclass: Class(read_u16(bytes, place + 2)),
    }
}
