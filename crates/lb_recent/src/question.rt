//! What a query asked, in bounded room.

use lb_name::Name;
use lb_wire::RecordType;

/// The most octets of a name that are noted.
pub const NAME_ROOM: usize = 64;

/// How many octets the header of a message has (RFC 1035 section 4.1.1).
const HEADER: usize = 12;

/// The most labels that a name has.
const LABELS: usize = 127;

/// A question: its type, and its name, or the last labels of it that have room.
#[derive(Clone, Copy, Debug, PartialEq, Eq)]
pub struct Question {
    octets: [u8; NAME_ROOM],
    len: u8,
    is_cut: bool,
    qtype: RecordType,
}

impl Question {
    /// The first question of a message, if one can be read there.
    pub fn of(message: &[u8]) -> Option<Question> {
        let end = Name::skip(message, HEADER).ok()?;
        let high = *message.get(end)?;
        let low = *message.get(end.saturating_add(1))?;
        let begin = last_labels(message, end);
        let kept = message.get(begin..end)?;
        let mut octets = [0u8; NAME_ROOM];
        octets.get_mut(..kept.len())?.copy_from_slice(kept);
        Some(Question {
            octets,
            len: u8::try_from(kept.len()).ok()?,
            is_cut: begin != HEADER,
            qtype: RecordType(u16::from_be_bytes([high, low])),
        })
    }

    /// The labels that are noted, on the wire.
    pub fn labels(&self) -> &[u8] {
        self.octets.get(..usize::from(self.len)).unwrap_or_default()
    }

    /// The same question with its name in lower case.
    pub fn lower(&self) -> Question {
        // The length of a label is below 64, and so no letter.
        let mut octets = self.octets;
        for octet in &mut octets {
            octet.make_ascii_lowercase();
        }
        Question { octets, ..*self }
    }

    /// Whether labels in front of these had no room.
    pub fn is_cut(&self) -> bool {
        self.is_cut
    }

    /// The type (RFC 1035 section 3.2.2).
    pub fn qtype(&self) -> RecordType {
        self.qtype
    }
}

/// Where the last labels of the name begin that ends at a place and begins after the header: as many as have room.
fn last_labels(message: &[u8], end: usize) -> usize {
    let mut begin = HEADER;
    for _ in 0..LABELS {
        if end.saturating_sub(begin) <= NAME_ROOM {
            return begin;
        }
        let Some(len) = message.get(begin) else {
            return end;
        };
        begin = begin.saturating_add(usize::from(*len)).saturating_add(1);
    }
    begin
}
