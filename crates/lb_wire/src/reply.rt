//! Replies: what is read of them, and what is written in them for the client that gets them.

ghost use Rattle.std.specs.Prelude.{◌≡◌, ℕ, ◌≤◌, List, ◌++◌, take, drop, length};
ghost use Rattle.lb_name.specs.Name.{IsSame};
ghost use Rattle.lb_wire.specs.BigEndian.{two_octets};
ghost use Rattle.lb_wire.specs.Numbers.{reply_fault_number};
ghost use Rattle.lb_wire.specs.declared.question.Question.{Question};
ghost use Rattle.lb_wire.specs.Message.{question_octets};

use crate::header::{HEADER_LEN, read_header};
use crate::layout::lay;
use crate::octets::overwrite;
use crate::opcode::Opcode;
use crate::question::{Question, question_to, skip_question};
use crate::rcode::Rcode;
use crate::tally::Survey;
use lb_name::{Name, labels_go_on};
use thiserror::Error;

/// Why bytes are no reply. `number` is the number that texts give it.
#[derive(Clone, Copy, Debug, PartialEq, Eq, Error)]
pub enum ReplyFault {
    /// Fewer than 12 octets.
    #[error("the message is shorter than a header")]
    Short,
    /// QR is 0.
    #[error("the message is a query")]
    NotReply,
}

impl ReplyFault {
    /// The number of the fault, 1 or 2.
    pub fn number(self) -> u8
        ensures { result ≡ reply_fault_number self }
    {
        match self {
            ReplyFault::Short => 1,
            ReplyFault::NotReply => 2,
        }
    }
}

/// The header and the question of a reply (RFC 1035 sections 4.1.1 and 4.1.2).
#[derive(Debug, Drop)]
pub struct ReplyView {
    pub id: u16,
    pub opcode: Opcode,
    /// TC.
    pub truncated: bool,
    pub rcode: Rcode,
    /// QDCOUNT.
    pub questions: u16,
    /// The question: there exactly where QDCOUNT is not 0 and one stands after the header.
    pub question: Option<Question>,
}

ghost use Rattle.lb_wire.specs.Reply.{ReadsReply, Surveys, respelled};
ghost use Rattle.lb_wire.specs.Question.{Asks};

/// Reads the header and the question of a reply. The faults are tested in their order: fewer than 12 octets are
/// `Short`, QR 0 is `NotReply`.
#[inline(always)]
pub fn read_reply(bytes: &[u8]) -> Result<ReplyView, ReplyFault>
    ensures { ReadsReply bytes.now result }
{
    if bytes.len() < HEADER_LEN {
        return Err(ReplyFault::Short);
    }
    let header = read_header(bytes);
    if !header.flags.is_response() {
        return Err(ReplyFault::NotReply);
    }
    let question_end = if header.questions == 0 {
        None
    } else {
        skip_question(bytes, HEADER_LEN)
    };
    Ok(ReplyView {
        id: header.id,
        opcode: header.flags.opcode(),
        truncated: header.flags.is_truncated(),
        rcode: header.flags.rcode(),
        questions: header.questions,
        question: match question_end {
            Some(end) => Some(question_to(bytes, HEADER_LEN, end)),
            None => None,
        },
    })
}

/// The least times to live of a message, in one pass over its records: `None` exactly where QDCOUNT is not 1, or the
/// question or a counted record does not stand there (RFC 1035 section 4.1).
pub fn survey(bytes: &[u8]) -> Option<Survey>
    ensures { Surveys bytes.now result }
{
    // a law: the call does nothing
    labels_go_on();
    if bytes.len() < HEADER_LEN {
        return None;
    }
    let header = read_header(bytes);
    if header.questions != 1 {
        return None;
    }
    let question_end = skip_question(bytes, HEADER_LEN)?;
    let laid = lay(bytes, question_end, header)?;
    Some(Survey {
        least_all: laid.all.least,
        least_answer: laid.answers.least,
    })
}

/// Puts an ID in place of the first two octets (RFC 1035 section 4.1.1).
pub fn restore_id(bytes: &mut [u8], id: u16)
    requires { 2 ≤ length bytes.old }
    ensures { bytes.new ≡ two_octets id ++ drop 2 bytes.old }
{
    let [high, low] = id.to_be_bytes();
    bytes[0] = high;
    bytes[1] = low;
}

/// Puts another spelling of the question name in place of the one after the header, which is the same without regard
/// to case. No more is asked for: what stands after the question may be cut off or miscounted, and stays as it is.
pub fn respell(bytes: &mut [u8], name: &Name)
    requires { (q : Question) × (rest : List ℕ) × Asks (drop 12 bytes.old) q rest × IsSame q.name name.now }
    ensures parts { (q : Question) (rest : List ℕ) → Asks (drop 12 bytes.old) q rest → IsSame q.name name.now → bytes.new ≡ take 12 bytes.old ++ (question_octets name.now q.qtype q.qclass ++ rest) }
    ensures octets { bytes.new ≡ respelled name.now bytes.old }
{
    overwrite(bytes, HEADER_LEN, name.as_wire());
}
