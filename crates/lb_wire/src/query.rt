//! Reading a query.

ghost use Rattle.std.specs.Prelude.{◌≡◌, ◌≤◌, ◌++◌, length, drop, IfOk, IfErr};
ghost use Rattle.lb_wire.specs.Numbers.{query_fault_number};

use crate::flags::Flags;
use crate::header::{HEADER_LEN, Header, read_header};
use crate::layout::lay;
use crate::opt::Opt;
use crate::question::{question_to, skip_question};
use crate::record_type::{Class, RecordType};
use lb_name::{Name, labels_go_on};
use thiserror::Error;

/// Why bytes are no query. `number` is the number that texts give it.
#[derive(Clone, Copy, Debug, PartialEq, Eq, Error)]
pub enum QueryFault {
    /// Fewer than 12 octets.
    #[error("the message is shorter than a header")]
    Short,
    /// QR is 1.
    #[error("the message is a response")]
    NotQuery,
    /// The message has not the layout of a query.
    #[error("the query is malformed")]
    Malformed,
}

impl QueryFault {
    /// The number of the fault, 1 to 3.
    pub fn number(self) -> u8
        ensures { result ≡ query_fault_number self }
    {
        match self {
            QueryFault::Short => 1,
            QueryFault::NotQuery => 2,
            QueryFault::Malformed => 3,
        }
    }
}

/// The parts of a query that decide about it (RFC 1035 sections 4.1.1 and 4.1.2).
#[derive(Debug, Drop)]
pub struct QueryView {
    pub id: u16,
    pub flags: Flags,
    /// The name asked for, as it was spelled.
    pub name: Name,
    pub qtype: RecordType,
    pub qclass: Class,
    /// The place after the question.
    pub question_end: usize,
    /// The OPT, if there is one.
    pub opt: Option<Opt>,
}

ghost use Rattle.lb_wire.specs.Message.{Message, Lays, IsHeader, header_octets};
ghost use Rattle.lb_wire.specs.Opt.{opts};
ghost use Rattle.lb_wire.specs.Query.{Reads, view_of};
ghost use Rattle.lb_wire.specs.declared.query.QueryFault.TheVariants.{Malformed};

/// Reads a query. The faults are tested in their order: fewer than 12 octets are `Short`, QR 1 is `NotQuery`, and
/// bytes without the layout of a query are `Malformed`: QDCOUNT 1, one question whose name has no pointer, as many
/// records as the header counts, and one OPT among them at most (RFC 6891 section 6.1.1). Octets after the last
/// counted record are part of the message.
#[inline(always)]
pub fn read_query(bytes: &[u8]) -> Result<QueryView, QueryFault>
    ensures { Reads bytes.now result }
{
    if bytes.len() < HEADER_LEN {
        return Err(QueryFault::Short);
    }
    let header = read_header(bytes);
    if header.flags.is_response() {
        return Err(QueryFault::NotQuery);
    }
    read_parts(bytes, header)
}

/// Reads what stands after the header of a query.
#[inline(always)]
fn read_parts(bytes: &[u8], header: Header) -> Result<QueryView, QueryFault>
    requires fits { IsHeader header }
    requires parts { bytes.now ≡ header_octets header ++ drop 12 bytes.now }
    requires within { 12 ≤ length bytes.now }
    ensures found { IfOk result (λ view. (m : Message) × Lays bytes.now m × (length (opts m.records) ≤ 1) × (m.header ≡ header) × (view ≡ view_of m)) }
    ensures none { IfErr result (λ fault. (fault ≡ Malformed) × ((m : Message) → Lays bytes.now m → length (opts m.records) ≤ 1 → ⊥)) }
{
    // a law: the call does nothing
    labels_go_on();
    if header.questions != 1 {
        return Err(QueryFault::Malformed);
    }
    let Some(question_end) = skip_question(bytes, HEADER_LEN) else {
        return Err(QueryFault::Malformed);
    };
    let Some(laid) = lay(bytes, question_end, header) else {
        return Err(QueryFault::Malformed);
    };
    if laid.all.twice {
        return Err(QueryFault::Malformed);
    }
    let question = question_to(bytes, HEADER_LEN, question_end);
    Ok(QueryView {
        id: header.id,
        flags: header.flags,
        name: question.name,
        qtype: question.qtype,
        qclass: question.qclass,
        question_end,
        opt: laid.all.opt,
    })
}
