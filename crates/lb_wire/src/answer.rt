//! Answers that are made in a query's own bytes.

ghost use Rattle.std.specs.Prelude.{◌≡◌, ◌+◌, ◌≤◌, ◌++◌, take, vec_len, vec_capacity, length};
ghost use Rattle.lb_wire.specs.Numbers.{rcode_number};
ghost use Rattle.lb_wire.specs.Message.{Message, Lays};
ghost use Rattle.lb_wire.specs.Query.{IsQuery, view_of};
ghost use Rattle.lb_wire.specs.Answer.{made_of, refusal_of, truncated_of, formerr_of, made_header as made_header_of};

use crate::big_endian::read_u16;
use crate::flags::Flags;
use crate::header::{HEADER_LEN, Header, put_header};
use crate::octets::overwrite;
use crate::opt::opt_piece;
use crate::query::QueryView;
use crate::rcode::Rcode;

/// Makes the answer with this RCODE in the query's own bytes, from which the view was read: the header by the rules
/// of made answers, the question octet for octet, and an OPT if the query had one. It takes no memory.
pub fn answer_in_place(bytes: &mut Vec<u8>, view: &QueryView, rcode: Rcode)
    requires { (m : Message) × Lays bytes.old.items m × IsQuery m × (view.now ≡ view_of m) }
    ensures octets { bytes.new.items ≡ refusal_of view.now (rcode_number rcode) }
    ensures room { vec_capacity bytes.new ≡ vec_capacity bytes.old }
    ensures short { vec_len bytes.new ≤ vec_len bytes.old }
{
    make_in_place(bytes, view, view.flags.answer(false, rcode));
}

/// Makes the truncated answer (TC 1, RCODE NoError) in the query's own bytes, from which the view was read. It takes
/// no memory.
pub fn truncated_in_place(bytes: &mut Vec<u8>, view: &QueryView)
    requires { (m : Message) × Lays bytes.old.items m × IsQuery m × (view.now ≡ view_of m) }
    ensures octets { bytes.new.items ≡ truncated_of view.now }
    ensures room { vec_capacity bytes.new ≡ vec_capacity bytes.old }
    ensures short { vec_len bytes.new ≤ vec_len bytes.old }
{
    make_in_place(bytes, view, view.flags.answer(true, Rcode::NoError));
}

/// Makes the answer to a malformed query of at least 12 octets in its own bytes: a bare header with RCODE FormErr. It
/// takes no memory.
pub fn formerr_in_place(bytes: &mut Vec<u8>)
    requires { 12 ≤ vec_len bytes.old }
    ensures octets { bytes.new.items ≡ formerr_of bytes.old.items }
    ensures room { vec_capacity bytes.new ≡ vec_capacity bytes.old }
    ensures short { vec_len bytes.new ≤ vec_len bytes.old }
{
    let id = read_u16(bytes.as_slice(), 0);
    let flags = Flags(read_u16(bytes.as_slice(), 2));
    bytes.truncate(HEADER_LEN);
    put_header(
        bytes,
        made_header(id, flags.answer(false, Rcode::FormErr), 0, 0, 0),
    );
}

/// Makes the answer with these flags. The OPT is written after the question, over octets that are there: a query that
/// had one is long enough for it.
fn make_in_place(bytes: &mut Vec<u8>, view: &QueryView, flags: Flags)
    requires { (m : Message) × Lays bytes.old.items m × IsQuery m × (view.now ≡ view_of m) }
    ensures octets { bytes.new.items ≡ made_of view.now flags.0 }
    ensures room { vec_capacity bytes.new ≡ vec_capacity bytes.old }
    ensures short { vec_len bytes.new ≤ vec_len bytes.old }
{
    match view.opt {
        Some(opt) => {
            put_and_cut(bytes, view.question_end, &opt_piece(opt));
            put_header(bytes, made_header(view.id, flags, 1, 0, 1));
        }
        None => {
            bytes.truncate(view.question_end);
            put_header(bytes, made_header(view.id, flags, 1, 0, 0));
        }
    }
}

/// Puts a piece in place of as many octets at a place, and cuts the bytes after it.
fn put_and_cut(bytes: &mut Vec<u8>, at: usize, piece: &[u8])
    requires { at + length piece.now ≤ vec_len bytes.old }
    ensures octets { bytes.new.items ≡ take at bytes.old.items ++ piece.now }
    ensures room { vec_capacity bytes.new ≡ vec_capacity bytes.old }
    ensures short { vec_len bytes.new ≤ vec_len bytes.old }
{
    overwrite(bytes.as_mut_slice(), at, piece);
    bytes.truncate(at + piece.len());
}

/// The header of a made answer.
pub(crate) fn made_header(
    id: u16,
    flags: Flags,
    questions: u16,
    answers: u16,
    additionals: u16,
) -> Header
    ensures { result ≡ made_header_of id flags questions answers additionals }
{
    Header {
        id,
        flags,
        questions,
        answers,
        authorities: 0,
        additionals,
    }
}
