//! Answers with addresses that a rule states.

ghost use Rattle.std.specs.Prelude.{◌≡◌, ◌+◌, ◌*◌, ◌<◌, ◌≤◌, ◌++◌, length, vec_len, IfOk, OnOk};
ghost use Rattle.std.specs.List.{flat_map};
ghost use Rattle.lb_wire.specs.BigEndian.{two_octets, four_octets};
ghost use Rattle.lb_wire.specs.Record.{owner_octets, record_octets};
ghost use Rattle.lb_wire.specs.Opt.{opt_octets, opt_number};
ghost use Rattle.lb_wire.specs.Message.{Message, Lays};
ghost use Rattle.lb_wire.specs.Query.{IsQuery, view_of};
ghost use Rattle.lb_wire.specs.Octets.{max_message};
ghost use Rattle.lb_wire.specs.Answer.{asked_owner, in_class, address_ttl, address_record, fits_type as fits_type_of, spoof_records, spoofed_of};

use crate::addr::Addr;
use crate::answer::made_header;
use crate::header::{HEADER_LEN, put_header};
use crate::opt::{Opt, opt_piece};
use crate::query::QueryView;
use crate::rcode::Rcode;
use crate::record_type::{Class, RecordType};
use lb_name::POINTER;
use std::alloc::{AllocError, Global};

/// The most octets of a spoofed answer: a header, the longest question, eight IPv6 records and an OPT.
const MAX_SPOOFED: usize = 506;

/// How long a client may keep a stated address, in seconds.
const ADDRESS_TTL: u32 = 60;

/// The answer to a query with these 1 to 8 addresses, as far as they fit the type asked for: the question, and one
/// record for each in their order. The view was read from the bytes. The one error is lack of memory.
pub fn spoofed(
    alloc: Global,
    bytes: &[u8],
    view: &QueryView,
    addrs: &[Addr],
) -> Result<Vec<u8>, AllocError>
    requires view { (m : Message) × Lays bytes.now m × IsQuery m × (view.now ≡ view_of m) }
    requires some { 0 < length addrs.now }
    requires few { length addrs.now ≤ 8 }
    ensures octets { IfOk result (λ answer. answer.items ≡ spoofed_of view.now addrs.now) }
    ensures short { IfOk result (λ answer. vec_len answer ≤ max_message) }
{
    let mut answer = Vec::with_capacity(alloc, MAX_SPOOFED)?;
    let (front, _) = bytes.split_at(view.question_end);
    answer.extend_from_slice(front)?;
    let answers = push_addresses(&mut answer, view.qtype, addrs)?;
    let additionals = push_opt(&mut answer, view.opt)?;
    let flags = view.flags.answer(false, Rcode::NoError);
    put_header(
        &mut answer,
        made_header(view.id, flags, 1, answers, additionals),
    );
    Ok(answer)
}

/// Appends the record of each address that fits the type, and gives their number.
fn push_addresses(
    answer: &mut Vec<u8>,
    qtype: RecordType,
    addrs: &[Addr],
) -> Result<u16, AllocError>
    requires { length addrs.now ≤ 8 }
    ensures octets { OnOk result (answer.new.items ≡ answer.old.items ++ flat_map record_octets (spoof_records qtype.0 addrs.now)) }
    ensures number { IfOk result (λ n. n ≡ length (spoof_records qtype.0 addrs.now)) }
    ensures short { OnOk result (vec_len answer.new ≤ vec_len answer.old + 28 * length addrs.now) }
{
    let mut number = 0u16;
    for addr in addrs {
        if fits_type(qtype, addr) {
            push_address(answer, addr)?;
            number += 1;
        }
    }
    Ok(number)
}

/// Whether an address answers a question of a type: V4 for A, V6 for AAAA, both for ANY.
pub fn fits_type(qtype: RecordType, addr: &Addr) -> bool
    ensures { result ≡ fits_type_of qtype.0 addr.now }
{
    match addr {
        Addr::V4(_) => qtype.0 == RecordType::A.0 || qtype.0 == RecordType::ANY.0,
        Addr::V6(_) => qtype.0 == RecordType::AAAA.0 || qtype.0 == RecordType::ANY.0,
    }
}

/// Appends the record of an address: a pointer to the question name, type A or AAAA, class IN, TTL 60.
fn push_address(answer: &mut Vec<u8>, addr: &Addr) -> Result<(), AllocError>
    ensures octets { OnOk result (answer.new.items ≡ answer.old.items ++ record_octets (address_record addr.now)) }
    ensures short { OnOk result (vec_len answer.new ≤ vec_len answer.old + 28) }
{
    match addr {
        Addr::V4(octets) => {
            answer.extend_from_slice(&address_front(RecordType::A, 4))?;
            answer.extend_from_slice(octets)
        }
        Addr::V6(octets) => {
            answer.extend_from_slice(&address_front(RecordType::AAAA, 16))?;
            answer.extend_from_slice(octets)
        }
    }
}

/// What stands before the address in its record: the owner, a pointer to the question name after the header, and
/// TYPE, CLASS, TTL and RDLENGTH.
fn address_front(rtype: RecordType, len: u8) -> [u8; 12]
    ensures { result ≡ owner_octets asked_owner ++ (two_octets rtype.0 ++ (two_octets in_class ++ (four_octets address_ttl ++ two_octets len))) }
{
    let [type_high, type_low] = rtype.0.to_be_bytes();
    let [class_high, class_low] = Class::IN.0.to_be_bytes();
    let ttl = ADDRESS_TTL.to_be_bytes();
    [
        POINTER,
        HEADER_LEN as u8,
        type_high,
        type_low,
        class_high,
        class_low,
        ttl[0],
        ttl[1],
        ttl[2],
        ttl[3],
        0,
        len,
    ]
}

/// Appends the OPT of an answer, if the query had one, and gives the number of OPT records.
fn push_opt(answer: &mut Vec<u8>, opt: Option<Opt>) -> Result<u16, AllocError>
    ensures octets { OnOk result (answer.new.items ≡ answer.old.items ++ opt_octets opt) }
    ensures number { IfOk result (λ n. n ≡ opt_number opt) }
    ensures short { OnOk result (vec_len answer.new ≤ vec_len answer.old + 11) }
{
    match opt {
        Some(opt) => {
            answer.extend_from_slice(&opt_piece(opt))?;
            Ok(1)
        }
        None => Ok(0),
    }
}
