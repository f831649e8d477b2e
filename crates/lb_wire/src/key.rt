//! The key by which the packet cache knows a query.

ghost use Rattle.std.specs.Prelude.{◌≡◌, ◌≤◌, length, drop, vec_len, IfOk, IfSome, IfNone, IsSome, OnOk, Some, []};
ghost use Rattle.lb_wire.specs.Message.{Message, Lays, message_octets};
ghost use Rattle.lb_wire.specs.BigEndian.{two_octets};
ghost use Rattle.lb_wire.specs.Opt.{opts};
ghost use Rattle.lb_wire.specs.Options.{DataStands, IsList, StandsIn, data_at, put_left, shed, without_listed};
ghost use Rattle.lb_wire.specs.Query.{Views};
ghost use Rattle.lb_wire.specs.Record.{end_at};
ghost use Rattle.lb_wire.specs.Key.{key_of_message};
ghost use Rattle.lb_wire.specs.Octets.{max_message};

use crate::laws::one_message;
use crate::octets::{Octets, overwrite};
use crate::opt_data::{data_at_size, data_of, find_data};
use crate::options::{left_len, push_unlisted};
use crate::query::QueryView;
use crate::transport::Kind;
use lb_name::{labels_go_on, lowers_on_wire};
use std::alloc::{AllocError, Global};

/// What queries must share to share a cached reply: the transport, and the message without its ID and
/// without the options of listed codes, with its question name in lower case.
#[derive(Debug, Drop)]
pub struct Key {
    pub kind: Kind,
    pub octets: Octets,
}

impl Key {
    /// An equal key. The one error is lack of memory.
    pub fn copy(&self, alloc: Global) -> Result<Key, AllocError>
        ensures { IfOk result (λ copy. copy ≡ self.now) }
    {
        Ok(Key {
            kind: self.kind,
            octets: self.octets.copy(alloc)?,
        })
    }
}

/// How many octets the ID has, which a key leaves out.
const ID_LEN: usize = 2;

/// Where the question name stands in a key: after the header without its ID.
const NAME_AT: usize = 10;

/// The key of a query, from which the view was read; RD alone may have been cleared since. If the data
/// of the query's OPT is a list of options (RFC 6891 section 6.1.2), those of the listed codes are left
/// out and RDLENGTH is lowered by their octets. The one error is lack of memory.
#[inline(always)]
pub fn key_of(
    alloc: Global,
    bytes: &[u8],
    view: &QueryView,
    kind: Kind,
    skips: &[u16],
) -> Result<Key, AllocError>
    requires view { (m : Message) × Lays bytes.now m × (length (opts m.records) ≤ 1) × Views view.now m }
    requires short { length bytes.now ≤ max_message }
    ensures { IfOk result (λ key. (m : Message) → Lays bytes.now m → key ≡ key_of_message skips.now kind m) }
{
    // laws: the calls do nothing
    one_message();
    lowers_on_wire();
    let mut octets = without_options(alloc, bytes, view, skips)?;
    lower_in_place(&mut octets, NAME_AT, view.name.as_wire().len());
    Ok(Key {
        kind,
        octets: Octets::from_vec(octets),
    })
}

/// The octets of a query without its ID and without the options of listed codes.
#[inline(always)]
fn without_options(
    alloc: Global,
    bytes: &[u8],
    view: &QueryView,
    skips: &[u16],
) -> Result<Vec<u8>, AllocError>
    requires view { (m : Message) × Lays bytes.now m × (length (opts m.records) ≤ 1) × Views view.now m }
    ensures octets { IfOk result (λ octets. (m : Message) → Lays bytes.now m → octets.items ≡ drop 2 (message_octets (shed skips.now m))) }
    ensures short { IfOk result (λ octets. vec_len octets ≤ length bytes.now) }
{
    // a law: the call does nothing
    one_message();
    match data_to_shed(bytes, view, skips) {
        Some(size_at) => with_left(alloc, bytes, size_at, skips),
        None => {
            let (_, kept) = bytes.split_at(ID_LEN);
            Vec::from_slice(alloc, kept)
        }
    }
}

/// Where the RDLENGTH of a query's OPT stands, if the OPT holds an option of a listed code.
#[inline(always)]
fn data_to_shed(bytes: &[u8], view: &QueryView, skips: &[u16]) -> Option<usize>
    requires view { (m : Message) × Lays bytes.now m × (length (opts m.records) ≤ 1) × Views view.now m }
    ensures within { IfSome result (λ at. StandsIn at (end_at at bytes.now) bytes.now) }
    ensures read { IfSome result (λ at. IsList (data_at at (end_at at bytes.now) bytes.now)) }
    ensures found { IfSome result (λ at. (m : Message) → Lays bytes.now m → DataStands bytes.now view.now.question_end m.records m.rest at (end_at at bytes.now)) }
    ensures none { IfNone result ((m : Message) → Lays bytes.now m → shed skips.now m ≡ m) }
{
    // a law: the call does nothing
    one_message();
    if skips.is_empty() || view.opt.is_none() {
        return None;
    }
    listed_data(bytes, view, skips)
}

/// The same, for a query with an OPT. It is a call of its own, so that the key of a query without one is
/// made in few registers.
#[inline(never)]
fn listed_data(bytes: &[u8], view: &QueryView, skips: &[u16]) -> Option<usize>
    requires opt { IsSome view.now.opt }
    requires view { (m : Message) × Lays bytes.now m × (length (opts m.records) ≤ 1) × Views view.now m }
    ensures within { IfSome result (λ at. StandsIn at (end_at at bytes.now) bytes.now) }
    ensures read { IfSome result (λ at. IsList (data_at at (end_at at bytes.now) bytes.now)) }
    ensures found { IfSome result (λ at. (m : Message) → Lays bytes.now m → DataStands bytes.now view.now.question_end m.records m.rest at (end_at at bytes.now)) }
    ensures none { IfNone result ((m : Message) → Lays bytes.now m → shed skips.now m ≡ m) }
{
    // laws: the calls do nothing
    one_message();
    labels_go_on();
    let spot = find_data(bytes, view.question_end);
    let data = data_of(bytes, spot);
    let left = left_len(data, skips)?;
    if left < data.len() {
        Some(spot.size_at)
    } else {
        None
    }
}

/// The octets of a query without its ID and without the options of listed codes, which the data of its
/// OPT holds.
#[inline(never)]
fn with_left(
    alloc: Global,
    bytes: &[u8],
    size_at: usize,
    skips: &[u16],
) -> Result<Vec<u8>, AllocError>
    requires within { StandsIn size_at (end_at size_at bytes.now) bytes.now }
    requires read { IsList (data_at size_at (end_at size_at bytes.now) bytes.now) }
    ensures octets { IfOk result (λ octets. octets.items ≡ drop 2 (put_left skips.now size_at (end_at size_at bytes.now) bytes.now)) }
    ensures short { IfOk result (λ octets. vec_len octets ≤ length bytes.now) }
{
    let spot = data_at_size(bytes, size_at);
    let data = data_of(bytes, spot);
    let Some(left) = left_len(data, skips) else {
        unreachable!();
    };
    let (_, after) = bytes.split_at(spot.end);
    let mut octets = Vec::with_capacity(alloc, size_at + left + after.len())?;
    push_front(&mut octets, bytes, size_at, left as u16)?;
    push_left(&mut octets, data, left, skips)?;
    push_after(&mut octets, after)?;
    Ok(octets)
}

/// Puts into an empty list what stands before an RDLENGTH, without the ID, and an RDLENGTH.
#[inline(always)]
fn push_front(
    octets: &mut Vec<u8>,
    bytes: &[u8],
    size_at: usize,
    size: u16,
) -> Result<(), AllocError>
    requires empty { octets.old.items ≡ [] }
    requires within { (2 ≤ size_at) × (size_at + 2 ≤ length bytes.now) }
    ensures octets { OnOk result (octets.new.items ≡ drop 2 (take size_at bytes.now ++ two_octets size)) }
    ensures len { OnOk result (vec_len octets.new ≡ size_at) }
{
    let size = size.to_be_bytes();
    // RDLENGTH is copied with what stands before it, and is then written anew.
    let (_, kept) = bytes.split_at(ID_LEN);
    let (front, _) = kept.split_at(size_at);
    octets.extend_from_slice(front)?;
    overwrite(octets.as_mut_slice(), size_at - ID_LEN, &size);
    Ok(())
}

/// Appends the options of unlisted codes, which have so many octets.
#[inline(always)]
fn push_left(
    octets: &mut Vec<u8>,
    options: &[u8],
    left: usize,
    skips: &[u16],
) -> Result<(), AllocError>
    requires read { IsList options.now }
    requires left { left ≡ length (without_listed skips.now options.now) }
    ensures octets { OnOk result (octets.new.items ≡ octets.old.items ++ without_listed skips.now options.now) }
    ensures short { OnOk result (vec_len octets.new ≤ vec_len octets.old + length options.now) }
{
    // Most queries have no option but a cookie.
    if left > 0 {
        push_unlisted(octets, options, skips)?;
    }
    Ok(())
}

/// Appends what stands after an OPT.
#[inline(always)]
fn push_after(octets: &mut Vec<u8>, after: &[u8]) -> Result<(), AllocError>
    ensures octets { OnOk result (octets.new.items ≡ octets.old.items ++ after.now) }
{
    // Most queries have no record after their OPT.
    if !after.is_empty() {
        octets.extend_from_slice(after)?;
    }
    Ok(())
}

ghost use Rattle.std.specs.Prelude.{◌+◌, ◌++◌, take, map};
ghost use Rattle.std.specs.Char.{to_ascii_lowercase};

/// Lowers so many octets from a place on.
fn lower_in_place(octets: &mut Vec<u8>, at: usize, len: usize)
    requires { at + len ≤ vec_len octets.old }
    ensures octets { octets.new.items ≡ take at octets.old.items ++ map to_ascii_lowercase (take len (drop at octets.old.items)) ++ drop (at + len) octets.old.items }
    ensures len { vec_len octets.new ≡ vec_len octets.old }
{
    octets[at..at + len].make_ascii_lowercase();
}
