//! The message that a value stands for, and the least that a message is.

ghost use Rattle.std.specs.Prelude.{IfNone, IfSome, IsTrue, length, take, ◌↔◌, ◌≤◌, ◌⊎◌};
ghost use Rattle.base64.specs.Decode.{decoded_estimate};
ghost use Rattle.form_urlencoded.specs.Form.{decode};
ghost use Rattle.lb_wire.specs.Octets.{max_message};
ghost use Rattle.lb_doh_message.specs.Message.{IsBase64Url, IsQueryLike, ReadsValue, StandsForNone};

use crate::fault::DohFault;
use crate::form::decoded;
use base64::engine::general_purpose::URL_SAFE_NO_PAD;
use lb_wire::MAX_MESSAGE;
use std::alloc::Global;

/// How many symbols 65,535 octets have in base64url.
const MAX_SYMBOLS: usize = 87_380;

/// How many symbols a value of a usual query has at most. Their room is cheap to make.
const FEW_SYMBOLS: usize = 684;

/// How many octets those stand for.
const FEW_OCTETS: usize = 513;

/// Whether octets have a header and QR is 0 in it (RFC 1035 section 4.1.1).
pub(crate) fn is_query_like(octets: &[u8]) -> bool
    ensures { IsTrue result ↔ IsQueryLike octets.now }
{
    octets.len() >= 12 && octets[2] < 0x80
}

/// Whether octets of any length are as many as a message may have, and like a query.
fn is_message(octets: &[u8]) -> bool
    ensures { IsTrue result ↔ ((length octets.now ≤ max_message) × IsQueryLike octets.now) }
{
    octets.len() <= MAX_MESSAGE && is_query_like(octets)
}

/// The message that a value stands for, which is still encoded as forms are. Memory is taken for a message alone.
pub(crate) fn read_value(alloc: Global, value: &[u8]) -> Result<Vec<u8>, DohFault>
    ensures { ReadsValue (decode value.now) result }
{
    if value.len() <= FEW_SYMBOLS {
        read_short(alloc, value)
    } else {
        read_long(alloc, value)
    }
}

/// The same of a value of a usual length.
fn read_short(alloc: Global, value: &[u8]) -> Result<Vec<u8>, DohFault>
    requires { length value.now ≤ 684 }
    ensures { ReadsValue (decode value.now) result }
{
    let mut plain = [0u8; FEW_SYMBOLS];
    let mut room = [0u8; FEW_OCTETS];
    read_within(alloc, value, &mut plain, &mut room)
}

/// The same of a value of any length. Its room is large, so it stands in a function of its own.
#[inline(never)]
fn read_long(alloc: Global, value: &[u8]) -> Result<Vec<u8>, DohFault>
    ensures { ReadsValue (decode value.now) result }
{
    let mut plain = [0u8; MAX_SYMBOLS];
    let mut room = [0u8; MAX_MESSAGE];
    read_within(alloc, value, &mut plain, &mut room)
}

/// The same with room for the symbols and for the octets.
fn read_within(
    alloc: Global,
    value: &[u8],
    plain: &mut [u8],
    room: &mut [u8],
) -> Result<Vec<u8>, DohFault>
    requires symbols { (length value.now ≤ length plain.old) ⊎ (87380 ≤ length plain.old) }
    requires octets { decoded_estimate (length plain.old) ≤ length room.old }
    ensures { ReadsValue (decode value.now) result }
{
    let Some(symbols) = decoded(value, plain) else {
        return Err(DohFault::BadRequest);
    };
    let Some(len) = decode_url(symbols, room) else {
        return Err(DohFault::BadRequest);
    };
    let message = &room[..len];
    if !is_message(message) {
        return Err(DohFault::BadRequest);
    }
    Ok(Vec::from_slice(alloc, message)?)
}

/// Writes the octets that a text in base64url stands for to the front of `room`, and tells how many; None where it stands for none.
fn decode_url(text: &[u8], room: &mut [u8]) -> Option<usize>
    requires { decoded_estimate (length text.now) ≤ length room.old }
    ensures within { IfSome result (λ len. len ≤ length room.new) }
    ensures some { IfSome result (λ len. IsBase64Url text.now (take len room.new)) }
    ensures none { IfNone result (StandsForNone text.now) }
{
    match URL_SAFE_NO_PAD.decode_slice_unchecked(text, room) {
        Ok(len) => Some(len),
        Err(_) => None,
    }
}
