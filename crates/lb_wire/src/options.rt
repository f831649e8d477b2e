//! The options of an OPT.

ghost use Rattle.std.specs.Prelude.{◌≡◌, ◌==◌, ◌+◌, ◌<◌, ◌≤◌, List, ◌++◌, length, drop, vec_len, IfSome, IfNone, OnOk, Some, None};
ghost use Rattle.std.specs.List.{list_any};
ghost use Rattle.lb_wire.specs.BigEndian.{number_at};
ghost use Rattle.lb_wire.specs.Options.{EdnsOption, IsLeftLen, IsOption, left_octets, option_octets, options_of};

use crate::big_endian::read_u16;
use std::alloc::AllocError;

/// How many octets stand before an option's data: OPTION-CODE and OPTION-LENGTH (RFC 6891 section 6.1.2).
const HEAD_LEN: usize = 4;

/// Where an option lies, and its code (RFC 6891 section 6.1.2).
///
/// ```text
///                +0 (MSB)                            +1 (LSB)
///       +---+---+---+---+---+---+---+---+---+---+---+---+---+---+---+---+
///    0: |                          OPTION-CODE                          |
///       +---+---+---+---+---+---+---+---+---+---+---+---+---+---+---+---+
///    2: |                         OPTION-LENGTH                         |
///       +---+---+---+---+---+---+---+---+---+---+---+---+---+---+---+---+
///    4: |                                                               |
///       /                          OPTION-DATA                          /
///       +---+---+---+---+---+---+---+---+---+---+---+---+---+---+---+---+
/// ```
#[derive(Clone, Copy, Debug, PartialEq, Eq)]
pub struct OptionSpot {
    code: u16,
    /// The place after the option.
    end: usize,
}

/// Reads the option that stands at a place.
fn read_option(octets: &[u8], at: usize) -> Option<OptionSpot>
    requires { at ≤ length octets.now }
    ensures within { IfSome result (λ spot. (at < spot.end) × (spot.end ≤ length octets.now)) }
    ensures found { IfSome result (λ spot. (o : EdnsOption) × IsOption o × (drop at octets.now ≡ option_octets o ++ drop spot.end octets.now) × (spot.code ≡ o.code)) }
    ensures none { IfNone result (length octets.now < at + 4 + number_at (drop at octets.now) 2) }
{
    if octets.len() - at < HEAD_LEN {
        return None;
    }
    let code = read_u16(octets, at);
    let end = at + HEAD_LEN + usize::from(read_u16(octets, at + 2));
    if octets.len() < end {
        return None;
    }
    Some(OptionSpot { code, end })
}

/// Whether a code is listed. Lists are short.
#[inline(always)]
fn is_listed(skips: &[u16], code: u16) -> bool
    ensures { result ≡ list_any (λ c. c == code) skips.now }
{
    'codes: for listed in skips {
        if *listed == code {
            return true;
        }
    }
    false
}

/// How many octets are left of an OPT's data without the options of listed codes. `None` if it is no
/// list of options.
pub(crate) fn left_len(octets: &[u8], skips: &[u16]) -> Option<usize>
    ensures found { IfSome result (λ len. IsLeftLen skips.now octets.now len) }
    ensures none { IfNone result (options_of octets.now ≡ None) }
    ensures short { IfSome result (λ len. len ≤ length octets.now) }
{
    let mut place = 0usize;
    let mut left = 0usize;
    'options: while place < octets.len() {
        let spot = read_option(octets, place)?;
        if !is_listed(skips, spot.code) {
            left += spot.end - place;
        }
        place = spot.end;
    }
    Some(left)
}

/// Appends the options whose code is not listed, of data that is a list of options.
pub(crate) fn push_unlisted(
    left: &mut Vec<u8>,
    octets: &[u8],
    skips: &[u16],
) -> Result<(), AllocError>
    requires { (options : List EdnsOption) × (options_of octets.now ≡ Some options) }
    ensures short { OnOk result (vec_len left.new ≤ vec_len left.old + length octets.now) }
    ensures octets { OnOk result ((options : List EdnsOption) → options_of octets.now ≡ Some options → left.new.items ≡ left.old.items ++ left_octets skips.now options) }
{
    let mut place = 0usize;
    'options: while place < octets.len() {
        let Some(spot) = read_option(octets, place) else {
            unreachable!();
        };
        if !is_listed(skips, spot.code) {
            left.extend_from_slice(&octets[place..spot.end])?;
        }
        place = spot.end;
    }
    Ok(())
}
