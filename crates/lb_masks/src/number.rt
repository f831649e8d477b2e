//! Numbers in texts.

ghost use Rattle.std.specs.Prelude.{◌≡◌, ◌≤◌, IfSome};
ghost use Rattle.lb_masks.specs.Number.{number_up_to, has_leading_zero, decimal_octet, group};

/// The radix of an IPv4 address's numbers and of lengths.
const DECIMAL: u32 = 10;

/// The radix of an IPv6 address's groups (RFC 4291 section 2.2).
const HEXADECIMAL: u32 = 16;

/// The most digits of a group.
const GROUP_DIGITS: usize = 4;

/// The number that digits spell, where it is not over the most. None of no digit, and of any other byte.
fn number_up_to(text: &[u8], radix: u32, most: u64) -> Option<u64>
    requires low { 2 ≤ radix }
    requires high { radix ≤ 36 }
    ensures value { result ≡ number_up_to radix most text.now }
    ensures within { IfSome result (λ number. number ≤ most) }
{
    if text.is_empty() {
        return None;
    }
    let mut number = 0u64;
    'digits: for byte in text {
        let digit = char::from(*byte).to_digit(radix)?;
        let next = u128::from(number) * u128::from(radix) + u128::from(digit);
        if next > u128::from(most) {
            return None;
        }
        number = next as u64;
    }
    Some(number)
}

/// The number that decimal digits spell, leading zeros and all, where it is not over the most. None of no digit, and of any
/// other byte.
pub fn decimal_up_to(text: &[u8], most: u64) -> Option<u64>
    ensures value { result ≡ number_up_to 10 most text.now }
    ensures within { IfSome result (λ number. number ≤ most) }
{
    number_up_to(text, DECIMAL, most)
}

/// Whether a zero stands before another digit.
fn has_leading_zero(text: &[u8]) -> bool
    ensures { result ≡ has_leading_zero text.now }
{
    text.len() > 1 && text[0] == b'0'
}

/// The octet that a decimal number from 0 to 255 with no leading zero spells.
pub(crate) fn decimal_octet(text: &[u8]) -> Option<u8>
    ensures { result ≡ decimal_octet text.now }
{
    if has_leading_zero(text) {
        return None;
    }
    let octet = decimal_up_to(text, u64::from(u8::MAX))?;
    Some(octet as u8)
}

/// The number that one to four hexadecimal digits spell.
pub(crate) fn group(text: &[u8]) -> Option<u16>
    ensures { result ≡ group text.now }
{
    if text.len() > GROUP_DIGITS {
        return None;
    }
    match number_up_to(text, HEXADECIMAL, u64::from(u16::MAX)) {
        Some(number) => Some(number as u16),
        None => None,
    }
}
