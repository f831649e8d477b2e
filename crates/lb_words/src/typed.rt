//! Words and numbers of a line.

/// Where the next word at or after a place begins and ends. If there is none, both are the line's
/// length.
pub(crate) fn next_word(bytes: &[u8], from: usize) -> (usize, usize) {
    let rest = bytes.get(from..).unwrap_or_default();
    let begin = match rest.iter().position(|byte| *byte != b' ') {
        Some(spaces) => from.saturating_add(spaces),
        None => return (bytes.len(), bytes.len()),
    };
    let rest = bytes.get(begin..).unwrap_or_default();
    match rest.iter().position(|byte| *byte == b' ') {
        Some(len) => (begin, begin.saturating_add(len)),
        None => (begin, bytes.len()),
    }
}

/// A number of at most 2^64-1 in decimal digits.
pub(crate) fn number_of(digits: &[u8]) -> Option<u64> {
    if digits.is_empty() {
        return None;
    }
    let mut number = 0u64;
    for digit in digits {
        if !digit.is_ascii_digit() {
            return None;
        }
        number = number
            .checked_mul(10)?
            .checked_add(u64::from(digit - b'0'))?;
    }
    Some(number)
}
