//! The variable of a GET.

ghost use Rattle.std.specs.Prelude.{MatchOption, bytes_eq, ◌≡◌};
ghost use Rattle.form_urlencoded.specs.Form.{decode};
ghost use Rattle.lb_doh_message.specs.Variable.{HasNoOnlyValue, IsOnlyValue, dns};

use crate::form::decoded;
use form_urlencoded::raw_pairs;

/// The value of the variable `dns`, still encoded, if there is exactly one.
pub(crate) fn only_value(query: &[u8]) -> Option<&[u8]>
    ensures { MatchOption result (HasNoOnlyValue query.now) (λ raw. IsOnlyValue query.now (decode raw.now)) }
{
    let mut only = None;
    for (name, value) in raw_pairs(query) {
        if is_dns(name) {
            if only.is_some() {
                return None;
            }
            only = Some(value);
        }
    }
    only
}

/// Whether a name stands for `dns`.
fn is_dns(name: &[u8]) -> bool
    ensures { result ≡ bytes_eq (decode name.now) dns }
{
    let mut room = [0u8; 3];
    match decoded(name, &mut room) {
        Some(octets) => octets == b"dns".as_slice(),
        None => false,
    }
}
