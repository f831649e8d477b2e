//! The owner of a record.

ghost use Rattle.std.specs.Prelude.{◌≡◌, ℕ, List, ◌++◌, IfSome, IfNone};
ghost use Rattle.lb_wire.specs.Record.{BeginsWithOwner, Owner, IsOwner, owner_octets};

use lb_name::{LABEL_END, MAX_NAME, POINTER, label_is_passed, labels_go_on};

/// How many octets a compression pointer has.
const POINTER_LEN: usize = 2;

/// How many octets the owner at the front takes. A pointer ends it and is never followed, so no
/// message makes the walk longer than the octets that it has.
pub(crate) fn owner_len(octets: &[u8]) -> Option<usize>
    ensures found { IfSome result (λ len. BeginsWithOwner octets.now len) }
    ensures none { IfNone result ((owner : Owner) (rest : List ℕ) → IsOwner owner → octets.now ≡ owner_octets owner ++ rest → ⊥) }
{
    // laws: the calls do nothing
    labels_go_on();
    label_is_passed();
    let mut len = 0usize;
    loop {
        let Some(&octet) = octets.get(len) else {
            return None;
        };
        if octet == 0 {
            return Some(len + 1);
        }
        if octet >= POINTER {
            let end = len + POINTER_LEN;
            if octets.len() < end || end > MAX_NAME {
                return None;
            }
            return Some(end);
        }
        if octet >= LABEL_END {
            return None;
        }
        let next = len + 1 + usize::from(octet);
        if octets.len() < next || next + 1 > MAX_NAME {
            return None;
        }
        len = next;
    }
}
