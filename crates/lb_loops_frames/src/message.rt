//! A message of a stream, and where a whole one ends.

ghost use Rattle.std.specs.Prelude.{IfNone, IfSome, length, drop, take, ◌++◌, ◌+◌, ◌<◌, ◌^◌, ◌≡◌, ◌≤◌};
ghost use Rattle.lb_wire.specs.BigEndian.{two_octets};
ghost use Rattle.lb_loops_frames.specs.Frames.{NoneWhole, framed};

use lb_wire::Octets;

/// A message of a stream, without its length.
pub type Message = Octets;

/// How many octets a message's length has (RFC 7766 section 8).
pub const LENGTH: usize = 2;

/// Where the whole message ends whose length begins at a place; None where no whole one is there.
#[tactic(auto, using(crate::proofs::Parts::none_short, crate::proofs::Parts::none_cut, crate::proofs::Parts::whole_there, crate::proofs::Parts::length_between))]
pub(crate) fn message_end(bytes: &[u8], at: usize) -> Option<usize>
    requires { at ≤ length bytes.now }
    ensures within { IfSome result (λ end. (at + 2 ≤ end) × (end ≤ length bytes.now)) }
    ensures whole { IfSome result (λ end. (length (drop (at + 2) (take end bytes.now)) < 2 ^ 16) × (drop at bytes.now ≡ framed (drop (at + 2) (take end bytes.now)) ++ drop end bytes.now)) }
    ensures none { IfNone result (NoneWhole (drop at bytes.now)) }
{
    if bytes.len() - at < LENGTH {
        return None;
    }
    let len = usize::from(length_at(bytes, at));
    if bytes.len() - at - LENGTH < len {
        return None;
    }
    Some(at + LENGTH + len)
}

/// The length that stands at a place.
fn length_at(bytes: &[u8], at: usize) -> u16
    requires { at + 2 ≤ length bytes.now }
    ensures { drop at bytes.now ≡ two_octets result ++ drop (at + 2) bytes.now }
{
    u16::from_be_bytes([bytes[at], bytes[at + 1]])
}
