//! Probes: the query that a server is asked to see whether it works, and which reply shows that it does.

ghost use Rattle.std.specs.Prelude.{◌≡◌, Result};
ghost use Rattle.lb_wire.specs.Reply.{ReadsReply};
ghost use Rattle.lb_wire.specs.declared.reply.ReplyView.{ReplyView};
ghost use Rattle.lb_wire.specs.declared.reply.ReplyFault.{ReplyFault};
ghost use Rattle.lb_health.specs.Probes.{is_working, judged, probe_name, probe_octets};

use lb_name::Name;
use lb_wire::{Class, Rcode, RecordType, read_reply, restore_id};
use std::marker::Model;

/// How many octets a probe has.
pub const PROBE_LEN: usize = 36;

/// The name that a probe asks for.
const NAME: &str = "a.root-servers.net";

/// A probe with the ID 0: a header with RD and one question (RFC 1035 section 4.1.1), and the question of the name, the
/// type A and the class IN (section 4.1.2).
const PROBE: [u8; PROBE_LEN] =
    *b"\x00\x00\x01\x00\x00\x01\x00\x00\x00\x00\x00\x00\x01a\x0croot-servers\x03net\x00\x00\x01\x00\x01";

/// The octets of a probe. A contract sees it as the list of them.
#[derive(Debug, Drop)]
pub struct ProbeBytes {
    octets: [u8; PROBE_LEN],
}

impl Model for ProbeBytes {
    ghost use Rattle.std.specs.Prelude.{List, ℕ};

    ghost Value = { List ℕ };

    ghost view = { λ p. p.octets };
}

impl ProbeBytes {
    /// The octets.
    pub fn as_slice(&self) -> &[u8]
        ensures { result.now ≡ self.now }
    {
        &self.octets
    }
}

/// The probe with this ID: a query for the address of a root server (RFC 1035 section 4.1).
pub fn probe(word: u16) -> ProbeBytes
    ensures { result ≡ probe_octets word }
{
    let mut octets = PROBE;
    restore_id(&mut octets, word);
    ProbeBytes { octets }
}

/// The name that a probe asks for.
fn probe_name() -> Name
    ensures { result ≡ probe_name }
{
    match Name::parse_text(NAME) {
        Ok(name) => name,
        Err(_) => unreachable!(),
    }
}

/// Whether a reply with this RCODE shows that its server works: not with ServFail, and where names have to be resolved, not
/// with NXDomain or Refused either.
fn is_working(rcode: Rcode, must_resolve: bool) -> bool
    ensures { result ≡ is_working must_resolve rcode }
{
    match rcode {
        Rcode::ServFail => false,
        Rcode::NXDomain | Rcode::Refused => !must_resolve,
        _ => true,
    }
}

/// Whether bytes are a good answer to the probe with this ID: a reply with the ID that belongs to the probe's question (RFC
/// 1035 section 7.3), and whose RCODE is not ServFail, nor, where names have to be resolved, NXDomain or Refused. It takes no
/// memory.
pub fn judge(bytes: &[u8], word: u16, must_resolve: bool) -> bool
    ensures { (reading : Result ReplyView ReplyFault) × ReadsReply bytes.now reading × (result ≡ judged word must_resolve reading) }
{
    match read_reply(bytes) {
        Ok(reply) => {
            reply.id == word
                && reply.belongs_to(&probe_name(), RecordType::A, Class::IN)
                && is_working(reply.rcode, must_resolve)
        }
        Err(_) => false,
    }
}
