//! The OPT pseudo-record.

ghost use Rattle.std.specs.Prelude.{◌≡◌};
ghost use Rattle.lb_wire.specs.Record.{record_octets};
ghost use Rattle.lb_wire.specs.Opt.{opt_record};

use crate::record_type::RecordType;

/// What a query's OPT says that its answer depends on (RFC 6891 section 6.1, RFC 3225 section 3).
#[derive(Clone, Copy, Debug, PartialEq, Eq)]
pub struct Opt {
    /// DO: the sender takes DNSSEC records.
    pub dnssec_ok: bool,
}

/// How many octets the OPT of a made answer has.
pub(crate) const OPT_LEN: usize = 11;

/// What the DO bit counts for in the TTL of an OPT (RFC 6891 section 6.1.3).
pub(crate) const DNSSEC_OK: u32 = 0x8000;

/// The payload size that a made answer's OPT states, in octets (RFC 6891 section 6.2.5 has the choice): it crosses most
/// paths in one piece.
const PAYLOAD_SIZE: u16 = 1232;

/// The OPT of a made answer on the wire (RFC 6891 section 6.1.2; the extended RCODE and flags stand in the place of a
/// TTL, section 6.1.3). The payload size is stated, DO is copied, and there are no options:
///
/// ```text
/// +------------+--------------+------------------------------+
/// | NAME       | domain name  | MUST be 0 (root domain)      |
/// | TYPE       | u_int16_t    | OPT (41)                     |
/// | CLASS      | u_int16_t    | requestor's UDP payload size |
/// | TTL        | u_int32_t    | extended RCODE and flags     |
/// | RDLEN      | u_int16_t    | length of all RDATA          |
/// | RDATA      | octet stream | {attribute,value} pairs      |
/// +------------+--------------+------------------------------+
///
///                +0 (MSB)                            +1 (LSB)
///       +---+---+---+---+---+---+---+---+---+---+---+---+---+---+---+---+
///    0: |         EXTENDED-RCODE        |            VERSION            |
///       +---+---+---+---+---+---+---+---+---+---+---+---+---+---+---+---+
///    2: | DO|                           Z                               |
///       +---+---+---+---+---+---+---+---+---+---+---+---+---+---+---+---+
/// ```
pub(crate) fn opt_piece(opt: Opt) -> [u8; OPT_LEN]
    ensures { result ≡ record_octets (opt_record opt) }
{
    let [type_high, type_low] = RecordType::OPT.0.to_be_bytes();
    let [size_high, size_low] = PAYLOAD_SIZE.to_be_bytes();
    let flags = if opt.dnssec_ok { DNSSEC_OK } else { 0 };
    let [rcode, version, flags_high, flags_low] = flags.to_be_bytes();
    [
        0, type_high, type_low, size_high, size_low, rcode, version, flags_high, flags_low, 0, 0,
    ]
}
