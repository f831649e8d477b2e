//! The data of a message's OPT.

ghost use Rattle.std.specs.Prelude.{◌≡◌, ℕ, ◌+◌, ◌≤◌, List, length, drop};
ghost use Rattle.lb_wire.specs.Record.{Record, end_at};
ghost use Rattle.lb_wire.specs.Options.{DataStands, HoldsOpt, StandsIn, data_at};

use crate::big_endian::read_u16;
use crate::record::{Spot, read_record};
use crate::record_type::RecordType;
use lb_name::labels_go_on;

/// How far RDLENGTH stands after the begin of TTL (RFC 1035 section 4.1.3).
const SIZE_AFTER_TTL: usize = 4;

/// How many octets RDLENGTH has.
const SIZE_LEN: usize = 2;

/// Where the data of an OPT stands.
#[derive(Clone, Copy, Debug, PartialEq, Eq)]
pub struct DataSpot {
    /// The place of RDLENGTH. The data follows it.
    pub(crate) size_at: usize,
    /// The place after the data.
    pub(crate) end: usize,
}

/// Where the data of a record stands.
pub(crate) fn data_after(spot: Spot) -> DataSpot
    requires { spot.ttl_at + 4 ≤ spot.end }
    ensures { (result.size_at ≡ spot.ttl_at + 4) × (result.end ≡ spot.end) }
{
    DataSpot {
        size_at: spot.ttl_at + SIZE_AFTER_TTL,
        end: spot.end,
    }
}

/// Where the data of the first OPT among the records from a place on stands. There is one, so the
/// records need not be counted.
pub(crate) fn find_data(bytes: &[u8], at: usize) -> DataSpot
    requires within { at ≤ length bytes.now }
    requires held { (records : List Record) × (rest : List ℕ) × HoldsOpt (drop at bytes.now) records rest }
    ensures within { StandsIn result.size_at result.end bytes.now }
    ensures found { (records : List Record) (rest : List ℕ) → HoldsOpt (drop at bytes.now) records rest → DataStands bytes.now at records rest result.size_at result.end }
    ensures sized { result.end ≡ end_at result.size_at bytes.now }
{
    // a law: the call does nothing
    labels_go_on();
    let mut place = at;
    'records: loop {
        let Some(spot) = read_record(bytes, place) else {
            unreachable!();
        };
        if spot.rtype.0 == RecordType::OPT.0 {
            return data_after(spot);
        }
        place = spot.end;
    }
}

/// Where the data of an RDLENGTH stands.
pub(crate) fn data_at_size(bytes: &[u8], size_at: usize) -> DataSpot
    requires { size_at + 2 ≤ length bytes.now }
    ensures { (result.size_at ≡ size_at) × (result.end ≡ end_at size_at bytes.now) }
{
    DataSpot {
        size_at,
        end: size_at + SIZE_LEN + usize::from(read_u16(bytes, size_at)),
    }
}

/// The data that stands there.
pub(crate) fn data_of(bytes: &[u8], spot: DataSpot) -> &[u8]
    requires { (spot.size_at + 2 ≤ spot.end) × (spot.end ≤ length bytes.now) }
    ensures { result.now ≡ data_at spot.size_at spot.end bytes.now }
{
    let data_start = spot.size_at + SIZE_LEN;
    let (_, there) = bytes.split_at(data_start);
    let (data, _) = there.split_at(spot.end - data_start);
    data
}
