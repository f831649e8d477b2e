//! The marks of networks.

ghost use Rattle.std.specs.Prelude.{◌≡◌, ◌≤◌, ◌*◌, ◌/◌, length, take};
ghost use Rattle.lb_masks.specs.Marks.{mark_at, weighed, weights};

use crate::bits::{OCTET_BITS, kept_octet};

/// What an octet of a network counts for, by its place: odd numbers as good as random.
const WEIGHTS: [u64; 16] = [
    0x9e37_79b9_7f4a_7c15,
    0xbf58_476d_1ce4_e5b9,
    0x94d0_49bb_1331_11eb,
    0xd6e8_feb8_6659_fd93,
    0xa076_1d64_78bd_642f,
    0xe703_7ed1_a0b4_28db,
    0x8ebc_6af0_9c88_c6e3,
    0x5899_65cc_7537_4cc3,
    0x1d8e_4e27_c47d_124f,
    0xeb44_acca_b455_d165,
    0xc2b2_ae3d_27d4_eb4f,
    0x1656_67b1_9e37_79f9,
    0x2545_f491_4f6c_dd1d,
    0xda94_2042_e4dd_58b5,
    0xff51_afd7_ed55_8ccd,
    0xc4ce_b9fe_1a85_ec53,
];

/// What the sum of a network is multiplied by, so that each bit of it may tell in the high octet.
const FACTOR: u64 = 0x9fb2_1c65_1e98_df25;

/// The sum of octets, each as often as it counts at its place.
fn weigh(octets: &[u8]) -> u64
    requires { length octets.now ≤ 16 }
    ensures { result ≡ weighed 0 octets.now weights }
{
    let mut sum = 0u64;
    for place in 0..octets.len() {
        sum = sum.wrapping_add(u64::from(octets[place]).wrapping_mul(WEIGHTS[place]));
    }
    sum
}

/// The mark of a network, its first so many bits: a number below 256 that few others have. Bits past them do not tell.
pub(crate) fn mark_at(octets: &[u8], count: u8) -> u8
    requires within { count ≤ 8 * length octets.now }
    requires few { length octets.now ≤ 16 }
    ensures { result ≡ mark_at count octets.now }
{
    let (whole, others) = octets.split_at(usize::from(count) / OCTET_BITS);
    let last = match others.first() {
        Some(octet) => kept_octet(*octet, usize::from(count) % OCTET_BITS),
        None => 0,
    };
    let sum = weigh(whole).wrapping_add(u64::from(last));
    (sum.wrapping_mul(FACTOR) >> 56) as u8
}
