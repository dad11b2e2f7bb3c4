//! Vectors of 16 bytes: loaded, counted and summed.
ghost use Rattle.std.specs.Prelude.{◌≡◌, ◌≤◌, take};
ghost use Rattle.atoi_core.specs.Digit.{decimal_table};
ghost use Rattle.atoi_core.specs.Run.{run_len, zeros, value};
ghost use Rattle.atoi_core.specs.Lanes.{padded_start};

use std::simd::prelude::*;

// The values of sixteen decimal places, the highest first, and then zeros for lanes after a run.
const PLACE_VALUES: [u64; 32] = [
    1_000_000_000_000_000,
    100_000_000_000_000,
    10_000_000_000_000,
    1_000_000_000_000,
    100_000_000_000,
    10_000_000_000,
    1_000_000_000,
    100_000_000,
    10_000_000,
    1_000_000,
    100_000,
    10_000,
    1_000,
    100,
    10,
    1,
    0,
    0,
    0,
    0,
    0,
    0,
    0,
    0,
    0,
    0,
    0,
    0,
    0,
    0,
    0,
    0,
];

/// Returns the first 16 bytes of `s`, the first in the first lane. A missing byte is 0.
pub fn load_lanes(s: &[u8]) -> u8x16
    ensures { result ≡ padded_start 16 s.now }
{
    u8x16::from_array(first_bytes(s))
}

/// Returns how many digits (48 to 57) the lanes begin with.
pub fn len_lanes(v: u8x16) -> u32
    ensures len { result ≡ run_len decimal_table v }
    ensures most { result ≤ 16 }
{
    let digits = v.simd_ge(u8x16::splat(b'0')) & v.simd_le(u8x16::splat(b'9'));
    digits.to_bitmask().trailing_ones()
}

/// Returns how many zeros (48) the lanes begin with.
pub fn zeroes_lanes(v: u8x16) -> u32
    ensures zeroes { result ≡ zeros decimal_table v }
    ensures most { result ≤ 16 }
{
    v.simd_eq(u8x16::splat(b'0')).to_bitmask().trailing_ones()
}

/// Returns the number that the first `len` lanes spell, which are digits.
pub fn sum_lanes(v: u8x16, len: u32) -> u64
    requires within { len ≤ 16 }
    requires digits { len ≤ run_len decimal_table v }
    ensures { result ≡ value decimal_table (take len v) }
{
    let digit_values = (v - u8x16::splat(b'0')).cast::<u64>();
    let place_values = u64x16::from_slice(&PLACE_VALUES[16 - len as usize..]);
    (digit_values * place_values).reduce_sum()
}

// Returns the first `N` bytes of `s`. A missing byte is 0.
pub(crate) fn first_bytes<const N: usize>(s: &[u8]) -> [u8; N]
    ensures { result ≡ padded_start N s.now }
{
    match s.first_chunk::<N>() {
        Some(bytes) => *bytes,
        None => {
            let mut bytes = [0; N];
            bytes[..s.len()].copy_from_slice(s);
            bytes
        }
    }
}
