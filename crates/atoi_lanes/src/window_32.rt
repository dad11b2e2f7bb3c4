//! Windows of 32 bytes, in one vector.
ghost use Rattle.std.specs.Prelude.{◌≡◌, ◌+◌};
ghost use Rattle.atoi_core.specs.Digit.{decimal_table};
ghost use Rattle.atoi_core.specs.Reading.{Reading};

use crate::kernels::{first_bytes, sum_lanes};
use atoi_core::Steps;
use atoi_core::powers::append_digits;
use std::simd::prelude::*;

/// What one load reports about the first 32 bytes of a slice, or about all if there are fewer.
#[derive(Clone, Copy)]
pub(crate) struct Window32 {
    /// How many digits the bytes begin with.
    pub(crate) len: u32,
    /// How many zeros the bytes begin with.
    pub(crate) zeroes: u32,
    pub(crate) number: u128,
}

pub(crate) fn window_32(s: &[u8], steps: &mut Steps) -> Window32
    ensures reading { Reading decimal_table 32 s.now result.len result.zeroes result.number }
    ensures one_step { steps.new ≡ steps.old + 1 }
{
    steps.tick();
    let lanes = u8x32::from_array(first_bytes(s));
    let digits = lanes.simd_ge(u8x32::splat(b'0')) & lanes.simd_le(u8x32::splat(b'9'));
    let len = digits.to_bitmask().trailing_ones();
    let more = len.saturating_sub(16);
    let high = sum_lanes(lanes.extract::<0, 16>(), len - more);
    let low = sum_lanes(lanes.extract::<16, 16>(), more);
    Window32 {
        len,
        zeroes: lanes
            .simd_eq(u8x32::splat(b'0'))
            .to_bitmask()
            .trailing_ones(),
        number: append_digits(high, more, low),
    }
}
