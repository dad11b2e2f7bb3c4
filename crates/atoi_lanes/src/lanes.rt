//! The engine `Lanes`, which reads 16 bytes at once into the lanes of a vector.
ghost use Rattle.std.specs.Prelude.{◌≡◌};
ghost use Rattle.std.proofs.Common.{arith};
ghost use Rattle.std.proofs.lemmas.Bool.Decides.{nat_tests};
ghost use Rattle.atoi_core.specs.Digit.{decimal_table};
ghost use Rattle.atoi_core.specs.Lanes.{lane_window};

use crate::kernels::{len_lanes, load_lanes, sum_lanes, zeroes_lanes};
use crate::wide_lanes::{prefix_64_lanes, prefix_128_lanes};
use atoi_core::{AtoiSimdError, Engine, Steps, Window};
use std::simd::prelude::*;

/// The engine of vectors, for the digits `b'0'` to `b'9'`. In `prefix_64` and `prefix_128`, it reads 32
/// bytes at once.
pub struct Lanes;

// Returns the window of `size` bytes from lanes that hold at most these, and 0 after them.
fn lane_window(lanes: u8x16, size: u32) -> Window
    ensures { result ≡ lane_window size lanes }
{
    let len = len_lanes(lanes);
    Window {
        len,
        zeroes: if len == size { zeroes_lanes(lanes) } else { 0 },
        number: sum_lanes(lanes, len),
    }
}

impl Engine for Lanes {
    ghost table = { decimal_table };

    #[tactic(auto, using(atoi_core::proofs::lemmas::LaneWindows::window_of_lanes))]
    fn window(s: &[u8], steps: &mut Steps) -> Window {
        steps.tick();
        lane_window(load_lanes(s), 16)
    }

    #[tactic(auto, using(atoi_core::proofs::lemmas::LaneWindows::window_of_half))]
    fn window_8(s: &[u8], steps: &mut Steps) -> Window {
        steps.tick();
        lane_window(load_lanes(&s[..s.len().min(8)]), 8)
    }

    fn prefix_64<'a>(
        bound: u64,
        limit: u32,
        skip: bool,
        s: &'a [u8],
        steps: &mut Steps,
    ) -> Result<(u64, usize), AtoiSimdError<'a>> {
        prefix_64_lanes(bound, limit, skip, s, steps)
    }

    fn prefix_128<'a>(
        bound: u128,
        skip: bool,
        s: &'a [u8],
        steps: &mut Steps,
    ) -> Result<(u128, usize), AtoiSimdError<'a>> {
        prefix_128_lanes(bound, skip, s, steps)
    }

    ghost below_ten = { λ byte. Prim.grind (arith, nat_tests) };
}
