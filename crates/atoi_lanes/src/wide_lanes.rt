//! The parsers of 64- and 128-bit integers, which read windows of 32 bytes.
ghost use Rattle.std.specs.Prelude.{◌≡◌, ◌+◌, ◌*◌, ◌/◌, ◌≤◌, min, true, false};
ghost use Rattle.atoi_core.specs.Digit.{decimal_table};
ghost use Rattle.atoi_core.specs.Loads.{LoadsWithin};
ghost use Rattle.atoi_core.specs.Magnitude.{HasDigits, IsBound64, wide64, wide128, prefix_magnitude};
ghost use Rattle.atoi_core.specs.Refusal.{answer_of};
ghost use Rattle.atoi_core.specs.Run.{run_len, zeros};
ghost use Rattle.atoi_lanes.specs.Lanes.{ReadsAfterZeros};

use crate::lanes::Lanes;
use crate::window_32::{Window32, window_32};
use atoi_core::wide_answer::{answer_64, answer_128, found_or_empty};
use atoi_core::{AtoiSimdError, Engine, Steps};

/// Parses like `Engine::prefix_64`, by one load of 32 bytes and, with `skip`, one per 32 zeros.
pub fn prefix_64_lanes<'a>(
    bound: u64,
    limit: u32,
    skip: bool,
    s: &'a [u8],
    steps: &mut Steps,
) -> Result<(u64, usize), AtoiSimdError<'a>>
    requires bound { IsBound64 limit bound }
    ensures answer { answer_of result ≡ prefix_magnitude decimal_table wide64 bound limit skip s.now }
    ensures loads { LoadsWithin (zeros decimal_table s.now / 32 + 2) decimal_table skip s.now
        steps.old steps.new }
    ensures unskipped { skip ≡ false → steps.new ≤ steps.old + 1 }
{
    let (at, window) = skip_by_32(skip, s, steps);
    let zeroes = if skip { window.zeroes } else { 0 };
    let skipped = at + zeroes as usize;
    answer_64(bound, limit, skipped, window.len - zeroes, window.number, s)
}

/// Parses like `Engine::prefix_128`, by the loads of `prefix_64_lanes` and one more of 8 bytes.
pub fn prefix_128_lanes<'a>(
    bound: u128,
    skip: bool,
    s: &'a [u8],
    steps: &mut Steps,
) -> Result<(u128, usize), AtoiSimdError<'a>>
    requires digits { HasDigits 39 bound }
    ensures answer { answer_of result ≡ prefix_magnitude decimal_table wide128 bound 39 skip s.now }
    ensures loads { LoadsWithin (zeros decimal_table s.now / 32 + 3) decimal_table skip s.now
        steps.old steps.new }
    ensures unskipped { skip ≡ false → steps.new ≤ steps.old + 2 }
{
    let (at, high) = skip_by_32(skip, s, steps);
    if high.len < 32 {
        return found_or_empty(high.number, at + high.len as usize);
    }
    let low = Lanes::window_8(&s[at + 32..], steps);
    answer_128(bound, at, high.number, low.len, low.number, s)
}

// Skips the zeros of full windows if `skip`. Returns the last window's offset and that window.
fn skip_by_32(skip: bool, s: &[u8], steps: &mut Steps) -> (usize, Window32)
    ensures reached { ReadsAfterZeros skip s.now result.0 result.1 }
    ensures offset { skip ≡ true
        → result.0 ≡ min (zeros decimal_table s.now) (run_len decimal_table s.now / 32 * 32) }
    ensures loads { steps.new ≡ steps.old + (result.0 + 31) / 32 + 1 }
{
    let mut at = 0;
    let mut window = window_32(s, steps);
    while skip && window.len == 32 && window.zeroes > 0 {
        at += window.zeroes as usize;
        window = window_32(&s[at..], steps);
    }
    (at, window)
}
