//! Parsers of integers of at most 32 bits, whose last window decides the answer.
ghost use Rattle.std.specs.Prelude.{◌≡◌, ◌+◌, ◌-◌, ◌<◌, ◌≤◌, ◌==◌, true, false, not, ◌&&◌, ◌||◌, nat_lt, if◌then◌else◌, Ok, Err, length, take, drop};
ghost use Rattle.atoi_core.specs.Loads.{ClassLoads, LoadsWithin, most_loads};
ghost use Rattle.atoi_core.specs.Magnitude.{narrow, whole_magnitude, prefix_magnitude};
ghost use Rattle.atoi_core.specs.Refusal.{answer_of, empty, overflow};
ghost use Rattle.atoi_core.specs.Run.{run_len};
ghost use Rattle.atoi_core.specs.Reading.{window_of, decision};

use crate::after_zeros::window_after_zeros;
use crate::engine::Engine;
use crate::engine::steps::Steps;
use crate::engine::window::Window;
use crate::error::AtoiSimdError;

/// Parses the digits at the start of `s`, and returns their value, at most `bound`, and their number.
/// The errors are `Empty`, `Size(17, s)` for more than 16 digits without `skip`, and `Overflow`, whose
/// slice `AtoiSimdError` describes.
#[inline(always)]
#[tactic(auto, using(crate::proofs::lemmas::LoopAnswers::narrow_size))]
pub fn narrow_prefix<'a, E: Engine>(
    bound: u64,
    skip: bool,
    s: &'a [u8],
    steps: &mut Steps,
) -> Result<(u64, usize), AtoiSimdError<'a>>
    requires low { 9 ≤ bound }
    requires high { bound ≤ 4294967295 }
    ensures answer { answer_of result ≡ prefix_magnitude E.table narrow bound 0 skip s.now }
    ensures loads { ClassLoads E.table narrow skip s.now steps.old steps.new }
    ensures unskipped { skip ≡ false → steps.new ≡ steps.old
        + (if nat_lt (run_len E.table s.now) 16 then 1 else 2) }
{
    let window = E::window(s, steps);
    if window.len == 0 {
        Err(AtoiSimdError::Empty)
    } else if skip && window.zeroes > 0 {
        narrow_prefix_after_zeros::<E>(bound, window.zeroes, s, steps)
    } else if window.len == 16 && is_too_long::<E>(skip, s, steps) {
        Err(AtoiSimdError::Size(17, s))
    } else {
        answer_at(bound, 0, window, s)
    }
}

// Whether a digit follows the first 16, unless zeros are skipped.
#[tactic(auto, using(crate::proofs::lemmas::LoopAnswers::digit_after_16))]
fn is_too_long<E: Engine>(skip: bool, s: &[u8], steps: &mut Steps) -> bool
    requires full { run_len E.table (take 16 s.now) ≡ 16 }
    ensures answer { result ≡ (not skip && nat_lt 16 (run_len E.table s.now)) }
    ensures loads { steps.new ≡ steps.old + (if skip then 0 else 1) }
{
    !skip && E::window_8(&s[16..], steps).len > 0
}

/// Parses all of `s` as digits, and returns their value, at most `bound`. The errors are `Empty`,
/// `Overflow` and `Invalid64`.
#[inline(never)]
pub fn narrow_whole_windows<'a, E: Engine>(
    bound: u64,
    s: &'a [u8],
    steps: &mut Steps,
) -> Result<u64, AtoiSimdError<'a>>
    requires low { 9 ≤ bound }
    requires high { bound ≤ 4294967295 }
    ensures answer { answer_of result ≡ whole_magnitude E.table narrow bound 0 false s.now }
    ensures loads { ClassLoads E.table narrow true s.now steps.old steps.new }
{
    let window = E::window(s, steps);
    if window.zeroes > 0 {
        return narrow_whole_after_zeros::<E>(bound, window.zeroes, s, steps);
    }
    let len = window.len as usize;
    narrow_answer(bound, len, len == s.len(), window.number, s)
}

// `narrow_whole_windows`, after a first window that reported zeros.
#[inline(never)]
fn narrow_whole_after_zeros<'a, E: Engine>(
    bound: u64,
    zeroes: u32,
    s: &'a [u8],
    steps: &mut Steps,
) -> Result<u64, AtoiSimdError<'a>>
    requires high { bound ≤ 4294967295 }
    requires some { 0 < zeroes }
    requires first_window { zeroes ≡ (window_of E.table 16 s.now).zeroes }
    ensures answer { answer_of result ≡ whole_magnitude E.table narrow bound 0 false s.now }
    ensures loads { LoadsWithin (most_loads E.table narrow s.now - 1) E.table true s.now
        steps.old steps.new }
{
    let (at, last) = window_after_zeros::<E>(zeroes, s, steps);
    let len = at + last.len as usize;
    narrow_answer(bound, len, len == s.len(), last.number, s)
}

/// The answer for all of `s`, of which `len` digits spell `number`, and `is_whole` says that these are all
/// bytes. The errors are `Empty`, `Overflow` and `Invalid64`.
pub fn narrow_answer(
    bound: u64,
    len: usize,
    is_whole: bool,
    number: u64,
    s: &[u8],
) -> Result<u64, AtoiSimdError<'_>>
    requires { is_whole ≡ (len == length s.now) }
    ensures { answer_of result ≡ decision narrow bound len number s.now }
{
    if !is_whole {
        let number = within_bound(bound, len, number, s)?;
        return Err(AtoiSimdError::Invalid64(number, len, s));
    }
    within_bound(bound, len, number, s)
}

fn within_bound(bound: u64, len: usize, number: u64, s: &[u8]) -> Result<u64, AtoiSimdError<'_>>
    ensures { answer_of result ≡ (if len == 0 then Err empty
        else if nat_lt bound number then Err (overflow s.now) else Ok number) }
{
    if len == 0 {
        Err(AtoiSimdError::Empty)
    } else if number > bound {
        Err(AtoiSimdError::Overflow(s))
    } else {
        Ok(number)
    }
}

// `narrow_prefix` with `skip`, after a first window that reported zeros.
#[inline(never)]
fn narrow_prefix_after_zeros<'a, E: Engine>(
    bound: u64,
    zeroes: u32,
    s: &'a [u8],
    steps: &mut Steps,
) -> Result<(u64, usize), AtoiSimdError<'a>>
    requires high { bound ≤ 4294967295 }
    requires some { 0 < zeroes }
    requires first_window { zeroes ≡ (window_of E.table 16 s.now).zeroes }
    ensures answer { answer_of result ≡ prefix_magnitude E.table narrow bound 0 true s.now }
    ensures loads { LoadsWithin (most_loads E.table narrow s.now - 1) E.table true s.now
        steps.old steps.new }
{
    let (at, window) = window_after_zeros::<E>(zeroes, s, steps);
    answer_at(bound, at, window, s)
}

fn answer_at(
    bound: u64,
    at: usize,
    window: Window,
    s: &[u8],
) -> Result<(u64, usize), AtoiSimdError<'_>>
    requires { at ≤ length s.now }
    ensures { answer_of result
        ≡ (if nat_lt bound window.number then Err (overflow (drop at s.now))
        else Ok (window.number, at + window.len)) }
{
    if window.number > bound {
        Err(AtoiSimdError::Overflow(&s[at..]))
    } else {
        Ok((window.number, at + window.len as usize))
    }
}
