//! The answer of a prefix of 64 bits after its first sixteen digits, from words of four bytes.
ghost use Rattle.std.specs.Prelude.{◌≡◌, ◌+◌, ◌-◌, ◌^◌, ◌<◌, ◌≤◌, nat_lt, if◌then◌else◌, length, take, drop, false, Ok, Err, MatchOption};
ghost use Rattle.atoi_core.specs.Digit.{decimal_table};
ghost use Rattle.atoi_core.specs.Magnitude.{IsBound64, wide64, prefix_magnitude};
ghost use Rattle.atoi_core.specs.Refusal.{answer_of, overflow};
ghost use Rattle.atoi_core.specs.Run.{run_len, value};

use crate::digits::{
    leading_digits, leading_digits_of_four, starts_with_digit_of_four, value_after, value_up_to_4,
};
use crate::loads::{load_four_from, load_from, load_last_four};
use atoi_core::powers::{append_digits, power_of_ten};
use atoi_core::wide_answer::answer_64;
use atoi_core::{AtoiSimdError, Steps};

/// Returns the answer of `prefix_64` that skips no zeros, after 16 digits, which spell `high`. The
/// errors are `Size` and `Overflow`.
#[inline(always)]
pub(crate) fn answer_after_16<'a>(
    bound: u64,
    limit: u32,
    high: u64,
    s: &'a [u8],
    steps: &mut Steps,
) -> Result<(u64, usize), AtoiSimdError<'a>>
    requires bound { IsBound64 limit bound }
    requires full { 16 ≤ run_len decimal_table s.now }
    requires number { high ≡ value decimal_table (take 16 s.now) }
    ensures answer { answer_of result
        ≡ prefix_magnitude decimal_table wide64 bound limit false s.now }
    ensures one_step { steps.new ≡ steps.old + 1 }
{
    steps.tick();
    // Used once, so that rustc 1.95 chooses the bound by the sign only here.
    let bound = u128::from(bound);
    if s.len() <= limit as usize {
        answer_near_end(bound, limit, high, s)
    } else {
        answer_by_word(bound, limit, high, s)
    }
}

// `answer_after_16` for a slice of at most `limit` bytes, which are mostly digits.
#[inline(always)]
fn answer_near_end<'a>(
    bound: u128,
    limit: u32,
    high: u64,
    s: &'a [u8],
) -> Result<(u64, usize), AtoiSimdError<'a>>
    requires bound { IsBound64 limit bound }
    requires fits { bound < 2 ^ 64 }
    requires few { length s.now ≤ limit }
    requires full { 16 ≤ run_len decimal_table s.now }
    requires number { high ≡ value decimal_table (take 16 s.now) }
    ensures { answer_of result ≡ prefix_magnitude decimal_table wide64 bound limit false s.now }
{
    if s.len() == 16 {
        return Ok((high, 16));
    }
    match last_four(s) {
        Some(low) => {
            let number = append_digits(high, s.len() as u32 - 16, u64::from(low));
            within_bound(bound, s.len(), number, s)
        }
        None => answer_by_word(bound, limit, high, s),
    }
}

// Returns the number that the bytes after the first 16 spell, if the last four are digits.
fn last_four(s: &[u8]) -> Option<u32>
    requires some { 16 < length s.now }
    requires few { length s.now ≤ 20 }
    requires full { 16 ≤ run_len decimal_table s.now }
    ensures { MatchOption result (run_len decimal_table s.now < length s.now)
        (λ low. (run_len decimal_table s.now ≡ length s.now)
        × (low ≡ value decimal_table (drop 16 s.now))) }
{
    let word = load_last_four(s);
    if leading_digits_of_four(word) < 4 {
        return None;
    }
    // Some of these four may be among the first 16.
    Some(value_after(word, 20 - s.len()))
}

fn within_bound(
    bound: u128,
    len: usize,
    number: u128,
    s: &[u8],
) -> Result<(u64, usize), AtoiSimdError<'_>>
    requires fits { bound < 2 ^ 64 }
    ensures { answer_of result ≡ (if nat_lt bound number then Err (overflow s.now)
        else Ok (number, len)) }
{
    if number > bound {
        Err(AtoiSimdError::Overflow(s))
    } else {
        Ok((number as u64, len))
    }
}

// `answer_after_16`, from the four bytes after 16.
#[inline(always)]
fn answer_by_word<'a>(
    bound: u128,
    limit: u32,
    high: u64,
    s: &'a [u8],
) -> Result<(u64, usize), AtoiSimdError<'a>>
    requires some { 16 < length s.now }
    requires bound { IsBound64 limit bound }
    requires fits { bound < 2 ^ 64 }
    requires full { 16 ≤ run_len decimal_table s.now }
    requires number { high ≡ value decimal_table (take 16 s.now) }
    ensures { answer_of result ≡ prefix_magnitude decimal_table wide64 bound limit false s.now }
{
    let word = load_four_from(s, 16);
    if !starts_with_digit_of_four(word) {
        return Ok((high, 16));
    }
    let more = leading_digits_of_four(word);
    if more == 4 {
        let number = append_digits(high, 4, u64::from(value_up_to_4(word, 4)));
        if limit < 20 || starts_with_digit(&s[20..]) {
            let more = leading_digits(load_from(s, 16));
            return Err(AtoiSimdError::Size(16 + more as usize, s));
        }
        return within_bound(bound, 20, number, s);
    }
    // At most 19 digits fit in 64 bits.
    let number = high * power_of_ten(more) + u64::from(value_up_to_4(word, more));
    answer_64(bound as u64, limit, 0, 16 + more, u128::from(number), s)
}

pub(crate) fn starts_with_digit(s: &[u8]) -> bool
    ensures { result ≡ nat_lt 0 (run_len decimal_table s.now) }
{
    matches!(s, [b'0'..=b'9', ..])
}
