//! Whole slices of few bytes, whose sign is read together with the digits.
ghost use Rattle.std.specs.Prelude.{◌≡◌, ◌+◌, ◌<◌, ◌≤◌, IfSome, length, get_or, true};
ghost use Rattle.atoi_fast.specs.Short.{IsNumber};

use crate::digits::{leading_digits, leading_digits_flipped, sum_of, value_of};
use crate::in_range::{MOST_IN_TWO_WORDS, MOST_IN_WORD, number_in_range};
use crate::loads::{factor_of, load_flipped, load_full, load_last};
use atoi_core::powers::power_of_ten;
use atoi_core::{Number, Steps};

/// Returns the number of one digit.
#[inline(always)]
pub(crate) fn loaded_digit<T: Number>(s: &[u8], steps: &mut Steps) -> T
    requires one { length s.now ≡ 1 }
    requires digit { (48 ≤ get_or s.now 0 0) × (get_or s.now 0 0 ≤ 57) }
    ensures number { IsNumber T.int_type s.now (T.number result) }
    ensures one_step { steps.new ≡ steps.old + 1 }
{
    steps.tick();
    T::from_parts(false, u128::from(s[0] - b'0'))
}

/// `short_slice` for a signed type, which counts its load.
#[inline(always)]
pub(crate) fn short_signed<T: Number>(s: &[u8], steps: &mut Steps) -> Option<T>
    requires signed { T.SIGNED ≡ true }
    requires some { 2 ≤ length s.now }
    requires few { length s.now ≤ 8 }
    ensures number { IfSome result (λ number. IsNumber T.int_type s.now (T.number number)) }
    ensures one_step { steps.new ≡ steps.old + 1 }
{
    steps.tick();
    short_slice(s)
}

/// Returns the number of a slice of 2 to 8 bytes, if all are digits after at most a minus.
#[inline(always)]
pub(crate) fn short_slice<T: Number>(s: &[u8]) -> Option<T>
    requires some { 2 ≤ length s.now }
    requires few { length s.now ≤ 8 }
    ensures { IfSome result (λ number. IsNumber T.int_type s.now (T.number number)) }
{
    let minus = T::SIGNED & (s[0] == b'-');
    // A `-` that is flipped once more is the digit 0, without a branch.
    let flipped = load_flipped(s) ^ factor_of(s.len()).wrapping_mul(0x1D * u64::from(minus));
    if leading_digits_flipped(flipped) != 8 {
        return None;
    }
    number_in_range::<T, T>(MOST_IN_WORD, minus, sum_of(flipped))
}

/// `quick_slice` for 2 to 15 bytes, which counts its load.
#[inline(always)]
pub(crate) fn loaded_slice<T: Number>(s: &[u8], steps: &mut Steps) -> Option<T>
    requires some { 2 ≤ length s.now }
    requires few { length s.now < 16 }
    ensures number { IfSome result (λ number. IsNumber T.int_type s.now (T.number number)) }
    ensures one_step { steps.new ≡ steps.old + 1 }
{
    steps.tick();
    if s.len() <= 8 {
        short_slice(s)
    } else {
        slice_of_two_words(s)
    }
}

/// Returns the number of a slice of 9 to 15 bytes, if all are digits after at most a minus. The last eight overlap
/// the first eight.
#[inline(always)]
pub(crate) fn slice_of_two_words<T: Number>(s: &[u8]) -> Option<T>
    requires enough { 8 < length s.now }
    requires few { length s.now < 16 }
    ensures { IfSome result (λ number. IsNumber T.int_type s.now (T.number number)) }
{
    let word = load_full(s);
    let minus = T::SIGNED & (s[0] == b'-');
    // A `-` plus 3 is a `0`.
    let first = word.wrapping_add(3 * u64::from(minus));
    let last = load_last(s);
    if leading_digits(first) != 8 || leading_digits(last) != 8 {
        return None;
    }
    let high = value_of(first, s.len() as u32 - 8);
    let magnitude = high * power_of_ten(8) + value_of(last, 8);
    number_in_range::<T, T>(MOST_IN_TWO_WORDS, minus, magnitude)
}
