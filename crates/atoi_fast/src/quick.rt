//! What C reads without the parsers that take flags, as no flag changes the answer.
ghost use Rattle.std.specs.Prelude.{◌≡◌, ◌+◌, ◌≤◌, IfSome, false, get_or, length, pos, take};
ghost use Rattle.atoi_core.specs.Digit.{decimal_table, is_digit};
ghost use Rattle.atoi_core.specs.IntType.{IntType, IsSized};
ghost use Rattle.atoi_core.specs.Run.{value};
ghost use Rattle.atoi_fast.specs.Short.{AreDigits, BeginsWithNumber, EndsBefore, IsNumber};

use crate::in_range::number_in_range;
use crate::short_prefix::{prefix_by_calls, prefix_by_length, prefix_of_words};
use crate::short_slice::{short_slice, slice_of_two_words};
use atoi_core::Number;

/// Returns the number of a slice of one digit, for each type.
#[inline(always)]
pub fn one_digit(s: &[u8]) -> Option<u8>
    ensures { IfSome result (λ digit. (int : IntType) → IsSized int → IsNumber int s.now (pos digit)) }
{
    match s {
        [digit @ b'0'..=b'9'] => Some(*digit - b'0'),
        _ => None,
    }
}

/// Returns the number of a slice of 2 to 15 bytes, if all are digits after at most a minus.
#[inline(always)]
pub fn quick_slice<T: Number>(s: &[u8]) -> Option<T>
    ensures { IfSome result (λ number. IsNumber T.int_type s.now (T.number number)) }
{
    match s.len() {
        2..=8 => short_slice(s),
        9..=15 => slice_of_two_words(s),
        _ => None,
    }
}

/// Returns the number of a slice of at least 16 bytes, if the type has 64 bits and no limit refuses so many digits.
#[inline(always)]
pub fn long_slice<T: Number>(s: &[u8]) -> Option<T>
    ensures { IfSome result (λ number. IsNumber T.int_type s.now (T.number number)) }
{
    if T::BITS != 64 || s.len() < 16 {
        return None;
    }
    let (number, len) = prefix_of_words::<T>(s)?;
    if len == s.len() { Some(number) } else { None }
}

/// Returns the number at the start of a slice and its length, if that is one digit or two, or, in a slice of at least
/// 16 bytes, fewer than 16 bytes. Others may be `None`, too. `W` is `i64` or `u64`.
#[inline(always)]
pub fn quick_prefix<T: Number, W: Number>(s: &[u8]) -> Option<(W, usize)>
    requires word { W.BITS ≡ 64 }
    requires sign { W.SIGNED ≡ T.SIGNED }
    ensures { IfSome result (λ found. BeginsWithNumber T.int_type s.now (W.number found.0) found.1) }
{
    if s.len() >= 16 {
        if !W::SIGNED {
            return prefix_by_length::<T, W>(s);
        }
        if let [_, b'0'..=b'9', b'0'..=b'9', ..] = s {
            return three_or_more::<T, W>(s);
        }
    }
    two_or_less::<T, W>(s)
}

// A number of one digit or two.
#[inline(always)]
fn two_or_less<T: Number, W: Number>(s: &[u8]) -> Option<(W, usize)>
    requires sign { W.SIGNED ≡ T.SIGNED }
    ensures { IfSome result (λ found. BeginsWithNumber T.int_type s.now (W.number found.0) found.1) }
{
    match s {
        [first @ b'0'..=b'9', second, ..] if !second.is_ascii_digit() => {
            Some((W::from_parts(false, u128::from(*first - b'0')), 1))
        }
        [first @ b'0'..=b'9', second @ b'0'..=b'9', third, ..] if !third.is_ascii_digit() => {
            let number = 10 * u64::from(*first - b'0') + u64::from(*second - b'0');
            Some((W::from_parts(false, u128::from(number)), 2))
        }
        [first @ b'0'..=b'9'] => Some((W::from_parts(false, u128::from(*first - b'0')), 1)),
        _ => None,
    }
}

// The second and the third byte are digits.
#[inline(always)]
fn three_or_more<T: Number, W: Number>(s: &[u8]) -> Option<(W, usize)>
    requires enough { 16 ≤ length s.now }
    requires word { W.BITS ≡ 64 }
    requires sign { W.SIGNED ≡ T.SIGNED }
    requires second { (48 ≤ get_or s.now 1 0) × (get_or s.now 1 0 ≤ 57) }
    requires third { (48 ≤ get_or s.now 2 0) × (get_or s.now 2 0 ≤ 57) }
    ensures { IfSome result (λ found. BeginsWithNumber T.int_type s.now (W.number found.0) found.1) }
{
    match s {
        [first, second, third, end, ..] if !end.is_ascii_digit() && first.is_ascii_digit() => {
            let tens = 10 * u64::from(*first - b'0') + u64::from(*second - b'0');
            let number = 10 * tens + u64::from(*third - b'0');
            let number = number_in_range::<T, W>(999, false, number)?;
            Some((number, 3))
        }
        _ => prefix_by_calls::<T, W>(s),
    }
}

/// `quick_prefix` for a number before this separator, also of three digits.
#[inline(always)]
pub fn quick_field<T: Number, W: Number>(s: &[u8], separator: u8) -> Option<(W, usize)>
    requires word { W.BITS ≡ 64 }
    requires sign { W.SIGNED ≡ T.SIGNED }
    ensures number { is_digit decimal_table separator ≡ false
        → IfSome result (λ found. BeginsWithNumber T.int_type s.now (W.number found.0) found.1) }
    ensures separator { IfSome result (λ found. EndsBefore separator s.now found.1) }
{
    match few_digits(s, separator) {
        Some((magnitude, len)) => {
            let number = number_in_range::<T, W>(999, false, magnitude)?;
            Some((number, len))
        }
        None => long_field::<T, W>(s, separator),
    }
}

#[inline(always)]
fn long_field<T: Number, W: Number>(s: &[u8], separator: u8) -> Option<(W, usize)>
    requires word { W.BITS ≡ 64 }
    requires sign { W.SIGNED ≡ T.SIGNED }
    ensures number { IfSome result (λ found. BeginsWithNumber T.int_type s.now (W.number found.0) found.1) }
    ensures separator { IfSome result (λ found. EndsBefore separator s.now found.1) }
{
    if s.len() < 16 {
        return None;
    }
    let (number, len) = prefix_by_calls::<T, W>(s)?;
    if len < s.len() && s[len] == separator {
        Some((number, len))
    } else {
        None
    }
}

// One to three digits before a separator: their value and length.
#[inline(always)]
fn few_digits(s: &[u8], separator: u8) -> Option<(u64, usize)>
    ensures digits { IfSome result (λ found. AreDigits s.now found.1) }
    ensures value { IfSome result (λ found. found.0 ≡ value decimal_table (take found.1 s.now)) }
    ensures most { IfSome result (λ found. found.0 ≤ 999) }
    ensures few { IfSome result (λ found. (1 ≤ found.1) × (found.1 ≤ 3)) }
    ensures separator { IfSome result (λ found. EndsBefore separator s.now found.1) }
{
    match s {
        [first, end, ..] if *end == separator => Some((digit_of(*first)?, 1)),
        [first, second, end, ..] if *end == separator => {
            let tens = digit_of(*first)?;
            Some((10 * tens + digit_of(*second)?, 2))
        }
        [first, second, third, end, ..] if *end == separator => {
            let hundreds = digit_of(*first)?;
            let tens = digit_of(*second)?;
            Some((100 * hundreds + 10 * tens + digit_of(*third)?, 3))
        }
        _ => None,
    }
}

fn digit_of(byte: u8) -> Option<u64>
    ensures { IfSome result (λ digit. (digit ≤ 9) × (byte ≡ digit + 48)) }
{
    match byte {
        b'0'..=b'9' => Some(u64::from(byte - b'0')),
        _ => None,
    }
}
