//! Parses that read one byte after another. C++ calls them in constant expressions, and Rust does not.
ghost use Rattle.std.specs.Prelude.{◌≡◌, ◌+◌, ◌*◌, ◌≤◌, ◌<◌, nat_lt, ◌&&◌, if◌then◌else◌, Ok, Some, None, IfSome, IfNone, IsErr, true, false};
ghost use Rattle.atoi_core.specs.Answer.{parse_answer, parse_prefix_answer};
ghost use Rattle.atoi_core.specs.Digit.{decimal_table};
ghost use Rattle.atoi_core.specs.IntType.{limit_of};
ghost use Rattle.atoi_core.specs.Run.{run, run_len, value};

use atoi_core::{Number, greatest_magnitude, take_sign};

/// Returns the number at the start of `s` and its length, which a prefix parse returns that skips zeros and takes no
/// plus, or `None` for each of its errors.
#[inline(always)]
pub fn prefix_by_digits<T: Number>(s: &[u8]) -> Option<(T, usize)>
    ensures some { IfSome result (λ found. Ok (T.number found.0, found.1)
        ≡ parse_prefix_answer T.int_type true false s.now) }
    ensures none { IfNone result (IsErr (parse_prefix_answer T.int_type true false s.now)) }
{
    let (minus, body) = take_sign(T::SIGNED, false, s);
    let (magnitude, len) = magnitude_by_digits(greatest_magnitude::<T>(minus), body)?;
    Some((
        T::from_parts(minus, magnitude),
        len + (s.len() - body.len()),
    ))
}

/// Returns the number that a whole parse of `s` returns, or `None` for each of its errors.
#[inline(always)]
pub fn whole_by_digits<T: Number>(skip: bool, skip_plus: bool, s: &[u8]) -> Option<T>
    ensures some { IfSome result (λ number. Ok (T.number number) ≡ parse_answer T.int_type skip skip_plus s.now) }
    ensures none { IfNone result (IsErr (parse_answer T.int_type skip skip_plus s.now)) }
{
    let (minus, body) = take_sign(T::SIGNED, skip_plus, s);
    let (magnitude, len) = magnitude_by_digits(greatest_magnitude::<T>(minus), body)?;
    if len != body.len() {
        return None;
    }
    if !skip && is_above_limit::<T>(len) {
        return None;
    }
    Some(T::from_parts(minus, magnitude))
}

// Returns the value of the digits at the start of `s`, and how many there are, unless there is no digit or the
// value is above `bound`.
#[inline(always)]
fn magnitude_by_digits(bound: u128, s: &[u8]) -> Option<(u128, usize)>
    ensures some { IfSome result (λ found. (0 < found.1) × (found.1 ≡ run_len decimal_table s.now)
        × (found.0 ≡ value decimal_table (run decimal_table s.now)) × (found.0 ≤ bound)) }
    ensures none { IfNone result (0 < run_len decimal_table s.now
        → bound < value decimal_table (run decimal_table s.now)) }
{
    let mut number = 0;
    let mut len = 0;
    while len < s.len() && s[len].is_ascii_digit() {
        number = append_digit(bound, number, s[len] - b'0')?;
        len += 1;
    }
    if len == 0 { None } else { Some((number, len)) }
}

// Returns the value of the digits of `number` and one more digit, unless that is above `bound`.
#[inline(always)]
fn append_digit(bound: u128, number: u128, digit: u8) -> Option<u128>
    ensures { result ≡ (if nat_lt bound (number * 10 + digit) then None else Some (number * 10 + digit)) }
{
    let number = number.checked_mul(10)?.checked_add(u128::from(digit))?;
    if number > bound { None } else { Some(number) }
}

// Says whether so many digits are too many for a wide type, unless zeros are skipped.
#[inline(always)]
fn is_above_limit<T: Number>(len: usize) -> bool
    ensures { result ≡ (nat_lt 32 T.int_type.bits && nat_lt (limit_of T.int_type) len) }
{
    let limit = match (T::BITS, T::SIGNED) {
        (64, true) => 19,
        (64, false) => 20,
        _ => 39,
    };
    T::BITS > 32 && len > limit
}
