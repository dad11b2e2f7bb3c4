//! A number of JSON without a fraction and an exponent.
ghost use Rattle.std.specs.Prelude.{◌≡◌, ◌++◌, ◌∷◌, ℕ, ℤ, Bool, List, IfSome, IfNone, IsFalse};
ghost use Rattle.atoi_core.specs.Laws.{zero_byte};
ghost use Rattle.atoi_formats.specs.Formats.{IsJsonInteger, HasJsonInteger, goes_on, minus_if};

use crate::expected_byte::strip_byte;
use atoi_core::take_sign;
use atoi_simd::laws::{decimal_texts, prefixes_and_rests};
use atoi_simd::{Number, Parse, parse_prefix};

/// Reads the number that `text` begins with, as JSON writes integers: an optional minus, then `0`, or
/// digits of which the first is not `0`. Returns the number, and what follows it.
///
/// Returns `None` if `text` does not begin with such a number in the range of `T`, or if a digit, `.`,
/// `e` or `E` follows it. `-0` is in the range of every type.
///
/// ```
/// use torkettle::formats::json_integer;
///
/// assert_eq!(json_integer::<i32>(b"-12, 7]"), Some((-12, &b", 7]"[..])));
/// assert_eq!(json_integer::<u8>(b"-0"), Some((0, &b""[..])));
/// assert_eq!(json_integer::<i32>(b"007"), None);
/// assert_eq!(json_integer::<i32>(b"1.5"), None);
/// assert_eq!(json_integer::<i32>(b"1e3"), None);
/// assert_eq!(json_integer::<u8>(b"256"), None);
/// ```
///
/// See the [guide](crate::guide#read-other-formats).
///
/// **Proved:** the result is the only number and rest that fit, or `None` if and only if no number in
/// range fits (see the [specification](crate::specification#formats-formatsantt-in-atoi_formats)).
#[inline]
pub fn json_integer<T: Parse>(text: &[u8]) -> Option<(T, &[u8])>
    ensures some { IfSome result (λ found.
        HasJsonInteger T.int_type text.now (T.number found.0) found.1.now) }
    ensures only { IfSome result (λ found. (number : ℤ) (bytes rest : List ℕ)
        → IsJsonInteger T.int_type bytes number → IsFalse (goes_on rest) → text.now ≡ bytes ++ rest
        → (number ≡ T.number found.0) × (rest ≡ found.1.now)) }
    ensures none { IfNone result ((number : ℤ) (bytes rest : List ℕ)
        → IsJsonInteger T.int_type bytes number → IsFalse (goes_on rest)
        → ¬ (text.now ≡ bytes ++ rest)) }
{
    let (number, rest) = number_and_rest::<T>(text)?;
    if goes_on(rest) {
        None
    } else {
        Some((number, rest))
    }
}

// Returns the number that `text` begins with, and what follows it, which may go on with the number.
fn number_and_rest<T: Parse>(text: &[u8]) -> Option<(T, &[u8])>
    ensures some { IfSome result (λ found. (bytes : List ℕ)
        × (IsJsonInteger T.int_type bytes (T.number found.0) × (text.now ≡ bytes ++ found.1.now))) }
    ensures only { IfSome result (λ found. (number : ℤ) (bytes rest : List ℕ)
        → IsJsonInteger T.int_type bytes number → IsFalse (goes_on rest) → text.now ≡ bytes ++ rest
        → (number ≡ T.number found.0) × (rest ≡ found.1.now)) }
    ensures none { IfNone result ((number : ℤ) (bytes rest : List ℕ)
        → IsJsonInteger T.int_type bytes number → IsFalse (goes_on rest)
        → ¬ (text.now ≡ bytes ++ rest)) }
{
    decimal_texts::<T>();
    prefixes_and_rests::<T>();
    if let Some(rest) = after_zero(text) {
        return Some((T::from_pos(0), rest));
    }
    let (number, count) = parse_prefix::<T, true, false>(text).ok()?;
    let (_, rest) = text.split_at(count);
    Some((number, rest))
}

// Returns what follows a `0` or `-0` at the start of `text`.
fn after_zero(text: &[u8]) -> Option<&[u8]>
    ensures some { IfSome result (λ rest. (is_negative : Bool)
        × (text.now ≡ minus_if is_negative ++ zero_byte ∷ rest.now)) }
    ensures none { IfNone result ((is_negative : Bool) (rest : List ℕ)
        → ¬ (text.now ≡ minus_if is_negative ++ zero_byte ∷ rest)) }
{
    let (_, body) = take_sign(true, false, text);
    strip_byte(body, b'0')
}

// Says whether `rest` begins with a digit, a fraction or an exponent.
fn goes_on(rest: &[u8]) -> bool
    ensures { result ≡ goes_on rest.now }
{
    matches!(rest, [b'0'..=b'9' | b'.' | b'e' | b'E', ..])
}
