//! A number exactly as `{}` prints it.
ghost use Rattle.std.specs.Prelude.{◌≡◌, ◌++◌, ◌∷◌, ℕ, ℤ, List, IfSome, IfNone, IsFalse};
ghost use Rattle.atoi_core.specs.Digit.{decimal_table, is_digit};
ghost use Rattle.atoi_core.specs.Text.{BeginsWithDigit, IsNumberThen};
ghost use Rattle.atoi_formats.specs.Formats.{HasCanonical, IsCanonical, has_needless_byte};

use crate::expected_byte::strip_byte;
use atoi_simd::laws::{decimal_texts, one_number, prefixes_and_rests};
use atoi_simd::{Parse, parse, parse_prefix};

/// Parses all of `text` as a number that is written as `{}` prints it: without a plus, a needless
/// leading zero or a minus before zero.
///
/// Returns `None` for every other text, and for a number out of the range of `T`.
///
/// ```
/// use torkettle::formats::canonical;
///
/// assert_eq!(canonical::<i8>(b"-100"), Some(-100));
/// assert_eq!(canonical::<i8>(b"0"), Some(0));
/// assert_eq!(canonical::<i8>(b"007"), None);
/// assert_eq!(canonical::<i8>(b"+7"), None);
/// assert_eq!(canonical::<i8>(b"-0"), None);
/// ```
///
/// See the [guide](crate::guide#read-other-formats).
///
/// **Proved:** the result is the number that `{}` prints so, or `None` if and only if no number in
/// range is printed so (see the
/// [specification](crate::specification#formats-formatsantt-in-atoi_formats)).
#[inline]
#[tactic(auto, unfolding(crate::specs::Formats::IsCanonical))]
pub fn canonical<T: Parse>(text: &[u8]) -> Option<T>
    ensures some { IfSome result (λ number. IsCanonical T.int_type text.now (T.number number)) }
    ensures only { IfSome result (λ found. (number : ℤ) → IsCanonical T.int_type text.now number
        → number ≡ T.number found) }
    ensures none { IfNone result ((number : ℤ) → ¬ IsCanonical T.int_type text.now number) }
{
    decimal_texts::<T>();
    one_number::<T>();
    let number = parse::<T, true, false>(text).ok()?;
    if has_needless_byte(text) {
        None
    } else {
        Some(number)
    }
}

/// Reads the number that `text` begins with, as [`canonical`] does. Returns the number, and what follows
/// it, which does not begin with a digit.
///
/// Returns `None` if `text` does not begin with such a number in the range of `T`.
///
/// ```
/// use torkettle::formats::canonical_prefix;
///
/// assert_eq!(canonical_prefix::<u64>(b"3-rc.1"), Some((3, &b"-rc.1"[..])));
/// assert_eq!(canonical_prefix::<i8>(b"-100"), Some((-100, &b""[..])));
/// assert_eq!(canonical_prefix::<u64>(b"03-rc.1"), None);
/// assert_eq!(canonical_prefix::<u8>(b"256"), None);
/// ```
///
/// **Proved:** all results are [as specified](crate::specification#formats-formatsantt-in-atoi_formats).
///
/// See the [guide](crate::guide#read-other-formats).
#[inline]
#[tactic(auto, unfolding(crate::specs::Formats::IsCanonical))]
pub fn canonical_prefix<T: Parse>(text: &[u8]) -> Option<(T, &[u8])>
    ensures some { IfSome result (λ found.
        HasCanonical T.int_type text.now (T.number found.0) found.1.now) }
    ensures only { IfSome result (λ found. (number : ℤ) (bytes rest : List ℕ)
        → IsCanonical T.int_type bytes number → ¬ BeginsWithDigit rest → text.now ≡ bytes ++ rest
        → (number ≡ T.number found.0) × (rest ≡ found.1.now)) }
    ensures none { IfNone result ((number : ℤ) (bytes rest : List ℕ)
        → IsCanonical T.int_type bytes number → ¬ BeginsWithDigit rest
        → ¬ (text.now ≡ bytes ++ rest)) }
{
    decimal_texts::<T>();
    prefixes_and_rests::<T>();
    let (number, count) = parse_prefix::<T, true, false>(text).ok()?;
    let (bytes, rest) = text.split_at(count);
    if has_needless_byte(bytes) {
        None
    } else {
        Some((number, rest))
    }
}

/// Reads the number that `text` begins with, as [`canonical`] does, and the `byte` after it, which must
/// not be a digit. Returns the number, and what follows the byte.
///
/// Returns `None` if `text` does not begin with such a number in the range of `T` and the byte.
///
/// ```
/// use torkettle::formats::canonical_then;
///
/// assert_eq!(canonical_then::<u8>(b"192.168", b'.'), Some((192, &b"168"[..])));
/// assert_eq!(canonical_then::<u8>(b"01.2", b'.'), None);
/// ```
///
/// See the [guide](crate::guide#read-other-formats).
///
/// **Proved:** the result is the only number and rest that fit, or `None` if and only if no number in
/// range fits (see the [specification](crate::specification#formats-formatsantt-in-atoi_formats)).
///
/// # Panics
///
/// In Rust, if `byte` is a digit.
#[inline]
#[tactic(auto, unfolding(crate::specs::Formats::IsCanonical))]
pub fn canonical_then<T: Parse>(text: &[u8], byte: u8) -> Option<(T, &[u8])>
    requires { IsFalse (is_digit decimal_table byte) }
    ensures some { IfSome result (λ found.
        IsNumberThen (IsCanonical T.int_type) text.now (T.number found.0) byte found.1.now) }
    ensures only { IfSome result (λ found. (number : ℤ) (bytes rest : List ℕ)
        → IsCanonical T.int_type bytes number → text.now ≡ bytes ++ byte ∷ rest
        → (number ≡ T.number found.0) × (rest ≡ found.1.now)) }
    ensures none { IfNone result ((number : ℤ) (bytes rest : List ℕ)
        → IsCanonical T.int_type bytes number → ¬ (text.now ≡ bytes ++ byte ∷ rest)) }
{
    let (number, tail) = canonical_prefix::<T>(text)?;
    Some((number, strip_byte(tail, byte)?))
}

// Says whether a zero or a minus could be left out of `bytes`.
fn has_needless_byte(bytes: &[u8]) -> bool
    ensures { result ≡ has_needless_byte bytes.now }
{
    matches!(bytes, [b'0', _, ..] | [b'-', b'0', ..])
}
