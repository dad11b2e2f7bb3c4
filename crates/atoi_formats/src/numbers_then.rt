//! A number and the byte after it, which says where the number ends.
ghost use Rattle.std.specs.Prelude.{◌≡◌, ◌++◌, ◌∷◌, ℕ, ℤ, List, false, IfSome, IfNone, IsFalse};
ghost use Rattle.atoi_core.specs.Digit.{decimal_table, is_digit};
ghost use Rattle.atoi_core.specs.Text.{DigitsWrite, IsNumberThen};
ghost use Rattle.atoi_formats.specs.Formats.{IsNumber};

use crate::expected_byte::strip_byte;
use atoi_simd::laws::number_then_byte;
use atoi_simd::{Parse, parse_prefix, parse_prefix_pos};

/// Reads the number that `text` begins with, as [`number`](crate::formats::number) does, and the `byte`
/// after it, which must not be a digit. Returns the number, and what follows the byte.
///
/// Returns `None` if `text` does not begin with a number in the range of `T` and the byte.
///
/// ```
/// use torkettle::formats::number_then;
///
/// assert_eq!(number_then::<i32>(b"-3,40", b','), Some((-3, &b"40"[..])));
/// assert_eq!(number_then::<i32>(b"-3;40", b','), None);
/// assert_eq!(number_then::<i32>(b"-3", b','), None);
/// ```
///
/// See the [guide](crate::guide#read-other-formats).
///
/// **Proved:** the result is the only number and rest that fit, or `None` if and only if no number in
/// range fits (see the [specification](crate::specification#formats-formatsantt-in-atoi_formats)).
///
/// # Panics
///
/// In Rust, if `byte` is a digit.
#[inline]
#[tactic(auto, unfolding(crate::specs::Formats::IsNumber))]
pub fn number_then<T: Parse>(text: &[u8], byte: u8) -> Option<(T, &[u8])>
    requires { IsFalse (is_digit decimal_table byte) }
    ensures some { IfSome result (λ found.
        IsNumberThen (IsNumber T.int_type) text.now (T.number found.0) byte found.1.now) }
    ensures only { IfSome result (λ found. (number : ℤ) (bytes rest : List ℕ)
        → IsNumber T.int_type bytes number → text.now ≡ bytes ++ byte ∷ rest
        → (number ≡ T.number found.0) × (rest ≡ found.1.now)) }
    ensures none { IfNone result ((number : ℤ) (bytes rest : List ℕ)
        → IsNumber T.int_type bytes number → ¬ (text.now ≡ bytes ++ byte ∷ rest)) }
{
    number_then_byte::<T>();
    let (number, count) = parse_prefix::<T, true, true>(text).ok()?;
    let (_, tail) = text.split_at(count);
    Some((number, strip_byte(tail, byte)?))
}

/// Like [`number_then`], for digits without a sign.
///
/// ```
/// use torkettle::formats::digits_then;
///
/// assert_eq!(digits_then::<u32>(b"1.22.333", b'.'), Some((1, &b"22.333"[..])));
/// assert_eq!(digits_then::<u32>(b"+1.22", b'.'), None);
/// ```
///
/// See the [guide](crate::guide#read-other-formats).
///
/// **Proved:** the result is the only number and rest that fit, or `None` if and only if no number in
/// range fits (see the [specification](crate::specification#formats-formatsantt-in-atoi_formats)).
///
/// # Panics
///
/// In Rust, if `byte` is a digit.
#[inline]
pub fn digits_then<T: Parse>(text: &[u8], byte: u8) -> Option<(T, &[u8])>
    requires { IsFalse (is_digit decimal_table byte) }
    ensures some { IfSome result (λ found.
        IsNumberThen (DigitsWrite T.int_type false) text.now (T.number found.0) byte found.1.now) }
    ensures only { IfSome result (λ found. (number : ℤ) (digits rest : List ℕ)
        → DigitsWrite T.int_type false digits number → text.now ≡ digits ++ byte ∷ rest
        → (number ≡ T.number found.0) × (rest ≡ found.1.now)) }
    ensures none { IfNone result ((number : ℤ) (digits rest : List ℕ)
        → DigitsWrite T.int_type false digits number → ¬ (text.now ≡ digits ++ byte ∷ rest)) }
{
    number_then_byte::<T>();
    let (number, count) = parse_prefix_pos::<T, true>(text).ok()?;
    let (_, tail) = text.split_at(count);
    Some((number, strip_byte(tail, byte)?))
}
