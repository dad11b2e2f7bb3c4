//! A text that is one number.
ghost use Rattle.std.specs.Prelude.{◌≡◌, ℤ, IfSome, IfNone};
ghost use Rattle.atoi_formats.specs.Formats.{IsNumber};

use atoi_simd::laws::one_number;
use atoi_simd::{Parse, parse};

/// Parses all of `text` as a number: an optional sign, then one or more digits. A `-` is accepted
/// if `T` is signed, and leading zeros are.
///
/// Returns `None` for every other text, and for a number out of the range of `T`.
///
/// ```
/// use torkettle::formats::number;
///
/// assert_eq!(number::<i16>(b"-0042"), Some(-42));
/// assert_eq!(number::<u16>(b"+7"), Some(7));
/// assert_eq!(number::<u16>(b"65536"), None);
/// assert_eq!(number::<u16>(b"7 "), None);
/// ```
///
/// See the [guide](crate::guide#read-other-formats).
///
/// **Proved:** the result is the number that `text` spells, or `None` if and only if `text` spells no
/// number in range (see the
/// [specification](crate::specification#formats-formatsantt-in-atoi_formats)).
#[inline]
#[tactic(auto, unfolding(crate::specs::Formats::IsNumber))]
pub fn number<T: Parse>(text: &[u8]) -> Option<T>
    ensures some { IfSome result (λ number. IsNumber T.int_type text.now (T.number number)) }
    ensures only { IfSome result (λ found. (number : ℤ) → IsNumber T.int_type text.now number
        → number ≡ T.number found) }
    ensures none { IfNone result ((number : ℤ) → ¬ IsNumber T.int_type text.now number) }
{
    one_number::<T>();
    parse::<T, true, true>(text).ok()
}
