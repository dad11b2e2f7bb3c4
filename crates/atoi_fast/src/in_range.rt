//! The number of a sign and a magnitude that one to three words spell.
ghost use Rattle.std.specs.Prelude.{◌≡◌, ◌≤◌, IfSome, true};
ghost use Rattle.atoi_core.specs.IntType.{bound_of};
ghost use Rattle.atoi_core.specs.Sign.{with_sign};

use atoi_core::Number;

/// No word of digits spells more.
pub(crate) const MOST_IN_WORD: u64 = 1_000_000_000;

/// No two words of digits spell more.
pub(crate) const MOST_IN_TWO_WORDS: u64 = 1_000_000_000_000_000_000;

/// No 19 digits spell more.
pub(crate) const MOST_IN_THREE_WORDS: u64 = 9_999_999_999_999_999_999;

/// Returns the number of this sign and magnitude, if both types have it. The magnitude is at most `most`, a constant: a
/// type that has all numbers up to it needs no other test.
#[inline(always)]
pub(crate) fn number_in_range<T: Number, W: Number>(
    most: u64,
    minus: bool,
    magnitude: u64,
) -> Option<W>
    requires signed { minus ≡ true → W.SIGNED ≡ true }
    requires most { magnitude ≤ most }
    ensures in_range { IfSome result (λ number. magnitude ≤ bound_of T.int_type minus) }
    ensures number { IfSome result (λ number. W.number number ≡ with_sign minus magnitude) }
{
    if is_in_range::<T>(most, minus, magnitude) && is_in_range::<W>(most, minus, magnitude) {
        Some(W::from_parts(minus, u128::from(magnitude)))
    } else {
        None
    }
}

#[inline(always)]
fn is_in_range<T: Number>(most: u64, minus: bool, magnitude: u64) -> bool
    requires most { magnitude ≤ most }
    ensures { result ≡ true → magnitude ≤ bound_of T.int_type minus }
{
    u128::from(most) <= T::GREATEST || magnitude <= T::GREATEST as u64 + u64::from(minus)
}
