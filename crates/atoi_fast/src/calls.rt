//! The parses of `atoi_core::calls` that the package has in their place, tuned for short numbers: one digit
//! comes before the sign, a minus takes no branch, and one window decides fewer than 16 bytes.
ghost use Rattle.std.specs.Prelude.{◌≡◌, ◌+◌, ◌<◌, ◌≤◌, true, false, IfOk, length, drop};
ghost use Rattle.atoi_core.specs.Answer.{typed_answer, typed_prefix_answer, text_answer, text_prefix_answer, whole_answer};
ghost use Rattle.atoi_core.specs.Digit.{decimal_table};
ghost use Rattle.atoi_core.specs.IntType.{class_of, bound_of, limit_of};
ghost use Rattle.atoi_core.specs.Loads.{LoadsWithin, TypedLoads, most_loads, skips_zeros};
ghost use Rattle.atoi_core.specs.Magnitude.{IsBound, whole, prefix, whole_magnitude};
ghost use Rattle.atoi_core.specs.Reading.{decision, window_of};
ghost use Rattle.atoi_core.specs.Refusal.{answer_of};
ghost use Rattle.atoi_core.specs.Sign.{sign_of};

use crate::short_prefix::short_prefix;
use crate::short_slice::{loaded_digit, short_signed};
use crate::sign::{sign_by_branch, take_sign, without_first};
use atoi_core::wide_answer::found_or_empty;
use atoi_core::{
    AtoiSimdError, Engine, Number, Signed, Steps, greatest_magnitude, narrow_answer,
    prefix_with_sign,
};

/// `atoi_core::parse_text` for an engine of decimal digits, with the same clauses.
#[inline(always)]
pub fn parse_text<'a, E: Engine, T: Number>(
    skip: bool,
    skip_plus: bool,
    s: &'a [u8],
    steps: &mut Steps,
) -> Result<T, AtoiSimdError<'a>>
    requires decimal { E.table ≡ decimal_table }
    ensures answer { typed_answer T.number result ≡ text_answer E.table T.int_type skip skip_plus s.now }
    ensures loads { TypedLoads E.table T.int_type whole skip (sign_of T.SIGNED skip_plus s.now).body
        steps.old steps.new }
{
    if s.len() <= 1 {
        return match s {
            [b'0'..=b'9'] => Ok(loaded_digit(s, steps)),
            _ => parse_no_digit::<E, T>(skip, skip_plus, s, steps),
        };
    }
    if T::SIGNED && T::BITS <= 64 && s.len() <= 8 {
        if let Some(number) = short_signed::<T>(s, steps) {
            return Ok(number);
        }
    }
    let (minus, body) = take_sign(T::SIGNED, skip_plus, s);
    whole_with_sign::<E, T>(minus, skip, body, steps)
}

// `parse_text` for at most one byte, which is no digit.
#[cold]
#[inline(never)]
fn parse_no_digit<'a, E: Engine, T: Number>(
    skip: bool,
    skip_plus: bool,
    s: &'a [u8],
    steps: &mut Steps,
) -> Result<T, AtoiSimdError<'a>>
    requires { length s.now ≤ 1 }
    ensures answer { typed_answer T.number result ≡ text_answer E.table T.int_type skip skip_plus s.now }
    ensures loads { TypedLoads E.table T.int_type whole skip (sign_of T.SIGNED skip_plus s.now).body
        steps.old steps.new }
{
    let (minus, body) = take_sign(T::SIGNED, skip_plus, s);
    // Of at most one byte, rustc 1.95 leaves out the parser of longer slices.
    whole_with_sign::<E, T>(minus, skip, &body[..body.len().min(1)], steps)
}

/// `atoi_core::parse_prefix_text`, with at most one load more.
#[inline(always)]
pub fn parse_prefix_text<'a, E: Engine, T: Number>(
    skip: bool,
    skip_plus: bool,
    s: &'a [u8],
    steps: &mut Steps,
) -> Result<(T, usize), AtoiSimdError<'a>>
    requires decimal { E.table ≡ decimal_table }
    ensures answer { typed_prefix_answer T.number result
        ≡ text_prefix_answer E.table T.int_type skip skip_plus s.now }
    ensures within { IfOk result (λ found. found.1 ≤ length s.now) }
    ensures loads { LoadsWithin (most_loads E.table (class_of T.int_type) (sign_of T.SIGNED skip_plus s.now).body + 1)
        E.table (skips_zeros (class_of T.int_type) prefix skip) (sign_of T.SIGNED skip_plus s.now).body
        steps.old steps.new }
    ensures unskipped { T.BITS ≤ 32 → skip ≡ false → steps.new ≤ steps.old + 3 }
{
    let (minus, body) = if s.len() >= 16 {
        if let Some(found) = short_prefix::<T>(s, steps) {
            return Ok(found);
        }
        match s {
            [b'+', ..] if skip_plus => (false, without_first(s)),
            _ if T::SIGNED && T::BITS == 64 => {
                return parse_rare_prefix::<E, T>(skip, skip_plus, s, steps);
            }
            _ => sign_by_branch(T::SIGNED, skip_plus, s),
        }
    } else {
        take_sign(T::SIGNED, skip_plus, s)
    };
    let (number, len) = prefix_with_sign::<E, T>(minus, skip, body, steps)?;
    Ok((number, len + (s.len() - body.len())))
}

// What `short_prefix` leaves of `i64` without a plus: `-0`, over 19 digits, errors.
#[cold]
#[inline(never)]
fn parse_rare_prefix<'a, E: Engine, T: Number>(
    skip: bool,
    skip_plus: bool,
    s: &'a [u8],
    steps: &mut Steps,
) -> Result<(T, usize), AtoiSimdError<'a>>
    ensures answer { typed_prefix_answer T.number result
        ≡ text_prefix_answer E.table T.int_type skip skip_plus s.now }
    ensures loads { TypedLoads E.table T.int_type prefix skip (sign_of T.SIGNED skip_plus s.now).body
        steps.old steps.new }
{
    atoi_core::parse_prefix_text::<E, T>(skip, skip_plus, s, steps)
}

/// `atoi_core::whole_pos`, with the same clauses.
#[inline(always)]
pub fn whole_pos<'a, E: Engine, T: Number>(
    skip: bool,
    s: &'a [u8],
    steps: &mut Steps,
) -> Result<T, AtoiSimdError<'a>>
    ensures answer { typed_answer T.number result ≡ whole_answer E.table T.int_type false skip s.now }
    ensures loads { TypedLoads E.table T.int_type whole skip s.now steps.old steps.new }
{
    whole_with_sign::<E, T>(false, skip, s, steps)
}

/// `atoi_core::whole_neg`, with the same clauses.
#[inline(always)]
pub fn whole_neg<'a, E: Engine, T: Signed>(
    skip: bool,
    s: &'a [u8],
    steps: &mut Steps,
) -> Result<T, AtoiSimdError<'a>>
    ensures answer { typed_answer T.number result ≡ whole_answer E.table T.int_type true skip s.now }
    ensures loads { TypedLoads E.table T.int_type whole skip s.now steps.old steps.new }
{
    whole_with_sign::<E, T>(true, skip, s, steps)
}

#[inline(always)]
#[tactic(auto, using(atoi_core::proofs::lemmas::Calls::whole_in_bounds))]
fn whole_with_sign<'a, E: Engine, T: Number>(
    minus: bool,
    skip: bool,
    s: &'a [u8],
    steps: &mut Steps,
) -> Result<T, AtoiSimdError<'a>>
    requires signed { minus ≡ true → T.SIGNED ≡ true }
    ensures answer { typed_answer T.number result ≡ whole_answer E.table T.int_type minus skip s.now }
    ensures loads { TypedLoads E.table T.int_type whole skip s.now steps.old steps.new }
    ensures one_window { T.BITS ≤ 64 → length s.now < 16 → steps.new ≡ steps.old + 1 }
{
    let magnitude = whole_by_size::<E, T>(minus, skip, s, steps)?;
    Ok(T::from_parts(minus, magnitude))
}

// `atoi_core::whole_by_size`. Of at most 64 bits, one window decides fewer than 16 bytes, and 128 bits need
// a test less without that.
#[inline(always)]
fn whole_by_size<'a, E: Engine, T: Number>(
    minus: bool,
    skip: bool,
    s: &'a [u8],
    steps: &mut Steps,
) -> Result<u128, AtoiSimdError<'a>>
    requires signed { minus ≡ true → T.SIGNED ≡ true }
    ensures answer { answer_of result ≡ whole_magnitude E.table (class_of T.int_type)
        (bound_of T.int_type minus) (limit_of T.int_type) skip s.now }
    ensures loads { TypedLoads E.table T.int_type whole skip s.now steps.old steps.new }
    ensures one_window { T.BITS ≤ 64 → length s.now < 16 → steps.new ≡ steps.old + 1 }
{
    if T::BITS == 128 || s.len() >= 16 {
        return atoi_core::whole_by_size::<E, T>(minus, skip, s, steps);
    }
    whole_short::<E, T>(greatest_magnitude::<T>(minus), s, steps)
}

// Returns the magnitude of fewer than 16 bytes, which one window decides.
#[inline(always)]
fn whole_short<'a, E: Engine, T: Number>(
    bound: u128,
    s: &'a [u8],
    steps: &mut Steps,
) -> Result<u128, AtoiSimdError<'a>>
    requires bound { IsBound T.BITS (limit_of T.int_type) bound }
    requires short { length s.now < 16 }
    ensures answer { answer_of result ≡ decision (class_of T.int_type) bound (window_of E.table 16 s.now).len
        (window_of E.table 16 s.now).number s.now }
    ensures one_step { steps.new ≡ steps.old + 1 }
{
    // Cast as in the engine, so that rustc 1.95 casts once.
    let size = s.len() as u32;
    let window = E::window(s, steps);
    let is_whole = window.len == size;
    let len = window.len as usize;
    if T::BITS <= 32 {
        let number = narrow_answer(bound as u64, len, is_whole, window.number, s)?;
        return Ok(u128::from(number));
    }
    if is_whole && !s.is_empty() {
        return Ok(u128::from(window.number));
    }
    let (number, digits) = found_or_empty(window.number, len)?;
    if T::BITS == 64 {
        Err(AtoiSimdError::Invalid64(number, digits, s))
    } else {
        Err(AtoiSimdError::Invalid128(u128::from(number), digits, s))
    }
}
