//! Reads a signed number and what follows it.
ghost use Rattle.std.specs.Prelude.{◌≡◌, ℕ, true, IfOk, IfErr, Ok, Err, drop};
ghost use Rattle.atoi_core.specs.Answer.{parse_prefix_answer};
ghost use Rattle.atoi_core.specs.IntType.{i64_type};
ghost use Rattle.atoi_core.specs.Refusal.{refusal_of};

use atoi_simd::{AtoiSimdError, parse_prefix};

/// Reads the number that `text` begins with, which may have a sign and leading zeros. Returns it,
/// and what follows it.
///
/// # Errors
///
/// Returns the errors of `atoi_simd::parse_prefix::<i64, true, true>`.
pub fn number_and_rest(text: &[u8]) -> Result<(i64, &[u8]), AtoiSimdError<'_>>
    ensures some { IfOk result (λ found. (count : ℕ)
        × (parse_prefix_answer i64_type true true text.now ≡ Ok (found.0, count))
        × (found.1.now ≡ drop count text.now)) }
    ensures refused { IfErr result (λ error.
        parse_prefix_answer i64_type true true text.now ≡ Err (refusal_of error)) }
{
    let (number, count) = parse_prefix::<i64, true, true>(text)?;
    Ok((number, &text[count..]))
}
