//! Reads durations.
ghost use Rattle.std.specs.Prelude.{◌≡◌, ◌<◌, ◌^◌, ◌≤◌, ◌++◌, ◌∷◌, ℕ, List, length, min, IfOk, IfErr, IfSome, IfNone, MatchOption};
ghost use Rattle.std.specs.Str.Parse.{IsNumeral};
ghost use Rattle.atoi_core.specs.Digit.{decimal_table};
ghost use Rattle.atoi_core.specs.Run.{run_len};
ghost use Rattle.atoi_uses.specs.Durations.{AreLeadingDigits, HasParts, IsDuration, IsNoDuration, capped, total_of};

use atoi_core::laws::none_or_too_large;
use atoi_formats::strip_byte;
use atoi_simd::parse_prefix_pos;

/// Why a text is no duration.
#[derive(Clone, Copy, Debug, PartialEq, Eq)]
pub enum DurationError {
    /// It is not hours, minutes and seconds, each with its unit.
    NoDuration,
    /// It has more than `u64::MAX` seconds.
    TooLarge,
}

/// Returns the seconds of a duration such as `1h30m15s`. Each number may have any number of digits.
pub fn duration(text: &[u8]) -> Result<u64, DurationError>
    ensures seconds { IfOk result (λ seconds. IsDuration text.now seconds) }
    ensures refused { IfErr result (λ error. IsNoDuration text.now error) }
{
    let Some(total) = capped_total(text) else {
        return Err(DurationError::NoDuration);
    };
    match u64::try_from(total) {
        Ok(seconds) => Ok(seconds),
        Err(_) => Err(DurationError::TooLarge),
    }
}

// Returns the seconds of a duration. If they are 2^64 or more, the result may be another number from
// 2^64 on.
fn capped_total(text: &[u8]) -> Option<u128>
    ensures some { IfSome result (λ total. (hours minutes seconds : List ℕ)
        × (HasParts text.now hours minutes seconds
        × (min total (2 ^ 64) ≡ min (total_of hours minutes seconds) (2 ^ 64)))) }
    ensures none { IfNone result ((hours minutes seconds : List ℕ)
        → ¬ HasParts text.now hours minutes seconds) }
{
    let Some((hours, after_hours)) = part(text, b'h') else {
        return None;
    };
    let Some((minutes, after_minutes)) = part(after_hours, b'm') else {
        return None;
    };
    match part(after_minutes, b's') {
        Some((seconds, [])) => Some(hours * 3600 + minutes * 60 + seconds),
        _ => None,
    }
}

// Returns the number that `text` begins with, but at most 2^64, and what follows the unit after it.
fn part(text: &[u8], unit: u8) -> Option<(u128, &[u8])>
    requires { 57 < unit }
    ensures some { IfSome result (λ found. (digits : List ℕ)
        × (IsNumeral 10 digits × ((text.now ≡ digits ++ unit ∷ found.1.now) × (found.0 ≡ capped digits)))) }
    ensures only { (digits rest : List ℕ) → IsNumeral 10 digits → text.now ≡ digits ++ unit ∷ rest
        → MatchOption result ⊥ (λ found. (found.0 ≡ capped digits) × (found.1.now ≡ rest)) }
{
    none_or_too_large::<u64>();
    let (number, count) = capped_number(text);
    let (_, tail) = text.split_at(count);
    match strip_byte(tail, unit) {
        Some(rest) if count > 0 => Some((number, rest)),
        _ => None,
    }
}

// Returns the number that `text` begins with, but at most 2^64, and the length of its digits.
fn capped_number(text: &[u8]) -> (u128, usize)
    ensures within { result.1 ≤ length text.now }
    ensures digits { AreLeadingDigits text.now result.0 result.1 }
{
    none_or_too_large::<u64>();
    match parse_prefix_pos::<u64, true>(text) {
        Ok((number, count)) => (u128::from(number), count),
        Err(_) => match leading_digits(text) {
            0 => (0, 0),
            count => (1 << 64, count),
        },
    }
}

fn leading_digits(text: &[u8]) -> usize
    ensures { result ≡ run_len decimal_table text.now }
{
    text.iter().take_while(|byte| byte.is_ascii_digit()).count()
}
