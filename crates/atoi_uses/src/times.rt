//! Reads times of day.
ghost use Rattle.std.specs.Prelude.{◌≡◌, ◌≤◌, ◌++◌, ◌∷◌, ℕ, List, length, pos, false, IfSome, IfNone};
ghost use Rattle.atoi_simd.specs.IntType.{u8_type};
ghost use Rattle.atoi_simd.specs.Text.{DigitsWrite};
ghost use Rattle.atoi_uses.specs.Times.{AreBillionths, AreSeconds, HasHour, IsFraction, IsTime};
ghost use Rattle.atoi_uses.specs.declared.times.Time.{Time as TimeValue};

use atoi_formats::{digits_between, fixed_width, strip_byte};

/// A time of day.
#[derive(Clone, Copy, Debug, PartialEq, Eq)]
pub struct Time {
    pub hour: u8,
    pub minute: u8,
    pub second: u8,
    pub nanosecond: u32,
}

/// Parses `text` as a time of day such as `7:30:15.25`: an hour of one or two digits, a minute and a
/// second of two, colons between them, and perhaps a point and one to nine digits of a fraction.
///
/// Returns `None` for every other text, such as `7:30` and `24:00:00`.
pub fn parse_time(text: &[u8]) -> Option<Time>
    ensures some { IfSome result (λ time. IsTime text.now time) }
    ensures none { IfNone result ((any : TimeValue) → ¬ IsTime text.now any) }
{
    let (hour, rest) = hour_and_rest(text)?;
    let (minute, rest) = fixed_width::<u8>(rest, 2)?;
    let rest = strip_byte(rest, b':')?;
    let (second, nanosecond) = second_and_fraction(rest)?;
    if hour < 24 && minute < 60 && second < 60 {
        Some(Time {
            hour,
            minute,
            second,
            nanosecond,
        })
    } else {
        None
    }
}

fn hour_and_rest(text: &[u8]) -> Option<(u8, &[u8])>
    ensures some { IfSome result (λ found. HasHour text.now found.0 found.1.now) }
    ensures only { IfSome result (λ found. (hour : ℕ) (digits rest : List ℕ)
        → DigitsWrite u8_type false digits (pos hour) → length digits ≤ 2
        → text.now ≡ digits ++ 58 ∷ rest → (hour ≡ found.0) × (rest ≡ found.1.now)) }
    ensures none { IfNone result ((hour : ℕ) (digits rest : List ℕ)
        → DigitsWrite u8_type false digits (pos hour) → length digits ≤ 2
        → ¬ (text.now ≡ digits ++ 58 ∷ rest)) }
{
    let Some((hour, rest)) = digits_between::<u8>(text, 1, 2) else {
        return None;
    };
    let Some(rest) = strip_byte(rest, b':') else {
        return None;
    };
    Some((hour, rest))
}

#[tactic(auto, unfolding(crate::specs::Times::AreSeconds))]
fn second_and_fraction(text: &[u8]) -> Option<(u8, u32)>
    ensures some { IfSome result (λ found. AreSeconds text.now found.0 found.1) }
    ensures only { IfSome result (λ found. (second nanosecond : ℕ)
        → AreSeconds text.now second nanosecond → second ≡ found.0) }
    ensures none { IfNone result ((second nanosecond : ℕ) → ¬ AreSeconds text.now second nanosecond) }
{
    let (second, rest) = fixed_width::<u8>(text, 2)?;
    let nanosecond = fraction(rest)?;
    Some((second, nanosecond))
}

// Returns the nanoseconds of a fraction such as `.25`, or 0 for an empty text.
fn fraction(text: &[u8]) -> Option<u32>
    ensures some { IfSome result (λ nanoseconds. IsFraction text.now nanoseconds) }
    ensures none { IfNone result ((any : ℕ) → ¬ IsFraction text.now any) }
{
    match text {
        [] => Some(0),
        [b'.', digits @ ..] => nanoseconds(digits),
        _ => None,
    }
}

// Returns what one to nine digits after a point mean.
fn nanoseconds(digits: &[u8]) -> Option<u32>
    ensures some { IfSome result (λ nanoseconds. AreBillionths digits.now nanoseconds) }
    ensures none { IfNone result ((any : ℕ) → ¬ AreBillionths digits.now any) }
{
    let Some((number, rest)) = digits_between::<u32>(digits, 1, 9) else {
        return None;
    };
    if rest.is_empty() {
        let missing = 9 - digits.len();
        Some(number * 10u32.pow(missing as u32))
    } else {
        None
    }
}
