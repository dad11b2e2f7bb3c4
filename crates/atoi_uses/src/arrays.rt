//! Adds up an array of JSON.
ghost use Rattle.std.specs.Prelude.{ℕ, ℤ, List, IfSome, IfNone};
ghost use Rattle.atoi_uses.specs.Arrays.{HasTotal, IsArray};

use atoi_formats::{json_integer, strip_byte};

/// Adds up the array that `text` begins with, such as `[12, -0, 7]`: integers in the range of `i64`, as
/// JSON writes them, with a comma and a space between them. Returns the total, and what follows the array.
///
/// Returns `None` if `text` begins with no such array, for example with `[1,2]` or `[01]`.
#[tactic(auto, using(crate::specs::Arrays::empty, crate::specs::Arrays::filled))]
pub fn total_of_array(text: &[u8]) -> Option<(i128, &[u8])>
    ensures some { IfSome result (λ found. IsArray text.now found.0 found.1.now) }
    ensures none { IfNone result ((total : ℤ) (rest : List ℕ) → ¬ IsArray text.now total rest) }
{
    let numbers = strip_byte(text, b'[')?;
    match strip_byte(numbers, b']') {
        Some(rest) => Some((0, rest)),
        None => total_to_end(numbers),
    }
}

// Adds up one number or more, up to the end of an array.
fn total_to_end(text: &[u8]) -> Option<(i128, &[u8])>
    ensures some { IfSome result (λ found. HasTotal text.now found.0 found.1.now) }
    ensures none { IfNone result ((total : ℤ) (rest : List ℕ) → ¬ HasTotal text.now total rest) }
{
    let mut left = text;
    let mut total = 0i128;
    loop {
        let (number, tail) = json_integer::<i64>(left)?;
        total += i128::from(number);
        if let Some(rest) = strip_byte(tail, b']') {
            return Some((total, rest));
        }
        left = strip_byte(strip_byte(tail, b',')?, b' ')?;
    }
}
