//! Reads pairs to the end of a text.
ghost use Rattle.std.specs.Prelude.{◌≡◌, ◌≢◌, ◌<◌, ◌++◌, ◌+ℤ◌, ℤ, List, ℕ, [], length, codes, FitsSigned, IfOk, IfErr, IfSome, IfNone};
ghost use Rattle.std.specs.Int.{w64};
ghost use Rattle.atoi_formats.specs.Formats.{IsNumber};
ghost use Rattle.atoi_simd.specs.IntType.{i64_type};
ghost use Rattle.atoi_uses.specs.Pairs.{HavePairs, IsPair};

use atoi_formats::number_then;

/// Adds up the numbers of pairs such as `key=12;key=-7;`. Each may have a sign and leading zeros.
///
/// # Errors
///
/// Returns the total so far and the rest of `text`, if no pair follows, or one that would take the
/// total out of range.
#[tactic(auto, using(crate::specs::Pairs::no_pair, crate::specs::Pairs::one_more))]
pub fn total_of_pairs(text: &[u8]) -> Result<i64, (i64, &[u8])>
    ensures total { IfOk result (λ total. HavePairs text.now total []) }
    ensures read { IfErr result (λ left. HavePairs text.now left.0 left.1.now) }
    ensures more { IfErr result (λ left. left.1.now ≢ []) }
    ensures stops { IfErr result (λ left. (number : ℤ) (others : List ℕ)
        → IsPair left.1.now number others → ¬ FitsSigned w64 (left.0 +ℤ number)) }
{
    let mut rest = text;
    let mut total = 0i64;
    while !rest.is_empty() {
        let Some((number, after_pair)) = pair(rest) else {
            return Err((total, rest));
        };
        let Some(sum) = total.checked_add(number) else {
            return Err((total, rest));
        };
        total = sum;
        rest = after_pair;
    }
    Ok(total)
}

// Reads the pair that `text` begins with. Returns its number, and what follows the pair.
fn pair(text: &[u8]) -> Option<(i64, &[u8])>
    ensures some { IfSome result (λ found. IsPair text.now found.0 found.1.now) }
    ensures only { IfSome result (λ found. (number : ℤ) (bytes rest : List ℕ)
        → IsNumber i64_type bytes number → text.now ≡ codes "key=" ++ (bytes ++ (codes ";" ++ rest))
        → number ≡ found.0) }
    ensures none { IfNone result ((number : ℤ) (bytes rest : List ℕ)
        → IsNumber i64_type bytes number
        → ¬ (text.now ≡ codes "key=" ++ (bytes ++ (codes ";" ++ rest)))) }
    ensures shorter { IfSome result (λ found. length found.1.now < length text.now) }
{
    let rest = text.strip_prefix(b"key=")?;
    number_then::<i64>(rest, b';')
}
