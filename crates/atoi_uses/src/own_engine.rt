//! Digits of our own, for numbers in EBCDIC, the character code of mainframes.
ghost use Rattle.std.specs.Prelude.{◌≡◌, ◌≤◌, true, false, IfOk, length};
ghost use Rattle.std.proofs.Common.{arith};
ghost use Rattle.std.proofs.lemmas.Bool.Decides.{nat_tests};
ghost use Rattle.atoi_core.specs.Answer.{typed_prefix_answer, prefix_answer};
ghost use Rattle.atoi_core.specs.IntType.{i64_type};
ghost use Rattle.atoi_uses.specs.OwnEngine.{ebcdic_table};

use crate::cents::Cents;
use atoi_core::{Alphabet, Steps, prefix_pos};
use atoi_simd::AtoiSimdError;

/// The alphabet of EBCDIC: its digits are the bytes `0xF0` to `0xF9`.
pub struct Ebcdic;

impl Alphabet for Ebcdic {
    ghost table = { ebcdic_table };

    fn digit_value(byte: u8) -> Option<u64> {
        match byte {
            0xF0..=0xF9 => Some(u64::from(byte - 0xF0)),
            _ => None,
        }
    }

    ghost below_ten = { λ byte. Prim.grind (arith, nat_tests) };
}

/// Reads the amount in cents that `field` begins with: EBCDIC digits without a sign, with any number of
/// leading zeros. Returns it, and the length of its digits in bytes.
///
/// # Errors
///
/// Returns the errors that `atoi_simd::parse_prefix_pos::<i64, true>` would return for ASCII
/// digits.
pub fn amount(field: &[u8]) -> Result<(Cents, usize), AtoiSimdError<'_>>
    ensures answer { typed_prefix_answer (λ amount. amount.0) result
        ≡ prefix_answer ebcdic_table i64_type false true field.now }
    ensures within { IfOk result (λ found. found.1 ≤ length field.now) }
{
    prefix_pos::<Ebcdic, Cents>(true, field, &mut Steps::new())
}
