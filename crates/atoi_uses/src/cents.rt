//! A type of our own that the parsers can return.
ghost use Rattle.std.specs.Prelude.{true, refl};
ghost use Rattle.atoi_core.specs.IntType.{i64_type};

use atoi_core::{Number, Signed};
use atoi_simd::{AtoiSimdError, ParseNeg};

/// An amount of money in cents.
#[derive(Clone, Copy, Debug, PartialEq, Eq)]
pub struct Cents(pub i64);

impl Number for Cents {
    const BITS: u32 = 64;

    ghost BITS = { 64 };

    const SIGNED: bool = true;

    ghost SIGNED = { true };

    const GREATEST: u128 = 9223372036854775807;

    ghost GREATEST = { 9223372036854775807 };

    ghost int_type = { i64_type };

    ghost number = { λ amount. amount.0 };

    fn parts(self) -> (bool, u128) {
        self.0.parts()
    }

    fn from_parts(minus: bool, magnitude: u128) -> Cents {
        Cents(i64::from_parts(minus, magnitude))
    }

    ghost type_is = { record { bits_are = refl; sign_is = refl; greatest_is = refl; sized = record { bits = refl; greatest = refl } } };
}

impl Signed for Cents {
    const LEAST_MAGNITUDE: u128 = 9223372036854775808;

    ghost LEAST_MAGNITUDE = { 9223372036854775808 };

    ghost signed = { (refl, refl) };
}

impl ParseNeg for Cents {
    fn atoi_simd_parse_neg(s: &[u8], skip_zeroes: bool) -> Result<Cents, AtoiSimdError<'_>> {
        match i64::atoi_simd_parse_neg(s, skip_zeroes) {
            Ok(amount) => Ok(Cents(amount)),
            Err(error) => Err(error),
        }
    }

    fn atoi_simd_parse_prefix_neg(
        s: &[u8],
        skip_zeroes: bool,
    ) -> Result<(Cents, usize), AtoiSimdError<'_>> {
        match i64::atoi_simd_parse_prefix_neg(s, skip_zeroes) {
            Ok((amount, len)) => Ok((Cents(amount), len)),
            Err(error) => Err(error),
        }
    }
}
