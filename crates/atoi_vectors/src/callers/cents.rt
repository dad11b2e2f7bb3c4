//! Tests of `Cents`, an integer type that is defined outside of the library, with the functions of
//! `atoi_simd` for negative numbers.

use crate::checks::gives;
use atoi_simd::{parse_neg, parse_prefix_neg};
use atoi_uses::Cents;

#[test]
fn the_functions_of_negative_numbers_answer_cents(rt: HostRuntime) {
    gives(&rt, parse_neg::<Cents, false>(b"2345"), Ok(Cents(-2345)));
    gives(
        &rt,
        parse_prefix_neg::<Cents, false>(b"12a"),
        Ok((Cents(-12), 2)),
    );
}
