//! Tests of the reader of a number and its rest.

use crate::checks::gives;
use atoi_simd::AtoiSimdError;
use atoi_uses::number_and_rest;

#[test]
fn a_number_and_its_rest(rt: HostRuntime) {
    gives(&rt, number_and_rest(b"+12px"), Ok((12, b"px".as_slice())));
    gives(&rt, number_and_rest(b"-x"), Err(AtoiSimdError::Empty));
}
