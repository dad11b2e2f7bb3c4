//! Tests of an engine that is defined outside of the library, and reads EBCDIC digits.

use crate::checks::gives;
use atoi_simd::AtoiSimdError;
use atoi_uses::{Cents, amount};

#[test]
fn amounts_in_ebcdic(rt: HostRuntime) {
    gives(&rt, amount(b"\xF1\xF2\xF3\xF4\xF5"), Ok((Cents(12345), 5)));
    // A space in EBCDIC is 0x40.
    gives(&rt, amount(b"\xF0\xF0\xF9\x40\x40"), Ok((Cents(9), 3)));
    gives(&rt, amount(b"\xF7\x30\x31"), Ok((Cents(7), 1)));
    gives(
        &rt,
        amount(b"\xF9\xF2\xF2\xF3\xF3\xF7\xF2\xF0\xF3\xF6\xF8\xF5\xF4\xF7\xF7\xF5\xF8\xF0\xF7"),
        Ok((Cents(9223372036854775807), 19)),
    );
}

#[test]
fn leading_zeros_do_not_count(rt: HostRuntime) {
    let zeros = [0xF0; 40];
    gives(&rt, amount(&zeros), Ok((Cents(0), 40)));
    let field = b"\xF0\xF0\xF0\xF0\xF0\xF0\xF0\xF0\xF0\xF0\xF0\xF0\xF0\xF0\xF0\xF0\xF0\xF0\xF4\xF2";
    gives(&rt, amount(field), Ok((Cents(42), 20)));
}

#[test]
fn other_fields_are_refused(rt: HostRuntime) {
    gives(&rt, amount(b""), Err(AtoiSimdError::Empty));
    gives(&rt, amount(b"123"), Err(AtoiSimdError::Empty));
    gives(&rt, amount(b"\xEF\xF1"), Err(AtoiSimdError::Empty));
    gives(&rt, amount(b"\xFA\xF1"), Err(AtoiSimdError::Empty));
    let ones: &[u8] = &[0xF1; 20];
    gives(&rt, amount(ones), Err(AtoiSimdError::Size(20, ones)));
    let nines: &[u8] = &[0xF9; 19];
    gives(&rt, amount(nines), Err(AtoiSimdError::Overflow(nines)));
}
