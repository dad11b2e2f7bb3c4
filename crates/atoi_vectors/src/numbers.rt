//! The constants and the ends of the twelve types, compared with std.

use crate::checks::gives;
use atoi_core::{Number, Signed};

// Each row is a type of std and its largest value. In `signed!` the magnitude of its smallest value
// follows.
macro_rules! unsigned {
    ($rt:expr; $($integer:ident, $largest:expr;)*) => {
        $(
            let constants = (<$integer as Number>::BITS, $integer::SIGNED, $integer::GREATEST);
            gives(&$rt, constants, ($integer::BITS, false, $largest));
            gives(&$rt, $integer::from_pos($largest), $integer::MAX);
            gives(&$rt, $integer::MAX.parts(), (false, $largest));
            gives(&$rt, $integer::MIN.parts(), (false, 0));
        )*
    };
}

macro_rules! signed {
    ($rt:expr; $($integer:ident, $largest:expr, $smallest:expr;)*) => {
        $(
            let constants = (<$integer as Number>::BITS, $integer::SIGNED, $integer::GREATEST);
            gives(&$rt, constants, ($integer::BITS, true, $largest));
            gives(&$rt, $integer::LEAST_MAGNITUDE, $smallest);
            gives(&$rt, $integer::from_pos($largest), $integer::MAX);
            gives(&$rt, $integer::from_neg($smallest), $integer::MIN);
            gives(&$rt, $integer::MAX.parts(), (false, $largest));
            gives(&$rt, $integer::MIN.parts(), (true, $smallest));
        )*
    };
}

#[test]
fn of_the_unsigned_types(rt: HostRuntime) {
    unsigned!(rt;
        u8, 255;
        u16, 65535;
        u32, 4294967295;
        u64, 18446744073709551615;
        usize, 18446744073709551615;
        u128, 340282366920938463463374607431768211455;
    );
}

#[test]
fn of_the_signed_types(rt: HostRuntime) {
    signed!(rt;
        i8, 127, 128;
        i16, 32767, 32768;
        i32, 2147483647, 2147483648;
        i64, 9223372036854775807, 9223372036854775808;
        isize, 9223372036854775807, 9223372036854775808;
        i128, 170141183460469231731687303715884105727, 170141183460469231731687303715884105728;
    );
}

#[test]
fn small_magnitudes_after_a_minus(rt: HostRuntime) {
    gives(&rt, i128::from_neg(1), -1);
    gives(&rt, i128::from_neg(0).parts(), (false, 0));
}
