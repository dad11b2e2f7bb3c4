//! Worked examples of the ten functions, at the root and in `lanes`, and of `take_sign`.

use crate::both;
use crate::checks::gives;
use atoi_core::take_sign;
use atoi_simd::AtoiSimdError::{Empty, Invalid64, Invalid128, Overflow, Size};
use atoi_simd::{Parse, ParseNeg, lanes};

// Each row is a call and its answer.
macro_rules! on_both {
    ($rt:expr; $($call:ident::<$($argument:tt),*>($text:expr) => $answer:expr;)*) => {
        $( gives(&$rt, both::$call::<$($argument),*>(&$rt, $text), $answer); )*
    };
}

#[test]
fn the_examples_of_the_crate(rt: HostRuntime) {
    on_both!(rt;
        parse::<u64, false, false>(b"1234") => Ok(1234);
        parse::<u64, true, true>(b"+000000000000000000001234") => Ok(1234);
        parse_prefix::<u64, true, true>(b"+000000000000000000001234") => Ok((1234, 25));
        parse::<i64, false, false>(b"-2345") => Ok(-2345);
        parse_neg::<i64, false>(b"2345") => Ok(-2345);
        parse_prefix::<u64, false, false>(b"123something_else") => Ok((123, 3));
    );
}

// The other calls that the pages show are in the tests below.
#[test]
fn the_examples_of_the_pages(rt: HostRuntime) {
    on_both!(rt;
        parse::<u16, false, false>(b"8080") => Ok(8080);
        parse_prefix::<i32, true, true>(b"+0042,7") => Ok((42, 5));
        parse::<u128, true, false>(b"0000012x") => Err(Invalid128(12, 7, b"0000012x"));
    );
}

#[test]
fn the_functions_that_take_no_sign(rt: HostRuntime) {
    on_both!(rt;
        parse_pos::<u128, true>(b"0012") => Ok(12);
        parse_neg::<i8, false>(b"128") => Ok(-128);
        parse_neg::<isize, true>(b"007") => Ok(-7);
        parse_prefix_pos::<u16, false>(b"80/tcp") => Ok((80, 2));
        parse_prefix_neg::<i32, false>(b"12a") => Ok((-12, 2));
        parse_any_pos::<u8>(b"255.") => Ok((255, 3));
        parse_any_neg::<i16>(b"1-") => Ok((-1, 1));
    );
}

#[test]
fn each_method_of_the_public_traits(rt: HostRuntime) {
    let root = <i64 as Parse>::atoi_simd_parse(b"-2345", false, false);
    let on_lanes = <i64 as lanes::Parse>::atoi_simd_parse(b"-2345", false, false);
    gives(&rt, both::same(&rt, root, on_lanes), Ok(-2345));
    let root = <i32 as Parse>::atoi_simd_parse_prefix(b"+12a", false, true);
    let on_lanes = <i32 as lanes::Parse>::atoi_simd_parse_prefix(b"+12a", false, true);
    gives(&rt, both::same(&rt, root, on_lanes), Ok((12, 3)));
    let root = <i8 as ParseNeg>::atoi_simd_parse_neg(b"128", false);
    let on_lanes = <i8 as lanes::ParseNeg>::atoi_simd_parse_neg(b"128", false);
    gives(&rt, both::same(&rt, root, on_lanes), Ok(-128));
    let root = <i32 as ParseNeg>::atoi_simd_parse_prefix_neg(b"12a", false);
    let on_lanes = <i32 as lanes::ParseNeg>::atoi_simd_parse_prefix_neg(b"12a", false);
    gives(&rt, both::same(&rt, root, on_lanes), Ok((-12, 2)));
}

#[test]
fn the_ends_of_eight_bits(rt: HostRuntime) {
    on_both!(rt;
        parse::<u8, false, false>(b"256x") => Err(Overflow(b"256x"));
        parse::<u8, false, false>(b"255x") => Err(Invalid64(255, 3, b"255x"));
        parse::<u8, false, false>(b"12a") => Err(Invalid64(12, 2, b"12a"));
        parse::<i8, false, false>(b"-128") => Ok(-128);
        parse::<i8, false, false>(b"-129") => Err(Overflow(b"129"));
    );
}

#[test]
fn zeros_before_a_prefix_of_eight_bits(rt: HostRuntime) {
    let seven = b"00000000000000007";
    let above = b"00000000000000255999";
    let cut = b"0000000000000999x";
    let short = b"000000000000999x";
    on_both!(rt;
        parse_prefix::<u8, true, false>(seven) => Ok((7, 17));
        parse_prefix::<u8, true, false>(b"0000000000000000") => Ok((0, 16));
        parse_prefix::<u8, true, false>(above) => Err(Overflow(b"255999"));
        parse_prefix::<u8, true, false>(cut) => Err(Overflow(b"999x"));
        parse_prefix::<u8, true, false>(short) => Err(Overflow(short));
    );
}

#[test]
fn a_narrow_prefix_of_more_than_16_digits(rt: HostRuntime) {
    let seven = b"00000000000000007";
    let above = b"00000000000000255999";
    let ones = b"11111111111111111";
    let zeros = b"-00000000000000000";
    on_both!(rt;
        parse_prefix::<u8, false, false>(seven) => Err(Size(17, seven));
        parse_prefix::<u8, false, false>(above) => Err(Size(17, above));
        parse_prefix::<u8, false, false>(b"0000000000000000x") => Ok((0, 16));
        parse_prefix::<u32, false, false>(ones) => Err(Size(17, ones));
        parse_prefix::<u32, false, false>(&ones[1..]) => Err(Overflow(&ones[1..]));
        parse_prefix::<i32, false, false>(b"-0000000000000007x") => Ok((-7, 17));
        parse_prefix::<i8, false, false>(zeros) => Err(Size(17, &zeros[1..]));
    );
}

#[test]
fn zeros_before_64_bits(rt: HostRuntime) {
    let zeros = b"000000000000000000000";
    let greatest = b"09223372036854775807";
    let ones = b"1111111111111111111111111";
    let padded = b"0001111111111111111111111111";
    on_both!(rt;
        parse::<u64, false, false>(zeros) => Err(Size(21, zeros));
        parse::<u64, true, false>(zeros) => Ok(0);
        parse_prefix::<u64, true, false>(zeros) => Ok((0, 21));
        parse::<i64, false, false>(greatest) => Err(Size(20, greatest));
        parse::<i64, true, false>(greatest) => Ok(i64::MAX);
        parse_prefix::<u64, true, false>(padded) => Err(Size(27, ones));
    );
}

#[test]
fn a_byte_that_is_no_digit_after_zeros(rt: HostRuntime) {
    let short = b"007x";
    let long = b"0000000000000000000000007x";
    on_both!(rt;
        parse::<u64, true, false>(short) => Err(Invalid64(7, 3, short));
        parse::<u64, true, false>(long) => Err(Invalid64(7, 25, long));
    );
}

#[test]
fn the_ends_of_64_bits(rt: HostRuntime) {
    let greatest = b"18446744073709551615";
    let above = b"18446744073709551616";
    let least = b"9223372036854775808";
    let cut = b"9223372036854775808x";
    let ones = b"11111111111111111111111111111111x";
    on_both!(rt;
        parse::<u64, false, false>(greatest) => Ok(u64::MAX);
        parse::<u64, false, false>(above) => Err(Overflow(above));
        parse_neg::<i64, false>(cut) => Err(Invalid64(9223372036854775808, 19, cut));
        parse_neg::<i64, false>(least) => Ok(i64::MIN);
        parse_prefix::<u64, false, false>(ones) => Err(Size(24, ones));
    );
}

#[test]
fn the_ends_of_128_bits(rt: HostRuntime) {
    let greatest = b"340282366920938463463374607431768211455";
    let above = b"340282366920938463463374607431768211456";
    let least = b"170141183460469231731687303715884105728,";
    let zeros = b"00000000000000000000000000000000000000000";
    on_both!(rt;
        parse::<u128, false, false>(greatest) => Ok(u128::MAX);
        parse::<u128, false, false>(above) => Err(Overflow(above));
        parse_any_neg::<i128>(least) => Ok((i128::MIN, 39));
        parse::<i128, false, false>(&greatest[..38]) => Ok(34028236692093846346337460743176821145);
        parse::<u128, false, false>(&zeros[..39]) => Ok(0);
        parse::<u128, false, false>(zeros) => Err(Size(40, zeros));
    );
}

#[test]
fn runs_of_32_and_33_digits(rt: HostRuntime) {
    let digits = b"12345678901234567890123456789012";
    let one_more = b"123456789012345678901234567890123";
    let cut = b"12345678901234567890123456789012s";
    on_both!(rt;
        parse_prefix_pos::<u128, true>(cut) => Ok((12345678901234567890123456789012, 32));
        parse_pos::<u128, true>(digits) => Ok(12345678901234567890123456789012);
        parse_pos::<u128, true>(one_more) => Ok(123456789012345678901234567890123);
    );
}

#[test]
fn runs_that_pass_32_bytes_with_their_zeros(rt: HostRuntime) {
    on_both!(rt;
        parse_prefix::<u64, true, false>(b"00000000000018446744073709551615") => Ok((u64::MAX, 32));
        parse_prefix::<u64, true, false>(b"000000000000018446744073709551615") => Ok((u64::MAX, 33));
        parse_prefix::<u64, true, false>(b"00000000000018446744073709551616")
            => Err(Overflow(b"18446744073709551616"));
        parse_prefix::<i64, true, false>(b"0000000000000000000000000000000000000000000000000000000000000000")
            => Ok((0, 64));
    );
}

#[test]
fn runs_of_forty_digits(rt: HostRuntime) {
    on_both!(rt;
        parse::<u128, false, false>(b"0340282366920938463463374607431768211455")
            => Err(Size(40, b"0340282366920938463463374607431768211455"));
        parse::<u128, true, false>(b"0340282366920938463463374607431768211455") => Ok(u128::MAX);
        parse_prefix::<u128, true, false>(b"00999999999999999999999999999999999999999x")
            => Err(Overflow(b"999999999999999999999999999999999999999x"));
    );
}

#[test]
fn a_consumed_sign_is_counted(rt: HostRuntime) {
    on_both!(rt;
        parse_prefix::<i32, false, true>(b"+12a") => Ok((12, 3));
        parse_prefix::<i32, false, false>(b"-12a") => Ok((-12, 3));
        parse_prefix::<i8, false, false>(b"-0x") => Ok((0, 2));
        parse::<i16, false, true>(b"+32768") => Err(Overflow(b"32768"));
        parse_skipped::<isize>(b"+007") => Ok(7);
        parse_any::<usize>(b"7 ") => Ok((7, 1));
        parse_any_pos::<u16>(b"7 ") => Ok((7, 1));
        parse_prefix_neg::<i64, true>(b"007,") => Ok((-7, 3));
    );
}

#[test]
fn no_digit_after_the_sign(rt: HostRuntime) {
    on_both!(rt;
        parse::<i8, false, true>(b"") => Err(Empty);
        parse::<i8, false, true>(b"+") => Err(Empty);
        parse::<i8, false, true>(b"-") => Err(Empty);
        parse::<i8, false, true>(b"+-5") => Err(Empty);
        parse::<i8, false, true>(b"--5") => Err(Empty);
        parse::<u8, false, false>(b"-5") => Err(Empty);
        parse::<i8, false, false>(b"+5") => Err(Empty);
    );
}

#[test]
fn at_most_one_sign_is_taken(rt: HostRuntime) {
    gives(&rt, take_sign(true, true, b"+-5"), (false, b"-5"));
    gives(&rt, take_sign(false, true, b"-5"), (false, b"-5"));
    gives(&rt, take_sign(true, false, b"+5"), (false, b"+5"));
    gives(&rt, take_sign(true, false, b"-5"), (true, b"5"));
    gives(&rt, take_sign(true, false, b"-"), (true, b""));
    gives(&rt, take_sign(true, true, b""), (false, b""));
}
