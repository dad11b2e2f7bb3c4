//! Recorded calls to which the Rust crate `atoi_simd` 0.18.1 and this port give different answers,
//! each on one line, in the form `ANSWER | ORIGINAL | ENGINE CALL TYPE FLAGS TEXT`. `ANSWER` is what
//! this port returns, and `ORIGINAL` is what the Rust crate returns.

/// The length that `parse_prefix` returns includes a plus, and in the original it does not. Each row
/// has the call `prefix`, SKIP_PLUS, and a text that begins with a plus and digits.
pub const PLUS_ROWS: &[u8] = b"\
ok 8 19 | ok 8 18 | w prefix u128 -p +000000000000000008!
ok 8 19 | ok 8 18 | w prefix u128 zp +000000000000000008!
ok 12 3 | ok 12 2 | w prefix usize zp +12a
ok 12 3 | ok 12 2 | w prefix u16 -p +12a
ok 12 3 | ok 12 2 | w prefix u64 -p +12a
ok 12 3 | ok 12 2 | w prefix u8 -p +12a
ok 8 19 | ok 8 18 | w prefix i32 zp +000000000000000008!
ok 8 19 | ok 8 18 | w prefix u16 zp +000000000000000008!
ok 8 19 | ok 8 18 | w prefix i8 zp +000000000000000008!
ok 12 3 | ok 12 2 | w prefix i8 zp +12a
ok 8 19 | ok 8 18 | w prefix i16 zp +000000000000000008!
ok 12 3 | ok 12 2 | w prefix u8 zp +12a
ok 12 3 | ok 12 2 | w prefix u128 zp +12a
ok 12 3 | ok 12 2 | w prefix u32 -p +12a
ok 12 3 | ok 12 2 | w prefix i64 -p +12a
ok 8 19 | ok 8 18 | w prefix u8 zp +000000000000000008!
ok 8 19 | ok 8 18 | w prefix i128 -p +000000000000000008!
ok 8 19 | ok 8 18 | w prefix u64 zp +000000000000000008!
ok 12 3 | ok 12 2 | w prefix i16 zp +12a
ok 12 3 | ok 12 2 | w prefix u128 -p +12a
ok 12 3 | ok 12 2 | w prefix usize -p +12a
ok 8 19 | ok 8 18 | w prefix isize zp +000000000000000008!
ok 12 3 | ok 12 2 | w prefix u64 zp +12a
ok 8 19 | ok 8 18 | w prefix i64 zp +000000000000000008!
ok 12 3 | ok 12 2 | w prefix isize -p +12a
ok 8 19 | ok 8 18 | w prefix usize zp +000000000000000008!
ok 8 19 | ok 8 18 | w prefix isize -p +000000000000000008!
ok 8 19 | ok 8 18 | w prefix i64 -p +000000000000000008!
ok 8 19 | ok 8 18 | w prefix i128 zp +000000000000000008!
ok 12 3 | ok 12 2 | w prefix i32 -p +12a
ok 8 19 | ok 8 18 | w prefix u64 -p +000000000000000008!
";

/// A prefix of a type of up to 32 bits, without SKIP_ZEROES, has at most 16 digits. Each text has
/// more. This port returns the error `Size`, and the original parses only the first 16 digits.
pub const LONG_ROWS: &[u8] = b"\
err atoi_simd wrong size: 17 input: [30, 30, 30, 30, 30, 30, 30, 30, 30, 30, 30, 30, 30, 30, 30, 30, 30, 30, 30, 30, 30, 30, 30, 30, 30, 30, 30, 30, 30, 30, 30, 30, 30, 30, 30, 30, 30, 30, 30, 30, 78] | ok 0 16 | w prefix_pos u32 -- 0000000000000000000000000000000000000000x
err atoi_simd wrong size: 17 input: [30, 30, 30, 30, 30, 30, 30, 30, 30, 30, 30, 30, 30, 30, 30, 30, 30, 38, 21] | ok 0 16 | w prefix u16 -p +000000000000000008!
err atoi_simd wrong size: 17 input: [31, 31, 31, 31, 31, 31, 31, 31, 31, 31, 31, 31, 31, 31, 31, 31, 31, 31, 31, 31, 31, 31, 31, 31, 31, 3B] | err atoi_simd overflow, input: [31, 31, 31, 31, 31, 31, 31, 31, 31, 31, 31, 31, 31, 31, 31, 31, 31, 31, 31, 31, 31, 31, 31, 31, 31, 3B] | w prefix_pos i32 -- 1111111111111111111111111;
err atoi_simd wrong size: 17 input: [30, 30, 30, 30, 30, 30, 30, 30, 30, 30, 30, 30, 30, 30, 30, 30, 30, 30, 30, 30, 30, 30, 30, 30, 30, 30, 30, 30, 30, 30, 30, 30, 30, 30, 30, 30, 30, 30, 30, 30, 78] | ok 0 16 | w prefix_pos i16 -- 0000000000000000000000000000000000000000x
err atoi_simd wrong size: 17 input: [31, 31, 31, 31, 31, 31, 31, 31, 31, 31, 31, 31, 31, 31, 31, 31, 31, 31, 31, 31, 31, 31, 31, 31, 31, 3B] | err atoi_simd overflow, input: [31, 31, 31, 31, 31, 31, 31, 31, 31, 31, 31, 31, 31, 31, 31, 31, 31, 31, 31, 31, 31, 31, 31, 31, 31, 3B] | w prefix_pos i8 -- 1111111111111111111111111;
err atoi_simd wrong size: 17 input: [31, 31, 31, 31, 31, 31, 31, 31, 31, 31, 31, 31, 31, 31, 31, 31, 31, 31, 31, 31, 31, 31, 31, 31, 31, 3B] | err atoi_simd overflow, input: [31, 31, 31, 31, 31, 31, 31, 31, 31, 31, 31, 31, 31, 31, 31, 31, 31, 31, 31, 31, 31, 31, 31, 31, 31, 3B] | w prefix_pos u16 -- 1111111111111111111111111;
err atoi_simd wrong size: 17 input: [30, 30, 30, 30, 30, 30, 30, 30, 30, 30, 30, 30, 30, 30, 30, 30, 31, 20] | ok 0 16 | w prefix_neg i16 -- 00000000000000001\x20
err atoi_simd wrong size: 17 input: [30, 30, 30, 30, 30, 30, 30, 30, 30, 30, 30, 30, 30, 30, 30, 30, 37] | ok 0 16 | w prefix_pos i16 -- 00000000000000007
err atoi_simd wrong size: 17 input: [30, 30, 30, 30, 30, 30, 30, 30, 30, 30, 30, 30, 30, 30, 30, 30, 31, 20] | ok 0 16 | w prefix_neg i8 -- 00000000000000001\x20
err atoi_simd wrong size: 17 input: [30, 30, 30, 30, 30, 30, 30, 30, 30, 30, 30, 30, 30, 30, 30, 30, 37] | ok 0 16 | w prefix_pos i32 -- 00000000000000007
err atoi_simd wrong size: 17 input: [31, 31, 31, 31, 31, 31, 31, 31, 31, 31, 31, 31, 31, 31, 31, 31, 31, 31, 31, 31, 31, 31, 31, 31, 31, 3B] | err atoi_simd overflow, input: [31, 31, 31, 31, 31, 31, 31, 31, 31, 31, 31, 31, 31, 31, 31, 31, 31, 31, 31, 31, 31, 31, 31, 31, 31, 3B] | w prefix_pos i16 -- 1111111111111111111111111;
err atoi_simd wrong size: 17 input: [30, 30, 30, 30, 30, 30, 30, 30, 30, 30, 30, 30, 30, 30, 32, 35, 35, 39, 39, 39] | ok 25 16 | w prefix_pos i16 -- 00000000000000255999
err atoi_simd wrong size: 17 input: [30, 30, 30, 30, 30, 30, 30, 30, 30, 30, 30, 30, 30, 30, 30, 30, 37] | ok 0 16 | w prefix_pos u16 -- 00000000000000007
err atoi_simd wrong size: 17 input: [30, 30, 30, 30, 30, 30, 30, 30, 30, 30, 30, 30, 30, 30, 30, 30, 37] | ok 0 16 | w prefix_pos i8 -- 00000000000000007
err atoi_simd wrong size: 17 input: [30, 30, 30, 30, 30, 30, 30, 30, 30, 30, 30, 30, 30, 30, 30, 30, 37] | ok 0 16 | w prefix_pos u8 -- 00000000000000007
err atoi_simd wrong size: 17 input: [30, 30, 30, 30, 30, 30, 30, 30, 30, 30, 30, 30, 30, 30, 30, 30, 30, 30, 30, 30, 30, 30, 30, 30, 30, 30, 30, 30, 30, 30, 30, 30, 30, 30, 30, 30, 30, 30, 30, 30, 78] | ok 0 16 | w prefix_pos i8 -- 0000000000000000000000000000000000000000x
err atoi_simd wrong size: 17 input: [30, 30, 30, 30, 30, 30, 30, 30, 30, 30, 30, 30, 30, 30, 30, 30, 37] | ok 0 16 | w prefix_pos u32 -- 00000000000000007
err atoi_simd wrong size: 17 input: [30, 30, 30, 30, 30, 30, 30, 30, 30, 30, 30, 30, 30, 30, 32, 35, 35, 39, 39, 39] | ok 25 16 | w prefix_pos u8 -- 00000000000000255999
err atoi_simd wrong size: 17 input: [30, 30, 30, 30, 30, 30, 30, 30, 30, 30, 30, 30, 30, 30, 30, 30, 30, 30, 30, 30, 30, 30, 30, 30, 30, 30, 30, 30, 30, 30, 30, 30, 30, 30, 30, 30, 30, 30, 30, 30, 78] | ok 0 16 | w prefix_pos u8 -- 0000000000000000000000000000000000000000x
err atoi_simd wrong size: 17 input: [30, 30, 30, 30, 30, 30, 30, 30, 30, 30, 30, 30, 30, 30, 30, 30, 30, 38, 21] | ok 0 16 | w prefix i32 -p +000000000000000008!
err atoi_simd wrong size: 17 input: [30, 30, 30, 30, 30, 30, 30, 30, 30, 30, 30, 30, 30, 30, 30, 30, 30, 38, 21] | ok 0 16 | w prefix i8 -p +000000000000000008!
err atoi_simd wrong size: 17 input: [30, 30, 30, 30, 30, 30, 30, 30, 30, 30, 30, 30, 30, 30, 32, 35, 35, 39, 39, 39] | ok 25 16 | w prefix_pos u16 -- 00000000000000255999
err atoi_simd wrong size: 17 input: [30, 30, 30, 30, 30, 30, 30, 30, 30, 30, 30, 30, 30, 30, 30, 30, 30, 30, 30, 30, 30, 30, 30, 30, 30, 30, 30, 30, 30, 30, 30, 30, 30, 30, 30, 30, 30, 30, 30, 30, 78] | ok 0 16 | w prefix_pos u16 -- 0000000000000000000000000000000000000000x
err atoi_simd wrong size: 17 input: [30, 30, 30, 30, 30, 30, 30, 30, 30, 30, 30, 30, 30, 30, 30, 30, 30, 38, 21] | ok 0 16 | w prefix i16 -p +000000000000000008!
";
