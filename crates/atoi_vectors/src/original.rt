//! Recorded calls to which the Rust crate `atoi_simd` 0.18.1 and this port give the same answer, each
//! on one line, in the form `ANSWER | ENGINE CALL TYPE FLAGS TEXT`. No text contains `|`.

/// All rows name the engine `w`. The engine `l` gives the same answers.
pub const ROWS: &[u8] = b"\
err atoi_simd string is empty | w parse u32 z- -0
err atoi_simd string is empty | w parse isize -- +5
err atoi_simd invalid at index: 2 it must contain only digits, starting with: 25  input: [32, 35, 3A] | w pos u8 z- 25:
err atoi_simd string is empty | w parse u8 -p -5
err atoi_simd string is empty | w parse isize zp --5
err atoi_simd string is empty | w prefix u128 -- +000000000000000008!
err atoi_simd string is empty | w parse i8 z- +-5
err atoi_simd string is empty | w parse i64 zp +
err atoi_simd string is empty | w prefix usize z- +000000000000000008!
err atoi_simd wrong size: 40 input: [30, 30, 30, 30, 30, 30, 30, 30, 30, 30, 30, 30, 30, 30, 30, 30, 30, 31, 37, 30, 31, 34, 31, 31, 38, 33, 34, 36, 30, 34, 36, 39, 32, 33, 31, 37, 33, 31, 36, 38, 37, 33, 30, 33, 37, 31, 35, 38] | w pos i128 -- 00000000000000000170141183460469231731687303715884105727
err atoi_simd overflow, input: [39, 32, 32, 33, 33, 37, 32, 30, 33, 36, 38, 35, 34, 37, 37, 35, 38, 30, 38, 2C] | w prefix_pos i64 -- 9223372036854775808,
ok 170141183460469231731687303715884105727 | w pos i128 -- 170141183460469231731687303715884105727
err atoi_simd string is empty | w parse i16 z- +000000000000000000001234
ok 5 | w parse u32 zp +5
ok 0 | w parse i128 -- -0
ok 255999 20 | w prefix_pos i32 z- 00000000000000255999
err atoi_simd overflow, input: [32, 31, 34, 37, 34, 38, 33, 36, 34, 39, 65] | w prefix_neg i32 z- 2147483649e
err atoi_simd string is empty | w prefix u64 -p -0x
ok 0 | w parse i64 -- -0
err atoi_simd string is empty | w parse i32 -- +-5
err atoi_simd string is empty | w parse i32 z- -
err atoi_simd invalid at index: 2 it must contain only digits, starting with: 12  input: [31, 32, 3A] | w pos i8 -- 12:
ok -32768 5 | w prefix_neg i16 -- 32768e
err atoi_simd string is empty | w parse u16 -p +
err atoi_simd string is empty | w prefix_pos i128 z-\x20
err atoi_simd string is empty | w parse u64 -- +5
err atoi_simd string is empty | w prefix_pos i16 z-\x20
err atoi_simd overflow, input: [33, 34, 30, 32, 38, 32, 33, 36, 36, 39, 32, 30, 39, 33, 38, 34, 36, 33, 34, 36, 33, 33, 37, 34, 36, 30, 37, 34, 33, 31, 37, 36, 38, 32, 31, 31, 34, 35, 36, 2C] | w prefix_pos u128 -- 340282366920938463463374607431768211456,
ok 255999 20 | w prefix_pos u64 -- 00000000000000255999
err atoi_simd invalid at index: 9 it must contain only digits, starting with: 429496729  input: [34, 32, 39, 34, 39, 36, 37, 32, 39, 3A] | w pos u32 z- 429496729:
ok 1234 | w parse u128 zp +000000000000000000001234
err atoi_simd invalid at index: 38 it must contain only digits, starting with: 17014118346046923173168730371588410572 input: [31, 37, 30, 31, 34, 31, 31, 38, 33, 34, 36, 30, 34, 36, 39, 32, 33, 31, 37, 33, 31, 36, 38, 37, 33, 30, 33, 37, 31, 35, 38, 38, 34, 31, 30, 35, 37, 32, 3A] | w pos i128 z- 17014118346046923173168730371588410572:
err atoi_simd string is empty | w parse u64 z- -0
err atoi_simd string is empty | w prefix_pos i32 --\x20
err atoi_simd string is empty | w parse u8 z- +5
err atoi_simd string is empty | w prefix usize -- -0x
err atoi_simd string is empty | w parse i16 -- --5
err atoi_simd invalid at index: 23 it must contain only digits, starting with: 128  input: [30, 30, 30, 30, 30, 30, 30, 30, 30, 30, 30, 30, 30, 30, 30, 30, 30, 30, 30, 30, 31, 32, 38, 78] | w neg i8 -- 00000000000000000000128x
err atoi_simd string is empty | w parse i32 -p -
err atoi_simd overflow, input: [32, 31, 34, 37, 34, 38, 33, 36, 34, 39] | w neg i32 z- 2147483649
err atoi_simd string is empty | w parse u16 -p +-5
ok -12 3 | w prefix i16 zp -12a
ok 255 | w pos u8 -- 255
err atoi_simd string is empty | w pos i32 -- /2147483647
err atoi_simd overflow, input: [32, 35, 35, 39, 39, 39] | w prefix_pos u16 z- 00000000000000255999
err atoi_simd wrong size: 40 input: [30, 30, 30, 33, 34, 30, 32, 38, 32, 33, 36, 36, 39, 32, 30, 39, 33, 38, 34, 36, 33, 34, 36, 33, 33, 37, 34, 36, 30, 37, 34, 33, 31, 37, 36, 38, 32, 31, 31, 34, 35, 35, 39, 78] | w pos u128 -- 0003402823669209384634633746074317682114559x
err atoi_simd string is empty | w parse isize -p +
err atoi_simd string is empty | w parse u8 -- -5
ok 0 2 | w prefix i64 zp -0x
err atoi_simd overflow, input: [39, 32, 32, 33, 33, 37, 32, 30, 33, 36, 38, 35, 34, 37, 37, 35, 38, 30, 38, 2C] | w prefix_pos isize z- 9223372036854775808,
ok 7 17 | w prefix_pos u8 z- 00000000000000007
ok 5 | w parse i32 zp +5
err atoi_simd string is empty | w prefix u64 -- +12a
err atoi_simd string is empty | w prefix i8 z- +12a
err atoi_simd string is empty | w prefix_pos usize --\x20
err atoi_simd string is empty | w prefix u8 -- -12a
ok 0 | w parse i32 -p -0
ok 9223372036854775807 | w pos i64 z- 000000000000000009223372036854775807
err atoi_simd string is empty | w parse u16 -- +5
ok 7 1 | w prefix_pos i32 -- 7\xFF9
err atoi_simd overflow, input: [33, 34, 30, 32, 38, 32, 33, 36, 36, 39, 32, 30, 39, 33, 38, 34, 36, 33, 34, 36, 33, 33, 37, 34, 36, 30, 37, 34, 33, 31, 37, 36, 38, 32, 31, 31, 34, 35, 36, 2C] | w prefix_pos u128 z- 340282366920938463463374607431768211456,
err atoi_simd string is empty | w parse u64 -p +-5
err atoi_simd string is empty | w parse u8 -- +-5
err atoi_simd string is empty | w parse i32 z- --5
ok 0 2 | w prefix i16 -- -0x
ok 18446744073709551615 20 | w prefix_pos u64 z- 18446744073709551615,
ok 0 | w pos i128 z- 000000000000000000000000000000000
err atoi_simd string is empty | w pos i16 z- /32767
err atoi_simd invalid at index: 9 it must contain only digits, starting with: 214748364  input: [32, 31, 34, 37, 34, 38, 33, 36, 34, 3A] | w pos i32 -- 214748364:
err atoi_simd string is empty | w parse i16 zp -
err atoi_simd string is empty | w parse u32 -- --5
ok -128 3 | w prefix_neg i8 z- 128e
err atoi_simd string is empty | w prefix u32 -- +12a
err atoi_simd wrong size: 23 input: [30, 30, 30, 39, 32, 32, 33, 33, 37, 32, 30, 33, 36, 38, 35, 34, 37, 37, 35, 38, 30, 37, 39, 78] | w pos isize -- 00092233720368547758079x
err atoi_simd string is empty | w parse isize zp +
err atoi_simd string is empty | w prefix_pos i32 z-\x20
ok 0 | w pos i16 z- 000000000000000000000000000000000
ok -12 3 | w prefix i8 z- -12a
err atoi_simd string is empty | w parse i32 -- -
err atoi_simd string is empty | w parse u16 -p -5
err atoi_simd string is empty | w parse usize -- +-5
err atoi_simd string is empty | w pos u8 -- /255
err atoi_simd string is empty | w parse i64 z- --5
ok 7 17 | w prefix_pos u32 z- 00000000000000007
ok 255999 20 | w prefix_pos i128 z- 00000000000000255999
err atoi_simd string is empty | w parse i16 z- --5
ok -9223372036854775808 19 | w prefix_neg isize -- 9223372036854775808e
err atoi_simd string is empty | w pos i128 -- /170141183460469231731687303715884105727
err atoi_simd overflow, input: [31, 37, 30, 31, 34, 31, 31, 38, 33, 34, 36, 30, 34, 36, 39, 32, 33, 31, 37, 33, 31, 36, 38, 37, 33, 30, 33, 37, 31, 35, 38, 38, 34, 31, 30, 35, 37, 32, 39, 65] | w prefix_neg i128 -- 170141183460469231731687303715884105729e
err atoi_simd wrong size: 24 input: [30, 30, 30, 30, 30, 30, 30, 30, 30, 30, 30, 30, 30, 30, 30, 30, 30, 39, 32, 32, 33, 33, 37, 32, 30, 33, 36, 38, 35, 34, 37, 37, 35, 38, 30, 37] | w pos i64 -- 000000000000000009223372036854775807
ok 0 | w parse i8 zp -0
ok 5 | w parse u128 -p +5
ok 127 3 | w prefix_pos i8 z- 127,
err atoi_simd overflow, input: [31, 32, 38] | w pos i8 z- 128
ok -170141183460469231731687303715884105728 | w neg i128 z- 170141183460469231731687303715884105728
err atoi_simd overflow, input: [32, 35, 35, 39, 39, 39] | w prefix_pos i8 z- 00000000000000255999
ok 0 40 | w prefix_pos u32 z- 0000000000000000000000000000000000000000x
ok -1 17 | w prefix_neg isize -- 00000000000000001\x20
err atoi_simd string is empty | w prefix u8 z- +000000000000000008!
err atoi_simd string is empty | w parse i64 -- --5
err atoi_simd string is empty | w parse i128 -p -
ok 7 1 | w prefix_pos u8 -- 7\xFF9
err atoi_simd string is empty | w prefix i128 z- +12a
err atoi_simd overflow, input: [31, 37, 30, 31, 34, 31, 31, 38, 33, 34, 36, 30, 34, 36, 39, 32, 33, 31, 37, 33, 31, 36, 38, 37, 33, 30, 33, 37, 31, 35, 38, 38, 34, 31, 30, 35, 37, 32, 39, 65] | w prefix_neg i128 z- 170141183460469231731687303715884105729e
ok -12 3 | w prefix i64 -p -12a
ok -1 17 | w prefix_neg i128 -- 00000000000000001\x20
ok 65535 | w pos u16 z- 65535
err atoi_simd string is empty | w prefix u128 z- -12a
ok -5 | w parse i128 -p -5
ok 0 | w parse i128 z- -0
ok 5 | w parse i16 -p +5
err atoi_simd string is empty | w parse isize z- +
err atoi_simd string is empty | w parse u8 -p -
err atoi_simd string is empty | w parse u16 -- +000000000000000000001234
err atoi_simd string is empty | w parse u128 -- +000000000000000000001234
err atoi_simd string is empty | w parse u32 z- +-5
err atoi_simd string is empty | w parse u64 -- --5
err atoi_simd string is empty | w parse u16 -- +
ok -12 3 | w prefix isize -p -12a
ok 0 2 | w prefix isize z- -0x
ok 1234 | w parse i16 -p +000000000000000000001234
err atoi_simd wrong size: 24 input: [30, 30, 30, 30, 30, 30, 30, 30, 30, 30, 30, 30, 30, 30, 30, 30, 30, 30, 30, 30, 30, 30, 30, 30, 30, 30, 30, 30, 30, 30, 30, 30, 30] | w pos usize -- 000000000000000000000000000000000
ok 0 | w pos i32 z- 000000000000000000000000000000000
ok 340282366920938463463374607431768211455 39 | w prefix_pos u128 -- 340282366920938463463374607431768211455,
ok 5 | w parse i8 -p +5
err atoi_simd string is empty | w parse u16 z- +
ok 0 | w parse i128 zp -0
ok 1234 | w parse u32 -p +000000000000000000001234
err atoi_simd overflow, input: [39, 32, 32, 33, 33, 37, 32, 30, 33, 36, 38, 35, 34, 37, 37, 35, 38, 30, 39, 65] | w prefix_neg isize z- 9223372036854775809e
err atoi_simd overflow, input: [31, 38, 34, 34, 36, 37, 34, 34, 30, 37, 33, 37, 30, 39, 35, 35, 31, 36, 31, 36, 2C] | w prefix_pos u64 z- 18446744073709551616,
err atoi_simd string is empty | w prefix i64 -- +000000000000000008!
err atoi_simd string is empty | w prefix u16 zp -0x
err atoi_simd overflow, input: [32, 35, 35, 39, 39, 39] | w prefix_pos i16 z- 00000000000000255999
ok -12 3 | w prefix i64 zp -12a
ok 5 | w parse i128 zp +5
err atoi_simd string is empty | w parse u8 z- --5
err atoi_simd invalid at index: 38 it must contain only digits, starting with: 17014118346046923173168730371588410572 input: [31, 37, 30, 31, 34, 31, 31, 38, 33, 34, 36, 30, 34, 36, 39, 32, 33, 31, 37, 33, 31, 36, 38, 37, 33, 30, 33, 37, 31, 35, 38, 38, 34, 31, 30, 35, 37, 32, 3A] | w pos i128 -- 17014118346046923173168730371588410572:
err atoi_simd string is empty | w parse usize -- +
err atoi_simd string is empty | w parse u16 -p -
ok 7 17 | w prefix_pos usize z- 00000000000000007
ok 0 | w pos i32 -- 000000000000000000000000000000000
ok -12 3 | w prefix i8 -p -12a
err atoi_simd string is empty | w parse usize -- --5
err atoi_simd string is empty | w prefix u8 z- +12a
ok 4294967295 | w pos u32 -- 000000000000000004294967295
ok 5 | w parse usize zp +5
ok 255 | w pos u8 -- 00000000000000000255
ok 18446744073709551615 | w pos usize z- 18446744073709551615
ok -5 | w parse i128 zp -5
err atoi_simd overflow, input: [39, 32, 32, 33, 33, 37, 32, 30, 33, 36, 38, 35, 34, 37, 37, 35, 38, 30, 39, 65] | w prefix_neg isize -- 9223372036854775809e
err atoi_simd string is empty | w parse isize z- +-5
ok 0 2 | w prefix i8 z- -0x
err atoi_simd wrong size: 23 input: [30, 30, 30, 39, 32, 32, 33, 33, 37, 32, 30, 33, 36, 38, 35, 34, 37, 37, 35, 38, 30, 37, 39, 78] | w pos i64 -- 00092233720368547758079x
ok 9223372036854775807 | w pos i64 -- 9223372036854775807
ok 0 | w pos u16 -- 000000000000000000000000000000000
ok 0 2 | w prefix i32 zp -0x
ok 7 1 | w prefix_pos i16 -- 7\xFF9
err atoi_simd string is empty | w parse u8 z- -
ok 0 | w parse i16 z- -0
err atoi_simd string is empty | w prefix u32 -p -12a
err atoi_simd string is empty | w parse u32 -p +
ok 18446744073709551615 | w pos u64 z- 18446744073709551615
err atoi_simd string is empty | w prefix u32 -- -0x
ok 0 | w pos u128 -- 000000000000000000000000000000000
err atoi_simd string is empty | w parse u32 zp +
ok 170141183460469231731687303715884105727 | w pos i128 z- 00000000000000000170141183460469231731687303715884105727
err atoi_simd string is empty | w parse usize zp --5
err atoi_simd string is empty | w parse u8 -- --5
ok 4294967295 | w pos u32 -- 4294967295
err atoi_simd overflow, input: [39, 32, 32, 33, 33, 37, 32, 30, 33, 36, 38, 35, 34, 37, 37, 35, 38, 30, 38] | w pos isize -- 9223372036854775808
err atoi_simd string is empty | w parse u8 -- +5
err atoi_simd string is empty | w parse i64 -p -
ok 0 | w parse isize -- -0
ok 18446744073709551615 | w pos u64 z- 0000000000000000018446744073709551615
err atoi_simd string is empty | w parse u64 z- +
ok 170141183460469231731687303715884105727 39 | w prefix_pos i128 z- 170141183460469231731687303715884105727,
err atoi_simd overflow, input: [31, 31, 31, 31, 31, 31, 31, 31, 31, 31, 31, 31, 31, 31, 31, 31, 31, 31, 31, 31, 31, 31, 31, 31, 31, 3B] | w prefix_pos u32 z- 1111111111111111111111111;
ok 5 | w parse u64 zp +5
ok 7 17 | w prefix_pos u128 z- 00000000000000007
err atoi_simd overflow, input: [31, 37, 30, 31, 34, 31, 31, 38, 33, 34, 36, 30, 34, 36, 39, 32, 33, 31, 37, 33, 31, 36, 38, 37, 33, 30, 33, 37, 31, 35, 38, 38, 34, 31, 30, 35, 37, 32, 38] | w pos i128 -- 170141183460469231731687303715884105728
ok -5 | w parse i16 zp -5
ok 0 | w parse i64 -p -0
err atoi_simd string is empty | w parse i64 z- -
err atoi_simd string is empty | w parse isize -p -
err atoi_simd string is empty | w prefix_pos u32 --\x20
ok -9223372036854775808 19 | w prefix_neg i64 -- 9223372036854775808e
ok 1234 | w parse i128 zp +000000000000000000001234
ok 18446744073709551615 | w pos usize -- 18446744073709551615
err atoi_simd string is empty | w pos u16 -- /65535
err atoi_simd overflow, input: [31, 38, 34, 34, 36, 37, 34, 34, 30, 37, 33, 37, 30, 39, 35, 35, 31, 36, 31, 36, 2C] | w prefix_pos usize z- 18446744073709551616,
ok 7 17 | w prefix_pos u128 -- 00000000000000007
err atoi_simd overflow, input: [30, 30, 30, 34, 32, 39, 34, 39, 36, 37, 32, 39, 35, 39, 78] | w pos u32 z- 00042949672959x
err atoi_simd string is empty | w parse isize -- +000000000000000000001234
ok 7 1 | w prefix_pos i128 -- 7\xFF9
ok 32767 5 | w prefix_pos i16 -- 32767,
err atoi_simd wrong size: 24 input: [30, 30, 30, 31, 38, 34, 34, 36, 37, 34, 34, 30, 37, 33, 37, 30, 39, 35, 35, 31, 36, 31, 35, 39, 78] | w pos u64 -- 000184467440737095516159x
ok 127 | w pos i8 z- 127
ok 0 2 | w prefix i16 zp -0x
err atoi_simd string is empty | w parse i128 zp --5
err atoi_simd string is empty | w prefix u8 -p -12a
err atoi_simd invalid at index: 38 it must contain only digits, starting with: 34028236692093846346337460743176821145 input: [33, 34, 30, 32, 38, 32, 33, 36, 36, 39, 32, 30, 39, 33, 38, 34, 36, 33, 34, 36, 33, 33, 37, 34, 36, 30, 37, 34, 33, 31, 37, 36, 38, 32, 31, 31, 34, 35, 3A] | w pos u128 -- 34028236692093846346337460743176821145:
err atoi_simd string is empty | w parse i64 zp -
err atoi_simd overflow, input: [31, 32, 39, 65] | w prefix_neg i8 z- 129e
err atoi_simd string is empty | w parse i16 z- -
err atoi_simd overflow, input: [31, 31, 31, 31, 31, 31, 31, 31, 31, 31, 31, 31, 31, 31, 31, 31, 31, 31, 31, 31, 31, 31, 31, 31, 31, 3B] | w prefix_pos u16 z- 1111111111111111111111111;
err atoi_simd overflow, input: [30, 30, 30, 36, 35, 35, 33, 35, 39, 78] | w pos u16 -- 000655359x
err atoi_simd string is empty | w prefix u16 -- +000000000000000008!
err atoi_simd overflow, input: [31, 31, 31, 31, 31, 31, 31, 31, 31, 31, 31, 31, 31, 31, 31, 31, 31, 31, 31, 31, 31, 31, 31, 31, 31, 3B] | w prefix_pos i16 z- 1111111111111111111111111;
ok -5 | w parse i16 z- -5
err atoi_simd string is empty | w parse isize -p +-5
ok 0 | w parse isize -p -0
err atoi_simd string is empty | w parse u128 -p +-5
err atoi_simd string is empty | w parse usize z- --5
ok 2147483647 10 | w prefix_pos i32 -- 2147483647,
err atoi_simd string is empty | w parse i16 z- +5
err atoi_simd string is empty | w parse i8 -- +-5
err atoi_simd string is empty | w parse u128 zp -0
err atoi_simd overflow, input: [31, 38, 34, 34, 36, 37, 34, 34, 30, 37, 33, 37, 30, 39, 35, 35, 31, 36, 31, 36] | w pos u64 -- 18446744073709551616
err atoi_simd string is empty | w prefix u16 z- +12a
err atoi_simd overflow, input: [39, 32, 32, 33, 33, 37, 32, 30, 33, 36, 38, 35, 34, 37, 37, 35, 38, 30, 38, 2C] | w prefix_pos isize -- 9223372036854775808,
ok 0 2 | w prefix i32 -p -0x
err atoi_simd string is empty | w parse u64 -- -0
ok 0 | w pos u8 z- 000000000000000000000000000000000
ok 255 | w pos u8 z- 255
err atoi_simd overflow, input: [31, 37, 30, 31, 34, 31, 31, 38, 33, 34, 36, 30, 34, 36, 39, 32, 33, 31, 37, 33, 31, 36, 38, 37, 33, 30, 33, 37, 31, 35, 38, 38, 34, 31, 30, 35, 37, 32, 39] | w neg i128 z- 170141183460469231731687303715884105729
err atoi_simd string is empty | w parse isize -p --5
ok 0 40 | w prefix_pos u16 z- 0000000000000000000000000000000000000000x
err atoi_simd string is empty | w prefix u8 zp -12a
err atoi_simd string is empty | w parse u64 z- +000000000000000000001234
err atoi_simd overflow, input: [33, 32, 37, 36, 39, 65] | w prefix_neg i16 -- 32769e
ok -170141183460469231731687303715884105728 39 | w prefix_neg i128 -- 170141183460469231731687303715884105728e
ok 2147483647 | w pos i32 z- 2147483647
err atoi_simd string is empty | w prefix u32 zp -12a
err atoi_simd string is empty | w prefix usize -p -0x
ok -5 | w parse isize zp -5
ok 0 2 | w prefix i128 -p -0x
err atoi_simd overflow, input: [30, 30, 30, 30, 30, 30, 30, 30, 30, 30, 30, 30, 30, 30, 30, 30, 30, 30, 30, 30, 31, 32, 33, 34] | w parse i8 zp +000000000000000000001234
err atoi_simd string is empty | w parse u128 z- -
err atoi_simd string is empty | w prefix usize -- +12a
err atoi_simd string is empty | w parse isize zp +-5
ok 0 40 | w prefix_pos i64 z- 0000000000000000000000000000000000000000x
ok 0 | w pos u128 z- 000000000000000000000000000000000
err atoi_simd string is empty | w parse u128 -- +5
err atoi_simd string is empty | w pos u128 z- /340282366920938463463374607431768211455
err atoi_simd string is empty | w pos isize -- /9223372036854775807
err atoi_simd string is empty | w parse u8 zp +
err atoi_simd wrong size: 40 input: [30, 30, 30, 30, 30, 30, 30, 30, 30, 30, 30, 30, 30, 30, 30, 30, 30, 30, 30, 30, 31, 37, 30, 31, 34, 31, 31, 38, 33, 34, 36, 30, 34, 36, 39, 32, 33, 31, 37, 33, 31, 36, 38, 37, 33, 30, 33, 37] | w neg i128 -- 00000000000000000000170141183460469231731687303715884105728x
err atoi_simd overflow, input: [30, 30, 30, 30, 30, 30, 30, 30, 30, 30, 30, 30, 30, 30, 30, 30, 30, 30, 30, 30, 31, 32, 33, 34] | w parse u8 -p +000000000000000000001234
err atoi_simd string is empty | w prefix i128 z- +000000000000000008!
err atoi_simd string is empty | w prefix_pos u32 z-\x20
err atoi_simd string is empty | w prefix i16 -- +12a
err atoi_simd string is empty | w prefix i8 -- +12a
err atoi_simd wrong size: 24 input: [31, 31, 31, 31, 31, 31, 31, 31, 31, 31, 31, 31, 31, 31, 31, 31, 31, 31, 31, 31, 31, 31, 31, 31, 31, 3B] | w prefix_pos usize z- 1111111111111111111111111;
err atoi_simd invalid at index: 9 it must contain only digits, starting with: 429496729  input: [34, 32, 39, 34, 39, 36, 37, 32, 39, 3A] | w pos u32 -- 429496729:
err atoi_simd string is empty | w prefix isize -- +000000000000000008!
ok 255999 20 | w prefix_pos i64 z- 00000000000000255999
err atoi_simd string is empty | w parse i8 z- +
err atoi_simd string is empty | w prefix usize zp -0x
err atoi_simd string is empty | w parse usize -- -5
err atoi_simd string is empty | w prefix_pos i128 --\x20
err atoi_simd overflow, input: [32, 31, 34, 37, 34, 38, 33, 36, 34, 38, 2C] | w prefix_pos i32 z- 2147483648,
err atoi_simd wrong size: 24 input: [30, 30, 30, 30, 30, 30, 30, 30, 30, 30, 30, 30, 30, 30, 30, 30, 30, 30, 30, 30, 31, 32, 33, 34] | w parse usize -p +000000000000000000001234
err atoi_simd invalid at index: 38 it must contain only digits, starting with: 34028236692093846346337460743176821145 input: [33, 34, 30, 32, 38, 32, 33, 36, 36, 39, 32, 30, 39, 33, 38, 34, 36, 33, 34, 36, 33, 33, 37, 34, 36, 30, 37, 34, 33, 31, 37, 36, 38, 32, 31, 31, 34, 35, 3A] | w pos u128 z- 34028236692093846346337460743176821145:
err atoi_simd string is empty | w parse i128 -p +
err atoi_simd string is empty | w parse i16 z- +
err atoi_simd string is empty | w parse i128 z- +-5
ok 1234 | w parse i64 zp +000000000000000000001234
ok -1 17 | w prefix_neg i64 z- 00000000000000001\x20
err atoi_simd string is empty | w parse u32 -p --5
err atoi_simd string is empty | w parse u8 z- -0
err atoi_simd string is empty | w parse u128 -p -5
ok 0 | w parse isize z- -0
ok 32767 5 | w prefix_pos i16 z- 32767,
err atoi_simd string is empty | w parse usize z- -5
err atoi_simd wrong size: 24 input: [31, 31, 31, 31, 31, 31, 31, 31, 31, 31, 31, 31, 31, 31, 31, 31, 31, 31, 31, 31, 31, 31, 31, 31, 31, 3B] | w prefix_pos i64 -- 1111111111111111111111111;
err atoi_simd string is empty | w prefix u128 z- -0x
ok 32767 | w pos i16 -- 0000000000000000032767
err atoi_simd string is empty | w pos i8 z- /127
err atoi_simd string is empty | w prefix_pos u64 z-\x20
ok 9223372036854775807 | w pos isize z- 000000000000000009223372036854775807
err atoi_simd string is empty | w prefix u16 -- +12a
ok 255999 20 | w prefix_pos u32 z- 00000000000000255999
err atoi_simd string is empty | w parse i128 z- +5
err atoi_simd string is empty | w prefix i16 z- +000000000000000008!
err atoi_simd string is empty | w prefix i64 z- +000000000000000008!
err atoi_simd string is empty | w pos isize z- /9223372036854775807
ok 0 | w pos isize z- 000000000000000000000000000000000
err atoi_simd string is empty | w parse i32 -- +000000000000000000001234
ok 0 | w pos u32 -- 000000000000000000000000000000000
err atoi_simd overflow, input: [32, 35, 36, 2C] | w prefix_pos u8 -- 256,
err atoi_simd string is empty | w parse u8 -p +-5
err atoi_simd string is empty | w parse i128 -- -
err atoi_simd string is empty | w prefix u128 -- +12a
err atoi_simd string is empty | w parse i8 -- +000000000000000000001234
err atoi_simd string is empty | w parse i32 z- +5
ok -1 17 | w prefix_neg i32 z- 00000000000000001\x20
err atoi_simd string is empty | w parse u32 zp --5
err atoi_simd string is empty | w parse u64 -p -
err atoi_simd overflow, input: [36, 35, 35, 33, 36, 2C] | w prefix_pos u16 -- 65536,
err atoi_simd string is empty | w prefix u8 -- -0x
ok -5 | w parse isize z- -5
ok -5 | w parse isize -p -5
ok 18446744073709551615 20 | w prefix_pos u64 -- 18446744073709551615,
err atoi_simd string is empty | w parse i128 zp +
ok 7 17 | w prefix_pos i128 -- 00000000000000007
err atoi_simd string is empty | w prefix isize -- +12a
ok 1234 | w parse isize zp +000000000000000000001234
err atoi_simd string is empty | w parse u32 -- +5
err atoi_simd overflow, input: [31, 32, 38, 2C] | w prefix_pos i8 z- 128,
ok 0 2 | w prefix isize zp -0x
err atoi_simd overflow, input: [30, 30, 30, 33, 32, 37, 36, 37, 39, 78] | w pos i16 z- 000327679x
err atoi_simd invalid at index: 4 it must contain only digits, starting with: 6553  input: [36, 35, 35, 33, 3A] | w pos u16 -- 6553:
err atoi_simd overflow, input: [32, 35, 36] | w pos u8 -- 256
err atoi_simd string is empty | w pos u64 z- /18446744073709551615
ok 0 2 | w prefix i64 z- -0x
ok 0 2 | w prefix i32 -- -0x
err atoi_simd string is empty | w parse u64 z- -
err atoi_simd string is empty | w pos usize z- /18446744073709551615
err atoi_simd string is empty | w parse i32 -p +-5
err atoi_simd string is empty | w parse u8 zp --5
err atoi_simd overflow, input: [39, 32, 32, 33, 33, 37, 32, 30, 33, 36, 38, 35, 34, 37, 37, 35, 38, 30, 39, 65] | w prefix_neg i64 -- 9223372036854775809e
err atoi_simd overflow, input: [31, 38, 34, 34, 36, 37, 34, 34, 30, 37, 33, 37, 30, 39, 35, 35, 31, 36, 31, 36] | w pos usize -- 18446744073709551616
err atoi_simd string is empty | w parse i8 zp +-5
err atoi_simd string is empty | w parse u16 -- --5
ok 4294967295 | w pos u32 z- 4294967295
err atoi_simd wrong size: 24 input: [31, 31, 31, 31, 31, 31, 31, 31, 31, 31, 31, 31, 31, 31, 31, 31, 31, 31, 31, 31, 31, 31, 31, 31, 31, 3B] | w prefix_pos i64 z- 1111111111111111111111111;
err atoi_simd wrong size: 24 input: [31, 38, 34, 34, 36, 37, 34, 34, 30, 37, 33, 37, 30, 39, 35, 35, 31, 36, 31, 35, 39, 78] | w pos u64 z- 000184467440737095516159x
err atoi_simd string is empty | w parse u64 zp -0
err atoi_simd string is empty | w pos i32 z- /2147483647
err atoi_simd string is empty | w prefix u64 z- -0x
err atoi_simd string is empty | w parse i8 zp -
ok 340282366920938463463374607431768211455 | w pos u128 -- 340282366920938463463374607431768211455
ok 255 3 | w prefix_pos u8 z- 255,
err atoi_simd string is empty | w parse u16 z- -0
ok 0 40 | w prefix_pos u128 z- 0000000000000000000000000000000000000000x
err atoi_simd string is empty | w prefix_pos u8 --\x20
err atoi_simd string is empty | w parse usize zp -0
err atoi_simd wrong size: 40 input: [30, 30, 30, 30, 30, 30, 30, 30, 30, 30, 30, 30, 30, 30, 30, 30, 30, 30, 30, 30, 30, 30, 30, 30, 30, 30, 30, 30, 30, 30, 30, 30, 30, 30, 30, 30, 30, 30, 30, 30, 78] | w prefix_pos i128 -- 0000000000000000000000000000000000000000x
err atoi_simd string is empty | w parse u16 zp -
err atoi_simd string is empty | w parse i64 -- +-5
ok 7 17 | w prefix_pos u16 z- 00000000000000007
err atoi_simd string is empty | w prefix u64 -- -12a
err atoi_simd string is empty | w parse i16 -- -
err atoi_simd string is empty | w prefix usize -- -12a
ok 0 2 | w prefix i64 -- -0x
ok 0 2 | w prefix isize -- -0x
ok 7 1 | w prefix_pos i64 -- 7\xFF9
ok -5 | w parse i64 -- -5
err atoi_simd string is empty | w parse i128 z- --5
ok 127 | w pos i8 z- 00000000000000000127
err atoi_simd string is empty | w parse i64 -p --5
err atoi_simd string is empty | w parse isize z- --5
err atoi_simd wrong size: 40 input: [30, 30, 30, 30, 30, 30, 30, 30, 30, 30, 30, 30, 30, 30, 30, 30, 30, 33, 34, 30, 32, 38, 32, 33, 36, 36, 39, 32, 30, 39, 33, 38, 34, 36, 33, 34, 36, 33, 33, 37, 34, 36, 30, 37, 34, 33, 31, 37] | w pos u128 -- 00000000000000000340282366920938463463374607431768211455
ok -12 3 | w prefix isize zp -12a
ok 170141183460469231731687303715884105727 | w pos i128 z- 170141183460469231731687303715884105727
ok 5 | w parse u16 zp +5
err atoi_simd string is empty | w pos u128 -- /340282366920938463463374607431768211455
err atoi_simd string is empty | w prefix u128 -p -0x
err atoi_simd string is empty | w parse isize -- +-5
err atoi_simd string is empty | w parse i8 -- --5
err atoi_simd string is empty | w parse usize zp -
err atoi_simd string is empty | w parse i8 -- +
err atoi_simd string is empty | w parse u64 -- +000000000000000000001234
ok 127 | w pos i8 -- 00000000000000000127
err atoi_simd string is empty | w prefix usize z- +12a
ok -5 | w parse i8 -p -5
err atoi_simd overflow, input: [36, 35, 35, 33, 36] | w pos u16 z- 65536
ok 170141183460469231731687303715884105727 39 | w prefix_pos i128 -- 170141183460469231731687303715884105727,
ok -5 | w parse isize -- -5
ok 0 40 | w prefix_pos i128 z- 0000000000000000000000000000000000000000x
err atoi_simd wrong size: 24 input: [31, 38, 34, 34, 36, 37, 34, 34, 30, 37, 33, 37, 30, 39, 35, 35, 31, 36, 31, 35, 39, 78] | w pos usize z- 000184467440737095516159x
ok 0 | w parse isize zp -0
err atoi_simd invalid at index: 19 it must contain only digits, starting with: 1844674407370955161  input: [31, 38, 34, 34, 36, 37, 34, 34, 30, 37, 33, 37, 30, 39, 35, 35, 31, 36, 31, 3A] | w pos usize z- 1844674407370955161:
err atoi_simd invalid at index: 18 it must contain only digits, starting with: 922337203685477580  input: [39, 32, 32, 33, 33, 37, 32, 30, 33, 36, 38, 35, 34, 37, 37, 35, 38, 30, 3A] | w pos isize -- 922337203685477580:
err atoi_simd string is empty | w prefix u32 -p -0x
ok 4294967295 10 | w prefix_pos u32 -- 4294967295,
err atoi_simd string is empty | w parse i64 -p +-5
err atoi_simd string is empty | w prefix i128 -- +000000000000000008!
ok 32767 | w pos i16 -- 32767
ok 7 17 | w prefix_pos u64 -- 00000000000000007
err atoi_simd invalid at index: 30 it must contain only digits, starting with: 2147483648  input: [30, 30, 30, 30, 30, 30, 30, 30, 30, 30, 30, 30, 30, 30, 30, 30, 30, 30, 30, 30, 32, 31, 34, 37, 34, 38, 33, 36, 34, 38, 78] | w neg i32 z- 000000000000000000002147483648x
ok 5 | w parse u32 -p +5
err atoi_simd string is empty | w prefix_pos u16 --\x20
ok 65535 | w pos u16 -- 65535
ok 7 1 | w prefix_pos u32 -- 7\xFF9
err atoi_simd string is empty | w prefix isize z- +12a
ok -12 3 | w prefix isize -- -12a
err atoi_simd wrong size: 24 input: [30, 30, 30, 30, 30, 30, 30, 30, 30, 30, 30, 30, 30, 30, 30, 30, 30, 30, 30, 30, 39, 32, 32, 33, 33, 37, 32, 30, 33, 36, 38, 35, 34, 37, 37, 35, 38, 30, 38, 78] | w neg i64 -- 000000000000000000009223372036854775808x
ok 7 17 | w prefix_pos i16 z- 00000000000000007
ok -128 | w neg i8 -- 128
err atoi_simd string is empty | w parse u128 zp -5
ok -2147483648 | w neg i32 -- 2147483648
ok 5 | w parse i8 zp +5
err atoi_simd string is empty | w parse u8 -p --5
err atoi_simd wrong size: 24 input: [30, 30, 30, 30, 30, 30, 30, 30, 30, 30, 30, 30, 30, 30, 30, 30, 30, 30, 30, 30, 30, 30, 30, 30, 30, 30, 30, 30, 30, 30, 30, 30, 30, 30, 30, 30, 30, 30, 30, 30, 78] | w prefix_pos isize -- 0000000000000000000000000000000000000000x
err atoi_simd string is empty | w parse usize zp +
err atoi_simd overflow, input: [31, 37, 30, 31, 34, 31, 31, 38, 33, 34, 36, 30, 34, 36, 39, 32, 33, 31, 37, 33, 31, 36, 38, 37, 33, 30, 33, 37, 31, 35, 38, 38, 34, 31, 30, 35, 37, 32, 38] | w pos i128 z- 170141183460469231731687303715884105728
ok 1234 | w parse u16 zp +000000000000000000001234
err atoi_simd overflow, input: [33, 34, 30, 32, 38, 32, 33, 36, 36, 39, 32, 30, 39, 33, 38, 34, 36, 33, 34, 36, 33, 33, 37, 34, 36, 30, 37, 34, 33, 31, 37, 36, 38, 32, 31, 31, 34, 35, 36] | w pos u128 -- 340282366920938463463374607431768211456
ok 0 | w pos i8 -- 000000000000000000000000000000000
err atoi_simd wrong size: 24 input: [30, 30, 30, 30, 30, 30, 30, 30, 30, 30, 30, 30, 30, 30, 30, 30, 30, 30, 30, 30, 31, 32, 33, 34] | w parse isize -p +000000000000000000001234
ok 0 2 | w prefix i8 -- -0x
ok 0 | w parse i8 z- -0
err atoi_simd string is empty | w pos i16 -- /32767
err atoi_simd string is empty | w parse u128 -- +-5
err atoi_simd string is empty | w prefix u128 zp -12a
ok 5 | w parse i64 -p +5
ok 0 | w parse i32 z- -0
err atoi_simd string is empty | w parse i128 z- +
err atoi_simd string is empty | w pos u16 z- /65535
err atoi_simd string is empty | w prefix_pos usize z-\x20
ok 255999 20 | w prefix_pos u128 -- 00000000000000255999
err atoi_simd string is empty | w prefix u8 -- +000000000000000008!
ok 5 | w parse isize -p +5
ok -12 3 | w prefix i8 -- -12a
ok 9223372036854775807 | w pos i64 z- 9223372036854775807
ok -5 | w parse i128 z- -5
err atoi_simd wrong size: 24 input: [31, 31, 31, 31, 31, 31, 31, 31, 31, 31, 31, 31, 31, 31, 31, 31, 31, 31, 31, 31, 31, 31, 31, 31, 31, 3B] | w prefix_pos u64 -- 1111111111111111111111111;
err atoi_simd string is empty | w parse i128 z- +000000000000000000001234
ok 0 40 | w prefix_pos isize z- 0000000000000000000000000000000000000000x
err atoi_simd string is empty | w prefix u32 z- +000000000000000008!
err atoi_simd string is empty | w parse i128 -p +-5
err atoi_simd string is empty | w parse i8 z- -
ok 7 17 | w prefix_pos i128 z- 00000000000000007
err atoi_simd string is empty | w parse u8 -- -
err atoi_simd string is empty | w parse u32 z- -5
err atoi_simd string is empty | w parse usize -- +000000000000000000001234
ok 255999 20 | w prefix_pos u128 z- 00000000000000255999
err atoi_simd string is empty | w parse i64 -- +
err atoi_simd wrong size: 24 input: [30, 30, 30, 30, 30, 30, 30, 30, 30, 30, 30, 30, 30, 30, 30, 30, 30, 30, 30, 30, 30, 30, 30, 30, 30, 30, 30, 30, 30, 30, 30, 30, 30] | w pos i64 -- 000000000000000000000000000000000
err atoi_simd string is empty | w parse isize zp -
ok -5 | w parse i32 zp -5
err atoi_simd wrong size: 20 input: [30, 30, 30, 30, 30, 30, 30, 30, 30, 30, 30, 30, 30, 30, 32, 35, 35, 39, 39, 39] | w prefix_pos i64 -- 00000000000000255999
err atoi_simd wrong size: 24 input: [31, 31, 31, 31, 31, 31, 31, 31, 31, 31, 31, 31, 31, 31, 31, 31, 31, 31, 31, 31, 31, 31, 31, 31, 31, 3B] | w prefix_pos isize z- 1111111111111111111111111;
ok -9223372036854775808 | w neg i64 z- 9223372036854775808
err atoi_simd string is empty | w parse i8 -p -
ok -12 3 | w prefix i128 -p -12a
err atoi_simd overflow, input: [30, 30, 30, 30, 30, 30, 30, 30, 30, 30, 30, 30, 30, 30, 30, 30, 30, 30, 30, 30, 31, 32, 33, 34] | w parse u8 zp +000000000000000000001234
ok 2147483647 10 | w prefix_pos i32 z- 2147483647,
ok 7 17 | w prefix_pos i64 -- 00000000000000007
err atoi_simd string is empty | w parse u128 zp +
ok -5 | w parse i16 -p -5
ok 7 1 | w prefix_pos i8 -- 7\xFF9
ok 32767 | w pos i16 z- 0000000000000000032767
err atoi_simd wrong size: 24 input: [31, 31, 31, 31, 31, 31, 31, 31, 31, 31, 31, 31, 31, 31, 31, 31, 31, 31, 31, 31, 31, 31, 31, 31, 31, 3B] | w prefix_pos usize -- 1111111111111111111111111;
ok -32768 | w neg i16 -- 32768
err atoi_simd string is empty | w parse i64 z- +
err atoi_simd overflow, input: [33, 32, 37, 36, 39, 65] | w prefix_neg i16 z- 32769e
err atoi_simd string is empty | w parse i8 zp +
err atoi_simd string is empty | w parse i64 zp +-5
err atoi_simd string is empty | w parse u64 zp +-5
err atoi_simd string is empty | w parse isize -- +
err atoi_simd string is empty | w parse u32 -- -
err atoi_simd string is empty | w prefix u32 -- -12a
err atoi_simd string is empty | w parse u32 -p -
err atoi_simd overflow, input: [32, 31, 34, 37, 34, 38, 33, 36, 34, 38, 2C] | w prefix_pos i32 -- 2147483648,
err atoi_simd string is empty | w prefix u32 z- -12a
err atoi_simd string is empty | w parse u128 -p -
ok 1234 | w parse usize zp +000000000000000000001234
err atoi_simd string is empty | w parse u64 zp -5
err atoi_simd string is empty | w parse u8 -- +
ok -2147483648 10 | w prefix_neg i32 -- 2147483648e
ok 7 1 | w prefix_pos i8 z- 7\xFF9
err atoi_simd overflow, input: [32, 31, 34, 37, 34, 38, 33, 36, 34, 39, 65] | w prefix_neg i32 -- 2147483649e
err atoi_simd string is empty | w prefix usize z- -0x
err atoi_simd string is empty | w parse u128 -- -
err atoi_simd string is empty | w parse i128 -p --5
ok 0 | w pos i64 z- 000000000000000000000000000000000
err atoi_simd string is empty | w prefix_pos i8 --\x20
err atoi_simd string is empty | w parse u16 -- -0
err atoi_simd string is empty | w parse u32 -p +-5
err atoi_simd wrong size: 23 input: [39, 32, 32, 33, 33, 37, 32, 30, 33, 36, 38, 35, 34, 37, 37, 35, 38, 30, 37, 39, 78] | w pos i64 z- 00092233720368547758079x
ok 7 17 | w prefix_pos isize -- 00000000000000007
err atoi_simd string is empty | w prefix u64 z- +000000000000000008!
err atoi_simd wrong size: 24 input: [30, 30, 30, 30, 30, 30, 30, 30, 30, 30, 30, 30, 30, 30, 30, 30, 30, 30, 30, 30, 30, 30, 30, 30, 30, 30, 30, 30, 30, 30, 30, 30, 30, 30, 30, 30, 30, 30, 30, 30, 78] | w prefix_pos i64 -- 0000000000000000000000000000000000000000x
ok -128 | w neg i8 z- 128
err atoi_simd string is empty | w parse i8 -p --5
ok 5 | w parse usize -p +5
err atoi_simd string is empty | w parse i8 z- +000000000000000000001234
err atoi_simd string is empty | w parse u16 zp -0
err atoi_simd string is empty | w prefix u64 -- +000000000000000008!
ok 7 1 | w prefix_pos u16 z- 7\xFF9
err atoi_simd overflow, input: [39, 32, 32, 33, 33, 37, 32, 30, 33, 36, 38, 35, 34, 37, 37, 35, 38, 30, 39] | w neg i64 -- 9223372036854775809
ok 0 2 | w prefix i16 -p -0x
err atoi_simd string is empty | w parse usize -- +5
ok 65535 | w pos u16 z- 0000000000000000065535
err atoi_simd string is empty | w prefix u128 -p -12a
err atoi_simd string is empty | w parse u64 -p -5
err atoi_simd wrong size: 24 input: [31, 31, 31, 31, 31, 31, 31, 31, 31, 31, 31, 31, 31, 31, 31, 31, 31, 31, 31, 31, 31, 31, 31, 31, 31, 3B] | w prefix_pos isize -- 1111111111111111111111111;
ok 5 | w parse u8 zp +5
err atoi_simd string is empty | w parse u32 -- +-5
err atoi_simd string is empty | w parse u32 zp +-5
err atoi_simd string is empty | w parse u16 -- +-5
err atoi_simd overflow, input: [30, 30, 30, 34, 32, 39, 34, 39, 36, 37, 32, 39, 35, 39, 78] | w pos u32 -- 00042949672959x
ok 0 | w parse i16 -- -0
err atoi_simd invalid at index: 2 it must contain only digits, starting with: 25  input: [32, 35, 3A] | w pos u8 -- 25:
err atoi_simd overflow, input: [39, 32, 32, 33, 33, 37, 32, 30, 33, 36, 38, 35, 34, 37, 37, 35, 38, 30, 39] | w neg isize -- 9223372036854775809
ok -12 3 | w prefix i16 -p -12a
ok 0 | w pos usize z- 000000000000000000000000000000000
err atoi_simd string is empty | w parse u32 zp -0
err atoi_simd string is empty | w parse u32 -p -5
err atoi_simd string is empty | w prefix isize z- +000000000000000008!
ok 0 40 | w prefix_pos usize z- 0000000000000000000000000000000000000000x
err atoi_simd overflow, input: [31, 32, 39] | w neg i8 z- 129
ok 0 40 | w prefix_pos i32 z- 0000000000000000000000000000000000000000x
ok -5 | w parse i32 -- -5
err atoi_simd string is empty | w parse i32 z- +000000000000000000001234
ok 0 40 | w prefix_pos u8 z- 0000000000000000000000000000000000000000x
err atoi_simd string is empty | w parse u64 -p +
ok -12 3 | w prefix i32 zp -12a
err atoi_simd string is empty | w parse u64 -- +-5
ok -5 | w parse i8 zp -5
err atoi_simd string is empty | w parse u64 -- +
err atoi_simd string is empty | w parse usize -p +-5
err atoi_simd string is empty | w parse u8 -- -0
ok 7 1 | w prefix_pos u128 -- 7\xFF9
err atoi_simd string is empty | w parse u32 -- -5
ok 0 | w pos i8 z- 000000000000000000000000000000000
ok -9223372036854775808 19 | w prefix_neg isize z- 9223372036854775808e
err atoi_simd overflow, input: [31, 31, 31, 31, 31, 31, 31, 31, 31, 31, 31, 31, 31, 31, 31, 31, 31, 31, 31, 31, 31, 31, 31, 31, 31, 3B] | w prefix_pos u8 z- 1111111111111111111111111;
err atoi_simd invalid at index: 39 it must contain only digits, starting with: 9223372036854775808  input: [30, 30, 30, 30, 30, 30, 30, 30, 30, 30, 30, 30, 30, 30, 30, 30, 30, 30, 30, 30, 39, 32, 32, 33, 33, 37, 32, 30, 33, 36, 38, 35, 34, 37, 37, 35, 38, 30, 38, 78] | w neg i64 z- 000000000000000000009223372036854775808x
ok 7 17 | w prefix_pos i8 z- 00000000000000007
ok -128 3 | w prefix_neg i8 -- 128e
err atoi_simd wrong size: 20 input: [30, 30, 30, 30, 30, 30, 30, 30, 30, 30, 30, 30, 30, 30, 32, 35, 35, 39, 39, 39] | w prefix_pos isize -- 00000000000000255999
err atoi_simd string is empty | w parse u64 z- +-5
err atoi_simd string is empty | w prefix_pos i16 --\x20
err atoi_simd string is empty | w parse u16 z- --5
ok -1 17 | w prefix_neg i128 z- 00000000000000001\x20
err atoi_simd string is empty | w parse usize z- +000000000000000000001234
err atoi_simd string is empty | w parse i16 z- +-5
ok 1111111111111111111111111 25 | w prefix_pos u128 z- 1111111111111111111111111;
err atoi_simd string is empty | w prefix u8 z- -0x
err atoi_simd string is empty | w parse u32 -- +000000000000000000001234
ok -12 3 | w prefix i32 z- -12a
err atoi_simd string is empty | w prefix_pos u64 --\x20
ok -170141183460469231731687303715884105728 | w neg i128 -- 170141183460469231731687303715884105728
err atoi_simd wrong size: 24 input: [30, 30, 30, 30, 30, 30, 30, 30, 30, 30, 30, 30, 30, 30, 30, 30, 30, 30, 30, 30, 39, 32, 32, 33, 33, 37, 32, 30, 33, 36, 38, 35, 34, 37, 37, 35, 38, 30, 38, 78] | w neg isize -- 000000000000000000009223372036854775808x
err atoi_simd string is empty | w pos u32 z- /4294967295
err atoi_simd string is empty | w parse isize -- --5
err atoi_simd overflow, input: [34, 32, 39, 34, 39, 36, 37, 32, 39, 36, 2C] | w prefix_pos u32 z- 4294967296,
ok 0 2 | w prefix i8 zp -0x
err atoi_simd string is empty | w parse u8 zp -5
err atoi_simd string is empty | w prefix usize -p -12a
err atoi_simd string is empty | w pos i64 z- /9223372036854775807
ok 18446744073709551615 20 | w prefix_pos usize -- 18446744073709551615,
ok -2147483648 10 | w prefix_neg i32 z- 2147483648e
ok 0 | w parse i8 -p -0
err atoi_simd overflow, input: [31, 32, 38, 2C] | w prefix_pos i8 -- 128,
err atoi_simd string is empty | w parse u8 zp +-5
err atoi_simd string is empty | w prefix u128 -- -0x
err atoi_simd string is empty | w parse isize -- -
ok 5 | w parse u64 -p +5
err atoi_simd overflow, input: [30, 30, 30, 32, 31, 34, 37, 34, 38, 33, 36, 34, 37, 39, 78] | w pos i32 z- 00021474836479x
err atoi_simd string is empty | w parse i32 zp -
err atoi_simd string is empty | w parse i16 -p +-5
err atoi_simd wrong size: 24 input: [30, 30, 30, 30, 30, 30, 30, 30, 30, 30, 30, 30, 30, 30, 30, 30, 30, 31, 38, 34, 34, 36, 37, 34, 34, 30, 37, 33, 37, 30, 39, 35, 35, 31, 36, 31, 35] | w pos u64 -- 0000000000000000018446744073709551615
err atoi_simd string is empty | w parse u8 zp -
err atoi_simd invalid at index: 59 it must contain only digits, starting with: 170141183460469231731687303715884105728 input: [30, 30, 30, 30, 30, 30, 30, 30, 30, 30, 30, 30, 30, 30, 30, 30, 30, 30, 30, 30, 31, 37, 30, 31, 34, 31, 31, 38, 33, 34, 36, 30, 34, 36, 39, 32, 33, 31, 37, 33, 31, 36, 38, 37, 33, 30, 33, 37] | w neg i128 z- 00000000000000000000170141183460469231731687303715884105728x
ok 127 3 | w prefix_pos i8 -- 127,
ok 2147483647 | w pos i32 -- 2147483647
ok 7 1 | w prefix_pos u32 z- 7\xFF9
err atoi_simd overflow, input: [31, 38, 34, 34, 36, 37, 34, 34, 30, 37, 33, 37, 30, 39, 35, 35, 31, 36, 31, 36, 2C] | w prefix_pos u64 -- 18446744073709551616,
ok 18446744073709551615 | w pos usize z- 0000000000000000018446744073709551615
ok 7 1 | w prefix_pos u128 z- 7\xFF9
err atoi_simd string is empty | w parse u128 z- --5
ok 7 17 | w prefix_pos u64 z- 00000000000000007
err atoi_simd string is empty | w prefix u64 -p -12a
err atoi_simd string is empty | w parse i128 -- --5
ok 7 1 | w prefix_pos u64 -- 7\xFF9
err atoi_simd invalid at index: 25 it must contain only digits, starting with: 32768  input: [30, 30, 30, 30, 30, 30, 30, 30, 30, 30, 30, 30, 30, 30, 30, 30, 30, 30, 30, 30, 33, 32, 37, 36, 38, 78] | w neg i16 -- 0000000000000000000032768x
ok 1234 | w parse i32 -p +000000000000000000001234
err atoi_simd string is empty | w parse u128 z- +000000000000000000001234
ok 1234 | w parse i128 -p +000000000000000000001234
err atoi_simd string is empty | w parse i8 z- --5
err atoi_simd string is empty | w prefix u16 -p -12a
err atoi_simd overflow, input: [30, 30, 30, 30, 30, 30, 30, 30, 30, 30, 30, 30, 30, 30, 30, 30, 30, 30, 30, 30, 31, 32, 33, 34] | w parse i8 -p +000000000000000000001234
ok 65535 | w pos u16 -- 0000000000000000065535
err atoi_simd string is empty | w parse i8 z- +5
ok 340282366920938463463374607431768211455 39 | w prefix_pos u128 z- 340282366920938463463374607431768211455,
err atoi_simd string is empty | w parse usize zp +-5
ok 5 | w parse i64 zp +5
ok 1111111111111111111111111 25 | w prefix_pos u128 -- 1111111111111111111111111;
ok 0 2 | w prefix i128 -- -0x
ok 9223372036854775807 19 | w prefix_pos isize -- 9223372036854775807,
err atoi_simd string is empty | w pos u32 -- /4294967295
ok -170141183460469231731687303715884105728 39 | w prefix_neg i128 z- 170141183460469231731687303715884105728e
err atoi_simd string is empty | w parse u8 z- -5
err atoi_simd overflow, input: [33, 32, 37, 36, 38] | w pos i16 -- 32768
ok 9223372036854775807 | w pos isize z- 9223372036854775807
err atoi_simd string is empty | w parse i32 zp +
err atoi_simd overflow, input: [33, 34, 30, 32, 38, 32, 33, 36, 36, 39, 32, 30, 39, 33, 38, 34, 36, 33, 34, 36, 33, 33, 37, 34, 36, 30, 37, 34, 33, 31, 37, 36, 38, 32, 31, 31, 34, 35, 36] | w pos u128 z- 340282366920938463463374607431768211456
ok 9223372036854775807 19 | w prefix_pos i64 z- 9223372036854775807,
ok 65535 5 | w prefix_pos u16 z- 65535,
err atoi_simd wrong size: 24 input: [31, 31, 31, 31, 31, 31, 31, 31, 31, 31, 31, 31, 31, 31, 31, 31, 31, 31, 31, 31, 31, 31, 31, 31, 31, 3B] | w prefix_pos u64 z- 1111111111111111111111111;
err atoi_simd overflow, input: [33, 32, 37, 36, 39] | w neg i16 z- 32769
ok -9223372036854775808 | w neg i64 -- 9223372036854775808
err atoi_simd string is empty | w prefix i16 z- +12a
ok -2147483648 | w neg i32 z- 2147483648
ok -12 3 | w prefix i32 -- -12a
ok 18446744073709551615 20 | w prefix_pos usize z- 18446744073709551615,
ok 0 | w pos i16 -- 000000000000000000000000000000000
err atoi_simd string is empty | w parse u8 -p +
err atoi_simd string is empty | w pos u64 -- /18446744073709551615
err atoi_simd string is empty | w parse isize z- -
ok 0 40 | w prefix_pos i16 z- 0000000000000000000000000000000000000000x
ok -12 3 | w prefix i128 -- -12a
ok 0 2 | w prefix i128 zp -0x
err atoi_simd string is empty | w parse u32 z- +5
ok 255999 20 | w prefix_pos usize -- 00000000000000255999
err atoi_simd string is empty | w parse u64 z- --5
err atoi_simd invalid at index: 19 it must contain only digits, starting with: 1844674407370955161  input: [31, 38, 34, 34, 36, 37, 34, 34, 30, 37, 33, 37, 30, 39, 35, 35, 31, 36, 31, 3A] | w pos u64 z- 1844674407370955161:
ok 0 40 | w prefix_pos u64 z- 0000000000000000000000000000000000000000x
err atoi_simd wrong size: 43 input: [31, 37, 30, 31, 34, 31, 31, 38, 33, 34, 36, 30, 34, 36, 39, 32, 33, 31, 37, 33, 31, 36, 38, 37, 33, 30, 33, 37, 31, 35, 38, 38, 34, 31, 30, 35, 37, 32, 37, 39, 78] | w pos i128 z- 0001701411834604692317316873037158841057279x
err atoi_simd string is empty | w prefix u128 zp -0x
err atoi_simd string is empty | w parse i8 -p +-5
err atoi_simd string is empty | w parse u128 z- +-5
err atoi_simd string is empty | w parse usize z- -0
err atoi_simd string is empty | w parse u16 zp +-5
err atoi_simd string is empty | w parse usize z- -
err atoi_simd overflow, input: [32, 35, 35, 39, 39, 39] | w prefix_pos u8 z- 00000000000000255999
ok 7 1 | w prefix_pos isize z- 7\xFF9
ok 4294967295 | w pos u32 z- 000000000000000004294967295
ok 127 | w pos i8 -- 127
err atoi_simd string is empty | w parse isize z- +5
err atoi_simd string is empty | w pos u8 z- /255
err atoi_simd string is empty | w prefix u16 -- -12a
err atoi_simd string is empty | w parse i64 z- +000000000000000000001234
ok 7 1 | w prefix_pos u16 -- 7\xFF9
ok -12 3 | w prefix i16 -- -12a
ok -5 | w parse i8 z- -5
err atoi_simd wrong size: 24 input: [30, 30, 30, 30, 30, 30, 30, 30, 30, 30, 30, 30, 30, 30, 30, 30, 30, 30, 30, 30, 31, 32, 33, 34] | w parse u64 -p +000000000000000000001234
err atoi_simd string is empty | w parse i32 -- --5
err atoi_simd overflow, input: [31, 37, 30, 31, 34, 31, 31, 38, 33, 34, 36, 30, 34, 36, 39, 32, 33, 31, 37, 33, 31, 36, 38, 37, 33, 30, 33, 37, 31, 35, 38, 38, 34, 31, 30, 35, 37, 32, 38, 2C] | w prefix_pos i128 z- 170141183460469231731687303715884105728,
ok -9223372036854775808 | w neg isize -- 9223372036854775808
err atoi_simd string is empty | w parse u128 zp +-5
err atoi_simd string is empty | w parse i16 zp +-5
err atoi_simd string is empty | w prefix u16 -- -0x
err atoi_simd string is empty | w prefix_pos u16 z-\x20
ok 255999 20 | w prefix_pos isize z- 00000000000000255999
err atoi_simd overflow, input: [33, 32, 37, 36, 38, 2C] | w prefix_pos i16 -- 32768,
err atoi_simd string is empty | w prefix_pos i8 z-\x20
err atoi_simd string is empty | w parse i8 -- -
err atoi_simd invalid at index: 23 it must contain only digits, starting with: 128  input: [30, 30, 30, 30, 30, 30, 30, 30, 30, 30, 30, 30, 30, 30, 30, 30, 30, 30, 30, 30, 31, 32, 38, 78] | w neg i8 z- 00000000000000000000128x
ok 5 | w parse isize zp +5
err atoi_simd wrong size: 24 input: [30, 30, 30, 30, 30, 30, 30, 30, 30, 30, 30, 30, 30, 30, 30, 30, 30, 39, 32, 32, 33, 33, 37, 32, 30, 33, 36, 38, 35, 34, 37, 37, 35, 38, 30, 37] | w pos isize -- 000000000000000009223372036854775807
err atoi_simd string is empty | w parse i64 zp --5
err atoi_simd string is empty | w parse u128 -p --5
err atoi_simd string is empty | w parse usize zp -5
err atoi_simd overflow, input: [32, 35, 36, 2C] | w prefix_pos u8 z- 256,
err atoi_simd overflow, input: [33, 32, 37, 36, 39] | w neg i16 -- 32769
ok -12 3 | w prefix i64 z- -12a
err atoi_simd overflow, input: [31, 38, 34, 34, 36, 37, 34, 34, 30, 37, 33, 37, 30, 39, 35, 35, 31, 36, 31, 36] | w pos u64 z- 18446744073709551616
err atoi_simd string is empty | w parse i32 -- +5
err atoi_simd string is empty | w prefix u16 z- -12a
err atoi_simd overflow, input: [31, 38, 34, 34, 36, 37, 34, 34, 30, 37, 33, 37, 30, 39, 35, 35, 31, 36, 31, 36, 2C] | w prefix_pos usize -- 18446744073709551616,
err atoi_simd wrong size: 40 input: [30, 30, 30, 30, 30, 30, 30, 30, 30, 30, 30, 30, 30, 30, 30, 30, 30, 30, 30, 30, 30, 30, 30, 30, 30, 30, 30, 30, 30, 30, 30, 30, 30, 30, 30, 30, 30, 30, 30, 30, 78] | w prefix_pos u128 -- 0000000000000000000000000000000000000000x
err atoi_simd overflow, input: [32, 31, 34, 37, 34, 38, 33, 36, 34, 39] | w neg i32 -- 2147483649
ok 0 | w pos u64 z- 000000000000000000000000000000000
err atoi_simd string is empty | w prefix i8 z- +000000000000000008!
err atoi_simd invalid at index: 18 it must contain only digits, starting with: 922337203685477580  input: [39, 32, 32, 33, 33, 37, 32, 30, 33, 36, 38, 35, 34, 37, 37, 35, 38, 30, 3A] | w pos i64 z- 922337203685477580:
err atoi_simd overflow, input: [31, 32, 39] | w neg i8 -- 129
ok 9223372036854775807 19 | w prefix_pos i64 -- 9223372036854775807,
ok 7 1 | w prefix_pos isize -- 7\xFF9
err atoi_simd string is empty | w prefix u8 zp -0x
err atoi_simd string is empty | w prefix u64 -- -0x
";
