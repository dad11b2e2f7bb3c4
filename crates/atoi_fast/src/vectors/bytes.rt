//! Vectors of sixteen bytes: loaded, counted, and summed.
ghost use Rattle.std.specs.Prelude.{◌≡◌, ◌-◌, ◌*◌, ◌/◌, ◌%◌, ◌^◌, ◌≤◌, ◌<◌, ◌++◌, IfSome, None, not, length, map, take, drop, replicate};
ghost use Rattle.std.specs.Int.{trailing_zeros, w16};
ghost use Rattle.std.specs.Simd.Lanes.{Each1, mask_l, digits_l, number_l};
ghost use Rattle.atoi_core.specs.Digit.{decimal_table, is_digit};
ghost use Rattle.atoi_core.specs.Run.{run_len, zeros, value};
ghost use Rattle.atoi_core.specs.Words.{low_bytes, low_value, word_of};
ghost use Rattle.atoi_core.specs.Reading.{window_of};
ghost use Rattle.atoi_core.specs.Lanes.{padded_start};
ghost use Rattle.atoi_fast.specs.Vectors.{itself, padded, paired};

use crate::digits::{ZEROS, leading_digits, leading_digits_flipped};
use crate::loads::{load_flipped, load_full, load_last};
use crate::one_byte::window_of_one;
use atoi_core::Window;
use atoi_core::words::load_8;
use std::simd::prelude::*;

const LANES: usize = 16;

// The index that selects no lane, which yields 0.
const NO: u8 = 128;

const SHIFTS: [u8; 48] = [
    NO, NO, NO, NO, NO, NO, NO, NO, NO, NO, NO, NO, NO, NO, NO, NO, 0, 1, 2, 3, 4, 5, 6, 7, 8, 9,
    10, 11, 12, 13, 14, 15, NO, NO, NO, NO, NO, NO, NO, NO, NO, NO, NO, NO, NO, NO, NO, NO,
];

// For 8 to 15 bytes, by their number: where they are among the first 8 and the last 8, so that the
// last byte is in the last lane.
const TO_END: [[u8; 16]; 8] = [
    [NO, NO, NO, NO, NO, NO, NO, NO, 8, 9, 10, 11, 12, 13, 14, 15],
    [NO, NO, NO, NO, NO, NO, NO, 0, 8, 9, 10, 11, 12, 13, 14, 15],
    [NO, NO, NO, NO, NO, NO, 0, 1, 8, 9, 10, 11, 12, 13, 14, 15],
    [NO, NO, NO, NO, NO, 0, 1, 2, 8, 9, 10, 11, 12, 13, 14, 15],
    [NO, NO, NO, NO, 0, 1, 2, 3, 8, 9, 10, 11, 12, 13, 14, 15],
    [NO, NO, NO, 0, 1, 2, 3, 4, 8, 9, 10, 11, 12, 13, 14, 15],
    [NO, NO, 0, 1, 2, 3, 4, 5, 8, 9, 10, 11, 12, 13, 14, 15],
    [NO, 0, 1, 2, 3, 4, 5, 6, 8, 9, 10, 11, 12, 13, 14, 15],
];

// `TO_END`, but the first byte is in the first lane.
const TO_START: [[u8; 16]; 8] = [
    [0, 1, 2, 3, 4, 5, 6, 7, NO, NO, NO, NO, NO, NO, NO, NO],
    [0, 1, 2, 3, 4, 5, 6, 7, 15, NO, NO, NO, NO, NO, NO, NO],
    [0, 1, 2, 3, 4, 5, 6, 7, 14, 15, NO, NO, NO, NO, NO, NO],
    [0, 1, 2, 3, 4, 5, 6, 7, 13, 14, 15, NO, NO, NO, NO, NO],
    [0, 1, 2, 3, 4, 5, 6, 7, 12, 13, 14, 15, NO, NO, NO, NO],
    [0, 1, 2, 3, 4, 5, 6, 7, 11, 12, 13, 14, 15, NO, NO, NO],
    [0, 1, 2, 3, 4, 5, 6, 7, 10, 11, 12, 13, 14, 15, NO, NO],
    [0, 1, 2, 3, 4, 5, 6, 7, 9, 10, 11, 12, 13, 14, 15, NO],
];

// From index `n` on: ones in the last `n` of sixteen lanes, otherwise 0.
const LAST_LANES: [u8; 32] = [
    0, 0, 0, 0, 0, 0, 0, 0, 0, 0, 0, 0, 0, 0, 0, 0, 255, 255, 255, 255, 255, 255, 255, 255, 255,
    255, 255, 255, 255, 255, 255, 255,
];

// The weights that join two pairs of digits, each in the upper byte of its 16 bits.
const HUNDREDS: [u8; 16] = [0, 100, 0, 1, 0, 100, 0, 1, 0, 100, 0, 1, 0, 100, 0, 1];

/// Returns the first 16 bytes of `s`, the first in the first lane. A missing byte is 0.
#[inline(always)]
pub(crate) fn load_lanes(s: &[u8]) -> u8x16
    ensures { result ≡ padded_start 16 s.now }
{
    match s.first_chunk::<LANES>() {
        Some(bytes) => u8x16::from_array(*bytes),
        None if s.len() < 8 => half(load_8(s)),
        None => to_start(ends(s), s.len()),
    }
}

// Returns the first 8 and the last 8 bytes.
#[tactic(auto, using(crate::proofs::lemmas::Ends::lanes_of_ends))]
fn ends(s: &[u8]) -> u8x16
    requires { 8 ≤ length s.now }
    ensures { result ≡ take 8 s.now ++ drop (length s.now - 8) s.now }
{
    u64x2::from_array([load_full(s), load_last(s)]).to_le_bytes()
}

// Of `len` bytes, whose first 8 and last 8 are in the lanes of `v`: moves the first to the first lane.
#[tactic(auto, using(crate::proofs::lemmas::Ends::selected_start, crate::proofs::lemmas::Ends::start_ok))]
fn to_start(v: u8x16, len: usize) -> u8x16
    requires enough { 8 ≤ len }
    requires few { len < 16 }
    ensures { result ≡ take 8 v ++ (drop (24 - len) v ++ replicate (16 - len) 0) }
{
    v.swizzle_dyn_within::<16>(u8x16::from_slice(&TO_START[len - 8]))
}

// `to_start`, but moves the last to the last lane.
#[tactic(auto, using(crate::proofs::lemmas::Ends::selected_end, crate::proofs::lemmas::Ends::end_ok))]
fn to_end(v: u8x16, len: usize) -> u8x16
    requires enough { 8 ≤ len }
    requires few { len < 16 }
    ensures { result ≡ replicate (16 - len) 0 ++ (take (len - 8) v ++ drop 8 v) }
{
    v.swizzle_dyn_within::<16>(u8x16::from_slice(&TO_END[len - 8]))
}

// Returns the number that 8 to 15 bytes spell, if all are digits.
#[inline(always)]
pub(crate) fn number_of_8_to_15(s: &[u8]) -> Option<u64>
    requires enough { 8 ≤ length s.now }
    requires few { length s.now < 16 }
    ensures some { IfSome result (λ number. (run_len decimal_table s.now ≡ length s.now)
        × (number ≡ value decimal_table s.now)) }
    ensures none { result ≡ None → run_len decimal_table s.now < length s.now }
{
    let bytes = ends(s);
    if non_digits(bytes) != 0 {
        return None;
    }
    let digit_values = bytes - u8x16::splat(b'0');
    Some(value_of_lanes(to_end(digit_values, s.len())))
}

/// Returns how many digits (48 to 57) the lanes begin with.
pub(crate) fn len_lanes(v: u8x16) -> u32
    ensures len { result ≡ run_len decimal_table v }
    ensures most { result ≤ 16 }
{
    non_digits(v).trailing_zeros()
}

// Returns one bit for each lane, the lowest for the first: 1 if the lane is no digit.
#[inline(always)]
pub(crate) fn non_digits(v: u8x16) -> u16
    ensures mask { result ≡ mask_l (map (λ byte. not (is_digit decimal_table byte)) v) }
    ensures none { result ≡ 0 → run_len decimal_table v ≡ 16 }
    ensures some { 0 < result → trailing_zeros w16 result ≡ run_len decimal_table v }
    ensures fewer { 0 < result → run_len decimal_table v < 16 }
{
    // The sum needs these differences, too. Adding 118 sets the top bit of 10 to 127.
    let values = v - u8x16::splat(b'0');
    let marks = (values + u8x16::splat(118)) | values;
    marks.simd_ge(u8x16::splat(128)).to_bitmask() as u16
}

/// Returns how many zeros (48) the lanes begin with.
pub(crate) fn zeroes_lanes(v: u8x16) -> u32
    ensures zeroes { result ≡ zeros decimal_table v }
    ensures most { result ≤ 16 }
{
    v.simd_eq(u8x16::splat(b'0')).to_bitmask().trailing_ones()
}

/// Returns the number that the first `len` lanes spell, which are digits.
#[inline(always)]
#[tactic(auto, using(crate::proofs::lemmas::DigitLanes::moved_values))]
pub(crate) fn sum_lanes(v: u8x16, len: u32) -> u64
    requires within { len ≤ 16 }
    requires digits { len ≤ run_len decimal_table v }
    ensures { result ≡ value decimal_table (take len v) }
{
    let digit_values = v - u8x16::splat(b'0');
    // No branch on the length: if lengths vary, it is mispredicted.
    value_of_lanes(shuffle(digit_values, len as usize))
}

/// Returns the number that the last `len` of sixteen digits spell.
#[inline(always)]
pub(crate) fn value_of_last_lanes(v: u8x16, len: usize) -> u64
    requires within { len ≤ 16 }
    requires digits { run_len decimal_table v ≡ 16 }
    ensures { result ≡ value decimal_table (drop (16 - len) v) }
{
    let digit_values = v - u8x16::splat(b'0');
    value_of_lanes(digit_values & u8x16::from_slice(&LAST_LANES[len..]))
}

// Returns 16 of 48 lanes, from lane `p` on: 16 lanes of 0, the lanes of `v`, and 16 lanes of 0.
#[tactic(auto, using(crate::proofs::lemmas::Shuffles::shuffled, crate::proofs::lemmas::Shuffles::shuffle_ok))]
pub(crate) fn shuffle(v: u8x16, p: usize) -> u8x16
    requires { p ≤ 32 }
    ensures { result ≡ take 16 (drop p (padded v)) }
{
    v.swizzle_dyn_within::<16>(u8x16::from_slice(&SHIFTS[p..]))
}

/// Returns the window of fewer than 8 bytes.
#[inline(always)]
#[tactic(auto, using(crate::proofs::lemmas::WordWindows::filled_digits, crate::proofs::lemmas::WordRuns::flipped_back))]
pub(crate) fn window_below_8(s: &[u8]) -> Window
    requires few { length s.now < 8 }
    ensures { result ≡ window_of decimal_table 16 s.now }
{
    if s.len() <= 1 {
        return window_of_one(s);
    }
    let flipped = load_flipped(s);
    let digits = leading_digits_flipped(flipped);
    if digits == 8 {
        // The number need not wait for its length.
        return Window::not_full(s.len() as u32, value_of_half(half(flipped)));
    }
    let len = digits - (8 - s.len() as u32);
    Window::not_full(len, value_by_half(flipped ^ ZEROS, digits))
}

// `value_of` of the words, by half a vector: in a loop, fewer constants need registers.
fn value_by_half(word: u64, len: u32) -> u64
    requires some { 1 ≤ len }
    requires few { len ≤ 8 }
    requires digits { len ≤ run_len decimal_table (low_bytes 8 word) }
    ensures { result ≡ low_value (low_bytes len word) }
{
    value_of_half(half(word.wrapping_sub(ZEROS) << (64 - 8 * len)))
}

// Returns the bytes of a word in the first eight lanes, the lowest first. The others are 0.
pub(crate) fn half(word: u64) -> u8x16
    ensures { result ≡ digits_l 256 16 word }
{
    u64x2::from_array([word, 0]).to_le_bytes()
}

#[tactic(auto, using(crate::proofs::lemmas::JoinedDigits::half_joined))]
pub(crate) fn value_of_half(digits: u8x16) -> u64
    requires { Each1 (λ digit. digit < 16) digits }
    ensures { result ≡ value itself (take 8 digits) }
{
    let [fours, _] = sums_of_4(digits).to_array();
    // Adds 10,000 times the lower half to the upper half.
    fours.wrapping_mul(10_000 << 32 | 1) >> 32
}

#[tactic(auto, using(crate::proofs::lemmas::JoinedDigits::lanes_joined))]
pub(crate) fn value_of_lanes(digits: u8x16) -> u64
    requires { Each1 (λ digit. digit < 16) digits }
    ensures { result ≡ value itself digits }
{
    // The mask tells rustc 1.95 that 32 bits are enough for the product.
    let halves = sums_of_8(digits) & u64x2::splat(0xFFFF_FFFF);
    (halves * u64x2::from_array([100_000_000, 1])).reduce_sum()
}

// Joins sixteen digit values to two numbers of eight digits.
fn sums_of_8(digits: u8x16) -> u64x2
    requires { Each1 (λ digit. digit < 16) digits }
    ensures { result ≡ paired 10000 (paired 100 (paired 10 digits)) }
{
    let fields = sums_of_4(digits);
    (fields & u64x2::splat(0xFFFF_FFFF)) * u64x2::splat(10_000) + (fields >> u64x2::splat(32))
}

// Joins sixteen digit values to pairs, and these to fours, in 32 bits each.
#[tactic(auto, using(crate::proofs::lemmas::JoinedDigits::fours_joined))]
fn sums_of_4(digits: u8x16) -> u64x2
    requires { Each1 (λ digit. digit < 16) digits }
    ensures { result ≡ digits_l (2 ^ 64) 2 (number_l (2 ^ 32) (paired 100 (paired 10 digits))) }
{
    // Adds ten times the lower byte, the first digit, to the upper byte.
    let pairs = u16x8::from_le_bytes(digits) * u16x8::splat(0xA01);
    let fours = pairs.to_le_bytes().dot4(u8x16::from_array(HUNDREDS));
    u64x2::from_le_bytes(fours.to_le_bytes())
}
