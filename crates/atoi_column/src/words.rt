//! Numbers of which it is known how many digits they have, read as words of eight bytes, the first byte
//! lowest.
ghost use Rattle.std.specs.Prelude.{◌≡◌, ℕ, ◌+◌, ◌*◌, ◌/◌, ◌%◌, ◌^◌, ◌<◌, ◌≤◌, ◌==◌, true, length, take, drop, IfSome};
ghost use Rattle.std.specs.Int.Bits.{bit_and};
ghost use Rattle.atoi_core.specs.Digit.{decimal_table};
ghost use Rattle.atoi_core.specs.Run.{run_len, value};
ghost use Rattle.atoi_core.specs.Words.{low_bytes, low_value, word_of};

// Eight zeros, each the byte 48.
const ZEROS: u64 = 0x3030_3030_3030_3030;

/// Returns the number that the first `width` bytes of `s` spell, or `None` if one is no digit or `s` has
/// fewer than eight bytes.
#[inline(always)]
pub(crate) fn number_of_width(s: &[u8], width: usize) -> Option<u64>
    requires some { 0 < width }
    requires few { width ≤ 16 }
    requires inside { width ≤ length s.now }
    ensures run { IfSome result (λ number. width ≤ run_len decimal_table s.now) }
    ensures value { IfSome result (λ number. number ≡ value decimal_table (take width s.now)) }
{
    if width <= 8 {
        return number_before(s, width, 0, 0);
    }
    let front = width - 8;
    let high = number_before(s, front, 0, 0)?;
    let low = number_before(&s[front..], 8, 0, 0)?;
    Some(high * 100_000_000 + low)
}

/// `number_of_width` for at most eight bytes, if the first `end_len` bytes of `end_word` follow the
/// number.
#[inline(always)]
pub(crate) fn number_before(s: &[u8], width: usize, end_word: u64, end_len: usize) -> Option<u64>
    requires some { 0 < width }
    requires few { width + end_len ≤ 8 }
    requires fits { end_word < 2 ^ (end_len * 8) }
    ensures run { IfSome result (λ number. width ≤ run_len decimal_table s.now) }
    ensures value { IfSome result (λ number. number ≡ value decimal_table (take width s.now)) }
    ensures ends { IfSome result (λ number. word_of (take end_len (drop width s.now)) ≡ end_word) }
    ensures most { IfSome result (λ number. number ≤ 166666665) }
{
    let word = first_word(s)?;
    let shift = 64 - 8 * width as u32;
    // In two steps, since no shift is by 64 bits.
    let end = (end_word << (56 - shift)) << 8;
    let end_mask = (((1 << (8 * end_len as u32)) - 1) << (56 - shift)) << 8;
    let digits = word.wrapping_sub(end).wrapping_sub(ZEROS >> shift);
    let above = digits.wrapping_add(0x7676_7676_7676_7676 >> shift) | digits;
    if above & ((0x8080_8080_8080_8080 >> shift) | end_mask) != 0 {
        return None;
    }
    Some(sum_of_shifted(digits, shift))
}

/// Whether `s` has two bytes or more, and begins with the `count` bytes of the word `bytes`.
#[inline(always)]
pub(crate) fn starts_with(s: &[u8], bytes: u64, count: usize) -> bool
    requires few { count ≤ 2 }
    ensures two { result ≡ true → 2 ≤ length s.now }
    ensures bytes { 2 ≤ length s.now → result ≡ (word_of (take count s.now) == bytes) }
{
    match s.first_chunk::<2>() {
        Some(two) => u64::from(u16::from_le_bytes(*two)) & ((1 << (8 * count)) - 1) == bytes,
        None => false,
    }
}

// The word of the first eight bytes.
#[tactic(auto, using(atoi_core::proofs::lemmas::LoadedWords::word_of_first))]
fn first_word(s: &[u8]) -> Option<u64>
    ensures inside { IfSome result (λ word. 8 ≤ length s.now) }
    ensures word { IfSome result (λ word. word ≡ word_of (take 8 s.now)) }
{
    Some(u64::from_le_bytes(*s.first_chunk::<8>()?))
}

// The number that eight digits spell, each a byte below 16, if `digits` is shifted left by `shift`. The
// product shifts it, too.
#[tactic(auto, using(crate::proofs::lemmas::Widths::sum_of_lifted, atoi_core::proofs::lemmas::WordFields::sum_most))]
fn sum_of_shifted(digits: u64, shift: u32) -> u64
    requires few { shift < 64 }
    requires halves { bit_and (digits * 2 ^ shift % 2 ^ 64) 0x0F0F_0F0F_0F0F_0F0F ≡ digits * 2 ^ shift % 2 ^ 64 }
    ensures sum { result ≡ low_value (low_bytes 8 (digits * 2 ^ shift % 2 ^ 64)) }
    ensures most { result ≤ 166666665 }
{
    let tens = (digits.wrapping_mul(0xA01 << shift) >> 8) & 0x00FF_00FF_00FF_00FF;
    let hundreds = tens.wrapping_mul(0x64_0001);
    ((hundreds >> 16) & 0xFFFF) * 10_000 + (hundreds >> 48)
}
