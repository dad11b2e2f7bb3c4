//! How many digits and zeros a word begins with, and the number that they spell: the kernels of
//! `atoi_core::words` with fewer instructions.
ghost use Rattle.std.specs.Prelude.{◌≡◌, ℕ, ◌*◌, ◌%◌, ◌^◌, ◌<◌, ◌≤◌, ◌++◌, nat_lt, drop};
ghost use Rattle.atoi_core.specs.Digit.{decimal_table};
ghost use Rattle.atoi_core.specs.Run.{run_len, zeros};
ghost use Rattle.atoi_core.specs.Words.{low_bytes, low_value};
ghost use Rattle.atoi_fast.specs.Short.{at_top};
ghost use Rattle.std.specs.Int.Bits.{bit_and, bit_xor};

/// Eight zeros, each the byte 48.
pub(crate) const ZEROS: u64 = 0x3030_3030_3030_3030;

pub(crate) const FOUR_ZEROS: u32 = 0x3030_3030;

// A byte is no digit if adding 70 or subtracting 48 sets its top bit. A carry or a borrow changes only
// bytes above the first that is no digit.
/// Returns how many digits the word begins with.
#[tactic(auto, using(atoi_core::proofs::lemmas::LoweredWords::marks_of_8, crate::proofs::lemmas::WordRuns::none_marked))]
pub(crate) fn leading_digits(word: u64) -> u32
    ensures len { result ≡ run_len decimal_table (low_bytes 8 word) }
    ensures most { result ≤ 8 }
{
    let above = word.wrapping_add(0x4646_4646_4646_4646);
    let below = word.wrapping_sub(ZEROS);
    let marks = (above | below) & 0x8080_8080_8080_8080;
    if marks == 0 {
        8
    } else {
        marks.trailing_zeros() / 8
    }
}

/// `leading_digits` for a word xor `ZEROS`. Here, a byte is no digit if adding 118 sets its top bit.
#[tactic(auto, using(crate::proofs::lemmas::WordRuns::flipped_marks, crate::proofs::lemmas::WordRuns::none_flipped))]
pub(crate) fn leading_digits_flipped(flipped: u64) -> u32
    ensures len { result ≡ run_len decimal_table (low_bytes 8 (bit_xor flipped 0x3030_3030_3030_3030)) }
    ensures most { result ≤ 8 }
{
    let marks = (flipped.wrapping_add(0x7676_7676_7676_7676) | flipped) & 0x8080_8080_8080_8080;
    if marks == 0 {
        8
    } else {
        marks.trailing_zeros() / 8
    }
}

// `len_zeroes`, from the difference that `leading_digits` and `value_of` compute, too.
#[tactic(auto, using(crate::proofs::lemmas::WordRuns::lowered_zeros_of_8))]
pub(crate) fn zeroes_of(word: u64) -> u32
    ensures zeroes { result ≡ zeros decimal_table (low_bytes 8 word) }
    ensures most { result ≤ 8 }
{
    word.wrapping_sub(ZEROS).trailing_zeros() / 8
}

#[tactic(auto, using(std::proofs::lemmas::Bool::ne_eqb, crate::proofs::lemmas::LoadedWords::zeros_of_two))]
pub(crate) fn zeroes_of_two(first: u64, next: u64) -> u32
    ensures { result ≡ zeros decimal_table (low_bytes 8 first ++ low_bytes 8 next) }
{
    let zeroes = zeroes_of(first);
    if zeroes == 8 {
        8 + zeroes_of(next)
    } else {
        zeroes
    }
}

/// Returns the number that the `len` leading digits of the word spell, 0 if `len` is 0.
#[tactic(auto, using(atoi_core::proofs::lemmas::LoadedWords::sum_of_none))]
pub(crate) fn value_in_word(word: u64, len: u32) -> u64
    requires few { len ≤ 8 }
    requires digits { len ≡ run_len decimal_table (low_bytes 8 word) }
    ensures sum { result ≡ low_value (low_bytes len word) }
    ensures most { result ≤ 166666665 }
{
    if len == 0 { 0 } else { value_of(word, len) }
}

// The number that the first `len` bytes of the word spell. They are digits, at least one.
#[tactic(auto, using(atoi_core::proofs::lemmas::LoweredWords::lowered_value, crate::proofs::lemmas::WordRuns::lowered_sum))]
pub(crate) fn value_of(word: u64, len: u32) -> u64
    requires some { 1 ≤ len }
    requires few { len ≤ 8 }
    requires digits { len ≤ run_len decimal_table (low_bytes 8 word) }
    ensures sum { result ≡ low_value (low_bytes len word) }
    ensures most { result ≤ 166666665 }
{
    sum_of(word.wrapping_sub(ZEROS) << (64 - 8 * len))
}

// `value_of` for zero to seven digits: it shifts twice, as no shift is by 64 bits.
#[tactic(auto, using(atoi_core::proofs::lemmas::LoweredWords::lowered_value, crate::proofs::lemmas::WordRuns::lowered_sum, atoi_core::proofs::lemmas::LoweredWords::shifted_twice))]
pub(crate) fn value_below_8(word: u64, len: u32) -> u64
    requires few { len < 8 }
    requires digits { len ≤ run_len decimal_table (low_bytes 8 word) }
    ensures sum { result ≡ low_value (low_bytes len word) }
    ensures most { result ≤ 166666665 }
{
    sum_of((word.wrapping_sub(ZEROS) << (56 - 8 * len)) << 8)
}

// `sum_of` for four bytes.
#[tactic(auto, using(crate::proofs::lemmas::WordRuns::sum_of_four))]
fn sum_of_four(digits: u32) -> u32
    ensures { bit_and digits 0x0F0F_0F0F ≡ digits → result ≡ low_value (low_bytes 4 digits) }
{
    let tens = (digits.wrapping_mul(0xA01) >> 8) & 0x00FF_00FF;
    tens.wrapping_mul(0x64_0001) >> 16
}

// `process_8` for bytes below 16.
#[tactic(auto, using(atoi_core::proofs::lemmas::WordFields::sum_most))]
pub(crate) fn sum_of(digits: u64) -> u64
    requires { bit_and digits 0x0F0F_0F0F_0F0F_0F0F ≡ digits }
    ensures sum { result ≡ low_value (low_bytes 8 digits) }
    ensures most { result ≤ 166666665 }
{
    sum_of_product(digits.wrapping_mul(0xA01))
}

// `sum_of` after its first product. A small product joins the two sums of four digits.
#[tactic(auto, using(atoi_core::proofs::lemmas::LoweredWords::sum_of_fields))]
fn sum_of_product(product: u64) -> u64
    ensures { (digits : ℕ) → digits < 2 ^ 64 → bit_and digits 0x0F0F_0F0F_0F0F_0F0F ≡ digits
        → product ≡ digits * 0xA01 % 2 ^ 64 → result ≡ low_value (low_bytes 8 digits) }
{
    let tens = (product >> 8) & 0x00FF_00FF_00FF_00FF;
    let hundreds = tens.wrapping_mul(0x64_0001);
    ((hundreds >> 16) & 0xFFFF) * 10_000 + (hundreds >> 48)
}

// Indexed by how many digits there are: `sum_of`'s first factor, shifted by eight bytes less the digits.
const FACTORS: [u64; 8] = [
    0,
    0xA01 << 56,
    0xA01 << 48,
    0xA01 << 40,
    0xA01 << 32,
    0xA01 << 24,
    0xA01 << 16,
    0xA01 << 8,
];

/// Returns the number of the lowest `len` bytes of `digits`, which are digits minus 48.
pub(crate) fn value_by_product(digits: u64, len: u32) -> u64
    requires few { len < 8 }
    requires halves { bit_and (at_top len digits) 0x0F0F_0F0F_0F0F_0F0F ≡ at_top len digits }
    ensures sum { result ≡ low_value (low_bytes len digits) }
    ensures most { result ≤ 16666665 }
{
    sum_of_product(digits.wrapping_mul(FACTORS[len as usize]))
}

/// `value_by_product` for at most four bytes.
pub(crate) fn four_by_product(digits: u64, len: u32) -> u64
    requires few { len ≤ 4 }
    requires halves { bit_and (at_top len digits) 0x0F0F_0F0F_0F0F_0F0F ≡ at_top len digits }
    ensures sum { result ≡ low_value (low_bytes len digits) }
    ensures most { result ≤ 16666 }
{
    let product = digits.wrapping_mul(FACTORS[len as usize]);
    let tens = (product >> 8) & 0x00FF_00FF_00FF_00FF;
    tens.wrapping_mul(0x64_0001) >> 48
}

/// `leading_digits` for a word of four bytes.
#[tactic(auto, using(crate::proofs::lemmas::WordRuns::marks_of_4, crate::proofs::lemmas::WordRuns::none_marked_of_4))]
pub(crate) fn leading_digits_of_four(word: u32) -> u32
    ensures len { result ≡ run_len decimal_table (low_bytes 4 word) }
    ensures most { result ≤ 4 }
{
    let above = word.wrapping_add(0x4646_4646);
    let below = word.wrapping_sub(FOUR_ZEROS);
    let marks = (above | below) & 0x8080_8080;
    if marks == 0 {
        4
    } else {
        marks.trailing_zeros() / 8
    }
}

#[tactic(auto, using(crate::proofs::lemmas::WordRuns::first_byte_of_4))]
pub(crate) fn starts_with_digit_of_four(word: u32) -> bool
    ensures { result ≡ nat_lt 0 (run_len decimal_table (low_bytes 4 word)) }
{
    ((word & 0xFF) as u8).is_ascii_digit()
}

/// `value_of` for a word of four bytes.
#[tactic(auto, using(crate::proofs::lemmas::WordRuns::lowered_in_four))]
pub(crate) fn value_up_to_4(word: u32, len: u32) -> u32
    requires some { 1 ≤ len }
    requires few { len ≤ 4 }
    requires digits { len ≤ run_len decimal_table (low_bytes 4 word) }
    ensures { result ≡ low_value (low_bytes len word) }
{
    sum_of_four(word.wrapping_sub(FOUR_ZEROS) << (32 - 8 * len))
}

/// Returns the number that a word of four digits spells after its first `skipped` bytes.
#[tactic(auto, using(crate::proofs::lemmas::WordRuns::lowered_end))]
pub(crate) fn value_after(word: u32, skipped: usize) -> u32
    requires digits { run_len decimal_table (low_bytes 4 word) ≡ 4 }
    requires few { skipped < 4 }
    ensures { result ≡ low_value (drop skipped (low_bytes 4 word)) }
{
    let bits = 8 * skipped;
    sum_of_four((word.wrapping_sub(FOUR_ZEROS) >> bits) << bits)
}
