//! The rules of `docs/SPECIFICATION.md` once more, as code that counts digit by digit.

use atoi_simd::AtoiSimdError::{self, Empty, Invalid64, Invalid128, Overflow, Size};

// Returns how many digits `s` begins with.
fn count_digits(s: &[u8]) -> usize {
    s.iter()
        .position(|byte| *byte < b'0' || *byte > b'9')
        .unwrap_or(s.len())
}

// Returns how many zeros `s` begins with.
fn count_zeros(s: &[u8]) -> usize {
    s.iter().position(|byte| *byte != b'0').unwrap_or(s.len())
}

// Returns the value of the first `len` bytes, which are digits, or `None` if it is above `u128::MAX`.
fn value_of(s: &[u8], len: usize) -> Option<u128> {
    let mut number = 0u128;
    for digit in s.iter().take(len) {
        number = number
            .checked_mul(10)?
            .checked_add(u128::from(digit.wrapping_sub(b'0')))?;
    }
    Some(number)
}

/// Returns what the window of the first `size` bytes holds: how many digits they begin with; how
/// many zeros, or 0 if not all `size` bytes are digits; and the value of the digits.
pub(crate) fn window(size: usize, s: &[u8]) -> (usize, usize, Option<u128>) {
    let prefix = &s[..size.min(s.len())];
    let len = count_digits(prefix);
    let zeros = if len == size { count_zeros(prefix) } else { 0 };
    (len, zeros, value_of(prefix, len))
}

/// The width of a type, on which its rules depend: up to 32 bits, 64 bits or 128 bits. `Wide64`
/// holds the limit on significant digits, which are the digits after the skipped leading zeros.
#[derive(Clone, Copy)]
pub(crate) enum Class {
    Narrow,
    Wide64(usize),
    Wide128,
}

/// A slice after its sign, and the digits that it begins with.
#[derive(Clone, Copy)]
pub(crate) struct Body<'a> {
    pub bytes: &'a [u8],
    // How many zeros it begins with.
    zeros: usize,
    // How many digits it begins with, including these zeros.
    digits: usize,
    // The value of the digits, or `None` if it is above `u128::MAX`.
    number: Option<u128>,
}

impl<'a> Body<'a> {
    /// Counts the decimal digits of a slice one by one.
    pub(crate) fn of(bytes: &'a [u8]) -> Body<'a> {
        let digits = count_digits(bytes);
        Body {
            bytes,
            zeros: count_zeros(bytes),
            digits,
            number: value_of(bytes, digits),
        }
    }

    // Returns the slice without its first `zeros` bytes.
    fn without(self, zeros: usize) -> &'a [u8] {
        &self.bytes[zeros.min(self.bytes.len())..]
    }

    // Returns how many zeros the slice of `Overflow` leaves out: 0 without SKIP_ZEROES, and all
    // leading zeros with it for 64 and 128 bits. For a narrow prefix, it leaves out whole blocks of 16
    // zeros, and the other zeros too if the next block is full of digits.
    fn dropped(self, class: Class, skip: bool) -> usize {
        match class {
            _ if !skip => 0,
            Class::Narrow if self.digits / 16 <= self.zeros / 16 => self.zeros - self.zeros % 16,
            _ => self.zeros,
        }
    }

    // Returns the error that depends only on how many digits there are, if there is one.
    fn refusal(self, class: Class, skip: bool) -> Option<AtoiSimdError<'a>> {
        let zeros = if skip { self.zeros } else { 0 };
        let counting = self.digits.saturating_sub(zeros);
        let (limit, cap) = match class {
            Class::Narrow if skip => (usize::MAX, 0),
            Class::Narrow => (16, 17),
            Class::Wide64(limit) => (limit, 24),
            Class::Wide128 => (39, 40),
        };
        if self.digits == 0 {
            Some(Empty)
        } else if counting > limit {
            let size = zeros.saturating_add(counting.min(cap));
            Some(Size(size, self.without(zeros)))
        } else {
            None
        }
    }

    /// Returns the answer of a prefix parse for numbers up to `bound`: the number, and its length.
    pub(crate) fn prefix(
        self,
        class: Class,
        bound: u128,
        skip: bool,
    ) -> Result<(u128, usize), AtoiSimdError<'a>> {
        match (self.refusal(class, skip), self.number) {
            (Some(error), _) => Err(error),
            (None, Some(number)) if number <= bound => Ok((number, self.digits)),
            (None, _) => Err(Overflow(self.without(self.dropped(class, skip)))),
        }
    }

    /// Returns the answer of a whole parse for numbers up to `bound`. A whole parse for a narrow
    /// type always skips leading zeros, but the slice of its `Overflow` keeps all of them.
    pub(crate) fn whole(
        self,
        class: Class,
        bound: u128,
        skip: bool,
    ) -> Result<u128, AtoiSimdError<'a>> {
        let narrow = matches!(class, Class::Narrow);
        match self.prefix(class, bound, skip || narrow) {
            Err(Overflow(_)) if narrow => Err(Overflow(self.bytes)),
            Err(error) => Err(error),
            Ok((number, len)) if len == self.bytes.len() => Ok(number),
            Ok((number, len)) => Err(match (class, u64::try_from(number)) {
                (Class::Narrow | Class::Wide64(_), Ok(number)) => {
                    Invalid64(number, len, self.bytes)
                }
                _ => Invalid128(number, len, self.bytes),
            }),
        }
    }
}
