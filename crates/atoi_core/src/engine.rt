//! The reads that parsers make, and the parses of wide integers that they are enough for.
ghost use Rattle.std.specs.Prelude.{◌≡◌, ◌+◌, ◌≤◌};
ghost use Rattle.atoi_core.specs.Digit.{Table, IsBelowTen};
ghost use Rattle.atoi_core.specs.Loads.{ClassLoads};
ghost use Rattle.atoi_core.specs.Magnitude.{HasDigits, IsBound64, wide64, wide128, prefix_magnitude};
ghost use Rattle.atoi_core.specs.Refusal.{answer_of};
ghost use Rattle.atoi_core.specs.Reading.{window_of};

pub mod alphabet;
pub mod plain;
pub mod steps;
pub mod window;

use crate::engine::steps::Steps;
use crate::engine::window::Window;
use crate::error::AtoiSimdError;
use crate::powers::append_digits;
use crate::wide_answer::{answer_64, answer_128, found_or_empty};

/// An *engine* reads windows, for one table of digits. Each read is one *load*. It may replace the
/// provided methods by its own, with the same clauses.
pub trait Engine {
    ghost table: { Table };

    /// Loads the first 16 bytes of `s`.
    fn window(s: &[u8], steps: &mut Steps) -> Window
        ensures window { result ≡ window_of table 16 s.now }
        ensures one_step { steps.new ≡ steps.old + 1 };

    /// Loads the first 8 bytes of `s`.
    fn window_8(s: &[u8], steps: &mut Steps) -> Window
        ensures window { result ≡ window_of table 8 s.now }
        ensures one_step { steps.new ≡ steps.old + 1 };

    /// Parses the integer of 64 bits at the start of `s`, which has no sign, up to `bound`, which
    /// has `limit` digits. With `skip`, leading zeros do not count towards `limit`. Returns the
    /// value and how many digits there are. The errors are `Empty`, `Size` and `Overflow`.
    fn prefix_64<'a>(
        bound: u64,
        limit: u32,
        skip: bool,
        s: &'a [u8],
        steps: &mut Steps,
    ) -> Result<(u64, usize), AtoiSimdError<'a>>
        requires bound { IsBound64 limit bound }
        ensures answer { answer_of result ≡ prefix_magnitude table wide64 bound limit skip s.now }
        ensures loads { ClassLoads table wide64 skip s.now steps.old steps.new }
    {
        let mut at = 0;
        let mut first = Self::window(s, steps);
        while skip && first.zeroes > 0 {
            at += first.zeroes as usize;
            first = Self::window(&s[at..], steps);
        }
        if first.len < 16 {
            return found_or_empty(first.number, at + first.len as usize);
        }
        let second = Self::window_8(&s[at + 16..], steps);
        let number = append_digits(first.number, second.len, second.number);
        answer_64(bound, limit, at, 16 + second.len, number, s)
    }

    /// Like `prefix_64`, for 128 bits and a limit of 39 digits.
    fn prefix_128<'a>(
        bound: u128,
        skip: bool,
        s: &'a [u8],
        steps: &mut Steps,
    ) -> Result<(u128, usize), AtoiSimdError<'a>>
        requires digits { HasDigits 39 bound }
        ensures answer { answer_of result ≡ prefix_magnitude table wide128 bound 39 skip s.now }
        ensures loads { ClassLoads table wide128 skip s.now steps.old steps.new }
    {
        let mut skipped = 0;
        let mut first = Self::window(s, steps);
        while skip && first.zeroes > 0 {
            skipped += first.zeroes as usize;
            first = Self::window(&s[skipped..], steps);
        }
        if first.len < 16 {
            return found_or_empty(u128::from(first.number), skipped + first.len as usize);
        }
        let second = Self::window(&s[skipped + 16..], steps);
        let high = append_digits(first.number, second.len, second.number);
        if second.len < 16 {
            return Ok((high, skipped + 16 + second.len as usize));
        }
        let third = Self::window_8(&s[skipped + 32..], steps);
        answer_128(bound, skipped, high, third.len, third.number, s)
    }

    ghost below_ten: { IsBelowTen table };
}
