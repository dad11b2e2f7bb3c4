//! Parses with a sign, by the engine of this crate.
ghost use Rattle.std.specs.Prelude.{◌≡◌, ◌≤◌, IfOk, length};
ghost use Rattle.atoi_core.specs.Answer.{typed_answer, typed_prefix_answer, parse_answer, parse_prefix_answer};

use crate::default_engine::{DefaultEngine, parse_prefix_text, parse_text};
use crate::parse_pos_trait::ParsePos;
use atoi_core::{Parsed, Steps};

/// An integer type that is parsed with a sign. No other crate can implement it. Its methods take
/// [flags](crate::guide#choose-the-flags) that are known only at run time.
///
/// ```
/// use torkettle::{AtoiSimdError, Parse, parse};
///
/// fn trimmed<T: Parse>(text: &[u8]) -> Result<T, AtoiSimdError<'_>> {
///     parse::<T, false, false>(text.trim_ascii())
/// }
/// assert_eq!(trimmed::<u16>(b" 80\n"), Ok(80));
/// let (skip_zeroes, skip_plus) = (true, false);
/// assert_eq!(u16::atoi_simd_parse(b"+80", skip_zeroes, skip_plus), Err(AtoiSimdError::Empty));
/// ```
pub trait Parse: ParsePos {
    /// [`parse`](crate::parse) with its flags as arguments.
    ///
    /// # Errors
    ///
    /// As for `parse`.
    fn atoi_simd_parse(s: &[u8], skip_zeroes: bool, skip_plus: bool) -> Parsed<'_, Self>
        ensures answer { typed_answer Self.number result
            ≡ parse_answer Self.int_type skip_zeroes skip_plus s.now };

    /// [`parse_prefix`](crate::parse_prefix) with its flags as arguments.
    ///
    /// # Errors
    ///
    /// As for `parse_prefix`.
    fn atoi_simd_parse_prefix(
        s: &[u8],
        skip_zeroes: bool,
        skip_plus: bool,
    ) -> Parsed<'_, (Self, usize)>
        ensures answer { typed_prefix_answer Self.number result
            ≡ parse_prefix_answer Self.int_type skip_zeroes skip_plus s.now }
        ensures within { IfOk result (λ found. found.1 ≤ length s.now) };
}

impl Parse for u8 {
    #[inline(always)]
    fn atoi_simd_parse(s: &[u8], skip: bool, skip_plus: bool) -> Parsed<'_, Self> {
        parse_text::<DefaultEngine, u8>(skip, skip_plus, s, &mut Steps::new())
    }

    #[inline(always)]
    fn atoi_simd_parse_prefix(s: &[u8], skip: bool, skip_plus: bool) -> Parsed<'_, (Self, usize)> {
        parse_prefix_text::<DefaultEngine, u8>(skip, skip_plus, s, &mut Steps::new())
    }
}

impl Parse for i8 {
    #[inline(always)]
    fn atoi_simd_parse(s: &[u8], skip: bool, skip_plus: bool) -> Parsed<'_, Self> {
        parse_text::<DefaultEngine, i8>(skip, skip_plus, s, &mut Steps::new())
    }

    #[inline(always)]
    fn atoi_simd_parse_prefix(s: &[u8], skip: bool, skip_plus: bool) -> Parsed<'_, (Self, usize)> {
        parse_prefix_text::<DefaultEngine, i8>(skip, skip_plus, s, &mut Steps::new())
    }
}

impl Parse for u16 {
    #[inline(always)]
    fn atoi_simd_parse(s: &[u8], skip: bool, skip_plus: bool) -> Parsed<'_, Self> {
        parse_text::<DefaultEngine, u16>(skip, skip_plus, s, &mut Steps::new())
    }

    #[inline(always)]
    fn atoi_simd_parse_prefix(s: &[u8], skip: bool, skip_plus: bool) -> Parsed<'_, (Self, usize)> {
        parse_prefix_text::<DefaultEngine, u16>(skip, skip_plus, s, &mut Steps::new())
    }
}

impl Parse for i16 {
    #[inline(always)]
    fn atoi_simd_parse(s: &[u8], skip: bool, skip_plus: bool) -> Parsed<'_, Self> {
        parse_text::<DefaultEngine, i16>(skip, skip_plus, s, &mut Steps::new())
    }

    #[inline(always)]
    fn atoi_simd_parse_prefix(s: &[u8], skip: bool, skip_plus: bool) -> Parsed<'_, (Self, usize)> {
        parse_prefix_text::<DefaultEngine, i16>(skip, skip_plus, s, &mut Steps::new())
    }
}

impl Parse for u32 {
    #[inline(always)]
    fn atoi_simd_parse(s: &[u8], skip: bool, skip_plus: bool) -> Parsed<'_, Self> {
        parse_text::<DefaultEngine, u32>(skip, skip_plus, s, &mut Steps::new())
    }

    #[inline(always)]
    fn atoi_simd_parse_prefix(s: &[u8], skip: bool, skip_plus: bool) -> Parsed<'_, (Self, usize)> {
        parse_prefix_text::<DefaultEngine, u32>(skip, skip_plus, s, &mut Steps::new())
    }
}

impl Parse for i32 {
    #[inline(always)]
    fn atoi_simd_parse(s: &[u8], skip: bool, skip_plus: bool) -> Parsed<'_, Self> {
        parse_text::<DefaultEngine, i32>(skip, skip_plus, s, &mut Steps::new())
    }

    #[inline(always)]
    fn atoi_simd_parse_prefix(s: &[u8], skip: bool, skip_plus: bool) -> Parsed<'_, (Self, usize)> {
        parse_prefix_text::<DefaultEngine, i32>(skip, skip_plus, s, &mut Steps::new())
    }
}

impl Parse for usize {
    #[inline(always)]
    fn atoi_simd_parse(s: &[u8], skip: bool, skip_plus: bool) -> Parsed<'_, Self> {
        parse_text::<DefaultEngine, usize>(skip, skip_plus, s, &mut Steps::new())
    }

    #[inline(always)]
    fn atoi_simd_parse_prefix(s: &[u8], skip: bool, skip_plus: bool) -> Parsed<'_, (Self, usize)> {
        parse_prefix_text::<DefaultEngine, usize>(skip, skip_plus, s, &mut Steps::new())
    }
}

impl Parse for isize {
    #[inline(always)]
    fn atoi_simd_parse(s: &[u8], skip: bool, skip_plus: bool) -> Parsed<'_, Self> {
        parse_text::<DefaultEngine, isize>(skip, skip_plus, s, &mut Steps::new())
    }

    #[inline(always)]
    fn atoi_simd_parse_prefix(s: &[u8], skip: bool, skip_plus: bool) -> Parsed<'_, (Self, usize)> {
        parse_prefix_text::<DefaultEngine, isize>(skip, skip_plus, s, &mut Steps::new())
    }
}

impl Parse for u64 {
    #[inline(always)]
    fn atoi_simd_parse(s: &[u8], skip: bool, skip_plus: bool) -> Parsed<'_, Self> {
        parse_text::<DefaultEngine, u64>(skip, skip_plus, s, &mut Steps::new())
    }

    #[inline(always)]
    fn atoi_simd_parse_prefix(s: &[u8], skip: bool, skip_plus: bool) -> Parsed<'_, (Self, usize)> {
        parse_prefix_text::<DefaultEngine, u64>(skip, skip_plus, s, &mut Steps::new())
    }
}

impl Parse for i64 {
    #[inline(always)]
    fn atoi_simd_parse(s: &[u8], skip: bool, skip_plus: bool) -> Parsed<'_, Self> {
        parse_text::<DefaultEngine, i64>(skip, skip_plus, s, &mut Steps::new())
    }

    #[inline(always)]
    fn atoi_simd_parse_prefix(s: &[u8], skip: bool, skip_plus: bool) -> Parsed<'_, (Self, usize)> {
        parse_prefix_text::<DefaultEngine, i64>(skip, skip_plus, s, &mut Steps::new())
    }
}

impl Parse for u128 {
    #[inline(always)]
    fn atoi_simd_parse(s: &[u8], skip: bool, skip_plus: bool) -> Parsed<'_, Self> {
        parse_text::<DefaultEngine, u128>(skip, skip_plus, s, &mut Steps::new())
    }

    #[inline(always)]
    fn atoi_simd_parse_prefix(s: &[u8], skip: bool, skip_plus: bool) -> Parsed<'_, (Self, usize)> {
        parse_prefix_text::<DefaultEngine, u128>(skip, skip_plus, s, &mut Steps::new())
    }
}

impl Parse for i128 {
    #[inline(always)]
    fn atoi_simd_parse(s: &[u8], skip: bool, skip_plus: bool) -> Parsed<'_, Self> {
        parse_text::<DefaultEngine, i128>(skip, skip_plus, s, &mut Steps::new())
    }

    #[inline(always)]
    fn atoi_simd_parse_prefix(s: &[u8], skip: bool, skip_plus: bool) -> Parsed<'_, (Self, usize)> {
        parse_prefix_text::<DefaultEngine, i128>(skip, skip_plus, s, &mut Steps::new())
    }
}
