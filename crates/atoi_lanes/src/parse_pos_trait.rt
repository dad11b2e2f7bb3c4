//! Parses of digits without a sign, by the engine of this crate.
ghost use Rattle.std.specs.Prelude.{◌≡◌, ◌≤◌, false, IfOk, length};
ghost use Rattle.atoi_core.specs.Answer.{typed_answer, typed_prefix_answer, whole_answer, prefix_answer};
ghost use Rattle.atoi_core.specs.Digit.{decimal_table};

use crate::default_engine::{DefaultEngine, prefix_pos, whole_pos};
use atoi_core::{Number, Parsed, Steps};

/// An integer type that is parsed from digits without a sign. No other crate can name it.
pub trait ParsePos: Number {
    /// [`parse_pos`](crate::parse_pos) with its flag as an argument.
    fn atoi_simd_parse_pos(s: &[u8], skip_zeroes: bool) -> Parsed<'_, Self>
        ensures answer { typed_answer Self.number result
            ≡ whole_answer decimal_table Self.int_type false skip_zeroes s.now };

    /// [`parse_prefix_pos`](crate::parse_prefix_pos) with its flag as an argument.
    fn atoi_simd_parse_prefix_pos(s: &[u8], skip_zeroes: bool) -> Parsed<'_, (Self, usize)>
        ensures answer { typed_prefix_answer Self.number result
            ≡ prefix_answer decimal_table Self.int_type false skip_zeroes s.now }
        ensures within { IfOk result (λ found. found.1 ≤ length s.now) };
}

impl ParsePos for u8 {
    #[inline(always)]
    fn atoi_simd_parse_pos(s: &[u8], skip: bool) -> Parsed<'_, Self> {
        whole_pos::<DefaultEngine, u8>(skip, s, &mut Steps::new())
    }

    #[inline(always)]
    fn atoi_simd_parse_prefix_pos(s: &[u8], skip: bool) -> Parsed<'_, (Self, usize)> {
        prefix_pos::<DefaultEngine, u8>(skip, s, &mut Steps::new())
    }
}

impl ParsePos for i8 {
    #[inline(always)]
    fn atoi_simd_parse_pos(s: &[u8], skip: bool) -> Parsed<'_, Self> {
        whole_pos::<DefaultEngine, i8>(skip, s, &mut Steps::new())
    }

    #[inline(always)]
    fn atoi_simd_parse_prefix_pos(s: &[u8], skip: bool) -> Parsed<'_, (Self, usize)> {
        prefix_pos::<DefaultEngine, i8>(skip, s, &mut Steps::new())
    }
}

impl ParsePos for u16 {
    #[inline(always)]
    fn atoi_simd_parse_pos(s: &[u8], skip: bool) -> Parsed<'_, Self> {
        whole_pos::<DefaultEngine, u16>(skip, s, &mut Steps::new())
    }

    #[inline(always)]
    fn atoi_simd_parse_prefix_pos(s: &[u8], skip: bool) -> Parsed<'_, (Self, usize)> {
        prefix_pos::<DefaultEngine, u16>(skip, s, &mut Steps::new())
    }
}

impl ParsePos for i16 {
    #[inline(always)]
    fn atoi_simd_parse_pos(s: &[u8], skip: bool) -> Parsed<'_, Self> {
        whole_pos::<DefaultEngine, i16>(skip, s, &mut Steps::new())
    }

    #[inline(always)]
    fn atoi_simd_parse_prefix_pos(s: &[u8], skip: bool) -> Parsed<'_, (Self, usize)> {
        prefix_pos::<DefaultEngine, i16>(skip, s, &mut Steps::new())
    }
}

impl ParsePos for u32 {
    #[inline(always)]
    fn atoi_simd_parse_pos(s: &[u8], skip: bool) -> Parsed<'_, Self> {
        whole_pos::<DefaultEngine, u32>(skip, s, &mut Steps::new())
    }

    #[inline(always)]
    fn atoi_simd_parse_prefix_pos(s: &[u8], skip: bool) -> Parsed<'_, (Self, usize)> {
        prefix_pos::<DefaultEngine, u32>(skip, s, &mut Steps::new())
    }
}

impl ParsePos for i32 {
    #[inline(always)]
    fn atoi_simd_parse_pos(s: &[u8], skip: bool) -> Parsed<'_, Self> {
        whole_pos::<DefaultEngine, i32>(skip, s, &mut Steps::new())
    }

    #[inline(always)]
    fn atoi_simd_parse_prefix_pos(s: &[u8], skip: bool) -> Parsed<'_, (Self, usize)> {
        prefix_pos::<DefaultEngine, i32>(skip, s, &mut Steps::new())
    }
}

impl ParsePos for usize {
    #[inline(always)]
    fn atoi_simd_parse_pos(s: &[u8], skip: bool) -> Parsed<'_, Self> {
        whole_pos::<DefaultEngine, usize>(skip, s, &mut Steps::new())
    }

    #[inline(always)]
    fn atoi_simd_parse_prefix_pos(s: &[u8], skip: bool) -> Parsed<'_, (Self, usize)> {
        prefix_pos::<DefaultEngine, usize>(skip, s, &mut Steps::new())
    }
}

impl ParsePos for isize {
    #[inline(always)]
    fn atoi_simd_parse_pos(s: &[u8], skip: bool) -> Parsed<'_, Self> {
        whole_pos::<DefaultEngine, isize>(skip, s, &mut Steps::new())
    }

    #[inline(always)]
    fn atoi_simd_parse_prefix_pos(s: &[u8], skip: bool) -> Parsed<'_, (Self, usize)> {
        prefix_pos::<DefaultEngine, isize>(skip, s, &mut Steps::new())
    }
}

impl ParsePos for u64 {
    #[inline(always)]
    fn atoi_simd_parse_pos(s: &[u8], skip: bool) -> Parsed<'_, Self> {
        whole_pos::<DefaultEngine, u64>(skip, s, &mut Steps::new())
    }

    #[inline(always)]
    fn atoi_simd_parse_prefix_pos(s: &[u8], skip: bool) -> Parsed<'_, (Self, usize)> {
        prefix_pos::<DefaultEngine, u64>(skip, s, &mut Steps::new())
    }
}

impl ParsePos for i64 {
    #[inline(always)]
    fn atoi_simd_parse_pos(s: &[u8], skip: bool) -> Parsed<'_, Self> {
        whole_pos::<DefaultEngine, i64>(skip, s, &mut Steps::new())
    }

    #[inline(always)]
    fn atoi_simd_parse_prefix_pos(s: &[u8], skip: bool) -> Parsed<'_, (Self, usize)> {
        prefix_pos::<DefaultEngine, i64>(skip, s, &mut Steps::new())
    }
}

impl ParsePos for u128 {
    #[inline(always)]
    fn atoi_simd_parse_pos(s: &[u8], skip: bool) -> Parsed<'_, Self> {
        whole_pos::<DefaultEngine, u128>(skip, s, &mut Steps::new())
    }

    #[inline(always)]
    fn atoi_simd_parse_prefix_pos(s: &[u8], skip: bool) -> Parsed<'_, (Self, usize)> {
        prefix_pos::<DefaultEngine, u128>(skip, s, &mut Steps::new())
    }
}

impl ParsePos for i128 {
    #[inline(always)]
    fn atoi_simd_parse_pos(s: &[u8], skip: bool) -> Parsed<'_, Self> {
        whole_pos::<DefaultEngine, i128>(skip, s, &mut Steps::new())
    }

    #[inline(always)]
    fn atoi_simd_parse_prefix_pos(s: &[u8], skip: bool) -> Parsed<'_, (Self, usize)> {
        prefix_pos::<DefaultEngine, i128>(skip, s, &mut Steps::new())
    }
}
