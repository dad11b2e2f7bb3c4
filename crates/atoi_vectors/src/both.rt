//! The ten functions, called in both libraries: the root of `atoi_simd` and its module `lanes`. These
//! calls have no clauses, so a test that makes many of them is proved fast.

use crate::checks::gives;
use atoi_core::Parsed;
use atoi_simd::lanes;
use std::fmt::Debug;
use std::process::Abort;

/// An integer type that both libraries parse.
pub(crate) trait Integer: atoi_simd::Parse + lanes::Parse + Debug + PartialEq {}

impl<T: atoi_simd::Parse + lanes::Parse + Debug + PartialEq> Integer for T {}

/// A signed type that both libraries parse.
pub(crate) trait SignedInteger: Integer + atoi_simd::ParseNeg + lanes::ParseNeg {}

impl<T: Integer + atoi_simd::ParseNeg + lanes::ParseNeg> SignedInteger for T {}

/// Checks that `lanes` returned the same as the root, and returns it.
pub(crate) fn same<A: Copy + Debug + PartialEq>(rt: &impl Abort, root: A, lanes: A) -> A {
    gives(rt, lanes, root);
    root
}

pub(crate) fn parse<'a, T: Integer, const ZEROES: bool, const PLUS: bool>(
    rt: &impl Abort,
    text: &'a [u8],
) -> Parsed<'a, T> {
    let root = atoi_simd::parse::<T, ZEROES, PLUS>(text);
    same(rt, root, lanes::parse::<T, ZEROES, PLUS>(text))
}

pub(crate) fn parse_pos<'a, T: Integer, const ZEROES: bool>(
    rt: &impl Abort,
    text: &'a [u8],
) -> Parsed<'a, T> {
    let root = atoi_simd::parse_pos::<T, ZEROES>(text);
    same(rt, root, lanes::parse_pos::<T, ZEROES>(text))
}

pub(crate) fn parse_neg<'a, T: SignedInteger, const ZEROES: bool>(
    rt: &impl Abort,
    text: &'a [u8],
) -> Parsed<'a, T> {
    let root = atoi_simd::parse_neg::<T, ZEROES>(text);
    same(rt, root, lanes::parse_neg::<T, ZEROES>(text))
}

pub(crate) fn parse_prefix<'a, T: Integer, const ZEROES: bool, const PLUS: bool>(
    rt: &impl Abort,
    text: &'a [u8],
) -> Parsed<'a, (T, usize)> {
    let root = atoi_simd::parse_prefix::<T, ZEROES, PLUS>(text);
    same(rt, root, lanes::parse_prefix::<T, ZEROES, PLUS>(text))
}

pub(crate) fn parse_prefix_pos<'a, T: Integer, const ZEROES: bool>(
    rt: &impl Abort,
    text: &'a [u8],
) -> Parsed<'a, (T, usize)> {
    let root = atoi_simd::parse_prefix_pos::<T, ZEROES>(text);
    same(rt, root, lanes::parse_prefix_pos::<T, ZEROES>(text))
}

pub(crate) fn parse_prefix_neg<'a, T: SignedInteger, const ZEROES: bool>(
    rt: &impl Abort,
    text: &'a [u8],
) -> Parsed<'a, (T, usize)> {
    let root = atoi_simd::parse_prefix_neg::<T, ZEROES>(text);
    same(rt, root, lanes::parse_prefix_neg::<T, ZEROES>(text))
}

pub(crate) fn parse_skipped<'a, T: Integer>(rt: &impl Abort, text: &'a [u8]) -> Parsed<'a, T> {
    let root = atoi_simd::parse_skipped::<T>(text);
    same(rt, root, lanes::parse_skipped::<T>(text))
}

pub(crate) fn parse_any<'a, T: Integer>(rt: &impl Abort, text: &'a [u8]) -> Parsed<'a, (T, usize)> {
    let root = atoi_simd::parse_any::<T>(text);
    same(rt, root, lanes::parse_any::<T>(text))
}

pub(crate) fn parse_any_pos<'a, T: Integer>(
    rt: &impl Abort,
    text: &'a [u8],
) -> Parsed<'a, (T, usize)> {
    let root = atoi_simd::parse_any_pos::<T>(text);
    same(rt, root, lanes::parse_any_pos::<T>(text))
}

pub(crate) fn parse_any_neg<'a, T: SignedInteger>(
    rt: &impl Abort,
    text: &'a [u8],
) -> Parsed<'a, (T, usize)> {
    let root = atoi_simd::parse_any_neg::<T>(text);
    same(rt, root, lanes::parse_any_neg::<T>(text))
}
