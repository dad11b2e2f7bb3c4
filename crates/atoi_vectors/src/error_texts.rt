//! What `Display` writes for errors, and how errors compare. No clause says that `Display` returns `Ok`.

use crate::checks::{gives, printed};
use atoi_column::{ColumnError, FieldError};
use atoi_formats::from_ascii;
use atoi_simd::AtoiSimdError::{Empty, Invalid64, Invalid128, Overflow, Size};
use std::alloc::{AllocError, Global};
use std::cmp::Ordering;
use std::error::Error;
use std::process::Abort;

fn displays<E: Error>(
    rt: &impl Abort,
    alloc: Global,
    error: &E,
    text: &str,
) -> Result<(), AllocError> {
    gives(rt, printed(alloc, error)?.as_str(), text);
    Ok(())
}

#[test]
fn short_texts(rt: HostRuntime) -> Result<(), AllocError> {
    for (error, text) in [
        (Empty, "atoi_simd string is empty"),
        (Size(27, b"11"), "atoi_simd wrong size: 27 input: [31, 31]"),
        (Overflow(b"129"), "atoi_simd overflow, input: [31, 32, 39]"),
        (
            Invalid64(255, 3, b"255\r"),
            "atoi_simd invalid at index: 3 it must contain only digits, starting with: 255  input: [32, 35, 35, D]",
        ),
        (
            Invalid128(12, 2, b"12a"),
            "atoi_simd invalid at index: 2 it must contain only digits, starting with: 12 input: [31, 32, 61]",
        ),
        (Overflow(b""), "atoi_simd overflow, input: []"),
    ] {
        displays(&rt, rt.alloc(), &error, text)?;
    }
    Ok(())
}

#[test]
fn the_longest_slices_and_the_largest_numbers(rt: HostRuntime) -> Result<(), AllocError> {
    for (error, text) in [
        (
            Size(usize::MAX, &[255; 48]),
            "atoi_simd wrong size: 18446744073709551615 input: [FF, FF, FF, FF, FF, FF, FF, FF, FF, FF, FF, FF, FF, FF, FF, FF, FF, FF, FF, FF, FF, FF, FF, FF, FF, FF, FF, FF, FF, FF, FF, FF, FF, FF, FF, FF, FF, FF, FF, FF, FF, FF, FF, FF, FF, FF, FF, FF]",
        ),
        (
            Overflow(&[255; 49]),
            "atoi_simd overflow, input: [FF, FF, FF, FF, FF, FF, FF, FF, FF, FF, FF, FF, FF, FF, FF, FF, FF, FF, FF, FF, FF, FF, FF, FF, FF, FF, FF, FF, FF, FF, FF, FF, FF, FF, FF, FF, FF, FF, FF, FF, FF, FF, FF, FF, FF, FF, FF, FF]",
        ),
        (
            Invalid64(u64::MAX, usize::MAX, &[255; 1000]),
            "atoi_simd invalid at index: 18446744073709551615 it must contain only digits, starting with: 18446744073709551615  input: [FF, FF, FF, FF, FF, FF, FF, FF, FF, FF, FF, FF, FF, FF, FF, FF, FF, FF, FF, FF, FF, FF, FF, FF, FF, FF, FF, FF, FF, FF, FF, FF, FF, FF, FF, FF, FF, FF, FF, FF, FF, FF, FF, FF, FF, FF, FF, FF]",
        ),
        (
            Invalid128(u128::MAX, usize::MAX, &[255; 48]),
            "atoi_simd invalid at index: 18446744073709551615 it must contain only digits, starting with: 340282366920938463463374607431768211455 input: [FF, FF, FF, FF, FF, FF, FF, FF, FF, FF, FF, FF, FF, FF, FF, FF, FF, FF, FF, FF, FF, FF, FF, FF, FF, FF, FF, FF, FF, FF, FF, FF, FF, FF, FF, FF, FF, FF, FF, FF, FF, FF, FF, FF, FF, FF, FF, FF]",
        ),
    ] {
        displays(&rt, rt.alloc(), &error, text)?;
    }
    Ok(())
}

#[test]
fn the_same_text_in_every_format(rt: HostRuntime) -> Result<(), AllocError> {
    let error = Overflow(b"129");
    let text = "atoi_simd overflow, input: [31, 32, 39]";
    gives(&rt, format!(in rt.alloc(); "{error:>80}")?.as_str(), text);
    gives(&rt, format!(in rt.alloc(); "{error:*^80}")?.as_str(), text);
    gives(
        &rt,
        format!(in rt.alloc(); "{error:<080.3}")?.as_str(),
        text,
    );
    Ok(())
}

#[test]
fn errors_of_columns(rt: HostRuntime) -> Result<(), AllocError> {
    let (index, place, alloc) = (usize::MAX, usize::MAX, rt.alloc());
    let cause = Invalid128(u128::MAX, usize::MAX, b"2xy");
    let trailing = ColumnError::Trailing { index, place };
    let column = ColumnError::Field {
        index,
        place,
        cause,
    };
    let field = FieldError {
        index,
        place,
        text: b"2x",
        cause,
    };
    let fault = "field 18446744073709551615 at byte 18446744073709551615 has an unexpected byte";
    let byte = "field 18446744073709551615 has an unexpected byte at byte 18446744073709551615";
    let sum =
        "field 18446744073709551615 at byte 18446744073709551615 has an unexpected byte at byte 36893488147419103230";
    displays(&rt, alloc, &trailing, byte)?;
    displays(&rt, alloc, &column, fault)?;
    displays(&rt, alloc, &field, sum)
}

fn message(rt: &impl Abort, alloc: Global, text: &[u8], expected: &str) -> Result<(), AllocError> {
    match from_ascii::<u8>(text) {
        Ok(number) => gives(rt, Ok(number), Err(expected)),
        Err(error) => displays(rt, alloc, &error, expected)?,
    }
    Ok(())
}

#[test]
fn errors_of_from_ascii(rt: HostRuntime) -> Result<(), AllocError> {
    gives(&rt, from_ascii::<u8>(b"+00255").ok(), Some(255));
    message(&rt, rt.alloc(), b"+", "no digit at byte 1")?;
    message(&rt, rt.alloc(), b"+12x", "unexpected byte at byte 3")?;
    message(&rt, rt.alloc(), b"256", "number out of range")
}

#[test]
fn errors_compare(rt: HostRuntime) {
    let (size, overflow) = (Size(9, b"b"), Overflow(b"a"));
    gives(&rt, size < overflow, true);
    gives(&rt, size.order(&overflow), Ordering::Less);
    gives(&rt, overflow.partial_order(&size), Some(Ordering::Greater));
    gives(&rt, size.is_same_as(&overflow), false);
}
