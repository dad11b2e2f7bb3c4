//! Compares each call over an engine with the plain rules.
ghost use Rattle.std.specs.Prelude.{◌≡◌};
ghost use Rattle.atoi_core.specs.Digit.{decimal_table};

use crate::checks::{give, gives, on_each_engine};
use crate::plain_rules::{self, Body, Class};
use atoi_core::{
    AtoiSimdError, Engine, Number, Signed, Steps, Window, narrow_prefix, narrow_whole,
    narrow_whole_windows, prefix_neg, prefix_pos, whole_64, whole_128, whole_neg, whole_pos,
};
use std::process::Abort;

/// Checks, on one slice, the windows of each engine, the parses over it, and `narrow_whole`, which reads
/// digit by digit. A window is what an engine reads from the first 8 or 16 bytes.
pub(crate) fn check(rt: &impl Abort, text: &[u8]) {
    let body = Body::of(text);
    check_digit_loop(rt, body);
    let windows = (plain_rules::window(16, text), plain_rules::window(8, text));
    on_each_engine!(check_windows(rt, text, windows), check_engine(rt, body));
}

/// Checks all that `check` checks, and the core calls of each type.
pub(crate) fn check_all(rt: &impl Abort, text: &[u8]) {
    check(rt, text);
    let body = Body::of(text);
    on_each_engine!(check_types(rt, body), check_texts(rt, text));
}

fn check_digit_loop(rt: &impl Abort, body: Body<'_>) {
    for bound in [255, 4294967295] {
        give!(rt;
            narrow_whole(bound, body.bytes).map(u128::from)
                => body.whole(Class::Narrow, u128::from(bound), true);
        );
    }
}

// How many digits a window holds, how many zeros, and the value of the digits.
type Parts = (usize, usize, Option<u128>);

// Checks the windows of 16 and of 8 bytes.
fn check_windows<E: Engine>(rt: &impl Abort, text: &[u8], expected: (Parts, Parts)) {
    let mut steps = Steps::new();
    gives(rt, parts_of(E::window(text, &mut steps)), expected.0);
    gives(rt, parts_of(E::window_8(text, &mut steps)), expected.1);
}

fn parts_of(window: Window) -> Parts {
    (
        window.len as usize,
        window.zeroes as usize,
        Some(u128::from(window.number)),
    )
}

// Checks the parses over an engine.
fn check_engine<E: Engine>(rt: &impl Abort, body: Body<'_>) {
    for skip in [false, true] {
        check_narrow::<E>(rt, skip, body);
        check_64::<E>(rt, skip, body);
        check_128::<E>(rt, skip, body);
    }
}

fn widened((number, len): (u64, usize)) -> (u128, usize) {
    (u128::from(number), len)
}

fn check_narrow<E: Engine>(rt: &impl Abort, skip: bool, body: Body<'_>) {
    let mut steps = Steps::new();
    for bound in [255, 4294967295] {
        give!(rt;
            narrow_prefix::<E>(bound, skip, body.bytes, &mut steps).map(widened)
                => body.prefix(Class::Narrow, u128::from(bound), skip);
            narrow_whole_windows::<E>(bound, body.bytes, &mut steps).map(u128::from)
                => body.whole(Class::Narrow, u128::from(bound), skip);
        );
    }
}

fn check_64<E: Engine>(rt: &impl Abort, skip: bool, body: Body<'_>) {
    let mut steps = Steps::new();
    for (bound, limit) in [
        (18446744073709551615, 20),
        (9223372036854775807, 19),
        (9223372036854775808, 19),
    ] {
        let class = Class::Wide64(limit as usize);
        give!(rt;
            E::prefix_64(bound, limit, skip, body.bytes, &mut steps).map(widened)
                => body.prefix(class, u128::from(bound), skip);
            whole_64::<E>(bound, limit, skip, body.bytes, &mut steps).map(u128::from)
                => body.whole(class, u128::from(bound), skip);
        );
    }
}

fn check_128<E: Engine>(rt: &impl Abort, skip: bool, body: Body<'_>) {
    let mut steps = Steps::new();
    for bound in [
        340282366920938463463374607431768211455,
        170141183460469231731687303715884105727,
        170141183460469231731687303715884105728,
    ] {
        give!(rt;
            E::prefix_128(bound, skip, body.bytes, &mut steps)
                => body.prefix(Class::Wide128, bound, skip);
            whole_128::<E>(bound, skip, body.bytes, &mut steps)
                => body.whole(Class::Wide128, bound, skip);
        );
    }
}

// Checks the core calls of each type over an engine.
fn check_types<E: Engine>(rt: &impl Abort, body: Body<'_>) {
    let (unsigned, signed) = (Class::Wide64(20), Class::Wide64(19));
    for skip in [false, true] {
        check_pos::<E, u8>(rt, Class::Narrow, 255, skip, body);
        check_pos::<E, u16>(rt, Class::Narrow, 65535, skip, body);
        check_pos::<E, u32>(rt, Class::Narrow, 4294967295, skip, body);
        check_pos::<E, u64>(rt, unsigned, 18446744073709551615, skip, body);
        check_pos::<E, usize>(rt, unsigned, 18446744073709551615, skip, body);
        check_pos::<E, u128>(rt, Class::Wide128, u128::MAX, skip, body);
        check_both::<E, i8>(rt, Class::Narrow, 128, skip, body);
        check_both::<E, i16>(rt, Class::Narrow, 32768, skip, body);
        check_both::<E, i32>(rt, Class::Narrow, 2147483648, skip, body);
        check_both::<E, i64>(rt, signed, 9223372036854775808, skip, body);
        check_both::<E, isize>(rt, signed, 9223372036854775808, skip, body);
        check_both::<E, i128>(rt, Class::Wide128, 1 << 127, skip, body);
    }
}

// Splits the number of a whole parse: says whether it is negative, and returns its magnitude, which
// is its value without the sign.
fn parts<T: Number>(
    answer: Result<T, AtoiSimdError<'_>>,
) -> Result<(bool, u128), AtoiSimdError<'_>> {
    match answer {
        Ok(value) => Ok(value.parts()),
        Err(error) => Err(error),
    }
}

// Does for the number of a prefix parse what `parts` does, and also returns the prefix's length.
fn prefix_parts<T: Number>(
    answer: Result<(T, usize), AtoiSimdError<'_>>,
) -> Result<(bool, u128, usize), AtoiSimdError<'_>> {
    match answer {
        Ok((value, len)) => {
            let (minus, number) = value.parts();
            Ok((minus, number, len))
        }
        Err(error) => Err(error),
    }
}

// Checks `whole_pos` and `prefix_pos`, the core calls whose results are from 0 to `bound`.
fn check_pos<E: Engine, T: Number>(
    rt: &impl Abort,
    class: Class,
    bound: u128,
    skip: bool,
    body: Body<'_>,
) {
    let mut steps = Steps::new();
    give!(rt;
        parts(whole_pos::<E, T>(skip, body.bytes, &mut steps))
            => body.whole(class, bound, skip).map(|number| (false, number));
        parts(atoi_fast::whole_pos::<E, T>(skip, body.bytes, &mut steps))
            => body.whole(class, bound, skip).map(|number| (false, number));
        prefix_parts(prefix_pos::<E, T>(skip, body.bytes, &mut steps))
            => body.prefix(class, bound, skip).map(|(number, len)| (false, number, len));
    );
}

// Checks the tuned calls for a text with a sign, with each flag and for each type. They are for decimal
// digits alone.
fn check_texts<E: Engine>(rt: &impl Abort, text: &[u8])
    requires decimal { E.table ≡ decimal_table }
{
    for skip in [false, true] {
        check_text::<E, u8>(rt, skip, text);
        check_text::<E, u16>(rt, skip, text);
        check_text::<E, u32>(rt, skip, text);
        check_text::<E, u64>(rt, skip, text);
        check_text::<E, usize>(rt, skip, text);
        check_text::<E, u128>(rt, skip, text);
        check_text::<E, i8>(rt, skip, text);
        check_text::<E, i16>(rt, skip, text);
        check_text::<E, i32>(rt, skip, text);
        check_text::<E, i64>(rt, skip, text);
        check_text::<E, isize>(rt, skip, text);
        check_text::<E, i128>(rt, skip, text);
    }
}

// Checks that the tuned calls for a text with a sign return what the plain ones return.
fn check_text<E: Engine, T: Number>(rt: &impl Abort, skip: bool, text: &[u8])
    requires decimal { E.table ≡ decimal_table }
{
    let mut steps = Steps::new();
    for skip_plus in [false, true] {
        give!(rt;
            parts(atoi_fast::parse_text::<E, T>(skip, skip_plus, text, &mut steps))
                => parts(atoi_core::parse_text::<E, T>(skip, skip_plus, text, &mut steps));
            prefix_parts(atoi_fast::parse_prefix_text::<E, T>(skip, skip_plus, text, &mut steps))
                => prefix_parts(atoi_core::parse_prefix_text::<E, T>(skip, skip_plus, text, &mut steps));
        );
    }
}

// Checks all core calls of a signed type, whose smallest value has the magnitude `magnitude`.
fn check_both<E: Engine, T: Signed>(
    rt: &impl Abort,
    class: Class,
    magnitude: u128,
    skip: bool,
    body: Body<'_>,
) {
    let mut steps = Steps::new();
    check_pos::<E, T>(rt, class, magnitude.saturating_sub(1), skip, body);
    give!(rt;
        parts(whole_neg::<E, T>(skip, body.bytes, &mut steps))
            => body.whole(class, magnitude, skip).map(|number| (number > 0, number));
        parts(atoi_fast::whole_neg::<E, T>(skip, body.bytes, &mut steps))
            => body.whole(class, magnitude, skip).map(|number| (number > 0, number));
        prefix_parts(prefix_neg::<E, T>(skip, body.bytes, &mut steps))
            => body.prefix(class, magnitude, skip).map(|(number, len)| (number > 0, number, len));
    );
}

#[test]
fn steps_have_no_bytes(rt: HostRuntime) {
    gives(&rt, std::mem::size_of::<Steps>(), 0);
}
