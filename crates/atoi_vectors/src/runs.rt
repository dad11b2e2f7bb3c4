//! Runs of up to 49 digits, a million zeros, and runs with each of the 256 bytes at each offset: every
//! engine answers as the plain rules.

use crate::checks::{give, on_each_engine};
use crate::core_calls::check;
use atoi_core::{Engine, Steps, narrow_prefix};
use std::process::Abort;
use std::test::Fail;

// Zeros, ones, zeros before a seven, and all digits in turn.
#[test]
fn of_every_length(rt: HostRuntime) {
    let (zeros, ones) = ([b'0'; 48], [b'1'; 48]);
    let seven = b"0000000000000000000000000000000000000000000000007";
    let digits = b"123456789012345678901234567890123456789012345678";
    for len in 0..=48 {
        check(&rt, &zeros[..len]);
        check(&rt, &ones[..len]);
        check(&rt, &seven[48 - len..]);
        check(&rt, &digits[..len]);
    }
}

fn after_zeros<E: Engine>(rt: &impl Abort, text: &[u8]) {
    let mut steps = Steps::new();
    give!(rt;
        narrow_prefix::<E>(255, true, text, &mut steps) => Ok((7, 1_000_001));
        E::prefix_64(u64::MAX, 20, true, text, &mut steps) => Ok((7, 1_000_001));
        E::prefix_128(u128::MAX, true, text, &mut steps) => Ok((7, 1_000_001));
    );
}

// A call inside another for each block of zeros would overflow the stack.
#[test]
fn after_a_million_zeros(rt: HostRuntime) -> Result<(), Fail> {
    let mut text = vec![in rt.alloc(); b'0'; 1_000_000]?;
    text.push(b'7')?;
    on_each_engine!(after_zeros(&rt, &text));
    Ok(())
}

// A run of `len` ones, then a byte that carries into the next one when a constant is added to a
// word, then eight nines.
#[test]
fn before_a_byte_that_carries(rt: HostRuntime) {
    for len in 0..=16 {
        for byte in 0xFA..=0xFFu8 {
            let mut text = [b'1'; 25];
            text[len] = byte;
            text[len + 1..len + 9].copy_from_slice(b"99999999");
            check(&rt, &text[..len + 9]);
        }
    }
}

// Each byte whose highest bit is `high`, in turn at each offset of 41 bytes `fill`.
fn check_places(rt: &impl Abort, fill: u8, high: u8) {
    for place in 0..41 {
        let mut text = [fill; 41];
        for low in 0..=127u8 {
            text[place] = high | low;
            check(rt, &text);
        }
    }
}

#[test]
fn ascii_among_zeros(rt: HostRuntime) {
    check_places(&rt, b'0', 0);
}

#[test]
fn other_bytes_among_zeros(rt: HostRuntime) {
    check_places(&rt, b'0', 0x80);
}

#[test]
fn ascii_among_ones(rt: HostRuntime) {
    check_places(&rt, b'1', 0);
}

#[test]
fn other_bytes_among_ones(rt: HostRuntime) {
    check_places(&rt, b'1', 0x80);
}
