//! Tests of the reader of durations.

use crate::checks::gives;
use atoi_uses::{DurationError, duration};

#[test]
fn hours_minutes_and_seconds(rt: HostRuntime) {
    gives(&rt, duration(b"1h30m15s"), Ok(5415));
    gives(&rt, duration(b"00h0m90s"), Ok(90));
    gives(&rt, duration(b"0h0m18446744073709551615s"), Ok(u64::MAX));
}

#[test]
fn what_is_no_duration(rt: HostRuntime) {
    let none = Err(DurationError::NoDuration);
    gives(&rt, duration(b""), none);
    gives(&rt, duration(b"1h30m"), none);
    gives(&rt, duration(b"1h-30m15s"), none);
    gives(&rt, duration(b"1h30m15s "), none);
    gives(&rt, duration(b"99999999999999999999h30m"), none);
}

#[test]
fn what_is_too_large(rt: HostRuntime) {
    let large = Err(DurationError::TooLarge);
    gives(&rt, duration(b"0h0m18446744073709551616s"), large);
    gives(&rt, duration(b"0h1m18446744073709551556s"), large);
    gives(&rt, duration(b"0h99999999999999999999999999m0s"), large);
}
