//! Tests of the reader of times.

use crate::checks::gives;
use atoi_uses::{Time, parse_time};

#[test]
fn times_of_day(rt: HostRuntime) {
    let time = |hour, minute, second, nanosecond| Some(Time {
        hour,
        minute,
        second,
        nanosecond,
    });
    gives(&rt, parse_time(b"7:30:15"), time(7, 30, 15, 0));
    gives(&rt, parse_time(b"07:05:00"), time(7, 5, 0, 0));
    gives(&rt, parse_time(b"0:00:00.25"), time(0, 0, 0, 250_000_000));
    gives(&rt, parse_time(b"7:30:15.000000001"), time(7, 30, 15, 1));
    gives(
        &rt,
        parse_time(b"23:59:59.999999999"),
        time(23, 59, 59, 999_999_999),
    );
}

#[test]
fn what_is_no_time(rt: HostRuntime) {
    gives(&rt, parse_time(b"7:30"), None);
    gives(&rt, parse_time(b"007:30:15"), None);
    gives(&rt, parse_time(b"7:3:15"), None);
    gives(&rt, parse_time(b"7:30:5"), None);
    gives(&rt, parse_time(b"7:30:15 "), None);
    gives(&rt, parse_time(b"7:30:150"), None);
    gives(&rt, parse_time(b"7:30:15."), None);
    gives(&rt, parse_time(b"7:30:15.0000000001"), None);
    gives(&rt, parse_time(b"7:30:15.2x"), None);
    gives(&rt, parse_time(b"24:00:00"), None);
    gives(&rt, parse_time(b"7:60:00"), None);
    gives(&rt, parse_time(b"7:00:60"), None);
    gives(&rt, parse_time(b":30:15"), None);
    gives(&rt, parse_time(b"+7:30:15"), None);
    gives(&rt, parse_time(b""), None);
}
