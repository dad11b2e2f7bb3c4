//! Tests of the reader of points.

use crate::checks::gives;
use atoi_uses::{Point, parse_point};

#[test]
fn three_signed_numbers(rt: HostRuntime) {
    let point = |x, y, z| Some(Point { x, y, z });
    gives(&rt, parse_point(b"-3,+40,12"), point(-3, 40, 12));
    gives(&rt, parse_point(b"0,-007,1"), point(0, -7, 1));
}

#[test]
fn what_is_no_point(rt: HostRuntime) {
    gives(&rt, parse_point(b"1,2"), None);
    gives(&rt, parse_point(b"1,,3"), None);
    gives(&rt, parse_point(b" 1,2,3"), None);
    gives(&rt, parse_point(b"1,2,3,"), None);
    gives(&rt, parse_point(b"1,9223372036854775808,3"), None);
}
