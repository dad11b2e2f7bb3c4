//! Tests of the reader of arrays.

use crate::checks::gives;
use atoi_uses::total_of_array;

fn found(total: i128, rest: &'static [u8]) -> Option<(i128, &'static [u8])> {
    Some((total, rest))
}

#[test]
fn arrays_and_their_rests(rt: HostRuntime) {
    gives(&rt, total_of_array(b"[12, -0, 7]"), found(19, b""));
    gives(&rt, total_of_array(b"[-5], [6]"), found(-5, b", [6]"));
    gives(&rt, total_of_array(b"[]]"), found(0, b"]"));
    gives(
        &rt,
        total_of_array(b"[9223372036854775807, 9223372036854775807]"),
        found(18446744073709551614, b""),
    );
}

#[test]
fn no_arrays(rt: HostRuntime) {
    gives(&rt, total_of_array(b""), None);
    gives(&rt, total_of_array(b"["), None);
    gives(&rt, total_of_array(b"[1"), None);
    gives(&rt, total_of_array(b"[1,2]"), None);
    gives(&rt, total_of_array(b"[1, ]"), None);
    gives(&rt, total_of_array(b"[1, 2.5]"), None);
    gives(&rt, total_of_array(b"[01]"), None);
    gives(&rt, total_of_array(b"[ 1]"), None);
    gives(&rt, total_of_array(b"[9223372036854775808]"), None);
}
