//! Tests of the reader of pairs.

use crate::checks::gives;
use atoi_uses::total_of_pairs;

fn stop(total: i64, rest: &'static [u8]) -> Result<i64, (i64, &'static [u8])> {
    Err((total, rest))
}

#[test]
fn pairs_to_the_end(rt: HostRuntime) {
    gives(&rt, total_of_pairs(b"key=12;key=-7;"), Ok(5));
    gives(&rt, total_of_pairs(b"key=+007;"), Ok(7));
    gives(&rt, total_of_pairs(b""), Ok(0));
}

#[test]
fn where_pairs_stop(rt: HostRuntime) {
    gives(&rt, total_of_pairs(b"key=12;key=7"), stop(12, b"key=7"));
    gives(&rt, total_of_pairs(b"key=12; key=7;"), stop(12, b" key=7;"));
    gives(&rt, total_of_pairs(b"other=12;"), stop(0, b"other=12;"));
    gives(
        &rt,
        total_of_pairs(b"key=9223372036854775807;key=1;"),
        stop(9223372036854775807, b"key=1;"),
    );
}
