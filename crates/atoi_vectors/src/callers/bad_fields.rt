//! Tests of the number of bad fields.

use crate::checks::gives;
use atoi_uses::count_bad_fields;

#[test]
fn each_bad_field_counts(rt: HostRuntime) {
    gives(&rt, count_bad_fields(b"", b','), 0);
    gives(&rt, count_bad_fields(b"1,+2,003,", b','), 0);
    gives(&rt, count_bad_fields(b"x,1,,-1,4294967296,1a", b','), 5);
    gives(&rt, count_bad_fields(b"\n\n", b'\n'), 2);
}
