//! Tests of the search for the first bad line of two pieces.

use crate::checks::gives;
use atoi_uses::first_bad_line;

#[test]
fn an_index_counts_the_lines_of_both_pieces(rt: HostRuntime) {
    gives(&rt, first_bad_line(b"", b""), None);
    gives(&rt, first_bad_line(b"1\n+2\r\n", b"003\n4"), None);
    gives(&rt, first_bad_line(b"1\nx\n", b"y"), Some(1));
    gives(&rt, first_bad_line(b"1\n2\n", b"3\nx"), Some(3));
    gives(&rt, first_bad_line(b"", b"1\n\n"), Some(1));
    gives(&rt, first_bad_line(b"1\r\n", b"4294967296\n"), Some(1));
}
