//! Tests of the reader of a number and a line feed.

use crate::checks::gives;
use atoi_uses::number_line;

#[test]
fn whole_lines(rt: HostRuntime) {
    gives(
        &rt,
        number_line(b"-42\n7\n"),
        Ok(Some((-42, b"7\n".as_slice()))),
    );
    gives(&rt, number_line(b"+007\n"), Ok(Some((7, b"".as_slice()))));
}

#[test]
fn a_line_that_is_cut_anywhere(rt: HostRuntime) {
    gives(&rt, number_line(b""), Ok(None));
    gives(&rt, number_line(b"-"), Ok(None));
    gives(&rt, number_line(b"-4"), Ok(None));
    gives(&rt, number_line(b"-42"), Ok(None));
}

#[test]
fn wrong_lines(rt: HostRuntime) {
    gives(&rt, number_line(b"x"), Err(0));
    gives(&rt, number_line(b"-x"), Err(1));
    gives(&rt, number_line(b"\n"), Err(0));
    gives(&rt, number_line(b"-42\r\n"), Err(3));
    gives(&rt, number_line(b"9223372036854775808"), Err(0));
}
