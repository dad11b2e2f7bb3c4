//! Tests of the reader of status lines.

use crate::checks::gives;
use atoi_uses::code_and_reason;

#[test]
fn a_code_and_its_reason(rt: HostRuntime) {
    gives(
        &rt,
        code_and_reason(b"HTTP/1.1 404 Not Found"),
        Some((404, b"Not Found".as_slice())),
    );
    gives(
        &rt,
        code_and_reason(b"HTTP/1.1 007 "),
        Some((7, b"".as_slice())),
    );
}

#[test]
fn what_is_no_status_line(rt: HostRuntime) {
    gives(&rt, code_and_reason(b"HTTP/1.1 20 OK"), None);
    gives(&rt, code_and_reason(b"HTTP/1.1 +20 OK"), None);
    gives(&rt, code_and_reason(b"HTTP/1.0 200 OK"), None);
    gives(&rt, code_and_reason(b"HTTP/1.1 200"), None);
}
