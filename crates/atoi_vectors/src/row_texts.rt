//! Worked slices and the texts of all rows: every engine answers as the plain rules.

use crate::core_calls::check_all;
use crate::differences::{LONG_ROWS, PLUS_ROWS};
use crate::original::ROWS;
use std::process::Abort;
use std::test::Fail;

// Slices of worked examples, and slices in which a window of 8 or 16 bytes ends, one on each line, except
// slices that are texts of rows.
const WORKED: &[u8] = b"\
000000000000000000001234
1234
2345
123something_else
256x
255x
12a
0000000000000000
0000000000000999x
000000000000999x
00000000000000000000000000000000x
000000000000000000000
09223372036854775807
9223372036854775808x
0001111111111111111111111111
111111111111111111111
111111111111111111111111
1111111111111111111111111
11111111111111111111111111111111x
50000000000000001
0100000000000000000
000000000000000000000000000000000000000
00000000000000000000000000000000000000000
111111111111111111111111111111111111111111111
0000111111111111111111111111111111111111111111111
0000012x
12345678901234567890123456789012
12345678901234567890123456789012s
123456789012345678901234567890123
007x
0000000000000000000000007x
0x
7\x20
000000000000123\0
0000000000000123
123\0\0\0\0\0\0\0\0\0\0\0\0\0
9999999999999999
x1
/0
:0
9\xFF9
123456789
12345678
0000000
00000000
1\0\0\0\0\0\0\0
12\0\0\0\0\0\0
";

fn is_end(byte: &u8) -> bool {
    *byte == b'\n'
}

#[test]
fn on_every_worked_slice(rt: HostRuntime) {
    for text in WORKED.split(is_end) {
        check_all(&rt, text);
    }
}

// Checks the text of each row. The text follows the first four words of the last column.
fn check_texts(rt: &impl Abort, lines: &[u8]) -> Result<(), Fail> {
    for line in lines.split(is_end).filter(|line| !line.is_empty()) {
        let row = line.split(|byte| *byte == b'|').last().ok_or("no column")?;
        let text = row
            .trim_ascii_start()
            .splitn(5, |byte| *byte == b' ')
            .nth(4);
        check_all(rt, text.ok_or("no text")?);
    }
    Ok(())
}

#[test]
fn on_every_text_of_the_original(rt: HostRuntime) -> Result<(), Fail> {
    check_texts(&rt, ROWS)?;
    check_texts(&rt, PLUS_ROWS)?;
    check_texts(&rt, LONG_ROWS)
}
