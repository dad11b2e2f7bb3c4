//! Tests of the answers to whole inputs, and of writers that fail. The expected answers to good rows
//! come from the Rust crate `atoi_simd` 0.18.1, except to prefixes that count a plus, or have more
//! than 16 digits for types of up to 32 bits.

use super::answer_lines;
use crate::checks::{answered, gives};
use crate::devices::{Full, LimitedWriter};
use crate::sink::ToWriter;
use crate::status::{ToolError, status};
use std::alloc::{AllocError, Global};
use std::process::Abort;
use std::test::Fail;

// Each line is `ANSWER | CALL TYPE FLAGS TEXT`: every call with each choice of its flags, and every
// type. A text may contain spaces.
const GOOD_ROWS: &[u8] = b"\
ok 0 | neg i8 -- 0
err atoi_simd overflow, input: [31, 32, 38] | pos i8 -- 128
err atoi_simd invalid at index: 3 it must contain only digits, starting with: 255  input: [32, 35, 35, D] | pos u8 -- 255\r
err atoi_simd string is empty | pos u8 --\x20
ok 5 | pos u16 -- 5
ok 5 | pos u8 -- 5
ok -170141183460469231731687303715884105728 | parse i128 zp -170141183460469231731687303715884105728
ok 0 2 | prefix i8 -- -0x
err atoi_simd invalid at index: 3 it must contain only digits, starting with: 7  input: [30, 30, 37, 78] | parse u64 z- 007x
err atoi_simd invalid at index: 19 it must contain only digits, starting with: 9223372036854775808  input: [39, 32, 32, 33, 33, 37, 32, 30, 33, 36, 38, 35, 34, 37, 37, 35, 38, 30, 38, 78] | neg i64 -- 9223372036854775808x
ok 1234 | parse u64 zp +000000000000000000001234
ok 123 3 | prefix u64 -- 123something_else
ok 12 3 | prefix i32 -p +12a
ok -128 3 | prefix_neg i8 -- 128,
err atoi_simd overflow, input: [31, 32, 39] | parse i8 -- -129
err atoi_simd string is empty | parse u8 --\x20
err atoi_simd invalid at index: 2 it must contain only digits, starting with: 12 input: [31, 32, 61] | parse u128 -- 12a
err atoi_simd invalid at index: 2 it must contain only digits, starting with: 12  input: [31, 32, 61] | parse u64 -- 12a
err atoi_simd string is empty | pos u8 -- \x20
err atoi_simd invalid at index: 1 it must contain only digits, starting with: 1  input: [31, 20, 32] | pos u8 -- 1 2
err atoi_simd invalid at index: 1 it must contain only digits, starting with: 7  input: [37, 0] | pos u8 -- 7\0
err atoi_simd invalid at index: 1 it must contain only digits, starting with: 0  input: [30, FF, D] | pos u8 z- 0\xFF\r
ok 7 1 | prefix u8 -- 7\0\r\xFF
err atoi_simd string is empty | parse u8 -- \xFF7
err atoi_simd wrong size: 17 input: [30, 30, 30, 30, 30, 30, 30, 30, 30, 30, 30, 30, 30, 30, 30, 30, 37] | prefix u8 -- 00000000000000007
ok -5 | parse isize -p -5
ok 0 2 | prefix isize z- -0x
ok -12 3 | prefix i16 zp -12a
err atoi_simd overflow, input: [33, 32, 37, 36, 39] | neg i16 z- 32769
ok 4294967295 10 | prefix_pos u32 -- 4294967295,
ok 7 17 | prefix_pos usize z- 00000000000000007
ok -9223372036854775808 19 | prefix_neg isize z- 9223372036854775808e
";

// Asserts that the row of the line has its answer, with either engine.
fn assert_answer(rt: &impl Abort, alloc: Global, line: &[u8]) -> Result<(), Fail> {
    let mut columns = line.split(|byte| *byte == b'|');
    let answer = columns.next().ok_or("no answer")?.trim_ascii_end();
    let row = columns.next().ok_or("no row")?.trim_ascii_start();
    for engine in [b"w ", b"l "] {
        let mut input = engine.to_vec(alloc)?;
        input.extend_from_slice(row)?;
        let (output, good) = answered(alloc, &input)?;
        assert!(rt; good, "to {row:?}");
        gives(rt, output.strip_suffix(b"\n"), Some(answer));
    }
    Ok(())
}

#[test]
fn answers_good_rows(rt: HostRuntime) -> Result<(), Fail> {
    let lines = GOOD_ROWS.split(|byte| *byte == b'\n');
    for line in lines.filter(|line| !line.is_empty()) {
        assert_answer(&rt, rt.alloc(), line)?;
    }
    Ok(())
}

// Returns `start`, a million zeros and `end`.
fn long_row(alloc: Global, start: &[u8], end: &[u8]) -> Result<Vec<u8>, AllocError> {
    let mut row = start.to_vec(alloc)?;
    row.extend_from_slice(&vec![in alloc; b'0'; 1_000_000]?)?;
    row.extend_from_slice(end)?;
    Ok(row)
}

// Returns an error line that ends with 48 zeros in hexadecimal, of which `start` has the first.
fn with_48_zeros(alloc: Global, start: &[u8]) -> Result<Vec<u8>, AllocError> {
    let mut line = start.to_vec(alloc)?;
    for _ in 1..48 {
        line.extend_from_slice(b", 30")?;
    }
    line.extend_from_slice(b"]\n")?;
    Ok(line)
}

#[test]
fn answers_long_rows(rt: HostRuntime) -> Result<(), Fail> {
    let row = long_row(rt.alloc(), b"w parse u8 z- ", b"7")?;
    let (output, _) = answered(rt.alloc(), &row)?;
    gives(&rt, output.as_slice(), b"ok 7\n".as_slice());

    let row = long_row(rt.alloc(), b"l prefix u64 z- ", b"7x")?;
    let (output, _) = answered(rt.alloc(), &row)?;
    gives(&rt, output.as_slice(), b"ok 7 1000001\n".as_slice());

    let line = with_48_zeros(rt.alloc(), b"err atoi_simd wrong size: 24 input: [30")?;
    let row = long_row(rt.alloc(), b"w prefix u64 -- ", b"")?;
    let (output, _) = answered(rt.alloc(), &row)?;
    gives(&rt, output.as_slice(), line.as_slice());
    Ok(())
}

// Only an index with more digits makes an answer longer.
#[test]
fn answers_the_longest_line(rt: HostRuntime) -> Result<(), Fail> {
    let greatest = b"340282366920938463463374607431768211455x";
    let line = with_48_zeros(
        rt.alloc(),
        b"err atoi_simd invalid at index: 1000039 it must contain only digits, starting with: 340282366920938463463374607431768211455 input: [30",
    )?;
    let row = long_row(rt.alloc(), b"w parse u128 z- ", greatest)?;
    let (output, _) = answered(rt.alloc(), &row)?;
    gives(&rt, output.as_slice(), line.as_slice());
    let row = long_row(rt.alloc(), b"l pos u128 z- ", greatest)?;
    let (output, _) = answered(rt.alloc(), &row)?;
    gives(&rt, output.as_slice(), line.as_slice());
    Ok(())
}

// Asserts that the answer to each of the lines is `bad row`.
fn assert_bad_rows(rt: &impl Abort, alloc: Global, rows: &[&[u8]]) -> Result<(), Fail> {
    for row in rows {
        let mut line = row.to_vec(alloc)?;
        line.push(b'\n')?;
        let (output, good) = answered(alloc, &line)?;
        assert_eq!(rt; output.as_slice(), b"bad row\n".as_slice(), "to {row:?}");
        assert!(rt; !good);
    }
    Ok(())
}

#[test]
fn refuses_bad_rows(rt: HostRuntime) -> Result<(), Fail> {
    let rows: [&[u8]; 22] = [
        b"",
        b" ",
        b"    ",
        b"w pos u8 --",
        b"w parse u8 --",
        b" w pos u8 -- 5",
        b"w  pos u8 -- 5",
        b"w pos  u8 -- 5",
        b"w pos u8  -- 5",
        b"W pos u8 -- 5",
        b"x pos u8 -- 5",
        b"w po u8 -- 5",
        b"w neg u8 -- 5",
        b"l prefix_neg usize -- 5",
        b"w pos u9 -- 5",
        b"w pos u8 zz 5",
        b"w pos u8 -p 5",
        b"l neg i8 -p 5",
        b"w prefix_pos u8 -p 5",
        b"w prefix_neg i8 zp 5",
        b"w pos u8 p- 5",
        b"w\0pos u8 -- 5",
    ];
    assert_bad_rows(&rt, rt.alloc(), &rows)
}

#[test]
fn refuses_other_bytes_in_the_words(rt: HostRuntime) -> Result<(), Fail> {
    let rows: [&[u8]; 15] = [
        b"w\0 pos u8 -- 5",
        b"w p\0s u8 -- 5",
        b"w pos \0u8 -- 5",
        b"w pos u8 -\0 5",
        b"w\r pos u8 -- 5",
        b"\rw pos u8 -- 5",
        b"w pos\r u8 -- 5",
        b"w pos u8\r -- 5",
        b"w pos u8 --\r 5",
        b"\xFFw pos u8 -- 5",
        b"w \xFFpos u8 -- 5",
        b"w pos u8\xFF -- 5",
        b"w pos u8 \xFF- 5",
        b"\xFF\xFF\xFF\xFF",
        b"\0 \r \xFF \0 5",
    ];
    assert_bad_rows(&rt, rt.alloc(), &rows)
}

#[test]
fn answers_an_input_that_is_cut(rt: HostRuntime) -> Result<(), Fail> {
    let input = b"w pos u8 -- 255";
    for kept in 0..=15 {
        let (output, good) = answered(rt.alloc(), &input[..kept])?;
        let (answer, is_good): (&[u8], bool) = match kept {
            0 => (b"", true),
            12 => (b"err atoi_simd string is empty\n", true),
            13 => (b"ok 2\n", true),
            14 => (b"ok 25\n", true),
            15 => (b"ok 255\n", true),
            _ => (b"bad row\n", false),
        };
        gives(&rt, output.as_slice(), answer);
        gives(&rt, good, is_good);
        gives(&rt, status(&Ok(good)), if is_good { 0 } else { 2 });
    }
    Ok(())
}

const LINES: &[u8] = b"w pos u8 -- 255\nw pos u8 -- 256x\n\nw neg i8 -- 128";

const ANSWERS: &[u8] =
    b"ok 255\nerr atoi_simd overflow, input: [32, 35, 36, 78]\nbad row\nok -128\n";

#[test]
fn writes_in_parts_of_any_size(rt: HostRuntime) -> Result<(), Fail> {
    for (part, writes) in [(1, 71), (2, 36), (7, 11), (1000, 1)] {
        let mut sink = ToWriter::new(LimitedWriter {
            part,
            ..LimitedWriter::new(rt.alloc(), ANSWERS.len(), Full::Fails)
        });
        let outcome = answer_lines(LINES, &mut sink);
        gives(&rt, outcome, Ok(false));
        let writer = sink.into_inner();
        gives(&rt, writer.contents.as_slice(), ANSWERS);
        gives(&rt, writer.writes, writes);
    }
    Ok(())
}

// Asserts that a writer that takes `part` bytes per call, and is full after `written`, gets no more,
// even if it has room again later, and that the error is `Write`.
fn check_refused_write(
    rt: &impl Abort,
    alloc: Global,
    (input, written): (&[u8], &[u8]),
    part: usize,
    full: Full,
) {
    for room_then in [0, 1000] {
        let mut sink = ToWriter::new(LimitedWriter {
            part,
            room_then,
            ..LimitedWriter::new(alloc, written.len(), full)
        });
        let outcome = answer_lines(input, &mut sink);
        gives(rt, status(&outcome), 5);
        gives(rt, outcome, Err(ToolError::Write));
        gives(rt, sink.into_inner().contents.as_slice(), written);
    }
}

// Asserts the same for each way to refuse.
fn check_refused_writes(
    rt: &impl Abort,
    alloc: Global,
    (input, written): (&[u8], &[u8]),
    part: usize,
) {
    for full in [Full::Fails, Full::IsInterrupted, Full::TakesNone] {
        check_refused_write(rt, alloc, (input, written), part, full);
    }
}

#[test]
fn reports_a_refused_write(rt: HostRuntime) {
    for room in 0..ANSWERS.len() {
        check_refused_writes(&rt, rt.alloc(), (LINES, &ANSWERS[..room]), 5);
    }
}

// Asserts that the answers are written as three blocks, which end at `ends`, and that a write is
// reported that is refused at the start, inside the first block, or at the end of a block or next
// to it.
fn check_blocks(rt: &impl Abort, alloc: Global, input: &[u8], answers: &[u8], ends: [usize; 3]) {
    let mut sink = ToWriter::new(LimitedWriter {
        part: answers.len(),
        ..LimitedWriter::new(alloc, answers.len(), Full::Fails)
    });
    gives(rt, answer_lines(input, &mut sink), Ok(true));
    let writer = sink.into_inner();
    gives(rt, writer.contents.as_slice(), answers);
    gives(rt, writer.writes, 3);
    for end in ends {
        for room in [0, 1, end.saturating_sub(1), end, end.saturating_add(1)] {
            if room < answers.len() {
                check_refused_writes(rt, alloc, (input, &answers[..room]), answers.len());
            }
        }
    }
}

#[test]
fn reports_a_refused_block_of_rows(rt: HostRuntime) -> Result<(), Fail> {
    let rows = b"w pos u8 -- 255\n".repeat(rt.alloc(), 3000)?;
    let answers = b"ok 255\n".repeat(rt.alloc(), 3000)?;
    check_blocks(&rt, rt.alloc(), &rows, &answers, [7770, 15_540, 21_000]);
    Ok(())
}

#[test]
fn reports_a_refused_block_of_items(rt: HostRuntime) -> Result<(), Fail> {
    let mut row = b"w column u8 2C ".to_vec(rt.alloc())?;
    row.extend_from_slice(&b"7,".repeat(rt.alloc(), 10_000)?)?;
    let mut answer = b"col".to_vec(rt.alloc())?;
    answer.extend_from_slice(&b" 7".repeat(rt.alloc(), 10_000)?)?;
    answer.push(b'\n')?;
    check_blocks(&rt, rt.alloc(), &row, &answer, [7767, 15_535, 20_004]);
    Ok(())
}
