//! Tests of whole runs: what reaches the output and the standard error, and the status.

use super::{Ended, run};
use crate::checks::gives;
use crate::devices::{Errors, FailingReader, Full, LimitedWriter};
use crate::sink::ToWriter;
use crate::source::FromReader;
use crate::status::ToolError;
use std::alloc::{AllocError, Global};
use std::io::ErrorKind;
use std::marker::PhantomData;
use std::process::{Abort, ExitCode, Termination};
use std::test::Fail;

fn ended(outcome: Result<bool, ToolError>) -> Ended<(), ()> {
    Ended {
        outcome,
        streams: PhantomData,
    }
}

// Asserts that the program ends with the status `number`, and prints `line` to standard error by one
// call, or by no call if `line` is empty.
fn check_end<I, O>(rt: &impl Abort, alloc: Global, ended: Ended<I, O>, number: u8, line: &[u8]) {
    let errors = Errors::new(alloc, 1);
    let status = ended.report(&errors);
    gives(rt, status, ExitCode::from(number));
    gives(rt, errors.calls.get(), if line.is_empty() { 0 } else { 1 });
    gives(rt, errors.reported.into_inner().as_slice(), line);
}

#[test]
fn a_fault_is_printed_once(rt: HostRuntime) {
    let outcome = Err(ToolError::Write);
    let errors = Errors::new(rt.alloc(), 2);
    let status = ended(outcome).report(&errors);
    gives(&rt, status, ExitCode::from(5));
    gives(&rt, errors.calls.get(), 1);
}

#[test]
fn a_fault_is_printed_on_one_line(rt: HostRuntime) {
    let ends: [(Result<bool, ToolError>, u8, &[u8]); 5] = [
        (Ok(true), 0, b""),
        (Ok(false), 2, b""),
        (Err(ToolError::Memory), 3, b"atoi_tool: out of memory\n"),
        (Err(ToolError::Read), 4, b"atoi_tool: cannot read input\n"),
        (
            Err(ToolError::Write),
            5,
            b"atoi_tool: cannot write output\n",
        ),
    ];
    for (outcome, number, line) in ends {
        check_end(&rt, rt.alloc(), ended(outcome), number, line);
    }
}

// Returns `count` rows of sixteen bytes. The last one has a newline if `has_last_newline`.
fn rows(alloc: Global, count: usize, has_last_newline: bool) -> Result<Vec<u8>, AllocError> {
    let mut rows = Vec::new(alloc);
    for _ in 1..count {
        rows.extend_from_slice(b"w pos u8 -- 255\n")?;
    }
    rows.extend_from_slice(if has_last_newline {
        b"w pos u8 -- 255\n"
    } else {
        b"w pos u16 -- 255"
    })?;
    Ok(rows)
}

// Asserts that the rows are answered with `reads` reads and `writes` writes, each of at most `part`
// bytes, and that nothing is flushed.
fn check_rows(
    rt: &impl Abort,
    alloc: Global,
    (count, has_last_newline): (usize, bool),
    part: usize,
    (reads, writes): (usize, usize),
) -> Result<(), Fail> {
    let rows = rows(alloc, count, has_last_newline)?;
    let answers = b"ok 255\n".repeat(alloc, count)?;
    let mut input = FromReader::new(FailingReader::new(&rows, part));
    let mut output = ToWriter::new(LimitedWriter {
        part,
        ..LimitedWriter::new(alloc, usize::MAX, Full::Fails)
    });
    let ended = run(alloc, &mut input, &mut output);
    let writer = output.into_inner();
    gives(rt, writer.contents.as_slice(), answers.as_slice());
    gives(rt, input.into_inner().reads, reads);
    gives(rt, writer.writes, writes);
    gives(rt, writer.flushes, 0);
    check_end(rt, alloc, ended, 0, b"");
    Ok(())
}

// The inputs fill one, two, three and 25 reads, and one more read finds the end. The last input is
// answered with five full blocks of 7770 bytes and a sixth. By single bytes, a row needs sixteen
// reads and seven writes.
#[test]
fn answers_inputs_of_whole_reads(rt: HostRuntime) -> Result<(), Fail> {
    for (count, reads, writes) in [(256usize, 2, 1), (512, 3, 1), (768, 4, 1), (6400, 26, 6)] {
        let calls = (reads, writes);
        let single = (
            count.saturating_mul(16).saturating_add(1),
            count.saturating_mul(7),
        );
        check_rows(&rt, rt.alloc(), (count, true), 100_000, calls)?;
        check_rows(&rt, rt.alloc(), (count, false), 100_000, calls)?;
        check_rows(&rt, rt.alloc(), (count, false), 1, single)?;
    }
    Ok(())
}

const LINES: &[u8] = b"w pos u8 -- 255\nx\nw neg i8 -- 128\n";

const ANSWERS: &[u8] = b"ok 255\nbad row\nok -128\n";

// Asserts that a run ends with the status `number`, prints `line` to standard error, has written
// `written` and has not flushed.
fn check_run(
    rt: &impl Abort,
    alloc: Global,
    reader: FailingReader<'_>,
    writer: LimitedWriter,
    (number, line, written): (u8, &[u8], &[u8]),
) {
    let mut output = ToWriter::new(writer);
    let ended = run(alloc, &mut FromReader::new(reader), &mut output);
    let writer = output.into_inner();
    gives(rt, writer.contents.as_slice(), written);
    gives(rt, writer.flushes, 0);
    check_end(rt, alloc, ended, number, line);
}

fn reader<'a>(failing: usize, error: ErrorKind) -> FailingReader<'a> {
    FailingReader {
        failing,
        error,
        ..FailingReader::new(LINES, 20)
    }
}

#[test]
fn a_bad_row_is_reported(rt: HostRuntime) {
    let writer = LimitedWriter::new(rt.alloc(), ANSWERS.len(), Full::Fails);
    let reader = reader(0, ErrorKind::Other);
    check_run(&rt, rt.alloc(), reader, writer, (2, b"", ANSWERS));
}

#[test]
fn nothing_is_written_after_a_refused_read(rt: HostRuntime) {
    let end: (u8, &[u8], &[u8]) = (4, b"atoi_tool: cannot read input\n", b"");
    for failing in 1..=3 {
        for error in [ErrorKind::Other, ErrorKind::Interrupted] {
            let writer = LimitedWriter::new(rt.alloc(), 1000, Full::Fails);
            check_run(&rt, rt.alloc(), reader(failing, error), writer, end);
        }
    }
}

#[test]
fn nothing_is_written_after_a_refused_write(rt: HostRuntime) {
    for room in 0..ANSWERS.len() {
        let writer = LimitedWriter {
            room_then: 1000,
            ..LimitedWriter::new(rt.alloc(), room, Full::IsInterrupted)
        };
        let reader = reader(0, ErrorKind::Other);
        let end = (
            5,
            b"atoi_tool: cannot write output\n".as_slice(),
            &ANSWERS[..room],
        );
        check_run(&rt, rt.alloc(), reader, writer, end);
    }
}
