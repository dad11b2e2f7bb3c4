//! Tests of reading a whole input, with readers that fail.

use super::read_all;
use crate::checks::gives;
use crate::devices::FailingReader;
use crate::source::FromReader;
use crate::status::{ToolError, status};
use std::alloc::Global;
use std::io::ErrorKind;
use std::test::Fail;

// Each read returns at most 4096 bytes, and the last one returns 0 bytes.
#[test]
fn reads_to_the_end(rt: HostRuntime) -> Result<(), Fail> {
    for (len, part, reads) in [
        (10_000, 1, 10_001),
        (10_000, 4095, 4),
        (10_000, 4096, 4),
        (10_000, 4097, 4),
        (2_000_000, 4096, 490),
    ] {
        let input = vec![in rt.alloc(); b'7'; len]?;
        let mut source = FromReader::new(FailingReader::new(&input, part));
        let bytes = read_all(rt.alloc(), &mut source)?;
        let reader = source.into_inner();
        assert!(rt;
            bytes.as_slice() == input.as_slice(),
            "{len} bytes, {part} a read"
        );
        assert!(rt; reader.rest.is_empty());
        gives(&rt, reader.reads, reads);
    }
    Ok(())
}

// Returns how many bytes are read if call `failing` of the reader fails with `error`.
fn read_failing(alloc: Global, failing: usize, error: ErrorKind) -> Result<usize, ToolError> {
    let mut source = FromReader::new(FailingReader {
        failing,
        error,
        ..FailingReader::new(b"ab", 1)
    });
    Ok(read_all(alloc, &mut source)?.len())
}

#[test]
fn reports_a_refused_read(rt: HostRuntime) {
    for failing in 1..=3 {
        let other = read_failing(rt.alloc(), failing, ErrorKind::Other);
        gives(&rt, other, Err(ToolError::Read));
        let interrupted = read_failing(rt.alloc(), failing, ErrorKind::Interrupted);
        gives(&rt, interrupted, Err(ToolError::Read));
    }
    gives(&rt, read_failing(rt.alloc(), 4, ErrorKind::Other), Ok(2));
    gives(&rt, status(&Err(ToolError::Read)), 4);
}
