//! Tests of `ToWriter` with more bytes than a block holds.

use super::{ToWriter, put_all};
use crate::checks::gives;
use crate::devices::{Full, LimitedWriter};
use std::test::Fail;

#[test]
fn puts_many_bytes_by_one_write(rt: HostRuntime) -> Result<(), Fail> {
    let bytes = vec![in rt.alloc(); b'7'; 100_000]?;
    let mut sink = ToWriter::new(LimitedWriter {
        part: 100_000,
        ..LimitedWriter::new(rt.alloc(), 100_000, Full::Fails)
    });
    assert!(rt; put_all(&bytes, &mut sink).is_ok());
    let writer = sink.into_inner();
    assert!(rt; writer.contents.as_slice() == bytes.as_slice());
    gives(&rt, writer.writes, 1);
    Ok(())
}
