//! Tests of `FromReader` with space for one to many bytes.

use super::{FromReader, Source};
use crate::checks::gives;
use crate::devices::FailingReader;

#[test]
fn takes_into_space_of_any_size(rt: HostRuntime) {
    let mut space = [0; 9000];
    for room in [1, 2, 4095, 4097, 9000] {
        let input = [b'7'; 9000];
        let mut source = FromReader::new(FailingReader::new(&input, 9000));
        let len = source.take(&mut space[..room]);
        gives(&rt, len.ok(), Some(room));
        assert!(rt; space[..room] == input[..room]);
        gives(&rt, source.into_inner().reads, 1);
    }
}
