//! Tests of the total of a column that is read in blocks.

use crate::checks::gives;
use atoi_uses::total_in_blocks;

// 64 numbers fill a block.
const BLOCK: &[u8] = b"1,1,1,1,1,1,1,1,1,1,1,1,1,1,1,1,1,1,1,1,1,1,1,1,1,1,1,1,1,1,1,1,\
    1,1,1,1,1,1,1,1,1,1,1,1,1,1,1,1,1,1,1,1,1,1,1,1,1,1,1,1,1,1,1,1";

const ENDED_BLOCK: &[u8] = b"1,1,1,1,1,1,1,1,1,1,1,1,1,1,1,1,1,1,1,1,1,1,1,1,1,1,1,1,1,1,1,1,\
    1,1,1,1,1,1,1,1,1,1,1,1,1,1,1,1,1,1,1,1,1,1,1,1,1,1,1,1,1,1,1,1,";

const MORE_THAN_A_BLOCK: &[u8] = b"1,1,1,1,1,1,1,1,1,1,1,1,1,1,1,1,1,1,1,1,1,1,1,1,1,1,1,1,1,1,1,1,\
    1,1,1,1,1,1,1,1,1,1,1,1,1,1,1,1,1,1,1,1,1,1,1,1,1,1,1,1,1,1,1,1,1";

const BAD_AFTER_A_BLOCK: &[u8] = b"1,1,1,1,1,1,1,1,1,1,1,1,1,1,1,1,1,1,1,1,1,1,1,1,1,1,1,1,1,1,1,1,\
    1,1,1,1,1,1,1,1,1,1,1,1,1,1,1,1,1,1,1,1,1,1,1,1,1,1,1,1,1,1,1,1,x,-";

#[test]
fn numbers_of_all_blocks_count(rt: HostRuntime) {
    gives(&rt, total_in_blocks(b"", b',').ok(), Some(0));
    gives(&rt, total_in_blocks(b"1,+2,003,", b',').ok(), Some(6));
    gives(&rt, total_in_blocks(BLOCK, b',').ok(), Some(64));
    gives(&rt, total_in_blocks(ENDED_BLOCK, b',').ok(), Some(64));
    gives(&rt, total_in_blocks(MORE_THAN_A_BLOCK, b',').ok(), Some(65));
    gives(
        &rt,
        total_in_blocks(b"4294967295\n4294967295\n2", b'\n').ok(),
        Some(8589934592),
    );
}

// Where the first bad field is.
fn bad_place(input: &[u8]) -> Option<(usize, usize)> {
    total_in_blocks(input, b',')
        .err()
        .map(|error| (error.index, error.place))
}

#[test]
fn the_first_bad_field_is_reported(rt: HostRuntime) {
    gives(&rt, bad_place(BAD_AFTER_A_BLOCK), Some((64, 128)));
    gives(&rt, bad_place(b"1,x,-"), Some((1, 2)));
    gives(&rt, bad_place(BLOCK), None);
}
