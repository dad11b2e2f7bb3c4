//! Tests of the sum of a column of signed numbers.

use crate::checks::{gives, printed};
use atoi_column::ColumnError;
use atoi_uses::{SignedTotalError, signed_total};
use std::test::Fail;

#[test]
fn partial_sums_may_leave_the_range(rt: HostRuntime) {
    gives(
        &rt,
        signed_total(b"9223372036854775807,1,-2", b','),
        Ok(9223372036854775806),
    );
    gives(
        &rt,
        signed_total(b"-9223372036854775808,-1,+1", b','),
        Ok(i64::MIN),
    );
    gives(&rt, signed_total(b"", b','), Ok(0));
}

#[test]
fn a_total_out_of_range(rt: HostRuntime) {
    gives(
        &rt,
        signed_total(b"9223372036854775807\n1\n", b'\n'),
        Err(SignedTotalError::OutOfRange(9223372036854775808)),
    );
}

#[test]
fn errors_print(rt: HostRuntime) -> Result<(), Fail> {
    let trailing = ColumnError::Trailing { index: 1, place: 3 };
    let bad = SignedTotalError::BadField(trailing);
    gives(&rt, signed_total(b"-7;x", b';').err().is_some(), true);
    gives(
        &rt,
        printed(rt.alloc(), &bad)?.as_str(),
        "field 1 has an unexpected byte at byte 3",
    );
    gives(
        &rt,
        printed(
            rt.alloc(),
            &SignedTotalError::OutOfRange(-9223372036854775809),
        )?
        .as_str(),
        "the total -9223372036854775809 is out of range",
    );
    Ok(())
}
