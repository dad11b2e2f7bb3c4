//! Tests of rows about columns. The expected answers were worked out by hand.

use crate::checks::{answered, gives};
use std::alloc::Global;
use std::test::Fail;

const ROWS: &[u8] = b"\
w column u8 2C 1,2
w column u8 2C 1,2,
w column u8 2C 1,,2
w column i8 2C -128,12a
w column u8 2C 256,1
w column u8 2C\x20
w column u64 3B 18446744073709551615;18446744073709551616
w column u8 20 1 2
w column u8 0A 5
w column i8 2C ,
w column i8 2C +7,-,1
w column i128 FF -170141183460469231731687303715884105728\xFF+0\xFF
";

const ANSWERS: &[u8] = b"\
col 1 2
col 1 2
col 1 err field 1 2: atoi_simd string is empty
col -128 err trailing 1 7
col err field 0 0: atoi_simd overflow, input: [32, 35, 36, 2C, 31]
col
col 18446744073709551615 err field 1 21: atoi_simd overflow, input: [31, 38, 34, 34, 36, 37, 34, 34, 30, 37, 33, 37, 30, 39, 35, 35, 31, 36, 31, 36]
col 1 2
col 5
col err field 0 0: atoi_simd string is empty
col 7 err field 1 3: atoi_simd string is empty
col -170141183460469231731687303715884105728 0
";

#[test]
fn answers_columns(rt: HostRuntime) -> Result<(), Fail> {
    let (output, good) = answered(rt.alloc(), ROWS)?;
    assert!(rt; good);
    gives(&rt, output.as_slice(), ANSWERS);
    Ok(())
}

#[test]
fn refuses_bad_columns(rt: HostRuntime) -> Result<(), Fail> {
    let rows: [&[u8]; 12] = [
        b"w column u8 2B 1+2\n",
        b"w column u8 2c 1,2\n",
        b"l column u8 2C 1\n",
        b"w column u8 35 152\n",
        b"w column u8 2D 1-2\n",
        b"w column u9 2C 1\n",
        b"w column u8 C 1\n",
        b"w column u8 02C 1\n",
        b"w column u8 G0 1\n",
        b"w column u8 -- 1\n",
        b"w column u8 2C\n",
        b"w columns u8 2C 1\n",
    ];
    for row in rows {
        let (output, good) = answered(rt.alloc(), row)?;
        gives(&rt, output.as_slice(), b"bad row\n".as_slice());
        assert!(rt; !good);
    }
    Ok(())
}

// Returns the answer to `start` and then a million times `byte`.
fn answered_long(alloc: Global, start: &[u8], byte: u8) -> Result<Vec<u8>, Fail> {
    let mut row = start.to_vec(alloc)?;
    row.extend_from_slice(&vec![in alloc; byte; 1_000_000]?)?;
    let (output, _) = answered(alloc, &row)?;
    Ok(output)
}

#[test]
fn answers_long_columns(rt: HostRuntime) -> Result<(), Fail> {
    let zeros = answered_long(rt.alloc(), b"w column u8 2C ", b'0')?;
    gives(&rt, zeros.as_slice(), b"col 0\n".as_slice());
    let separators = answered_long(rt.alloc(), b"w column u8 2C ", b',')?;
    let refused: &[u8] = b"col err field 0 0: atoi_simd string is empty\n";
    gives(&rt, separators.as_slice(), refused);
    Ok(())
}
