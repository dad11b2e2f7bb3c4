//! What the tests share. A test with `assert_eq!` in its own body takes longer to prove.

use crate::output::answer_lines;
use crate::sink::ToWriter;
use std::alloc::Global;
use std::fmt::Debug;
use std::process::Abort;
use std::test::Fail;

pub(crate) fn gives<A: Debug + Drop + PartialEq>(rt: &impl Abort, answer: A, expected: A) {
    assert_eq!(rt; answer, expected);
}

/// Returns what is written for an input, and whether every line of it is good.
pub(crate) fn answered(alloc: Global, input: &[u8]) -> Result<(Vec<u8>, bool), Fail> {
    let mut sink = ToWriter::new(Vec::new(alloc));
    let good = answer_lines(input, &mut sink)?;
    Ok((sink.into_inner(), good))
}
