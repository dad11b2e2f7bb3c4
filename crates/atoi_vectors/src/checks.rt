//! Comparing functions: a test with `assert_eq!` in its own body takes longer to prove.

use std::alloc::{AllocError, Global};
use std::error::Error;
use std::fmt::Debug;
use std::process::Abort;

/// Checks that a call returned `expected`.
pub(crate) fn gives<A: Copy + Debug + PartialEq>(rt: &impl Abort, answer: A, expected: A) {
    assert_eq!(rt; answer, expected);
}

/// Checks that each call returned the answer on its right.
macro_rules! give {
    ($rt:expr; $($call:expr => $answer:expr;)*) => {
        $( crate::checks::gives($rt, $call, $answer); )*
    };
}

pub(crate) use give;

/// Calls each function over each engine for decimal digits.
macro_rules! on_each_engine {
    ($($check:ident $arguments:tt),*) => {
        $(
            $check::<atoi_core::Plain> $arguments;
            $check::<atoi_core::Words> $arguments;
            $check::<atoi_simd::lanes::Lanes> $arguments;
            $check::<atoi_fast::Swar> $arguments;
            $check::<atoi_fast::Vectors> $arguments;
        )*
    };
}

pub(crate) use on_each_engine;

/// Returns the text that `error` prints.
pub(crate) fn printed<E: Error>(alloc: Global, error: &E) -> Result<String, AllocError> {
    format!(in alloc; "{error}")
}
