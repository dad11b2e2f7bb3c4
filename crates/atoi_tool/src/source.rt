//! What the input is read from.
ghost use Rattle.std.specs.Prelude.{◌≡◌, ◌+◌, ◌<◌, ◌≤◌, ℕ, List, Option, None, length, IfOk};
ghost use Rattle.std.specs.Io.KnownBytes.{ReadConsumes};
ghost use Rattle.atoi_tool.specs.Failures.{failures_of};

use crate::status::Refused;
use atoi_core::Steps;
use std::io::Read;

/// A source of bytes, which are taken from it one part after another, up to its end.
pub trait Source {
    /// The bytes that are still to come, if contracts can name them.
    ghost rest: { Self → Option (List ℕ) } = { λ _. None };

    /// How many calls of `take` were refused so far.
    ghost failures: { Self → ℕ };

    /// Writes the next bytes to the start of `space` and returns how many, 0 only at the end. The
    /// rest of `space` is unspecified.
    ///
    /// A call that is refused takes no byte.
    fn take(&mut self, space: &mut [u8]) -> Result<usize, Refused>
        requires { 0 < length space.old }
        ensures within { IfOk result (λ k. k ≤ length space.new) }
        ensures bytes { ReadConsumes (rest self.old) (rest self.new) result space.new }
        ensures failures { failures self.new ≡ failures self.old + failures_of result };
}

/// A reader of std as a source, without a buffer.
#[derive(Drop)]
pub struct FromReader<R> {
    inner: R,
    failures: Steps,
}

impl<R: Read> FromReader<R> {
    ghost use Rattle.atoi_tool.specs.FromReader.{from_reader_inner, from_reader_failures};

    pub fn new(inner: R) -> FromReader<R>
        ensures inner { from_reader_inner result ≡ inner }
        ensures failures { from_reader_failures result ≡ 0 }
    {
        FromReader {
            inner,
            failures: Steps::new(),
        }
    }

    pub fn into_inner(self) -> R
        ensures { result ≡ from_reader_inner self }
    {
        self.inner
    }
}

impl<R: Read> Source for FromReader<R> {
    ghost use Rattle.atoi_tool.specs.FromReader.{from_reader_inner, from_reader_failures};

    ghost rest = { λ source. R.remaining (from_reader_inner source) };

    ghost failures = { from_reader_failures };

    /// Calls `read` once. An error, even an interruption, is a refusal.
    fn take(&mut self, space: &mut [u8]) -> Result<usize, Refused> {
        match self.inner.read(space) {
            Ok(len) => Ok(len),
            Err(_) => {
                self.failures.tick();
                Err(Refused)
            }
        }
    }
}

#[cfg(test)]
mod tests;
