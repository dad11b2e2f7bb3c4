//! What the answers are written to.
ghost use Rattle.std.specs.Prelude.{◌≡◌, ◌+◌, ◌<◌, ◌≤◌, ℕ, List, Option, None, length, IfOk, MatchResult};
ghost use Rattle.std.specs.Io.KnownBytes.{Appends, WriteAppends};
ghost use Rattle.atoi_tool.specs.Failures.{failures_of, AppendsPrefix};

use crate::status::Refused;
use atoi_core::Steps;
use std::io::Write;

/// A sink for bytes, which are appended to it one part after another.
pub trait Sink {
    /// The bytes that were appended so far, if contracts can name them.
    ghost contents: { Self → Option (List ℕ) } = { λ _. None };

    /// How many calls of `put` were refused so far.
    ghost failures: { Self → ℕ };

    /// Appends a prefix of `bytes`, at least one byte, and returns its length.
    ///
    /// A call that is refused appends nothing.
    fn put(&mut self, bytes: &[u8]) -> Result<usize, Refused>
        requires { 0 < length bytes.now }
        ensures some { IfOk result (λ k. 0 < k) }
        ensures within { IfOk result (λ k. k ≤ length bytes.now) }
        ensures bytes { WriteAppends (contents self.old) (contents self.new) result bytes.now }
        ensures failures { failures self.new ≡ failures self.old + failures_of result };
}

/// Writes all of `bytes` to `output`.
///
/// # Errors
///
/// Returns `Refused` if a call of `put` is refused, after a proper prefix of `bytes` was written.
pub fn put_all<S: Sink>(bytes: &[u8], output: &mut S) -> Result<(), Refused>
    ensures output { MatchResult result
        (λ _. Appends (S.contents output.old) (S.contents output.new) bytes.now)
        (λ _. AppendsPrefix (S.contents output.old) (S.contents output.new) bytes.now) }
    ensures failures { S.failures output.new ≡ S.failures output.old + failures_of result }
{
    let mut done = 0;
    while done < bytes.len() {
        done += output.put(&bytes[done..])?;
    }
    Ok(())
}

/// A writer of std as a sink, without a buffer.
#[derive(Drop)]
pub struct ToWriter<W> {
    inner: W,
    failures: Steps,
}

impl<W: Write> ToWriter<W> {
    ghost use Rattle.atoi_tool.specs.ToWriter.{to_writer_inner, to_writer_failures};

    pub fn new(inner: W) -> ToWriter<W>
        ensures inner { to_writer_inner result ≡ inner }
        ensures failures { to_writer_failures result ≡ 0 }
    {
        ToWriter {
            inner,
            failures: Steps::new(),
        }
    }

    pub fn into_inner(self) -> W
        ensures { result ≡ to_writer_inner self }
    {
        self.inner
    }
}

impl<W: Write> Sink for ToWriter<W> {
    ghost use Rattle.atoi_tool.specs.ToWriter.{to_writer_inner, to_writer_failures};

    ghost contents = { λ sink. W.contents (to_writer_inner sink) };

    ghost failures = { to_writer_failures };

    /// Calls `write` once. An error, even an interruption, is a refusal, and so is no byte.
    fn put(&mut self, bytes: &[u8]) -> Result<usize, Refused> {
        match self.inner.write(bytes) {
            Ok(0) | Err(_) => {
                self.failures.tick();
                Err(Refused)
            }
            Ok(len) => Ok(len),
        }
    }
}

#[cfg(test)]
mod tests;
