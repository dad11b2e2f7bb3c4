//! A run of the tool from its input to its output, and how it ends.
ghost use Rattle.std.specs.Prelude.{◌≡◌, ◌+◌, IfOk, IfErr};
ghost use Rattle.std.specs.Process.{exit_status};
ghost use Rattle.atoi_tool.specs.Run.{outcome_of, IsAnswered, IsStopped, refused_reads, refused_writes};
ghost use Rattle.atoi_tool.specs.Status.{status_of};

use crate::input::read_all;
use crate::output::answer_lines;
use crate::sink::Sink;
use crate::source::Source;
use crate::status::{ToolError, status};
use std::alloc::Global;
use std::marker::PhantomData;
use std::process::{ExitCode, Termination};

/// How a run that read from an `I` and wrote to an `O` ended.
///
/// Outside tests only `run` makes one, and it cannot be dropped. So a `main` that returns one ends
/// with the status of a run on the streams that its result type names.
pub struct Ended<I, O> {
    outcome: Result<bool, ToolError>,
    streams: PhantomData<(I, O)>,
}

impl<I, O> Termination for Ended<I, O> {
    /// Prints the error that stopped the run to standard error, and returns the exit status.
    fn report<R: Eprint>(self, rt: &R) -> ExitCode
        ensures { exit_status result ≡ status_of (outcome_of self) }
    {
        let Ended {
            outcome,
            streams: _,
        } = self;
        if let Err(error) = &outcome {
            // If this fails, the status still says which error stopped the run.
            let _ = eprintln!(rt; "atoi_tool: {error}");
        }
        ExitCode::from(status(&outcome))
    }
}

/// Reads `input` to its end, and writes to `output` the answer to each line of it.
///
/// # Errors
///
/// The outcome is `Memory` or `Read` if the input could not be read, and nothing was written then.
/// It is `Write` if a call of `put` was refused, after a proper prefix of the output was written.
pub fn run<I: Source, O: Sink>(alloc: Global, input: &mut I, output: &mut O) -> Ended<I, O>
    ensures answered { IfOk (outcome_of result)
        (IsAnswered (I.rest input.old) (I.rest input.new) (O.contents output.old) (O.contents output.new)) }
    ensures stopped { IfErr (outcome_of result)
        (IsStopped (I.rest input.old) (I.rest input.new) (O.contents output.old) (O.contents output.new)) }
    ensures reads { I.failures input.new ≡ I.failures input.old + refused_reads (outcome_of result) }
    ensures writes { O.failures output.new ≡ O.failures output.old + refused_writes (outcome_of result) }
{
    let outcome = match read_all(alloc, input) {
        Ok(rows) => answer_lines(&rows, output),
        Err(error) => Err(error),
    };
    Ended {
        outcome,
        streams: PhantomData,
    }
}

#[cfg(test)]
mod tests;
