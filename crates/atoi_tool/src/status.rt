//! Refused calls, the errors that stop the program, and its exit status.
ghost use Rattle.std.specs.Prelude.{◌≡◌, ◌↔◌, IsTrue, Some};
ghost use Rattle.atoi_tool.specs.Status.{status_of, tool_error_text};

use std::fmt;

/// A call of `Source::take` or `Sink::put` was refused.
#[derive(Drop)]
pub struct Refused;

/// An error that stops the program.
#[derive(Debug, Drop, PartialEq)]
pub enum ToolError {
    /// A request for memory for the input was refused.
    Memory,
    Read,
    Write,
}

impl ToolError {
    /// Returns what `==` returns.
    pub fn is_same_as(&self, other: &ToolError) -> bool
        ensures { IsTrue result ↔ (self.now ≡ other.now) }
    {
        self == other
    }
}

impl fmt::Display for ToolError {
    ghost output = { λ error. Some (tool_error_text error) };

    fn fmt<W: fmt::Write>(&self, f: &mut fmt::Formatter<W>) -> fmt::Result {
        f.write_str(match self {
            ToolError::Memory => "out of memory",
            ToolError::Read => "cannot read input",
            ToolError::Write => "cannot write output",
        })
    }
}

/// Returns the exit status of the program: 0 if every line was good, 2 if some line was not, and for
/// an error 3 to 5.
pub fn status(outcome: &Result<bool, ToolError>) -> u8
    ensures { result ≡ status_of outcome.now }
{
    match outcome {
        Ok(true) => 0,
        Ok(false) => 2,
        Err(ToolError::Memory) => 3,
        Err(ToolError::Read) => 4,
        Err(ToolError::Write) => 5,
    }
}
