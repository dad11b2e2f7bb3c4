//! Reads the whole input into memory.
ghost use Rattle.std.specs.Prelude.{◌≡◌, ◌≢◌, ◌+◌, IfOk, IfErr, OnOk};
ghost use Rattle.std.specs.Io.KnownBytes.{Consumes, IsAtEnd};
ghost use Rattle.atoi_tool.specs.Run.{refused_reads};

use crate::source::Source;
use crate::status::ToolError;
use std::alloc::Global;

// How many bytes `read_all` asks for in one call of `take`.
const PART: usize = 4096;

/// Returns all bytes of `input` up to its end.
///
/// # Errors
///
/// Returns `Read` if a call of `take` is refused, and `Memory` if the vector cannot grow.
pub fn read_all<S: Source>(alloc: Global, input: &mut S) -> Result<Vec<u8>, ToolError>
    ensures reads { S.failures input.new ≡ S.failures input.old + refused_reads result }
    ensures all { IfOk result
        (λ bytes. Consumes (S.rest input.old) (S.rest input.new) bytes.items) }
    ensures end { OnOk result (IsAtEnd (S.rest input.new)) }
    ensures never_write { IfErr result (λ error. error ≢ ToolError.Write) }
{
    let mut bytes = Vec::new(alloc);
    let mut part = [0u8; PART];
    loop {
        let Ok(len) = input.take(&mut part) else {
            return Err(ToolError::Read);
        };
        if len == 0 {
            return Ok(bytes);
        }
        if bytes.extend_from_slice(&part[..len]).is_err() {
            return Err(ToolError::Memory);
        }
    }
}

#[cfg(test)]
mod tests;
