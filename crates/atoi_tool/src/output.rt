//! Answers all lines of an input, and writes the answers to a sink.
ghost use Rattle.std.specs.Prelude.{◌≡◌, ◌+◌, ◌<◌, ◌∷◌, ◌++◌, length, IfOk, IfErr, MatchResult};
ghost use Rattle.std.specs.Io.KnownBytes.{Appends};
ghost use Rattle.atoi_tool.specs.Failures.{failures_of, AppendsPrefix, PutAppends};
ghost use Rattle.atoi_tool.specs.Row.{HasAnswer};
ghost use Rattle.atoi_tool.specs.Answer.{query_text, is_good_line};
ghost use Rattle.atoi_tool.specs.Output.{lines_of, line_output, output_of, is_good_input};

use crate::answer::answer_row;
use crate::block::Block;
use crate::columns::put_column;
use crate::request::Query;
use crate::row::{cut, row_of};
use crate::sink::{Sink, put_all};
use crate::status::{Refused, ToolError};
use atoi_column::laws::first_field;

// Returns the first line of an input of at least one byte, and what follows its newline.
fn first_line(input: &[u8]) -> (&[u8], &[u8])
    requires { 0 < length input.now }
    ensures lines { lines_of input.now ≡ result.0.now ∷ lines_of result.1.now }
    ensures shorter { length result.1.now < length input.now }
{
    first_field();
    match cut(b'\n', input) {
        Some(parts) => parts,
        None => (input, &[]),
    }
}

// Appends the answer to a row, without a newline.
fn put_query<S: Sink>(
    query: Query,
    text: &[u8],
    block: &mut Block,
    output: &mut S,
) -> Result<(), Refused>
    requires { HasAnswer query }
    ensures output { PutAppends (S.contents output.old) (S.contents output.new) result
        (block.old ++ query_text query text.now) block.new }
    ensures failures { S.failures output.new ≡ S.failures output.old + failures_of result }
{
    match query {
        Query::Number(request) => {
            block.make_room(output)?;
            answer_row(&request, text, block);
            Ok(())
        }
        Query::Column { integer, separator } => put_column(integer, separator, text, block, output),
    }
}

// Appends the answer to a line, and a newline after it. Returns whether the line is good.
fn put_line<S: Sink>(line: &[u8], block: &mut Block, output: &mut S) -> Result<bool, Refused>
    ensures output { PutAppends (S.contents output.old) (S.contents output.new) result
        (block.old ++ line_output line.now) block.new }
    ensures good { IfOk result (λ good. good ≡ is_good_line line.now) }
    ensures failures { S.failures output.new ≡ S.failures output.old + failures_of result }
{
    match row_of(line) {
        Some((query, text)) => {
            put_query(query, text, block, output)?;
            block.append(b"\n", output)?;
            Ok(true)
        }
        None => {
            block.append(b"bad row\n", output)?;
            Ok(false)
        }
    }
}

/// Writes to `output` the answer to each line of `input`, with a newline after each answer. Returns
/// whether every line was good. Allocates nothing.
///
/// # Errors
///
/// Returns `Write` if a call of `put` is refused, after a proper prefix of the output was written.
pub fn answer_lines<S: Sink>(input: &[u8], output: &mut S) -> Result<bool, ToolError>
    ensures failures { S.failures output.new ≡ S.failures output.old + failures_of result }
    ensures output { MatchResult result
        (λ _. Appends (S.contents output.old) (S.contents output.new) (output_of input.now))
        (λ _. AppendsPrefix (S.contents output.old) (S.contents output.new) (output_of input.now)) }
    ensures good { IfOk result (λ good. good ≡ is_good_input input.now) }
    ensures write { IfErr result (λ error. error ≡ ToolError.Write) }
{
    let mut all_good = true;
    let mut block = Block::new();
    let mut rest = input;
    while !rest.is_empty() {
        let (line, following) = first_line(rest);
        match put_line(line, &mut block, output) {
            Ok(is_good) => all_good &= is_good,
            Err(Refused) => return Err(ToolError::Write),
        }
        rest = following;
    }
    match put_all(block.as_bytes(), output) {
        Ok(()) => Ok(all_good),
        Err(Refused) => Err(ToolError::Write),
    }
}

#[cfg(test)]
mod tests;
