//! The answer to a row about a column, appended item by item, since it can have any length.
ghost use Rattle.std.specs.Prelude.{◌≡◌, ◌+◌, ◌++◌, true};
ghost use Rattle.std.specs.List.{flat_map};
ghost use Rattle.atoi_column.specs.Fields.{is_separator};
ghost use Rattle.atoi_column.specs.Items.{column_items};
ghost use Rattle.atoi_tool.specs.Failures.{failures_of, PutAppends};
ghost use Rattle.atoi_tool.specs.Request.{int_type_of};
ghost use Rattle.atoi_tool.specs.Answer.{item_text, column_text};

use crate::answer_text::push_item;
use crate::block::Block;
use crate::request::{Integer, by_type};
use crate::sink::Sink;
use crate::status::Refused;
use atoi_column::Column;
use atoi_simd::Parse;

fn put_items<T: Parse, S: Sink>(
    column: Column<'_, T>,
    block: &mut Block,
    output: &mut S,
) -> Result<(), Refused>
    ensures output { PutAppends (S.contents output.old) (S.contents output.new) result
        (block.old ++ flat_map item_text (column_items T.int_type column.entry)) block.new }
    ensures failures { S.failures output.new ≡ S.failures output.old + failures_of result }
{
    for item in column {
        block.make_room(output)?;
        push_item(item, block);
    }
    Ok(())
}

fn put_column_of<T: Parse, S: Sink>(
    separator: u8,
    text: &[u8],
    block: &mut Block,
    output: &mut S,
) -> Result<(), Refused>
    requires { is_separator separator ≡ true }
    ensures output { PutAppends (S.contents output.old) (S.contents output.new) result
        (block.old ++ column_text T.int_type separator text.now) block.new }
    ensures failures { S.failures output.new ≡ S.failures output.old + failures_of result }
{
    block.append(b"col", output)?;
    put_items(Column::<T>::new(text, separator), block, output)
}

/// Appends the answer to a row about a column to `block`, which is written to `output` when it has
/// no room.
///
/// # Errors
///
/// Returns `Refused` if a call of `put` is refused.
pub fn put_column<S: Sink>(
    integer: Integer,
    separator: u8,
    text: &[u8],
    block: &mut Block,
    output: &mut S,
) -> Result<(), Refused>
    requires { is_separator separator ≡ true }
    ensures output { PutAppends (S.contents output.old) (S.contents output.new) result
        (block.old ++ column_text (int_type_of integer) separator text.now) block.new }
    ensures failures { S.failures output.new ≡ S.failures output.old + failures_of result }
{
    by_type!(integer, put_column_of, put_column_of, <S>, (separator, text, block, output))
}

#[cfg(test)]
mod tests;
