//! The text of an answer, for a value of any integer type.
ghost use Rattle.std.specs.Prelude.{◌≡◌, ◌+◌, ◌≤◌, ◌++◌, length, decimal, codes};
ghost use Rattle.std.specs.Fmt.{signed_decimal};
ghost use Rattle.atoi_core.specs.Refusal.{refusal_of};
ghost use Rattle.atoi_core.specs.Answer.{typed_answer, typed_prefix_answer};
ghost use Rattle.atoi_core.specs.ErrorText.{error_text};
ghost use Rattle.atoi_column.specs.Items.{flaw_of, item_of};
ghost use Rattle.atoi_tool.specs.Answer.{whole_text, prefix_text, refusal_text, refused_field_text, item_text};

use crate::block::{Block, ERROR, LONGEST, NUMBER, ROOM};
use atoi_column::ColumnError;
use atoi_core::{AtoiSimdError, Number};

fn push_number<T: Number>(value: T, out: &mut Block)
    requires { length out.old + NUMBER ≤ ROOM }
    ensures text { out.new ≡ out.old ++ signed_decimal (T.number value) }
    ensures length { length out.new ≤ length out.old + NUMBER }
{
    let (minus, magnitude) = value.parts();
    if minus {
        out.push(b"-");
    }
    out.push_decimal(magnitude);
}

fn push_error(error: &AtoiSimdError<'_>, out: &mut Block)
    requires { length out.old + ERROR ≤ ROOM }
    ensures { out.new ≡ out.old ++ error_text (refusal_of error.now) }
{
    let mut text = [0; 400];
    let len = error.text(&mut text);
    out.push(&text[..len]);
}

fn push_refusal(error: &AtoiSimdError<'_>, out: &mut Block)
    requires { length out.old + LONGEST ≤ ROOM }
    ensures { out.new ≡ out.old ++ refusal_text (refusal_of error.now) }
{
    out.push(b"err ");
    push_error(error, out);
}

/// Appends the answer to a parse of a whole text.
pub fn push_whole<T: Number>(outcome: Result<T, AtoiSimdError<'_>>, out: &mut Block)
    requires { length out.old + LONGEST ≤ ROOM }
    ensures { out.new ≡ out.old ++ whole_text (typed_answer T.number outcome.entry) }
{
    match outcome {
        Ok(value) => {
            out.push(b"ok ");
            push_number(value, out);
        }
        Err(error) => push_refusal(&error, out),
    }
}

/// Appends the answer to a parse of a prefix.
pub fn push_prefix<T: Number>(outcome: Result<(T, usize), AtoiSimdError<'_>>, out: &mut Block)
    requires { length out.old + LONGEST ≤ ROOM }
    ensures { out.new ≡ out.old ++ prefix_text (typed_prefix_answer T.number outcome.entry) }
{
    match outcome {
        Ok((value, len)) => {
            out.push(b"ok ");
            push_number(value, out);
            out.push(b" ");
            push_number(len, out);
        }
        Err(error) => push_refusal(&error, out),
    }
}

fn push_index_and_place(index: usize, place: usize, out: &mut Block)
    requires { length out.old + NUMBER + 1 + NUMBER ≤ ROOM }
    ensures text { out.new ≡ out.old ++ (decimal index ++ codes " " ++ decimal place) }
    ensures length { length out.new ≤ length out.old + NUMBER + 1 + NUMBER }
{
    push_number(index, out);
    out.push(b" ");
    push_number(place, out);
}

// Appends why a field has no value.
fn push_flaw(error: &ColumnError<'_>, out: &mut Block)
    requires { length out.old + LONGEST ≤ ROOM }
    ensures { out.new ≡ out.old ++ (codes " err " ++ refused_field_text (flaw_of error.now)) }
{
    out.push(b" err ");
    match *error {
        ColumnError::Field {
            index,
            place,
            cause,
        } => {
            out.push(b"field ");
            push_index_and_place(index, place, out);
            out.push(b": ");
            push_error(&cause, out);
        }
        ColumnError::Trailing { index, place } => {
            out.push(b"trailing ");
            push_index_and_place(index, place, out);
        }
    }
}

/// Appends an item of a column, with a space before it.
pub fn push_item<T: Number>(item: Result<T, ColumnError<'_>>, out: &mut Block)
    requires { length out.old + LONGEST ≤ ROOM }
    ensures { out.new ≡ out.old ++ item_text (item_of T.number item.entry) }
{
    match item {
        Ok(value) => {
            out.push(b" ");
            push_number(value, out);
        }
        Err(error) => push_flaw(&error, out),
    }
}
