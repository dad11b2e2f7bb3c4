//! Reads a number and a line feed from a buffer that may end anywhere, such as one that a socket fills.
ghost use Rattle.std.specs.Prelude.{ℕ, ℤ, List, true, IfOk, IfErr, IfSome, IfNone, OnErr};
ghost use Rattle.atoi_core.specs.IntType.{i64_type};
ghost use Rattle.atoi_core.specs.Text.{IsNumberThen, TextWrites};
ghost use Rattle.atoi_uses.specs.CutLines.{IsCut};

use atoi_core::laws::number_then_byte;
use atoi_formats::{from_ascii_prefix, strip_byte};
use std::num::IntErrorKind;

/// Reads the number and the line feed at the start of `buffer`. Returns the number, and what follows the
/// line feed, or `None` if the buffer ends before, so that the caller has to read more.
///
/// # Errors
///
/// Returns the offset of the first byte that is wrong.
pub fn number_line(buffer: &[u8]) -> Result<Option<(i64, &[u8])>, usize>
    ensures some { IfOk result (λ found. IfSome found (λ line.
        IsNumberThen (TextWrites i64_type true) buffer.now line.0 10 line.1.now)) }
    ensures cut { IfOk result (λ found. IfNone found (IsCut buffer.now)) }
    ensures refused { OnErr result ((number : ℤ) (rest : List ℕ)
        → ¬ IsNumberThen (TextWrites i64_type true) buffer.now number 10 rest) }
{
    number_then_byte::<i64>();
    let (number, count) = match from_ascii_prefix::<i64>(buffer) {
        Ok(found) => found,
        Err(error) => {
            return match error.kind() {
                IntErrorKind::Empty => Ok(None),
                _ => Err(error.offset()),
            };
        }
    };
    let (_, tail) = buffer.split_at(count);
    match strip_byte(tail, b'\n') {
        Some(rest) => Ok(Some((number, rest))),
        None if tail.is_empty() => Ok(None),
        None => Err(count),
    }
}
