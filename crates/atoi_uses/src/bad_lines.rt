//! Finds the first bad line of a text that comes in two pieces.
ghost use Rattle.std.specs.Prelude.{◌≡◌, ◌++◌};
ghost use Rattle.atoi_core.specs.IntType.{u32_type};
ghost use Rattle.atoi_column.specs.FieldItems.{line_items};
ghost use Rattle.atoi_column.specs.Laws.{IsPiece};
ghost use Rattle.atoi_uses.specs.BadLines.{first_bad_index};

use atoi_column::Fields;
use atoi_column::laws::pieces_in_turn;

/// Returns the index of the first line that is not a number of type `u32`, in a text of two pieces. The
/// first is empty or ends with a line feed.
///
/// `first_bad_line(b"1\n2\n", b"3\nx")` returns `Some(3)`.
pub fn first_bad_line(first: &[u8], second: &[u8]) -> Option<usize>
    requires { IsPiece 10 first.now }
    ensures { result ≡ first_bad_index (line_items u32_type (first.now ++ second.now)) }
{
    pieces_in_turn::<u32>();
    let mut lines = Fields::<u32>::lines(first);
    while let Some(item) = lines.next() {
        if let Err(error) = item {
            return Some(error.index);
        }
    }
    let (index, place) = lines.position();
    for item in Fields::<u32>::lines(second).starting_at(index, place) {
        if let Err(error) = item {
            return Some(error.index);
        }
    }
    None
}
