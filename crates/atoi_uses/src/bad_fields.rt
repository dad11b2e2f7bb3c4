//! Counts the fields of a column that are not numbers.
ghost use Rattle.std.specs.Prelude.{◌≡◌, true};
ghost use Rattle.atoi_core.specs.IntType.{u32_type};
ghost use Rattle.atoi_column.specs.Fields.{is_separator};
ghost use Rattle.atoi_column.specs.FieldItems.{field_items};
ghost use Rattle.atoi_uses.specs.BadFields.{bad_count};

use atoi_column::Fields;

/// Returns how many fields of `input` are not numbers of type `u32`.
///
/// `count_bad_fields(b"1,x,3,", b',')` returns 1.
pub fn count_bad_fields(input: &[u8], separator: u8) -> usize
    requires { is_separator separator ≡ true }
    ensures { result ≡ bad_count (field_items u32_type separator input.now) }
{
    let mut bad = 0;
    for item in Fields::<u32>::new(input, separator) {
        if item.is_err() {
            bad += 1;
        }
    }
    bad
}
