//! Adds up a column, 64 numbers at a time.
ghost use Rattle.std.specs.Prelude.{◌≡◌, ◌≤◌, true, length, pos, sum, Ok, Err, IfOk, IfErr};
ghost use Rattle.atoi_core.specs.IntType.{u32_type};
ghost use Rattle.atoi_column.specs.Fields.{is_separator};
ghost use Rattle.atoi_column.specs.FieldItems.{bad_field_of, field_items};
ghost use Rattle.atoi_uses.specs.BlockTotals.{total_of};

use atoi_column::{FieldError, Fields};

const BLOCK: usize = 64;

/// Adds up the numbers of `input`, whose fields are separated by `separator`.
///
/// `total_in_blocks(b"1,+2,003,", b',')` returns `Ok(6)`.
///
/// # Errors
///
/// Returns the error of the first field that is not a number of type `u32`.
#[tactic(auto, using(std::proofs::lemmas::Grind::common_steps, crate::proofs::lemmas::BlockTotals::block_adds))]
pub fn total_in_blocks(input: &[u8], separator: u8) -> Result<u128, FieldError<'_>>
    requires { is_separator separator ≡ true }
    ensures total { IfOk result (λ total.
        total_of (field_items u32_type separator input.now) ≡ Ok (pos total)) }
    ensures refused { IfErr result (λ error.
        total_of (field_items u32_type separator input.now) ≡ Err (bad_field_of error)) }
{
    let mut fields = Fields::<u32>::new(input, separator);
    let mut numbers = [0; BLOCK];
    let mut total = 0u128;
    loop {
        let count = fields.read(&mut numbers);
        total += u128::from(sum_of(&numbers[..count]));
        if count < BLOCK {
            break;
        }
    }
    match fields.next() {
        Some(Err(error)) => Err(error),
        // No number can follow, since the last block was not full.
        _ => Ok(total),
    }
}

fn sum_of(numbers: &[u32]) -> u64
    requires { length numbers.now ≤ BLOCK }
    ensures { result ≡ sum numbers.now }
{
    numbers.iter().map(|number| u64::from(*number)).sum()
}
