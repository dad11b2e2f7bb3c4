//! Adds up a column of signed numbers.
ghost use Rattle.std.specs.Prelude.{◌≡◌, true, IfOk, IfErr};
ghost use Rattle.atoi_column.specs.Fields.{is_separator};
ghost use Rattle.atoi_uses.specs.SignedTotals.{HasTotal, HasNoTotal};

use atoi_column::laws::{items_decide, items_in_turn};
use atoi_column::{Column, ColumnError};
use std::error::Error;
use std::fmt;

/// Why a column of signed numbers has no total of type `i64`.
#[derive(Clone, Copy, Debug, PartialEq, Eq)]
pub enum SignedTotalError<'a> {
    /// A field is not a number of type `i64`. Holds the error for the first such field.
    BadField(ColumnError<'a>),
    /// Every field is a number of type `i64`, but their sum is out of its range. Holds the sum.
    OutOfRange(i128),
}

/// Adds up the numbers of `input`, whose fields are separated by `separator`. Each may have a sign and
/// leading zeros.
///
/// Only the sum of all numbers must be in the range of `i64`.
///
/// # Errors
///
/// Each variant of `SignedTotalError` says when it is returned.
pub fn signed_total(input: &[u8], separator: u8) -> Result<i64, SignedTotalError<'_>>
    requires { is_separator separator ≡ true }
    ensures total { IfOk result (λ total. HasTotal separator input.now total) }
    ensures refused { IfErr result (λ error. HasNoTotal separator input.now error) }
{
    items_in_turn();
    items_decide::<i64>();
    let mut total = 0i128;
    for item in Column::<i64>::new(input, separator) {
        match item {
            Ok(number) => total += i128::from(number),
            Err(error) => return Err(SignedTotalError::BadField(error)),
        }
    }
    match i64::try_from(total) {
        Ok(total) => Ok(total),
        Err(_) => Err(SignedTotalError::OutOfRange(total)),
    }
}

impl fmt::Display for SignedTotalError<'_> {
    ghost use Rattle.std.specs.Prelude.{Some};
    ghost use Rattle.atoi_uses.specs.SignedTotals.{error_text};

    ghost output = { λ error. Some (error_text error) };

    fn fmt<W: fmt::Write>(&self, f: &mut fmt::Formatter<W>) -> fmt::Result {
        match *self {
            SignedTotalError::BadField(cause) => write!(f, "{cause}"),
            SignedTotalError::OutOfRange(total) => {
                write!(f, "the total {total} is out of range")
            }
        }
    }
}

impl Error for SignedTotalError<'_> {}
