//! Numbers in the formats of files and protocols: a number with an optional sign, a number and the byte
//! after it, a number with a fixed or limited number of digits, a number as `{}` prints it, an integer
//! of JSON.
//!
//! Every function serves the twelve integer types of Rust. It returns `Some` or `Ok` exactly if the text
//! has its format, which a caller proves from its clauses alone.
#![tactic(auto)]

mod ascii_numbers;
mod canonical_numbers;
mod digit_counts;
mod expected_byte;
mod fixed_widths;
mod int_error;
mod json_integers;
mod numbers;
mod numbers_then;

pub use crate::ascii_numbers::{from_ascii, from_ascii_prefix};
pub use crate::canonical_numbers::{canonical, canonical_prefix, canonical_then};
pub use crate::digit_counts::digits_between;
pub use crate::expected_byte::strip_byte;
pub use crate::fixed_widths::fixed_width;
pub use crate::int_error::IntError;
pub use crate::json_integers::json_integer;
pub use crate::numbers::number;
pub use crate::numbers_then::{digits_then, number_then};
