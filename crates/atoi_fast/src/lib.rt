//! Two fast engines for the parsers of `atoi_core`: `Swar` reads words, and `Vectors` reads vectors of
//! sixteen bytes.
#![tactic(auto)]

mod after_16;
mod by_digits;
pub mod called;
mod calls;
mod digits;
mod in_range;
mod loads;
mod one_byte;
mod quick;
mod short_prefix;
mod short_slice;
mod sign;
mod swar;
mod vectors;

pub use crate::by_digits::{prefix_by_digits, whole_by_digits};
pub use crate::calls::{parse_prefix_text, parse_text, whole_neg, whole_pos};
pub use crate::quick::{long_slice, one_digit, quick_field, quick_prefix, quick_slice};
pub use crate::swar::Swar;
pub use crate::vectors::Vectors;
