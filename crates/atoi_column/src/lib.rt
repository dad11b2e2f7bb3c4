//! Columns of decimal integers: the fields of a byte slice, separated by one byte.
#![tactic(auto)]

mod clones;
mod column;
mod error;
mod field_error;
mod fields;
mod guesses;
pub mod laws;
mod text;
mod words;

pub use crate::column::{Column, is_separator};
pub use crate::error::ColumnError;
pub use crate::field_error::FieldError;
pub use crate::fields::Fields;
