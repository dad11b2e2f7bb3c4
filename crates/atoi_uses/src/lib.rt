//! Example callers, proved from the public clauses and laws of the library crates alone.
#![tactic(auto)]

mod addresses;
mod arrays;
mod bad_fields;
mod bad_lines;
mod block_totals;
mod cents;
mod commands;
mod cut_lines;
mod durations;
mod own_engine;
mod pairs;
mod points;
mod releases;
mod signed_number;
mod signed_totals;
mod status_line;
mod times;
mod versions;

pub use crate::addresses::{Address, parse_address};
pub use crate::arrays::total_of_array;
pub use crate::bad_fields::count_bad_fields;
pub use crate::bad_lines::first_bad_line;
pub use crate::block_totals::total_in_blocks;
pub use crate::cents::Cents;
pub use crate::commands::{Command, CommandError, Word, read_command};
pub use crate::cut_lines::number_line;
pub use crate::durations::{DurationError, duration};
pub use crate::own_engine::{Ebcdic, amount};
pub use crate::pairs::total_of_pairs;
pub use crate::points::{Point, parse_point};
pub use crate::releases::{Release, release_and_rest};
pub use crate::signed_number::number_and_rest;
pub use crate::signed_totals::{SignedTotalError, signed_total};
pub use crate::status_line::code_and_reason;
pub use crate::times::{Time, parse_time};
pub use crate::versions::{Version, parse_version};
