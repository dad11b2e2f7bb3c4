//! The parsers that `atoi_simd` and `atoi_lanes` share, over any engine, and the definitions of what
//! they return.
#![tactic(auto)]

mod after_zeros;
mod calls;
mod engine;
mod error;
mod error_kinds;
pub mod laws;
mod narrow;
mod number;
pub mod powers;
mod text;
mod wide;
pub mod wide_answer;
pub mod words;

pub use crate::after_zeros::window_after_zeros;
pub use crate::calls::{
    parse_prefix_text, parse_text, prefix_neg, prefix_pos, prefix_with_sign, take_sign,
    whole_by_size, whole_neg, whole_pos,
};
pub use crate::engine::Engine;
pub use crate::engine::alphabet::Alphabet;
pub use crate::engine::plain::{Plain, narrow_whole};
pub use crate::engine::steps::Steps;
pub use crate::engine::window::Window;
pub use crate::error::{AtoiSimdError, Parsed, clones_are_the_same};
pub use crate::narrow::{narrow_answer, narrow_prefix, narrow_whole_windows};
pub use crate::number::{Number, Signed, greatest_magnitude};
pub use crate::text::decimal;
pub use crate::wide::{whole_64, whole_128};
pub use crate::words::Words;
