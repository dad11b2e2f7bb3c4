//! The engine of this crate, and the parses that its traits call.

pub(crate) use atoi_core::{
    parse_prefix_text, parse_text, prefix_neg, prefix_pos, whole_neg, whole_pos,
};

pub(crate) type DefaultEngine = crate::lanes::Lanes;
