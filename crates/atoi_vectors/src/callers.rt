//! Tests of the example callers in `atoi_uses`, one file for each. Expected values are written by
//! hand.

mod addresses;
mod arrays;
mod bad_fields;
mod bad_lines;
mod block_totals;
mod cents;
mod commands;
mod cut_lines;
mod durations;
mod own_engine;
mod pairs;
mod points;
mod releases;
mod signed_number;
mod signed_totals;
mod status_line;
mod times;
mod versions;
