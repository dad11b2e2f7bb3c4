//! Reads rows from standard input and writes the answer to each to standard output. A row has a text
//! and names the call that parses it, or has a column of numbers.
#![tactic(auto)]

use crate::run::{Ended, run};
use crate::sink::ToWriter;
use crate::source::FromReader;
use std::io::{Stdin, Stdout};

mod answer;
mod answer_text;
mod block;
#[cfg(test)]
mod checks;
mod columns;
#[cfg(test)]
mod devices;
mod input;
mod output;
mod request;
mod row;
mod run;
mod sink;
mod source;
mod status;

fn main(rt: HostRuntime) -> Ended<FromReader<Stdin>, ToWriter<Stdout>> {
    let mut input = FromReader::new(rt.stdin());
    let mut output = ToWriter::new(rt.stdout());
    run(rt.alloc(), &mut input, &mut output)
}
