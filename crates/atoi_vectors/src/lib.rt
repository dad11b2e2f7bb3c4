//! Tests over all libraries, which have no tests of their own: a crate with tests is proved twice.
#![tactic(auto)]

#[cfg(test)]
mod both;
#[cfg(test)]
mod callers;
#[cfg(test)]
mod checks;
#[cfg(test)]
mod core_calls;
#[cfg(test)]
mod differences;
#[cfg(test)]
mod error_texts;
#[cfg(test)]
mod numbers;
#[cfg(test)]
mod original;
#[cfg(test)]
mod plain_rules;
#[cfg(test)]
mod row_texts;
#[cfg(test)]
mod runs;
#[cfg(test)]
mod worked_rows;
