//! Callers of `font_types`: one file for each kind of program that builds on it. Each function is
//! proved against the contract that its caller wants.
//!
//! - `start`: a first caller, which docs/CALLING.md shows.
//! - `reader`: a table's bytes, header and records, as of `VORG`.
//! - `scaler`: points through two matrices, and numbers on a grid.
//! - `linter`: tags and the records of a table directory.
//! - `dumper`: numbers in columns and lines, and JSON.
//! - `words`: several numbers in a line, printed and parsed.
//! - `evaluator`: an advance at settings, by the crate `variations`.
#![tactic(auto, using(font_types::proofs::Callers::calls))]

pub mod dumper;
pub mod evaluator;
pub mod linter;
pub mod reader;
pub mod scaler;
pub mod start;
#[cfg(test)]
mod tests;
pub mod words;
