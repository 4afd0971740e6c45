//! The lines of the program `fontval`: each is a command, and has one answer.
//!
//! ```text
//! serve(alloc, &mut source, &mut sink)    // reads all lines, and then writes their answers
//! ```
#![tactic(auto)]

mod answers;
mod command;
pub mod device;
pub mod error;
pub mod exit;
mod images;
mod integer;
mod numbers;
mod output;
mod parse;
mod report;
pub mod serve;
mod text;
