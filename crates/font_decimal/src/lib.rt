//! Decimals of fixed-point numbers: parsing, shortest printing, padding.
//!
//! A fixed-point number with `f` fraction bits is its raw value times `2^-f`. Nothing here
//! allocates.
//!
//! ```text
//! read_decimal("0.6", 14, -32768, 32767)                // Ok(9830)
//! Shortest::new(9830, 14).as_str()                      // "0.6"
//! ```
#![tactic(auto)]

mod grammar;
pub mod laws;
mod padding;
mod reader;
mod shortest;

pub use padding::{Align, Pad, write_padded};
pub use reader::{DecimalFault, read_decimal, read_decimal_bytes};
pub use shortest::Shortest;
