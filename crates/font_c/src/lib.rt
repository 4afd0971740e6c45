//! The library for C: fixed-point numbers, matrices, tags and sums of deltas.
//!
//! Exports have no preconditions, because C callers are not checked. An export that can fail
//! returns a status and stores its result at its last argument; if it fails, it leaves all memory
//! unchanged, except that `fty_tag_validate` stores the index of the invalid byte. Nothing is kept
//! between calls, and nothing is allocated. `c/include/font_types.h` declares the exports, except two
//! products, which it has in C. It also has other functions in C, such as those of fields and
//! rounding. The exports whose names begin with `fty_abi_` take integers that C would take in another
//! order too, so five functions in C, such as `fty_format`, call them.
#![tactic(auto)]

mod delta;
mod delta_set;
mod format;
mod fraction;
pub mod laws;
mod matrix;
mod parse;
mod product;
mod status;
mod tag;
mod tag_text;
mod version;

pub use format::FontPad;
pub use fraction::FontFraction;
pub use matrix::{FontMatrix, FontPoint};

#[cfg(test)]
mod tests;
