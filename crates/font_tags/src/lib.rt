//! Tags, versions and dates of font files.
//!
//! ```text
//! Tag::new_checked(b"cv1")                              // Ok, `cv1` and a space
//! Version16Dot16::new(1, 1).compatible((1, 0))          // true
//! ```
#![tactic(auto)]

mod longdatetime;
mod tag;
mod version;

pub use longdatetime::LongDateTime;
pub use tag::{InvalidTag, TTC_HEADER_TAG, Tag};
pub use version::{Compatible, MajorMinor, Version16Dot16};
