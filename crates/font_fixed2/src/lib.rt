//! `F4Dot12` (4.12), `F6Dot10` (6.10) and `F2Dot30` (2.30), of `font_fixed`.
#![tactic(auto)]

pub use font_fixed::{F2Dot30, F4Dot12, F6Dot10};
