//! Values of OpenType and font-types, impls of callers, traits and texts.

mod fields;
mod numbers;
mod traits;
