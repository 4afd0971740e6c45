//! 64-bit fixed-point numbers.

mod common;
mod f48dot16;

pub use f48dot16::F48Dot16;

/// A signed fixed-point number of 64 bits, `F` of them fraction bits.
///
/// For its functions, read the page of the format: [`F48Dot16`].
/// The raw value is an `i64` in units of `1 / 2^F`. Sums wrap on overflow.
///
/// The format also rounds, parses and prints, and has constants. Other fraction bits do not:
///
/// ```compile_fail,E0599
/// use font_types::FixedI64;
/// FixedI64::<3>::from_bits(12).round();
/// ```
#[derive(Clone, Copy, PartialEq, Eq, PartialOrd, Ord, Hash, Default)]
pub struct FixedI64<const F: u32>(i64);
