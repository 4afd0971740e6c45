//! The formats of fixed-point numbers.

ghost use Rattle.std.specs.Prelude.{◌+◌, ◌≤◌};

use crate::{FixedI16, FixedI32, FixedI64};

/// A fixed-point type of `W` bits with `F` fraction bits that rounds, parses and prints.
///
/// The seven formats implement it. No other crate can:
///
/// ```compile_fail,E0277
/// struct Mine;
/// impl font_types::Format<32, 16> for Mine {}
/// ```
// #[diagnostic::on_unimplemented(note = "in a function of all formats, write this in a `where`")]
pub trait Format<const W: u32, const F: u32>: Sealed {
    ghost least: { 6 ≤ F };

    ghost most: { F ≤ 30 };

    ghost whole: { F + 2 ≤ W };
}

// No other crate can name it.
pub trait Sealed {}

impl<const F: u32> Sealed for FixedI16<F> {}

impl<const F: u32> Sealed for FixedI32<F> {}

impl<const F: u32> Sealed for FixedI64<F> {}
