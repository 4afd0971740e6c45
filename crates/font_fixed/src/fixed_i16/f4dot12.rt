//! 4.12 fixed-point numbers, as variable composites store angles.

ghost use Rattle.std.proofs.Common.{lit≤};

use super::FixedI16;
use crate::formats::Format;

/// A signed 4.12 fixed-point number.
///
/// The raw value is an `i16` in units of `1 / 4096`. Sums wrap on overflow.
///
/// ```
/// use font_types::F4Dot12;
/// let number = F4Dot12::from_bits(0x1800);
/// assert_eq!(number.to_string(), "1.5");
/// assert_eq!("1.5".parse(), Ok(number));
/// ```
pub type F4Dot12 = FixedI16<12>;

impl Format<16, 12> for F4Dot12 {
    ghost least = { lit≤ tt };

    ghost most = { lit≤ tt };

    ghost whole = { lit≤ tt };
}

impl F4Dot12 {
    /// The smallest value, -8.
    pub const MIN: Self = Self(-0x8000);

    /// The largest value, `8 - 1 / 4096`.
    pub const MAX: Self = Self(0x7FFF);

    /// The smallest positive value, `1 / 4096`.
    pub const EPSILON: Self = Self(1);

    /// The value 0.
    pub const ZERO: Self = Self(0);

    /// The value 1.
    pub const ONE: Self = Self(0x1000);

    /// The value -1.
    pub const NEG_ONE: Self = Self(-0x1000);
}
