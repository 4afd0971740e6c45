//! 48.16 fixed-point numbers: wide enough for sums of deltas, and not stored in any table.
#![tactic(auto, using(crate::proofs::Rules::number_code))]

ghost use Rattle.std.proofs.Common.{lit≤};
ghost use Rattle.std.specs.Prelude.{◌≡◌, ◌^◌, ◌↔◌, ℤ, pos, ◌*ℤ◌, IsSome, IfSome};
ghost use Rattle.font_base.specs.Wrap.{FitsBits, wrap};
ghost use Rattle.font_decimal.specs.Near.{up};
ghost use Rattle.font_fixed.specs.Fixed.{fixed_bits};
ghost use Rattle.font_fixed.specs.{Operations.IsNarrowed, F48Dot16.f48dot16_bits as bits_of};

use super::FixedI64;
use crate::formats::Format;
use crate::{Fixed, fitting_32, half_up_64, low_bits, narrow_64};

/// A signed 48.16 fixed-point number, such as a sum of deltas.
///
/// The raw value is an `i64` in units of `1 / 65536`. Sums wrap on overflow.
///
/// ```
/// use font_types::F48Dot16;
/// let number = F48Dot16::from_bits(0x18000);
/// assert_eq!(number.to_string(), "1.5");
/// assert_eq!("1.5".parse(), Ok(number));
/// ```
pub type F48Dot16 = FixedI64<16>;

impl Format<64, 16> for F48Dot16 {
    ghost least = { lit≤ tt };

    ghost most = { lit≤ tt };

    ghost whole = { lit≤ tt };
}

impl F48Dot16 {
    /// The smallest value, -140737488355328.
    pub const MIN: Self = Self(-0x8000_0000_0000_0000);

    /// The largest value, `140737488355328 - 1 / 65536`.
    pub const MAX: Self = Self(0x7FFF_FFFF_FFFF_FFFF);

    /// The smallest positive value, `1 / 65536`.
    pub const EPSILON: Self = Self(1);

    /// The value 0.
    pub const ZERO: Self = Self(0);

    /// The value 1.
    pub const ONE: Self = Self(0x1_0000);

    /// The value -1.
    pub const NEG_ONE: Self = Self(-0x1_0000);

    /// Converts an integer from `-2^47` to `2^47 - 1`, wrapping on overflow.
    #[inline(always)]
    pub const fn from_i64(number: i64) -> Self
        ensures { bits_of result ≡ wrap 64 (number *ℤ pos (2 ^ 16)) }
    {
        Self(number.wrapping_mul(0x1_0000))
    }

    /// Converts an integer from `-2^47` to `2^47 - 1`, or returns `None` on overflow.
    pub const fn checked_from_i64(number: i64) -> Option<Self>
        ensures variant { IsSome result ↔ FitsBits 64 (number *ℤ pos (2 ^ 16)) }
        ensures value { IfSome result (λ wide. bits_of wide ≡ (number *ℤ pos (2 ^ 16))) }
    {
        match number.checked_mul(0x1_0000) {
            Some(bits) => Some(Self(bits)),
            None => None,
        }
    }

    /// Converts an integer, exactly.
    #[inline(always)]
    pub const fn from_i32(number: i32) -> Self
        ensures { bits_of result ≡ (number *ℤ pos (2 ^ 16)) }
    {
        Self(number as i64 * 0x1_0000)
    }

    /// Rounds to the nearest integer, half up, wrapped to 48 bits: from `2^47 - 1 / 2` on it gives
    /// `-2^47`.
    #[inline(always)]
    pub const fn to_i64(self) -> i64
        ensures { IsNarrowed 48 (bits_of self) (2 ^ 16) result }
    {
        self.wrapping_add(Self(0x8000)).0 >> 16
    }

    /// Rounds to the nearest integer, half up, or returns `None` if `to_i64` wraps.
    pub const fn checked_to_i64(self) -> Option<i64>
        ensures variant { IsSome result ↔ FitsBits 48 (up (bits_of self) (2 ^ 16)) }
        ensures value { IfSome result (λ number. number ≡ up (bits_of self) (2 ^ 16)) }
    {
        narrow_64(self.0, 16)
    }

    /// Rounds to the nearest integer, half up, wrapped to 32 bits.
    #[inline(always)]
    pub const fn to_i32(self) -> i32
        ensures { IsNarrowed 32 (bits_of self) (2 ^ 16) result }
    {
        low_bits(self.to_i64())
    }

    /// Rounds to the nearest integer, half up, or returns `None` on overflow.
    pub const fn checked_to_i32(self) -> Option<i32>
        ensures variant { IsSome result ↔ FitsBits 32 (up (bits_of self) (2 ^ 16)) }
        ensures value { IfSome result (λ number. number ≡ up (bits_of self) (2 ^ 16)) }
    {
        fitting_32(half_up_64(self.0, 16))
    }

    /// Converts to [`Fixed`], or returns `None` on overflow.
    pub const fn checked_to_fixed(self) -> Option<Fixed>
        ensures variant { IsSome result ↔ FitsBits 32 (bits_of self) }
        ensures value { IfSome result (λ fixed. fixed_bits fixed ≡ bits_of self) }
    {
        match fitting_32(self.0) {
            Some(bits) => Some(Fixed::from_bits(bits)),
            None => None,
        }
    }

    /// Converts to [`Fixed`], wrapping on overflow.
    #[inline(always)]
    pub const fn to_fixed(self) -> Fixed
        ensures { fixed_bits result ≡ wrap 32 (bits_of self) }
    {
        Fixed::from_bits(low_bits(self.0))
    }
}
