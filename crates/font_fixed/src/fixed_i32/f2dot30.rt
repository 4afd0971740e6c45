//! 2.30 fixed-point numbers. No table of OpenType stores them.
#![tactic(auto, using(crate::proofs::Rules::number_code))]

ghost use Rattle.std.specs.Prelude.{◌≡◌, ◌^◌, ◌↔◌, ℤ, pos, ◌*ℤ◌, IsSome, IfSome, refl};
ghost use Rattle.std.proofs.Common.{lit<, lit≤};
ghost use Rattle.font_base.specs.Wrap.{FitsBits, fits_bits};
ghost use Rattle.font_base.specs.Bytes.{bytes_of, signed_numeral};
ghost use Rattle.font_base.specs.Scalar.Laws.{signed_newtype, signed_identity};
ghost use Rattle.font_decimal.specs.Near.{up};
ghost use Rattle.font_fixed.specs.F2Dot30.{f2dot30_bits as bits_of, f2dot30_of as of_bits};
ghost use Rattle.font_fixed.specs.{Operations.IsNarrowed, F2Dot14.f2dot14_bits, Fixed.fixed_bits};

use super::FixedI32;
use crate::formats::Format;
use crate::{F2Dot14, Fixed, fitting_16, half_up_32};
use font_base::{FixedSize, IdentityEq, Scalar};

/// A signed 2.30 fixed-point number.
///
/// The raw value is an `i32` in units of `1 / 2^30`. Sums wrap on overflow.
///
/// ```
/// use font_types::F2Dot30;
/// let number = F2Dot30::from_bits(0x6000_0000);
/// assert_eq!(number.to_string(), "1.5");
/// assert_eq!("1.5".parse(), Ok(number));
/// ```
pub type F2Dot30 = FixedI32<30>;

impl Format<32, 30> for F2Dot30 {
    ghost least = { lit≤ tt };

    ghost most = { lit≤ tt };

    ghost whole = { lit≤ tt };
}

impl F2Dot30 {
    /// The smallest value, -2.
    pub const MIN: Self = Self(-0x8000_0000);

    /// The largest value, `2 - 1 / 2^30`.
    pub const MAX: Self = Self(0x7FFF_FFFF);

    /// The smallest positive value, `1 / 2^30`.
    pub const EPSILON: Self = Self(1);

    /// The value 0.
    pub const ZERO: Self = Self(0);

    /// The value 1.
    pub const ONE: Self = Self(0x4000_0000);

    /// The value -1.
    pub const NEG_ONE: Self = Self(-0x4000_0000);

    /// Rounds to the nearest [`Fixed`], half up.
    #[inline(always)]
    pub const fn to_fixed(self) -> Fixed
        ensures { fixed_bits result ≡ up (bits_of self) (2 ^ 14) }
    {
        Fixed::from_bits(half_up_32(self.0, 14))
    }

    /// Rounds to the nearest [`F2Dot14`], half up, wrapping on overflow.
    #[inline(always)]
    pub const fn to_f2dot14(self) -> F2Dot14
        ensures { IsNarrowed 16 (bits_of self) (2 ^ 16) (f2dot14_bits result) }
    {
        F2Dot14::from_bits((self.wrapping_add(Self(0x8000)).0 >> 16) as i16)
    }

    /// Rounds to the nearest [`F2Dot14`], half up, or returns `None` on overflow.
    pub const fn checked_to_f2dot14(self) -> Option<F2Dot14>
        ensures variant { IsSome result ↔ FitsBits 16 (up (bits_of self) (2 ^ 16)) }
        ensures value { IfSome result (λ narrow. f2dot14_bits narrow ≡ up (bits_of self) (2 ^ 16)) }
    {
        match fitting_16(half_up_32(self.0, 16) as i64) {
            Some(bits) => Some(F2Dot14::from_bits(bits)),
            None => None,
        }
    }
}

/// Converts exactly, as `to_f2dot30` does.
impl From<F2Dot14> for F2Dot30 {
    ghost from_gives = { λ number long. bits_of long ≡ (f2dot14_bits number *ℤ pos (2 ^ 16)) };

    fn from(number: F2Dot14) -> F2Dot30 {
        number.to_f2dot30()
    }
}

impl FixedSize for F2Dot30 {
    const RAW_BYTE_LEN: usize = 4;

    ghost RAW_BYTE_LEN = { 4 };
}

impl Scalar for F2Dot30 {
    type Raw = [u8; 4];

    ghost is_scalar = { λ x. fits_bits 32 (bits_of x) };

    ghost of_raw = { λ bytes. of_bits (signed_numeral 4 bytes) };

    ghost raw_of = { λ x. bytes_of 4 (bits_of x) };

    ghost laws = { signed_newtype 4 (lit< tt) bits_of of_bits (λ _. refl) (λ _. refl) };

    #[inline(always)]
    fn from_raw(raw: [u8; 4]) -> F2Dot30 {
        Self(i32::from_raw(raw))
    }

    #[inline(always)]
    fn to_raw(self) -> [u8; 4] {
        self.0.to_raw()
    }
}

impl IdentityEq for F2Dot30 {
    ghost identity = { signed_identity bits_of of_bits (λ _. refl) };
}
