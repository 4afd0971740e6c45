//! 16.16 fixed-point numbers.
#![tactic(auto, using(crate::proofs::Rules::number_code))]

ghost use Rattle.std.specs.Prelude.{◌≡◌, ◌≢◌, ◌^◌, ◌↔◌, ℤ, pos, ◌+ℤ◌, ◌*ℤ◌, refl, ◌≤◌, Some};
ghost use Rattle.std.specs.Prelude.{IsSome, IfSome, unsigned_abs};
ghost use Rattle.std.proofs.Common.{lit<, lit≤};
ghost use Rattle.font_base.specs.Wrap.{FitsBits, fits_bits, wrap};
ghost use Rattle.font_base.specs.Bytes.{bytes_of, signed_numeral};
ghost use Rattle.font_base.specs.Scalar.Laws.{signed_newtype, signed_identity};
ghost use Rattle.font_decimal.specs.Near.{near, up};
ghost use Rattle.font_fixed.specs.Operations.{IsNarrowed, IsProduct, IsQuotient, IsMulDiv};
ghost use Rattle.font_fixed.specs.Operations.{rounded_mul_div};
ghost use Rattle.font_fixed.specs.Fixed.{fixed_bits as bits_of, fixed_of as of_bits};
ghost use Rattle.font_fixed.specs.F48Dot16.{f48dot16_bits};
ghost use Rattle.font_fixed.specs.{F2Dot14.f2dot14_bits, F26Dot6.f26dot6_bits, F2Dot30.f2dot30_bits};

use super::FixedI32;
use crate::formats::Format;
use crate::{
    F2Dot14, F2Dot30, F26Dot6, F48Dot16, fitting_16, fitting_32, half_up_32, half_up_64, mul_div,
    narrow_32, nearest_mul_div, nearest_product, product,
};
use font_base::{FixedSize, IdentityEq, Scalar};
use std::ops::{Div, DivAssign, Mul, MulAssign};

/// A signed 16.16 fixed-point number.
///
/// The raw value is an `i32` in units of `1 / 65536`. Sums, products and quotients wrap on
/// overflow.
///
/// ```
/// use font_types::Fixed;
/// let number = Fixed::from_bits(0x18000);
/// assert_eq!(number.to_string(), "1.5");
/// assert_eq!("1.5".parse(), Ok(number));
/// ```
pub type Fixed = FixedI32<16>;

impl Format<32, 16> for Fixed {
    ghost least = { lit≤ tt };

    ghost most = { lit≤ tt };

    ghost whole = { lit≤ tt };
}

impl Fixed {
    /// The smallest value, -32768.
    pub const MIN: Self = Self(-0x8000_0000);

    /// The largest value, `32768 - 1 / 65536`.
    pub const MAX: Self = Self(0x7FFF_FFFF);

    /// The smallest positive value, `1 / 65536`.
    pub const EPSILON: Self = Self(1);

    /// The value 0.
    pub const ZERO: Self = Self(0);

    /// The value 1.
    pub const ONE: Self = Self(0x1_0000);

    /// The value -1.
    pub const NEG_ONE: Self = Self(-0x1_0000);

    /// Returns `self * a / c`, rounded once, half away from zero, wrapping on overflow.
    ///
    /// If `c` is zero, the result is [`Fixed::MAX`], negated if exactly one of `self` and `a` is
    /// negative.
    ///
    /// ```
    /// use font_types::Fixed;
    /// let [hundred, three] = [100, 3].map(Fixed::from_i32);
    /// assert_eq!(hundred.mul_div(Fixed::ONE, three), Fixed::from_bits(2_184_533));
    /// ```
    // #[doc(alias = "FT_MulDiv")]
    #[inline(always)]
    pub const fn mul_div(&self, a: Self, c: Self) -> Self
        ensures { IsMulDiv 32 (bits_of self.now) (bits_of a) (bits_of c)
            (bits_of result) }
    {
        Self(mul_div(self.0, a.0, c.0))
    }

    /// Returns `self * other`, rounded half away from zero, or `None` on overflow.
    // #[doc(alias = "FT_MulFix")]
    pub const fn checked_mul(self, other: Self) -> Option<Self>
        ensures variant { IsSome result
            ↔ FitsBits 32 (near (bits_of self *ℤ bits_of other) (2 ^ 16)) }
        ensures value { IfSome result
            (λ product. bits_of product ≡ near (bits_of self *ℤ bits_of other) (2 ^ 16)) }
    {
        match fitting_32(nearest_product(self.0, other.0, 16)) {
            Some(bits) => Some(Self(bits)),
            None => None,
        }
    }

    /// Returns `self / other`, rounded half away from zero, or `None` on overflow or division by
    /// zero.
    // #[doc(alias = "FT_DivFix")]
    pub const fn checked_div(self, other: Self) -> Option<Self>
        ensures variant { IsSome result ↔ ((bits_of other ≢ pos 0)
            × FitsBits 32 (rounded_mul_div (bits_of self) (pos (2 ^ 16)) (bits_of other))) }
        ensures value { IfSome result (λ quotient. bits_of quotient
            ≡ rounded_mul_div (bits_of self) (pos (2 ^ 16)) (bits_of other)) }
    {
        self.checked_mul_div(Self::ONE, other)
    }

    /// Returns `self * a / c`, rounded once, half away from zero, or `None` on overflow or if `c`
    /// is zero.
    pub const fn checked_mul_div(self, a: Self, c: Self) -> Option<Self>
        ensures variant { IsSome result ↔ ((bits_of c ≢ pos 0)
            × FitsBits 32 (rounded_mul_div (bits_of self) (bits_of a) (bits_of c))) }
        ensures value { IfSome result (λ quotient. bits_of quotient
            ≡ rounded_mul_div (bits_of self) (bits_of a) (bits_of c)) }
    {
        if c.0 == 0 {
            return None;
        }
        match fitting_32(nearest_mul_div(self.0, a.0, c.0)) {
            Some(bits) => Some(Self(bits)),
            None => None,
        }
    }

    /// Converts an integer from -32768 to 32767, wrapping on overflow.
    #[inline(always)]
    pub const fn from_i32(number: i32) -> Self
        ensures wrapped { bits_of result ≡ wrap 32 (number *ℤ pos (2 ^ 16)) }
        ensures exact { FitsBits 16 number → bits_of result ≡ (number *ℤ pos (2 ^ 16)) }
    {
        Self(number.wrapping_mul(0x1_0000))
    }

    /// Converts an integer from -32768 to 32767, or returns `None` on overflow.
    pub const fn checked_from_i32(number: i32) -> Option<Self>
        ensures variant { IsSome result ↔ FitsBits 32 (number *ℤ pos (2 ^ 16)) }
        ensures value { IfSome result (λ fixed. bits_of fixed ≡ (number *ℤ pos (2 ^ 16))) }
    {
        match number.checked_mul(0x1_0000) {
            Some(bits) => Some(Self(bits)),
            None => None,
        }
    }

    /// Rounds to the nearest integer, half up, wrapped to 16 bits: from 32767.5 on it gives -32768.
    #[inline(always)]
    pub const fn to_i32(self) -> i32
        ensures { IsNarrowed 16 (bits_of self) (2 ^ 16) result }
    {
        self.wrapping_add(Self(0x8000)).0 >> 16
    }

    /// Rounds to the nearest integer, half up, or returns `None` if `to_i32` wraps.
    pub const fn checked_to_i32(self) -> Option<i32>
        ensures variant { IsSome result ↔ FitsBits 16 (up (bits_of self) (2 ^ 16)) }
        ensures value { IfSome result (λ number. number ≡ up (bits_of self) (2 ^ 16)) }
    {
        narrow_32(self.0, 16)
    }

    /// Rounds to the nearest [`F26Dot6`], half up, its raw bits wrapped to 22 bits: from
    /// `32768 - 1 / 128` on it gives -32768.
    #[inline(always)]
    pub const fn to_f26dot6(self) -> F26Dot6
        ensures { IsNarrowed 22 (bits_of self) (2 ^ 10) (f26dot6_bits result) }
    {
        F26Dot6::from_bits(self.wrapping_add(Self(0x200)).0 >> 10)
    }

    /// Rounds to the nearest [`F26Dot6`], half up, or returns `None` if `to_f26dot6` wraps.
    pub const fn checked_to_f26dot6(self) -> Option<F26Dot6>
        ensures variant { IsSome result ↔ FitsBits 22 (up (bits_of self) (2 ^ 10)) }
        ensures value { IfSome result (λ long. f26dot6_bits long ≡ up (bits_of self) (2 ^ 10)) }
    {
        match narrow_32(self.0, 10) {
            Some(bits) => Some(F26Dot6::from_bits(bits)),
            None => None,
        }
    }

    /// Rounds to the nearest [`F2Dot14`], half up, wrapping on overflow.
    #[inline(always)]
    pub const fn to_f2dot14(self) -> F2Dot14
        ensures { IsNarrowed 16 (bits_of self) 4 (f2dot14_bits result) }
    {
        F2Dot14::from_bits(low_half(self.quarter()))
    }

    /// Rounds to the nearest [`F2Dot14`], half up, or returns `None` on overflow.
    pub const fn checked_to_f2dot14(self) -> Option<F2Dot14>
        ensures variant { IsSome result ↔ FitsBits 16 (up (bits_of self) 4) }
        ensures value { IfSome result (λ narrow. f2dot14_bits narrow ≡ up (bits_of self) 4) }
    {
        match fitting_16(half_up_32(self.0, 2) as i64) {
            Some(bits) => Some(F2Dot14::from_bits(bits)),
            None => None,
        }
    }

    /// Converts to [`F2Dot30`], wrapping on overflow: exact from -2 up to but not including 2.
    pub const fn to_f2dot30(self) -> F2Dot30
        ensures { f2dot30_bits result ≡ wrap 32 (bits_of self *ℤ pos (2 ^ 14)) }
    {
        F2Dot30::from_bits(self.0.wrapping_mul(0x4000))
    }

    /// Converts to [`F2Dot30`], or returns `None` on overflow.
    pub const fn checked_to_f2dot30(self) -> Option<F2Dot30>
        ensures variant { IsSome result ↔ FitsBits 32 (bits_of self *ℤ pos (2 ^ 14)) }
        ensures value { IfSome result (λ long. f2dot30_bits long ≡ (bits_of self *ℤ pos (2 ^ 14))) }
    {
        match self.0.checked_mul(0x4000) {
            Some(bits) => Some(F2Dot30::from_bits(bits)),
            None => None,
        }
    }

    /// Converts to [`F48Dot16`], exactly.
    #[inline(always)]
    pub const fn to_f48dot16(self) -> F48Dot16
        ensures { f48dot16_bits result ≡ bits_of self }
    {
        F48Dot16::from_bits(self.0 as i64)
    }

    /// Returns the exact product with an integer.
    #[inline(always)]
    pub const fn mul_i32(self, number: i32) -> F48Dot16
        ensures { f48dot16_bits result ≡ (bits_of self *ℤ number) }
    {
        F48Dot16::from_bits(self.0 as i64 * number as i64)
    }

    /// Adds a sum of deltas, exactly. The result is in units of `2^-32`.
    ///
    /// A delta of 1 is one unit of the raw value, `1 / 65536`.
    ///
    /// ```
    /// use font_types::{F48Dot16, Fixed};
    /// let moved = Fixed::ONE.apply_delta(F48Dot16::from_i64(3));
    /// assert_eq!(moved, (65536 + 3) << 16);
    /// ```
    pub fn apply_delta(self, delta: F48Dot16) -> i128
        ensures { result ≡ (bits_of self *ℤ pos 65536 +ℤ f48dot16_bits delta) }
    {
        i128::from(self.0) * 0x1_0000 + i128::from(delta.to_bits())
    }

    // Rounds a result of `apply_delta` to a value, half up, or returns `None` if that is out of
    // range.
    pub(crate) fn round_delta(moved: i128) -> Option<Self>
        ensures variant { IsSome result ↔ FitsBits 32 (up moved 65536) }
        ensures value { IfSome result (λ number. bits_of number ≡ up moved 65536) }
    {
        Some(Self(i32::try_from(nearest_step(moved)).ok()?))
    }

    /// Adds a sum of deltas and rounds to the nearest value, half up, or returns `None` if that is
    /// out of range.
    ///
    /// A delta of 1 is one unit of the raw value, `1 / 65536`.
    ///
    /// ```
    /// use font_types::{F48Dot16, Fixed};
    /// let moved = Fixed::ONE.checked_add_delta(F48Dot16::ONE);
    /// assert_eq!(moved, Some(Fixed::from_bits(0x1_0001)));
    /// ```
    pub const fn checked_add_delta(self, delta: F48Dot16) -> Option<Self>
        ensures variant { IsSome result
            ↔ FitsBits 32 (up (bits_of self *ℤ pos 65536 +ℤ f48dot16_bits delta) 65536) }
        ensures value { IfSome result (λ number. bits_of number
            ≡ up (bits_of self *ℤ pos 65536 +ℤ f48dot16_bits delta) 65536) }
    {
        match fitting_32(nearest_sum(self.0, delta)) {
            Some(bits) => Some(Self(bits)),
            None => None,
        }
    }

    // A quarter of the raw bits, rounded half up, wrapped to 30 bits.
    #[inline(always)]
    const fn quarter(self) -> i32
        ensures { IsNarrowed 30 (bits_of self) 4 result }
    {
        self.wrapping_add(Self(2)).0 >> 2
    }
}

/// Returns `moved / 65536`, rounded to the nearest integer, half up.
#[tactic(auto, using(crate::proofs::Shifts::halves_up_128))]
pub fn nearest_step(moved: i128) -> i128
    ensures { result ≡ up moved 65536 }
{
    ((moved >> 15) + 1) >> 1
}

/// Returns the sum of an integer and a delta, rounded to the nearest integer, half up.
#[inline(always)]
#[tactic(auto, using(std::proofs::lemmas::Int::wraps, crate::proofs::Deltas::integer_added))]
pub const fn nearest_sum(number: i32, delta: F48Dot16) -> i64
    ensures { result ≡ up (number *ℤ pos 65536 +ℤ f48dot16_bits delta) 65536 }
{
    number as i64 + nearest_integer(delta)
}

// Rounds to the nearest integer, half up.
#[inline(always)]
#[tactic(auto, using(crate::proofs::Deltas::few_integers))]
const fn nearest_integer(delta: F48Dot16) -> i64
    ensures value { result ≡ up (f48dot16_bits delta) 65536 }
    ensures bound { unsigned_abs result ≤ 2 ^ 47 }
{
    half_up_64(delta.to_bits(), 16)
}

// Truncates to the low 16 bits.
#[inline(always)]
const fn low_half(n: i32) -> i16
    ensures { result ≡ wrap 16 n }
{
    // In Rattle, `as` may lose no bit.
    ((n.cast_unsigned() & 0xFFFF) as u16).cast_signed()
}

/// Rounds half away from zero, and wraps on overflow.
impl Mul for Fixed {
    type Output = Fixed;

    ghost mul_gives = { λ x y product.
        IsProduct 32 16 (bits_of x) (bits_of y) (bits_of product) };

    #[inline(always)]
    fn mul(self, other: Fixed) -> Fixed {
        Self(product(self.0, other.0, 16))
    }
}

/// Rounds half away from zero, and wraps on overflow.
impl MulAssign for Fixed {
    ghost mul_assign_gives = { λ x y product.
        IsProduct 32 16 (bits_of x) (bits_of y) (bits_of product) };

    #[inline(always)]
    fn mul_assign(&mut self, other: Fixed) {
        *self = *self * other;
    }
}

/// Rounds half away from zero, and wraps on overflow.
///
/// Division by zero gives [`Fixed::MAX`], or `-Fixed::MAX` if the dividend is negative.
impl Div for Fixed {
    type Output = Fixed;

    ghost div_gives = { λ x y quotient.
        IsQuotient 32 16 (bits_of x) (bits_of y) (bits_of quotient) };

    #[inline(always)]
    fn div(self, other: Fixed) -> Fixed {
        self.mul_div(Self::ONE, other)
    }
}

/// Divides as `/` does.
impl DivAssign for Fixed {
    ghost div_assign_gives = { λ x y quotient.
        IsQuotient 32 16 (bits_of x) (bits_of y) (bits_of quotient) };

    #[inline(always)]
    fn div_assign(&mut self, other: Fixed) {
        *self = *self / other;
    }
}

/// Converts as `from_i32` does, wrapping on overflow.
///
/// `try_from` of an `i32` is std's, and wraps too. To be told of overflow, call
/// `checked_from_i32`:
///
/// ```
/// use font_types::Fixed;
/// assert_eq!(Fixed::try_from(40_000), Ok(Fixed::from_i32(-25_536)));
/// assert_eq!(Fixed::checked_from_i32(40_000), None);
/// ```
impl From<i32> for Fixed {
    ghost from_gives = { λ number fixed. bits_of fixed ≡ wrap 32 (number *ℤ pos (2 ^ 16)) };

    fn from(number: i32) -> Fixed {
        Fixed::from_i32(number)
    }
}

/// Converts exactly, as `to_fixed` does.
impl From<F2Dot14> for Fixed {
    ghost from_gives = { λ number fixed. bits_of fixed ≡ (f2dot14_bits number *ℤ pos 4) };

    fn from(number: F2Dot14) -> Fixed {
        number.to_fixed()
    }
}

impl FixedSize for Fixed {
    const RAW_BYTE_LEN: usize = 4;

    ghost RAW_BYTE_LEN = { 4 };
}

impl Scalar for Fixed {
    type Raw = [u8; 4];

    ghost is_scalar = { λ x. fits_bits 32 (bits_of x) };

    ghost of_raw = { λ bytes. of_bits (signed_numeral 4 bytes) };

    ghost raw_of = { λ x. bytes_of 4 (bits_of x) };

    ghost laws = { signed_newtype 4 (lit< tt) bits_of of_bits (λ _. refl) (λ _. refl) };

    #[inline(always)]
    fn from_raw(raw: [u8; 4]) -> Fixed {
        Self(i32::from_raw(raw))
    }

    #[inline(always)]
    fn to_raw(self) -> [u8; 4] {
        self.0.to_raw()
    }
}

impl IdentityEq for Fixed {
    ghost identity = { signed_identity bits_of of_bits (λ _. refl) };
}
