//! Scales of outlines.

ghost use Rattle.std.specs.Prelude.{◌≡◌, ◌≢◌, ◌↔◌, ◌^◌, ◌≤◌, IsSome, IfSome, unsigned_abs};
ghost use Rattle.font_base.specs.Wrap.{FitsBits};
ghost use Rattle.font_fixed.specs.{F26Dot6.f26dot6_bits, Fixed.fixed_bits};
ghost use Rattle.font_geom.specs.FixedMatrix.{rounded_product, FitsPoint};
ghost use Rattle.font_geom.specs.Scale.{scale_bits, factor_of};

use crate::Point;
use font_fixed::{F26Dot6, Fixed, product};

/// A scale: converts font units to pixels in 26.6.
///
/// The factor is a 16.16 number of `1 / 64` pixels for a font unit. A coordinate is the product of
/// its units and the factor, rounded half away from zero. With the factor of `new`, it is at most
/// `1 / 2 + |units| / 2^17` of `1 / 64` pixel from the exact `units * size / units_per_em`.
///
/// ```
/// use font_types::{F26Dot6, FWord, Point, Scale};
/// let scale = Scale::new(F26Dot6::from_i32(12), 1000).unwrap();
/// assert_eq!(scale.apply(700), F26Dot6::from_bits(538));
/// assert_eq!(scale.apply(FWord::new(-250).to_i16()), F26Dot6::from_bits(-192));
/// let point = scale.apply_point(Point::new(700, -250));
/// assert_eq!(point.map(F26Dot6::to_bits), Point::new(538, -192));
/// ```
// #[doc(alias = "ppem")]
#[derive(Clone, Copy, PartialEq, Eq, Hash, Debug)]
pub struct Scale(Fixed);

impl Scale {
    /// Creates the scale of a size, in pixels per em, or returns `None` if `units_per_em` is zero
    /// or the factor overflows. The factor is the quotient of the raw values in 16.16, rounded half
    /// away from zero.
    pub const fn new(size: F26Dot6, units_per_em: u16) -> Option<Self>
        ensures variant { IsSome result ↔ ((units_per_em ≢ 0)
            × FitsBits 32 (factor_of (f26dot6_bits size) units_per_em)) }
        ensures value { IfSome result
            (λ scale. scale_bits scale ≡ factor_of (f26dot6_bits size) units_per_em) }
    {
        match Fixed::from_bits(size.to_bits()).checked_div(Fixed::from_bits(units_per_em as i32)) {
            Some(factor) => Some(Self(factor)),
            None => None,
        }
    }

    /// Creates a scale from its factor.
    pub const fn from_factor(factor: Fixed) -> Self
        ensures { scale_bits result ≡ fixed_bits factor }
    {
        Self(factor)
    }

    /// Returns the factor.
    // #[doc(alias = "x_scale")]
    // #[doc(alias = "y_scale")]
    pub const fn factor(self) -> Fixed
        ensures { fixed_bits result ≡ scale_bits self }
    {
        self.0
    }

    /// Scales a number of font units, such as `word.to_i16()` of an [`FWord`](crate::FWord). No
    /// result overflows.
    // #[doc(alias = "FT_MulFix")]
    #[inline(always)]
    #[tactic(auto, using(crate::proofs::Scaled::word_calls))]
    pub const fn apply(self, units: i16) -> F26Dot6
        ensures value { f26dot6_bits result ≡ rounded_product units (scale_bits self) }
        // For proofs.
        ensures bound { unsigned_abs (f26dot6_bits result) ≤ 2 ^ 30 }
    {
        F26Dot6::from_bits(product(units as i32, self.0.to_bits(), 16))
    }

    /// Scales a number of font units, or returns `None` on overflow. From -65535 to 65535 none
    /// overflows, so that `checked_apply_i32(word.to_u16().into())` of a `UfWord` is `Some`.
    #[tactic(auto, using(crate::proofs::Scaled::units_fit))]
    pub const fn checked_apply_i32(self, units: i32) -> Option<F26Dot6>
        ensures variant { IsSome result ↔ FitsBits 32 (rounded_product units (scale_bits self)) }
        ensures value { IfSome result
            (λ pixels. f26dot6_bits pixels ≡ rounded_product units (scale_bits self)) }
        ensures room { unsigned_abs units ≤ 65535 → IsSome result }
    {
        match Fixed::from_bits(units).checked_mul(self.0) {
            Some(pixels) => Some(F26Dot6::from_bits(pixels.to_bits())),
            None => None,
        }
    }

    /// Scales a point in font units. No result overflows.
    #[inline(always)]
    pub const fn apply_point(self, point: Point<i16>) -> Point<F26Dot6>
        ensures x { f26dot6_bits result.x ≡ rounded_product point.x (scale_bits self) }
        ensures y { f26dot6_bits result.y ≡ rounded_product point.y (scale_bits self) }
        // For proofs.
        ensures bound { (unsigned_abs (f26dot6_bits result.x) ≤ 2 ^ 30)
            × (unsigned_abs (f26dot6_bits result.y) ≤ 2 ^ 30) }
    {
        Point::new(self.apply(point.x), self.apply(point.y))
    }

    /// Scales a point in font units, or returns `None` if a coordinate overflows.
    pub const fn checked_apply_point_i32(self, point: Point<i32>) -> Option<Point<F26Dot6>>
        ensures variant { IsSome result ↔ FitsPoint (record {
          x = rounded_product point.x (scale_bits self);
          y = rounded_product point.y (scale_bits self);
        }) }
        ensures value { IfSome result (λ pixels.
            (f26dot6_bits pixels.x ≡ rounded_product point.x (scale_bits self))
            × (f26dot6_bits pixels.y ≡ rounded_product point.y (scale_bits self))) }
    {
        match (
            self.checked_apply_i32(point.x),
            self.checked_apply_i32(point.y),
        ) {
            (Some(x), Some(y)) => Some(Point::new(x, y)),
            _ => None,
        }
    }
}
