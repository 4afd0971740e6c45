// @generated from crates/font_fixed/src/fixed_i32/common.rt by tools/erase
//! What each 64-bit fixed-point number has.
#![tactic(auto, using(crate::proofs::Rules::number_code))]

ghost use Rattle.std.specs.Prelude.{◌≡◌, ◌≤◌, ◌↔◌, ◌-◌, ◌/◌, ◌^◌, ℤ, pos, neg_ℤ, ◌+ℤ◌, ◌-ℤ◌, ◌≤ℤ◌, ◌<ℤ◌};
ghost use Rattle.std.specs.Prelude.{[], Some, IsSome, IfSome, IfNone, length, max, unsigned_abs};
ghost use Rattle.std.specs.{Int.w64, Fmt.padded_integral};
ghost use Rattle.font_base.specs.{Wrap.FitsBits, Bytes.bytes_of, Bytes.signed_numeral};
ghost use Rattle.font_decimal.specs.Padding.{has_minus, unsigned_body, padded_text, FillsFront};
ghost use Rattle.font_decimal.specs.{Shortest.IsShortest, Shown.shown};
ghost use Rattle.font_fixed.specs.Operations.{WrapsTo, IsNearestWhole, IsIntegral, IsFloor};
ghost use Rattle.font_fixed.specs.Operations.{IsFract, IsCeiling, IsWrappedCeiling, ceiling_of};
ghost use Rattle.font_fixed.specs.Operations.{clamp};
ghost use Rattle.font_fixed.specs.FixedI64.{bits_of, text_of};
ghost use Rattle.font_fixed.specs.{Reading.ParsesFixedPoint, Rounding.rounded};
ghost use Rattle.font_fixed.specs.{declared.fixed_i64.FixedI64.FixedI64, Longest.longest};

use super::FixedI64;
use crate::formats::Format;
use crate::{floor_bits_64, read_bits_64, round_bits_64};
use font_decimal::{DecimalFault, Pad, Shortest};
use std::fmt;
use std::ops::{Add, AddAssign, Neg, Sub, SubAssign};
use std::str::FromStr;

impl<const F: u32> FixedI64<F> {
    /// Creates a value from its raw bits.
    #[inline(always)]
    pub const fn from_bits(bits: i64) -> Self
        ensures { bits_of result ≡ bits }
    {
        Self(bits)
    }

    /// Returns the raw bits.
    #[inline(always)]
    pub const fn to_bits(self) -> i64
        ensures { result ≡ bits_of self.entry }
    {
        self.0
    }

    /// Returns the absolute value; wraps: `MIN.abs()` is `MIN`.
    #[inline(always)]
    pub const fn abs(self) -> Self
        ensures { WrapsTo 64 (pos (unsigned_abs (bits_of self.entry))) (bits_of result) }
    {
        Self(self.0.wrapping_abs())
    }

    /// Returns `self + other`, wrapping on overflow.
    #[inline(always)]
    pub const fn wrapping_add(self, other: Self) -> Self
        ensures { WrapsTo 64 (bits_of self.entry +ℤ bits_of other.entry) (bits_of result) }
    {
        Self(self.0.wrapping_add(other.0))
    }

    /// Returns `self - other`, wrapping on overflow.
    #[inline(always)]
    pub const fn wrapping_sub(self, other: Self) -> Self
        ensures { WrapsTo 64 (bits_of self.entry -ℤ bits_of other.entry) (bits_of result) }
    {
        Self(self.0.wrapping_sub(other.0))
    }

    /// Returns `self + other`, saturating at `MIN` and `MAX`.
    #[inline(always)]
    pub const fn saturating_add(self, other: Self) -> Self
        ensures { bits_of result ≡ clamp 64 (bits_of self.entry +ℤ bits_of other.entry) }
    {
        Self(self.0.saturating_add(other.0))
    }

    /// Returns `self - other`, saturating at `MIN` and `MAX`.
    #[inline(always)]
    pub const fn saturating_sub(self, other: Self) -> Self
        ensures { bits_of result ≡ clamp 64 (bits_of self.entry -ℤ bits_of other.entry) }
    {
        Self(self.0.saturating_sub(other.0))
    }

    /// Returns `self + other`, or `None` on overflow.
    #[inline(always)]
    pub const fn checked_add(self, other: Self) -> Option<Self>
        ensures variant { IsSome result ↔ FitsBits 64 (bits_of self.entry +ℤ bits_of other.entry) }
        ensures value { IfSome result
            (λ sum. bits_of sum ≡ (bits_of self.entry +ℤ bits_of other.entry)) }
    {
        match self.0.checked_add(other.0) {
            Some(bits) => Some(Self(bits)),
            None => None,
        }
    }

    /// Returns `self - other`, or `None` on overflow.
    #[inline(always)]
    pub const fn checked_sub(self, other: Self) -> Option<Self>
        ensures variant { IsSome result ↔ FitsBits 64 (bits_of self.entry -ℤ bits_of other.entry) }
        ensures value { IfSome result
            (λ difference. bits_of difference ≡ (bits_of self.entry -ℤ bits_of other.entry)) }
    {
        match self.0.checked_sub(other.0) {
            Some(bits) => Some(Self(bits)),
            None => None,
        }
    }

    /// Returns `-self`, or `None` on overflow, that is, for `MIN`.
    #[inline(always)]
    pub const fn checked_neg(self) -> Option<Self>
        ensures variant { IsSome result ↔ FitsBits 64 (neg_ℤ (bits_of self.entry)) }
        ensures value { IfSome result (λ negated. bits_of negated ≡ neg_ℤ (bits_of self.entry)) }
    {
        match self.0.checked_neg() {
            Some(bits) => Some(Self(bits)),
            None => None,
        }
    }

    /// Returns the absolute value, or `None` on overflow, that is, for `MIN`.
    #[inline(always)]
    pub const fn checked_abs(self) -> Option<Self>
        ensures variant { IsSome result ↔ FitsBits 64 (pos (unsigned_abs (bits_of self.entry))) }
        ensures value { IfSome result
            (λ magnitude. bits_of magnitude ≡ pos (unsigned_abs (bits_of self.entry))) }
    {
        match self.0.checked_abs() {
            Some(bits) => Some(Self(bits)),
            None => None,
        }
    }

    /// Creates a value from the big-endian bytes of its raw bits.
    #[inline(always)]
    #[tactic(auto, using(font_base::proofs::StdBytes::std_bytes))]
    pub const fn from_be_bytes(bytes: [u8; 8]) -> Self
        ensures { bits_of result ≡ signed_numeral 8 bytes }
    {
        Self(u64::from_be_bytes(bytes).cast_signed())
    }

    /// Returns the raw bits as big-endian bytes.
    #[inline(always)]
    #[tactic(auto, using(font_base::proofs::StdBytes::std_bytes))]
    pub const fn to_be_bytes(self) -> [u8; 8]
        ensures { result ≡ bytes_of 8 (bits_of self.entry) }
    {
        self.0.to_be_bytes()
    }
}

impl<const F: u32> FixedI64<F>
where
    Self: Format<64, F>,
{
    /// Rounds to the nearest integer, half up; wraps: `MAX.round()` is `MIN`.
    // #[doc(alias = "otRound")]
    // #[doc(alias = "FT_PIX_ROUND")]
    #[inline(always)]
    pub const fn round(self) -> Self
        ensures nearest { IsNearestWhole 64 F (bits_of self.entry) (bits_of result) }
        // For proofs.
        ensures whole { IsIntegral F (bits_of result) }
        // For proofs.
        ensures exact { FitsBits 64 (bits_of self.entry +ℤ pos (2 ^ F / 2))
            → (bits_of result ≡ rounded F (bits_of self.entry))
            × (bits_of result ≤ℤ (bits_of self.entry +ℤ pos (2 ^ F / 2)))
            × ((bits_of self.entry +ℤ pos (2 ^ F / 2)) <ℤ (bits_of result +ℤ pos (2 ^ F))) }
        // For proofs.
        ensures small { unsigned_abs (bits_of self.entry) ≤ 2 ^ (64 - 2)
            → (bits_of result ≡ rounded F (bits_of self.entry))
            × (bits_of result ≤ℤ (bits_of self.entry +ℤ pos (2 ^ F / 2)))
            × ((bits_of self.entry +ℤ pos (2 ^ F / 2)) <ℤ (bits_of result +ℤ pos (2 ^ F))) }
    {
        self.wrapping_add(Self(1 << (F - 1))).floor()
    }

    /// Rounds to the nearest integer, half up, or returns `None` on overflow.
    #[inline(always)]
    pub const fn checked_round(self) -> Option<Self>
        ensures variant { IsSome result ↔ FitsBits 64 (rounded F (bits_of self.entry)) }
        ensures value { IfSome result (λ whole. bits_of whole ≡ rounded F (bits_of self.entry)) }
        // For proofs.
        ensures whole { IfSome result (λ whole. IsIntegral F (bits_of whole)) }
        // For proofs.
        ensures exact { IfSome result
            (λ whole. (bits_of whole ≤ℤ (bits_of self.entry +ℤ pos (2 ^ F / 2)))
            × ((bits_of self.entry +ℤ pos (2 ^ F / 2)) <ℤ (bits_of whole +ℤ pos (2 ^ F)))) }
    {
        match round_bits_64(self.0, F) {
            Some(bits) => Some(Self(bits)),
            None => None,
        }
    }

    /// Returns the largest integer less than or equal to `self`.
    // #[doc(alias = "FT_FloorFix")]
    // #[doc(alias = "FT_PIX_FLOOR")]
    #[inline(always)]
    pub const fn floor(self) -> Self
        ensures floor { IsFloor F (bits_of self.entry) (bits_of result) }
        // For proofs.
        ensures whole { IsIntegral F (bits_of result) }
    {
        Self(floor_bits_64(self.0, F))
    }

    /// Returns the smallest integer greater than or equal to `self`; wraps: `MAX.ceil()` is `MIN`.
    // #[doc(alias = "FT_CeilFix")]
    // #[doc(alias = "FT_PIX_CEIL")]
    #[inline(always)]
    pub const fn ceil(self) -> Self
        ensures ceiling { IsWrappedCeiling 64 F (bits_of self.entry) (bits_of result) }
        ensures value { FitsBits 64 (ceiling_of F (bits_of self.entry))
            → bits_of result ≡ ceiling_of F (bits_of self.entry) }
        // For proofs.
        ensures whole { IsIntegral F (bits_of result) }
        // For proofs.
        ensures exact { FitsBits 64 (bits_of self.entry +ℤ pos (2 ^ F - 1))
            → (bits_of result ≡ ceiling_of F (bits_of self.entry))
            × (bits_of self.entry ≤ℤ bits_of result)
            × (bits_of result <ℤ (bits_of self.entry +ℤ pos (2 ^ F))) }
        // For proofs.
        ensures small { unsigned_abs (bits_of self.entry) ≤ 2 ^ (64 - 2)
            → (bits_of result ≡ ceiling_of F (bits_of self.entry))
            × (bits_of self.entry ≤ℤ bits_of result)
            × (bits_of result <ℤ (bits_of self.entry +ℤ pos (2 ^ F))) }
    {
        self.wrapping_add(Self((1 << F) - 1)).floor()
    }

    /// Returns the smallest integer greater than or equal to `self`, or `None` on overflow.
    #[inline(always)]
    pub const fn checked_ceil(self) -> Option<Self>
        ensures variant { IsSome result ↔ FitsBits 64 (ceiling_of F (bits_of self.entry)) }
        ensures value { IfSome result (λ whole. IsCeiling F (bits_of self.entry) (bits_of whole)) }
        // For proofs.
        ensures whole { IfSome result (λ whole. IsIntegral F (bits_of whole)) }
    {
        match self.checked_add(Self((1 << F) - 1)) {
            Some(moved) => Some(moved.floor()),
            None => None,
        }
    }

    /// Returns the fractional part, `self - self.floor()`, at least 0 and less than 1.
    #[inline(always)]
    pub const fn fract(self) -> Self
        ensures { IsFract F (bits_of self.entry) (bits_of result) }
    {
        self.wrapping_sub(self.floor())
    }

    /// Parses a decimal as the nearest value, rounding half away from zero.
    ///
    /// A decimal is an optional `-`, one or more digits, and optionally a point followed by one or
    /// more digits, of any length. `+1`, `.5`, `1.` and `1e3` are not decimals.
    ///
    /// `strToFixed` of fontTools rounds half up instead, and parses by way of a float.
    ///
    /// # Errors
    ///
    /// Returns `Syntax` if the text is not a decimal, and `OutOfRange` if its nearest value is less
    /// than `MIN` or greater than `MAX`.
    // #[doc(alias = "strToFixed")]
    // #[doc(alias = "from_f64")]
    pub fn from_decimal(text: &str) -> Result<Self, DecimalFault>
        ensures { ParsesFixedPoint w64 F bits_of text.now result }
    {
        Self::from_decimal_bytes(text.as_bytes())
    }

    /// Parses a decimal from bytes, as `from_decimal` does.
    ///
    /// # Errors
    ///
    /// Returns the errors of `from_decimal`, and `Syntax` if the bytes are not UTF-8.
    // Code for each format, not for each call.
    #[inline(never)]
    pub fn from_decimal_bytes(text: &[u8]) -> Result<Self, DecimalFault>
        ensures { ParsesFixedPoint w64 F bits_of text.now result }
    {
        match read_bits_64(text, F) {
            Ok(bits) => Ok(Self(bits)),
            Err(fault) => Err(fault),
        }
    }

    /// Returns the shortest decimal that parses back to the value, which is also what `{}` prints,
    /// in a buffer.
    ///
    /// `fixedToStr` of fontTools computes its text from a float instead.
    ///
    /// ```
    /// use font_types::F48Dot16;
    /// let value: F48Dot16 = "0.1".parse().unwrap();
    /// assert_eq!(value.to_decimal().as_str(), "0.1");
    /// ```
    // #[doc(alias = "fixedToStr")]
    // #[doc(alias = "to_f64")]
    pub fn to_decimal(self) -> Shortest
        ensures shortest { IsShortest (bits_of self.entry) F (shown result) }
        ensures text { shown result ≡ text_of self.entry }
    {
        Shortest::new(self.0, F)
    }

    /// Returns `MAX_TEXT_LEN`.
    #[doc(hidden)]
    pub const fn max_text_len() -> usize
        ensures { result ≡ longest 64 F }
    {
        let (whole, places) = ((63 - F) * 3 / 10 + 1, F * 3 / 10 + 1);
        (places + 2 + whole) as usize
    }

    /// Writes the padded decimal to the start of `out` and returns its length, or returns `None`
    /// and leaves `out` unchanged if it is too short. `MAX_TEXT_LEN` bytes are enough if
    /// `pad.width` is not greater, and else `pad.width` bytes.
    ///
    /// ```
    /// use font_types::{F48Dot16, Pad};
    /// let mut out = [0; F48Dot16::MAX_TEXT_LEN];
    /// let len = F48Dot16::MIN.write_padded(&mut out, &Pad::new(0)).unwrap();
    /// assert_eq!(out[..len], *F48Dot16::MIN.to_string().as_bytes());
    /// ```
    pub fn write_padded(self, out: &mut [u8], pad: &Pad) -> Option<usize>
        ensures written { IfSome result
            (λ n. FillsFront (padded_text (text_of self.entry) pad.now) n out.old out.new) }
        ensures variant { IsSome result
            ↔ (length (padded_text (text_of self.entry) pad.now) ≤ length out.old) }
        ensures cell { max (longest 64 F) pad.now.width ≤ length out.old → IsSome result }
        // For proofs.
        ensures fills { length out.old ≤ pad.now.width
            → IfSome result (λ _. out.new ≡ padded_text (text_of self.entry) pad.now) }
        ensures untouched { IfNone result (out.new ≡ out.old) }
    {
        font_decimal::write_padded(self.to_decimal().as_str(), out, pad)
    }
}

/// Wraps on overflow.
impl<const F: u32> Add for FixedI64<F> {
    type Output = FixedI64<F>;

    ghost add_gives = { λ x y sum. WrapsTo 64 (bits_of x +ℤ bits_of y) (bits_of sum) };

    #[inline(always)]
    fn add(self, other: FixedI64<F>) -> FixedI64<F> {
        self.wrapping_add(other)
    }
}

/// Wraps on overflow.
impl<const F: u32> AddAssign for FixedI64<F> {
    ghost add_assign_gives = { λ x y sum. WrapsTo 64 (bits_of x +ℤ bits_of y) (bits_of sum) };

    #[inline(always)]
    fn add_assign(&mut self, other: FixedI64<F>) {
        *self = *self + other;
    }
}

/// Wraps on overflow.
impl<const F: u32> Sub for FixedI64<F> {
    type Output = FixedI64<F>;

    ghost sub_gives = { λ x y rest. WrapsTo 64 (bits_of x -ℤ bits_of y) (bits_of rest) };

    #[inline(always)]
    fn sub(self, other: FixedI64<F>) -> FixedI64<F> {
        self.wrapping_sub(other)
    }
}

/// Wraps on overflow.
impl<const F: u32> SubAssign for FixedI64<F> {
    ghost sub_assign_gives = { λ x y rest. WrapsTo 64 (bits_of x -ℤ bits_of y) (bits_of rest) };

    #[inline(always)]
    fn sub_assign(&mut self, other: FixedI64<F>) {
        *self = *self - other;
    }
}

/// Wraps: `-MIN` is `MIN`.
impl<const F: u32> Neg for FixedI64<F> {
    type Output = FixedI64<F>;

    ghost neg_gives = { λ x opposite. WrapsTo 64 (neg_ℤ (bits_of x)) (bits_of opposite) };

    #[inline(always)]
    fn neg(self) -> FixedI64<F> {
        Self(self.0.wrapping_neg())
    }
}

/// Parses a decimal as `from_decimal` does: `"1.5".parse()`; not `+1`, `.5`, `1.` or `1e3`.
impl<const F: u32> FromStr for FixedI64<F>
where
    Self: Format<64, F>,
{
    type Err = DecimalFault;

    ghost from_str_gives = { λ text result. ParsesFixedPoint w64 F bits_of text result };

    fn from_str(text: &str) -> Result<Self, DecimalFault> {
        Self::from_decimal(text)
    }
}

/// Writes the text of [`to_decimal`](FixedI64::to_decimal). Width, fill, alignment, `+` and `0` pad
/// it as they pad an integer, and a precision is ignored.
impl<const F: u32> fmt::Display for FixedI64<F>
where
    Self: Format<64, F>,
{
    ghost output = { λ x. Some (text_of x) };

    ghost styled_output = { λ x options. Some
        (padded_integral options (has_minus (text_of x)) [] (unsigned_body (text_of x))) };

    fn fmt<W: fmt::Write>(&self, f: &mut fmt::Formatter<W>) -> fmt::Result {
        fmt::Display::fmt(&self.to_decimal(), f)
    }
}

impl<const F: u32> fmt::Debug for FixedI64<F>
where
    Self: Format<64, F>,
{
    ghost debug_output = { λ x. Some (text_of x) };

    fn fmt<W: fmt::Write>(&self, f: &mut fmt::Formatter<W>) -> fmt::Result {
        fmt::Display::fmt(&self.to_decimal(), f)
    }
}
