//! 16-bit quantities in font design units.

ghost use Rattle.std.specs.Prelude.{◌≡◌, ◌↔◌, ◌^◌, ◌+ℤ◌, ◌*ℤ◌, ◌≤ℤ◌, ◌<ℤ◌, pos, nat_lt, Some};
ghost use Rattle.std.specs.Prelude.{IsSome, IfSome, refl};
ghost use Rattle.std.specs.Fmt.{decimal, signed_decimal, styled_decimal, styled_signed_decimal};
ghost use Rattle.std.proofs.Common.{lit<};
ghost use Rattle.font_base.specs.Wrap.{FitsBits, fits_bits, wrap};
ghost use Rattle.font_base.specs.Bytes.{bytes_of, numeral, signed_numeral};
ghost use Rattle.font_base.specs.Scalar.Laws.{unsigned_newtype, unsigned_identity, signed_newtype};
ghost use Rattle.font_base.specs.Scalar.Laws.{signed_identity};
ghost use Rattle.font_fixed.specs.{F48Dot16.f48dot16_bits, Fixed.fixed_bits};
ghost use Rattle.font_ids.specs.FWord.{fword_number, fword_of, ufword_number, ufword_of};
ghost use Rattle.font_ids.specs.FWord.{nearest_unit};

use font_base::{FixedSize, IdentityEq, Scalar};
use font_fixed::{F48Dot16, Fixed, fitting_16, nearest_sum};
use std::fmt;

/// A signed 16-bit quantity in font design units.
///
/// ```
/// use font_types::{FWord, Fixed, Scalar};
/// let ascender = FWord::read(&[0xFF, 0xFE]).unwrap();
/// assert_eq!(ascender.to_fixed(), Fixed::from_i32(-2));
/// ```
#[derive(Clone, Copy, Debug, Default, PartialEq, Eq, PartialOrd, Ord, Hash)]
pub struct FWord(i16);

impl FWord {
    /// Creates a quantity from a number of font units.
    pub const fn new(raw: i16) -> Self
        ensures { fword_number result ≡ raw }
    {
        Self(raw)
    }

    /// Returns the number of font units.
    pub const fn to_i16(self) -> i16
        ensures { result ≡ fword_number self }
    {
        self.0
    }

    /// Converts to 16.16, exactly.
    #[tactic(auto, using(font_fixed::proofs::FixedCalls::fixed_calls))]
    pub const fn to_fixed(self) -> Fixed
        ensures { fixed_bits result ≡ (fword_number self *ℤ pos (2 ^ 16)) }
    {
        Fixed::from_i32(self.to_i16() as i32)
    }

    /// Adds a sum of deltas, exactly. The result is a 16.16 raw value.
    ///
    /// ```
    /// use font_types::{F48Dot16, FWord};
    /// let moved = FWord::new(500).apply_delta(F48Dot16::from_i64(20));
    /// assert_eq!(moved, 520 << 16);
    /// ```
    pub fn apply_delta(self, delta: F48Dot16) -> i128
        ensures { result ≡ (fword_number self *ℤ pos 65536 +ℤ f48dot16_bits delta) }
    {
        i128::from(self.to_i16()) * 0x1_0000 + i128::from(delta.to_bits())
    }

    /// Adds a sum of deltas and rounds to the nearest font unit, half up, or returns `None` if that
    /// is out of range.
    ///
    /// ```
    /// use font_types::{F48Dot16, FWord};
    /// let delta = F48Dot16::from_bits(0x18000);
    /// assert_eq!(FWord::new(100).checked_add_delta(delta), Some(FWord::new(102)));
    /// ```
    pub const fn checked_add_delta(self, delta: F48Dot16) -> Option<FWord>
        ensures variant { IsSome result ↔ FitsBits 16
            (nearest_unit (fword_number self *ℤ pos 65536 +ℤ f48dot16_bits delta)) }
        ensures value { IfSome result (λ word. fword_number word
            ≡ nearest_unit (fword_number self *ℤ pos 65536 +ℤ f48dot16_bits delta)) }
    {
        match fitting_16(nearest_sum(self.0 as i32, delta)) {
            Some(number) => Some(Self(number)),
            None => None,
        }
    }

    /// Returns the big-endian bytes.
    #[tactic(auto, using(font_base::proofs::StdBytes::std_bytes))]
    pub const fn to_be_bytes(self) -> [u8; 2]
        ensures { result ≡ bytes_of 2 (fword_number self) }
    {
        self.0.to_be_bytes()
    }
}

impl fmt::Display for FWord {
    ghost output = { λ word. Some (signed_decimal (fword_number word)) };

    ghost styled_output = { λ word options. Some
        (styled_signed_decimal options (fword_number word)) };

    fn fmt<W: fmt::Write>(&self, f: &mut fmt::Formatter<W>) -> fmt::Result {
        fmt::Display::fmt(&self.0, f)
    }
}

impl From<i16> for FWord {
    ghost from_gives = { λ number word. fword_number word ≡ number };

    fn from(number: i16) -> FWord {
        FWord(number)
    }
}

impl From<FWord> for i16 {
    ghost from_gives = { λ word number. number ≡ fword_number word };

    fn from(word: FWord) -> i16 {
        word.0
    }
}

impl From<FWord> for i32 {
    ghost from_gives = { λ word number. number ≡ fword_number word };

    fn from(word: FWord) -> i32 {
        i32::from(word.0)
    }
}

/// Converts as `to_fixed` does, exactly.
impl From<FWord> for Fixed {
    ghost from_gives = { λ word x. fixed_bits x ≡ (fword_number word *ℤ pos (2 ^ 16)) };

    fn from(word: FWord) -> Fixed {
        word.to_fixed()
    }
}

impl FixedSize for FWord {
    const RAW_BYTE_LEN: usize = 2;

    ghost RAW_BYTE_LEN = { 2 };
}

impl Scalar for FWord {
    type Raw = [u8; 2];

    ghost is_scalar = { λ word. fits_bits 16 (fword_number word) };

    ghost of_raw = { λ raw. fword_of (signed_numeral 2 raw) };

    ghost raw_of = { λ word. bytes_of 2 (fword_number word) };

    ghost laws = { signed_newtype 2 (lit< tt) fword_number fword_of (λ _. refl) (λ _. refl) };

    fn from_raw(raw: [u8; 2]) -> FWord {
        FWord(i16::from_raw(raw))
    }

    fn to_raw(self) -> [u8; 2] {
        i16::to_raw(self.0)
    }
}

impl IdentityEq for FWord {
    ghost identity = { signed_identity fword_number fword_of (λ _. refl) };
}

/// An unsigned 16-bit quantity in font design units.
///
/// ```
/// use font_types::{Scalar, UfWord};
/// assert_eq!(UfWord::read(&[0xFF, 0xFE]), Some(UfWord::new(65534)));
/// ```
#[derive(Clone, Copy, Debug, Default, PartialEq, Eq, PartialOrd, Ord, Hash)]
pub struct UfWord(u16);

impl UfWord {
    /// Creates a quantity from a number of font units.
    pub const fn new(raw: u16) -> Self
        ensures { ufword_number result ≡ raw }
    {
        Self(raw)
    }

    /// Returns the number of font units.
    pub const fn to_u16(self) -> u16
        ensures { result ≡ ufword_number self }
    {
        self.0
    }

    /// Converts to 16.16, wrapping: 32768 and above become negative.
    pub const fn to_fixed(self) -> Fixed
        ensures { fixed_bits result ≡ wrap 32 (pos (ufword_number self) *ℤ pos (2 ^ 16)) }
    {
        Fixed::from_i32(self.to_u16() as i32)
    }

    /// Converts to 16.16, or returns `None` on overflow, that is, for 32768 and above.
    pub const fn checked_to_fixed(self) -> Option<Fixed>
        ensures variant { IsSome result
            ↔ FitsBits 32 (pos (ufword_number self) *ℤ pos (2 ^ 16)) }
        ensures value { IfSome result
            (λ number. fixed_bits number ≡ (pos (ufword_number self) *ℤ pos (2 ^ 16))) }
    {
        Fixed::checked_from_i32(self.to_u16() as i32)
    }

    /// Adds a sum of deltas, exactly. The result is a 16.16 raw value.
    ///
    /// ```
    /// use font_types::{F48Dot16, UfWord};
    /// let moved = UfWord::new(500).apply_delta(F48Dot16::from_i64(20));
    /// assert_eq!(moved, 520 << 16);
    /// ```
    pub fn apply_delta(self, delta: F48Dot16) -> i128
        ensures { result ≡ (pos (ufword_number self) *ℤ pos 65536 +ℤ f48dot16_bits delta) }
    {
        i128::from(self.to_u16()) * 0x1_0000 + i128::from(delta.to_bits())
    }

    /// Adds a sum of deltas and rounds to the nearest font unit, half up, or returns `None` if that
    /// is out of range.
    pub const fn checked_add_delta(self, delta: F48Dot16) -> Option<UfWord>
        ensures variant { IsSome result ↔ (
            (pos 0 ≤ℤ nearest_unit (pos (ufword_number self) *ℤ pos 65536 +ℤ f48dot16_bits delta))
            × (nearest_unit (pos (ufword_number self) *ℤ pos 65536 +ℤ f48dot16_bits delta)
            <ℤ pos 65536)) }
        ensures value { IfSome result (λ word. pos (ufword_number word)
            ≡ nearest_unit (pos (ufword_number self) *ℤ pos 65536 +ℤ f48dot16_bits delta)) }
    {
        let moved = nearest_sum(self.0 as i32, delta);
        if moved < 0 || moved > 0xFFFF {
            None
        } else {
            Some(Self(moved as u16))
        }
    }

    /// Returns the big-endian bytes.
    #[tactic(auto, using(font_base::proofs::StdBytes::std_bytes))]
    pub const fn to_be_bytes(self) -> [u8; 2]
        ensures { result ≡ bytes_of 2 (pos (ufword_number self)) }
    {
        self.0.to_be_bytes()
    }
}

impl fmt::Display for UfWord {
    ghost output = { λ word. Some (decimal (ufword_number word)) };

    ghost styled_output = { λ word options. Some (styled_decimal options (ufword_number word)) };

    fn fmt<W: fmt::Write>(&self, f: &mut fmt::Formatter<W>) -> fmt::Result {
        fmt::Display::fmt(&self.0, f)
    }
}

impl From<u16> for UfWord {
    ghost from_gives = { λ number word. ufword_number word ≡ number };

    fn from(number: u16) -> UfWord {
        UfWord(number)
    }
}

impl From<UfWord> for u16 {
    ghost from_gives = { λ word number. number ≡ ufword_number word };

    fn from(word: UfWord) -> u16 {
        word.0
    }
}

impl From<UfWord> for i32 {
    ghost from_gives = { λ word number. number ≡ pos (ufword_number word) };

    fn from(word: UfWord) -> i32 {
        i32::from(word.0)
    }
}

impl FixedSize for UfWord {
    const RAW_BYTE_LEN: usize = 2;

    ghost RAW_BYTE_LEN = { 2 };
}

impl Scalar for UfWord {
    type Raw = [u8; 2];

    ghost is_scalar = { λ word. nat_lt (ufword_number word) (2 ^ 16) };

    ghost of_raw = { λ raw. ufword_of (numeral raw) };

    ghost raw_of = { λ word. bytes_of 2 (pos (ufword_number word)) };

    ghost laws = { unsigned_newtype 2 ufword_number ufword_of (λ _. refl) (λ _. refl) };

    fn from_raw(raw: [u8; 2]) -> UfWord {
        UfWord(u16::from_raw(raw))
    }

    fn to_raw(self) -> [u8; 2] {
        u16::to_raw(self.0)
    }
}

impl IdentityEq for UfWord {
    ghost identity = { unsigned_identity ufword_number ufword_of (λ _. refl) };
}
