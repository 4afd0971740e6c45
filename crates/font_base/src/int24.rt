//! 24-bit signed integers.

ghost use Rattle.std.specs.Prelude.{◌≡◌, ◌≤ℤ◌, ◌<ℤ◌, ◌↔◌, ◌++◌, pos, neg_ℤ, Some, IsSome, IfSome};
ghost use Rattle.std.specs.{Int.int_min, Int.int_max};
ghost use Rattle.std.specs.Fmt.{signed_decimal, styled_signed_decimal};
ghost use lib.Chars.{codes};

use crate::raw::{FixedSize, IdentityEq, Scalar};
use std::fmt;

/// A 24-bit signed integer.
///
/// ```
/// use font_types::Int24;
/// assert_eq!(Int24::new(-2).to_be_bytes(), [0xFF, 0xFF, 0xFE]);
/// assert_eq!(Int24::checked_new(8388608), None);
/// ```
#[derive(Clone, Copy, PartialEq, Eq, PartialOrd, Ord, Hash)]
pub struct Int24 {
    value: i32,
    ghost low: { neg_ℤ (pos 8388608) ≤ℤ value },
    ghost high: { value <ℤ pos 8388608 },
}

impl Int24 {
    ghost use Rattle.font_base.specs.Int24.{INT24_MIN, INT24_MAX, int24_number};
    ghost use Rattle.font_base.specs.Bytes.{signed_numeral, bytes_of};

    /// The smallest value, -8388608.
    pub const MIN: Self = Int24 { value: -0x80_0000 };

    /// The largest value, 8388607.
    pub const MAX: Self = Int24 { value: 0x7F_FFFF };

    /// Converts an `i32`, saturating at `MIN` and `MAX`.
    pub const fn new(raw: i32) -> Int24
        ensures { int24_number result ≡ int_max INT24_MIN (int_min raw INT24_MAX) }
    {
        if raw < Self::MIN.value {
            Self::MIN
        } else if raw > Self::MAX.value {
            Self::MAX
        } else {
            Int24 { value: raw }
        }
    }

    /// Converts an `i32`, or returns `None` if it is out of range.
    pub const fn checked_new(raw: i32) -> Option<Int24>
        ensures variant { IsSome result ↔ ((INT24_MIN ≤ℤ raw) × (raw ≤ℤ INT24_MAX)) }
        ensures value { IfSome result (λ n. int24_number n ≡ raw) }
    {
        if raw < Self::MIN.value || raw > Self::MAX.value {
            None
        } else {
            Some(Int24 { value: raw })
        }
    }

    /// Returns the value as an `i32`.
    pub const fn to_i32(self) -> i32
        ensures { result ≡ int24_number self }
    {
        self.value
    }

    /// Returns the big-endian bytes, in two's complement.
    pub const fn to_be_bytes(self) -> [u8; 3]
        ensures { result ≡ bytes_of 3 (int24_number self) }
    {
        let [_, high, middle, low] = self.value.to_be_bytes();
        [high, middle, low]
    }

    /// Creates a value from big-endian bytes in two's complement.
    pub const fn from_be_bytes(bytes: [u8; 3]) -> Int24
        ensures bytes { bytes ≡ bytes_of 3 (int24_number result) }
        ensures number { int24_number result ≡ signed_numeral 3 bytes }
    {
        let [high, middle, low] = bytes;
        let value = i32::from_be_bytes([high, middle, low, 0]) / 0x100;
        Int24 { value }
    }
}

impl Default for Int24 {
    ghost use Rattle.font_base.specs.Int24.{int24_number};

    ghost is_default = { λ n. int24_number n ≡ pos 0 };

    fn default() -> Int24 {
        Int24 { value: 0 }
    }
}

impl fmt::Debug for Int24 {
    ghost use Rattle.font_base.specs.Int24.{int24_number};

    ghost debug_output = { λ n. Some
        (codes "Int24(" ++ signed_decimal (int24_number n) ++ codes ")") };

    fn fmt<W: fmt::Write>(&self, f: &mut fmt::Formatter<W>) -> fmt::Result {
        write!(f, "Int24({})", self.value)
    }
}

impl fmt::Display for Int24 {
    ghost use Rattle.font_base.specs.Int24.{int24_number};

    ghost output = { λ n. Some (signed_decimal (int24_number n)) };

    ghost styled_output = { λ n options. Some (styled_signed_decimal options (int24_number n)) };

    fn fmt<W: fmt::Write>(&self, f: &mut fmt::Formatter<W>) -> fmt::Result {
        fmt::Display::fmt(&self.value, f)
    }
}

impl From<Int24> for i32 {
    ghost use Rattle.font_base.specs.Int24.{int24_number};

    ghost from_gives = { λ n number. number ≡ int24_number n };

    fn from(n: Int24) -> i32 {
        n.value
    }
}

impl FixedSize for Int24 {
    const RAW_BYTE_LEN: usize = 3;

    ghost RAW_BYTE_LEN = { 3 };
}

impl Scalar for Int24 {
    ghost use Rattle.std.specs.Prelude.{true};
    ghost use Rattle.font_base.specs.Int24.{int24_number, int24_of_bytes, bytes_of_int24};
    ghost use Rattle.font_base.specs.Int24.Laws.{int24_laws};

    type Raw = [u8; 3];

    ghost is_scalar = { λ _. true };

    ghost of_raw = { int24_of_bytes };

    ghost raw_of = { bytes_of_int24 };

    ghost laws = { int24_laws };

    fn from_raw(raw: [u8; 3]) -> Int24 {
        Int24::from_be_bytes(raw)
    }

    fn to_raw(self) -> [u8; 3] {
        self.to_be_bytes()
    }
}

impl IdentityEq for Int24 {
    ghost use Rattle.font_base.specs.Int24.Laws.{int24_identity};

    ghost identity = { int24_identity };
}
