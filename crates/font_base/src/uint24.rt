//! 24-bit unsigned integers.

ghost use Rattle.std.specs.Prelude.{◌≡◌, ◌≤◌, ◌<◌, ◌^◌, ◌↔◌, ◌++◌, min, pos, Some, IsSome, IfSome};
ghost use Rattle.std.specs.Prelude.{MatchResult};
ghost use Rattle.std.specs.Fmt.{decimal, styled_decimal};
ghost use lib.Chars.{codes};

use crate::raw::{FixedSize, IdentityEq, Scalar};
use std::fmt;
use thiserror::Error;

/// A 24-bit unsigned integer.
///
/// ```
/// use font_types::Uint24;
/// assert_eq!(Uint24::new(5).to_be_bytes(), [0, 0, 5]);
/// assert!(Uint24::try_from(16777216_usize).is_err());
/// ```
#[derive(Clone, Copy, PartialEq, Eq, PartialOrd, Ord, Hash)]
pub struct Uint24 {
    value: u32,
    ghost in_range: { value < 2 ^ 24 },
}

impl Uint24 {
    ghost use Rattle.font_base.specs.Uint24.{UINT24_MAX, uint24_number};
    ghost use Rattle.font_base.specs.Bytes.{numeral, bytes_of};

    /// The smallest value, 0.
    pub const MIN: Self = Uint24 { value: 0 };

    /// The largest value, 16777215.
    pub const MAX: Self = Uint24 { value: 0xFF_FFFF };

    /// Converts a `u32`, saturating at `MAX`.
    pub const fn new(raw: u32) -> Uint24
        ensures { uint24_number result ≡ min raw UINT24_MAX }
    {
        if raw > Self::MAX.value {
            Self::MAX
        } else {
            Uint24 { value: raw }
        }
    }

    /// Converts a `u32`, or returns `None` if it exceeds `MAX`.
    pub const fn checked_new(raw: u32) -> Option<Uint24>
        ensures variant { IsSome result ↔ (raw ≤ UINT24_MAX) }
        ensures value { IfSome result (λ n. uint24_number n ≡ raw) }
    {
        if raw > Self::MAX.value {
            None
        } else {
            Some(Uint24 { value: raw })
        }
    }

    /// Returns the value as a `u32`.
    pub const fn to_u32(self) -> u32
        ensures { result ≡ uint24_number self }
    {
        self.value
    }

    /// Returns the big-endian bytes.
    pub const fn to_be_bytes(self) -> [u8; 3]
        ensures { result ≡ bytes_of 3 (pos (uint24_number self)) }
    {
        let [_, high, middle, low] = self.value.to_be_bytes();
        [high, middle, low]
    }

    /// Creates a value from big-endian bytes.
    pub const fn from_be_bytes(bytes: [u8; 3]) -> Uint24
        ensures bytes { bytes ≡ bytes_of 3 (pos (uint24_number result)) }
        ensures number { uint24_number result ≡ numeral bytes }
    {
        let [high, middle, low] = bytes;
        let value = u32::from_be_bytes([high, middle, low, 0]) / 0x100;
        Uint24 { value }
    }
}

impl Default for Uint24 {
    ghost use Rattle.font_base.specs.Uint24.{uint24_number};

    ghost is_default = { λ n. uint24_number n ≡ 0 };

    fn default() -> Uint24 {
        Self::MIN
    }
}

impl fmt::Debug for Uint24 {
    ghost use Rattle.font_base.specs.Uint24.{uint24_number};

    ghost debug_output = { λ n. Some (codes "Uint24(" ++ decimal (uint24_number n) ++ codes ")") };

    fn fmt<W: fmt::Write>(&self, f: &mut fmt::Formatter<W>) -> fmt::Result {
        write!(f, "Uint24({})", self.value)
    }
}

impl fmt::Display for Uint24 {
    ghost use Rattle.font_base.specs.Uint24.{uint24_number};

    ghost output = { λ n. Some (decimal (uint24_number n)) };

    ghost styled_output = { λ n options. Some (styled_decimal options (uint24_number n)) };

    fn fmt<W: fmt::Write>(&self, f: &mut fmt::Formatter<W>) -> fmt::Result {
        fmt::Display::fmt(&self.value, f)
    }
}

impl From<Uint24> for u32 {
    ghost use Rattle.font_base.specs.Uint24.{uint24_number};

    ghost from_gives = { λ n number. number ≡ uint24_number n };

    fn from(n: Uint24) -> u32 {
        n.value
    }
}

impl From<Uint24> for usize {
    ghost use Rattle.font_base.specs.Uint24.{uint24_number};

    ghost from_gives = { λ n number. number ≡ uint24_number n };

    fn from(n: Uint24) -> usize {
        n.value as usize
    }
}

/// The error of a conversion from a `usize` that exceeds [`Uint24::MAX`].
///
/// ```
/// use font_types::{TryFromUint24Error, Uint24};
/// assert_eq!(Uint24::try_from(16_777_216_usize), Err(TryFromUint24Error));
/// ```
#[derive(Debug, Drop, Error)]
#[error("failed to convert usize value into Uint24.")]
pub struct TryFromUint24Error;

/// Fails if the number exceeds `MAX`.
impl TryFrom<usize> for Uint24 {
    ghost use Rattle.font_base.specs.Uint24.{UINT24_MAX, uint24_number};

    type Error = TryFromUint24Error;

    ghost try_from_gives = { λ number result. MatchResult result
        (λ n. uint24_number n ≡ number)
        (λ _. UINT24_MAX < number) };

    fn try_from(number: usize) -> Result<Uint24, TryFromUint24Error> {
        if number > Self::MAX.value as usize {
            Err(TryFromUint24Error)
        } else {
            Ok(Uint24 {
                value: number as u32,
            })
        }
    }
}

impl FixedSize for Uint24 {
    const RAW_BYTE_LEN: usize = 3;

    ghost RAW_BYTE_LEN = { 3 };
}

impl Scalar for Uint24 {
    ghost use Rattle.std.specs.Prelude.{true};
    ghost use Rattle.font_base.specs.Uint24.{uint24_number, uint24_of_bytes, bytes_of_uint24};
    ghost use Rattle.font_base.specs.Uint24.Laws.{uint24_laws};

    type Raw = [u8; 3];

    ghost is_scalar = { λ _. true };

    ghost of_raw = { uint24_of_bytes };

    ghost raw_of = { bytes_of_uint24 };

    ghost laws = { uint24_laws };

    fn from_raw(raw: [u8; 3]) -> Uint24 {
        Uint24::from_be_bytes(raw)
    }

    fn to_raw(self) -> [u8; 3] {
        self.to_be_bytes()
    }
}

impl IdentityEq for Uint24 {
    ghost use Rattle.font_base.specs.Uint24.Laws.{uint24_identity};

    ghost identity = { uint24_identity };
}
