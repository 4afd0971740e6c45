//! Dates and times.

ghost use Rattle.std.specs.Prelude.{◌≡◌, refl};
ghost use Rattle.std.proofs.Common.{lit<};
ghost use Rattle.font_base.specs.Scalar.Laws.{signed_newtype, signed_identity};
ghost use Rattle.font_base.specs.{Wrap.fits_bits, Bytes.bytes_of, Bytes.signed_numeral};
ghost use Rattle.font_tags.specs.LongDateTime.{date_seconds, date_of};

use font_base::{FixedSize, IdentityEq, Scalar};

/// A date and time, as seconds since 1904-01-01 00:00 UTC; negative before that.
///
/// ```
/// use font_types::{LongDateTime, Scalar};
/// let epoch_of_unix = LongDateTime::read(&[0, 0, 0, 0, 0x7C, 0x25, 0xB0, 0x80]).unwrap();
/// assert_eq!(epoch_of_unix.as_secs(), 2_082_844_800);
/// ```
#[derive(Clone, Copy, Debug, Default, PartialEq, Eq, PartialOrd, Ord, Hash)]
pub struct LongDateTime(i64);

impl LongDateTime {
    /// Creates a date from seconds since 1904-01-01 00:00 UTC.
    pub const fn new(secs: i64) -> Self
        ensures { date_seconds result ≡ secs }
    {
        Self(secs)
    }

    /// Returns the seconds since 1904-01-01 00:00 UTC.
    pub const fn as_secs(&self) -> i64
        ensures { result ≡ date_seconds self.now }
    {
        self.0
    }

    /// Returns the seconds as big-endian bytes.
    #[tactic(auto, using(font_base::proofs::StdBytes::std_bytes))]
    pub const fn to_be_bytes(self) -> [u8; 8]
        ensures { result ≡ bytes_of 8 (date_seconds self) }
    {
        self.0.to_be_bytes()
    }
}

impl FixedSize for LongDateTime {
    const RAW_BYTE_LEN: usize = 8;

    ghost RAW_BYTE_LEN = { 8 };
}

impl Scalar for LongDateTime {
    type Raw = [u8; 8];

    ghost is_scalar = { λ date. fits_bits 64 (date_seconds date) };

    ghost of_raw = { λ raw. date_of (signed_numeral 8 raw) };

    ghost raw_of = { λ date. bytes_of 8 (date_seconds date) };

    ghost laws = { signed_newtype 8 (lit< tt) date_seconds date_of (λ _. refl) (λ _. refl) };

    fn from_raw(raw: [u8; 8]) -> LongDateTime {
        LongDateTime(i64::from_raw(raw))
    }

    fn to_raw(self) -> [u8; 8] {
        self.0.to_raw()
    }
}

impl IdentityEq for LongDateTime {
    ghost identity = { signed_identity date_seconds date_of (λ _. refl) };
}
