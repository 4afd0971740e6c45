//! 16-bit fixed-point numbers.

ghost use Rattle.std.proofs.Common.{lit<};
ghost use Rattle.std.specs.Prelude.{refl};
ghost use Rattle.font_base.specs.Scalar.Laws.{signed_newtype, signed_identity};
ghost use Rattle.font_base.specs.{Wrap.fits_bits, Bytes.bytes_of, Bytes.signed_numeral};
ghost use Rattle.font_fixed.specs.FixedI16.{bits_of, of_bits};

use font_base::{FixedSize, IdentityEq, Scalar};

mod common;
mod f2dot14;
mod f4dot12;
mod f6dot10;

pub use f2dot14::F2Dot14;
pub use f4dot12::F4Dot12;
pub use f6dot10::F6Dot10;

/// A signed fixed-point number of 16 bits, `F` of them fraction bits.
///
/// For its functions, read the page of the format: [`F2Dot14`], [`F4Dot12`] or [`F6Dot10`].
/// The raw value is an `i16` in units of `1 / 2^F`. Sums wrap on overflow.
///
/// The formats also round, parse and print, and have constants. Other fraction bits do not:
///
/// ```compile_fail,E0599
/// use font_types::FixedI16;
/// FixedI16::<3>::from_bits(12).round();
/// ```
#[derive(Clone, Copy, PartialEq, Eq, PartialOrd, Ord, Hash, Default)]
pub struct FixedI16<const F: u32>(i16);

impl<const F: u32> FixedSize for FixedI16<F> {
    const RAW_BYTE_LEN: usize = 2;

    ghost RAW_BYTE_LEN = { 2 };
}

impl<const F: u32> Scalar for FixedI16<F> {
    type Raw = [u8; 2];

    ghost is_scalar = { λ x. fits_bits 16 (bits_of x) };

    ghost of_raw = { λ bytes. of_bits (signed_numeral 2 bytes) };

    ghost raw_of = { λ x. bytes_of 2 (bits_of x) };

    ghost laws = { signed_newtype 2 (lit< tt) bits_of of_bits (λ _. refl) (λ _. refl) };

    #[inline(always)]
    fn from_raw(raw: [u8; 2]) -> FixedI16<F> {
        Self(i16::from_raw(raw))
    }

    #[inline(always)]
    fn to_raw(self) -> [u8; 2] {
        self.0.to_raw()
    }
}

impl<const F: u32> IdentityEq for FixedI16<F> {
    ghost identity = { signed_identity bits_of of_bits (λ _. refl) };
}
