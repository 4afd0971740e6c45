//! Parsing decimals to the raw bits of fixed-point numbers.

ghost use Rattle.std.specs.{Prelude.◌≤◌, Int.w16, Int.w32, Int.w64};
ghost use Rattle.font_fixed.specs.Reading.{ParsesFixedPoint};

use font_decimal::{DecimalFault, read_decimal_bytes};

/// Parses a decimal as the nearest 16-bit raw value with `f` fraction bits, rounding half away from
/// zero.
#[inline(always)]
pub fn read_bits_16(text: &[u8], f: u32) -> Result<i16, DecimalFault>
    requires { (6 ≤ f) × (f ≤ 30) }
    ensures { ParsesFixedPoint w16 f (λ bits. bits) text.now result }
{
    match read_decimal_bytes(text, f, i16::MIN as i64, i16::MAX as i64) {
        Ok(bits) => Ok(bits as i16),
        Err(fault) => Err(fault),
    }
}

/// Parses a decimal as the nearest 32-bit raw value with `f` fraction bits, rounding half away from
/// zero.
#[inline(always)]
pub fn read_bits_32(text: &[u8], f: u32) -> Result<i32, DecimalFault>
    requires { (6 ≤ f) × (f ≤ 30) }
    ensures { ParsesFixedPoint w32 f (λ bits. bits) text.now result }
{
    match read_decimal_bytes(text, f, i32::MIN as i64, i32::MAX as i64) {
        Ok(bits) => Ok(bits as i32),
        Err(fault) => Err(fault),
    }
}

/// Parses a decimal as the nearest 64-bit raw value with `f` fraction bits, rounding half away from
/// zero.
#[inline(always)]
pub fn read_bits_64(text: &[u8], f: u32) -> Result<i64, DecimalFault>
    requires { (6 ≤ f) × (f ≤ 30) }
    ensures { ParsesFixedPoint w64 f (λ bits. bits) text.now result }
{
    read_decimal_bytes(text, f, i64::MIN, i64::MAX)
}
