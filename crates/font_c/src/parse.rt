//! Decimals parsed to raw values.

ghost use Rattle.std.specs.{Prelude.◌≡◌, Prelude.◌≢◌, Prelude.◌<◌, Int.w16, Int.w32, Int.w64};
ghost use Rattle.font_c.specs.Readings.{result_of, ParsesInto};
ghost use Rattle.font_c.specs.Status.{bad_fraction, IsFraction};

use crate::fraction::{FontFraction, is_fraction};
use crate::status::{BAD_FRACTION, NOT_DECIMAL, OK, OUT_OF_RANGE};
use font_fixed::{read_bits_16, read_bits_32, read_bits_64};
use font_types::DecimalFault;

/// Parses a decimal as the nearest 16-bit raw value, rounding half away from zero.
#[unsafe(no_mangle)]
pub extern "C" fn fty_parse_i16(text: &[u8], fraction: FontFraction, bits: &mut i16) -> u32
    ensures parsed { IsFraction 16 fraction.bits
        → ParsesInto w16 fraction.bits text.now result bits.old bits.new }
    ensures refused { ¬ IsFraction 16 fraction.bits
        → (result ≡ bad_fraction) × (bits.new ≡ bits.old) }
{
    if !is_fraction(16, fraction.bits) {
        return BAD_FRACTION;
    }
    store_reading(read_bits_16(text, fraction.bits), bits)
}

/// Parses a decimal as the nearest 32-bit raw value, rounding half away from zero.
#[unsafe(no_mangle)]
pub extern "C" fn fty_parse_i32(text: &[u8], fraction: FontFraction, bits: &mut i32) -> u32
    ensures parsed { IsFraction 32 fraction.bits
        → ParsesInto w32 fraction.bits text.now result bits.old bits.new }
    ensures refused { ¬ IsFraction 32 fraction.bits
        → (result ≡ bad_fraction) × (bits.new ≡ bits.old) }
{
    if !is_fraction(32, fraction.bits) {
        return BAD_FRACTION;
    }
    store_reading(read_bits_32(text, fraction.bits), bits)
}

/// Parses a decimal as the nearest 64-bit raw value, rounding half away from zero.
#[unsafe(no_mangle)]
pub extern "C" fn fty_parse_i64(text: &[u8], fraction: FontFraction, bits: &mut i64) -> u32
    ensures parsed { IsFraction 64 fraction.bits
        → ParsesInto w64 fraction.bits text.now result bits.old bits.new }
    ensures refused { ¬ IsFraction 64 fraction.bits
        → (result ≡ bad_fraction) × (bits.new ≡ bits.old) }
{
    if !is_fraction(64, fraction.bits) {
        return BAD_FRACTION;
    }
    store_reading(read_bits_64(text, fraction.bits), bits)
}

// Stores a parsed value, and returns the status.
fn store_reading<T: Copy>(reading: Result<T, DecimalFault>, place: &mut T) -> u32
    ensures reading { result_of result place.new ≡ reading }
    ensures known { result < 3 }
    ensures kept { result ≢ 0 → place.new ≡ place.old }
{
    match reading {
        Ok(number) => {
            *place = number;
            OK
        }
        Err(DecimalFault::Syntax) => NOT_DECIMAL,
        Err(DecimalFault::OutOfRange) => OUT_OF_RANGE,
    }
}
