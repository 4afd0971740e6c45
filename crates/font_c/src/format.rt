//! Decimals written to buffers of C.

ghost use Rattle.std.specs.Prelude.{◌≡◌, ◌<◌, ◌≤◌, length, max, MatchResult};
ghost use Rattle.font_types.specs.Shortest.{shortest_text};
ghost use Rattle.font_types.specs.Padding.{padded_text, unsigned_body};
ghost use Rattle.font_c.specs.Pads.{IsPad, pad_of, WritesPadded};
ghost use Rattle.font_c.specs.{Texts.WritesText, Status.bad_fraction, Status.IsFraction};

use crate::fraction::{FontFraction, is_fraction};
use crate::status::{BAD_FRACTION, BAD_PAD, BUFFER_TOO_SMALL, OK};
use font_types::{Align, Pad, Shortest};

/// How to pad a decimal.
#[repr(C)]
#[derive(Clone, Copy)]
pub struct FontPad {
    /// The minimum width in bytes; 0 means none.
    pub width: usize,
    /// The fill byte, below 0x80; 0 means a space.
    pub fill: u8,
    /// The alignment: 0 left, 1 center, 2 right.
    pub align: u8,
    /// Writes a `+` unless the text starts with `-`, if not 0.
    pub plus: u8,
    /// Pads with zeros after the sign, if not 0.
    pub zeros: u8,
}

/// The error of an invalid `FontPad`.
#[derive(Clone, Copy)]
pub struct InvalidPad;

impl TryFrom<FontPad> for Pad {
    type Error = InvalidPad;

    ghost try_from_gives = { λ given result. MatchResult result
        (λ pad. IsPad given × (pad ≡ pad_of given)) (λ _. ¬ IsPad given) };

    fn try_from(given: FontPad) -> Result<Self, InvalidPad> {
        if given.fill >= 0x80 {
            return Err(InvalidPad);
        }
        let align = match given.align {
            0 => Align::Left,
            1 => Align::Center,
            2 => Align::Right,
            _ => return Err(InvalidPad),
        };
        Ok(Self {
            width: given.width,
            fill: if given.fill == 0 { b' ' } else { given.fill },
            align,
            plus: given.plus != 0,
            zeros: given.zeros != 0,
        })
    }
}

/// Writes the shortest decimal that parses back to the raw value to the start of `out`, and its
/// length to `written`.
#[unsafe(no_mangle)]
#[tactic(auto, using(crate::proofs::Texts::short_text_fits))]
pub extern "C" fn fty_abi_format(
    bits: i64,
    fraction: FontFraction,
    out: &mut [u8],
    written: &mut usize,
) -> u32
    ensures text { IsFraction 64 fraction.bits → WritesText (shortest_text bits fraction.bits)
        result written.old written.new out.old out.new }
    ensures enough { IsFraction 64 fraction.bits → 22 ≤ length out.old → result ≡ 0 }
    ensures refused { ¬ IsFraction 64 fraction.bits
        → (result ≡ bad_fraction) × (written.new ≡ written.old) × (out.new ≡ out.old) }
{
    if !is_fraction(64, fraction.bits) {
        return BAD_FRACTION;
    }
    put_text(
        Shortest::new(bits, fraction.bits).as_str().as_bytes(),
        out,
        written,
    )
}

/// Writes that decimal padded to the start of `out`, and its length to `written`.
#[unsafe(no_mangle)]
pub extern "C" fn fty_abi_format_padded(
    bits: i64,
    fraction: FontFraction,
    pad: &FontPad,
    out: &mut [u8],
    written: &mut usize,
) -> u32
    ensures padded { IsFraction 64 fraction.bits → WritesPadded bits fraction.bits pad.now result
        written.old written.new out.old out.new }
    ensures refused { ¬ IsFraction 64 fraction.bits
        → (result ≡ bad_fraction) × (written.new ≡ written.old) × (out.new ≡ out.old) }
{
    if !is_fraction(64, fraction.bits) {
        return BAD_FRACTION;
    }
    match Pad::try_from(*pad) {
        Ok(pad) => put_padded(
            Shortest::new(bits, fraction.bits).as_str(),
            &pad,
            out,
            written,
        ),
        Err(_) => BAD_PAD,
    }
}

/// Writes text to the start of `out`, and its length to `written`.
pub fn put_text(text: &[u8], out: &mut [u8], written: &mut usize) -> u32
    ensures { WritesText text.now result written.old written.new out.old out.new }
{
    if out.len() < text.len() {
        return BUFFER_TOO_SMALL;
    }
    out[..text.len()].copy_from_slice(text);
    *written = text.len();
    OK
}

// Writes a padded decimal to the start of a buffer, and its length.
#[tactic(auto, using(crate::proofs::Texts::short_text_fits))]
fn put_padded(text: &str, pad: &Pad, out: &mut [u8], written: &mut usize) -> u32
    ensures text { WritesText (padded_text text.now pad.now) result written.old written.new out.old
        out.new }
    ensures enough { length (unsigned_body text.now) < 22 → max 22 pad.now.width ≤ length out.old
        → result ≡ 0 }
{
    match font_types::write_padded(text, out, pad) {
        Some(len) => {
            *written = len;
            OK
        }
        None => BUFFER_TOO_SMALL,
    }
}
