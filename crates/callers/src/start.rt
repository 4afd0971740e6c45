//! A first caller: a field of a table, a stem on the pixel grid, and a loop.

ghost use Rattle.std.specs.Prelude.{◌≡◌, ◌↔◌, ◌+◌, ◌≤◌, pos, ◌+ℤ◌, ◌≤ℤ◌, ◌<ℤ◌, length, take, drop};
ghost use Rattle.std.specs.Prelude.{IsSome, IfSome};
ghost use Rattle.font_types.specs.Wrap.{FitsBits, wrap};
ghost use Rattle.font_types.specs.{Bytes.numeral, Delta.total, F26Dot6.f26dot6_bits};
ghost use Rattle.font_types.specs.{Fixed.fixed_bits, FWord.ufword_number, Operations.IsIntegral};
ghost use Rattle.callers.specs.Start.{metric_offset};

use font_types::{F26Dot6, Fixed, Scalar, UfWord};

/// Reads a field at an offset: the advance width at an index of `hmtx`, or `None` past its end.
pub fn advance_at(hmtx: &[u8], index: u16) -> Option<UfWord>
    ensures variant { IsSome result ↔ (metric_offset index + 2 ≤ length hmtx.now) }
    ensures value { IfSome result (λ advance.
        ufword_number advance ≡ numeral (take 2 (drop (metric_offset index) hmtx.now))) }
{
    UfWord::read_at(hmtx, usize::from(index) * 4)
}

/// Rounds to the grid: the width of a stem, at least one pixel.
pub fn snap_stem(width: F26Dot6) -> F26Dot6
    requires { FitsBits 32 (f26dot6_bits width +ℤ pos 32) }
    ensures whole { IsIntegral 6 (f26dot6_bits result) }
    ensures thin { f26dot6_bits width <ℤ pos 32 → f26dot6_bits result ≡ pos 64 }
    ensures near { pos 32 ≤ℤ f26dot6_bits width
        → (f26dot6_bits result ≤ℤ (f26dot6_bits width +ℤ pos 32))
        × (f26dot6_bits width <ℤ (f26dot6_bits result +ℤ pos 32)) }
{
    let snapped = width.round();
    if snapped < F26Dot6::ONE {
        F26Dot6::ONE
    } else {
        snapped
    }
}

/// Adds the numbers of a slice: advances, wrapped once.
pub fn line_width(advances: &[Fixed]) -> Fixed
    ensures { fixed_bits result ≡ wrap 32 (total fixed_bits advances.now) }
{
    let mut width = Fixed::ZERO;
    for advance in advances {
        width += *advance;
    }
    width
}
