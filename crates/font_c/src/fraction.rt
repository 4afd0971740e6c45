//! Numbers of fraction bits.

ghost use Rattle.std.specs.Prelude.{◌↔◌, IsTrue};
ghost use Rattle.font_c.specs.Status.{IsFraction};

/// A number of fraction bits: of a type of its own, which C takes for no other number.
#[repr(C)]
#[derive(Clone, Copy)]
pub struct FontFraction {
    /// The number.
    pub bits: u32,
}

/// Returns `true` if values of `width` bits may have `fraction_bits`.
pub fn is_fraction(width: u32, fraction_bits: u32) -> bool
    ensures { IsTrue result ↔ IsFraction width fraction_bits }
{
    6 <= fraction_bits && fraction_bits <= 30 && fraction_bits + 2 <= width
}
