//! The results of the exports: `fty_status` of the header.

/// Success: the result was stored.
pub const OK: u32 = 0;

/// The text is not a decimal.
pub const NOT_DECIMAL: u32 = 1;

/// The result does not fit in the type that it is stored in.
pub const OUT_OF_RANGE: u32 = 2;

/// Values of this width do not have this number of fraction bits.
pub const BAD_FRACTION: u32 = 3;

/// The buffer is shorter than the text.
pub const BUFFER_TOO_SMALL: u32 = 4;

/// The padding is invalid.
pub const BAD_PAD: u32 = 5;

/// The number of scalars differs from the number of deltas.
pub const COUNT_MISMATCH: u32 = 7;

/// There are more scalars than a font can have.
pub const TOO_MANY: u32 = 8;

/// A tag has a wrong number of bytes, or only spaces.
pub const TAG_LENGTH: u32 = 10;

/// A byte is not allowed in a tag, or not where it is.
pub const TAG_BYTE: u32 = 11;

/// A printable byte follows a space in a tag.
pub const TAG_AFTER_SPACE: u32 = 12;
