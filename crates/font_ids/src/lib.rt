//! Font units, glyph ids, name ids and offsets, and the tags, versions and dates of `font_tags`.
//!
//! ```text
//! format!(in alloc; "{}", NameId::FAMILY_NAME)          // "FAMILY_NAME"
//! GlyphId16::try_from(GlyphId::new(65536))              // an error, which has the number
//! ```
#![tactic(auto)]

mod fword;
mod glyph_id;
mod name_id;
mod offset;

pub use font_tags::{
    Compatible, InvalidTag, LongDateTime, MajorMinor, TTC_HEADER_TAG, Tag, Version16Dot16,
};
pub use fword::{FWord, UfWord};
pub use glyph_id::{GlyphId, GlyphId16, GlyphId24, TryFromGlyphIdError};
pub use name_id::{NameId, Predefined};
pub use offset::{Nullable, Offset16, Offset24, Offset32, OffsetValue};
