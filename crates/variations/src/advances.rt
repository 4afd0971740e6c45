//! Advances by a table `HVAR`, from its bytes to a varied advance.

ghost use Rattle.std.specs.Prelude.{◌≡◌, ◌↔◌, ◌<◌, ◌≤◌, ◌+◌, ◌*◌, ◌/◌, ◌%◌, ◌^◌};
ghost use Rattle.std.specs.Prelude.{IsSome, IfSome, length, take, drop};
ghost use Rattle.font_types.specs.GlyphId.{glyph16_number};
ghost use Rattle.variations.specs.Advances.{HasTarget, target_of, HasGlyphSet, outer_index};
ghost use Rattle.variations.specs.Advances.{inner_index, IsHvar};

use crate::instances::ItemVariationStore;
use crate::maps::{DeltaSetIndex, read_delta_set_index};
use font_types::{GlyphId16, Offset32, OffsetValue, Scalar};

// Returns the bytes from where an offset points, or `None` if it is null or points past the end.
#[inline]
pub(crate) fn at_offset(table: &[u8], place: usize) -> Option<&[u8]>
    ensures variant { IsSome result ↔ HasTarget table.now place }
    ensures value { IfSome result (λ target. target.now ≡ target_of table.now place) }
{
    Offset32::read_at(table, place)?.follow(table)
}

// Reads the delta set of a glyph: in a table without a map, the set whose index is the glyph.
#[inline]
fn glyph_set(hvar: &[u8], glyph: u16) -> Option<DeltaSetIndex>
    ensures variant { IsSome result ↔ HasGlyphSet hvar.now glyph }
    ensures outer { IfSome result (λ set. set.outer ≡ outer_index hvar.now glyph) }
    ensures inner { IfSome result (λ set. set.inner ≡ inner_index hvar.now glyph) }
{
    let (outer, inner) = (0, u32::from(glyph));
    if u32::read_at(hvar, 8)? == 0 {
        return Some(DeltaSetIndex { outer, inner });
    }
    read_delta_set_index(at_offset(hvar, 8)?, inner)
}

/// A table `HVAR` of major version 1.
///
/// ```
/// use font_variations_proved::{DeltaSetIndex, GlyphId16, Hvar};
/// // The header, and a store at byte 20, whose list of regions at byte 12 is empty. Without a map,
/// // the set of a glyph has its number.
/// let mut hvar = [0; 36];
/// hvar[..8].copy_from_slice(&[0, 1, 0, 0, 0, 0, 0, 20]);
/// hvar[20..32].copy_from_slice(&[0, 1, 0, 0, 0, 12, 0, 0, 0, 0, 0, 0]);
/// let hvar = Hvar::new(&hvar).unwrap();
/// assert_eq!(hvar.store().region_count(), 0);
/// let set = hvar.advance_set(GlyphId16::new(7));
/// assert_eq!(set, Some(DeltaSetIndex { outer: 0, inner: 7 }));
/// ```
#[derive(Clone, Copy, PartialEq, Eq, Hash, Debug)]
pub struct Hvar<'a> {
    bytes: &'a [u8],
    store: ItemVariationStore<'a>,
    ghost is_store: { store.bytes.now ≡ target_of bytes.now 4 },
}

impl<'a> Hvar<'a> {
    /// Returns the table that begins at these bytes, or `None` if its major version is not 1, it
    /// ends before its header does, or it has no item variation store of format 1.
    #[must_use]
    pub fn new(bytes: &'a [u8]) -> Option<Hvar<'a>>
        ensures variant { IsSome result ↔ IsHvar bytes.now }
        ensures bytes { IfSome result (λ hvar. hvar.bytes.now ≡ bytes.now) }
    {
        if u16::read_at(bytes, 0)? != 1 || bytes.len() < 20 {
            return None;
        }
        let store = ItemVariationStore::new(at_offset(bytes, 4)?)?;
        Some(Hvar { bytes, store })
    }

    /// Returns the item variation store.
    #[must_use]
    pub fn store(&self) -> ItemVariationStore<'a>
        ensures { result.bytes.now ≡ target_of self.now.bytes.now 4 }
    {
        self.store
    }

    /// Returns the delta set of a glyph's advance, which the store may not have, or `None` if the
    /// map of glyphs is not there or has no entry.
    #[must_use]
    #[inline]
    pub fn advance_set(&self, glyph: GlyphId16) -> Option<DeltaSetIndex>
        ensures variant { IsSome result ↔ HasGlyphSet self.now.bytes.now (glyph16_number glyph) }
        ensures outer { IfSome result (λ set.
            set.outer ≡ outer_index self.now.bytes.now (glyph16_number glyph)) }
        ensures inner { IfSome result (λ set.
            set.inner ≡ inner_index self.now.bytes.now (glyph16_number glyph)) }
    {
        glyph_set(self.bytes, glyph.to_u16())
    }
}
