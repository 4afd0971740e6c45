//! Maps from indices to delta sets.

ghost use Rattle.std.specs.Prelude.{◌≡◌, ◌↔◌, ◌<◌, ◌≤◌, ◌+◌, ◌/◌, ◌%◌, ◌^◌, IsTrue, IsSome, IfSome};
ghost use Rattle.std.specs.Prelude.{length, take, drop};
ghost use Rattle.font_types.specs.Bytes.{numeral};
ghost use Rattle.variations.specs.Variations.{HasEntry, entry_of, IsNoVariation, inner_bits};
ghost use Rattle.variations.specs.Variations.{map_format};

use font_types::{Scalar, Uint24};

/// The indices of a delta set: of a subtable, and in it.
///
/// ```
/// use font_variations_proved::DeltaSetIndex;
/// assert_eq!(DeltaSetIndex::from_u32(0x1_0002), DeltaSetIndex { outer: 1, inner: 2 });
/// ```
#[derive(Clone, Copy, PartialEq, Eq, Hash, Debug)]
pub struct DeltaSetIndex {
    /// The index of the subtable in the store.
    pub outer: u32,
    /// The index of the set in the subtable.
    pub inner: u32,
}

impl DeltaSetIndex {
    /// The indices of an item without variation data.
    pub const NO_VARIATION: DeltaSetIndex = DeltaSetIndex {
        outer: 0xFFFF,
        inner: 0xFFFF,
    };

    /// Returns the indices that 32 bits hold, the outer one in the high half, as in `COLR`, `MVAR`
    /// and a `VariationIndex` table.
    ///
    /// Of `0xFFFF_FFFF` both are `0xFFFF`, those of an item without variation data. Test for it
    /// before you add to a base of indices or look up its index in a map.
    #[must_use]
    pub fn from_u32(index: u32) -> DeltaSetIndex
        ensures outer { result.outer ≡ index / 2 ^ 16 }
        ensures inner { result.inner ≡ index % 2 ^ 16 }
        ensures unvaried { IsNoVariation result.outer result.inner ↔ index ≡ 0xFFFF_FFFF }
    {
        split_entry(index, 16)
    }

    /// Returns whether the indices are those of an item without variation data.
    #[must_use]
    pub fn is_no_variation(&self) -> bool
        ensures { IsTrue result ↔ IsNoVariation self.now.outer self.now.inner }
    {
        self.outer == 0xFFFF && self.inner == 0xFFFF
    }
}

/// A map from indices to delta sets, such as those of `HVAR`, `VVAR` and `COLR`.
///
/// ```
/// use font_variations_proved::{DeltaSetIndex, DeltaSetIndexMap};
/// // Two entries of two bytes, which have the inner index in the low eight bits.
/// let map = DeltaSetIndexMap::new(&[0, 0x17, 0, 2, 0, 1, 3, 5]).unwrap();
/// assert_eq!(map.get(0), Some(DeltaSetIndex { outer: 0, inner: 1 }));
/// assert_eq!(map.get(9), Some(DeltaSetIndex { outer: 3, inner: 5 }));
/// ```
#[derive(Clone, Copy, PartialEq, Eq, Hash, Debug)]
pub struct DeltaSetIndexMap<'a> {
    bytes: &'a [u8],
}

impl<'a> DeltaSetIndexMap<'a> {
    /// Returns the map that begins at these bytes, or `None` if its format is neither 0 nor 1.
    #[must_use]
    pub fn new(bytes: &'a [u8]) -> Option<DeltaSetIndexMap<'a>>
        ensures variant { IsSome result ↔ ((0 < length bytes.now) × (map_format bytes.now ≤ 1)) }
        ensures bytes { IfSome result (λ map. map.bytes.now ≡ bytes.now) }
    {
        if u8::read_at(bytes, 0)? > 1 {
            return None;
        }
        Some(DeltaSetIndexMap { bytes })
    }

    /// Returns the delta set of an index; the last entry is that of all later indices. Returns
    /// `None` if the map has no entries, or ends before the entry does.
    #[must_use]
    pub fn get(&self, index: u32) -> Option<DeltaSetIndex>
        ensures variant { IsSome result ↔ HasEntry self.now.bytes.now index }
        ensures outer { IfSome result (λ set. set.outer
            ≡ entry_of self.now.bytes.now index / 2 ^ inner_bits self.now.bytes.now) }
        ensures inner { IfSome result (λ set. set.inner
            ≡ entry_of self.now.bytes.now index % 2 ^ inner_bits self.now.bytes.now) }
    {
        read_delta_set_index(self.bytes, index)
    }
}

// The parts of a map's entry format.
const INNER_INDEX_BIT_COUNT_MASK: u8 = 0x0F;

const MAP_ENTRY_SIZE_MASK: u8 = 0x30;

// Reads the delta set of an index by a map of format 0 or 1; the last entry is that of all later
// indices. Returns `None` for another format or a map of no entries, or if the map ends before the
// entry does.
#[inline]
pub(crate) fn read_delta_set_index(map: &[u8], index: u32) -> Option<DeltaSetIndex>
    ensures variant { IsSome result ↔ HasEntry map.now index }
    ensures outer { IfSome result (λ set.
        set.outer ≡ entry_of map.now index / 2 ^ inner_bits map.now) }
    ensures inner { IfSome result (λ set.
        set.inner ≡ entry_of map.now index % 2 ^ inner_bits map.now) }
{
    let (count, start) = match u8::read_at(map, 0)? {
        0 => (u32::from(u16::read_at(map, 2)?), 4),
        1 => (u32::read_at(map, 2)?, 6),
        _ => return None,
    };
    let format = u8::read_at(map, 1)?;
    let width = entry_size(format);
    let place = index.min(count.checked_sub(1)?);
    let offset = start + width as u64 * u64::from(place);
    let entry = read_entry(map, usize::try_from(offset).ok()?, width)?;
    Some(split_entry(entry, bit_count(format)))
}

// Returns the size of an entry, by the entry format.
fn entry_size(format: u8) -> usize
    ensures { result ≡ format / 16 % 4 + 1 }
{
    usize::from((format & MAP_ENTRY_SIZE_MASK) >> 4) + 1
}

// Returns the number of bits of the inner index, by the entry format.
fn bit_count(format: u8) -> u32
    ensures { result ≡ format % 16 + 1 }
{
    u32::from(format & INNER_INDEX_BIT_COUNT_MASK) + 1
}

// Reads an unsigned integer of one to four bytes.
#[inline]
fn read_entry(map: &[u8], offset: usize, width: usize) -> Option<u32>
    requires { (0 < width) × (width ≤ 4) }
    ensures variant { IsSome result ↔ (offset + width ≤ length map.now) }
    ensures value { IfSome result (λ entry.
        entry ≡ numeral (take width (drop offset map.now))) }
{
    match width {
        1 => Some(u32::from(u8::read_at(map, offset)?)),
        2 => Some(u32::from(u16::read_at(map, offset)?)),
        3 => Some(Uint24::read_at(map, offset)?.to_u32()),
        _ => u32::read_at(map, offset),
    }
}

// Splits an entry: the inner index is its low bits.
fn split_entry(entry: u32, bits: u32) -> DeltaSetIndex
    requires { bits ≤ 16 }
    ensures outer { result.outer ≡ entry / 2 ^ bits }
    ensures inner { result.inner ≡ entry % 2 ^ bits }
{
    DeltaSetIndex {
        outer: entry >> bits,
        inner: entry & ((1 << bits) - 1),
    }
}
