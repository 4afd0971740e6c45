//! Delta sets of item variation data: their rows, and the deltas of their columns.

ghost use Rattle.std.specs.Prelude.{◌≡◌, ◌↔◌, ◌⊎◌, ◌<◌, ◌≤◌, ◌+◌, ◌^◌, unsigned_abs};
ghost use Rattle.std.specs.Prelude.{IsSome, IfSome, length, take, drop};
ghost use Rattle.font_types.specs.Bytes.{signed_numeral};
ghost use Rattle.variations.specs.Variations.{narrow_width, delta_width, delta_place, HasDelta};
ghost use Rattle.variations.specs.Variations.{HasRow, row_bytes, column_place, word_delta_count};
ghost use Rattle.variations.specs.Variations.{region_index_count, region_index, delta_of};

use font_types::Scalar;

// The layout of a set is that of `delta_set.rt` of font_c too. DECISIONS says why it is there twice.

// The parts of `wordDeltaCount`.
const LONG_WORDS: u16 = 0x8000;

const WORD_DELTA_COUNT_MASK: u16 = 0x7FFF;

// Returns the size of a narrow delta, by the count of wide columns.
fn narrow_width_of(words: u16) -> usize
    ensures value { result ≡ narrow_width words }
    ensures small { result ≤ 2 }
{
    if words & LONG_WORDS != 0 { 2 } else { 1 }
}

// Returns the offset of the row of a set, which a `usize` of 32 bits may not hold.
fn offset_of(words: u16, count: u16, set: u16) -> u64
    ensures value { result ≡ delta_place words count set 0 }
    ensures small { result < 2 ^ 40 }
{
    let row = u64::from(count) + u64::from(words & WORD_DELTA_COUNT_MASK);
    6 + 2 * u64::from(count) + narrow_width_of(words) as u64 * (u64::from(set) * row)
}

// Reads the delta of a column from the row of a set, by the count of wide columns.
fn delta_in(row: &[u8], words: u16, column: u16) -> Option<i32>
    ensures variant { IsSome result
        ↔ (column_place words column + delta_width words column ≤ length row.now) }
    ensures value { IfSome result (λ delta. delta ≡ signed_numeral (delta_width words column)
        (take (delta_width words column) (drop (column_place words column) row.now))) }
    ensures size { IfSome result (λ delta. unsigned_abs delta ≤ 2 ^ 31) }
{
    let (wide, at) = (
        usize::from(words & WORD_DELTA_COUNT_MASK),
        usize::from(column),
    );
    let narrow = narrow_width_of(words);
    if at < wide {
        read_signed(row, 2 * narrow * at, 2 * narrow)
    } else {
        read_signed(row, narrow * (at + wide), narrow)
    }
}

// Reads a signed integer of one, two or four bytes.
fn read_signed(bytes: &[u8], offset: usize, width: usize) -> Option<i32>
    requires { (width ≡ 1) ⊎ ((width ≡ 2) ⊎ (width ≡ 4)) }
    ensures variant { IsSome result ↔ (offset + width ≤ length bytes.now) }
    ensures value { IfSome result (λ number.
        number ≡ signed_numeral width (take width (drop offset bytes.now))) }
    ensures size { IfSome result (λ number. unsigned_abs number ≤ 2 ^ 31) }
{
    match width {
        1 => Some(i32::from(i8::read_at(bytes, offset)?)),
        2 => Some(i32::from(i16::read_at(bytes, offset)?)),
        _ => i32::read_at(bytes, offset),
    }
}

// The row of a delta set: the bytes from its first delta on. `_set` is for the contracts.
#[derive(Clone, Copy)]
pub(crate) struct Row<'a> {
    subtable: &'a [u8],
    _set: u16,
    words: u16,
    bytes: &'a [u8],
    ghost there: { HasRow subtable.now _set },
    ghost is_count: { words ≡ word_delta_count subtable.now },
    ghost are_bytes: { bytes.now ≡ row_bytes subtable.now _set },
}

impl<'a> Row<'a> {
    // Finds the row of a set in a subtable.
    #[inline]
    pub(crate) fn new(subtable: &'a [u8], set: u16) -> Option<Row<'a>>
        ensures variant { IsSome result ↔ HasRow subtable.now set }
        ensures subtable { IfSome result (λ row. row.subtable.now ≡ subtable.now) }
        ensures set { IfSome result (λ row. row._set ≡ set) }
    {
        let (words, count) = (u16::read_at(subtable, 2)?, u16::read_at(subtable, 4)?);
        if set >= u16::read_at(subtable, 0)? || words & WORD_DELTA_COUNT_MASK > count {
            return None;
        }
        let bytes = subtable.get(usize::try_from(offset_of(words, count, set)).ok()?..)?;
        Some(Row {
            subtable,
            _set: set,
            words,
            bytes,
        })
    }

    // Reads the region and the delta of a column.
    #[tactic(auto, using(font_types::proofs::Callers::calls, crate::proofs::Stores::row_rules))]
    #[inline]
    pub(crate) fn column(&self, column: u16) -> Option<(u16, i32)>
        requires { column < region_index_count self.now.subtable.now }
        ensures variant { IsSome result ↔ HasDelta self.now.subtable.now self.now._set column }
        ensures region { IfSome result (λ read.
            read.0 ≡ region_index self.now.subtable.now column) }
        ensures delta { IfSome result (λ read.
            read.1 ≡ delta_of self.now.subtable.now self.now._set column) }
        ensures size { IfSome result (λ read. unsigned_abs read.1 ≤ 2 ^ 31) }
    {
        let region = u16::read_at(self.subtable, 6 + 2 * usize::from(column))?;
        Some((region, delta_in(self.bytes, self.words, column)?))
    }
}
