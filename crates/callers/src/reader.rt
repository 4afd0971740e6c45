//! A reader of tables: vertical origins, in `VORG`.
//!
//! This is a file of bytes, so it names `tables` in place of `calls`.
#![tactic(auto, using(font_types::proofs::Callers::tables))]

ghost use Rattle.std.specs.Prelude.{◌≡◌, ◌≢◌, ◌↔◌, ◌≤◌, ◌<◌, ◌+◌, ◌*◌, ◌^◌, ◌&&◌, ◌++◌, pos};
ghost use Rattle.std.specs.Prelude.{IsSome, IfSome, IfNone, MatchOption, Some, ℕ, length, take};
ghost use Rattle.std.specs.Prelude.{drop, true, refl, nat_lt, ◌+ℤ◌, ◌-ℤ◌, IsTrue, bit_and};
ghost use Rattle.std.specs.Ordering.{nat_cmp};
ghost use Rattle.std.proofs.Common.{lit<};
ghost use Rattle.font_types.specs.Bytes.{numeral, signed_numeral, bytes_of};
ghost use Rattle.font_types.specs.Scalar.Laws.{unsigned_newtype, signed_newtype, unsigned_laws};
ghost use Rattle.std.specs.List.{flat_map};
ghost use Rattle.font_types.specs.FWord.{fword_number, fword_of, ufword_number};
ghost use Rattle.font_types.specs.GlyphId.{glyph16_number, glyph16_of};
ghost use Rattle.font_types.specs.Array.{IsSearched, array_len, element_bytes};
ghost use Rattle.font_types.specs.{Records.record_laws, Wrap.fits_bits};
ghost use Rattle.font_types.specs.{Tag.tag_bytes, Fixed.fixed_bits, Uint24.Laws.uint24_laws};
ghost use Rattle.font_types.specs.Uint24.{uint24_number, uint24_of_bytes, bytes_of_uint24};
ghost use Rattle.callers.specs.Reader.{metrics_bytes, range_bytes, first_character, last_character};
ghost use Rattle.callers.specs.Reader.{AreInOrder, IsOutside, IsMapped};

use font_types::{
    BigEndian, FWord, Fixed, FixedSize, GlyphId16, LongDateTime, Offset16, OffsetValue, Scalar,
    ScalarArray, TableDataRef, TableHeader, Tag, UfWord, Uint24,
};

/// Reads bytes by offset and length: those of a table, or `None` if the font ends before them.
pub fn table_bytes(font: &[u8], offset: u32, len: u32) -> Option<&[u8]>
    ensures { MatchOption result (length font.now < offset + len)
        (λ table. (offset + len ≤ length font.now)
        × (table.now ≡ take len (drop offset font.now))) }
{
    let start = usize::try_from(offset).ok()?;
    let end = start.checked_add(usize::try_from(len).ok()?)?;
    font.get(start..end)
}

/// A header: two fields of the first 8 bytes of `VORG`.
#[derive(Drop)]
pub struct Origins {
    pub default: BigEndian<FWord>,
    pub count: BigEndian<u16>,
}

impl TableHeader for Origins {
    ghost use Rattle.callers.specs.Reader.{AreOrigins};

    const BYTE_LEN: usize = 8;

    ghost BYTE_LEN = { 8 };

    ghost decodes = { AreOrigins };

    fn decode(bytes: &[u8]) -> Origins {
        let default = BigEndian::read_at(bytes, 4).unwrap();
        let count = BigEndian::read_at(bytes, 6).unwrap();
        Origins { default, count }
    }
}

/// Reads a field of a header: the origin of glyphs without a record, or `None` for under 8 bytes.
pub fn default_origin(vorg: &[u8]) -> Option<FWord>
    ensures variant { IsSome result ↔ (8 ≤ length vorg.now) }
    ensures value { IfSome result (λ origin. fword_number origin
        ≡ signed_numeral 2 (take 2 (drop 4 (take 8 vorg.now)))) }
{
    Some(TableDataRef::<Origins>::new(vorg)?.header().default.get())
}

/// Reads fields and adds them: the height of a line, by `hhea`, or `None` for under 10 bytes.
pub fn line_height(hhea: &[u8]) -> Option<i32>
    ensures variant { IsSome result ↔ (10 ≤ length hhea.now) }
    ensures value { IfSome result (λ height. height
        ≡ (signed_numeral 2 (take 2 (drop 4 hhea.now))
        -ℤ signed_numeral 2 (take 2 (drop 6 hhea.now)))
        +ℤ signed_numeral 2 (take 2 (drop 8 hhea.now))) }
{
    let ascender = FWord::read_at(hhea, 4)?;
    let descender = FWord::read_at(hhea, 6)?;
    let gap = FWord::read_at(hhea, 8)?;
    Some(i32::from(ascender.to_i16()) - i32::from(descender.to_i16()) + i32::from(gap.to_i16()))
}

/// Reads a flag: whether a font is bold, by `macStyle` of `head`, or `None` for under 46 bytes.
///
/// A clause states a bit of a field by `bit_and`.
pub fn is_bold(head: &[u8]) -> Option<bool>
    ensures variant { IsSome result ↔ (46 ≤ length head.now) }
    ensures value { IfSome result (λ bold. IsTrue bold
        ↔ (bit_and (numeral (take 2 (drop 44 head.now))) 1 ≢ 0)) }
{
    Some(u16::read_at(head, 44)? & 1 != 0)
}

/// A record of two fields: the vertical origin of a glyph. By `record_laws` and the laws of its
/// fields it is a scalar, and so can be an element of an array. The laws of a newtype of one number
/// are `unsigned_newtype` or `signed_newtype` alone.
#[derive(Clone, Copy)]
pub struct GlyphOrigin {
    pub glyph: GlyphId16,
    pub origin: FWord,
}

impl FixedSize for GlyphOrigin {
    const RAW_BYTE_LEN: usize = 4;

    ghost RAW_BYTE_LEN = { 4 };
}

impl Scalar for GlyphOrigin {
    type Raw = [u8; 4];

    ghost is_scalar = { λ pair. nat_lt (glyph16_number pair.glyph) (2 ^ 16)
        && fits_bits 16 (fword_number pair.origin) };

    ghost of_raw = { λ raw. record {
      glyph = glyph16_of (numeral (take 2 raw));
      origin = fword_of (signed_numeral 2 (drop 2 raw));
    } };

    ghost raw_of = { λ pair. bytes_of 2 (pos (glyph16_number pair.glyph))
        ++ bytes_of 2 (fword_number pair.origin) };

    ghost laws = { record_laws 2 2 (λ pair. pair.glyph) (λ pair. pair.origin)
        (λ glyph origin. record { glyph = glyph; origin = origin })
        (λ _ _. refl) (λ _ _. refl) (λ _. refl)
        (unsigned_newtype 2 glyph16_number glyph16_of (λ _. refl) (λ _. refl))
        (signed_newtype 2 (lit< tt) fword_number fword_of (λ _. refl) (λ _. refl)) };

    fn from_raw(raw: [u8; 4]) -> GlyphOrigin {
        GlyphOrigin {
            glyph: GlyphId16::read(&raw[..2]).unwrap(),
            origin: FWord::read(&raw[2..]).unwrap(),
        }
    }

    fn to_raw(self) -> [u8; 4] {
        let [a, b] = self.glyph.to_raw();
        let [c, d] = self.origin.to_raw();
        [a, b, c, d]
    }
}

/// Searches records by a key: the index of a glyph's among records in order, or its place.
///
/// If a clause of a caller says where a record would be, it follows from `IsSearched` here.
pub fn origin_index(
    origins: &ScalarArray<'_, GlyphOrigin>,
    glyph: GlyphId16,
) -> Result<usize, usize>
    ensures { IsSearched origins.now
        (λ pair. nat_cmp (glyph16_number pair.glyph) (glyph16_number glyph)) result }
{
    origins.binary_search_by(|record| record.glyph.cmp(&glyph))
}

/// Reads the record that a search found: the vertical origin of a glyph, if it has a record.
///
/// In a function of its own: the search, so that `IsSearched` names the key of a record.
pub fn origin_of(origins: ScalarArray<'_, GlyphOrigin>, glyph: GlyphId16) -> Option<FWord>
    ensures { IfSome result (λ origin. (i : ℕ) × (i < array_len origins.entry)
        × (element_bytes origins.entry i
        ≡ bytes_of 2 (pos (glyph16_number glyph)) ++ bytes_of 2 (fword_number origin))) }
{
    let index = origin_index(&origins, glyph).ok()?;
    Some(origins.get(index)?.origin)
}

/// Searches records and reads the one found: the vertical origin of a glyph, or `None`.
///
/// The answers name the comparison of the search. If the records are sorted by their glyphs, `None`
/// says that none of them is of the glyph, by the lemma `no_record_has`. The lemma
/// `no_record_has_key` is for a key of bytes, such as a tag.
pub fn origin_or_none(origins: ScalarArray<'_, GlyphOrigin>, glyph: GlyphId16) -> Option<FWord>
    ensures found { IfSome result (λ origin. (i : ℕ) × (i < array_len origins.entry)
        × (element_bytes origins.entry i
        ≡ bytes_of 2 (pos (glyph16_number glyph)) ++ bytes_of 2 (fword_number origin))) }
    ensures absent { ((i j : ℕ) → i ≤ j → j < array_len origins.entry
        → numeral (take 2 (element_bytes origins.entry i))
        ≤ numeral (take 2 (element_bytes origins.entry j)))
        → IfNone result ((k : ℕ) → k < array_len origins.entry
        → numeral (take 2 (element_bytes origins.entry k)) ≢ glyph16_number glyph) }
{
    match origins.binary_search_by(|pair| pair.glyph.cmp(&glyph)) {
        Ok(index) => Some(origins.get(index)?.origin),
        Err(_) => None,
    }
}

/// Writes a record and reads it: itself, or `None` if the table ends before it.
pub fn written_origin(vorg: &mut [u8], at: usize, origin: GlyphOrigin) -> Option<GlyphOrigin>
    ensures variant { IsSome result ↔ (at + 4 ≤ length vorg.old) }
    ensures value { IfSome result (λ read. read ≡ origin) }
{
    origin.write_at(vorg, at)?;
    GlyphOrigin::read_at(vorg, at)
}

/// Reads a field of a record where it stands: the vertical origin at an index of `VORG`.
pub fn origin_at(vorg: &[u8], index: u16) -> Option<FWord>
    ensures variant { IsSome result ↔ (8 + index * 4 + 4 ≤ length vorg.now) }
    ensures value { IfSome result (λ origin. fword_number origin
        ≡ signed_numeral 2 (take 2 (drop (8 + index * 4 + 2) vorg.now))) }
{
    Some(GlyphOrigin::read_at(vorg, 8 + usize::from(index) * 4)?.origin)
}

/// A record of three fields: a group of `cmap`, with its first and last characters and the glyph of
/// the first. To `record_laws`, the last two fields are one, a pair, which has laws of its own.
#[derive(Clone, Copy)]
pub struct Group {
    pub first: u32,
    pub last: u32,
    pub glyph: u32,
}

impl FixedSize for Group {
    const RAW_BYTE_LEN: usize = 12;

    ghost RAW_BYTE_LEN = { 12 };
}

impl Scalar for Group {
    type Raw = [u8; 12];

    ghost is_scalar = { λ group. nat_lt group.first (2 ^ 32)
        && (nat_lt group.last (2 ^ 32) && nat_lt group.glyph (2 ^ 32)) };

    ghost of_raw = { λ raw. record {
      first = numeral (take 4 raw);
      last = numeral (take 4 (drop 4 raw));
      glyph = numeral (drop 4 (drop 4 raw));
    } };

    ghost raw_of = { λ group. bytes_of 4 (pos group.first)
        ++ (bytes_of 4 (pos group.last) ++ bytes_of 4 (pos group.glyph)) };

    ghost laws = { record_laws {B = ℕ × ℕ} 4 8 (λ group. group.first)
        (λ group. (group.last, group.glyph))
        (λ first rest. record { first = first; last = rest.0; glyph = rest.1 })
        (λ _ _. refl) (λ _ _. refl) (λ _. refl)
        (unsigned_laws 4)
        (record_laws 4 4 (λ rest. rest.0) (λ rest. rest.1) (λ last glyph. (last, glyph))
        (λ _ _. refl) (λ _ _. refl) (λ _. refl) (unsigned_laws 4) (unsigned_laws 4)) };

    fn from_raw(raw: [u8; 12]) -> Group {
        Group {
            first: u32::read(&raw[..4]).unwrap(),
            last: u32::read(&raw[4..8]).unwrap(),
            glyph: u32::read(&raw[8..]).unwrap(),
        }
    }

    fn to_raw(self) -> [u8; 12] {
        let [a, b, c, d] = self.first.to_raw();
        let [e, f, g, h] = self.last.to_raw();
        let [i, j, k, l] = self.glyph.to_raw();
        [a, b, c, d, e, f, g, h, i, j, k, l]
    }
}

/// Searches ranges by halves: the index of the group of a character, or `None`.
///
/// The loop's invariant says, of groups in order, that those before `low` end below the character
/// and that those from `high` on begin above it.
pub fn group_index(groups: &ScalarArray<'_, Group>, character: u32) -> Option<usize>
    ensures found { IfSome result (λ i. (i < array_len groups.now)
        × (first_character (element_bytes groups.now i) ≤ character)
        × (character ≤ last_character (element_bytes groups.now i))) }
    ensures none { AreInOrder (element_bytes groups.now) (array_len groups.now)
        → IfNone result ((k : ℕ) → k < array_len groups.now
        → IsOutside (element_bytes groups.now k) character) }
{
    let mut low = 0;
    let mut high = groups.len();
    while low < high {
        let middle = low + (high - low) / 2;
        let group = groups.get(middle)?;
        if group.last < character {
            low = middle + 1;
        } else if character < group.first {
            high = middle;
        } else {
            return Some(middle);
        }
    }
    None
}

/// Searches ranges and reads the one found: the glyph of a character, or `None`.
///
/// The field `index` of `IsMapped` is what `group_index` returns here. A function that has the index
/// as an argument does not prove this clause.
pub fn glyph_of(groups: &ScalarArray<'_, Group>, character: u32) -> Option<u32>
    ensures found { IfSome result (λ glyph.
        IsMapped (element_bytes groups.now) (array_len groups.now) character glyph) }
    ensures none { AreInOrder (element_bytes groups.now) (array_len groups.now)
        → IfNone result ((k : ℕ) → k < array_len groups.now
        → IsOutside (element_bytes groups.now k) character) }
{
    let index = group_index(groups, character)?;
    let group = groups.get(index)?;
    Some(group.glyph.wrapping_add(character - group.first))
}

/// Takes an array after its count: 32-bit numbers, or `None` if the list ends before they do.
pub fn counted_numbers(list: &[u8]) -> Option<ScalarArray<'_, u32>>
    ensures variant { IsSome result
        ↔ ((2 ≤ length list.now) × (2 + numeral (take 2 list.now) * 4 ≤ length list.now)) }
    ensures len { IfSome result (λ array. array_len array ≡ numeral (take 2 list.now)) }
    ensures elements { IfSome result (λ array. (i : ℕ) → i < numeral (take 2 list.now)
        → element_bytes array i ≡ take 4 (drop (2 + i * 4) list.now)) }
{
    let mut rest = list;
    let count = u16::take_from(&mut rest)?;
    ScalarArray::take_from(&mut rest, usize::from(count))
}

/// Takes an array after its count, from the rest of a slice: the glyphs of a coverage, in format 1.
///
/// `tables` has lemmas for a rest that begins at 1, 3, or an even number up to 16. A field
/// at `index * 6` in a rest needs no lemma. After `get`, write `?`, `match` or `if`, and not
/// `unwrap_or`.
pub fn covered_glyphs(coverage: &[u8]) -> Option<ScalarArray<'_, GlyphId16>>
    ensures variant { IsSome result ↔ ((4 ≤ length coverage.now)
        × (4 + numeral (take 2 (drop 2 coverage.now)) * 2 ≤ length coverage.now)) }
    ensures len { IfSome result (λ array.
        array_len array ≡ numeral (take 2 (drop 2 coverage.now))) }
    ensures elements { IfSome result (λ array. (i : ℕ) → i < numeral (take 2 (drop 2 coverage.now))
        → element_bytes array i ≡ take 2 (drop (4 + i * 2) coverage.now)) }
{
    let count = u16::read_at(coverage, 2)?;
    let mut rest = coverage.get(4..)?;
    ScalarArray::take_from(&mut rest, usize::from(count))
}

/// Reads a field of a table at an offset: the first glyph of the classes of `GDEF`, in format 1.
pub fn first_in_classes(gdef: &[u8]) -> Option<GlyphId16>
    ensures variant { IsSome result ↔ ((6 ≤ length gdef.now)
        × (numeral (take 2 (drop 4 gdef.now)) + 4 ≤ length gdef.now)) }
    ensures value { IfSome result (λ glyph. glyph16_number glyph
        ≡ numeral (take 2 (drop (numeral (take 2 (drop 4 gdef.now)) + 2) gdef.now))) }
{
    let offset = Offset16::read_at(gdef, 4)?;
    let classes = gdef.get(offset.to_usize()..)?;
    GlyphId16::read_at(classes, 2)
}

/// Reads a field of a table that `follow` returns: how many glyphs those classes are for.
pub fn count_in_classes(gdef: &[u8]) -> Option<u16>
    ensures { IfSome result (λ count. count
        ≡ numeral (take 2 (drop (numeral (take 2 (drop 4 gdef.now)) + 4) gdef.now))) }
{
    let classes = Offset16::read_at(gdef, 4)?.follow(gdef)?;
    u16::read_at(classes, 4)
}

/// A record with a 24-bit field: a character of `cmap`, and its glyph in a variation sequence. In
/// place of `uint24_laws`, `Int24.Laws` has `int24_laws`, and `Newtypes` has `offset24_laws` and
/// `glyph24_laws`.
#[derive(Clone, Copy)]
pub struct Variant {
    pub character: Uint24,
    pub glyph: GlyphId16,
}

impl FixedSize for Variant {
    const RAW_BYTE_LEN: usize = 5;

    ghost RAW_BYTE_LEN = { 5 };
}

impl Scalar for Variant {
    type Raw = [u8; 5];

    ghost is_scalar = { λ pair. true && nat_lt (glyph16_number pair.glyph) (2 ^ 16) };

    ghost of_raw = { λ raw. record {
      character = uint24_of_bytes (take 3 raw);
      glyph = glyph16_of (numeral (drop 3 raw));
    } };

    ghost raw_of = { λ pair. bytes_of_uint24 pair.character
        ++ bytes_of 2 (pos (glyph16_number pair.glyph)) };

    ghost laws = { record_laws 3 2 (λ pair. pair.character) (λ pair. pair.glyph)
        (λ character glyph. record { character = character; glyph = glyph })
        (λ _ _. refl) (λ _ _. refl) (λ _. refl)
        uint24_laws
        (unsigned_newtype 2 glyph16_number glyph16_of (λ _. refl) (λ _. refl)) };

    fn from_raw(raw: [u8; 5]) -> Variant {
        Variant {
            character: Uint24::read(&raw[..3]).unwrap(),
            glyph: GlyphId16::read(&raw[3..]).unwrap(),
        }
    }

    fn to_raw(self) -> [u8; 5] {
        let [a, b, c] = self.character.to_raw();
        let [d, e] = self.glyph.to_raw();
        [a, b, c, d, e]
    }
}

/// Writes a record and reads it, whose fields have other sizes: itself, or `None` without room.
pub fn written_variant(cmap: &mut [u8], at: usize, variant: Variant) -> Option<Variant>
    ensures variant { IsSome result ↔ (at + 5 ≤ length cmap.old) }
    ensures value { IfSome result (λ read. read ≡ variant) }
{
    variant.write_at(cmap, at)?;
    Variant::read_at(cmap, at)
}

/// Reads the number of a first field of 24 bits: a character of `cmap`, by `firsts_24` and then
/// `calls`. `tables` has `firsts_24` behind others.
#[tactic(auto, using(font_types::proofs::Callers::firsts_24, font_types::proofs::Callers::calls))]
pub fn character_at(cmap: &[u8], at: usize) -> Option<Uint24>
    ensures variant { IsSome result ↔ (at + 5 ≤ length cmap.now) }
    ensures value { IfSome result (λ character.
        uint24_number character ≡ numeral (take 3 (drop at cmap.now))) }
{
    Some(Variant::read_at(cmap, at)?.character)
}

/// Writes a field of 8 bytes and reads it: a date of `head`, or `None` without room.
pub fn written_date(head: &mut [u8], at: usize, date: LongDateTime) -> Option<LongDateTime>
    ensures variant { IsSome result ↔ (at + 8 ≤ length head.old) }
    ensures value { IfSome result (λ read. read ≡ date) }
{
    date.write_at(head, at)?;
    LongDateTime::read_at(head, at)
}

/// Writes a part of a table, at an offset: an advance width, and the offset after it.
///
/// The clause `after` is of each place from there on.
fn put_advance(hmtx: &mut [u8], at: usize, advance: UfWord) -> usize
    requires { at + 2 ≤ length hmtx.old }
    ensures offset { result ≡ at + 2 }
    ensures len { length hmtx.new ≡ length hmtx.old }
    ensures bytes { take result hmtx.new
        ≡ take at hmtx.old ++ bytes_of 2 (pos (ufword_number advance)) }
    ensures after { (m : ℕ) → at + 2 ≤ m → drop m hmtx.new ≡ drop m hmtx.old }
{
    let end = at + 2;
    hmtx[at..end].copy_from_slice(&advance.to_be_bytes());
    end
}

/// Writes the elements of a slice, one after another: advance widths, or `None` without room.
///
/// In a function of its own: the write of an element, which says what stays after it. Test the
/// length, and then write by `xs[i] = x` or `xs[a..b]`, and not by `get_mut`.
pub fn put_advances(hmtx: &mut [u8], advances: &[UfWord]) -> Option<usize>
    ensures variant { IsSome result ↔ (length advances.now * 2 ≤ length hmtx.old) }
    ensures len { IfSome result (λ n. n ≡ length advances.now * 2) }
    ensures bytes { IfSome result (λ n. take n hmtx.new
        ≡ flat_map (λ advance. bytes_of 2 (pos (ufword_number advance))) advances.now) }
    ensures after { IfSome result (λ n. drop n hmtx.new ≡ drop n hmtx.old) }
    ensures kept { IfNone result (hmtx.new ≡ hmtx.old) }
{
    let len = advances.len().checked_mul(2)?;
    if len > hmtx.len() {
        return None;
    }
    let mut at = 0;
    for advance in advances {
        at = put_advance(hmtx, at, *advance);
    }
    Some(len)
}

/// Three fields of `hhea`.
#[derive(Clone, Copy, PartialEq, Eq)]
pub struct LineMetrics {
    pub ascender: FWord,
    pub descender: FWord,
    pub gap: FWord,
}

/// Encodes fields: the bytes of each.
///
/// If more bytes than these stay open, write each field into a buffer, as `dumper::put` does.
pub fn encode_metrics(metrics: LineMetrics) -> [u8; 6]
    ensures { result ≡ metrics_bytes metrics }
{
    let [a, b] = metrics.ascender.to_be_bytes();
    let [c, d] = metrics.descender.to_be_bytes();
    let [e, f] = metrics.gap.to_be_bytes();
    [a, b, c, d, e, f]
}

/// Decodes fields: the number of each, or `None` for under 6 bytes.
pub fn decode_metrics(bytes: &[u8]) -> Option<LineMetrics>
    ensures variant { IsSome result ↔ (6 ≤ length bytes.now) }
    ensures ascender { IfSome result (λ metrics.
        fword_number metrics.ascender ≡ signed_numeral 2 (take 2 bytes.now)) }
    ensures descender { IfSome result (λ metrics.
        fword_number metrics.descender ≡ signed_numeral 2 (take 2 (drop 2 bytes.now))) }
    ensures gap { IfSome result (λ metrics.
        fword_number metrics.gap ≡ signed_numeral 2 (take 2 (drop 4 bytes.now))) }
{
    Some(LineMetrics {
        ascender: FWord::read_at(bytes, 0)?,
        descender: FWord::read_at(bytes, 2)?,
        gap: FWord::read_at(bytes, 4)?,
    })
}

/// Encodes fields and decodes them: themselves.
pub fn metrics_again(metrics: LineMetrics) -> Option<LineMetrics>
    ensures { result ≡ Some metrics }
{
    decode_metrics(&encode_metrics(metrics))
}

/// Four fields of 4 bytes: an axis of `fvar`, without its flags and its name.
#[derive(Clone, Copy, PartialEq, Eq)]
pub struct AxisRange {
    pub tag: Tag,
    pub min: Fixed,
    pub default: Fixed,
    pub max: Fixed,
}

/// Encodes four fields of 4 bytes: the bytes of each.
pub fn encode_range(axis: AxisRange) -> [u8; 16]
    ensures { result ≡ range_bytes axis }
{
    let [a, b, c, d] = axis.tag.to_raw();
    let [e, f, g, h] = axis.min.to_raw();
    let [i, j, k, l] = axis.default.to_raw();
    let [m, n, o, p] = axis.max.to_raw();
    [a, b, c, d, e, f, g, h, i, j, k, l, m, n, o, p]
}

/// Decodes four fields: the number of each, or `None` for under 16 bytes.
pub fn decode_range(bytes: &[u8]) -> Option<AxisRange>
    ensures variant { IsSome result ↔ (16 ≤ length bytes.now) }
    ensures tag { IfSome result (λ axis. tag_bytes axis.tag ≡ take 4 bytes.now) }
    ensures min { IfSome result (λ axis.
        fixed_bits axis.min ≡ signed_numeral 4 (take 4 (drop 4 bytes.now))) }
    ensures default { IfSome result (λ axis.
        fixed_bits axis.default ≡ signed_numeral 4 (take 4 (drop 8 bytes.now))) }
    ensures max { IfSome result (λ axis.
        fixed_bits axis.max ≡ signed_numeral 4 (take 4 (drop 12 bytes.now))) }
{
    Some(AxisRange {
        tag: Tag::read_at(bytes, 0)?,
        min: Fixed::read_at(bytes, 4)?,
        default: Fixed::read_at(bytes, 8)?,
        max: Fixed::read_at(bytes, 12)?,
    })
}

/// Encodes four fields of 4 bytes and decodes them: themselves.
pub fn range_again(axis: AxisRange) -> Option<AxisRange>
    ensures { result ≡ Some axis }
{
    decode_range(&encode_range(axis))
}
