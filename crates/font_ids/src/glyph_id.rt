//! Glyph ids.

ghost use Rattle.std.specs.Prelude.{◌≡◌, ◌<◌, ◌≤◌, ◌^◌, ◌↔◌, pos, min, nat_lt, true, Some, IsTrue};
ghost use Rattle.std.specs.Prelude.{IsSome, IfSome, MatchResult, refl};
ghost use Rattle.std.specs.{Ordering.nat_cmp, Fmt.WritesStyledOnOk};
ghost use Rattle.font_base.specs.Uint24.{UINT24_MAX, uint24_of_bytes, bytes_of_uint24};
ghost use Rattle.font_base.specs.Uint24.Laws.{uint24_laws, uint24_identity};
ghost use Rattle.font_base.specs.Bytes.{bytes_of, numeral};
ghost use Rattle.font_base.specs.Scalar.Laws.{unsigned_newtype, unsigned_identity};
ghost use Rattle.font_ids.specs.Newtype.{newtype_laws, newtype_identity};
ghost use Rattle.font_ids.specs.GlyphId.{glyph16_number, glyph16_of, glyph24_number, glyph24_of};
ghost use Rattle.font_ids.specs.GlyphId.{glyph_number, refused_number, glyph_text};

use font_base::{FixedSize, IdentityEq, Scalar, Uint24};
use font_decimal::Shortest;
use std::cmp::Ordering;
use std::fmt;
use thiserror::Error;

/// A 16-bit glyph id.
///
/// ```
/// use font_types::{GlyphId, GlyphId16};
/// assert_eq!(GlyphId16::try_from(GlyphId::new(7)).unwrap(), GlyphId16::new(7));
/// ```
#[derive(Clone, Copy, Debug, Default, PartialEq, Eq, PartialOrd, Ord, Hash)]
pub struct GlyphId16(u16);

impl GlyphId16 {
    /// `.notdef`, glyph 0.
    pub const NOTDEF: Self = Self(0);

    /// Creates a glyph id.
    pub const fn new(raw: u16) -> Self
        ensures { glyph16_number result ≡ raw }
    {
        Self(raw)
    }

    /// Returns the number.
    pub const fn to_u16(self) -> u16
        ensures { result ≡ glyph16_number self }
    {
        self.0
    }

    /// Returns the number.
    pub const fn to_u32(self) -> u32
        ensures { result ≡ glyph16_number self }
    {
        self.0 as u32
    }

    /// Returns the number as an index.
    pub const fn to_usize(self) -> usize
        ensures { result ≡ glyph16_number self }
    {
        self.0 as usize
    }

    /// Returns the big-endian bytes.
    #[tactic(auto, using(font_base::proofs::StdBytes::std_bytes))]
    pub const fn to_be_bytes(self) -> [u8; 2]
        ensures { result ≡ bytes_of 2 (pos (glyph16_number self)) }
    {
        self.0.to_be_bytes()
    }
}

/// The named forms of `==` and `<` across types, which Rattle needs.
#[doc(hidden)]
impl GlyphId16 {
    /// Returns `true` if both are the same glyph, as `==` does.
    pub fn eq_gid(&self, other: &GlyphId) -> bool
        ensures { IsTrue result ↔ (glyph16_number self.now ≡ glyph_number other.now) }
    {
        GlyphId::from(*self) == *other
    }

    /// Compares the two numbers, as `<` and `>` do.
    pub fn cmp_gid(&self, other: &GlyphId) -> Ordering
        ensures { result ≡ nat_cmp (glyph16_number self.now) (glyph_number other.now) }
    {
        GlyphId::from(*self).cmp(other)
    }
}

// Writes a glyph id, whatever options the formatter has.
fn write_glyph<W: fmt::Write>(f: &mut fmt::Formatter<W>, number: u32) -> fmt::Result
    ensures { WritesStyledOnOk W.write_str_gives f.old result (glyph_text number) f.new }
{
    f.write_str("GID_")?;
    f.write_str(Shortest::new(i64::from(number), 0).as_str())
}

/// Writes `GID_` and the number.
impl fmt::Display for GlyphId16 {
    ghost output = { λ id. Some (glyph_text (glyph16_number id)) };

    ghost styled_output = { λ id _. Some (glyph_text (glyph16_number id)) };

    fn fmt<W: fmt::Write>(&self, f: &mut fmt::Formatter<W>) -> fmt::Result {
        write_glyph(f, self.to_u32())
    }
}

impl From<u16> for GlyphId16 {
    ghost from_gives = { λ number id. glyph16_number id ≡ number };

    fn from(number: u16) -> GlyphId16 {
        GlyphId16(number)
    }
}

impl From<GlyphId16> for u16 {
    ghost from_gives = { λ id number. number ≡ glyph16_number id };

    fn from(id: GlyphId16) -> u16 {
        id.0
    }
}

impl From<GlyphId16> for u32 {
    ghost from_gives = { λ id number. number ≡ glyph16_number id };

    fn from(id: GlyphId16) -> u32 {
        id.to_u32()
    }
}

impl From<GlyphId16> for usize {
    ghost from_gives = { λ id number. number ≡ glyph16_number id };

    fn from(id: GlyphId16) -> usize {
        usize::from(id.0)
    }
}

/// Fails if the number exceeds 65535.
impl TryFrom<GlyphId> for GlyphId16 {
    type Error = TryFromGlyphIdError;

    ghost try_from_gives = { λ id result. MatchResult result
        (λ narrow. glyph16_number narrow ≡ glyph_number id)
        (λ error. (2 ^ 16 ≤ glyph_number id) × (refused_number error ≡ glyph_number id)) };

    fn try_from(id: GlyphId) -> Result<GlyphId16, TryFromGlyphIdError> {
        match u16::try_from(id.0) {
            Ok(number) => Ok(GlyphId16(number)),
            Err(_) => Err(TryFromGlyphIdError(id.0)),
        }
    }
}

impl FixedSize for GlyphId16 {
    const RAW_BYTE_LEN: usize = 2;

    ghost RAW_BYTE_LEN = { 2 };
}

impl Scalar for GlyphId16 {
    type Raw = [u8; 2];

    ghost is_scalar = { λ id. nat_lt (glyph16_number id) (2 ^ 16) };

    ghost of_raw = { λ raw. glyph16_of (numeral raw) };

    ghost raw_of = { λ id. bytes_of 2 (pos (glyph16_number id)) };

    ghost laws = { unsigned_newtype 2 glyph16_number glyph16_of (λ _. refl) (λ _. refl) };

    fn from_raw(raw: [u8; 2]) -> GlyphId16 {
        GlyphId16(u16::from_raw(raw))
    }

    fn to_raw(self) -> [u8; 2] {
        self.0.to_raw()
    }
}

impl IdentityEq for GlyphId16 {
    ghost identity = { unsigned_identity glyph16_number glyph16_of (λ _. refl) };
}

/// A 24-bit glyph id.
///
/// ```
/// use font_types::GlyphId24;
/// assert_eq!(GlyphId24::checked_new(0x01_0000).unwrap().to_be_bytes(), [1, 0, 0]);
/// ```
#[derive(Clone, Copy, Debug, Default, PartialEq, Eq, PartialOrd, Ord, Hash)]
pub struct GlyphId24(Uint24);

impl GlyphId24 {
    /// `.notdef`, glyph 0.
    pub const NOTDEF: Self = Self(Uint24::MIN);

    /// Creates a glyph id, saturating at 16777215.
    pub const fn new(raw: u32) -> Self
        ensures { glyph24_number result ≡ min raw UINT24_MAX }
    {
        Self(Uint24::new(raw))
    }

    /// Creates a glyph id, or returns `None` if the number exceeds 16777215.
    pub const fn checked_new(raw: u32) -> Option<Self>
        ensures variant { IsSome result ↔ (raw ≤ UINT24_MAX) }
        ensures value { IfSome result (λ id. glyph24_number id ≡ raw) }
    {
        match Uint24::checked_new(raw) {
            Some(number) => Some(Self(number)),
            None => None,
        }
    }

    /// Returns the number.
    pub const fn to_u32(self) -> u32
        ensures { result ≡ glyph24_number self }
    {
        self.0.to_u32()
    }

    /// Returns the number as an index.
    pub const fn to_usize(self) -> usize
        ensures { result ≡ glyph24_number self }
    {
        self.to_u32() as usize
    }

    /// Returns the big-endian bytes.
    pub const fn to_be_bytes(self) -> [u8; 3]
        ensures { result ≡ bytes_of 3 (pos (glyph24_number self)) }
    {
        self.0.to_be_bytes()
    }

    /// Creates a glyph id from big-endian bytes.
    pub const fn from_be_bytes(bytes: [u8; 3]) -> Self
        ensures { bytes ≡ bytes_of 3 (pos (glyph24_number result)) }
    {
        Self(Uint24::from_be_bytes(bytes))
    }
}

/// Writes `GID_` and the number.
impl fmt::Display for GlyphId24 {
    ghost output = { λ id. Some (glyph_text (glyph24_number id)) };

    ghost styled_output = { λ id _. Some (glyph_text (glyph24_number id)) };

    fn fmt<W: fmt::Write>(&self, f: &mut fmt::Formatter<W>) -> fmt::Result {
        write_glyph(f, self.to_u32())
    }
}

impl From<GlyphId24> for u32 {
    ghost from_gives = { λ id number. number ≡ glyph24_number id };

    fn from(id: GlyphId24) -> u32 {
        id.to_u32()
    }
}

impl From<GlyphId24> for usize {
    ghost from_gives = { λ id number. number ≡ glyph24_number id };

    fn from(id: GlyphId24) -> usize {
        usize::from(id.0)
    }
}

/// Fails if the number exceeds 16777215.
impl TryFrom<GlyphId> for GlyphId24 {
    type Error = TryFromGlyphIdError;

    ghost try_from_gives = { λ id result. MatchResult result
        (λ narrow. glyph24_number narrow ≡ glyph_number id)
        (λ error. (2 ^ 24 ≤ glyph_number id) × (refused_number error ≡ glyph_number id)) };

    fn try_from(id: GlyphId) -> Result<GlyphId24, TryFromGlyphIdError> {
        match Uint24::checked_new(id.0) {
            Some(number) => Ok(GlyphId24(number)),
            None => Err(TryFromGlyphIdError(id.0)),
        }
    }
}

impl FixedSize for GlyphId24 {
    const RAW_BYTE_LEN: usize = 3;

    ghost RAW_BYTE_LEN = { 3 };
}

impl Scalar for GlyphId24 {
    type Raw = [u8; 3];

    ghost is_scalar = { λ _. true };

    ghost of_raw = { λ raw. glyph24_of (uint24_of_bytes raw) };

    ghost raw_of = { λ id. bytes_of_uint24 id.0 };

    ghost laws = { newtype_laws (λ id. id.0) glyph24_of (λ _. refl) (λ _. refl) uint24_laws };

    fn from_raw(raw: [u8; 3]) -> GlyphId24 {
        GlyphId24(Uint24::from_raw(raw))
    }

    fn to_raw(self) -> [u8; 3] {
        self.0.to_raw()
    }
}

impl IdentityEq for GlyphId24 {
    ghost identity = { newtype_identity (λ id. id.0) glyph24_of (λ _. refl) uint24_identity };
}

/// A 32-bit glyph id, to which 16-bit and 24-bit ids convert.
///
/// ```
/// use font_types::{GlyphId, GlyphId16};
/// assert_eq!(GlyphId::from(GlyphId16::new(7)).to_u32(), 7);
/// ```
#[derive(Clone, Copy, Debug, Default, PartialEq, Eq, PartialOrd, Ord, Hash)]
pub struct GlyphId(u32);

impl GlyphId {
    /// `.notdef`, glyph 0.
    pub const NOTDEF: Self = Self(0);

    /// Creates a glyph id.
    pub const fn new(raw: u32) -> Self
        ensures { glyph_number result ≡ raw }
    {
        Self(raw)
    }

    /// Returns the number.
    pub const fn to_u32(self) -> u32
        ensures { result ≡ glyph_number self }
    {
        self.0
    }

    /// Returns the number as an index.
    pub const fn to_usize(self) -> usize
        ensures { result ≡ glyph_number self }
    {
        self.0 as usize
    }
}

/// The named forms of `==` and `<` across types, which Rattle needs.
#[doc(hidden)]
impl GlyphId {
    /// Returns `true` if both are the same glyph, as `==` does.
    pub fn eq_gid16(&self, other: &GlyphId16) -> bool
        ensures { IsTrue result ↔ (glyph_number self.now ≡ glyph16_number other.now) }
    {
        *self == GlyphId::from(*other)
    }

    /// Compares the two numbers, as `<` and `>` do.
    pub fn cmp_gid16(&self, other: &GlyphId16) -> Ordering
        ensures { result ≡ nat_cmp (glyph_number self.now) (glyph16_number other.now) }
    {
        self.cmp(&GlyphId::from(*other))
    }
}

/// Writes `GID_` and the number.
impl fmt::Display for GlyphId {
    ghost output = { λ id. Some (glyph_text (glyph_number id)) };

    ghost styled_output = { λ id _. Some (glyph_text (glyph_number id)) };

    fn fmt<W: fmt::Write>(&self, f: &mut fmt::Formatter<W>) -> fmt::Result {
        write_glyph(f, self.to_u32())
    }
}

impl From<u16> for GlyphId {
    ghost from_gives = { λ number id. glyph_number id ≡ number };

    fn from(number: u16) -> GlyphId {
        GlyphId(u32::from(number))
    }
}

impl From<u32> for GlyphId {
    ghost from_gives = { λ number id. glyph_number id ≡ number };

    fn from(number: u32) -> GlyphId {
        GlyphId(number)
    }
}

impl From<GlyphId16> for GlyphId {
    ghost from_gives = { λ narrow id. glyph_number id ≡ glyph16_number narrow };

    fn from(narrow: GlyphId16) -> GlyphId {
        GlyphId(narrow.to_u32())
    }
}

impl From<GlyphId24> for GlyphId {
    ghost from_gives = { λ narrow id. glyph_number id ≡ glyph24_number narrow };

    fn from(narrow: GlyphId24) -> GlyphId {
        GlyphId(narrow.to_u32())
    }
}

impl From<GlyphId> for u32 {
    ghost from_gives = { λ id number. number ≡ glyph_number id };

    fn from(id: GlyphId) -> u32 {
        id.0
    }
}

/// The error of a conversion of a glyph id that is too large for the target type.
///
/// ```
/// use font_types::{GlyphId, GlyphId16};
/// let error = GlyphId16::try_from(GlyphId::new(65536)).unwrap_err();
/// assert_eq!(error.value(), 65536);
/// ```
#[derive(Debug, Drop, Error)]
#[error("glyph identifier {0} too large for conversion")]
pub struct TryFromGlyphIdError(u32);

impl TryFromGlyphIdError {
    /// Returns the number that was too large.
    pub const fn value(&self) -> u32
        ensures { result ≡ refused_number self.now }
    {
        self.0
    }
}
