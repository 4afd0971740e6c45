//! Name ids of the `name` table.

ghost use Rattle.std.specs.Prelude.{◌≡◌, ◌+◌, ◌≤◌, ◌^◌, ◌++◌, ◌↔◌, pos, nat_lt, map, length, Some};
ghost use Rattle.std.specs.Prelude.{IsTrue, IsSome, IfSome, refl};
ghost use Rattle.std.specs.{Fmt.decimal, Fmt.WritesStyledOnOk};
ghost use lib.Chars.{codes};
ghost use Rattle.std.specs.Iterator.{YieldsFirst, UpTo, item_count};
ghost use Rattle.std.specs.Iterator.SizeHint.{IsWithinCount};
ghost use Rattle.font_base.specs.Bytes.{bytes_of, numeral};
ghost use Rattle.font_base.specs.Scalar.Laws.{unsigned_newtype, unsigned_identity};
ghost use Rattle.font_ids.specs.NameId.{name_number, name_id_of, name_text, predefined_numbers};
ghost use Rattle.font_ids.specs.NameId.{predefined_left, last_reserved, last_allowed};

use font_base::{FixedSize, IdentityEq, Scalar};
use font_decimal::Shortest;
use std::fmt;

/// The id of a string in the `name` table, such as the family name.
///
/// Ids up to 255 are reserved; the predefined ones have constants here. Ids from 256 to 32767 are
/// font-specific.
///
/// ```
/// use font_types::NameId;
/// assert_eq!(NameId::new(1), NameId::FAMILY_NAME);
/// assert!(NameId::FAMILY_NAME.is_reserved());
/// ```
#[derive(Clone, Copy, PartialEq, Eq, PartialOrd, Ord, Hash)]
pub struct NameId(u16);

impl NameId {
    /// Copyright notice.
    pub const COPYRIGHT_NOTICE: Self = Self(0);

    /// Font family name, shared by at most four fonts that differ only in weight or style.
    pub const FAMILY_NAME: Self = Self(1);

    /// Font subfamily name, which distinguishes the fonts of such a family.
    pub const SUBFAMILY_NAME: Self = Self(2);

    /// Unique font identifier.
    pub const UNIQUE_ID: Self = Self(3);

    /// Full font name.
    pub const FULL_NAME: Self = Self(4);

    /// Version string, such as `Version 1.000`.
    pub const VERSION_STRING: Self = Self(5);

    /// PostScript name.
    pub const POSTSCRIPT_NAME: Self = Self(6);

    /// Trademark.
    pub const TRADEMARK: Self = Self(7);

    /// Manufacturer.
    pub const MANUFACTURER: Self = Self(8);

    /// Designer of the typeface.
    pub const DESIGNER: Self = Self(9);

    /// Description of the typeface.
    pub const DESCRIPTION: Self = Self(10);

    /// URL of the vendor.
    pub const VENDOR_URL: Self = Self(11);

    /// URL of the designer.
    pub const DESIGNER_URL: Self = Self(12);

    /// License description.
    pub const LICENSE_DESCRIPTION: Self = Self(13);

    /// URL of the license.
    pub const LICENSE_URL: Self = Self(14);

    /// Typographic family name, shared by any number of fonts.
    pub const TYPOGRAPHIC_FAMILY_NAME: Self = Self(16);

    /// Typographic subfamily name.
    pub const TYPOGRAPHIC_SUBFAMILY_NAME: Self = Self(17);

    /// Compatible full name, for Macintosh menus.
    pub const COMPATIBLE_FULL_NAME: Self = Self(18);

    /// Sample text.
    pub const SAMPLE_TEXT: Self = Self(19);

    /// PostScript name of a CID-keyed font.
    pub const POSTSCRIPT_CID_NAME: Self = Self(20);

    /// Family name in the weight, width and slope model.
    pub const WWS_FAMILY_NAME: Self = Self(21);

    /// Subfamily name in the weight, width and slope model.
    pub const WWS_SUBFAMILY_NAME: Self = Self(22);

    /// Name of a palette for light backgrounds.
    pub const LIGHT_BACKGROUND_PALETTE: Self = Self(23);

    /// Name of a palette for dark backgrounds.
    pub const DARK_BACKGROUND_PALETTE: Self = Self(24);

    /// Prefix of the PostScript names of a variable font's instances.
    pub const VARIATIONS_POSTSCRIPT_NAME_PREFIX: Self = Self(25);

    /// The largest reserved id.
    pub const LAST_RESERVED_NAME_ID: Self = Self(255);

    /// The largest id that is allowed.
    pub const LAST_ALLOWED_NAME_ID: Self = Self(32767);

    /// Creates a name id.
    pub const fn new(raw: u16) -> Self
        ensures { name_number result ≡ raw }
    {
        Self(raw)
    }

    /// Returns an iterator over the predefined ids in order: 0 to 14 and 16 to 25.
    #[tactic(auto, unfolding(crate::specs::NameId::predefined_left))]
    pub const fn predefined() -> Predefined
        ensures ids { predefined_left result ≡ map name_id_of predefined_numbers }
        ensures count { length (predefined_left result) ≡ 25 }
    {
        Predefined { next: 0 }
    }

    /// Returns the number.
    pub const fn to_u16(self) -> u16
        ensures { result ≡ name_number self }
    {
        self.0
    }

    /// Returns `true` if the id is reserved, that is, at most 255.
    pub const fn is_reserved(self) -> bool
        ensures { IsTrue result ↔ (name_number self ≤ last_reserved) }
    {
        self.0 <= Self::LAST_RESERVED_NAME_ID.0
    }

    /// Returns `self + rhs`, or `None` if that exceeds `LAST_ALLOWED_NAME_ID`, even if `rhs` is 0.
    pub const fn checked_add(self, rhs: u16) -> Option<Self>
        ensures variant { IsSome result ↔ (name_number self + rhs ≤ last_allowed) }
        ensures value { IfSome result (λ id. name_number id ≡ name_number self + rhs) }
    {
        let sum = Self(self.0.saturating_add(rhs));
        if sum.0 > Self::LAST_ALLOWED_NAME_ID.0 {
            None
        } else {
            Some(sum)
        }
    }

    /// Returns the big-endian bytes.
    #[tactic(auto, using(font_base::proofs::StdBytes::std_bytes))]
    pub const fn to_be_bytes(self) -> [u8; 2]
        ensures { result ≡ bytes_of 2 (pos (name_number self)) }
    {
        self.0.to_be_bytes()
    }
}

/// 65535, which is not an id of a name.
impl Default for NameId {
    ghost is_default = { λ id. name_number id ≡ 65535 };

    fn default() -> NameId {
        NameId(0xFFFF)
    }
}

impl From<u16> for NameId {
    ghost from_gives = { λ number id. name_number id ≡ number };

    fn from(number: u16) -> NameId {
        NameId(number)
    }
}

impl From<NameId> for u16 {
    ghost from_gives = { λ id number. number ≡ name_number id };

    fn from(id: NameId) -> u16 {
        id.0
    }
}

/// Writes the name of the constant, or [`NameId`] and the number.
impl fmt::Display for NameId {
    ghost output = { λ id. Some (name_text (name_number id)) };

    ghost styled_output = { λ id _. Some (name_text (name_number id)) };

    fn fmt<W: fmt::Write>(&self, f: &mut fmt::Formatter<W>) -> fmt::Result {
        let name = match *self {
            Self::COPYRIGHT_NOTICE => "COPYRIGHT_NOTICE",
            Self::FAMILY_NAME => "FAMILY_NAME",
            Self::SUBFAMILY_NAME => "SUBFAMILY_NAME",
            Self::UNIQUE_ID => "UNIQUE_ID",
            Self::FULL_NAME => "FULL_NAME",
            Self::VERSION_STRING => "VERSION_STRING",
            Self::POSTSCRIPT_NAME => "POSTSCRIPT_NAME",
            Self::TRADEMARK => "TRADEMARK",
            Self::MANUFACTURER => "MANUFACTURER",
            Self::DESIGNER => "DESIGNER",
            Self::DESCRIPTION => "DESCRIPTION",
            Self::VENDOR_URL => "VENDOR_URL",
            Self::DESIGNER_URL => "DESIGNER_URL",
            Self::LICENSE_DESCRIPTION => "LICENSE_DESCRIPTION",
            Self::LICENSE_URL => "LICENSE_URL",
            Self::TYPOGRAPHIC_FAMILY_NAME => "TYPOGRAPHIC_FAMILY_NAME",
            Self::TYPOGRAPHIC_SUBFAMILY_NAME => "TYPOGRAPHIC_SUBFAMILY_NAME",
            Self::COMPATIBLE_FULL_NAME => "COMPATIBLE_FULL_NAME",
            Self::SAMPLE_TEXT => "SAMPLE_TEXT",
            Self::POSTSCRIPT_CID_NAME => "POSTSCRIPT_CID_NAME",
            Self::WWS_FAMILY_NAME => "WWS_FAMILY_NAME",
            Self::WWS_SUBFAMILY_NAME => "WWS_SUBFAMILY_NAME",
            Self::LIGHT_BACKGROUND_PALETTE => "LIGHT_BACKGROUND_PALETTE",
            Self::DARK_BACKGROUND_PALETTE => "DARK_BACKGROUND_PALETTE",
            Self::VARIATIONS_POSTSCRIPT_NAME_PREFIX => "VARIATIONS_POSTSCRIPT_NAME_PREFIX",
            _ => return write_number(f, self.0),
        };
        f.write_str(name)
    }
}

/// Writes the name of the constant, or [`NameId`] and the number.
impl fmt::Debug for NameId {
    ghost debug_output = { λ id. Some (name_text (name_number id)) };

    fn fmt<W: fmt::Write>(&self, f: &mut fmt::Formatter<W>) -> fmt::Result {
        fmt::Display::fmt(self, f)
    }
}

// Writes the text of an id that has no constant.
fn write_number<W: fmt::Write>(f: &mut fmt::Formatter<W>, number: u16) -> fmt::Result
    ensures { WritesStyledOnOk W.write_str_gives f.old result (codes "NameId " ++ decimal number) f.new }
{
    f.write_str("NameId ")?;
    f.write_str(Shortest::new(i64::from(number), 0).as_str())
}

impl FixedSize for NameId {
    const RAW_BYTE_LEN: usize = 2;

    ghost RAW_BYTE_LEN = { 2 };
}

impl Scalar for NameId {
    type Raw = [u8; 2];

    ghost is_scalar = { λ id. nat_lt (name_number id) (2 ^ 16) };

    ghost of_raw = { λ raw. name_id_of (numeral raw) };

    ghost raw_of = { λ id. bytes_of 2 (pos (name_number id)) };

    ghost laws = { unsigned_newtype 2 name_number name_id_of (λ _. refl) (λ _. refl) };

    fn from_raw(raw: [u8; 2]) -> NameId {
        NameId(u16::from_raw(raw))
    }

    fn to_raw(self) -> [u8; 2] {
        self.0.to_raw()
    }
}

impl IdentityEq for NameId {
    ghost identity = { unsigned_identity name_number name_id_of (λ _. refl) };
}

/// An iterator over the predefined ids, in order.
///
/// ```
/// use font_types::NameId;
/// assert_eq!(NameId::predefined().nth(1), Some(NameId::FAMILY_NAME));
/// ```
#[derive(Clone, Drop)]
pub struct Predefined {
    next: u16,
}

impl Iterator for Predefined {
    type Item = NameId;

    ghost next_gives = { YieldsFirst predefined_left };

    ghost remaining = { item_count predefined_left };

    #[tactic(auto, unfolding(crate::specs::NameId::predefined_left))]
    fn next(&mut self) -> Option<NameId> {
        let number = if self.next == 15 { 16 } else { self.next };
        if number > 25 {
            return None;
        }
        self.next = number + 1;
        Some(NameId(number))
    }

    #[tactic(auto, unfolding(crate::specs::NameId::predefined_left))]
    fn size_hint(&self) -> (usize, Option<usize>)
        ensures lower { IsWithinCount result.0 (item_count predefined_left self.now) }
        ensures upper { IfSome result.1 (UpTo (item_count predefined_left self.now)) }
        ensures exact { let left = length (predefined_left self.now) in result ≡ (left, Some left) }
    {
        let left = match self.next {
            0..=15 => 25 - self.next,
            16..=25 => 26 - self.next,
            _ => 0,
        };
        (left as usize, Some(left as usize))
    }
}
