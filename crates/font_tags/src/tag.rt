//! Four-byte tags.

ghost use Rattle.std.specs.Prelude.{◌≡◌, ◌≢◌, ◌<◌, ◌≤◌, ◌++◌, ◌↔◌, ℕ, pos, Some, IsTrue, IsOk, ◌∷◌};
ghost use Rattle.std.specs.Prelude.{[], true, IfOk, MatchOption, slice_index, length, refl};
ghost use Rattle.std.specs.Cmp.Lexicographic.{slice_cmp, texts_po, on_texts, texts_ties};
ghost use Rattle.std.specs.{Cmp.on_po, Ordering.on, Ordering.nat_cmp, Fmt.WritesStyledOnOk};
ghost use Rattle.std.specs.{Fmt.digit_glyph};
ghost use lib.Chars.{codes};
ghost use Rattle.font_base.specs.Bytes.{are_bytes, bytes_of, numeral};
ghost use Rattle.font_tags.specs.Tag.{tag_bytes, tag_of, four_spaces, IsVisible, IsGood, IsFault};
ghost use Rattle.font_tags.specs.Tag.{IsAcceptable, IsChecked, IsValidated, byte_text, tag_text};

use font_base::{FixedSize, IdentityEq, Scalar};
use std::cmp::Ordering;
use std::fmt;
use std::str::FromStr;
use thiserror::Error;

/// The tag at the start of a font collection, `ttcf`.
pub const TTC_HEADER_TAG: Tag = Tag([0x74, 0x74, 0x63, 0x66]);

/// A four-byte identifier of a table, script, feature, axis and so on.
///
/// A valid tag is one to four printable ASCII characters, padded to four bytes with spaces. Fonts
/// may contain invalid ones, so a `Tag` can have any four bytes: [`Tag::new_checked`] accepts only
/// valid ones, and [`Tag::validate`] checks a tag.
///
/// ```
/// use font_types::{InvalidTag, Tag};
/// assert_eq!(Tag::new_checked(b"cvt").unwrap(), Tag::new(b"cvt "));
/// assert_eq!(Tag::new_checked(b"glyph"), Err(InvalidTag::InvalidLength(5)));
/// ```
#[derive(Clone, Copy, PartialEq, Eq, Hash)]
pub struct Tag([u8; 4]);

impl Tag {
    /// Creates a tag from four bytes, without validation.
    pub const fn new(src: &[u8; 4]) -> Self
        ensures { tag_bytes result ≡ src.now }
    {
        Self(*src)
    }

    /// Creates a valid tag from one to four bytes, padding with spaces.
    ///
    /// `Tag::new_checked(b"cv1")` is `cv1` followed by a space.
    ///
    /// # Errors
    ///
    /// Returns `InvalidLength` unless there are one to four bytes. Any other error is
    /// `InvalidByte` at the first byte that cannot be there: a space at the start, a byte that is
    /// not printable ASCII, or a printable byte after a space.
    #[tactic(auto, using(crate::proofs::Good::tag_judgements))]
    pub const fn new_checked(src: &[u8]) -> Result<Self, InvalidTag>
        ensures judged { IsChecked src.now result }
        ensures ok { IsOk result ↔ IsAcceptable src.now }
        ensures valid { IfOk result (λ tag. IsGood (tag_bytes tag)) }
    {
        let bytes = match *src {
            [a] => [a, b' ', b' ', b' '],
            [a, b] => [a, b, b' ', b' '],
            [a, b, c] => [a, b, c, b' '],
            [a, b, c, d] => [a, b, c, d],
            _ => return Err(InvalidTag::InvalidLength(src.len())),
        };
        if let Some(pos) = first_fault(src) {
            return Err(InvalidTag::InvalidByte {
                pos,
                byte: src[pos],
            });
        }
        Ok(Self(bytes))
    }

    /// Creates a tag from the big-endian bytes of a number.
    #[tactic(auto, using(font_base::proofs::StdBytes::std_bytes))]
    pub const fn from_u32(src: u32) -> Self
        ensures { tag_bytes result ≡ bytes_of 4 (pos src) }
    {
        Self(src.to_be_bytes())
    }

    /// Returns the number whose big-endian bytes are those of the tag.
    pub const fn to_u32(self) -> u32
        ensures { result ≡ numeral (tag_bytes self) }
    {
        u32::from_be_bytes(self.0)
    }

    /// Creates a tag from four bytes, without validation.
    pub const fn from_be_bytes(bytes: [u8; 4]) -> Self
        ensures { tag_bytes result ≡ bytes }
    {
        Self(bytes)
    }

    /// Returns the four bytes.
    pub const fn to_be_bytes(self) -> [u8; 4]
        ensures { result ≡ tag_bytes self }
    {
        self.0
    }

    /// Returns the four bytes.
    pub const fn into_bytes(self) -> [u8; 4]
        ensures { result ≡ tag_bytes self }
    {
        self.0
    }

    /// Returns the four bytes.
    pub const fn as_bytes(&self) -> &[u8; 4]
        ensures { result.now ≡ tag_bytes self.now }
    {
        &self.0
    }

    /// Checks that the tag is valid: printable characters, followed only by spaces.
    ///
    /// # Errors
    ///
    /// Returns `InvalidLength(0)` for four spaces. Otherwise the error is of the first byte that
    /// cannot be there: `ByteAfterSpace` for a printable byte after a space, and `InvalidByte` for
    /// a space at the start or a byte that is not printable ASCII.
    ///
    /// ```
    /// use font_types::{InvalidTag, Tag};
    /// assert_eq!(Tag::new(b"cvt ").validate(), Ok(()));
    /// let fault = InvalidTag::ByteAfterSpace { pos: 2 };
    /// assert_eq!(Tag::new(b"b cc").validate(), Err(fault));
    /// ```
    #[tactic(auto, using(crate::proofs::Good::tag_judgements))]
    pub fn validate(self) -> Result<(), InvalidTag>
        ensures judged { IsValidated (tag_bytes self) result }
        ensures ok { IsOk result ↔ IsGood (tag_bytes self) }
    {
        if self.eq_bytes(&[b' '; 4]) {
            return Err(InvalidTag::InvalidLength(0));
        }
        match first_fault(&self.0) {
            None => Ok(()),
            Some(pos) if self.0[pos].is_ascii_graphic() => Err(InvalidTag::ByteAfterSpace { pos }),
            Some(pos) => Err(InvalidTag::InvalidByte {
                pos,
                byte: self.0[pos],
            }),
        }
    }
}

/// The named forms of `==` across types, which Rattle needs.
#[doc(hidden)]
impl Tag {
    /// Returns `true` if the tag has these bytes, as `==` does.
    pub fn eq_bytes(&self, other: &[u8; 4]) -> bool
        ensures { IsTrue result ↔ (tag_bytes self.now ≡ other.now) }
    {
        self.0 == *other
    }

    /// Returns `true` if the tag has the bytes of this string, as `==` does.
    pub fn eq_str(&self, other: &str) -> bool
        ensures { IsTrue result ↔ (tag_bytes self.now ≡ other.now) }
    {
        self.eq_slice(other.as_bytes())
    }

    /// Returns `true` if the tag has the bytes of this slice, as `==` does.
    pub fn eq_slice(&self, other: &[u8]) -> bool
        ensures { IsTrue result ↔ (tag_bytes self.now ≡ other.now) }
    {
        self.0.as_slice() == other
    }
}

// Returns the index of the first invalid byte, or `None` if all are valid.
const fn first_fault(bytes: &[u8]) -> Option<usize>
    requires { 0 < length bytes.now }
    ensures { MatchOption result (IsGood bytes.now) (λ index. IsFault bytes.now index) }
{
    let run = visible_run(bytes);
    if run == 0 {
        return Some(0);
    }
    let pos = after_spaces(bytes, run);
    if pos < bytes.len() { Some(pos) } else { None }
}

// Returns the number of leading printable bytes other than spaces.
const fn visible_run(bytes: &[u8]) -> usize
    ensures within { result ≤ length bytes.now }
    ensures visible { (i : ℕ) → i < result → IsVisible (slice_index bytes.now i) }
    ensures end { result < length bytes.now → ¬ IsVisible (slice_index bytes.now result) }
{
    let mut run = 0;
    while run < bytes.len() && bytes[run].is_ascii_graphic() {
        run += 1;
    }
    run
}

// Returns the index after the spaces that start at `from`.
const fn after_spaces(bytes: &[u8], from: usize) -> usize
    requires { from ≤ length bytes.now }
    ensures within { (from ≤ result) × (result ≤ length bytes.now) }
    ensures spaces { (i : ℕ) → from ≤ i → i < result → slice_index bytes.now i ≡ 32 }
    ensures end { result < length bytes.now → slice_index bytes.now result ≢ 32 }
{
    let mut pos = from;
    while pos < bytes.len() && bytes[pos] == b' ' {
        pos += 1;
    }
    pos
}

/// Why a tag is invalid.
///
/// ```
/// use font_types::{InvalidTag, Tag};
/// let tag = Tag::new_checked(b"a\tb");
/// assert_eq!(tag, Err(InvalidTag::InvalidByte { pos: 1, byte: b'\t' }));
/// assert_eq!(tag.unwrap_err().to_string(), "Invalid byte 0x9 at index 1");
/// assert_eq!(Tag::new(b"a b ").validate(), Err(InvalidTag::ByteAfterSpace { pos: 2 }));
/// ```
#[derive(Clone, Debug, PartialEq, Eq, Drop, Error)]
pub enum InvalidTag {
    /// There are not one to four bytes; a tag of four spaces has length 0.
    #[error("Invalid length ({0})")]
    InvalidLength(usize),
    /// The byte at `pos` is not allowed there.
    #[error("Invalid byte 0x{byte:X} at index {pos}")]
    InvalidByte {
        /// The index of the byte.
        pos: usize,
        /// The byte.
        byte: u8,
    },
    /// The byte at `pos` is printable, but follows a space.
    #[error("Non-space character after first space")]
    ByteAfterSpace {
        /// The index of the byte.
        pos: usize,
    },
}

impl PartialOrd for Tag {
    ghost partial_cmp = { λ a b. Some (slice_cmp nat_cmp (tag_bytes a) (tag_bytes b)) };

    ghost laws = { on_po tag_bytes texts_po };

    fn partial_cmp(&self, other: &Tag) -> Option<Ordering> {
        Some(self.cmp(other))
    }
}

impl Ord for Tag {
    ghost cmp = { on tag_bytes (slice_cmp nat_cmp) };

    ghost total = { on_texts tag_bytes };

    ghost matches_partial_cmp = { λ a b. refl };

    ghost matches_eq = { λ a b. texts_ties (tag_bytes a) (tag_bytes b) };

    fn cmp(&self, other: &Tag) -> Ordering {
        self.0.cmp(&other.0)
    }
}

/// Parses as `new_checked` does, of the bytes of the text.
impl FromStr for Tag {
    type Err = InvalidTag;

    ghost from_str_gives = { IsChecked };

    fn from_str(src: &str) -> Result<Self, InvalidTag> {
        Tag::new_checked(src.as_bytes())
    }
}

/// Four spaces.
impl Default for Tag {
    ghost is_default = { λ tag. tag_bytes tag ≡ four_spaces };

    fn default() -> Tag {
        Tag([b' '; 4])
    }
}

/// Writes the bytes from 0x20 to 0x7E as they are, and any other in braces, such as `{0x1F}`.
impl fmt::Display for Tag {
    ghost output = { λ tag. Some (tag_text (tag_bytes tag)) };

    ghost styled_output = { λ tag _. Some (tag_text (tag_bytes tag)) };

    #[tactic(auto, using(crate::proofs::TagText::styled_steps))]
    fn fmt<W: fmt::Write>(&self, f: &mut fmt::Formatter<W>) -> fmt::Result {
        for byte in &self.0 {
            write_byte(f, *byte)?;
        }
        Ok(())
    }
}

// Writes a byte as in the text of a tag.
#[tactic(auto, using(crate::proofs::TagText::styled_steps))]
fn write_byte<W: fmt::Write>(f: &mut fmt::Formatter<W>, byte: u8) -> fmt::Result
    ensures { WritesStyledOnOk W.write_str_gives f.old result (byte_text byte) f.new }
{
    match byte {
        0x20..=0x7E => write_ascii(f, byte),
        _ => {
            f.write_str("{0x")?;
            write_ascii(f, hexadecimal_digit(byte / 16))?;
            write_ascii(f, hexadecimal_digit(byte % 16))?;
            f.write_str("}")
        }
    }
}

// Writes an ASCII character.
fn write_ascii<W: fmt::Write>(f: &mut fmt::Formatter<W>, byte: u8) -> fmt::Result
    requires { byte < 128 }
    ensures { WritesStyledOnOk W.write_str_gives f.old result (byte ∷ []) f.new }
{
    f.write_str(char::from(byte).encode_utf8(&mut [0; 4]))
}

// Returns the hexadecimal digit of a number below 16.
fn hexadecimal_digit(n: u8) -> u8
    requires { n < 16 }
    ensures digit { result ≡ digit_glyph true n }
    ensures ascii { result < 128 }
{
    if n < 10 { b'0' + n } else { b'A' + (n - 10) }
}

impl fmt::Debug for Tag {
    ghost debug_output = { λ tag. Some (codes "Tag(" ++ tag_text (tag_bytes tag) ++ codes ")") };

    fn fmt<W: fmt::Write>(&self, f: &mut fmt::Formatter<W>) -> fmt::Result {
        write!(f, "Tag({self})")
    }
}

impl FixedSize for Tag {
    const RAW_BYTE_LEN: usize = 4;

    ghost RAW_BYTE_LEN = { 4 };
}

impl Scalar for Tag {
    type Raw = [u8; 4];

    ghost is_scalar = { λ tag. are_bytes 4 (tag_bytes tag) };

    ghost of_raw = { tag_of };

    ghost raw_of = { tag_bytes };

    ghost laws = { record {
      of_raw_value = λ _ value. value;
      raw_of_value = λ _ value. value;
      back = λ _ _. refl;
      forth = λ _ _. refl;
      lengths_agree = refl;
    } };

    fn from_raw(raw: [u8; 4]) -> Tag {
        Tag(raw)
    }

    fn to_raw(self) -> [u8; 4] {
        let _bytes = font_base::BeByteArray::as_slice(&self.0);
        self.0
    }
}

impl IdentityEq for Tag {
    ghost use Rattle.font_tags.specs.Tag.Laws.{tag_identity};

    ghost identity = { tag_identity };
}
