//! The text of a tag, in a buffer of its own.

ghost use Rattle.std.specs.Prelude.{◌≡◌, ◌+◌, ◌<◌, ◌≤◌, ◌++◌, [], length, true};
ghost use Rattle.std.specs.Fmt.{digit_glyph};
ghost use Rattle.font_types.specs.Tag.{byte_text, tag_bytes, tag_text};

use font_types::Tag;

// A byte that is not printable takes six: `{0xFF}`.
const LEN: usize = 24;

/// The text of a tag, as far as it is made.
#[derive(Clone, Copy)]
pub struct TagText {
    bytes: [u8; LEN],
    len: usize,
    ghost within: { len ≤ 24 },
}

impl TagText {
    ghost use Rattle.font_c.specs.TagText.{made_text};

    /// The text of a tag.
    pub fn new(tag: Tag) -> Self
        ensures { made_text result ≡ tag_text (tag_bytes tag) }
    {
        let [first, second, third, fourth] = tag.to_be_bytes();
        let mut text = Self::empty();
        text.push(first);
        text.push(second);
        text.push(third);
        text.push(fourth);
        text
    }

    /// The text.
    pub fn as_bytes(&self) -> &[u8]
        ensures value { result.now ≡ made_text self.now }
    {
        &self.bytes[..self.len]
    }

    fn empty() -> Self
        ensures { made_text result ≡ [] }
    {
        Self {
            bytes: [0; LEN],
            len: 0,
        }
    }

    // Appends the text of a byte.
    fn push(&mut self, byte: u8)
        requires { length (made_text self.old) + 6 ≤ 24 }
        ensures text { made_text self.new ≡ made_text self.old ++ byte_text byte }
        ensures bound { length (made_text self.new) ≤ length (made_text self.old) + 6 }
    {
        match byte {
            0x20..=0x7E => self.put(&[byte]),
            _ => self.put(&[
                b'{',
                b'0',
                b'x',
                hexadecimal_digit(byte / 16),
                hexadecimal_digit(byte % 16),
                b'}',
            ]),
        }
    }

    // Appends bytes.
    fn put(&mut self, bytes: &[u8])
        requires { length (made_text self.old) + length bytes.now ≤ 24 }
        ensures { made_text self.new ≡ made_text self.old ++ bytes.now }
    {
        let end = self.len + bytes.len();
        self.bytes[self.len..end].copy_from_slice(bytes);
        self.len = end;
    }
}

// Returns the hexadecimal digit of a number below 16.
fn hexadecimal_digit(n: u8) -> u8
    requires { n < 16 }
    ensures { result ≡ digit_glyph true n }
{
    if n < 10 { b'0' + n } else { b'A' + (n - 10) }
}
