//! Tags, as 32-bit numbers with their big-endian bytes.

ghost use Rattle.std.specs.Prelude.{◌≡◌, ◌≤◌, length};
ghost use Rattle.font_types.specs.Tag.{tag_text};
ghost use Rattle.font_c.specs.Tags.{ValidatesTag, StoresTag, number_bytes};
ghost use Rattle.font_c.specs.Texts.{WritesText};

use crate::format::put_text;
use crate::status::{OK, TAG_AFTER_SPACE, TAG_BYTE, TAG_LENGTH};
use crate::tag_text::TagText;
use font_types::{InvalidTag, Scalar, Tag};

/// Parses a valid tag of one to four bytes, padding with spaces.
#[unsafe(no_mangle)]
pub extern "C" fn fty_tag_parse(text: &[u8], tag: &mut u32) -> u32
    ensures { StoresTag text.now result tag.old tag.new }
{
    match Tag::new_checked(text) {
        Ok(good) => {
            *tag = u32::from_raw(good.to_be_bytes());
            OK
        }
        Err(InvalidTag::InvalidLength(_)) => TAG_LENGTH,
        Err(_) => TAG_BYTE,
    }
}

/// Checks a tag. If a byte is not allowed where it is, stores the index of the first in `index`.
#[unsafe(no_mangle)]
pub extern "C" fn fty_tag_validate(tag: u32, index: &mut usize) -> u32
    ensures { ValidatesTag (number_bytes tag) result index.old index.new }
{
    match Tag::from_be_bytes(tag.to_raw()).validate() {
        Ok(()) => OK,
        Err(InvalidTag::InvalidLength(_)) => TAG_LENGTH,
        Err(InvalidTag::InvalidByte { pos, .. }) => {
            *index = pos;
            TAG_BYTE
        }
        Err(InvalidTag::ByteAfterSpace { pos }) => {
            *index = pos;
            TAG_AFTER_SPACE
        }
    }
}

/// Writes the text of a tag to the start of `out`, and its length to `written`. Bytes from 0x20 to
/// 0x7E are written as they are, others as `{0xNN}`.
#[unsafe(no_mangle)]
pub extern "C" fn fty_abi_tag_format(tag: u32, out: &mut [u8], written: &mut usize) -> u32
    ensures text { WritesText (tag_text (number_bytes tag)) result written.old written.new out.old
        out.new }
    ensures enough { 24 ≤ length out.old → result ≡ 0 }
{
    let text = TagText::new(Tag::from_be_bytes(tag.to_raw()));
    put_text(text.as_bytes(), out, written)
}
