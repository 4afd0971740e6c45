//! The answer about a tag.

ghost use Rattle.std.specs.Prelude.{◌≡◌, ◌<◌, ◌++◌, Ok, true};
ghost use Rattle.std.specs.Fmt.{digit_glyph};
ghost use Rattle.font_types.specs.Tag.{byte_text, tag_bytes, tag_text};
ghost use Rattle.font_lines.specs.{Command.ReportsTag, Command.validation_text, Error.GivesAnswer};

use crate::error::CommandError;
use crate::integer::append_signed;
use crate::output::append;
use font_types::{InvalidTag, Tag};
use std::alloc::Allocator;

/// Appends a tag and the result of its validation.
pub fn append_report<A: Allocator>(tag: Tag, output: &mut Vec<u8, A>) -> Result<(), CommandError>
    ensures { GivesAnswer (ReportsTag (tag_bytes tag)) output.old.items output.new.items result }
{
    append_tag(tag, output)?;
    append_validation(tag.validate(), output)
}

// Appends a tag.
fn append_tag<A: Allocator>(tag: Tag, output: &mut Vec<u8, A>) -> Result<(), CommandError>
    ensures { GivesAnswer (λ answer. answer ≡ Ok (tag_text (tag_bytes tag)))
        output.old.items output.new.items result }
{
    let [first, second, third, fourth] = tag.to_be_bytes();
    append_byte(first, output)?;
    append_byte(second, output)?;
    append_byte(third, output)?;
    append_byte(fourth, output)
}

// Appends a byte as in the text of a tag.
fn append_byte<A: Allocator>(byte: u8, output: &mut Vec<u8, A>) -> Result<(), CommandError>
    ensures { GivesAnswer (λ answer. answer ≡ Ok (byte_text byte))
        output.old.items output.new.items result }
{
    match byte {
        0x20..=0x7E => append(&[byte], output),
        _ => append(
            &[
                b'{',
                b'0',
                b'x',
                hexadecimal_digit(byte / 16),
                hexadecimal_digit(byte % 16),
                b'}',
            ],
            output,
        ),
    }
}

// Returns the hexadecimal digit of a number below 16.
fn hexadecimal_digit(n: u8) -> u8
    requires { n < 16 }
    ensures { result ≡ digit_glyph true n }
{
    if n < 10 { b'0' + n } else { b'A' + (n - 10) }
}

// Appends the result of a validation.
fn append_validation<A: Allocator>(
    validation: Result<(), InvalidTag>,
    output: &mut Vec<u8, A>,
) -> Result<(), CommandError>
    ensures { GivesAnswer (λ answer. answer ≡ Ok (validation_text validation))
        output.old.items output.new.items result }
{
    match validation {
        Ok(()) => append(b" valid", output),
        Err(InvalidTag::InvalidLength(_)) => append(b" length", output),
        Err(InvalidTag::InvalidByte { pos, .. }) => {
            append(b" byte ", output)?;
            append_signed(false, pos as u64, output)
        }
        Err(InvalidTag::ByteAfterSpace { pos }) => {
            append(b" space ", output)?;
            append_signed(false, pos as u64, output)
        }
    }
}
