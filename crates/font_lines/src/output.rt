//! Appends answers to the output.

ghost use Rattle.std.specs.Prelude.{◌≡◌, ◌≤◌, Ok, length};
ghost use Rattle.hex.specs.Hex.{encode_lower};
ghost use Rattle.font_types.specs.Shown.{shown};
ghost use Rattle.font_lines.specs.{Command.ShowsBytes, Error.GivesAnswer};

use crate::error::{CommandError, LineError};
use font_types::{DecimalFault, Scalar, Shortest};
use std::alloc::Allocator;

/// Appends bytes.
#[inline(always)]
pub fn append<A: Allocator>(bytes: &[u8], output: &mut Vec<u8, A>) -> Result<(), CommandError>
    ensures { GivesAnswer (λ answer. answer ≡ Ok bytes.now)
        output.old.items output.new.items result }
{
    output.extend_from_slice(bytes)?;
    Ok(())
}

/// Appends a decimal.
pub fn append_decimal<A: Allocator>(
    decimal: Shortest,
    output: &mut Vec<u8, A>,
) -> Result<(), CommandError>
    ensures { GivesAnswer (λ answer. answer ≡ Ok (shown decimal))
        output.old.items output.new.items result }
{
    append(decimal.as_str().as_bytes(), output)
}

/// Appends the bytes of a number that was read, or returns why it was not.
pub fn append_read<T: Scalar<Raw = [u8; N]> + Drop, const N: usize, A: Allocator>(
    number: Result<T, DecimalFault>,
    output: &mut Vec<u8, A>,
) -> Result<(), CommandError>
    requires room { N ≤ 8 }
    ensures { GivesAnswer (ShowsBytes T.raw_of number)
        output.old.items output.new.items result }
{
    let number = number.map_err(LineError::from)?;
    append_bytes(number.to_raw().as_slice(), output)
}

// Appends at most eight bytes in lower-case hexadecimal digits.
fn append_bytes<A: Allocator>(bytes: &[u8], output: &mut Vec<u8, A>) -> Result<(), CommandError>
    requires few { length bytes.now ≤ 8 }
    ensures { GivesAnswer (λ answer. answer ≡ Ok (encode_lower bytes.now))
        output.old.items output.new.items result }
{
    let mut room = [0; 16];
    let digits = &mut room[..2 * bytes.len()];
    hex::encode_to_slice(bytes, digits).unwrap();
    append(digits, output)
}
