//! Appends integers to the output.

ghost use Rattle.std.specs.Prelude.{◌≡◌, ◌++◌, Ok};
ghost use Rattle.std.specs.Fmt.{decimal, sign_text, signed_decimal};
ghost use Rattle.font_lines.specs.Error.{GivesAnswer};

use crate::error::CommandError;
use crate::output::{append, append_decimal};
use font_types::Shortest;
use std::alloc::Allocator;

/// Appends an integer: a number without fraction bits.
#[tactic(auto, using(crate::proofs::Integers::integers))]
pub fn append_integer<A: Allocator>(
    number: i64,
    output: &mut Vec<u8, A>,
) -> Result<(), CommandError>
    ensures { GivesAnswer (λ answer. answer ≡ Ok (signed_decimal number))
        output.old.items output.new.items result }
{
    append_decimal(Shortest::new(number, 0), output)
}

/// Appends an integer of this magnitude, with a `-` if it is negative.
#[tactic(auto, using(crate::proofs::Integers::integers))]
pub fn append_signed<A: Allocator>(
    negative: bool,
    magnitude: u64,
    output: &mut Vec<u8, A>,
) -> Result<(), CommandError>
    ensures { GivesAnswer (λ answer. answer ≡ Ok (sign_text negative ++ decimal magnitude))
        output.old.items output.new.items result }
{
    if negative {
        append(b"-", output)?;
    }
    if magnitude >= 10 {
        append_integer((magnitude / 10) as i64, output)?;
    }
    append(&[b'0' + (magnitude % 10) as u8], output)
}
