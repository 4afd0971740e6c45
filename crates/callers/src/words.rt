//! Lines of several words: numbers with single spaces, printed and parsed.

ghost use Rattle.std.specs.Prelude.{◌≡◌, ◌↔◌, ◌≤◌, ◌+◌, ◌++◌, length, take, FitsSigned};
ghost use Rattle.std.specs.Prelude.{Some, IsSome, IfSome, IsOk, MatchOption, List, ℕ};
ghost use Rattle.std.specs.Int.{w32};
ghost use lib.Chars.{codes};
ghost use Rattle.font_types.specs.{Fixed.fixed_text, Fixed.fixed_bits, Operations.ReadsBits};
ghost use Rattle.font_types.specs.Fixed.{Fixed};
ghost use Rattle.callers.specs.declared.words.Range.{Range};
ghost use Rattle.callers.specs.Words.{HasNoSpace, IsWordEnd, IsNumber, IsRange, range_text};
ghost use Rattle.callers.specs.Words.{AreRead, AreNumbersOf, space_at, AreParts, ParsesNumber};
ghost use Rattle.callers.specs.Words.{ParsesPair};

use crate::dumper::put;
use font_types::{DecimalFault, Fixed};
use thiserror::Error;

// ---- three numbers

/// Three numbers of an axis.
#[derive(Clone, Copy, PartialEq, Eq)]
pub struct Range {
    pub min: Fixed,
    pub default: Fixed,
    pub max: Fixed,
}

/// Writes several numbers into a buffer: three, with single spaces; the length.
///
/// The buffer has 22 bytes for each number, because the contract of `as_str` says that a decimal
/// has at most 22.
pub fn put_range(out: &mut [u8; 68], range: Range) -> usize
    ensures bytes { take result out.new ≡ fixed_text range.min ++ codes " "
        ++ fixed_text range.default ++ codes " " ++ fixed_text range.max }
    ensures room { result ≤ 68 }
{
    let end = put(out, 0, range.min.to_decimal().as_str().as_bytes());
    let end = put(out, end, b" ");
    let end = put(out, end, range.default.to_decimal().as_str().as_bytes());
    let end = put(out, end, b" ");
    put(out, end, range.max.to_decimal().as_str().as_bytes())
}

// Shows that no space is in the text of a number.
fn show_no_space(number: Fixed)
    ensures { HasNoSpace (fixed_text number) }
{
    let _text = number.to_decimal();
}

// Finds the first space, or the end.
fn word_end(text: &[u8]) -> usize
    ensures { IsWordEnd text.now result }
{
    for (index, byte) in text.iter().enumerate() {
        if *byte == b' ' {
            return index;
        }
    }
    text.len()
}

/// Splits a text at its first space: a word and the rest.
pub fn split_word(text: &[u8]) -> Option<(&[u8], &[u8])>
    ensures parts { IfSome result (λ parts.
        text.now ≡ parts.0.now ++ (codes " " ++ parts.1.now)) }
    ensures no_space { IfSome result (λ parts. HasNoSpace parts.0.now) }
    ensures word { (word rest : List ℕ) → HasNoSpace word → text.now ≡ word ++ (codes " " ++ rest)
        → IsSome result × IfSome result (λ parts. (parts.0.now ≡ word) × (parts.1.now ≡ rest)) }
{
    let end = word_end(text);
    if end < text.len() {
        Some((&text[..end], &text[end + 1..]))
    } else {
        None
    }
}

/// Parses a word: a number, or `None` if it is none.
///
/// The clause `variant` says which texts are refused, by a record that has the number.
pub fn parsed_word(word: &[u8]) -> Option<Fixed>
    ensures variant { IsSome result ↔ IsNumber word.now }
    ensures reads { IfSome result (λ x. ReadsBits 32 16 word.now (fixed_bits x)) }
    ensures printed { (x : Fixed) → FitsSigned w32 (fixed_bits x)
        → word.now ≡ fixed_text x → result ≡ Some x }
{
    Fixed::from_decimal_bytes(word).ok()
}

// Parses three words: three numbers.
fn parsed_words(min: &[u8], default: &[u8], max: &[u8]) -> Option<Range>
    ensures variant { IsSome result
        ↔ (IsNumber min.now × (IsNumber default.now × IsNumber max.now)) }
    ensures reads { IfSome result (λ range. AreRead min.now default.now max.now range) }
    ensures printed { (range : Range) → FitsSigned w32 (fixed_bits range.min)
        → FitsSigned w32 (fixed_bits range.default) → FitsSigned w32 (fixed_bits range.max)
        → min.now ≡ fixed_text range.min → default.now ≡ fixed_text range.default
        → max.now ≡ fixed_text range.max → result ≡ Some range }
{
    let min = parsed_word(min)?;
    let default = parsed_word(default)?;
    let max = parsed_word(max)?;
    Some(Range { min, default, max })
}

/// Parses several numbers with single spaces: three, or `None` if a text is not that.
///
/// In functions of their own: the split at a space, and the parsing of the words. Copy
/// `split_word`, what it calls, and `proofs/Spaces.antt`. `variant` says which texts are refused,
/// `parts` what is read, and `printed` that each printed line is.
pub fn parsed_range(text: &[u8]) -> Option<Range>
    ensures variant { IsSome result ↔ IsRange text.now }
    ensures parts { IfSome result (λ range. AreNumbersOf text.now range) }
    ensures printed { (range : Range) → FitsSigned w32 (fixed_bits range.min)
        → FitsSigned w32 (fixed_bits range.default) → FitsSigned w32 (fixed_bits range.max)
        → HasNoSpace (fixed_text range.min) → HasNoSpace (fixed_text range.default)
        → text.now ≡ range_text range → result ≡ Some range }
{
    let (min, rest) = split_word(text)?;
    let (default, max) = split_word(rest)?;
    parsed_words(min, default, max)
}

/// Writes numbers and parses them: themselves.
pub fn range_again(range: Range) -> Option<Range>
    ensures { result ≡ Some range }
{
    let mut out = [0; 68];
    let end = put_range(&mut out, range);
    show_no_space(range.min);
    show_no_space(range.default);
    parsed_range(&out[..end])
}

// ---- two numbers, with errors

/// Why a text is not two numbers.
#[derive(Debug, PartialEq, Eq, Drop, Error)]
pub enum PairFault {
    /// It has no space.
    #[error("no second number")]
    NoSecond,
    /// The part before the first space is not a number.
    #[error("first number: {0}")]
    First(DecimalFault),
    /// The part after that space is not a number.
    #[error("second number: {0}")]
    Second(DecimalFault),
}

/// Parses parts with errors that name the part: two numbers.
///
/// `ParsesNumber` is a record of the library under a name of its own, and `unfoldable`. With
/// `ParsesFixedPoint` in its place, the clause stays open. For a line of more parts, nest the
/// errors: in a function that parses a tag and then a pair, one variant has a `PairFault`.
pub fn parsed_pair(text: &str) -> Result<(Fixed, Fixed), PairFault>
    ensures { ParsesPair text.now result }
{
    let (first, second) = split_pair(text).ok_or(PairFault::NoSecond)?;
    let first = parsed_number(first).map_err(PairFault::First)?;
    let second = parsed_number(second).map_err(PairFault::Second)?;
    Ok((first, second))
}

// Splits a text at its first space.
#[tactic(auto, using(std::proofs::lemmas::Str::Pattern::split_once_first))]
fn split_pair(text: &str) -> Option<(&str, &str)>
    ensures { MatchOption result (space_at text.now ≡ length text.now)
        (λ parts. AreParts text.now parts.0.now parts.1.now) }
{
    text.split_once(' ')
}

// Parses a number.
#[tactic(auto, unfolding(crate::specs::Words::ParsesNumber))]
fn parsed_number(text: &str) -> Result<Fixed, DecimalFault>
    ensures parsed { ParsesNumber text.now result }
    ensures variant { IsOk result ↔ IsNumber text.now }
{
    Fixed::from_decimal(text)
}
