//! Reads the words of a line as numbers.

ghost use Rattle.std.specs.Prelude.{◌≡◌, ◌%◌, ◌^◌, ◌==◌, if◌then◌else◌, Ok, Err, length, min, pos};
ghost use Rattle.std.specs.Prelude.{MatchOption, MatchResult};
ghost use Rattle.std.specs.Str.Parse.{IsNumeral, digits_value, starts_with_minus};
ghost use Rattle.font_lines.specs.Numbers.{ScansFixed, ScansInteger, ScansTerm, CollectsFixed};
ghost use Rattle.font_lines.specs.Numbers.{CollectsTerms, after_minus};
ghost use Rattle.font_lines.specs.{Error.OnLineError, Text.words_of};

use crate::error::{CommandError, LineError};
use crate::text::Words;
use font_types::Fixed;
use std::alloc::Allocator;

// The capacity of a new list of terms.
const INITIAL_TERMS: usize = 16;

/// Reads exactly `N` words as numbers.
///
/// A wrong number of words is reported before a wrong word: after one, the others are counted.
#[tactic(auto, using(crate::proofs::WordByWord::number_steps))]
pub fn fixed_numbers<const N: usize>(mut words: Words<'_>) -> Result<[Fixed; N], LineError>
    ensures { CollectsFixed N (words_of words.entry.rest.now) result }
{
    let mut numbers = [Fixed::ZERO; N];
    let mut at = 0;
    while let Some(word) = words.next() {
        if at == N {
            return Err(LineError::WordCount);
        }
        match fixed_number(word) {
            Ok(number) => numbers[at] = number,
            Err(error) => return Err(error_if(words.count_left() == N - at - 1, error)),
        }
        at += 1;
    }
    if at == N {
        Ok(numbers)
    } else {
        Err(LineError::WordCount)
    }
}

/// Returns the error of a word, or that of a wrong number of words.
pub fn error_if(counted: bool, error: LineError) -> LineError
    ensures { result ≡ if counted then error else LineError.WordCount }
{
    if counted { error } else { LineError::WordCount }
}

// Reads a word as a `Fixed`.
fn fixed_number(word: &[u8]) -> Result<Fixed, LineError>
    ensures { ScansFixed word.now result }
{
    Ok(Fixed::from_decimal_bytes(word)?)
}

/// Reads words as terms, two by two: a scalar, and a delta in font units.
///
/// The words are counted as in `fixed_numbers`.
#[tactic(auto, using(crate::proofs::WordByWord::term_steps))]
pub fn terms<A: Allocator>(
    alloc: A,
    mut words: Words<'_>,
) -> Result<Vec<(Fixed, i32), A>, CommandError>
    ensures { MatchResult result
        (λ terms. CollectsTerms (words_of words.entry.rest.now) (Ok terms.items))
        (λ reason. OnLineError reason
        (λ error. CollectsTerms (words_of words.entry.rest.now) (Err error))) }
{
    let mut terms = Vec::with_capacity(alloc, INITIAL_TERMS)?;
    while let Some(scalar) = words.next() {
        let delta = words.next().ok_or(LineError::WordCount)?;
        match term(scalar, delta) {
            Ok(term) => terms.extend_from_slice(&[term])?,
            Err(error) => return Err(error_if_even(&words, error).into()),
        }
    }
    Ok(terms)
}

/// Returns the error of a word, or that of a wrong number of words if an odd number is left.
pub fn error_if_even(words: &Words<'_>, error: LineError) -> LineError
    ensures { result
        ≡ if length (words_of words.now.rest.now) % 2 == 0 then error else LineError.WordCount }
{
    error_if(words.count_left().is_multiple_of(2), error)
}

// Reads two words as a term.
fn term(scalar: &[u8], delta: &[u8]) -> Result<(Fixed, i32), LineError>
    ensures { ScansTerm (scalar.now, delta.now) result }
{
    Ok((fixed_number(scalar)?, integer_32(delta)?))
}

/// Reads a word as an `i32`.
pub fn integer_32(word: &[u8]) -> Result<i32, LineError>
    ensures { ScansInteger 32 word.now result }
{
    let (negative, digits) = split_minus(word);
    let magnitude = magnitude_of_digits(digits).ok_or(LineError::NotInteger)?;
    let number = if negative { -magnitude } else { magnitude };
    i32::try_from(number).map_err(|_| LineError::OutOfRange)
}

/// Reads a word as an `i16`.
pub fn integer_16(word: &[u8]) -> Result<i16, LineError>
    ensures { ScansInteger 16 word.now result }
{
    i16::try_from(integer_32(word)?).map_err(|_| LineError::OutOfRange)
}

// Splits off a leading `-`.
fn split_minus(word: &[u8]) -> (bool, &[u8])
    ensures minus { result.0 ≡ starts_with_minus word.now }
    ensures rest { result.1.now ≡ after_minus word.now }
{
    match word {
        [b'-', rest @ ..] => (true, rest),
        _ => (false, word),
    }
}

// Returns the number of one or more digits, or 2^40 if it is greater.
fn magnitude_of_digits(digits: &[u8]) -> Option<i64>
    ensures { MatchOption result
        (¬ (IsNumeral 10 digits.now))
        (λ n. IsNumeral 10 digits.now × (n ≡ pos (min (digits_value 10 digits.now) (2 ^ 40)))) }
{
    if digits.is_empty() {
        return None;
    }
    let mut number = 0u64;
    for digit in digits {
        if !digit.is_ascii_digit() {
            return None;
        }
        number = (number * 10 + u64::from(*digit - b'0')).min(1 << 40);
    }
    Some(number as i64)
}
