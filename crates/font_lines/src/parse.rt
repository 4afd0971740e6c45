//! Reads the words of a command.

ghost use Rattle.std.specs.Prelude.{◌≡◌, Ok, Err, MatchResult};
ghost use Rattle.font_lines.specs.Command.{only_bytes, only_word, two_words};
ghost use Rattle.font_lines.specs.Text.{words_of};

use crate::error::LineError;
use crate::text::Words;

// Returns the word of a command that takes one.
fn only_word(mut words: Words<'_>) -> Result<&[u8], LineError>
    ensures { MatchResult result
        (λ word. only_word (words_of words.entry.rest.now) ≡ Ok word.now)
        (λ error. only_word (words_of words.entry.rest.now) ≡ Err error) }
{
    match (words.next(), words.next()) {
        (Some(word), None) => Ok(word),
        _ => Err(LineError::WordCount),
    }
}

/// Returns the words of a command that takes two.
pub fn two_words(mut words: Words<'_>) -> Result<(&[u8], &[u8]), LineError>
    ensures { MatchResult result
        (λ pair. two_words (words_of words.entry.rest.now) ≡ Ok (pair.0.now, pair.1.now))
        (λ error. two_words (words_of words.entry.rest.now) ≡ Err error) }
{
    match (words.next(), words.next(), words.next()) {
        (Some(first), Some(second), None) => Ok((first, second)),
        _ => Err(LineError::WordCount),
    }
}

/// Returns the bytes of the only word, of hexadecimal digits of either case.
pub fn hexadecimal<const N: usize>(words: Words<'_>) -> Result<[u8; N], LineError>
    ensures { result ≡ only_bytes N (words_of words.entry.rest.now) }
{
    let word = only_word(words)?;
    let mut bytes = [0; N];
    hex::decode_to_slice(word, &mut bytes).map_err(|_| LineError::NotHexadecimal)?;
    Ok(bytes)
}
