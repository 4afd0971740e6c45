//! The parts of a decimal.

ghost use Rattle.std.specs.Prelude.{◌≡◌, ◌≢◌, ℕ, false, List, ◌∷◌, ◌++◌, MatchOption};
ghost use Rattle.std.specs.{Fmt.sign_text, Char.is_ascii_digit, List.list_all};
ghost use Rattle.font_decimal.specs.Grammar.{fraction_text};

// Splits off a leading `-`.
pub const fn split_sign(text: &[u8]) -> (bool, &[u8])
    ensures minus { text.now ≡ sign_text result.0 ++ result.1.now }
    ensures plain { result.0 ≡ false → (rest : List ℕ) → text.now ≢ 45 ∷ rest }
{
    match text {
        [b'-', rest @ ..] => (true, rest),
        _ => (false, text),
    }
}

// Returns the fraction, without its point: empty, or one byte or more after a point.
pub fn after_point(text: &[u8]) -> Option<&[u8]>
    ensures { MatchOption result ((fraction : List ℕ) → text.now ≢ fraction_text fraction)
        (λ fraction. text.now ≡ fraction_text fraction.now) }
{
    match text {
        [] => Some(text),
        [b'.', fraction @ ..] if !fraction.is_empty() => Some(fraction),
        _ => None,
    }
}

// With an early exit: vectors would be half of the code of parsing, and take registers to save.
pub const fn are_digits(text: &[u8]) -> bool
    ensures { result ≡ list_all is_ascii_digit text.now }
{
    let mut place = 0;
    while place < text.len() {
        if !text[place].is_ascii_digit() {
            return false;
        }
        place += 1;
    }
    true
}
