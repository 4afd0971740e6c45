//! The lines of an input and the words of a line.

ghost use Rattle.std.specs.Prelude.{◌≡◌, length, not, position};
ghost use Rattle.std.specs.Iterator.{YieldsFirstRef, item_count};
ghost use Rattle.std.specs.List.{before_first, after_first};
ghost use Rattle.font_lines.specs.Text.{is_line_feed, lines_of, is_blank, words_of};

/// The lines of an input, first to last, each without its line feed. The last line may lack one.
#[derive(Drop)]
pub struct Lines<'a> {
    /// The input after the lines returned so far.
    pub rest: &'a [u8],
}

impl<'a> Lines<'a> {
    /// Creates an iterator over the lines of `input`.
    pub fn new(input: &'a [u8]) -> Self
        ensures { result.rest.now ≡ input.now }
    {
        Lines { rest: input }
    }
}

impl<'a> Iterator for Lines<'a> {
    type Item = &'a [u8];

    ghost next_gives = { YieldsFirstRef (λ lines. lines_of lines.rest.now) };

    ghost remaining = { item_count (λ lines. lines_of lines.rest.now) };

    #[tactic(auto, using(crate::proofs::Lines::line_steps))]
    fn next(&mut self) -> Option<&'a [u8]> {
        if self.rest.is_empty() {
            return None;
        }
        let (line, rest) = split_line(self.rest);
        self.rest = rest;
        Some(line)
    }
}

// Splits an input at its first line feed.
fn split_line(input: &[u8]) -> (&[u8], &[u8])
    ensures line { result.0.now ≡ before_first is_line_feed input.now }
    ensures rest { result.1.now ≡ after_first is_line_feed input.now }
{
    match line_feed_at(input) {
        Some(end) => (&input[..end], &input[end + 1..]),
        None => (input, &[]),
    }
}

// Returns the index of the first line feed.
fn line_feed_at(input: &[u8]) -> Option<usize>
    ensures { result ≡ position is_line_feed input.now }
{
    input.iter().position(|byte| *byte == b'\n')
}

/// The words of a line, first to last.
#[derive(Drop)]
pub struct Words<'a> {
    /// The line after the words returned so far.
    pub rest: &'a [u8],
}

impl<'a> Words<'a> {
    /// Creates an iterator over the words of `line`.
    pub fn new(line: &'a [u8]) -> Self
        ensures { result.rest.now ≡ line.now }
    {
        Words { rest: line }
    }

    /// Returns the number of words that are left.
    #[tactic(auto, using(crate::proofs::Lines::words_fit))]
    pub fn count_left(&self) -> usize
        ensures { result ≡ length (words_of self.now.rest.now) }
    {
        Words::new(self.rest).count()
    }
}

impl<'a> Iterator for Words<'a> {
    type Item = &'a [u8];

    ghost next_gives = { YieldsFirstRef (λ words. words_of words.rest.now) };

    ghost remaining = { item_count (λ words. words_of words.rest.now) };

    #[tactic(auto, using(crate::proofs::Lines::word_steps))]
    fn next(&mut self) -> Option<&'a [u8]> {
        let (_, text) = self.rest.split_at(word_at(self.rest)?);
        let (word, rest) = split_word(text);
        self.rest = rest;
        Some(word)
    }
}

// Returns the index of the first byte that is not blank.
fn word_at(text: &[u8]) -> Option<usize>
    ensures { result ≡ position (λ byte. not (is_blank byte)) text.now }
{
    text.iter().position(|byte| !is_blank(*byte))
}

// Splits a text at its first blank.
fn split_word(text: &[u8]) -> (&[u8], &[u8])
    ensures word { result.0.now ≡ before_first is_blank text.now }
    ensures rest { result.1.now ≡ after_first is_blank text.now }
{
    match blank_at(text) {
        Some(end) => (&text[..end], &text[end + 1..]),
        None => (text, &[]),
    }
}

// Returns the index of the first blank.
fn blank_at(text: &[u8]) -> Option<usize>
    ensures { result ≡ position is_blank text.now }
{
    text.iter().position(|byte| is_blank(*byte))
}

// Returns whether a byte separates words.
fn is_blank(byte: u8) -> bool
    ensures { result ≡ is_blank byte }
{
    matches!(byte, b' ' | b'\t' | b'\r')
}
