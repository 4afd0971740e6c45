//! The shortest decimal of a fixed-point number.
#![tactic(auto, using(crate::proofs::Buffer::buffers))]

ghost use Rattle.std.specs.Prelude.{◌≡◌, ◌+◌, ◌-◌, ◌/◌, ◌%◌, ◌≤◌, ◌<◌, ◌∷◌, ◌++◌, length, take};
ghost use Rattle.std.specs.Prelude.{drop, Some};
ghost use Rattle.std.specs.{Str.IsAscii, Fmt.decimal, Fmt.sign_text};
ghost use Rattle.font_decimal.specs.declared.shortest.TheConstants.{LEN};
ghost use Rattle.font_decimal.specs.Shortest.{fewest_places, nearest_numeral, last_digits};

use std::fmt;

const LEN: usize = 31;
// The index of the point: a sign and an integer have at most 20 bytes, a point and a fraction 11.
const POINT: usize = 20;

/// The shortest decimal of a fixed-point number, of at most 22 bytes, in a buffer.
///
/// ```
/// use font_types::Shortest;
/// assert_eq!(Shortest::new(9830, 14).as_str(), "0.6");
/// ```
#[derive(Clone, Copy)]
pub struct Shortest {
    bytes: [u8; LEN],
    // The text is in these places.
    start: usize,
    end: usize,
    ghost within: { (start ≤ end) × (end ≤ LEN) × (end ≤ start + 22) },
    ghost ascii: { IsAscii (take (end - start) (drop start bytes)) },
}

impl Shortest {
    ghost use Rattle.font_decimal.specs.{Shortest.IsShortest, Shortest.shortest_text, Shown.shown};

    /// Formats the raw value `bits` with `f` fraction bits, at most 30: of 0, an integer. For a
    /// value of a type, use its `to_decimal`.
    ///
    /// Of the decimals with the fewest fractional digits that parse back to `bits`, this is the
    /// nearest, and of two the one farther from zero.
    ///
    /// # Panics
    ///
    /// Panics in Rust if `f` exceeds 30. In Rattle that is a precondition.
    #[inline(always)]
    pub fn new(bits: i64, f: u32) -> Self
        requires { f ≤ 30 }
        ensures shortest { IsShortest bits f (shown result) }
        ensures text { shown result ≡ shortest_text bits f }
    {
        // Rust, which does not check the precondition, panics here.
        prove!(f <= 30, "the number of fraction bits exceeds 30");
        let magnitude = bits.unsigned_abs();
        // The point is there before the digits.
        let mut bytes = [b'.'; LEN];
        let places = shortest_fraction(&mut bytes, magnitude, f);
        let end = if places > 0 {
            POINT + 1 + places
        } else {
            POINT
        };
        let start = put_whole(&mut bytes, magnitude >> f);
        let start = put_sign(&mut bytes, start, bits < 0);
        Self { bytes, start, end }
    }

    /// Returns the decimal as a string.
    #[tactic(auto, using(crate::proofs::Buffer::buffers), unfolding(crate::specs::Shown::shown))]
    pub fn as_str(&self) -> &str
        ensures text { result.now ≡ shown self.now }
        ensures short { length result.now ≤ 22 }
    {
        // SAFETY: only `new` makes the bytes, and the text is digits, `.` and `-`, so it is ASCII.
        unsafe { std::str::from_utf8_unchecked(&self.bytes[self.start..self.end]) }
    }
}

impl fmt::Display for Shortest {
    ghost use Rattle.std.specs.{Prelude.[], Fmt.padded_integral};
    ghost use Rattle.font_decimal.specs.{Shown.shown, Padding.has_minus, Padding.unsigned_body};

    ghost output = { λ s. Some (shown s) };

    ghost styled_output = { λ s options. Some
        (padded_integral options (has_minus (shown s)) [] (unsigned_body (shown s))) };

    fn fmt<W: fmt::Write>(&self, f: &mut fmt::Formatter<W>) -> fmt::Result {
        let text = self.as_str();
        if f.width().is_none() && !f.sign_plus() {
            return f.write_str(text);
        }
        match text.strip_prefix('-') {
            Some(digits) => f.pad_integral(false, "", digits),
            None => f.pad_integral(true, "", text),
        }
    }
}

// Writes the digits of the shortest fraction of `magnitude / 2^f` after the point, and returns how
// many there are. In units of the last place written so far, the remainder is `rest / unit`, and
// half a unit of the raw value is `margin / unit`.
#[inline(always)]
fn shortest_fraction(bytes: &mut [u8; LEN], magnitude: u64, f: u32) -> usize
    requires { f ≤ 30 }
    ensures places { result ≡ fewest_places magnitude f }
    ensures digits { take (POINT + 1 + result) bytes.new
        ≡ take (POINT + 1) bytes.old ++ last_digits result (nearest_numeral magnitude f result) }
{
    let step = 1u64 << f;
    let unit = 1u64 << (f + 1);
    let mut rest = 2 * (magnitude % step);
    let mut margin = 1u64;
    let mut places = 0;
    while rest.min(unit - rest) >= margin {
        let tenfold = 10 * rest;
        bytes[POINT + 1 + places] = b'0' + (tenfold / unit) as u8;
        rest = tenfold % unit;
        margin *= 10;
        places += 1;
    }
    if 2 * rest >= unit {
        // This never carries: if the last digit was 9, one place fewer would do.
        bytes[POINT + places] += 1;
    }
    places
}

// Writes an integer before the point, and returns where it begins.
#[inline(always)]
fn put_whole(bytes: &mut [u8; LEN], whole: u64) -> usize
    requires { length (decimal whole) ≤ 19 }
    ensures start { result + length (decimal whole) ≡ POINT }
    ensures text { drop result bytes.new ≡ decimal whole ++ drop POINT bytes.old }
{
    let mut left = whole;
    let mut start = POINT;
    while left >= 100 {
        start = put_pair(bytes, start, (left % 100) as u8);
        left /= 100;
    }
    if left >= 10 {
        return put_pair(bytes, start, left as u8);
    }
    bytes[start - 1] = b'0' + left as u8;
    start - 1
}

// Writes two digits before index `end`, and returns where they begin.
#[inline(always)]
fn put_pair(bytes: &mut [u8; LEN], end: usize, pair: u8) -> usize
    requires room { (2 ≤ end) × (end ≤ LEN) }
    requires digits { pair < 100 }
    ensures start { result + 2 ≡ end }
    ensures text { drop result bytes.new
        ≡ (48 + pair / 10) ∷ ((48 + pair % 10) ∷ drop end bytes.old) }
{
    bytes[end - 1] = b'0' + pair % 10;
    bytes[end - 2] = b'0' + pair / 10;
    end - 2
}

// Writes a `-` before a negative number, and returns where the text begins.
#[inline(always)]
fn put_sign(bytes: &mut [u8; LEN], start: usize, negative: bool) -> usize
    requires { (0 < start) × (start ≤ LEN) }
    ensures start { result + length (sign_text negative) ≡ start }
    ensures text { drop result bytes.new ≡ sign_text negative ++ drop start bytes.old }
{
    if !negative {
        return start;
    }
    bytes[start - 1] = b'-';
    start - 1
}
